//! The word `look`.

use std::alloc::{AllocError, Global};
use typst_edited::cli::{SyntaxKind, SyntaxMode, UnicodeClasses};
use typst_lexer::lexer::token;
use typst_lines::Scanner;
use typst_tokens::LineEnd;

/// Prints the tokens of the text as markup. Each has a line with its kind, its range in bytes, and the bytes that
/// were looked at for it, where `front` and `rear` are the marks before and after the text.
pub fn print(alloc: Global, printed: &mut String, text: &str) -> Result<(), AllocError> {
    let mut at = 0;
    for _ in text.as_bytes() {
        at = print_token(alloc, printed, text, at)?;
    }
    Ok(())
}

/// Prints the line of the token at a byte, and gives where the token ends.
fn print_token(
    alloc: Global,
    printed: &mut String,
    text: &str,
    at: usize,
) -> Result<usize, AllocError> {
    if !text.is_char_boundary(at) {
        return Ok(at);
    }
    let mut start = Scanner::new(text);
    start.jump(at);
    let mut line = LineEnd::of_text(start.string());
    let read = token(alloc, start, &mut line, SyntaxMode::Markup, &UnicodeClasses)?;
    if read.token.kind == SyntaxKind::End {
        return Ok(at);
    }
    let (name, end) = (read.token.kind.variant_name(), read.after.cursor());
    write!(printed, "{name} {at}..{end} looks ")?;
    match read.hull.least.checked_sub(1) {
        None => printed.push_str("front..")?,
        Some(byte) => write!(printed, "{byte}..")?,
    }
    let reach = read.hull.reach;
    if text.len() < reach {
        printed.push_str("rear\n")?;
    } else {
        writeln!(printed, "{reach}")?;
    }
    Ok(end)
}
