//! The words `tokens`, `tokens-code` and `tokens-math`.

use std::alloc::{AllocError, Global};
use typst_edited::cli::tree::print_head;
use typst_edited::cli::{Classes, SyntaxMode, UnicodeClasses};
use typst_lexer::{Lexer, make_node};
use typst_tokens::Token;

/// Prints the tokens of the text in a mode. Each has a line with its kind, its range in bytes and, for an
/// error, its message; below an error stand its hints, two spaces deeper.
pub fn print<C: Classes>(
    alloc: Global,
    printed: &mut String,
    text: &str,
    mode: SyntaxMode,
    classes: &C,
) -> Result<(), AllocError> {
    let mut lexer = Lexer::new(text, mode, classes);
    for _ in text.as_bytes() {
        let start = lexer.cursor();
        let (token, taken) = lexer.scan(alloc)?;
        if taken.is_empty() {
            return Ok(());
        }
        print_token(alloc, printed, token, taken, (start, lexer.cursor()))?;
    }
    Ok(())
}

/// Prints a token that took the text between two bytes.
fn print_token(
    alloc: Global,
    printed: &mut String,
    token: Token,
    taken: &str,
    (start, end): (usize, usize),
) -> Result<(), AllocError> {
    if token.fault.is_some() {
        let node = make_node(alloc, token, taken, &UnicodeClasses)?;
        return print_head(printed, &node, "", "  ", start..end);
    }
    let name = token.kind.variant_name();
    writeln!(printed, "{name} {start}..{end}")
}
