//! The tokens by which a language server has a text shown: the words `semantic-tokens`, `tokens-in` and `deltas`.

use std::alloc::{AllocError, Global};
use std::ops::Range;
use typst_styles::{TokenKind, edit_between, semantic_tokens};
use typst_tree::{Boundary, SyntaxNode};

/// Shows the tokens in a range of a text: a line for each with where it begins, how long it is, and how it is shown.
pub fn tokens(
    alloc: Global,
    shown: &mut String,
    root: &SyntaxNode,
    text: &str,
    range: &Range<usize>,
) -> Result<(), AllocError> {
    let near = Boundary::front_of(root);
    for token in &semantic_tokens(alloc, root, text, range, near)? {
        let (start, len, kind) = (token.start, token.len, kind_name(token.style.kind));
        let declared = if token.style.is_declaration {
            " declaration"
        } else {
            ""
        };
        writeln!(shown, "{start}+{len} {kind}{declared}")?;
    }
    Ok(())
}

/// Shows the tokens in a range that is written as its first byte and its end: its line, and below it those of its
/// tokens.
pub fn tokens_in(
    alloc: Global,
    shown: &mut String,
    root: &SyntaxNode,
    text: &str,
    range: &str,
) -> Result<(), AllocError> {
    writeln!(shown, "{range}")?;
    let (start, end) = range.split_once("..").unwrap_or((range, ""));
    let within: Range<usize> = start.parse().unwrap_or(0)..end.parse().unwrap_or(0);
    tokens(alloc, shown, root, text, &within)
}

fn kind_name(kind: TokenKind) -> &'static str {
    match kind {
        TokenKind::Comment => "comment",
        TokenKind::Keyword => "keyword",
        TokenKind::Operator => "operator",
        TokenKind::Number => "number",
        TokenKind::String => "string",
        TokenKind::Function => "function",
        TokenKind::Variable => "variable",
        TokenKind::Punctuation => "punctuation",
        TokenKind::Escape => "escape",
        TokenKind::Strong => "strong",
        TokenKind::Emph => "emph",
        TokenKind::Link => "link",
        TokenKind::Raw => "raw",
        TokenKind::Label => "label",
        TokenKind::Ref => "ref",
        TokenKind::Heading => "heading",
        TokenKind::Marker => "marker",
        TokenKind::Term => "term",
        TokenKind::Delimiter => "delimiter",
        TokenKind::Error => "error",
        TokenKind::Parameter => "parameter",
        TokenKind::Property => "property",
        TokenKind::Namespace => "namespace",
    }
}

/// The edit that makes the list of numbers on the second line of that on the first: from which place on, how
/// many give way, and which numbers of the new list come.
pub fn delta(alloc: Global, text: &str) -> Result<String, AllocError> {
    let (old, new) = text.split_once('\n').unwrap_or((text, ""));
    let (old, new) = (numbers(alloc, old)?, numbers(alloc, new)?);
    match edit_between(old.as_slice(), new.as_slice()) {
        None => String::from_str(alloc, "none\n"),
        Some(edit) => {
            let (start, removed) = (edit.start, edit.removed);
            let (from, to) = (edit.inserted.start, edit.inserted.end);
            format!(in alloc; "{start} {removed} {from}..{to}\n")
        }
    }
}

/// The numbers of a line.
fn numbers(alloc: Global, line: &str) -> Result<Vec<u32>, AllocError> {
    let mut numbers = Vec::new(alloc);
    for word in line.split(' ') {
        if let Ok(number) = word.parse::<u32>() {
            numbers.push(number)?;
        }
    }
    Ok(numbers)
}
