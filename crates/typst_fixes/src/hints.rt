//! What hints propose.

ghost use Rattle.std.specs.Prelude.{◌≡◌};
ghost use Rattle.typst_fixes.specs.Fixes as spec;

use std::ops::Range;

/// Whether a hint proposes to wrap code in a content block, for a label after it.
pub fn wants_block(message: &str) -> bool
    ensures { result ≡ spec.wants_block message.now }
{
    message == "try wrapping your code in a markup block (`[ ]`)"
}

/// The byte at which a hint proposes a backslash, if it does so, for an error of some bytes.
pub fn backslash_at(message: &str, problem: &Range<usize>) -> Option<usize>
    ensures { result ≡ spec.backslash_at message.now problem.now }
{
    match message {
        "try using a backslash escape: \\]" => Some(problem.start),
        "try escaping the preceding hash: `\\#`" => Some(problem.start.saturating_sub(1)),
        "consider escaping the `*` with a backslash or opening the block comment with `/*`" => Some(
            problem.start,
        ),
        _ => None,
    }
}

/// How many bytes of space a text begins with, if a bracket follows them.
pub fn space_before_bracket(text: &str) -> Option<usize> {
    let rest = text.trim_start();
    if rest.starts_with('(') || rest.starts_with('[') {
        Some(text.len().saturating_sub(rest.len()))
    } else {
        None
    }
}

/// What a hint proposes between backticks for what an error is about.
pub fn proposed_by(message: &str) -> Option<&str> {
    if let Some(rest) = message.strip_prefix("try using a decimal number: `") {
        return rest.strip_suffix('`');
    }
    if let Some(rest) = message.strip_prefix("in Typst, `") {
        return Some(rest.split_once('`')?.0);
    }
    let (before, after) = message.split_once("; try `")?;
    if before.starts_with("keyword `") {
        after.strip_suffix("` instead")
    } else {
        None
    }
}

/// Whether two characters that come to stand side by side would join words.
pub fn touch(before: Option<char>, behind: Option<char>) -> bool {
    match (before, behind) {
        (Some(before), Some(behind)) => is_of_word(before) && is_of_word(behind),
        _ => false,
    }
}

/// Whether a character is one of a word.
pub fn is_of_word(c: char) -> bool {
    c.is_alphanumeric() || c == '_'
}
