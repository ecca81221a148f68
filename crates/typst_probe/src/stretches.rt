//! The word `stretches`.

use std::alloc::{AllocError, Global};
use typst_edited::cli::SubRange;
use typst_lexer::raw_node;

/// Prints a line for each warning of the raw text, and for each of its hints after it: the bytes that it is
/// about, or `all` where it is about the whole text.
pub fn print(alloc: Global, printed: &mut String, text: &str) -> Result<(), AllocError> {
    let node = raw_node(alloc, text)?;
    for warning in node.diagnostics() {
        print_stretch(printed, "warning", warning.sub_range())?;
        for hint in warning.hints() {
            print_stretch(printed, "hint", hint.sub_range())?;
        }
    }
    Ok(())
}

fn print_stretch(
    printed: &mut String,
    word: &str,
    stretch: Option<SubRange>,
) -> Result<(), AllocError> {
    match stretch {
        None => writeln!(printed, "{word} all"),
        Some(range) => {
            let (start, end) = (range.start(), range.end());
            writeln!(printed, "{word} {start}..{end}")
        }
    }
}
