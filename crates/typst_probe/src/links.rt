//! The word `link`.

use std::alloc::{AllocError, Global};
use typst_edited::cli::link_prefix;

/// Prints the range in bytes of the link that the text begins with, and whether its brackets are balanced.
pub fn print(alloc: Global, printed: &mut String, text: &str) -> Result<(), AllocError> {
    let (link, is_balanced) = link_prefix(alloc, text)?;
    let end = link.len();
    let brackets = if is_balanced {
        "balanced"
    } else {
        "unbalanced"
    };
    writeln!(printed, "0..{end} {brackets}")
}
