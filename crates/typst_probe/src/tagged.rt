//! The word `tagged`.

use std::alloc::{AllocError, Global};
use typst_edited::cli::{UnicodeClasses, parse, tag_stretches};

/// Prints the stretches of the text's tree: a line for each, with its range in bytes and its tag, or `none`.
pub fn print(alloc: Global, printed: &mut String, text: &str) -> Result<(), AllocError> {
    let root = parse(alloc, text, &UnicodeClasses)?;
    for stretch in &tag_stretches(alloc, &root)? {
        let (start, end) = (stretch.range.start, stretch.range.end);
        match stretch.tag {
            Some(tag) => writeln!(printed, "{start}..{end} {tag:?}")?,
            None => writeln!(printed, "{start}..{end} none")?,
        }
    }
    Ok(())
}
