//! The word `edit-lines`.

use std::alloc::{AllocError, Global};
use typst_edited::Edit;
use typst_edited::cli::Lines;

/// Prints the text after an edit of its lines, and below it where these start, as the word `lines` has it.
pub fn print_after(
    alloc: Global,
    printed: &mut String,
    text: &str,
    edit: Edit<'_>,
) -> Result<(), AllocError> {
    let mut lines = Lines::new(alloc, String::from_str(alloc, text)?)?;
    if edit.make_of_lines(&mut lines)? {
        print_lines(printed, &lines)
    } else {
        printed.push_str("bad range\n")
    }
}

/// Prints the text, where each line starts, and the totals.
fn print_lines(printed: &mut String, lines: &Lines<String>) -> Result<(), AllocError> {
    let text = lines.text();
    writeln!(printed, "{text:?}")?;
    for number in 0..lines.len_lines() {
        if let Some(line) = lines.line(number) {
            let (byte, utf16) = (line.byte_idx(), line.utf16_idx());
            writeln!(printed, "{number} {byte} {utf16}")?;
        }
    }
    let (bytes, utf16, count) = (lines.len_bytes(), lines.len_utf16(), lines.len_lines());
    writeln!(printed, "bytes {bytes} utf16 {utf16} lines {count}")
}
