//! The word `calls`.

use std::alloc::{AllocError, Global};
use std::cell::Cell;
use typst_edited::{Edit, Made, edit_of};
use typst_fakes::Counting;

/// Prints which bytes an edit reads, and whether classes are asked at least so often when the source is made,
/// and at most so often for the edit. The first line has the two numbers and the edit's words, and the
/// text comes after that line.
pub fn print(alloc: Global, printed: &mut String, text: &str) -> Result<(), AllocError> {
    let Some((line, text)) = text.split_once('\n') else {
        return printed.push_str("no text\n");
    };
    let Some((least, most, edit)) = limits_of(line) else {
        return printed.push_str("no edit\n");
    };
    let (whole, _) = calls(alloc, text, Edit::REFUSED)?;
    let (all, made) = calls(alloc, text, edit)?;
    made.print(printed)?;
    let part = all.saturating_sub(whole);
    if whole < least || most < part {
        writeln!(printed, "{whole} calls for the source, {part} for the edit")?;
    }
    Ok(())
}

/// The two numbers and the edit that a line names.
fn limits_of(line: &str) -> Option<(usize, usize, Edit<'_>)> {
    let (least, rest) = line.split_once(' ')?;
    let (most, edit) = rest.split_once(' ')?;
    Some((least.parse().ok()?, most.parse().ok()?, edit_of(edit)?))
}

/// How often classes are asked for a source and an edit of it, with what came of that.
fn calls(alloc: Global, text: &str, edit: Edit<'_>) -> Result<(usize, Made), AllocError> {
    let calls = Cell::new(0usize);
    let (_source, made) = edit.source(alloc, text, Counting { calls: &calls })?;
    Ok((calls.get(), made))
}
