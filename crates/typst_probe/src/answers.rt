//! The word `edits`.

use std::alloc::{AllocError, Global};
use typst_edited::cli::{Source, UnicodeClasses};
use typst_edited::{Edit, Made, Wanted, are_same, edit_of, fault, source_of};
use typst_rows::with_line_feeds;

/// Prints what edits of a text answer that are made one after the other: they stand on the first lines, and the
/// text comes after an empty line. Each has a line with the bytes that it reads, and a line for each
/// thing that isn't as it has to be.
pub fn print(alloc: Global, printed: &mut String, text: &str) -> Result<(), AllocError> {
    let Some((edits, text)) = text.split_once("\n\n") else {
        return printed.push_str("no text\n");
    };
    let mut source = source_of(alloc, text, UnicodeClasses)?;
    for line in edits.split('\n') {
        print_line(alloc, printed, &mut source, line)?;
    }
    Ok(())
}

/// Prints what the edit of a line answers.
pub fn print_line(
    alloc: Global,
    printed: &mut String,
    source: &mut Source<UnicodeClasses>,
    line: &str,
) -> Result<(), AllocError> {
    let line = with_line_feeds(alloc, line)?;
    match edit_of(line.as_str()) {
        Some(edit) => print_answer(alloc, printed, source, edit),
        None => printed.push_str("no edit\n"),
    }
}

/// Makes an edit of a source and of a copy, and has another copy replace its text by the new one.
fn print_answer(
    alloc: Global,
    printed: &mut String,
    source: &mut Source<UnicodeClasses>,
    edit: Edit<'_>,
) -> Result<(), AllocError> {
    let Some(text) = edit.applied(alloc, source.text())? else {
        return printed.push_str("bad range\n");
    };
    let mut other = source.try_clone()?;
    let made = print_made(alloc, printed, source, edit)?;
    print_replaced(printed, &mut other, text.as_str(), &made)?;
    print_faults(alloc, printed, source, &other, text.as_str())
}

/// Makes an edit of a source and of a copy.
fn print_made(
    alloc: Global,
    printed: &mut String,
    source: &mut Source<UnicodeClasses>,
    edit: Edit<'_>,
) -> Result<Made, AllocError> {
    let mut copy = source.try_clone()?;
    let made = make_again(alloc, source, &copy, edit)?;
    made.print(printed)?;
    print_other(printed, "copy", &made, &edit.make(&mut copy)?)?;
    print_unlike(alloc, printed, source, &copy)?;
    Ok(made)
}

/// Prints whether a copy has other spans than the source.
fn print_unlike(
    alloc: Global,
    printed: &mut String,
    source: &Source<UnicodeClasses>,
    copy: &Source<UnicodeClasses>,
) -> Result<(), AllocError> {
    if are_same(alloc, source, copy)? {
        return Ok(());
    }
    printed.push_str("copy: other spans\n")
}

/// Replaces the text of a copy, and prints what differs there from what the edit left.
fn print_replaced(
    printed: &mut String,
    other: &mut Source<UnicodeClasses>,
    text: &str,
    made: &Made,
) -> Result<(), AllocError> {
    let by_text = Made::of(other.replace(text))?;
    print_other(printed, "replace", made, &by_text)
}

/// Makes an edit. Where memory is refused, the source has to be as its copy, and the edit is made again.
fn make_again(
    alloc: Global,
    source: &mut Source<UnicodeClasses>,
    copy: &Source<UnicodeClasses>,
    edit: Edit<'_>,
) -> Result<Made, AllocError> {
    if let Ok(made) = edit.make(source) {
        return Ok(made);
    }
    if are_same(alloc, source, copy)? {
        edit.make(source)
    } else {
        Ok(Made::Fault("changed"))
    }
}

/// Prints what came of the edit for another source, where it is something else.
fn print_other(
    printed: &mut String,
    name: &str,
    made: &Made,
    other: &Made,
) -> Result<(), AllocError> {
    if made == other {
        return Ok(());
    }
    write!(printed, "{name}: ")?;
    other.print(printed)
}

/// Prints what of a source, and of the copy that has replaced its text, isn't as the new text asks for.
fn print_faults(
    alloc: Global,
    printed: &mut String,
    source: &Source<UnicodeClasses>,
    other: &Source<UnicodeClasses>,
    text: &str,
) -> Result<(), AllocError> {
    let wanted = Wanted::of(alloc, text, &UnicodeClasses)?;
    for (name, source) in [("source", source), ("replace", other)] {
        if let Some(fault) = fault(alloc, source, &wanted, true)? {
            writeln!(printed, "{name}: {fault}")?;
        }
    }
    Ok(())
}
