//! The words `candidates` and `candidates START END`.

use std::alloc::{AllocError, Global};
use typst_candidates::{Candidate, Candidates, Records, find_candidates, fit};
use typst_edited::cli::{UnicodeClasses, parse_noted};

/// Prints what may be read again where a range of bytes of the text is replaced, in order. Each candidate has
/// a line: `block`, the path to it and its bytes; or `run`, the path to the node whose children it is,
/// their numbers, and their bytes.
pub fn print_between(
    alloc: Global,
    printed: &mut String,
    text: &str,
    start: usize,
    end: usize,
) -> Result<(), AllocError> {
    if end < start || !text.is_char_boundary(start) || !text.is_char_boundary(end) {
        return printed.push_str("bad range\n");
    }
    let noted = parse_noted(alloc, text, &UnicodeClasses)?;
    if !fit(&noted.notes) {
        return printed.push_str("too long\n");
    }
    let records = Records::of_notes(alloc, &noted.notes, noted.hull.least)?;
    if records.last().is_none() {
        return printed.push_str("too long\n");
    }
    let found = find_candidates(
        alloc,
        &noted.tree,
        &records,
        start,
        end,
        usize::MAX,
        usize::MAX,
    )?;
    print_candidates(printed, &found)
}

/// Prints a line for each candidate.
fn print_candidates(printed: &mut String, found: &Candidates) -> Result<(), AllocError> {
    for candidate in &found.items {
        print_candidate(printed, candidate, found.path.as_slice())?;
    }
    Ok(())
}

/// Prints what a row of the word is answered. Its first line has where the replaced bytes start and end, and
/// the text comes after that line.
pub fn print(alloc: Global, printed: &mut String, text: &str) -> Result<(), AllocError> {
    let Some((words, text)) = text.split_once('\n') else {
        return printed.push_str("no text\n");
    };
    match range_of(words) {
        Some((start, end)) => print_between(alloc, printed, text, start, end),
        None => printed.push_str("no range\n"),
    }
}

/// The range that a line names.
fn range_of(words: &str) -> Option<(usize, usize)> {
    let (start, end) = words.split_once(' ')?;
    Some((start.parse().ok()?, end.parse().ok()?))
}

/// Prints the line of a candidate, whose path is a front of another.
fn print_candidate(
    printed: &mut String,
    candidate: &Candidate,
    path: &[usize],
) -> Result<(), AllocError> {
    let Candidate {
        is_block,
        depth,
        from,
        to,
        start,
        end,
    } = *candidate;
    printed.push_str(if is_block { "block" } else { "run" })?;
    let steps = depth.saturating_add(usize::from(is_block));
    let path = path.get(..steps).unwrap_or(path);
    if path.is_empty() {
        printed.push_str(" root")?;
    }
    for (i, step) in path.iter().enumerate() {
        let before = if i == 0 { " " } else { "." };
        write!(printed, "{before}{step}")?;
    }
    if !is_block {
        write!(printed, " {from}..{to}")?;
    }
    writeln!(printed, " {start}..{end}")
}
