//! Texts as another program leaves them.

use crate::random::Random;
use std::alloc::{AllocError, Global};

/// The text with something put after one of so many lines, and with the spaces at the ends of lines
/// left out.
pub fn formatted(
    alloc: Global,
    random: &mut Random,
    text: &str,
    lines: usize,
) -> Result<String, AllocError> {
    let mut out = String::new(alloc);
    for line in text.split_inclusive('\n') {
        push_formatted(&mut out, random, line, lines)?;
    }
    Ok(out)
}

/// Adds a line without the spaces at its end, with something put after it in one of so many cases.
fn push_formatted(
    out: &mut String,
    random: &mut Random,
    line: &str,
    cases: usize,
) -> Result<(), AllocError> {
    out.push_str(line.trim_end())?;
    if random.one_in(cases) {
        out.push_str(random.pick(&[" so", " // new", " 12", " *it*"]))?;
    }
    if line.ends_with('\n') {
        out.push_str("\n")?;
    }
    Ok(())
}

/// The text with a word put in at a place, which is on a boundary of a character.
pub fn with_word(
    alloc: Global,
    text: &str,
    place: usize,
    word: &str,
) -> Result<String, AllocError> {
    let mut out = String::new(alloc);
    if let (Some(front), Some(after)) = (text.get(..place), text.get(place..)) {
        for part in [front, word, after] {
            out.push_str(part)?;
        }
    }
    Ok(out)
}
