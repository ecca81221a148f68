//! Lines beside other lines. No call here takes memory.

use std::hash::{DefaultHasher, Hash, Hasher};
use typst_lines::{Lines, LinesFrom};

/// `==` and `hash` of lines: whether those of the same text are equal and have the same hash, and those of
/// another text aren't equal.
pub fn compare(lines: &Lines<String>, same: &Lines<String>, other: &Lines<String>) -> bool {
    let is_equal = *lines == *same && hash_of(lines) == hash_of(same);
    is_equal && *lines != *other
}

/// What lines hash to.
fn hash_of(lines: &Lines<String>) -> u64 {
    let mut hasher = DefaultHasher::new();
    lines.hash(&mut hasher);
    hasher.finish()
}

/// `LinesFrom`: whether the lines that are found in the text are those of the table, after the first.
pub fn are_found(lines: &Lines<String>) -> bool {
    let mut number = 1usize;
    for line in found(lines.text()) {
        if lines.line(number) != Some(line) {
            return false;
        }
        number = number.saturating_add(1);
    }
    number == lines.len_lines()
}

/// The lines of a text after the first.
fn found(text: &str) -> LinesFrom<'_> {
    LinesFrom::new(text, 0, 0)
}
