//! Positions in lines.

use crate::changed::formatted;
use crate::digest::Outcome;
use crate::document::{Shape, document};
use crate::random::Random;
use crate::typing::boundary;
use std::alloc::Global;
use typst_parser::Lines;

/// What texts are like, their bytes, and how many positions are found in each.
static TEXTS: [(Shape, usize, usize); 5] = [
    (Shape::Document, 100_000, 3000),
    (Shape::Document, 1_000_000, 3000),
    (Shape::WideProse, 200_000, 3000),
    (Shape::ShortLines, 500_000, 3000),
    (Shape::LongLine, 100_000, 100),
];

/// Finds lines and positions in documents, prose in other scripts, short lines, and one long line.
pub fn positions(alloc: Global, random: &mut Random, outcome: &mut Outcome) -> anyhow::Result<()> {
    for (shape, bytes, queries) in &TEXTS {
        let text = document(alloc, random, *shape, *bytes)?;
        let mut lines = Lines::new(alloc, text)?;
        show(random, &lines, *queries, outcome);
        format(alloc, random, &mut lines, outcome)?;
        show(random, &lines, *queries, outcome);
    }
    Ok(())
}

/// Gives lines a text with many changes from front to back.
fn format(
    alloc: Global,
    random: &mut Random,
    lines: &mut Lines<String>,
    outcome: &mut Outcome,
) -> anyhow::Result<()> {
    let new = formatted(alloc, random, lines.text(), 20)?;
    let changed = lines.replace(new.as_str())?;
    outcome.digest.add(u64::from(changed));
    outcome.hold("a text after its replacement", lines.text() == new.as_str());
    Ok(())
}

/// Asks for all lines, the text's length in UTF-16, and so many positions.
fn show(random: &mut Random, lines: &Lines<String>, queries: usize, outcome: &mut Outcome) {
    let units = lines.len_utf16();
    outcome.digest.add_size(units);
    for number in 0..lines.len_lines() {
        if let Some(line) = lines.line(number) {
            outcome.digest.add_size(line.byte_idx());
            outcome.digest.add_size(line.utf16_idx());
        }
    }
    let mut agrees = true;
    for _ in 0..queries {
        let byte = boundary(lines.text(), random.below(lines.len_bytes()));
        agrees = agrees && ask(lines, byte, outcome);
        outcome
            .digest
            .add_place(lines.utf16_to_byte(random.below(units)));
    }
    outcome.hold("the way back from a position", agrees);
}

/// Asks for the line, the column and the UTF-16 offset of a byte and for the ways back, and answers
/// whether these lead to the byte.
fn ask(lines: &Lines<String>, byte: usize, outcome: &mut Outcome) -> bool {
    let digest = &mut outcome.digest;
    digest.add_place(lines.byte_to_line(byte));
    let place = lines.byte_to_line_column(byte);
    digest.add_line_column(place);
    let units = lines.byte_to_utf16(byte);
    digest.add_place(units);
    let (Some((line, column)), Some(units)) = (place, units) else {
        return false;
    };
    if let Some(range) = lines.line_to_range(line) {
        digest.add_size(range.end);
    }
    lines.line_column_to_byte(line, column) == Some(byte)
        && lines.utf16_to_byte(units) == Some(byte)
}
