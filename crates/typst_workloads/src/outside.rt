//! Files that changed outside, and sources that are kept as they were.

use crate::changed::{formatted, with_word};
use crate::digest::Outcome;
use crate::document::Shape;
use crate::random::Random;
use crate::typing::{as_anyhow, boundary, hold_tree, source};
use std::alloc::Global;
use typst_parser::{Source, SyntaxNode, UnicodeClasses};

/// The files that change: what they are like, and their bytes.
static FILES: [(Shape, usize); 3] = [
    (Shape::Document, 100_000),
    (Shape::Package, 100_000),
    (Shape::Document, 500_000),
];

/// Replaces the texts of two sources of 100 kilobytes and one of 500, and keeps them as they were.
pub fn outside(alloc: Global, random: &mut Random, outcome: &mut Outcome) -> anyhow::Result<()> {
    for (shape, bytes) in &FILES {
        let mut source = source(alloc, random, *shape, *bytes)?;
        change(alloc, random, &mut source, outcome)?;
    }
    Ok(())
}

/// Replaces the text of a source some times, and keeps it as it was.
fn change(
    alloc: Global,
    random: &mut Random,
    source: &mut Source<UnicodeClasses>,
    outcome: &mut Outcome,
) -> anyhow::Result<()> {
    let kept = source.try_clone()?;
    replace_some(alloc, random, source, outcome)?;
    outcome.digest.add_tree(kept.root());
    hold_tree(alloc, source, "a tree after replacements", outcome)?;
    outcome.hold(
        "the length of a kept tree",
        kept.root().len() == kept.text().len(),
    );
    Ok(())
}

/// Gives a source a text with one change, four times, the text that it has, and one with many changes
/// from front to back; and keeps its tree as it was before the last.
fn replace_some(
    alloc: Global,
    random: &mut Random,
    source: &mut Source<UnicodeClasses>,
    outcome: &mut Outcome,
) -> anyhow::Result<()> {
    for word in ["one ", "two ", "three ", "four "] {
        add_word(alloc, random, source, word, outcome)?;
    }
    let same = String::from_str(alloc, source.text())?;
    replace(source, same.as_str(), outcome)?;
    let kept = source.root().try_clone()?;
    format_beside(alloc, random, source, &kept, outcome)
}

/// Gives a source a text with a word more.
fn add_word(
    alloc: Global,
    random: &mut Random,
    source: &mut Source<UnicodeClasses>,
    word: &str,
    outcome: &mut Outcome,
) -> anyhow::Result<()> {
    let place = boundary(source.text(), random.below(source.text().len()));
    let new = with_word(alloc, source.text(), place, word)?;
    replace(source, new.as_str(), outcome)
}

/// Gives a source a text with many changes from front to back, beside its tree as it was before.
fn format_beside(
    alloc: Global,
    random: &mut Random,
    source: &mut Source<UnicodeClasses>,
    kept: &SyntaxNode,
    outcome: &mut Outcome,
) -> anyhow::Result<()> {
    let new = formatted(alloc, random, source.text(), 20)?;
    replace(source, new.as_str(), outcome)?;
    outcome.digest.add_tree(kept);
    Ok(())
}

/// Gives a source another text.
fn replace(
    source: &mut Source<UnicodeClasses>,
    new: &str,
    outcome: &mut Outcome,
) -> anyhow::Result<()> {
    source.replace(new).map_err(as_anyhow)?;
    outcome.digest.add_tree(source.root());
    Ok(())
}
