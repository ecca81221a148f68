//! Opening: the files of a project become sources, and are shown as pages.

use crate::digest::Outcome;
use crate::document::Shape;
use crate::random::Random;
use crate::typing::{hold_tree, source};
use std::alloc::Global;
use typst_parser::{Source, UnicodeClasses, highlight_html};

/// How many files a project has.
const FILES: usize = 22;

/// Opens a project: documents of 2 to 50 kilobytes, packages, comments, formulas, nests, prose in other
/// scripts, and a document of a megabyte. Of one in ten files the tree is held against one that is newly
/// parsed, in each round of others.
pub fn opening(
    alloc: Global,
    random: &mut Random,
    round: usize,
    outcome: &mut Outcome,
) -> anyhow::Result<()> {
    for file in 0..FILES {
        let (shape, bytes) = file_of_project(random, file);
        let source = source(alloc, random, shape, bytes)?;
        show(alloc, &source, outcome)?;
        if file % 10 == round % 10 {
            hold_tree(alloc, &source, "a source's tree", outcome)?;
        }
    }
    Ok(())
}

/// The shape and the size of one of a project's files.
fn file_of_project(random: &mut Random, file: usize) -> (Shape, usize) {
    match file {
        0..12 => (Shape::Document, random.between(2000, 50_000)),
        12..16 => (Shape::Package, random.between(5000, 100_000)),
        16 => (Shape::Comments, 50_000),
        17 => (Shape::Formulas, 50_000),
        18 => (Shape::Nested, 50_000),
        19 => (Shape::WideProse, 50_000),
        20 => (Shape::OneBlock, 50_000),
        _ => (Shape::Document, 1_000_000),
    }
}

/// Makes the page of a source.
fn show(
    alloc: Global,
    source: &Source<UnicodeClasses>,
    outcome: &mut Outcome,
) -> anyhow::Result<()> {
    outcome.digest.add_tree(source.root());
    outcome.digest.add_size(source.lines().len_utf16());
    let page = highlight_html(alloc, source.root())?;
    outcome.digest.add_text(page.as_str());
    outcome.hold(
        "the length of a source's tree",
        source.root().len() == source.text().len(),
    );
    Ok(())
}
