//! Highlighting: each leaf of a file is asked for its tag, with its neighbours.

use crate::digest::{Digest, Outcome};
use crate::document::{Shape, document};
use crate::random::Random;
use std::alloc::Global;
use typst_parser::{LinkedNode, SyntaxNode, UnicodeClasses, highlight, parse};

/// A given number of bytes are shown on the screen.
const SCREEN: usize = 4000;

/// The texts that are walked through from end to end: what they are like, and their bytes.
static WHOLE: [(Shape, usize); 5] = [
    (Shape::Document, 10_000),
    (Shape::Document, 40_000),
    (Shape::OneBlock, 20_000),
    (Shape::Package, 20_000),
    (Shape::LongTable, 15_000),
];

/// The texts of which a screen is shown.
static SHOWN: [(Shape, usize); 2] = [(Shape::Document, 100_000), (Shape::OneBlock, 100_000)];

/// Walks through documents of 10 and 40 kilobytes, one that is a block, a package, and a page of prose
/// above a table of more than a hundred cells, and shows what is on the screen of documents of 100 kilobytes.
pub fn walking(alloc: Global, random: &mut Random, outcome: &mut Outcome) -> anyhow::Result<()> {
    for (shape, bytes) in &WHOLE {
        walk(&parsed(alloc, random, *shape, *bytes)?, 0, *bytes, outcome);
    }
    for (shape, bytes) in &SHOWN {
        let root = parsed(alloc, random, *shape, *bytes)?;
        let top = random.below(bytes.saturating_sub(SCREEN));
        walk(&root, top, top.saturating_add(SCREEN), outcome);
    }
    Ok(())
}

/// The tree of a text of a shape, of about a given number of bytes.
fn parsed(
    alloc: Global,
    random: &mut Random,
    shape: Shape,
    bytes: usize,
) -> anyhow::Result<SyntaxNode> {
    let text = document(alloc, random, shape, bytes)?;
    Ok(parse(alloc, text.as_str(), &UnicodeClasses)?)
}

/// Walks through the leaves of a tree that begin from one byte on up to another one, there and back.
fn walk(root: &SyntaxNode, start: usize, end: usize, outcome: &mut Outcome) {
    if root.descendants() == usize::MAX {
        return;
    }
    let Some(first) = first_leaf(LinkedNode::new(root), start) else {
        return;
    };
    let mut leaf = first;
    let mut leaves = 0usize;
    for _ in 0..root.descendants() {
        show(leaf, &mut outcome.digest);
        leaves = leaves.saturating_add(1);
        match leaf.next_leaf() {
            Some(next) if next.offset() < end => leaf = next,
            _ => break,
        }
    }
    outcome.digest.add_size(leaves);
    for _ in 1..leaves {
        match leaf.prev_leaf() {
            Some(previous) => leaf = previous,
            None => break,
        }
        outcome.digest.add_size(leaf.offset());
    }
    outcome.hold(
        "the leaf at the end of the way back",
        leaf.offset() == first.offset(),
    );
}

/// The first leaf that counts from a byte on.
fn first_leaf<'a>(root: LinkedNode<'a>, byte: usize) -> Option<LinkedNode<'a>> {
    match root.leaf_at(byte) {
        None => root.leftmost_leaf(),
        Some(leaf) => match leaf.prev_leaf() {
            None => root.leftmost_leaf(),
            Some(previous) => previous.next_leaf(),
        },
    }
}

/// Shows a leaf: its tag, its range, and what stands after it, and the tags of up to three nodes above
/// it that begin where it begins, since the others were shown with an earlier leaf.
fn show(leaf: LinkedNode<'_>, digest: &mut Digest) {
    let range = leaf.range();
    digest.add_size(range.start);
    digest.add_size(range.end);
    digest.add_tag(highlight(&leaf));
    digest.add_kind(leaf.next_sibling_kind());
    let mut node = leaf;
    for _ in 0..3 {
        match node.parent() {
            None => return,
            Some(parent) => node = parent,
        }
        if node.offset() < leaf.offset() {
            return;
        }
        digest.add_kind(Some(node.kind()));
        digest.add_tag(highlight(&node));
    }
}
