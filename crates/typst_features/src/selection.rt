//! The nodes around a byte.

ghost use Rattle.std.specs.Prelude.{◌≡◌, IfOk};
ghost use Rattle.typst_tree.specs.Tree.{none, more};
ghost use Rattle.typst_names.specs.Around.{has_range, range_of};
ghost use Rattle.typst_names.specs.Selections as spec;

use std::alloc::{AllocError, Global};
use std::ops::Range;
use typst_names::Placed;
use typst_tree::SyntaxNode;

/// How many ranges `selections` gives at most.
pub const MOST_SELECTIONS: usize = 100;

/// The ranges of the nodes that hold a byte, from the leaf outwards, each larger than the one before it:
/// the innermost 100 where there are more. At the text's end the last byte counts; an empty text has none.
///
/// Goes through the children of each node around the byte.
pub fn selections(
    alloc: Global,
    root: &SyntaxNode,
    byte: usize,
) -> Result<Vec<Range<usize>>, AllocError>
    ensures { IfOk result (λ ranges. ranges.items ≡ spec.selections MOST_SELECTIONS byte root.now) }
{
    let byte = byte.min(root.len().saturating_sub(1));
    let mut ranges = ranges_around(alloc, root, byte)?;
    ranges.reverse();
    ranges.truncate(MOST_SELECTIONS);
    Ok(ranges)
}

/// The ranges of the nodes that hold a byte, from the root inwards, each smaller than the one before it.
fn ranges_around(
    alloc: Global,
    root: &SyntaxNode,
    byte: usize,
) -> Result<Vec<Range<usize>>, AllocError>
    ensures { IfOk result (λ ranges. ranges.items ≡ spec.different (spec.around byte 0 (more root.now.head root.now.kids none))) }
{
    let mut ranges = Vec::new(alloc);
    let mut around = Placed::top(root).if_holds(byte);
    while let Some(placed) = around {
        let kid = placed.child_at(byte);
        if !is_as_large(kid, placed) {
            ranges.push(placed.range())?;
        }
        around = kid;
    }
    Ok(ranges)
}

/// Whether there is a node that has the range of another one.
fn is_as_large(node: Option<Placed<'_>>, other: Placed<'_>) -> bool
    ensures { result ≡ has_range node.entry (range_of other.entry) }
{
    match node {
        Some(node) => node.start == other.start && node.end() == other.end(),
        None => false,
    }
}
