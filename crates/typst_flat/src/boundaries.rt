//! Boundaries among the children of a tree's root, which are sought from one that is near.

ghost use Rattle.std.specs.Prelude.{◌≡◌, ◌<◌, true};
ghost use Rattle.typst_tree.specs.Boundaries.{AreCounted, IsBoundary};
ghost use Rattle.typst_tree.specs.Tree.{Tree};

use typst_tree::{Boundary, SyntaxNode};

/// The last boundary among the root's children that is before a byte, or that before all of them. It is sought from
/// a known one, or from an end that is nearer, over the children between.
pub(crate) fn last_before(root: &SyntaxNode, known: Boundary, byte: usize) -> Boundary
    requires counted { AreCounted root.now }
    requires boundary { IsBoundary root.now known }
    ensures boundary { IsBoundary root.now result }
    ensures low { 0 < result.index → result.bytes < byte }
{
    let first = nearer(known, Boundary::front_of(root), byte);
    let from = nearer(first, Boundary::rear_of(root), byte);
    let begun = back_before(root, from, byte);
    on_before(root, begun, byte)
}

/// The first of two boundaries, or the second if that is nearer to a byte.
fn nearer(first: Boundary, second: Boundary, byte: usize) -> Boundary
    ensures { (root : Tree) → IsBoundary root first → IsBoundary root second → IsBoundary root result }
{
    if second.bytes.abs_diff(byte) < first.bytes.abs_diff(byte) {
        second
    } else {
        first
    }
}

/// The last boundary up to one that is before a byte, or that before all children.
fn back_before(root: &SyntaxNode, from: Boundary, byte: usize) -> Boundary
    requires counted { AreCounted root.now }
    requires boundary { IsBoundary root.now from }
    ensures boundary { IsBoundary root.now result }
    ensures low { 0 < result.index → result.bytes < byte }
{
    let mut last = from;
    'back: while last.index > 0 {
        if last.bytes < byte {
            return last;
        }
        last = last.before(root);
    }
    last
}

/// The last boundary from one on that is before a byte.
fn on_before(root: &SyntaxNode, from: Boundary, byte: usize) -> Boundary
    requires counted { AreCounted root.now }
    requires boundary { IsBoundary root.now from }
    requires low { 0 < from.index → from.bytes < byte }
    ensures boundary { IsBoundary root.now result }
    ensures low { 0 < result.index → result.bytes < byte }
{
    let count = root.children().len();
    let mut last = from;
    'on: while last.index < count {
        let next = last.after(root);
        if next.bytes >= byte {
            return last;
        }
        last = next;
    }
    last
}
