//! Boundaries among the children of a tree's root, which are sought from one that is near.

ghost use Rattle.std.specs.Prelude.{◌≡◌, ◌<◌, ◌≤◌, true};
ghost use Rattle.typst_tree.specs.Boundaries.{AreCounted, IsBoundary};

use typst_tree::{Boundary, SyntaxNode};

/// Whether the nodes and the bytes of a tree can be counted.
pub fn is_counted(root: &SyntaxNode) -> bool
    ensures { result ≡ true → AreCounted root.now }
{
    root.descendants() < usize::MAX && root.len() < usize::MAX
}

/// The last boundary among the root's children that isn't after a byte, or that before all of them. It is sought
/// from a known one, or from an end that is nearer, over the children between.
pub fn last_to(root: &SyntaxNode, known: Boundary, byte: usize) -> Boundary
    requires counted { AreCounted root.now }
    requires boundary { IsBoundary root.now known }
    ensures boundary { IsBoundary root.now result }
    ensures low { 0 < result.index → result.bytes ≤ byte }
{
    let from = nearest(root, known, byte);
    let begun = back_to(root, from, byte);
    on_to(root, begun, byte)
}

/// The known boundary, or that at an end which is nearer to the byte.
fn nearest(root: &SyntaxNode, known: Boundary, byte: usize) -> Boundary
    requires counted { AreCounted root.now }
    requires boundary { IsBoundary root.now known }
    ensures { IsBoundary root.now result }
{
    let end = nearer_end(root, byte);
    if end.bytes.abs_diff(byte) < known.bytes.abs_diff(byte) {
        end
    } else {
        known
    }
}

/// The boundary before all children or after all, whichever is nearer to the byte.
fn nearer_end(root: &SyntaxNode, byte: usize) -> Boundary
    requires { AreCounted root.now }
    ensures { IsBoundary root.now result }
{
    let front = Boundary::front_of(root);
    let rear = Boundary::rear_of(root);
    if front.bytes.abs_diff(byte) < rear.bytes.abs_diff(byte) {
        front
    } else {
        rear
    }
}

/// The last boundary up to one that isn't after a byte, or that before all children.
fn back_to(root: &SyntaxNode, from: Boundary, byte: usize) -> Boundary
    requires counted { AreCounted root.now }
    requires boundary { IsBoundary root.now from }
    ensures boundary { IsBoundary root.now result }
    ensures low { 0 < result.index → result.bytes ≤ byte }
{
    let mut last = from;
    while last.index > 0 {
        if last.bytes <= byte {
            return last;
        }
        last = last.before(root);
    }
    last
}

/// The last boundary from one on that isn't after a byte.
fn on_to(root: &SyntaxNode, from: Boundary, byte: usize) -> Boundary
    requires counted { AreCounted root.now }
    requires boundary { IsBoundary root.now from }
    requires low { 0 < from.index → from.bytes ≤ byte }
    ensures boundary { IsBoundary root.now result }
    ensures low { 0 < result.index → result.bytes ≤ byte }
{
    let count = root.children().len();
    let mut here = from;
    while here.index < count {
        let next = here.after(root);
        if byte < next.bytes {
            return here;
        }
        here = next;
    }
    here
}
