//! Nodes with the bytes at which they begin.

ghost use Rattle.std.specs.Prelude.{◌≡◌, ◌<◌, IfSome, Some, option_map};
ghost use Rattle.typst_tree.specs.Tree.{nodes};
ghost use Rattle.typst_names.specs.Bytes as spec;

use std::ops::Range;
use typst_tree::{SyntaxNode, Visit};

/// A node, and the byte at which it begins.
#[derive(Clone, Copy)]
pub struct Placed<'a> {
    pub node: &'a SyntaxNode,
    pub start: usize,
}

impl<'a> Placed<'a> {
    ghost use Rattle.typst_names.specs.Selections.{around, holds};
    ghost use Rattle.typst_names.specs.Around.{around_it, kid_at, range_of, standing, HoldsIt};

    /// The root of a tree.
    pub fn top(root: &'a SyntaxNode) -> Placed<'a>
        ensures node { result.node.now ≡ root.now }
        ensures start { result.start ≡ 0 }
    {
        Placed {
            node: root,
            start: 0,
        }
    }

    /// A node that a walk visits.
    pub fn of(visit: Visit<'a>) -> Placed<'a>
        ensures node { result.node.now ≡ visit.entry.node.now }
        ensures start { result.start ≡ visit.entry.offset }
    {
        Placed {
            node: visit.node,
            start: visit.offset,
        }
    }

    /// The byte at which its children begin: after its own text, which only a leaf has.
    pub fn inner_start(self) -> usize
        ensures { result ≡ spec.inner self.entry.start self.entry.node.now.head }
    {
        self.start.saturating_add(self.node.leaf_text().len())
    }

    /// The byte at which the node ends.
    pub fn end(self) -> usize
        ensures { result ≡ spec.behind self.entry.start self.entry.node.now.head self.entry.node.now.kids }
    {
        self.start.saturating_add(self.node.len())
    }

    /// The bytes of the node.
    pub fn range(self) -> Range<usize>
        ensures { result ≡ range_of self.entry }
    {
        self.start..self.end()
    }

    /// Whether the node holds a byte.
    fn holds(self, byte: usize) -> bool
        ensures { result ≡ holds byte (range_of self.entry) }
    {
        self.start <= byte && byte < self.end()
    }

    /// The node, if it holds a byte.
    pub fn if_holds(self, byte: usize) -> Option<Placed<'a>>
        ensures around { around_it byte (Some self.entry) ≡ around_it byte result }
        ensures holds { HoldsIt byte result }
    {
        if self.holds(byte) { Some(self) } else { None }
    }

    /// The child that holds a byte.
    pub fn child_at(self, byte: usize) -> Option<Placed<'a>>
        ensures kid { option_map standing result ≡ kid_at byte (spec.inner self.entry.start self.entry.node.now.head) self.entry.node.now.kids }
        ensures around { around byte (spec.inner self.entry.start self.entry.node.now.head) self.entry.node.now.kids ≡ around_it byte result }
        ensures holds { HoldsIt byte result }
        ensures smaller { IfSome result (λ kid. nodes kid.node.now < nodes self.entry.node.now) }
    {
        let mut start = self.inner_start();
        for node in self.node.children() {
            let kid = Placed { node, start };
            if kid.holds(byte) {
                return Some(kid);
            }
            start = kid.end();
        }
        None
    }
}
