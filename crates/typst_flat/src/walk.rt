//! The walk through a tree in preorder that leaves out what doesn't meet a stretch.

ghost use Rattle.std.specs.Prelude.{◌≡◌, ◌+◌, ◌-◌, ◌^◌, ◌<◌, IfOk, OnOk};
ghost use Rattle.typst_tree.specs.Tree.{nodes};
ghost use Rattle.typst_tree.specs.Linked.{linked};
ghost use Rattle.typst_tree.specs.Steps.{at};
ghost use Rattle.typst_flat.specs.Records.{meets};
ghost use Rattle.typst_flat.specs.Walk.{rows, Comes, IsAt, Stays, Takes};

use crate::Stretch;
use std::alloc::{AllocError, Global};
use typst_tree::{LinkedChildren, LinkedNode, SyntaxNode};

/// The children of a node that a walk has still to come to.
#[derive(Drop)]
struct Row<'t> {
    nodes: LinkedChildren<'t>,
    /// The number of their parent.
    parent: usize,
}

/// A node that a walk has come to.
#[derive(Clone, Copy)]
pub struct Place<'t> {
    pub node: LinkedNode<'t>,
    pub number: usize,
    /// The number of the parent; of the root 0.
    pub parent: usize,
}

/// The nodes of a tree that meet a stretch, each before its children, as far as a walk has still to come to
/// them.
///
/// It doesn't call itself, whatever the depth of the tree, and takes memory for the rows on the way to the
/// next node. What is below a node that doesn't meet the stretch is passed over.
#[derive(Drop)]
pub struct Walk<'t> {
    stretch: Stretch,
    root: &'t SyntaxNode,
    /// The number of the next node, if all were come to.
    number: usize,
    /// The rows on the way to it, the innermost last.
    rows: Vec<Row<'t>>,
}

impl<'t> Walk<'t> {
    /// The walk through all of a tree.
    pub fn new(alloc: Global, root: &'t SyntaxNode, stretch: Stretch) -> Walk<'t>
        ensures root { result.root.now ≡ root.now }
        ensures stretch { result.stretch ≡ stretch }
        ensures number { result.number ≡ 0 }
        ensures ready { Stays result }
    {
        Walk {
            stretch,
            root,
            number: 0,
            rows: Vec::new(alloc),
        }
    }

    /// The next node, or none at the end.
    #[inline(always)]
    pub fn next(&mut self) -> Result<Option<Place<'t>>, AllocError>
        requires counted { nodes self.old.root.now < 2 ^ 64 - 1 }
        requires ready { Stays self.old }
        ensures root { OnOk result (self.new.root.now ≡ self.old.root.now) }
        ensures stretch { OnOk result (self.new.stretch ≡ self.old.stretch) }
        ensures comes { IfOk result (λ place. Comes self.old place self.new) }
    {
        'nodes: while let Some((node, parent)) = self.come() {
            if node.offset() > self.stretch.end {
                return Ok(None);
            }
            if self.stretch.meets(node) {
                let place = self.enter(node, parent)?;
                return Ok(Some(place));
            }
            self.number += node.get().descendants();
        }
        Ok(None)
    }

    /// The node of the next number, taken out of its row, with its parent's number; none at the end.
    #[inline(always)]
    fn come(&mut self) -> Option<(LinkedNode<'t>, usize)>
        requires counted { nodes self.old.root.now < 2 ^ 64 - 1 }
        requires ready { Stays self.old }
        ensures root { self.new.root.now ≡ self.old.root.now }
        ensures stretch { self.new.stretch ≡ self.old.stretch }
        ensures number { self.new.number ≡ self.old.number }
        ensures takes { Takes self.old result self.new }
    {
        if self.number == 0 {
            return Some((LinkedNode::new(self.root), 0));
        }
        self.come_below()
    }

    /// The node of the next number after the root, taken out of its row, with its parent's number; none at the end.
    #[inline(always)]
    fn come_below(&mut self) -> Option<(LinkedNode<'t>, usize)>
        requires begun { 0 < self.old.number }
        requires ready { Stays self.old }
        ensures root { self.new.root.now ≡ self.old.root.now }
        ensures stretch { self.new.stretch ≡ self.old.stretch }
        ensures number { self.new.number ≡ self.old.number }
        ensures takes { Takes self.old result self.new }
    {
        'rows: while let Some(row) = self.rows.last_mut() {
            if let Some(node) = row.nodes.next() {
                return Some((node, row.parent));
            }
            self.rows.pop();
        }
        None
    }

    /// Goes on with the children of the node at hand, if it has any.
    #[inline(always)]
    fn enter(&mut self, node: LinkedNode<'t>, parent: usize) -> Result<Place<'t>, AllocError>
        requires counted { nodes self.old.root.now < 2 ^ 64 - 1 }
        requires node { linked node ≡ at self.old.root.now self.old.number }
        requires at { IsAt self.old.root.now self.old.number parent (rows self.old) }
        ensures root { OnOk result (self.new.root.now ≡ self.old.root.now) }
        ensures stretch { OnOk result (self.new.stretch ≡ self.old.stretch) }
        ensures number { OnOk result (self.new.number ≡ self.old.number + 1) }
        ensures ready { OnOk result (Stays self.new) }
        ensures place { IfOk result (λ place. (place.number ≡ self.old.number) × ((place.parent ≡ parent) × (linked place.node ≡ linked node.entry))) }
    {
        let number = self.number;
        if node.get().descendants() > 1 {
            self.rows.push(Row {
                nodes: node.children(),
                parent: number,
            })?;
        }
        self.number = number + 1;
        Ok(Place {
            node,
            number,
            parent,
        })
    }
}

impl Stretch {
    /// Whether a node and the stretch have a byte or an end in common.
    #[inline(always)]
    fn meets(self, node: LinkedNode) -> bool
        ensures { result ≡ meets self (linked node.entry) }
    {
        let range = node.range();
        range.start <= self.end && self.start <= range.end
    }
}
