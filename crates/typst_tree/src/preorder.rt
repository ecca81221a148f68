//! The walk through a tree in preorder that a caller takes step by step.

use crate::SyntaxNode;
use std::alloc::{AllocError, Global};
use std::marker::Model;
use std::slice;

/// A node that a walk visits.
#[derive(Clone, Copy)]
pub struct Visit<'a> {
    /// The node.
    pub node: &'a SyntaxNode,
    /// Where the node begins, in bytes, or the largest `usize` if it begins after that.
    pub offset: usize,
    /// How many levels the node is below the one that the walk began with.
    pub depth: usize,
}

/// What is left of trees that are side by side: where the first one begins, in bytes, and how deep their roots
/// are. Without a tree it is passed.
#[derive(Clone, Copy)]
struct Row<'a> {
    trees: &'a [SyntaxNode],
    offset: usize,
    depth: usize,
}

/// The nodes of a tree that a walk has still to visit, each before its children.
///
/// A walk doesn't call itself, whatever the depth of the tree. It holds what is left of each row on the way to the
/// next node, except rows that are passed: no more rows than there are levels, and one row where each node is the
/// last child of its parent. Each step takes a constant time.
#[derive(Drop)]
pub struct Preorder<'a> {
    /// The row of the next node.
    here: Row<'a>,
    /// The rows above it that aren't passed. The last one comes first.
    above: Vec<Row<'a>>,
}

impl<'a> Model for Preorder<'a> {
    ghost use Rattle.std.specs.Prelude.{List, ◌++◌};
    ghost use Rattle.typst_tree.specs.Preorder.{Visited, visits_code};

    ghost Value = { List Visited };

    ghost coded = { visits_code };

    ghost use Rattle.typst_tree.specs.LeftRows.{IsReady, left, left_above};

    ghost view = { λ a. left a.here ++ left_above a.above.items };

    ghost invariant = { λ a. IsReady a.here a.above.items };
}

impl SyntaxNode {
    ghost use Rattle.std.specs.Prelude.{◌≡◌, map};
    ghost use Rattle.typst_tree.specs.Tree.{places};
    ghost use Rattle.typst_tree.specs.Preorder.{walk};

    /// The walk through this node, which begins at byte 0, and all nodes below it.
    pub fn preorder(&self, alloc: Global) -> Preorder<'_>
        ensures walk { result ≡ walk 0 self.now }
        ensures nodes { map (λ visit. visit.node) result ≡ places self.now }
    {
        Preorder::new(alloc, self, 0)
    }
}

impl<'a> Preorder<'a> {
    ghost use Rattle.std.specs.Prelude.{◌≡◌, map, IfOk, OnErr};
    ghost use Rattle.std.specs.Iterator.{YieldsFirstBy};
    ghost use Rattle.typst_tree.specs.Tree.{places};
    ghost use Rattle.typst_tree.specs.Preorder.{visited, walk, marked, diagnosed};
    ghost use Rattle.typst_tree.specs.LeftRows.{IsAtMarked};

    /// The walk through a node, which begins at a byte, and all nodes below it.
    pub fn new(alloc: Global, node: &'a SyntaxNode, offset: usize) -> Preorder<'a>
        ensures walk { result ≡ walk offset node.now }
        ensures nodes { map (λ visit. visit.node) result ≡ places node.now }
    {
        Preorder {
            here: Row {
                trees: slice::from_ref(node),
                offset,
                depth: 0,
            },
            above: Vec::new(alloc),
        }
    }

    /// The next node, or `None` at the end. If memory is refused, the walk is as before.
    pub fn next(&mut self) -> Result<Option<Visit<'a>>, AllocError>
        ensures ok { IfOk result (λ visit. YieldsFirstBy visited (λ left. left) self.old visit self.new) }
        ensures err { OnErr result (self.new ≡ self.old) }
    {
        let Some((visit, behind)) = self.here.split_first() else {
            return Ok(None);
        };
        let below = Row::below(visit);
        if below.trees.is_empty() {
            self.here = behind.or_above(&mut self.above);
            return Ok(Some(visit));
        }
        behind.keep_above(&mut self.above)?;
        self.here = below;
        Ok(Some(visit))
    }

    /// The next node that has errors or warnings, at it or below it, or `None` if no node that is left has some. If
    /// memory is refused, none of them is passed.
    ///
    /// The walk passes a node without any together with all below it. So going through a tree by this alone looks
    /// at the nodes that it gives and at their children.
    pub fn next_marked(&mut self) -> Result<Option<Visit<'a>>, AllocError>
        ensures ok { IfOk result (λ visit. YieldsFirstBy visited marked self.old visit self.new) }
        ensures err { OnErr result (marked self.new ≡ marked self.old) }
    {
        self.pass_unmarked();
        self.next()
    }

    /// The next node that has errors or warnings itself, or `None` if no node that is left has some. If memory is
    /// refused, none of them is passed. It looks at no more nodes than `next_marked`.
    pub fn next_diagnosed(&mut self) -> Result<Option<Visit<'a>>, AllocError>
        ensures ok { IfOk result (λ visit. YieldsFirstBy visited diagnosed self.old visit self.new) }
        ensures err { OnErr result (diagnosed self.new ≡ diagnosed self.old) }
    {
        while let Some(visit) = self.next_marked()? {
            if visit.node.is_diagnosed() {
                return Ok(Some(visit));
            }
        }
        Ok(None)
    }

    /// Passes the nodes before the next one that has diagnostics, at it or below it.
    fn pass_unmarked(&mut self)
        ensures kept { marked self.new ≡ marked self.old }
        ensures next { IsAtMarked self.new }
    {
        while let Some((visit, behind)) = self.here.split_first() {
            if visit.node.has_diagnostics() {
                return;
            }
            self.here = behind.or_above(&mut self.above);
        }
    }
}

impl<'a> Row<'a> {
    ghost use Rattle.std.specs.Prelude.{◌≡◌, ◌∷◌, ◌++◌, length, All, MatchOption, OnErr, OnOk};
    ghost use Rattle.typst_tree.specs.Preorder.{visited, below};
    ghost use Rattle.typst_tree.specs.LeftRows.{HasTrees, IsReady, left, left_above};

    /// The children of a visited node.
    fn below(visit: Visit<'a>) -> Row<'a>
        ensures { left result ≡ below (visited visit.entry) }
    {
        let Visit {
            node,
            offset,
            depth,
        } = visit;
        Row {
            trees: node.children(),
            offset: offset.saturating_add(node.leaf_text().len()),
            depth: depth.saturating_add(1),
        }
    }

    /// The root of the first tree, and the row after that tree.
    fn split_first(self) -> Option<(Visit<'a>, Row<'a>)>
        ensures { MatchOption result (length self.entry.trees.now ≡ 0) (λ split. left self.entry ≡ visited split.0 ∷ (below (visited split.0) ++ left split.1)) }
    {
        let (node, trees) = self.trees.split_first()?;
        let visit = Visit {
            node,
            offset: self.offset,
            depth: self.depth,
        };
        let behind = Row {
            trees,
            offset: self.offset.saturating_add(node.len()),
            depth: self.depth,
        };
        Some((visit, behind))
    }

    /// This row, or else the last one above it, if this one is passed.
    fn or_above(self, above: &mut Vec<Row<'a>>) -> Row<'a>
        requires { All HasTrees above.old.items }
        ensures left { left result ++ left_above above.new.items ≡ left self.entry ++ left_above above.old.items }
        ensures ready { IsReady result above.new.items }
    {
        if !self.trees.is_empty() {
            return self;
        }
        match above.pop() {
            Some(row) => row,
            None => self,
        }
    }

    /// Adds this row to those above the next one, except one that is passed: so a way down the last trees of
    /// rows takes no room.
    fn keep_above(self, above: &mut Vec<Row<'a>>) -> Result<(), AllocError>
        requires { All HasTrees above.old.items }
        ensures left { OnOk result (left_above above.new.items ≡ left self.entry ++ left_above above.old.items) }
        ensures have_trees { OnOk result (All HasTrees above.new.items) }
        ensures err { OnErr result (above.new.items ≡ above.old.items) }
    {
        if self.trees.is_empty() {
            return Ok(());
        }
        above.push(self)?;
        Ok(())
    }
}
