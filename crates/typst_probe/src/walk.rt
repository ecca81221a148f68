//! Walks through trees.

use std::alloc::{AllocError, Global};
use typst_parser::{Preorder, SyntaxKind, SyntaxNode, Visit};

/// Which nodes of a tree a walk comes to, each before those below it.
#[derive(Clone, Copy)]
pub enum Walk {
    /// All.
    Whole,
    /// Those with errors or warnings, at them or below them.
    Marked,
    /// Those with errors or warnings of their own.
    Diagnosed,
}

/// A node to which a walk has to come: its kind, the byte at which it begins, and how deep it lies.
pub type Place = (SyntaxKind, usize, usize);

impl Walk {
    /// How many nodes of a tree it comes to.
    pub fn count(self, alloc: Global, tree: &SyntaxNode) -> Result<usize, AllocError> {
        let mut walk = tree.preorder(alloc);
        let mut count = 0usize;
        for _ in 0..tree.descendants() {
            if self.next(&mut walk)?.is_some() {
                count = count.saturating_add(1);
            }
        }
        Ok(count)
    }

    /// Whether it comes to these nodes of a tree, and to no others.
    pub fn has(
        self,
        alloc: Global,
        tree: &SyntaxNode,
        places: &[Place],
    ) -> Result<bool, AllocError> {
        let mut walk = tree.preorder(alloc);
        for place in places {
            let Some(visit) = self.next(&mut walk)? else {
                return Ok(false);
            };
            if (visit.node.kind(), visit.offset, visit.depth) != *place {
                return Ok(false);
            }
        }
        Ok(self.next(&mut walk)?.is_none())
    }

    /// The next node to which it comes.
    fn next<'a>(self, walk: &mut Preorder<'a>) -> Result<Option<Visit<'a>>, AllocError> {
        match self {
            Walk::Whole => walk.next(),
            Walk::Marked => walk.next_marked(),
            Walk::Diagnosed => walk.next_diagnosed(),
        }
    }
}
