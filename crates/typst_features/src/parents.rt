//! The nodes above the one that a walk has come to.

use std::alloc::{AllocError, Global};
use typst_kinds::SyntaxKind;
use typst_names::Placed;
use typst_tree::Visit;

/// The nodes above the one that a walk in preorder has come to, the outermost first. The walk may pass a node with
/// all below it.
#[derive(Drop)]
pub struct Parents<'a> {
    above: Vec<Placed<'a>>,
}

impl<'a> Parents<'a> {
    /// The walk hasn't begun.
    pub fn new(alloc: Global) -> Parents<'a> {
        Parents {
            above: Vec::new(alloc),
        }
    }

    /// Goes to the next node of the walk, and tells of its parent. The first one has none.
    pub fn enter(&mut self, visit: Visit<'a>) -> Result<Option<Placed<'a>>, AllocError> {
        self.above.truncate(visit.depth);
        let parent = self.above.last().copied();
        self.above.push(Placed::of(visit))?;
        Ok(parent)
    }
}

/// Whether a parent is markup.
pub fn is_markup(parent: Option<Placed<'_>>) -> bool {
    match parent {
        Some(parent) => parent.node.kind() == SyntaxKind::Markup,
        None => false,
    }
}
