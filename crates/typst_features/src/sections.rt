//! The sections that headings begin.

ghost use Rattle.std.specs.Prelude.{◌<◌, OnSome, vec_len};

use std::alloc::{AllocError, Global};
use typst_kinds::SyntaxKind;
use typst_tree::SyntaxNode;

/// A section that goes on: the level of its heading, and what its owner keeps of it.
#[derive(Clone, Copy)]
struct Section<T: Copy> {
    level: usize,
    kept: T,
}

/// The sections that go on, the outermost first. Those of a row of nodes stand above those of the rows
/// around it.
#[derive(Drop)]
pub struct Sections<T: Copy> {
    open: Vec<Section<T>>,
}

impl<T: Copy> Sections<T> {
    /// None goes on yet.
    pub fn new(alloc: Global) -> Sections<T> {
        Sections {
            open: Vec::new(alloc),
        }
    }

    /// How many go on.
    pub fn len(&self) -> usize {
        self.open.len()
    }

    /// A heading begins a section.
    pub fn push(&mut self, level: usize, kept: T) -> Result<(), AllocError> {
        self.open.push(Section { level, kept })?;
        Ok(())
    }

    /// Ends the innermost section and gives what was kept of it, where more than `base` go on and a heading
    /// of this level ends it.
    pub fn pop_at(&mut self, base: usize, level: usize) -> Option<T>
        ensures { OnSome result (vec_len self.new.open < vec_len self.old.open) }
    {
        if self.open.len() <= base {
            return None;
        }
        match self.open.last() {
            Some(section) if section.level >= level => {}
            _ => return None,
        }
        let section = self.open.pop()?;
        Some(section.kept)
    }
}

/// The level of a heading, from 1 on. Other nodes have none.
pub fn heading_level(node: &SyntaxNode) -> Option<usize> {
    if node.kind() != SyntaxKind::Heading {
        return None;
    }
    let marker = node.children().first()?;
    Some(marker.len())
}

/// Whether a node is space alone, at which a section that ends before it doesn't end later.
pub fn is_space(kind: SyntaxKind) -> bool {
    matches!(kind, SyntaxKind::Space | SyntaxKind::Parbreak)
}
