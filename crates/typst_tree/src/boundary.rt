//! Places between the children of a tree's root.

ghost use Rattle.std.specs.Prelude.{◌≡◌, ◌+◌, ◌-◌, ◌<◌, ◌≤◌, length};
ghost use Rattle.typst_tree.specs.Tree.{trees};
ghost use Rattle.typst_tree.specs.Boundaries.{AreCounted, IsBoundary};

use crate::SyntaxNode;

/// A place between the children of a tree's root: what is before it.
///
/// It holds no tree. A step from it takes the root that it is a place of.
#[derive(Debug, Clone, Copy, PartialEq, Eq)]
pub struct Boundary {
    /// How many children are before it.
    pub index: usize,
    /// How many nodes these have, themselves counted.
    pub nodes: usize,
    /// Its byte in the tree's text.
    pub bytes: usize,
}

impl Boundary {
    /// The place before all children. Takes a constant time.
    #[inline]
    pub fn front_of(root: &SyntaxNode) -> Boundary
        ensures index { result.index ≡ 0 }
        ensures boundary { IsBoundary root.now result }
    {
        Boundary {
            index: 0,
            nodes: 0,
            bytes: root.leaf_text().len(),
        }
    }

    /// The place after all children. Takes a constant time.
    #[inline]
    pub fn rear_of(root: &SyntaxNode) -> Boundary
        requires { AreCounted root.now }
        ensures index { result.index ≡ length (trees root.now.kids) }
        ensures boundary { IsBoundary root.now result }
    {
        Boundary {
            index: root.children().len(),
            nodes: root.descendants() - 1,
            bytes: root.len(),
        }
    }

    /// The place after the next child. Takes a constant time.
    #[inline]
    pub fn after(self, root: &SyntaxNode) -> Boundary
        requires counted { AreCounted root.now }
        requires boundary { IsBoundary root.now self }
        requires more { self.index < length (trees root.now.kids) }
        ensures index { result.index ≡ self.index + 1 }
        ensures boundary { IsBoundary root.now result }
    {
        let row = root.children();
        let child = &row[self.index];
        Boundary {
            index: self.index + 1,
            nodes: self.nodes + child.descendants(),
            bytes: self.bytes + child.len(),
        }
    }

    /// The place before the last child before it. Takes a constant time.
    #[inline]
    pub fn before(self, root: &SyntaxNode) -> Boundary
        requires counted { AreCounted root.now }
        requires boundary { IsBoundary root.now self }
        requires some { 0 < self.index }
        ensures index { result.index ≡ self.index - 1 }
        ensures boundary { IsBoundary root.now result }
    {
        let row = root.children();
        let index = self.index - 1;
        let child = &row[index];
        Boundary {
            index,
            nodes: self.nodes - child.descendants(),
            bytes: self.bytes - child.len(),
        }
    }

    /// The place of an index. Goes over the children between the two places.
    pub fn moved_to(self, root: &SyntaxNode, index: usize) -> Boundary
        requires counted { AreCounted root.now }
        requires boundary { IsBoundary root.now self }
        requires within { index ≤ length (trees root.now.kids) }
        ensures index { result.index ≡ index }
        ensures boundary { IsBoundary root.now result }
    {
        let mut boundary = self;
        'on: while boundary.index < index {
            boundary = boundary.after(root);
        }
        'back: while boundary.index > index {
            boundary = boundary.before(root);
        }
        boundary
    }

    /// The end of the root's children that is nearer to an index.
    #[inline]
    fn nearer_end(root: &SyntaxNode, index: usize) -> Boundary
        requires { AreCounted root.now }
        ensures { IsBoundary root.now result }
    {
        if index < root.children().len().saturating_sub(index) {
            Boundary::front_of(root)
        } else {
            Boundary::rear_of(root)
        }
    }

    /// The place itself, or an end of the root's children that is nearer to an index. Takes a constant time.
    #[inline]
    pub fn nearest(self, root: &SyntaxNode, index: usize) -> Boundary
        requires counted { AreCounted root.now }
        requires boundary { IsBoundary root.now self }
        ensures { IsBoundary root.now result }
    {
        let end = Boundary::nearer_end(root, index);
        if end.index.abs_diff(index) < self.index.abs_diff(index) {
            end
        } else {
            self
        }
    }
}
