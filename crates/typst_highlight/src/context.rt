//! What a walk knows of a node that it has come to.

ghost use Rattle.std.specs.Prelude.{◌≡◌, ◌+◌, Some, length};
ghost use Rattle.typst_tree.specs.Tree.{forest, saturated};
ghost use Rattle.typst_tree.specs.Walks.{is_childless, is_leaf};
ghost use Rattle.typst_highlight.specs.Names.{is_called, is_shown, kind_ahead, name_alone};
ghost use Rattle.typst_highlight.specs.Walk as walk;

use crate::rules::{
    begins_arguments, is_colon, is_dot, is_field_access, is_hash, is_math_name, is_name,
    is_show_rule, is_skipped,
};
use crate::tags::Tag;
use typst_kinds::SyntaxKind;
use typst_tree::SyntaxNode;

/// A leaf as the name before it sees it: its kind, its parent's, and where it begins, in bytes.
#[derive(Clone, Copy)]
pub struct Ahead {
    pub kind: SyntaxKind,
    pub parent: Option<SyntaxKind>,
    pub offset: usize,
}

/// What is around a name.
#[derive(Clone, Copy)]
pub struct Surroundings {
    /// The name's own kind.
    pub kind: SyntaxKind,
    /// Where it ends, in bytes.
    pub end: usize,
    /// The next leaf.
    pub next: Option<Ahead>,
    /// What the name, or the outermost of the field accesses above it, stands in.
    pub around: Option<SyntaxKind>,
    /// The leaf before the name, or before the outermost of the field accesses above it.
    pub lead: Option<SyntaxKind>,
    /// The leaf before the name.
    pub before: Option<SyntaxKind>,
}

/// The last leaves before a node.
#[derive(Clone, Copy)]
pub struct Trail {
    /// The kind of the last one.
    pub before: Option<SyntaxKind>,
    /// Its tag, if it is a name.
    pub name: Option<Tag>,
    /// The tag of the one before it, if that is a name.
    pub earlier: Option<Tag>,
}

/// What is around the outermost of the field accesses above a node.
#[derive(Clone, Copy)]
pub struct Outer {
    /// The kind of what it stands in.
    pub around: Option<SyntaxKind>,
    /// The kind of the leaf before it.
    pub lead: Option<SyntaxKind>,
}

/// What is around a node: what is after it is known from the nodes that follow it under its parent.
#[derive(Clone, Copy)]
pub struct Context {
    /// The parent's kind.
    pub parent: Option<SyntaxKind>,
    /// Where the parent is a field access, what is around the outermost one.
    pub outer: Option<Outer>,
    /// Where the node begins, in bytes.
    pub offset: usize,
    /// The leaves before the node.
    pub trail: Trail,
    /// The first leaf after the parent.
    pub ahead: Option<Ahead>,
}

/// Whether the node has no children.
pub fn is_childless(node: &SyntaxNode) -> bool
    ensures { result ≡ is_childless node.now.kids }
{
    node.children().is_empty()
}

/// Whether the node is a leaf that is neither trivia nor an error.
#[inline(always)]
pub fn is_leaf(node: &SyntaxNode) -> bool
    ensures { result ≡ is_leaf node.now }
{
    is_childless(node) && !is_skipped(node.kind())
}

/// The first leaf of nodes that stand side by side from a byte on, under a parent of this kind.
///
/// Calls `leaf_below` for a child of at most `share` nodes, and goes on with the children of a larger
/// one, when it has looked after that. As a node has at most one child of more than half of its nodes,
/// calls nest no deeper than twice the logarithm of the number of nodes, however deep a tree is.
#[cycle(leaves)]
fn first_leaf(
    nodes: &[SyntaxNode],
    mut parent: Option<SyntaxKind>,
    mut offset: usize,
    mut share: usize,
) -> Option<Ahead>
    ensures { result ≡ walk.first_leaf parent offset (forest nodes.now) }
{
    let mut rest = nodes;
    let mut behind = None;
    while let Some((node, later)) = rest.split_first() {
        let kind = node.kind();
        if is_leaf(node) {
            return Some(Ahead {
                kind,
                parent,
                offset,
            });
        }
        let end = offset.saturating_add(node.len());
        if node.descendants() > share {
            behind = first_leaf(later, parent, end, share).or(behind);
            rest = node.children();
            parent = Some(kind);
            offset = offset.saturating_add(node.leaf_text().len());
            share = node.descendants() / 2;
        } else if let Some(leaf) = leaf_below(node, offset) {
            return Some(leaf);
        } else {
            rest = later;
            offset = end;
        }
    }
    behind
}

/// The first leaf below a node that begins there.
#[cycle(leaves)]
#[inline(always)]
fn leaf_below(node: &SyntaxNode, offset: usize) -> Option<Ahead>
    ensures { result ≡ walk.first_leaf (Some node.now.head.kind) (saturated (offset + length node.now.head.text)) node.now.kids }
{
    if is_childless(node) {
        return None;
    }
    let inner = offset.saturating_add(node.leaf_text().len());
    first_leaf(
        node.children(),
        Some(node.kind()),
        inner,
        node.descendants() / 2,
    )
}

/// What `first_leaf` answers, at once where only nodes without children come before the leaf, or those and a node
/// whose first child it is. So it mostly is with what follows a name.
#[inline(always)]
pub fn leaf_among(nodes: &[SyntaxNode], parent: Option<SyntaxKind>, offset: usize) -> Option<Ahead>
    ensures { result ≡ walk.first_leaf parent offset (forest nodes.now) }
{
    let mut rest = nodes;
    let mut start = offset;
    while let Some((node, later)) = rest.split_first() {
        if is_leaf(node) {
            return Some(Ahead {
                kind: node.kind(),
                parent,
                offset: start,
            });
        }
        if !is_childless(node) {
            return leaf_inside(rest, parent, start);
        }
        start = start.saturating_add(node.len());
        rest = later;
    }
    None
}

/// What `first_leaf` answers, at once where the first node's first child is a leaf.
#[inline(always)]
fn leaf_inside(nodes: &[SyntaxNode], parent: Option<SyntaxKind>, offset: usize) -> Option<Ahead>
    ensures { result ≡ walk.first_leaf parent offset (forest nodes.now) }
{
    let (node, _) = nodes.split_first()?;
    if let Some((kid, _)) = node.children().split_first() {
        if is_leaf(kid) {
            return Some(Ahead {
                kind: kid.kind(),
                parent: Some(node.kind()),
                offset: offset.saturating_add(node.leaf_text().len()),
            });
        }
    }
    first_leaf(nodes, parent, offset, usize::MAX)
}

/// Whether there is a leaf among nodes that stand side by side.
pub fn holds_leaf(nodes: &[SyntaxNode]) -> bool
    ensures { result ≡ walk.holds_leaf (forest nodes.now) }
{
    leaf_among(nodes, None, 0).is_some()
}

/// Whether a leaf follows the first of the nodes that is no trivia.
pub fn is_followed(nodes: &[SyntaxNode]) -> bool
    ensures { result ≡ walk.is_followed (forest nodes.now) }
{
    let mut rest = nodes;
    while let Some((node, later)) = rest.split_first() {
        if !node.kind().is_trivia() {
            return holds_leaf(later);
        }
        rest = later;
    }
    false
}

impl Surroundings {
    /// Whether arguments or content begin where the name ends.
    #[inline(always)]
    fn is_called(self) -> bool
        ensures { result ≡ is_called self.end self.next }
    {
        match self.next {
            None => false,
            Some(leaf) => leaf.offset == self.end && begins_arguments(leaf.kind, leaf.parent),
        }
    }

    /// The kind of the next leaf.
    #[inline(always)]
    fn after(self) -> Option<SyntaxKind>
        ensures { result ≡ kind_ahead self.next }
    {
        match self.next {
            None => None,
            Some(leaf) => Some(leaf.kind),
        }
    }

    /// Whether the name stands in a show rule, directly before or after its colon.
    #[inline(always)]
    fn is_shown(self) -> bool
        ensures { result ≡ is_shown self }
    {
        is_show_rule(self.around) && (is_colon(self.after()) || is_colon(self.before))
    }

    /// The name's tag, unless only a name before it can tell.
    #[inline(always)]
    pub fn tag(self) -> Option<Tag>
        ensures { result ≡ name_alone self }
    {
        if self.is_called() {
            Some(Tag::Function)
        } else if is_math_name(self.kind) {
            Some(Tag::Interpolated)
        } else if self.is_shown() {
            Some(Tag::Function)
        } else if is_hash(self.lead) {
            Some(Tag::Interpolated)
        } else {
            None
        }
    }
}

impl Context {
    ghost use Rattle.std.specs.Prelude.{◌≡◌};
    ghost use Rattle.typst_tree.specs.Tree.{forest};
    ghost use Rattle.typst_highlight.specs.Walk as walk;

    /// The kind of what the node, or the outermost of the field accesses above it, stands in.
    #[inline(always)]
    fn around(&self) -> Option<SyntaxKind>
        ensures { result ≡ walk.around self.now }
    {
        match self.outer {
            None => self.parent,
            Some(outer) => outer.around,
        }
    }

    /// The kind of the leaf before the node, or before the outermost of the field accesses above it.
    #[inline(always)]
    fn lead(&self) -> Option<SyntaxKind>
        ensures { result ≡ walk.lead self.now }
    {
        match self.outer {
            None => self.trail.before,
            Some(outer) => outer.lead,
        }
    }

    /// Where the node ends, in bytes.
    #[inline(always)]
    pub fn end(&self, node: &SyntaxNode) -> usize
        ensures { result ≡ walk.end self.now node.now }
    {
        self.offset.saturating_add(node.len())
    }

    /// The first leaf after the node, which ends there.
    #[inline(always)]
    pub fn next_leaf(&self, end: usize, later: &[SyntaxNode]) -> Option<Ahead>
        ensures { result ≡ walk.leaf_from self.now end (forest later.now) }
    {
        match leaf_among(later, self.parent, end) {
            None => self.ahead,
            found => found,
        }
    }

    /// What is around the outermost of the field accesses above the children of a node of the kind.
    #[inline(always)]
    pub fn outer_within(&self, kind: SyntaxKind) -> Option<Outer>
        ensures { result ≡ walk.outer_within self.now kind }
    {
        if is_field_access(kind) {
            Some(Outer {
                around: self.around(),
                lead: self.lead(),
            })
        } else {
            None
        }
    }

    /// What is around the node's first child.
    #[inline(always)]
    pub fn within(&self, node: &SyntaxNode, later: &[SyntaxNode]) -> Context
        ensures { result ≡ walk.within self.now node.now (forest later.now) }
    {
        let kind = node.kind();
        Context {
            parent: Some(kind),
            outer: self.outer_within(kind),
            offset: self.offset.saturating_add(node.leaf_text().len()),
            trail: self.trail,
            ahead: self.next_leaf(self.end(node), later),
        }
    }

    /// What is around the next sibling, where the last leaves before it are known.
    pub fn past(&self, node: &SyntaxNode, trail: Trail) -> Context
        ensures { result ≡ walk.past self.now node.now trail }
    {
        Context {
            offset: self.offset.saturating_add(node.len()),
            trail,
            ..*self
        }
    }

    /// The tag of the node if it is a name.
    #[inline(always)]
    pub fn name(&self, node: &SyntaxNode, later: &[SyntaxNode]) -> Option<Tag>
        ensures { result ≡ walk.name self.now node.now (forest later.now) }
    {
        let end = self.end(node);
        let surroundings = Surroundings {
            kind: node.kind(),
            end,
            next: self.next_leaf(end, later),
            around: self.around(),
            lead: self.lead(),
            before: self.trail.before,
        };
        match surroundings.tag() {
            None => self.trail.behind_dot(),
            found => found,
        }
    }

    /// The last leaves before what follows the node, which is a leaf.
    pub fn step(&self, node: &SyntaxNode, later: &[SyntaxNode]) -> Trail
        ensures { result ≡ walk.step self.now node.now (forest later.now) }
    {
        let kind = node.kind();
        Trail {
            before: Some(kind),
            name: if is_name(kind) {
                self.name(node, later)
            } else {
                None
            },
            earlier: self.trail.name,
        }
    }
}

impl Context {
    ghost use Rattle.std.specs.Prelude.{◌≡◌, true, length};
    ghost use Rattle.typst_tree.specs.Tree.{forest};
    ghost use Rattle.typst_tree.specs.Walks.{is_childless};
    ghost use Rattle.typst_highlight.specs.Walk as walk;

    /// The last leaves before what follows the node, which has no children.
    pub fn behind(&self, node: &SyntaxNode, later: &[SyntaxNode]) -> Trail
        requires { is_childless node.now.kids ≡ true }
        ensures { result ≡ walk.passed self.now node.now (forest later.now) }
    {
        if is_leaf(node) {
            self.step(node, later)
        } else {
            self.trail
        }
    }
}

impl Trail {
    /// The tag of the name before the dot that the last leaf is.
    #[inline(always)]
    fn behind_dot(self) -> Option<Tag>
        ensures { result ≡ walk.behind_dot self }
    {
        match self.before {
            Some(kind) if is_dot(kind) => self.earlier,
            _ => None,
        }
    }
}
