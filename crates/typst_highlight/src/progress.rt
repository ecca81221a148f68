//! How far a walk through a tree has come.

ghost use Rattle.std.specs.Prelude.{◌≡◌, [], ◌∷◌, IfOk, MatchOption, None, OnOk, Some, true, if◌then◌else◌, length, reverse};
ghost use Rattle.typst_tree.specs.Tree.{forest, none};
ghost use Rattle.typst_tree.specs.Walks.{is_childless};
ghost use Rattle.typst_highlight.specs.Rules.{is_name};
ghost use Rattle.typst_highlight.specs.Walk as walk;

use crate::context::{Ahead, Context, Outer, Trail, is_followed, leaf_among};
use crate::rules::{is_field_access, is_skipped};
use crate::tags::Tag;
use crate::walk::tag_here;
use std::alloc::{AllocError, Global};
use typst_kinds::SyntaxKind;
use typst_tree::SyntaxNode;

/// What is around nodes that stand side by side.
#[derive(Clone, Copy)]
pub struct Level {
    /// Their parent's kind.
    parent: Option<SyntaxKind>,
    /// Where the parent is a field access, what is around the outermost one.
    outer: Option<Outer>,
}

/// The nodes that follow a node under its parent, to which a walk comes back from the node's children.
#[derive(Clone, Copy)]
pub struct Waiting<'t> {
    pub nodes: &'t [SyntaxNode],
    /// Where the first of them begins, in bytes.
    start: usize,
    level: Level,
    /// What is passed to the end of the span of the node before them.
    pub kept: Option<Tag>,
    /// The number of their parent, where the walk numbers nodes, and 0 elsewhere.
    pub parent: u32,
}

/// How far a walk has come, and what is around the node that it comes to next. What is after that
/// node's parent is looked for where the node asks for it.
#[derive(Drop)]
pub struct Progress<'t> {
    level: Level,
    /// Where the next node begins, in bytes.
    offset: usize,
    /// The leaves before it.
    trail: Trail,
    /// The nodes that the walk comes back to, the innermost last.
    waiting: Vec<Waiting<'t>>,
}

/// The first leaf of nodes that a walk comes back to, the innermost last.
fn first_ahead(waiting: &[Waiting]) -> Option<Ahead>
    ensures { result ≡ walk.ahead_of (reverse waiting.now) }
{
    for index in (0..waiting.len()).rev() {
        let row = waiting[index];
        if let Some(leaf) = leaf_among(row.nodes, row.level.parent, row.start) {
            return Some(leaf);
        }
    }
    None
}

impl<'t> Progress<'t> {
    /// Before the root of a tree.
    pub fn start(alloc: Global) -> Progress<'t>
        ensures joined { walk.joined result ≡ walk.root_context }
        ensures waiting { walk.waiting result ≡ [] }
    {
        Progress {
            level: Level {
                parent: None,
                outer: None,
            },
            offset: 0,
            trail: Trail {
                before: None,
                name: None,
                earlier: None,
            },
            waiting: Vec::new(alloc),
        }
    }

    /// Where the next node begins, in bytes.
    #[inline(always)]
    pub fn offset(&self) -> usize
        ensures { result ≡ (walk.joined self.now).offset }
    {
        self.offset
    }

    /// The first leaf after the next node's parent.
    fn ahead(&self) -> Option<Ahead>
        ensures { result ≡ (walk.joined self.now).ahead }
    {
        first_ahead(&self.waiting)
    }

    /// What is around the next node, with another first leaf after the parent.
    #[inline(always)]
    fn facing(&self, ahead: Option<Ahead>) -> Context
        ensures { result ≡ record (walk.joined self.now) { ahead = ahead } }
    {
        Context {
            parent: self.level.parent,
            outer: self.level.outer,
            offset: self.offset,
            trail: self.trail,
            ahead,
        }
    }

    /// The kind of the next node's parent.
    #[inline(always)]
    pub fn parent(&self) -> Option<SyntaxKind>
        ensures { result ≡ (walk.joined self.now).parent }
    {
        self.level.parent
    }

    /// The tag of the next node, which others follow. It stands apart, since only that of a hash is asked for so.
    #[inline(never)]
    pub fn tag(&self, node: &SyntaxNode, later: &[SyntaxNode]) -> Result<Option<Tag>, AllocError>
        ensures { IfOk result (λ tag. tag ≡ walk.tag (walk.joined self.now) node.now (forest later.now)) }
    {
        let alloc = *self.waiting.allocator();
        if is_followed(later) {
            return tag_here(alloc, node, later, &self.facing(None));
        }
        tag_here(alloc, node, later, &self.facing(self.ahead()))
    }

    /// The first leaf after the next node.
    #[inline(always)]
    fn next_leaf(&self, node: &SyntaxNode, later: &[SyntaxNode]) -> Option<Ahead>
        ensures { result ≡ walk.next_leaf (walk.joined self.now) node.now (forest later.now) }
    {
        let end = self.offset.saturating_add(node.len());
        match leaf_among(later, self.level.parent, end) {
            None => self.ahead(),
            found => found,
        }
    }

    /// The tag of the next node if it is a name.
    #[inline(always)]
    pub fn name(&self, node: &SyntaxNode, later: &[SyntaxNode]) -> Option<Tag>
        ensures { result ≡ walk.name (walk.joined self.now) node.now (forest later.now) }
    {
        let next = self.next_leaf(node, later);
        self.facing(next).name(node, &[])
    }

    /// Goes into the next node, whose own text is so long.
    #[inline(always)]
    pub fn enter(
        &mut self,
        node: &'t SyntaxNode,
        later: &'t [SyntaxNode],
        len: usize,
        kept: Option<Tag>,
    ) -> Result<(), AllocError>
        requires { len ≡ length node.now.head.text }
        ensures inside { OnOk result (walk.joined self.new ≡ walk.within (walk.joined self.old) node.now (forest later.now)) }
        ensures waiting { OnOk result (walk.waiting self.new ≡ record { nodes = later.entry; start = walk.end (walk.joined self.old) node.now; level = self.old.level; kept = kept; parent = 0 } ∷ walk.waiting self.old) }
    {
        self.waiting.push(Waiting {
            nodes: later,
            start: self.offset.saturating_add(node.len()),
            level: self.level,
            kept,
            parent: 0,
        })?;
        self.level = self.level_below(node.kind());
        self.offset = self.offset.saturating_add(len);
        Ok(())
    }

    /// Goes into the next node, which ends there, and whose own text is so long. The nodes to which the walk comes
    /// back from it have a parent of that number.
    #[inline(always)]
    pub fn enter_from(
        &mut self,
        node: &'t SyntaxNode,
        later: &'t [SyntaxNode],
        end: usize,
        len: usize,
        parent: u32,
    ) -> Result<(), AllocError>
        requires ends { end ≡ walk.end (walk.joined self.old) node.now }
        requires long { len ≡ length node.now.head.text }
        ensures inside { OnOk result (walk.joined self.new ≡ walk.within (walk.joined self.old) node.now (forest later.now)) }
        ensures waiting { OnOk result (walk.waiting self.new ≡ record { nodes = later.entry; start = end; level = self.old.level; kept = None; parent = parent } ∷ walk.waiting self.old) }
    {
        self.waiting.push(Waiting {
            nodes: later,
            start: end,
            level: self.level,
            kept: None,
            parent,
        })?;
        self.level = self.level_below(node.kind());
        self.offset = self.offset.saturating_add(len);
        Ok(())
    }

    /// Goes into the last node of a row, whose own text is so long. There is nothing to come back to after it.
    #[inline(always)]
    pub fn enter_last(&mut self, node: &SyntaxNode, len: usize)
        requires { len ≡ length node.now.head.text }
        ensures inside { walk.joined self.new ≡ walk.within (walk.joined self.old) node.now none }
        ensures waiting { walk.waiting self.new ≡ walk.waiting self.old }
    {
        self.level = self.level_below(node.kind());
        self.offset = self.offset.saturating_add(len);
    }

    /// What is around the children of the next node, by its kind.
    #[inline(always)]
    fn level_below(&self, kind: SyntaxKind) -> Level
        ensures { result ≡ record { parent = Some kind; outer = walk.outer_within (walk.joined self.now) kind } }
    {
        Level {
            parent: Some(kind),
            outer: if is_field_access(kind) {
                self.outer_below(kind)
            } else {
                None
            },
        }
    }

    /// What is around the outermost of the field accesses above the children of a node of the kind.
    #[inline(never)]
    fn outer_below(&self, kind: SyntaxKind) -> Option<Outer>
        ensures { result ≡ walk.outer_within (walk.joined self.now) kind }
    {
        self.facing(None).outer_within(kind)
    }

    /// Goes back to the nodes that follow the parent, unless the parent is the root.
    #[inline(always)]
    pub fn leave(&mut self) -> Option<Waiting<'t>>
        ensures { MatchOption result (walk.waiting self.old ≡ []) (λ row. (walk.waiting self.old ≡ row ∷ walk.waiting self.new) × (walk.joined self.new ≡ walk.resumed row (walk.waiting self.new) self.old.trail)) }
    {
        let row = self.waiting.pop()?;
        self.level = row.level;
        self.offset = row.start;
        Some(row)
    }

    /// Goes past a node without children, whose text is so long, and whose tag is known if it is a name.
    #[inline(always)]
    pub fn pass(&mut self, node: &SyntaxNode, later: &[SyntaxNode], len: usize, name: Option<Tag>)
        requires childless { is_childless node.now.kids ≡ true }
        requires named { name ≡ (if is_name node.now.head.kind then walk.name (walk.joined self.old) node.now (forest later.now) else None) }
        requires long { len ≡ length node.now.head.text }
        ensures joined { walk.joined self.new ≡ walk.past (walk.joined self.old) node.now (walk.passed (walk.joined self.old) node.now (forest later.now)) }
        ensures waiting { walk.waiting self.new ≡ walk.waiting self.old }
    {
        let kind = node.kind();
        if !is_skipped(kind) {
            self.trail = Trail {
                before: Some(kind),
                name,
                earlier: self.trail.name,
            };
        }
        self.offset = self.offset.saturating_add(len);
    }

    /// Goes past a node without children, which ends there, and whose tag is known if it is a name.
    #[inline(always)]
    pub fn pass_to(
        &mut self,
        node: &SyntaxNode,
        later: &[SyntaxNode],
        end: usize,
        name: Option<Tag>,
    )
        requires childless { is_childless node.now.kids ≡ true }
        requires named { name ≡ (if is_name node.now.head.kind then walk.name (walk.joined self.old) node.now (forest later.now) else None) }
        requires ends { end ≡ walk.end (walk.joined self.old) node.now }
        ensures joined { walk.joined self.new ≡ walk.past (walk.joined self.old) node.now (walk.passed (walk.joined self.old) node.now (forest later.now)) }
        ensures waiting { walk.waiting self.new ≡ walk.waiting self.old }
    {
        let kind = node.kind();
        if !is_skipped(kind) {
            self.trail = Trail {
                before: Some(kind),
                name,
                earlier: self.trail.name,
            };
        }
        self.offset = end;
    }

    /// Goes on with a later node of the same row, which begins there, after a leaf of a kind that is neither a name
    /// nor a dot. No tag from there on depends on what is before that leaf.
    #[inline(always)]
    pub fn resume(&mut self, offset: usize, before: SyntaxKind)
        ensures joined { walk.joined self.new ≡ record (walk.joined self.old) { offset = offset; trail = record { before = Some before; name = None; earlier = None } } }
        ensures waiting { walk.waiting self.new ≡ walk.waiting self.old }
    {
        self.offset = offset;
        self.trail = Trail {
            before: Some(before),
            name: None,
            earlier: None,
        };
    }
}
