//! The nodes of a tree with their places, one after the other.

ghost use Rattle.std.specs.Prelude.{◌≡◌, ◌+◌, ◌∷◌, ◌≤◌, [], drop, length, IfOk, IfSome, MatchOption, None, true, false, if◌then◌else◌};
ghost use Rattle.typst_tree.specs.Tree.{forest, nodes};
ghost use Rattle.typst_tree.specs.Steps.{at};
ghost use Rattle.typst_tree.specs.Walks.{is_childless};
ghost use Rattle.typst_highlight.specs.Rules.{is_name};
ghost use Rattle.typst_highlight.specs.Walk as walk;
ghost use Rattle.typst_flat.specs.Placed as spec;

use crate::Stretch;
use crate::boundaries::last_before;
use crate::codes::narrow;
use crate::placed::{PlacedNode, node_count, own_len};
use crate::tags::code_next;
use std::alloc::AllocError;
use std::slice;
use typst_highlight::{Progress, Tag, is_childless, is_dot, is_name, is_skipped};
use typst_kinds::SyntaxKind;
use typst_tree::{Boundary, SyntaxNode};

/// For so many bytes before a stretch a walk looks first for a place to begin at.
const NEAR: usize = 1024;

/// A place in a row of nodes.
#[derive(Clone, Copy)]
struct RowPlace<'t> {
    /// The nodes after it.
    nodes: &'t [SyntaxNode],
    /// Its byte.
    start: usize,
    /// The number of the next node.
    number: usize,
}

/// A tree, and the stretch of its bytes whose nodes a walk comes to.
///
/// A walk doesn't call itself, whatever the depth of the tree, and goes over rows of nodes as slices. It takes memory
/// for the rows to come back to. Of each row it passes the first nodes, where they end before the stretch: it adds up
/// their lengths and counts, up to near the stretch, of the root's children from a known boundary on or back.
#[derive(Clone, Copy)]
pub struct Search<'t> {
    pub root: &'t SyntaxNode,
    pub stretch: Stretch,
    /// A boundary among the root's children, from which the stretch is sought.
    pub near: Boundary,
}

/// Where a walk is. What changes at each node is passed by value, apart from what tags depend on (`Progress`), so that
/// the compiler keeps it in registers.
#[derive(Clone, Copy)]
pub struct Here<'t> {
    /// The next node and those after it in its row.
    nodes: &'t [SyntaxNode],
    /// The number of the next node.
    number: usize,
    /// The number of its parent, as records have it; of the root 0.
    parent: u32,
}

/// The node that a walk comes to next.
#[derive(Clone, Copy)]
pub struct Next<'t> {
    pub here: Here<'t>,
    pub node: &'t SyntaxNode,
    /// The nodes after it in its row.
    pub later: &'t [SyntaxNode],
}

impl<'t> Here<'t> {
    /// Before the root of a tree.
    pub fn front(root: &'t SyntaxNode) -> Here<'t>
        ensures nodes { result.nodes.now ≡ root.now ∷ [] }
        ensures number { result.number ≡ 0 }
        ensures parent { result.parent ≡ 0 }
    {
        Here {
            nodes: slice::from_ref(root),
            number: 0,
            parent: 0,
        }
    }
}

impl<'t> Search<'t> {
    /// Comes to the next node, or to the end.
    #[inline(always)]
    pub fn come(self, here: Here<'t>, progress: &mut Progress<'t>) -> Option<Next<'t>>
        requires { spec.Stays (spec.course self here progress.old) }
        ensures { MatchOption result (here.entry.number ≡ nodes self.entry.root.now) (λ next. (next.here.number ≡ here.entry.number) × ((next.here.nodes.now ≡ next.node.now ∷ next.later.now) × spec.Stays (spec.course self.entry next.here progress.new))) }
    {
        let mut at = here;
        'rows: loop {
            if let Some((node, later)) = at.nodes.split_first() {
                return Some(Next {
                    here: at,
                    node,
                    later,
                });
            }
            let Some(row) = progress.leave() else {
                return None;
            };
            at = Here {
                nodes: row.nodes,
                number: at.number,
                parent: row.parent,
            };
        }
    }

    /// The next node with its place.
    #[inline(always)]
    pub fn locate(
        self,
        next: Next<'t>,
        progress: &Progress<'t>,
    ) -> Result<PlacedNode<'t>, AllocError>
        requires ready { spec.Stays (spec.course self next.here progress.now) }
        requires row { next.here.nodes.now ≡ next.node.now ∷ next.later.now }
        ensures node { IfOk result (λ placed. placed.node.now ≡ next.entry.node.now) }
        ensures placed { IfOk result (λ placed. spec.IsPlaced (at self.entry.root.now next.entry.here.number) placed) }
        ensures name { IfOk result (λ placed. placed.name ≡ (if is_name next.entry.node.now.head.kind then walk.name (walk.joined progress.now) next.entry.node.now (forest next.entry.later.now) else None)) }
        ensures ends { IfOk result (λ placed. placed.end ≡ walk.end (walk.joined progress.now) next.entry.node.now) }
    {
        let start = progress.offset();
        let end = start.saturating_add(next.node.len());
        let code = code_next(next.node, next.later, progress)?;
        Ok(PlacedNode {
            node: next.node,
            start,
            end,
            number: next.here.number,
            parent: next.here.parent,
            tag: code.code,
            name: code.name,
        })
    }

    /// Goes on from the next node, which ends there, and whose tag is known if it is a name, to the one after it in
    /// preorder that has to be visited. After a refused request for memory the walk can't go on.
    #[inline(always)]
    pub fn go_on(
        self,
        next: Next<'t>,
        end: usize,
        name: Option<Tag>,
        progress: &mut Progress<'t>,
    ) -> Result<Here<'t>, AllocError>
        requires ready { spec.Stays (spec.course self next.here progress.old) }
        requires row { next.here.nodes.now ≡ next.node.now ∷ next.later.now }
        requires named { name ≡ (if is_name next.node.now.head.kind then walk.name (walk.joined progress.old) next.node.now (forest next.later.now) else None) }
        requires ends { end ≡ walk.end (walk.joined progress.old) next.node.now }
        ensures { IfOk result (λ after. spec.Moves (spec.course self.entry next.entry.here progress.old) (spec.course self.entry after progress.new)) }
    {
        if is_childless(next.node) {
            let after = self.pass(next, end, name, progress);
            return Ok(after);
        }
        let after = self.enter(next, end, progress)?;
        Ok(after)
    }

    /// Goes past the next node, which has no children, and ends there, and whose tag is known if it is a name.
    #[inline(always)]
    pub fn pass(
        self,
        next: Next<'t>,
        end: usize,
        name: Option<Tag>,
        progress: &mut Progress<'t>,
    ) -> Here<'t>
        requires ready { spec.Stays (spec.course self next.here progress.old) }
        requires row { next.here.nodes.now ≡ next.node.now ∷ next.later.now }
        requires childless { is_childless next.node.now.kids ≡ true }
        requires named { name ≡ (if is_name next.node.now.head.kind then walk.name (walk.joined progress.old) next.node.now (forest next.later.now) else None) }
        requires ends { end ≡ walk.end (walk.joined progress.old) next.node.now }
        ensures { spec.Moves (spec.course self.entry next.entry.here progress.old) (spec.course self.entry result progress.new) }
    {
        progress.pass_to(next.node, next.later, end, name);
        Here {
            nodes: next.later,
            number: next.here.number + 1,
            parent: next.here.parent,
        }
    }

    /// Goes to the first child of the next node, which ends there, that has to be visited.
    #[inline(always)]
    fn enter(
        self,
        next: Next<'t>,
        end: usize,
        progress: &mut Progress<'t>,
    ) -> Result<Here<'t>, AllocError>
        requires ready { spec.Stays (spec.course self next.here progress.old) }
        requires row { next.here.nodes.now ≡ next.node.now ∷ next.later.now }
        requires inner { is_childless next.node.now.kids ≡ false }
        requires ends { end ≡ walk.end (walk.joined progress.old) next.node.now }
        ensures { IfOk result (λ after. spec.Moves (spec.course self.entry next.entry.here progress.old) (spec.course self.entry after progress.new)) }
    {
        let below = self.go_below(next, end, progress)?;
        if progress.offset() >= self.stretch.start {
            return Ok(below);
        }
        let after = self.seek(below, progress);
        Ok(after)
    }

    /// Goes to the first child of the next node, which ends there. It comes back to those after the node if there
    /// are some: as no row is empty to which it comes back, it goes back up a chain of last nodes in one step.
    #[inline(always)]
    fn go_below(
        self,
        next: Next<'t>,
        end: usize,
        progress: &mut Progress<'t>,
    ) -> Result<Here<'t>, AllocError>
        requires ready { spec.Stays (spec.course self next.here progress.old) }
        requires row { next.here.nodes.now ≡ next.node.now ∷ next.later.now }
        requires inner { is_childless next.node.now.kids ≡ false }
        requires ends { end ≡ walk.end (walk.joined progress.old) next.node.now }
        ensures number { IfOk result (λ below. below.number ≡ next.entry.here.number + 1) }
        ensures row { IfOk result (λ below. forest below.nodes.now ≡ next.entry.node.now.kids) }
        ensures ready { IfOk result (λ below. spec.Stays (spec.course self.entry below progress.new)) }
    {
        if next.later.is_empty() {
            let below = self.go_below_last(next, progress);
            return Ok(below);
        }
        let len = own_len(next.node);
        progress.enter_from(next.node, next.later, end, len, next.here.parent)?;
        Ok(Here {
            nodes: next.node.children(),
            number: next.here.number + 1,
            parent: narrow(next.here.number),
        })
    }

    /// Goes to the first child of the last node of a row.
    #[inline(always)]
    fn go_below_last(self, next: Next<'t>, progress: &mut Progress<'t>) -> Here<'t>
        requires ready { spec.Stays (spec.course self next.here progress.old) }
        requires row { next.here.nodes.now ≡ next.node.now ∷ [] }
        requires inner { is_childless next.node.now.kids ≡ false }
        ensures number { result.number ≡ next.entry.here.number + 1 }
        ensures row { forest result.nodes.now ≡ next.entry.node.now.kids }
        ensures ready { spec.Stays (spec.course self.entry result progress.new) }
    {
        progress.enter_last(next.node, own_len(next.node));
        Here {
            nodes: next.node.children(),
            number: next.here.number + 1,
            parent: narrow(next.here.number),
        }
    }

    /// Goes past nodes of the row that end before the stretch: up to the last place near it where tags depend on no
    /// more than the leaf before, or if there is none near it, as in a long node, to the last one before that. This is
    /// sought near that node first, and then among all nodes of the row.
    #[cold]
    #[inline(never)]
    fn seek(self, here: Here<'t>, progress: &mut Progress<'t>) -> Here<'t>
        requires ready { spec.Stays (spec.course self here progress.old) }
        requires row { here.number ≡ 1 → forest here.nodes.now ≡ self.root.now.kids }
        ensures ready { spec.Stays (spec.course self.entry result progress.new) }
        ensures passes { spec.Passes (spec.course self.entry here.entry progress.old) (spec.course self.entry result progress.new) }
    {
        let front = self.place(here, progress);
        let from = self.stretch.start.saturating_sub(NEAR);
        let begun = self.place_before(here, from, progress);
        let first = self.seek_from(here, begun, from, progress);
        if first.number > here.number || front.start >= from {
            return first;
        }
        let before = from.min(begun.start).saturating_sub(NEAR);
        let begun = self.place_before(first, before, progress);
        let second = self.seek_from(first, begun, before, progress);
        if second.number > here.number || front.start >= before {
            return second;
        }
        let front = self.place(second, progress);
        self.seek_from(second, front, 0, progress)
    }

    /// The place of the next node.
    fn place(self, here: Here<'t>, progress: &Progress<'t>) -> RowPlace<'t>
        requires { spec.Stays (spec.course self here progress.now) }
        ensures { spec.IsSought (spec.course self.entry here.entry progress.now) result.nodes.now result.start result.number }
    {
        RowPlace {
            nodes: here.nodes,
            start: progress.offset(),
            number: here.number,
        }
    }

    /// A place to look from for those at a byte and after it: among the root's children the last one before the byte,
    /// and in other rows that of the next node.
    fn place_before(self, here: Here<'t>, byte: usize, progress: &Progress<'t>) -> RowPlace<'t>
        requires ready { spec.Stays (spec.course self here progress.now) }
        requires row { here.number ≡ 1 → forest here.nodes.now ≡ self.root.now.kids }
        requires early { byte ≤ self.stretch.start }
        ensures { spec.IsSought (spec.course self.entry here.entry progress.now) result.nodes.now result.start result.number }
    {
        if here.number != 1 || self.root.len() == usize::MAX {
            return self.place(here, progress);
        }
        let begun = last_before(self.root, self.near, byte);
        RowPlace {
            nodes: from_index(here.nodes, begun.index),
            start: begun.bytes,
            number: 1 + begun.nodes,
        }
    }

    /// Goes past nodes of the row that end before the stretch, up to the last place where tags depend on no more than
    /// the leaf before, among those after the place `begun` and from the byte `from` on.
    fn seek_from(
        self,
        here: Here<'t>,
        begun: RowPlace<'t>,
        from: usize,
        progress: &mut Progress<'t>,
    ) -> Here<'t>
        requires { spec.IsSought (spec.course self here progress.old) begun.nodes.now begun.start begun.number }
        ensures ready { spec.Stays (spec.course self.entry result progress.new) }
        ensures passes { spec.Passes (spec.course self.entry here.entry progress.old) (spec.course self.entry result progress.new) }
    {
        let mut at = here;
        let mut rest = begun.nodes;
        let mut start = begun.start;
        let mut number = begun.number;
        'nodes: while let Some((node, later)) = rest.split_first() {
            let end = start.saturating_add(node.len());
            if end >= self.stretch.start {
                return at;
            }
            number += node_count(node);
            if end >= from {
                at = self.settle(at, node, later, end, number, progress);
            }
            rest = later;
            start = end;
        }
        at
    }

    /// Goes on after a node of the row, which ends there, where the next one has that number, if the last leaf is
    /// neither a name nor a dot.
    #[inline(always)]
    fn settle(
        self,
        here: Here<'t>,
        node: &SyntaxNode,
        later: &'t [SyntaxNode],
        end: usize,
        number: usize,
        progress: &mut Progress<'t>,
    ) -> Here<'t>
        requires { spec.IsBehind (spec.course self here progress.old) node.now later.now end number }
        ensures sought { spec.IsSought (spec.course self.entry result progress.new) later.now end number }
        ensures passes { spec.Passes (spec.course self.entry here.entry progress.old) (spec.course self.entry result progress.new) }
    {
        let Some(before) = settled_end(node) else {
            return here;
        };
        progress.resume(end, before);
        Here {
            nodes: later,
            number,
            parent: here.parent,
        }
    }
}

/// The nodes from an index on.
fn from_index(nodes: &[SyntaxNode], index: usize) -> &[SyntaxNode]
    requires { index ≤ length nodes.now }
    ensures { result.now ≡ drop index nodes.now }
{
    &nodes[index..]
}

/// The kind of the last leaf of a node, if nothing comes after it, and it is neither a name nor a dot.
fn settled_end(node: &SyntaxNode) -> Option<SyntaxKind>
    ensures { IfSome result (λ kind. spec.EndsIn node.now kind) }
{
    let kind = last_of(node).kind();
    if is_settled(kind) { Some(kind) } else { None }
}

/// Whether a leaf of the kind counts as one, and is neither a name nor a dot.
fn is_settled(kind: SyntaxKind) -> bool
    ensures { result ≡ spec.is_settled kind }
{
    !is_skipped(kind) && !is_name(kind) && !is_dot(kind)
}

/// The last node in preorder among a node and those below it.
fn last_of(node: &SyntaxNode) -> &SyntaxNode
    ensures { spec.EndsWith node.now result.now }
{
    let mut last = node;
    'levels: while let Some((kid, _)) = last.children().split_last() {
        last = kid;
    }
    last
}
