ghost use Rattle.std.specs.Prelude.{◌≡◌, ◌↔◌, ℕ, ◌+◌, ◌-◌, ◌*◌, ◌^◌, ◌<◌, ◌≤◌, ◌++◌, ◌||◌, nat_lt, if◌then◌else◌, length, slice_range, Some, None, IfSome, OnErr, OnOk, IfErr, IsTrue, option_map, true, false, [], reverse, vec_len};
ghost use Rattle.typst_kinds.specs.Head.{kept, has_any, with_counts};
ghost use Rattle.typst_tree.specs.Tree.{forest, joined, count, saturated, text_of, nodes, have_diagnostics, has_diagnostics};
ghost use Rattle.typst_tree.specs.Order.{IsWhole, IsWholeForest, IsNumbered, AreInOrder, numbers_of};
ghost use Rattle.typst_tree.specs.Same.{front};
ghost use Rattle.typst_tree.specs.Replace.{At, ComesTo, have_others, marked_levels, node_at, put_at, Reaches, replaced, replaced_at, kids_of, start_of, end_of, upper_of, left_of, right_of, wanted, room, has_room, growth, is_all, fit, IsFit, exchanged, swapped};

use crate::SyntaxNode;
use crate::items::{keep_middle, remove, splice};
use crate::numbers::{number_part, stride};
use std::ops::Range;
use typst_kinds::{FileId, Own, SourceError, SyntaxKind};

/// The children that are numbered again, by their places before the replacement, and where their
/// numbers begin and how many each of their nodes gets.
#[derive(Clone, Copy)]
struct Stretch {
    left: usize,
    right: usize,
    start: u64,
    stride: u64,
}

/// The length of the text of one or several trees, how many nodes they have, and whether one has diagnostics.
#[derive(Clone, Copy)]
struct Counts {
    len: usize,
    nodes: usize,
    is_marked: bool,
}

/// What the counts of the nodes on a path lose and get, where the node at the path's end is exchanged.
#[derive(Clone, Copy)]
struct Swap {
    gone: Counts,
    come: Counts,
}

impl Swap {
    /// Whether a node on the path has diagnostics, at it or below it, after the exchange. It had some before if
    /// `was_marked`, and has some elsewhere if there are `levels`.
    fn marks(&self, was_marked: bool, levels: usize) -> bool
        ensures { result ≡ (self.now.come.is_marked || (if self.now.gone.is_marked then nat_lt 0 levels else was_marked)) }
    {
        if self.come.is_marked {
            return true;
        }
        if self.gone.is_marked {
            levels > 0
        } else {
            was_marked
        }
    }
}

/// Up to how many steps a path is gone with a frame of the stack for each.
const SHORT: usize = 64;

/// The lengths and the counts of nodes of `kids`, added up, and whether one has diagnostics.
fn totals(kids: &[SyntaxNode]) -> Counts
    ensures len { result.len ≡ saturated (length (joined (forest kids.now))) }
    ensures nodes { result.nodes ≡ saturated (count (forest kids.now)) }
    ensures mark { result.is_marked ≡ have_diagnostics (forest kids.now) }
    ensures whole { IsWholeForest (forest kids.now) }
{
    let mut len: usize = 0;
    let mut nodes: usize = 0;
    let mut is_marked = false;
    for kid in kids {
        kid.leaves_are_bare();
        len = len.saturating_add(kid.len());
        nodes = nodes.saturating_add(kid.descendants());
        is_marked |= kid.has_diagnostics();
    }
    Counts {
        len,
        nodes,
        is_marked,
    }
}

/// The lengths and the counts of nodes of the children `from..to`, added up, and whether one has diagnostics.
fn totals_within(kids: &[SyntaxNode], from: usize, to: usize) -> Counts
    requires order { from ≤ to }
    requires within { to ≤ length kids.now }
    ensures len { result.len ≡ saturated (length (joined (forest (slice_range kids.now from to)))) }
    ensures nodes { result.nodes ≡ saturated (count (forest (slice_range kids.now from to))) }
    ensures mark { result.is_marked ≡ have_diagnostics (forest (slice_range kids.now from to)) }
{
    totals(&kids[from..to])
}

/// How many nodes the two begin with that are the same, spans aside.
fn shared_front(old: &[SyntaxNode], new: &[SyntaxNode]) -> usize
    ensures value { result ≡ front old.now new.now }
    ensures old_has { result ≤ length old.now }
    ensures new_has { result ≤ length new.now }
{
    let most = old.len().min(new.len());
    for i in 0..most {
        if !old[i].spanless_eq(&new[i]) {
            return i;
        }
    }
    most
}

/// How many nodes the two end with that are the same, spans aside.
fn shared_back(old: &[SyntaxNode], new: &[SyntaxNode]) -> usize
    ensures value { result ≡ front (reverse old.now) (reverse new.now) }
    ensures old_has { result ≤ length old.now }
    ensures new_has { result ≤ length new.now }
{
    let most = old.len().min(new.len());
    for i in 0..most {
        if !old[old.len() - 1 - i].spanless_eq(&new[new.len() - 1 - i]) {
            return i;
        }
    }
    most
}

/// Where the numbers for the children from `at` on begin.
fn start_of(own: &Own, kids: &[SyntaxNode], at: usize) -> u64
    ensures value { result ≡ start_of own.now.head kids.now at }
    ensures low { 2 ≤ result }
    ensures small { result ≤ 2 ^ 47 }
{
    let first = own.number() + 1;
    if at == 0 {
        return first.max(2);
    }
    match kids.get(at - 1) {
        None => first.max(2),
        Some(kid) => kid.upper().max(2),
    }
}

/// Where the numbers for the children before `at` end.
fn end_of(own: &Own, kids: &[SyntaxNode], at: usize) -> u64
    ensures value { result ≡ end_of own.now.head kids.now at }
    ensures small { result ≤ 2 ^ 47 }
{
    match kids.get(at) {
        None => own.upper(),
        Some(kid) => kid.own.number(),
    }
}

/// The child after the last of `by` children after `to`, or the number of children.
fn right_of(kids: &[SyntaxNode], to: usize, by: usize) -> usize
    requires { to ≤ length kids.now }
    ensures { result ≡ right_of kids.now to by }
{
    if kids.len() - to <= by {
        kids.len()
    } else {
        to + by
    }
}

/// How many nodes there are with `fresh` in place of `from..to` and `by` children on each side.
fn wanted(kids: &[SyntaxNode], from: usize, to: usize, fresh: &[SyntaxNode], by: usize) -> usize
    requires order { from ≤ to }
    requires within { to ≤ length kids.now }
    ensures { result ≡ saturated (wanted kids.now from to (count (forest fresh.now)) by) }
{
    let left = from.saturating_sub(by);
    let right = right_of(kids, to, by);
    let between = totals(fresh).nodes;
    let before = totals_within(kids, left, from).nodes;
    let after = totals_within(kids, to, right).nodes;
    between.saturating_add(before).saturating_add(after)
}

/// How many numbers there are for the nodes that `wanted` counts.
fn room(own: &Own, kids: &[SyntaxNode], from: usize, to: usize, by: usize) -> u64
    requires { to ≤ length kids.now }
    ensures value { result ≡ room own.now.head kids.now from to by }
    ensures small { start_of own.now.head kids.now (left_of from by) + result ≤ 2 ^ 47 }
{
    let left = from.saturating_sub(by);
    let right = right_of(kids, to, by);
    end_of(own, kids, right).saturating_sub(start_of(own, kids, left))
}

/// Whether there are as many numbers as `wanted` counts nodes.
fn has_room(
    own: &Own,
    kids: &[SyntaxNode],
    from: usize,
    to: usize,
    fresh: &[SyntaxNode],
    by: usize,
) -> bool
    requires order { from ≤ to }
    requires within { to ≤ length kids.now }
    ensures { result ≡ has_room own.now.head kids.now from to (count (forest fresh.now)) by }
{
    wanted(kids, from, to, fresh, by) as u64 <= room(own, kids, from, to, by)
}

/// Whether `by` children on each side of `from..to` are all that there are.
fn is_all(kids: &[SyntaxNode], from: usize, to: usize, by: usize) -> bool
    requires { to ≤ length kids.now }
    ensures { result ≡ is_all kids.now from to by }
{
    from <= by && kids.len() - to <= by
}

/// By how many children on each side the stretch that is numbered again grows; `None` if all are too few.
fn growth(
    own: &Own,
    kids: &[SyntaxNode],
    from: usize,
    to: usize,
    fresh: &[SyntaxNode],
    tries: usize,
) -> Option<usize>
    requires order { from ≤ to }
    requires within { to ≤ length kids.now }
    requires small { length kids.now < 2 ^ 62 }
    ensures { result ≡ growth own.now.head kids.now from to (count (forest fresh.now)) tries 0 }
{
    let mut by: usize = 0;
    for _ in 0..tries {
        if has_room(own, kids, from, to, fresh, by) {
            return Some(by);
        }
        if is_all(kids, from, to, by) {
            return None;
        }
        by = (2 * by).max(1);
    }
    None
}

/// The stretch of children that is numbered again with `fresh` in place of `from..to`; `None` if there is no room.
fn fit(
    own: &Own,
    kids: &[SyntaxNode],
    from: usize,
    to: usize,
    fresh: &[SyntaxNode],
) -> Option<Stretch>
    requires order { from ≤ to }
    requires within { to ≤ length kids.now }
    requires some { 0 < length fresh.now }
    ensures value { result ≡ fit own.now.head kids.now from to (count (forest fresh.now)) }
    ensures fits { IfSome result (λ w. IsFit kids.now from to (count (forest fresh.now)) w) }
{
    let by = growth(own, kids, from, to, fresh, kids.len() + 1)?;
    let left = from.saturating_sub(by);
    let count = wanted(kids, from, to, fresh, by) as u64;
    let numbers = room(own, kids, from, to, by);
    Some(Stretch {
        left,
        right: right_of(kids, to, by),
        start: start_of(own, kids, left),
        stride: stride(numbers, count),
    })
}

/// Puts `fresh` in place of the children `from..to` and numbers them, or changes nothing.
fn exchange(
    own: &Own,
    kids: &mut Vec<SyntaxNode>,
    id: &FileId,
    from: usize,
    to: usize,
    fresh: Vec<SyntaxNode>,
) -> Result<(), SourceError>
    requires order { from ≤ to }
    requires within { to ≤ vec_len kids.old }
    ensures ok { OnOk result (exchanged id.now own.now.head kids.old.items from to fresh.items ≡ Some kids.new.items) }
    ensures err { OnErr result (kids.new.items ≡ kids.old.items) }
    ensures refused { IfErr result (λ e. e ≡ SourceError.SpanNumbers → exchanged id.now own.now.head kids.old.items from to fresh.items ≡ None) }
{
    if fresh.is_empty() {
        remove(kids, from, to);
        return Ok(());
    }
    let Some(stretch) = fit(own, kids.as_slice(), from, to, fresh.as_slice()) else {
        return Err(SourceError::SpanNumbers);
    };
    let end = from + fresh.len() + (stretch.right - to);
    if splice(kids, from, to, fresh).is_err() {
        return Err(SourceError::OutOfMemory);
    }
    number_part(kids, stretch.left, end, id, stretch.stride, stretch.start);
    Ok(())
}

/// Puts `new` in place of the children `from..to`, or changes nothing. Nodes that are the same at
/// the front or at the end of both stay as they are.
fn swap_children(
    own: &Own,
    kids: &mut Vec<SyntaxNode>,
    id: &FileId,
    from: usize,
    to: usize,
    mut new: Vec<SyntaxNode>,
) -> Result<(), SourceError>
    requires order { from ≤ to }
    requires within { to ≤ vec_len kids.old }
    ensures ok { OnOk result (swapped id.now own.now.head kids.old.items from to (slice_range kids.old.items from to) new.items ≡ Some kids.new.items) }
    ensures err { OnErr result (kids.new.items ≡ kids.old.items) }
    ensures refused { IfErr result (λ e. e ≡ SourceError.SpanNumbers → swapped id.now own.now.head kids.old.items from to (slice_range kids.old.items from to) new.items ≡ None) }
{
    let old = &kids.as_slice()[from..to];
    let front = shared_front(old, new.as_slice());
    let back = shared_back(&old[front..], &new.as_slice()[front..]);
    keep_middle(&mut new, front, back);
    exchange(own, kids, id, from + front, to - back, new)
}

/// Whether a child has diagnostics, at it or below it.
fn have_diagnostics(kids: &[SyntaxNode]) -> bool
    ensures { result ≡ have_diagnostics (forest kids.now) }
{
    for kid in kids {
        if kid.has_diagnostics() {
            return true;
        }
    }
    false
}

/// Whether a child other than that of index `at` has diagnostics, at it or below it.
fn have_others(kids: &[SyntaxNode], at: usize) -> bool
    requires { at < length kids.now }
    ensures { result ≡ have_others at kids.now }
{
    if have_diagnostics(&kids[..at]) {
        return true;
    }
    have_diagnostics(&kids[at + 1..])
}

/// Whether a child of an inner node has diagnostics, or the node itself has some, after children `gone` were replaced
/// by `come`. All are looked at only where diagnostics went and none came.
fn stays_marked(own: &Own, kids: &[SyntaxNode], gone: Counts, come: Counts) -> bool
    ensures { result ≡ (come.is_marked || (if gone.is_marked then have_diagnostics (forest kids.now) else own.now.is_marked)) }
{
    if come.is_marked {
        return true;
    }
    if gone.is_marked {
        have_diagnostics(kids)
    } else {
        own.is_marked()
    }
}

/// Counts the text and the nodes of an inner node again, after its children changed.
fn renew(own: &mut Own, kids: &[SyntaxNode])
    requires { own.old.head.is_inner ≡ false → 1 < own.old.descendants }
    ensures { own.new ≡ with_counts own.old (length (own.old.head.text ++ joined (forest kids.now))) (1 + count (forest kids.now)) (have_diagnostics (forest kids.now)) }
{
    let below = totals(kids);
    let text = own.text().len();
    own.set_counts(
        text.saturating_add(below.len),
        below.nodes.saturating_add(1),
        below.is_marked,
    );
}

/// Sets the counts and the mark of an inner node after children of the counts `gone` were replaced by ones of the
/// counts `come`. All are counted again only where the node keeps no exact counts.
fn recount(own: &mut Own, kids: &[SyntaxNode], gone: Counts, come: Counts)
    requires inner { own.old.head.is_inner ≡ false → 1 < own.old.descendants }
    requires shorter { own.old.len < 2 ^ 32 - 1 → gone.len ≤ own.old.len }
    requires fewer { own.old.descendants < 2 ^ 32 - 1 → gone.nodes ≤ own.old.descendants }
    requires len { own.old.len < 2 ^ 32 - 1 → kept (own.old.len - gone.len + come.len) ≡ kept (length (own.old.head.text ++ joined (forest kids.now))) }
    requires mark { (has_any own.old.head.diagnostics || (come.is_marked || (if gone.is_marked then have_diagnostics (forest kids.now) else own.old.is_marked))) ≡ (has_any own.old.head.diagnostics || have_diagnostics (forest kids.now)) }
    requires nodes { own.old.descendants < 2 ^ 32 - 1 → kept (own.old.descendants - gone.nodes + come.nodes) ≡ kept (1 + count (forest kids.now)) }
    ensures { own.new ≡ with_counts own.old (length (own.old.head.text ++ joined (forest kids.now))) (1 + count (forest kids.now)) (have_diagnostics (forest kids.now)) }
{
    let len = own.len();
    let descendants = own.descendants();
    if len >= Own::MOST || descendants >= Own::MOST {
        renew(own, kids);
        return;
    }
    let is_marked = stays_marked(own, kids, gone, come);
    own.set_counts(
        (len - gone.len).saturating_add(come.len),
        (descendants - gone.nodes).saturating_add(come.nodes),
        is_marked,
    );
}

impl SyntaxNode {
    /// The length of the whole tree's text, how many nodes it has, and whether one has diagnostics.
    fn counts(&self) -> Counts
        ensures len { result.len ≡ saturated (length (text_of self.now)) }
        ensures nodes { result.nodes ≡ saturated (nodes self.now) }
        ensures mark { result.is_marked ≡ has_diagnostics self.now }
        ensures whole { IsWhole self.now }
    {
        self.leaves_are_bare();
        Counts {
            len: self.len(),
            nodes: self.descendants(),
            is_marked: self.has_diagnostics(),
        }
    }

    /// Replaces the children `from..to`, or changes nothing.
    fn replace(&mut self, from: usize, to: usize, nodes: Vec<SyntaxNode>) -> Result<(), SourceError>
        requires inner { IsTrue self.old.head.is_inner }
        requires order { from ≤ to }
        requires within { to ≤ length (kids_of self.old) }
        ensures ok { OnOk result (replaced from to nodes.items self.old ≡ Some self.new) }
        ensures err { OnErr result (self.new ≡ self.old) }
        ensures refused { IfErr result (λ e. e ≡ SourceError.SpanNumbers → replaced from to nodes.items self.old ≡ None) }
    {
        let Some(id) = self.own.span().id() else {
            return Err(SourceError::SpanNumbers);
        };
        let gone = totals_within(self.kids.as_slice(), from, to);
        let come = totals(nodes.as_slice());
        if let Err(error) = swap_children(&self.own, &mut self.kids, &id, from, to, nodes) {
            return Err(error);
        }
        recount(&mut self.own, self.kids.as_slice(), gone, come);
        Ok(())
    }

    /// Replaces the children `from..to` of the node that `path` leads to, or changes nothing.
    fn replace_below(
        &mut self,
        path: &[usize],
        from: usize,
        to: usize,
        nodes: Vec<SyntaxNode>,
    ) -> Result<(), SourceError>
        requires reaches { Reaches path.now from to self.old }
        ensures ok { OnOk result (replaced_at path.now from to nodes.items self.old ≡ Some self.new) }
        ensures err { OnErr result (self.new ≡ self.old) }
        ensures refused { IfErr result (λ e. e ≡ SourceError.SpanNumbers → replaced_at path.now from to nodes.items self.old ≡ None) }
    {
        let Some((first, rest)) = path.split_first() else {
            return self.replace(from, to, nodes);
        };
        if path.len() > SHORT && self.keeps_exact_counts() {
            return self.replace_far(path, from, to, nodes);
        }
        let at = *first;
        let kid = &mut self.kids[at];
        let gone = kid.counts();
        if let Err(error) = kid.replace_below(rest, from, to, nodes) {
            return Err(error);
        }
        let come = kid.counts();
        recount(&mut self.own, self.kids.as_slice(), gone, come);
        Ok(())
    }

    /// Whether the length and the count of nodes that are kept are the tree's. If so, those of all nodes below it
    /// are too.
    fn keeps_exact_counts(&self) -> bool
        ensures len { result ≡ true → length (text_of self.now) < 2 ^ 32 - 1 }
        ensures nodes { result ≡ true → nodes self.now < 2 ^ 32 - 1 }
    {
        self.own.len() < Own::MOST && self.own.descendants() < Own::MOST
    }

    /// `replace_below` for a long path: the node at its end is taken out, changed, and put back. So no call waits
    /// for another one, and no memory is taken for the path.
    fn replace_far(
        &mut self,
        path: &[usize],
        from: usize,
        to: usize,
        nodes: Vec<SyntaxNode>,
    ) -> Result<(), SourceError>
        requires reaches { Reaches path.now from to self.old }
        requires short { length (text_of self.old) < 2 ^ 32 - 1 }
        requires few { 1 + count self.old.kids < 2 ^ 32 - 1 }
        ensures ok { OnOk result (replaced_at path.now from to nodes.items self.old ≡ Some self.new) }
        ensures err { OnErr result (self.new ≡ self.old) }
        ensures refused { IfErr result (λ e. e ≡ SourceError.SpanNumbers → replaced_at path.now from to nodes.items self.old ≡ None) }
    {
        let alloc = *self.kids.allocator();
        let gone = self.node_at(path).unwrap().counts();
        let levels = self.levels_left(path, gone);
        let mut node = SyntaxNode::inner(SyntaxKind::Markup, Vec::new(alloc));
        let nothing = node.counts();
        self.swap_at(
            path,
            &mut node,
            &Swap {
                gone,
                come: nothing,
            },
            levels,
        );
        let replaced = node.replace(from, to, nodes);
        let come = node.counts();
        self.swap_at(
            path,
            &mut node,
            &Swap {
                gone: nothing,
                come,
            },
            0,
        );
        replaced
    }

    /// The node that `path` leads to.
    fn node_at(&self, path: &[usize]) -> Option<&SyntaxNode>
        ensures { option_map (λ node. node.now) result ≡ node_at path.now self.now }
    {
        let mut node = self;
        for at in path {
            node = node.kids.get(*at)?;
        }
        Some(node)
    }

    /// How many nodes on a path stay marked where the node at the path's end is taken out, which has the counts
    /// `gone`. Without diagnostics in it no mark changes, and nothing is counted.
    fn levels_left(&self, path: &[usize], gone: Counts) -> usize
        ensures { gone.is_marked ≡ true → result ≡ marked_levels path.now self.now }
    {
        if gone.is_marked {
            self.marked_levels(path)
        } else {
            0
        }
    }

    /// How many nodes on a path have diagnostics, at them or below them, that aren't in the node at the path's end.
    /// They are the first ones.
    fn marked_levels(&self, path: &[usize]) -> usize
        ensures { result ≡ marked_levels path.now self.now }
    {
        let mut levels = 0;
        let mut depth = 0;
        let mut node = self;
        for at in path {
            let Some(kid) = node.kids.get(*at) else {
                return levels;
            };
            depth += 1;
            if node.has_elsewhere(*at) {
                levels = depth;
            }
            node = kid;
        }
        levels
    }

    /// Whether the node itself has diagnostics, or a tree below it other than the child of index `at`.
    fn has_elsewhere(&self, at: usize) -> bool
        requires { at < length (kids_of self.now) }
        ensures { result ≡ (has_any self.now.head.diagnostics || have_others at (kids_of self.now)) }
    {
        if self.is_diagnosed() {
            return true;
        }
        have_others(self.kids.as_slice(), at)
    }

    /// Exchanges the node that `path` leads to for another one. Counts are set on the way down, so that nothing is
    /// left to do after the call in the last place, and it takes no frame of the stack for a level. Where diagnostics
    /// go, the first `levels` nodes on the path stay marked.
    fn swap_at(&mut self, path: &[usize], node: &mut SyntaxNode, swap: &Swap, levels: usize)
        requires short { length (text_of self.old) < 2 ^ 32 - 1 }
        requires few { nodes self.old < 2 ^ 32 - 1 }
        requires gone { At (λ t. ComesTo t swap.now.gone) (node_at path.now self.old) }
        requires come { ComesTo node.old swap.now.come }
        requires levels { swap.now.gone.is_marked ≡ true → levels ≡ marked_levels path.now self.old }
        ensures tree { put_at path.now node.old self.old ≡ Some self.new }
        ensures node { node_at path.now self.old ≡ Some node.new }
    {
        node.leaves_are_bare();
        let Some((first, rest)) = path.split_first() else {
            std::mem::swap(self, node);
            return;
        };
        let len = self.own.len() - swap.gone.len;
        let nodes = self.own.descendants() - swap.gone.nodes;
        let is_marked = swap.marks(self.own.is_marked(), levels);
        self.own.set_counts(
            len.saturating_add(swap.come.len),
            nodes.saturating_add(swap.come.nodes),
            is_marked,
        );
        let kid = &mut self.kids[*first];
        kid.swap_at(rest, node, swap, levels.saturating_sub(1));
    }

    /// Whether `path` leads to an inner node that has children `from..to`.
    pub fn reaches(&self, path: &[usize], from: usize, to: usize) -> bool
        ensures { IsTrue result ↔ Reaches path.now from to self.now }
    {
        match self.node_at(path) {
            None => false,
            Some(node) => node.has_children(from, to),
        }
    }

    fn has_children(&self, from: usize, to: usize) -> bool
        ensures { IsTrue result ↔ Reaches [] from to self.now }
    {
        if !self.is_inner() || to < from {
            return false;
        }
        to <= self.kids.len()
    }

    /// Replaces the children in `range` of the inner node that `path` leads to, child by child,
    /// or changes nothing. An empty path leads to the node itself.
    ///
    /// Nodes that are the same, spans aside, at the front or at the end of old and new children
    /// stay as they are. The others get numbers between those of their neighbours, and where
    /// there are too few, 1, 2, 4, .. children on each side are numbered again with them.
    pub fn replace_at(
        &mut self,
        path: &[usize],
        range: Range<usize>,
        nodes: Vec<SyntaxNode>,
    ) -> Result<(), SourceError>
        requires reaches { Reaches path.now range.start range.end self.old }
        ensures ok { OnOk result (replaced_at path.now range.start range.end nodes.items self.old ≡ Some self.new) }
        ensures ordered { OnOk result (IsNumbered self.old → IsNumbered self.new × AreInOrder (numbers_of self.new)) }
        ensures err { OnErr result (self.new ≡ self.old) }
        ensures refused { IfErr result (λ e. e ≡ SourceError.SpanNumbers → replaced_at path.now range.start range.end nodes.items self.old ≡ None) }
    {
        self.replace_below(path, range.start, range.end, nodes)?;
        self.leaves_are_bare();
        Ok(())
    }
}
