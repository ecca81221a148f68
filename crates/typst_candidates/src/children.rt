//! The children of a node, and the ranges of them around an edit.

ghost use Rattle.std.specs.Prelude.{◌≡◌, ◌+◌, ◌-◌, ◌<◌, ◌≤◌, ◌^◌, ◌||◌, ◌&&◌, nat_le, not, min, length};
ghost use Rattle.typst_tree.specs.Tree.{trees, text_of};
ghost use Rattle.typst_candidates.specs.Candidates.{laid, begins, first_near, end_near, clings, is_hash, is_sign, leads, holds_at, back_past, on_past, with_hash, around, is_all};
ghost use Rattle.typst_candidates.specs.Edges.{IsEdge, IsNear, IsRootEdge, Fits, bytes_of, indices, is_covered};

use crate::{Cuts, Window};
use typst_kinds::SyntaxKind;
use typst_tree::SyntaxNode;

/// A place between children: how many are before it, and its byte.
#[derive(Debug, Clone, Copy, PartialEq, Eq)]
pub struct Edge {
    pub index: usize,
    pub byte: usize,
}

/// The children near an edit: from the last that begins before it, up to the first that ends
/// after it.
#[derive(Debug, Clone, Copy, PartialEq, Eq)]
pub struct Near {
    pub first: Edge,
    pub end: Edge,
}

/// Children of a run, from one edge to another, that are whole pieces.
#[derive(Debug, Clone, Copy, PartialEq, Eq)]
pub struct ChildRange {
    pub from: Edge,
    pub to: Edge,
}

/// The children of a node, the byte at which the first begins, and the one at which the last ends, where it can
/// be counted.
#[derive(Clone, Copy)]
pub struct Children<'a> {
    pub kids: &'a [SyntaxNode],
    pub at: usize,
    pub end: usize,
    ghost ends: { Fits at kids.now → end ≡ begins at kids.now (length kids.now) },
}

impl Edge {
    /// The place before all children of a tree's root.
    pub fn front_of(root: &SyntaxNode) -> Edge
        ensures { IsRootEdge root.now result }
    {
        Edge {
            index: 0,
            byte: root.leaf_text().len(),
        }
    }
}

impl Near {
    /// Whether the first of them, which is `child`, is alone near the bytes `start..end`, and an inner
    /// node that begins before them and ends after them.
    pub fn covers(self, start: usize, end: usize, child: &SyntaxNode) -> bool
        requires { self.first.index < 2 ^ 62 }
        ensures { result ≡ is_covered start end self child.now.head.is_inner }
    {
        self.end.index == self.first.index + 1
            && self.first.byte < start
            && end < self.end.byte
            && child.is_inner()
    }
}

impl ChildRange {
    /// Whether it begins and ends at bytes of the window.
    pub fn lies_in(self, window: Window) -> bool
        ensures { result ≡ (nat_le window.from self.from.byte && nat_le self.to.byte window.to) }
    {
        window.from <= self.from.byte && self.to.byte <= window.to
    }
}

/// Whether the node clings to what is before it, and so is never alone at the end of a range: trivia, errors,
/// semicolons, and leaves that are a slash or a colon.
fn clings(node: &SyntaxNode) -> bool
    ensures { result ≡ clings node.now }
{
    let kind = node.kind();
    if kind.is_trivia() || kind.is_error() || kind == SyntaxKind::Semicolon {
        return true;
    }
    !node.is_inner() && is_sign(node.leaf_text())
}

/// Whether the node is a hash.
fn is_hash(node: &SyntaxNode) -> bool
    ensures { result ≡ is_hash node.now }
{
    node.kind() == SyntaxKind::Hash
}

/// Whether the text is a slash or a colon.
fn is_sign(text: &str) -> bool
    ensures { result ≡ is_sign text.now }
{
    matches!(text.as_bytes(), [b'/' | b':'])
}

/// Whether a child that begins at the byte is the first of a piece that isn't the run's first.
fn leads(cuts: &Cuts, byte: usize, kid: &SyntaxNode) -> bool
    ensures { result ≡ leads (bytes_of cuts.now) (record { start = byte; end = byte + length (text_of kid.now); node = kid.now }) }
{
    kid.len() > 0 && cuts.has(byte)
}

impl<'a> Children<'a> {
    /// The children of a node that begins at byte `at`.
    pub fn of(node: &'a SyntaxNode, at: usize) -> Children<'a>
        requires { at + length node.now.head.text < 2 ^ 64 }
        ensures at { result.at ≡ at + length node.now.head.text }
        ensures kids { result.kids.now ≡ trees node.now.kids }
    {
        Children {
            kids: node.children(),
            at: at + node.leaf_text().len(),
            end: at.saturating_add(node.len()),
        }
    }

    /// How many children there are.
    pub fn len(&self) -> usize
        ensures value { result ≡ length self.now.kids.now }
        ensures small { result < 2 ^ 62 }
    {
        self.kids.len()
    }

    /// The place before all children.
    fn front(&self) -> Edge
        ensures index { result.index ≡ 0 }
        ensures edge { IsEdge self.now.at self.now.kids.now result }
    {
        Edge {
            index: 0,
            byte: self.at,
        }
    }

    /// The place after all children.
    fn rear(&self) -> Edge
        requires { Fits self.now.at self.now.kids.now }
        ensures index { result.index ≡ length self.now.kids.now }
        ensures edge { IsEdge self.now.at self.now.kids.now result }
    {
        Edge {
            index: self.kids.len(),
            byte: self.end,
        }
    }

    /// The place after the next child.
    fn after(&self, edge: Edge) -> Edge
        requires fits { Fits self.now.at self.now.kids.now }
        requires edge { IsEdge self.now.at self.now.kids.now edge }
        requires more { edge.index < length self.now.kids.now }
        ensures index { result.index ≡ edge.index + 1 }
        ensures edge { IsEdge self.now.at self.now.kids.now result }
    {
        Edge {
            index: edge.index + 1,
            byte: edge.byte + self.kids[edge.index].len(),
        }
    }

    /// The place before the last child before it.
    fn before(&self, edge: Edge) -> Edge
        requires fits { Fits self.now.at self.now.kids.now }
        requires edge { IsEdge self.now.at self.now.kids.now edge }
        requires some { 0 < edge.index }
        ensures index { result.index ≡ edge.index - 1 }
        ensures edge { IsEdge self.now.at self.now.kids.now result }
    {
        let index = edge.index - 1;
        Edge {
            index,
            byte: edge.byte - self.kids[index].len(),
        }
    }

    /// The end that is nearer to the byte.
    fn nearer_end(&self, byte: usize) -> Edge
        requires { Fits self.now.at self.now.kids.now }
        ensures { IsEdge self.now.at self.now.kids.now result }
    {
        if byte.saturating_sub(self.at) < self.end.saturating_sub(byte) {
            self.front()
        } else {
            self.rear()
        }
    }

    /// The known place, or an end that is nearer to the byte.
    fn nearest(&self, known: Edge, byte: usize) -> Edge
        requires fits { Fits self.now.at self.now.kids.now }
        requires edge { IsEdge self.now.at self.now.kids.now known }
        ensures { IsEdge self.now.at self.now.kids.now result }
    {
        let end = self.nearer_end(byte);
        if end.byte.abs_diff(byte) < known.byte.abs_diff(byte) {
            end
        } else {
            known
        }
    }

    /// The last child that begins before the byte, or else the first. Goes to it from the known place, or from an
    /// end that is nearer.
    fn last_begun(&self, known: Edge, byte: usize) -> Edge
        requires fits { Fits self.now.at self.now.kids.now }
        requires edge { IsEdge self.now.at self.now.kids.now known }
        ensures index { result.index ≡ first_near byte (laid self.now.at self.now.kids.now) }
        ensures edge { IsEdge self.now.at self.now.kids.now result }
        ensures before { 0 < result.index → result.byte < byte }
    {
        let from = self.nearest(known, byte);
        if from.index < self.kids.len() && from.byte < byte {
            self.on_to_begun(from, byte)
        } else {
            self.back_to_begun(from, byte)
        }
    }

    /// The last child that begins before the byte. Goes on from one that does.
    fn on_to_begun(&self, from: Edge, byte: usize) -> Edge
        requires fits { Fits self.now.at self.now.kids.now }
        requires edge { IsEdge self.now.at self.now.kids.now from }
        requires more { from.index < length self.now.kids.now }
        requires begun { from.byte < byte }
        ensures index { result.index ≡ first_near byte (laid self.now.at self.now.kids.now) }
        ensures edge { IsEdge self.now.at self.now.kids.now result }
        ensures before { result.byte < byte }
    {
        let mut last = from;
        let mut next = self.after(from);
        while next.index < self.kids.len() && next.byte < byte {
            last = next;
            next = self.after(next);
        }
        last
    }

    /// The last child that begins before the byte, or else the first. Goes back from a place after which none
    /// does.
    fn back_to_begun(&self, from: Edge, byte: usize) -> Edge
        requires fits { Fits self.now.at self.now.kids.now }
        requires edge { IsEdge self.now.at self.now.kids.now from }
        requires after { from.index < length self.now.kids.now → byte ≤ from.byte }
        ensures index { result.index ≡ first_near byte (laid self.now.at self.now.kids.now) }
        ensures edge { IsEdge self.now.at self.now.kids.now result }
        ensures before { 0 < result.index → result.byte < byte }
    {
        let mut edge = from;
        while edge.index > 0 {
            edge = self.before(edge);
            if edge.byte < byte {
                return edge;
            }
        }
        edge
    }

    /// The place after the first child that ends after the byte, else after the last. Children
    /// before `from` end at the byte or before it.
    fn first_ended(&self, from: Edge, byte: usize) -> Edge
        requires fits { Fits self.now.at self.now.kids.now }
        requires edge { IsEdge self.now.at self.now.kids.now from }
        requires passed { 0 < from.index → from.byte ≤ byte }
        ensures index { result.index ≡ end_near byte (laid self.now.at self.now.kids.now) }
        ensures edge { IsEdge self.now.at self.now.kids.now result }
    {
        let mut end = from;
        while end.index < self.kids.len() {
            end = self.after(end);
            if end.byte > byte {
                return end;
            }
        }
        end
    }

    /// The children near the bytes `start..end`.
    pub fn near(&self, start: usize, end: usize) -> Near
        requires fits { Fits self.now.at self.now.kids.now }
        requires order { start ≤ end }
        ensures { IsNear self.now.at self.now.kids.now start end result }
    {
        self.near_from(self.front(), start, end)
    }

    /// The children near the bytes `start..end`, which are looked for from a known place, or from an end that is
    /// nearer.
    pub fn near_from(&self, known: Edge, start: usize, end: usize) -> Near
        requires fits { Fits self.now.at self.now.kids.now }
        requires edge { IsEdge self.now.at self.now.kids.now known }
        requires order { start ≤ end }
        ensures { IsNear self.now.at self.now.kids.now start end result }
    {
        let first = self.last_begun(known, start);
        Near {
            first,
            end: self.first_ended(first, end),
        }
    }

    /// The place `count` children on the left, or before all.
    fn back_by(&self, from: Edge, count: usize) -> Edge
        requires fits { Fits self.now.at self.now.kids.now }
        requires edge { IsEdge self.now.at self.now.kids.now from }
        ensures index { result.index ≡ from.index - count }
        ensures edge { IsEdge self.now.at self.now.kids.now result }
    {
        let mut edge = from;
        for _ in 0..count.min(from.index) {
            edge = self.before(edge);
        }
        edge
    }

    /// The place `count` children on the right, or after all.
    fn on_by(&self, from: Edge, count: usize) -> Edge
        requires fits { Fits self.now.at self.now.kids.now }
        requires edge { IsEdge self.now.at self.now.kids.now from }
        ensures index { result.index ≡ min (from.index + count) (length self.now.kids.now) }
        ensures edge { IsEdge self.now.at self.now.kids.now result }
    {
        let mut edge = from;
        for _ in 0..count.min(self.kids.len() - from.index) {
            edge = self.after(edge);
        }
        edge
    }

    /// Whether there is a child with this index, and it clings.
    fn clings_at(&self, index: usize) -> bool
        ensures { result ≡ holds_at (λ c. clings c.node) (laid self.now.at self.now.kids.now) index }
    {
        if index >= self.kids.len() {
            return false;
        }
        clings(&self.kids[index])
    }

    /// The place back past children that cling to what is before them.
    fn back_past_clinging(&self, from: Edge) -> Edge
        requires fits { Fits self.now.at self.now.kids.now }
        requires edge { IsEdge self.now.at self.now.kids.now from }
        ensures index { result.index ≡ back_past (holds_at (λ c. clings c.node) (laid self.now.at self.now.kids.now)) from.index }
        ensures edge { IsEdge self.now.at self.now.kids.now result }
    {
        let mut edge = from;
        while edge.index > 0 {
            if !self.clings_at(edge.index) {
                return edge;
            }
            edge = self.before(edge);
        }
        edge
    }

    /// Whether there is a child with this index, and it is a hash.
    fn is_hash_at(&self, index: usize) -> bool
        ensures { result ≡ holds_at (λ c. is_hash c.node) (laid self.now.at self.now.kids.now) index }
    {
        if index >= self.kids.len() {
            return false;
        }
        is_hash(&self.kids[index])
    }

    /// The place before the hash directly before it, or else the place itself.
    fn with_hash(&self, from: Edge) -> Edge
        requires fits { Fits self.now.at self.now.kids.now }
        requires edge { IsEdge self.now.at self.now.kids.now from }
        ensures index { result.index ≡ with_hash (laid self.now.at self.now.kids.now) from.index }
        ensures edge { IsEdge self.now.at self.now.kids.now result }
    {
        if from.index > 0 && self.is_hash_at(from.index - 1) {
            return self.before(from);
        }
        from
    }

    /// Whether the place is before a child that isn't the first of a piece.
    fn is_within_piece(&self, cuts: &Cuts, edge: Edge) -> bool
        requires { IsEdge self.now.at self.now.kids.now edge }
        ensures { result ≡ holds_at (λ c. not (leads (bytes_of cuts.now) c)) (laid self.now.at self.now.kids.now) edge.index }
    {
        if edge.index >= self.kids.len() {
            return false;
        }
        !leads(cuts, edge.byte, &self.kids[edge.index])
    }

    /// The place back before the first child of its piece.
    fn back_to_piece(&self, cuts: &Cuts, from: Edge) -> Edge
        requires fits { Fits self.now.at self.now.kids.now }
        requires edge { IsEdge self.now.at self.now.kids.now from }
        ensures index { result.index ≡ back_past (holds_at (λ c. not (leads (bytes_of cuts.now) c)) (laid self.now.at self.now.kids.now)) from.index }
        ensures edge { IsEdge self.now.at self.now.kids.now result }
    {
        let mut edge = from;
        while edge.index > 0 {
            if !self.is_within_piece(cuts, edge) {
                return edge;
            }
            edge = self.before(edge);
        }
        edge
    }

    /// Whether the place is before a child that clings or isn't the first of a piece.
    fn goes_on(&self, cuts: &Cuts, edge: Edge) -> bool
        requires { IsEdge self.now.at self.now.kids.now edge }
        ensures { result ≡ holds_at (λ c. clings c.node || not (leads (bytes_of cuts.now) c)) (laid self.now.at self.now.kids.now) edge.index }
    {
        if edge.index >= self.kids.len() {
            return false;
        }
        let kid = &self.kids[edge.index];
        clings(kid) || !leads(cuts, edge.byte, kid)
    }

    /// The place on past children that cling, up to the first child of a piece or after all.
    fn on_to_piece(&self, cuts: &Cuts, from: Edge) -> Edge
        requires fits { Fits self.now.at self.now.kids.now }
        requires edge { IsEdge self.now.at self.now.kids.now from }
        ensures index { result.index ≡ on_past (holds_at (λ c. clings c.node || not (leads (bytes_of cuts.now) c)) (laid self.now.at self.now.kids.now)) (length self.now.kids.now - from.index) from.index }
        ensures edge { IsEdge self.now.at self.now.kids.now result }
    {
        let mut edge = from;
        while edge.index < self.kids.len() {
            if !self.goes_on(cuts, edge) {
                return edge;
            }
            edge = self.after(edge);
        }
        edge
    }

    /// The range of whole pieces with `more` children on each side of those near an edit, and at
    /// least two on the left.
    pub fn around(&self, cuts: &Cuts, near: Near, more: usize) -> ChildRange
        requires fits { Fits self.now.at self.now.kids.now }
        requires first { IsEdge self.now.at self.now.kids.now near.first }
        requires end { IsEdge self.now.at self.now.kids.now near.end }
        ensures value { indices result ≡ around (bytes_of cuts.now) (laid self.now.at self.now.kids.now) near.first.index near.end.index more }
        ensures from { IsEdge self.now.at self.now.kids.now result.from }
        ensures to { IsEdge self.now.at self.now.kids.now result.to }
    {
        let left = self.back_past_clinging(self.back_by(near.first, more.max(2)));
        let right = self.on_by(near.end, more);
        ChildRange {
            from: self.back_to_piece(cuts, self.with_hash(left)),
            to: self.on_to_piece(cuts, right),
        }
    }

    /// Whether the range has all children.
    pub fn is_all(&self, range: ChildRange) -> bool
        ensures { result ≡ is_all (laid self.now.at self.now.kids.now) (indices range) }
    {
        range.from.index == 0 && range.to.index == self.kids.len()
    }
}
