ghost use Rattle.std.specs.Prelude.{◌≡◌, ◌+◌, ◌-◌, ◌*◌, ◌^◌, ◌<◌, ◌≤◌, ◌++◌, None, Some, MatchResult, OnOk, take, drop, slice_range, vec_len};
ghost use Rattle.typst_kinds.specs.Span.{IsSpanNumber};
ghost use Rattle.typst_kinds.specs.Head.{with_head};
ghost use Rattle.typst_tree.specs.Tree.{nodes, forest, count};
ghost use Rattle.typst_tree.specs.Order.{IsNumbered, AreInOrder, numbers_of};
ghost use Rattle.typst_tree.specs.Numbers.{IsStretch, placed, numbered, numbered_list, numberized, stride};

use crate::SyntaxNode;
use crate::node::SMALL;
use std::ops::Range;
use typst_kinds::{FileId, Own, SourceError, Span, SpanNumber};

/// How many numbers each of `count` nodes gets of `room`.
pub(crate) fn stride(room: u64, count: u64) -> u64
    requires some { 0 < count }
    requires room { count ≤ room }
    requires fits { room ≤ 2 ^ 47 }
    ensures value { result ≡ stride room count }
    ensures step { 0 < result }
    ensures within { count * result ≤ room }
{
    if count == 1 {
        return stride_of_one(room);
    }
    let half = room / (2 * count);
    if half == 0 { room / count } else { half }
}

/// How many numbers one node gets of `room`. Most nodes are leaves, and this takes no division by a number that
/// varies.
fn stride_of_one(room: u64) -> u64
    requires { 0 < room }
    ensures value { result ≡ stride room 1 }
    ensures step { 0 < result }
    ensures within { result ≤ room }
{
    let half = room / 2;
    if half == 0 { room } else { half }
}

fn span_at(id: FileId, number: u64) -> Span
    requires { IsSpanNumber number }
    ensures { result ≡ Some (id, number) }
{
    match SpanNumber::new(number) {
        None => Span::detached(),
        Some(number) => Span::new(id, number),
    }
}

/// Gives a node its number in `start..end`, and its upper end.
fn place(own: &mut Own, id: FileId, stride: u64, start: u64, end: u64)
    requires low { 2 ≤ start }
    requires step { 0 < stride }
    requires room { start + stride ≤ end }
    requires fits { end ≤ 2 ^ 47 }
    ensures { own.new ≡ with_head own.old (placed id stride start end own.old.head) }
{
    let number = if own.is_inner() {
        start + stride / 2
    } else {
        (start + end) / 2
    };
    own.locate(span_at(id, number), end);
}

/// Numbers the nodes of `kids` from `start` on, one tree after another.
pub(crate) fn number_all(kids: &mut [SyntaxNode], id: &FileId, stride: u64, start: u64)
    requires low { 2 ≤ start }
    requires step { 0 < stride }
    requires fits { start + count (forest kids.old) * stride ≤ 2 ^ 47 }
    ensures { kids.new ≡ numbered_list id.now stride start kids.old }
{
    let mut at = start;
    for kid in kids.iter_mut() {
        let share = kid.descendants() as u64 * stride;
        kid.number(id, at, share);
        at += share;
    }
}

/// Numbers the trees `from..to` of `kids` alone.
pub(crate) fn number_part(
    kids: &mut Vec<SyntaxNode>,
    from: usize,
    to: usize,
    id: &FileId,
    stride: u64,
    start: u64,
)
    requires order { from ≤ to }
    requires within { to ≤ vec_len kids.old }
    requires low { 2 ≤ start }
    requires step { 0 < stride }
    requires fits { start + count (forest (slice_range kids.old.items from to)) * stride ≤ 2 ^ 47 }
    ensures { kids.new.items ≡ take from kids.old.items ++ (numbered_list id.now stride start (slice_range kids.old.items from to) ++ drop to kids.old.items) }
{
    let all = kids.as_mut_slice();
    let part = &mut all[from..to];
    number_all(part, id, stride, start);
}

impl SyntaxNode {
    /// Numbers the nodes in the stretch of `room` numbers from `start` on.
    pub(crate) fn number(&mut self, id: &FileId, start: u64, room: u64)
        requires low { 2 ≤ start }
        requires room { nodes self.old ≤ room }
        requires fits { start + room ≤ 2 ^ 47 }
        ensures { self.new ≡ numbered id.now start room self.old }
    {
        if self.own.descendants() <= SMALL {
            self.number_small(id, start, room);
            return;
        }
        let step = stride(room, self.descendants() as u64);
        let last = self.last_to_go();
        place(&mut self.own, *id, step, start, start + room);
        let mut at = start + step;
        let mut start_of_last = at;
        for i in 0..self.kids.len() {
            let kid = &mut self.kids[i];
            let share = kid.descendants() as u64 * step;
            if i == last {
                start_of_last = at;
            } else {
                kid.number(id, at, share);
            }
            at += share;
        }
        if last < self.kids.len() {
            let kid = &mut self.kids[last];
            let share = kid.descendants() as u64 * step;
            kid.number(id, start_of_last, share);
        }
    }

    /// Numbers the nodes of a small tree in the stretch of `room` numbers from `start` on. In place, so that a
    /// node without children costs no call.
    #[cycle(number_small)]
    #[inline(always)]
    fn number_small(&mut self, id: &FileId, start: u64, room: u64)
        requires low { 2 ≤ start }
        requires room { nodes self.old ≤ room }
        requires fits { start + room ≤ 2 ^ 47 }
        ensures { self.new ≡ numbered id.now start room self.old }
    {
        if self.kids.is_empty() {
            place(&mut self.own, *id, stride_of_one(room), start, start + room);
            return;
        }
        self.number_kids(id, start, room);
    }

    /// Numbers the nodes of a small tree in the stretch of `room` numbers from `start` on, child by child.
    #[cycle(number_small)]
    #[inline(never)]
    fn number_kids(&mut self, id: &FileId, start: u64, room: u64)
        requires low { 2 ≤ start }
        requires room { nodes self.old ≤ room }
        requires fits { start + room ≤ 2 ^ 47 }
        ensures { self.new ≡ numbered id.now start room self.old }
    {
        let step = stride(room, self.descendants() as u64);
        place(&mut self.own, *id, step, start, start + room);
        let mut at = start + step;
        for kid in self.kids.iter_mut() {
            let share = kid.descendants() as u64 * step;
            kid.number_small(id, at, share);
            at += share;
        }
    }

    /// Gives the nodes of the tree numbers of a file within a stretch, in preorder, or changes nothing if they are
    /// more than the stretch has numbers.
    ///
    /// Error messages and later edits find a node by its number.
    pub fn numberize(&mut self, id: FileId, within: Range<u64>) -> Result<(), SourceError>
        requires { IsStretch within.start within.end }
        ensures numbers { MatchResult result (λ _. numberized id within.start within.end self.old ≡ Some self.new)
            (λ e. (e ≡ SourceError.SpanNumbers) × (numberized id within.start within.end self.old ≡ None) × (self.new ≡ self.old)) }
        ensures ordered { OnOk result (IsNumbered self.new × AreInOrder (numbers_of self.new)) }
    {
        self.leaves_are_bare();
        let count = self.descendants() as u64;
        let room = within.end.saturating_sub(within.start);
        if count > room {
            return Err(SourceError::SpanNumbers);
        }
        self.number(&id, within.start, room);
        Ok(())
    }
}
