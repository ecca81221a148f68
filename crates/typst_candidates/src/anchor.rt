//! The place near the last edit, from which the next one looks things up.

ghost use Rattle.std.specs.Prelude.{◌≡◌, ◌+◌, ◌-◌, ◌<◌, ◌≤◌, ◌^◌, IfSome, Some, List, drop, length, take};
ghost use Rattle.typst_candidates.specs.declared.entry.Entry.{Entry};
ghost use Rattle.typst_candidates.specs.declared.cuts.Window.{Window};
ghost use Rattle.typst_candidates.specs.Anchors.{IsAnchor, inside_of};
ghost use Rattle.typst_candidates.specs.Cursors.{piece_of, pieces_of, start_at};
ghost use Rattle.typst_candidates.specs.Entries.{end_of, front_of};
ghost use Rattle.typst_candidates.specs.Records.{opening_of};
ghost use Rattle.typst_candidates.specs.Edges.{within};

use crate::Window;
use crate::cursor::{EntryCursor, inside_after};
use crate::entries::WordCursor;
use crate::entry::EntryKind;
use crate::records::Records;
use typst_language::Block;

/// A place among the entries that is in no block of its run, which is the text's own or a block's. One is kept a
/// while before the last edit, since the next edit is mostly near: what it asks for is looked up from there on, and
/// not from the first entry.
#[derive(Debug, Clone, Copy, PartialEq, Eq)]
pub(crate) struct Anchor {
    /// How many entries are before the anchor.
    pub number: usize,
    /// Where the token of the last of these begins, in bytes, or 0.
    pub start: usize,
    /// Where the looks of all of these end, or after that.
    pub reach: usize,
    /// How many entries come before the run of the anchor: none before the text's own, otherwise all up to the one
    /// that opens its block.
    pub first: usize,
    /// Where the token of the entry before the one that opens its block begins, in bytes, or 0.
    pub outer: usize,
}

/// How many bytes before an edit an anchor is put: most candidates begin after it.
const BEFORE: usize = 1 << 10;

/// An anchor is put into a block only if no place before the block is as near to the edit as this many bytes: it is
/// of no use once an edit is outside the block.
const FAR: usize = 1 << 12;

/// How many nested blocks an anchor is put into at most, since the entries of each are read once more.
const MOST_BLOCKS: usize = 4;

impl Anchor {
    /// The anchor before all entries.
    pub(crate) fn first() -> Anchor
        ensures { (es : List Entry) → IsAnchor es result }
    {
        Anchor {
            number: 0,
            start: 0,
            reach: 0,
            first: 0,
            outer: 0,
        }
    }

    /// This anchor, if it is before the entries after the one with this number, or else the first.
    pub(crate) fn upto(self, number: usize) -> Anchor
        ensures { (es fs : List Entry) → IsAnchor es self → take (number + 1) fs ≡ take (number + 1) es → number < length fs → IsAnchor fs result }
    {
        if self.number.saturating_sub(1) <= number {
            self
        } else {
            Anchor::first()
        }
    }
}

impl Records {
    /// Puts the anchor a while before the byte `at`; the units stay. Goes through the entries from where it is up
    /// to the byte, or from the first if it is after the byte or the byte isn't in its run.
    pub fn go_near(&mut self, at: usize)
        requires { end_of 0 self.old.units.entries < 2 ^ 64 }
        ensures { self.new ≡ self.old }
    {
        let window = Window {
            from: at.saturating_sub(BEFORE),
            to: at,
        };
        let outer = self.outer_anchor(window);
        self.anchor = self.inner_anchor(outer, window);
        self.tally_at(self.anchor.number);
    }

    /// The last anchor at the window's first byte or before it: in the run of the one that is kept, if that one is
    /// there and the window's last byte is in the run, or else in the text's own.
    fn outer_anchor(&self, window: Window) -> Anchor
        requires { end_of 0 self.now.units.entries < 2 ^ 64 }
        ensures { IsAnchor self.now.units.entries result }
    {
        if self.anchor.start <= window.from {
            if let Some(anchor) = self.last_anchor(self.anchor, window) {
                return anchor;
            }
        }
        match self.last_anchor(Anchor::first(), window) {
            Some(anchor) => anchor,
            None => Anchor::first(),
        }
    }

    /// The last anchor at the window's first byte or before it, from `outer` on: in the innermost content block
    /// that the window's last byte is in, of the outermost blocks that begin far before it.
    fn inner_anchor(&self, outer: Anchor, window: Window) -> Anchor
        requires places { end_of 0 self.now.units.entries < 2 ^ 64 }
        requires outer { IsAnchor self.now.units.entries outer }
        ensures { IsAnchor self.now.units.entries result }
    {
        let mut found = outer;
        let mut anchor = outer;
        for _ in 0..MOST_BLOCKS {
            if window.to.saturating_sub(anchor.start) <= FAR {
                return found;
            }
            let Some((block, begin)) = self.into_block(anchor, window.from) else {
                return found;
            };
            let Some(inner) = self.last_anchor(begin, window) else {
                return found;
            };
            anchor = inner;
            if block == Block::Content {
                found = inner;
            }
        }
        found
    }

    /// Which block begins after an anchor, and the anchor at the beginning of its run, if that is at the byte `before`
    /// or before it.
    fn into_block(&self, outer: Anchor, before: usize) -> Option<(Block, Anchor)>
        requires places { end_of 0 self.now.units.entries < 2 ^ 64 }
        requires outer { IsAnchor self.now.units.entries outer }
        ensures anchor { IfSome result (λ r. IsAnchor self.now.units.entries r.1) }
        ensures after { IfSome result (λ r. outer.number < r.1.number) }
    {
        let mut place = self.cursor_from(outer);
        let entry = place.next()?;
        let EntryKind::Opens(block, _) = entry.kind else {
            return None;
        };
        let start = place.start();
        if start > before {
            return None;
        }
        let end = start.checked_add(entry.forth)?;
        let number = place.number();
        let begin = Anchor {
            number,
            start,
            reach: outer.reach.max(end),
            first: number,
            outer: outer.start,
        };
        Some((block, begin))
    }

    /// The last anchor of a run at the window's first byte or before it, from one on; `None` if the run ends at
    /// the window's last byte or before it.
    fn last_anchor(&self, from: Anchor, window: Window) -> Option<Anchor>
        requires places { end_of 0 self.now.units.entries < 2 ^ 64 }
        requires from { IsAnchor self.now.units.entries from }
        ensures anchor { IfSome result (λ a. IsAnchor self.now.units.entries a) }
        ensures order { IfSome result (λ a. from.number ≤ a.number) }
    {
        let mut anchor = from;
        let mut reach = from.reach;
        let mut inside = 0usize;
        let mut place = self.cursor_from(from);
        loop {
            let Some(entry) = place.next() else {
                return Some(anchor);
            };
            let start = place.start();
            if start > window.to {
                return Some(anchor);
            }
            let end = start.checked_add(entry.forth)?;
            let further = inside_after(entry.kind, inside)?;
            reach = reach.max(end);
            inside = further;
            if inside == 0 && start <= window.from {
                anchor = Anchor {
                    number: place.number(),
                    start,
                    reach,
                    first: from.first,
                    outer: from.outer,
                };
            }
        }
    }

    /// From which place on `front` has to go through the entries, and how far before the byte `at` that place is:
    /// the anchor's, or the first.
    pub(crate) fn front_place(&self, at: usize) -> (WordCursor<'_>, usize)
        ensures entries { result.0.entries ≡ self.now.units.entries }
        ensures within { result.1 ≤ at }
        ensures count { result.0.number + front_of at (at - result.1) (drop result.0.number self.now.units.entries) ≡ front_of at 0 self.now.units.entries }
    {
        let Anchor {
            number,
            start,
            reach,
            ..
        } = self.anchor;
        if reach <= at {
            return (self.word_cursor_at(number), at - start);
        }
        (self.word_cursor(), at)
    }

    /// From which place on `opening` has to go through the entries, and how far before the byte `at` that place
    /// is; if the anchor is in the block that begins at the byte, the place before that block.
    pub(crate) fn opening_place(&self, at: usize) -> (WordCursor<'_>, usize)
        ensures entries { result.0.entries ≡ self.now.units.entries }
        ensures within { result.1 ≤ at }
        ensures later { opening_of at (at - result.1) result.0.number (drop result.0.number self.now.units.entries) ≡ opening_of at 0 0 self.now.units.entries }
    {
        let Anchor {
            number,
            start,
            first,
            outer,
            ..
        } = self.anchor;
        if start < at {
            return (self.word_cursor_at(number), at - start);
        }
        if outer < at {
            return (self.word_cursor_at(first.saturating_sub(1)), at - outer);
        }
        (self.word_cursor(), at)
    }

    /// A place before the first piece of a run whose token begins at byte `at`: the anchor's, if it is in that run
    /// and before the byte, or else the one after the first `first` entries, after which the run begins.
    pub fn run_place(&self, first: usize, at: usize) -> EntryCursor<'_>
        requires first { first ≤ length self.now.units.entries }
        requires places { end_of 0 self.now.units.entries < 2 ^ 64 }
        ensures entries { result.entries ≡ self.now.units.entries }
        ensures piece { piece_of at 0 (start_at result) result.number (drop result.number self.now.units.entries) ≡ piece_of at 0 (end_of 0 (take first self.now.units.entries)) first (drop first self.now.units.entries) }
    {
        if first == self.anchor.first && self.anchor.start < at {
            return self.cursor_from(self.anchor);
        }
        self.cursor_at(first)
    }

    /// A place after which the pieces of a run begin that begin after `place`, as far as they begin at the byte
    /// `from` or after it. The run begins after the first `first` entries. It is the anchor's place, if that is in
    /// the run, before the byte and after `place`, or else `place`.
    pub(crate) fn later_place<'a>(
        &'a self,
        first: usize,
        place: EntryCursor<'a>,
        from: usize,
    ) -> EntryCursor<'a>
        requires places { end_of 0 self.now.units.entries < 2 ^ 64 }
        requires entries { place.entries ≡ self.now.units.entries }
        requires order { first ≤ place.number }
        requires run { inside_of 0 (drop first (take place.number place.entries)) ≡ Some 0 }
        ensures entries { result.entries ≡ self.now.units.entries }
        ensures pieces { (w : Window) → w.from ≡ from → within w (pieces_of 0 (start_at result) (drop result.number result.entries)) ≡ within w (pieces_of 0 (start_at place.entry) (drop place.entry.number place.entry.entries)) }
    {
        let anchor = self.anchor;
        if first == anchor.first && anchor.start < from && place.number() <= anchor.number {
            return self.cursor_from(anchor);
        }
        place
    }
}
