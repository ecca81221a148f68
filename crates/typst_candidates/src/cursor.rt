//! A place among the entries of records.

ghost use Rattle.std.specs.Prelude.{◌≡◌, ◌+◌, ◌-◌, ◌^◌, ◌<◌, ◌≤◌, length, drop, MatchBool, MatchOption, Some, None};
ghost use Rattle.typst_candidates.specs.Anchors.{IsAnchor};
ghost use Rattle.typst_candidates.specs.Entries.{end_of};
ghost use Rattle.typst_candidates.specs.Cursors as spec;

use crate::anchor::Anchor;
use crate::entries::{BLOCK, FARTHEST_BACK, WordCursor};
use crate::entry::{Entry, EntryKind};
use crate::records::Records;
use std::marker::Model;

/// A place between two entries of [`Records`], with the byte where it is in the text.
#[derive(Drop)]
pub struct EntryCursor<'a> {
    word_cursor: WordCursor<'a>,
    /// Where the token of the entry before it begins.
    start: usize,
}

impl<'a> Model for EntryCursor<'a> {
    ghost use Rattle.std.specs.Prelude.{◌≡◌, ◌^◌, ◌<◌};
    ghost use Rattle.typst_candidates.specs.Entries.{end_of};
    ghost use Rattle.typst_candidates.specs.Cursors.{EntryPlace, start_at};

    ghost Value = { EntryPlace };

    ghost view = { λ c. c.word_cursor };

    ghost invariant = { λ c. (c.start ≡ start_at c.word_cursor) × (end_of 0 c.word_cursor.entries < 2 ^ 64) };
}

impl Records {
    /// The place before the first entry. The places of the text must be numbers of the machine.
    pub fn cursor(&self) -> EntryCursor<'_>
        requires { end_of 0 self.now.units.entries < 2 ^ 64 }
        ensures { result ≡ record { entries = self.now.units.entries; number = 0 } }
    {
        EntryCursor {
            word_cursor: self.word_cursor(),
            start: 0,
        }
    }

    /// The place after the first `number` entries. Adds up the words of these, unless it is the place before the
    /// block that the anchor is in, which is kept.
    pub fn cursor_at(&self, number: usize) -> EntryCursor<'_>
        requires within { number ≤ length self.now.units.entries }
        requires fits { end_of 0 self.now.units.entries < 2 ^ 64 }
        ensures { result ≡ record { entries = self.now.units.entries; number = number } }
    {
        let word_cursor = self.word_cursor_at(number);
        if number == self.anchor.first.saturating_sub(1) {
            return EntryCursor {
                word_cursor,
                start: self.anchor.outer,
            };
        }
        EntryCursor {
            start: word_cursor.start(),
            word_cursor,
        }
    }

    /// The anchor's place. Adds up no entries.
    pub(crate) fn cursor_from(&self, anchor: Anchor) -> EntryCursor<'_>
        requires places { end_of 0 self.now.units.entries < 2 ^ 64 }
        requires anchor { IsAnchor self.now.units.entries anchor }
        ensures { result ≡ record { entries = self.now.units.entries; number = anchor.number } }
    {
        EntryCursor {
            word_cursor: self.word_cursor_at(anchor.number),
            start: anchor.start,
        }
    }

    /// The place after the last entry, whose token begins at the byte `last`, or 0 if there is none.
    pub fn cursor_at_end(&self, last: usize) -> EntryCursor<'_>
        requires { last ≡ end_of 0 self.now.units.entries }
        ensures { result ≡ record { entries = self.now.units.entries; number = length self.now.units.entries } }
    {
        EntryCursor {
            word_cursor: self.word_cursor_at_end(),
            start: last,
        }
    }
}

impl<'a> EntryCursor<'a> {
    /// A copy of the place.
    pub fn copy(&self) -> EntryCursor<'a>
        ensures place { result ≡ self.now }
        ensures fits { result.number < 2 ^ 64 }
    {
        EntryCursor {
            word_cursor: self.word_cursor.copy(),
            start: self.start,
        }
    }

    /// How many entries are before the place.
    pub fn number(&self) -> usize
        ensures { result ≡ self.now.number }
    {
        self.word_cursor.number()
    }

    /// The byte at which the token of the entry before it begins, or 0 before the first.
    pub fn start(&self) -> usize
        ensures { result ≡ spec.start_at self.now }
    {
        self.start
    }

    /// The entry after the place, which moves past it; `None` after the last.
    #[inline]
    pub fn next(&mut self) -> Option<Entry>
        ensures entry { result ≡ spec.entry_after self.old }
        ensures place { self.new ≡ spec.after result self.old }
        ensures fits { self.new.number < 2 ^ 64 }
    {
        let entry = self.word_cursor.next()?;
        self.start += entry.step + entry.gap;
        Some(entry)
    }

    /// Passes over the entry after the place, if a word holds it and a piece begins at it, and answers whether it
    /// did. Nearly all entries are like this, so a run is passed this way, and only the other entries by `next`.
    #[inline]
    pub(crate) fn pass_piece(&mut self) -> bool
        ensures { MatchBool result (spec.PassesPiece self.old self.new) (self.new ≡ self.old) }
    {
        let Some(span) = self.word_cursor.pass_piece() else {
            return false;
        };
        self.start += span;
        true
    }

    /// How many bytes back the looks of the entries after the place go at most, or `FARTHEST_BACK` if that is more.
    pub(crate) fn farthest_back(&self) -> usize
        ensures { spec.GoBack result (drop self.now.number self.now.entries) }
    {
        self.word_cursor.farthest_back()
    }

    /// How far back the looks of the entry after the place begin, or `back` if it is the last.
    pub(crate) fn back_after(&self, back: usize) -> usize
        ensures { result ≡ spec.back_after back self.now }
    {
        match self.copy().next() {
            Some(entry) => entry.back,
            None => back,
        }
    }

    /// How many entries are after the place.
    pub(crate) fn left(&self) -> usize
        ensures { result ≡ length self.now.entries - self.now.number }
    {
        self.word_cursor.left()
    }

    /// The entry before the place, which moves back over it; `None` before the first.
    #[inline]
    pub fn back(&mut self) -> Option<Entry>
        ensures entry { result ≡ spec.entry_before self.old }
        ensures place { self.new ≡ spec.before self.old }
    {
        let entry = self.word_cursor.back()?;
        self.start -= entry.step + entry.gap;
        Some(entry)
    }

    /// Passes back over a block of entries before the place, if all looks after its first entry's begin more than
    /// `FARTHEST_BACK` bytes after the byte `at`; answers how far back those of its first entry begin. Otherwise
    /// nothing changes, and it is tried again only `BLOCK` calls later.
    #[inline]
    pub(crate) fn pass_far_back(&mut self, steps: &mut usize, at: usize) -> Option<usize>
        ensures { MatchOption result (self.new ≡ self.old) (λ back. spec.PassesBack at self.old self.new back) }
    {
        if *steps > 0 {
            *steps -= 1;
            return None;
        }
        let most = self.start.saturating_sub(at).saturating_sub(FARTHEST_BACK);
        let Some(span) = self.word_cursor.pass_block_back(most) else {
            *steps = BLOCK;
            return None;
        };
        self.start -= span;
        let first = self.word_cursor.copy().next()?;
        Some(first.back)
    }

    /// The place before the next piece of the run that it is in. Goes through the entries up to there; what is in
    /// a block of the run is passed over. `None` if the run has no more pieces.
    pub fn piece_after(&self) -> Option<EntryCursor<'a>>
        ensures { result ≡ spec.placed self.now (spec.first_piece 0 self.now.number (drop self.now.number self.now.entries)) }
    {
        let mut place = self.copy();
        let mut inside = 0usize;
        loop {
            let here = place.copy();
            let entry = place.next()?;
            if leads(entry.kind, inside) {
                return Some(here);
            }
            inside = inside_after(entry.kind, inside)?;
        }
    }

    /// The place before the last piece of its run that is before it. Goes back through the entries to there; what
    /// is in a block of the run is passed over. `None` if there is none.
    pub fn piece_before(&self) -> Option<EntryCursor<'a>>
        ensures { result ≡ spec.placed self.now (spec.last_piece 0 self.now.entries self.now.number) }
    {
        let mut place = self.copy();
        let mut inside = 0usize;
        loop {
            let entry = place.back()?;
            if leads(entry.kind, inside) {
                return Some(place);
            }
            inside = inside_before(entry.kind, inside)?;
        }
    }
}

/// Whether a piece of the run itself begins at an entry of this kind, where `inside` blocks of the run are open.
pub(crate) fn leads(kind: EntryKind, inside: usize) -> bool
    ensures { result ≡ spec.leads kind inside }
{
    matches!(kind, EntryKind::Piece(_)) && inside == 0
}

/// How many blocks of a run are open after an entry, or `None` if the run's own block ends there.
pub(crate) fn inside_after(kind: EntryKind, inside: usize) -> Option<usize>
    requires { inside + 1 < 2 ^ 64 }
    ensures { result ≡ spec.inside_after kind inside }
{
    match kind {
        EntryKind::Piece(_) => Some(inside),
        EntryKind::Opens(_, _) => Some(inside + 1),
        EntryKind::Closes => inside.checked_sub(1),
    }
}

/// How many blocks of a run are open before an entry, or `None` if the run's own block begins there.
fn inside_before(kind: EntryKind, inside: usize) -> Option<usize>
    requires { inside + 1 < 2 ^ 64 }
    ensures { result ≡ spec.inside_before kind inside }
{
    match kind {
        EntryKind::Piece(_) => Some(inside),
        EntryKind::Opens(_, _) => inside.checked_sub(1),
        EntryKind::Closes => Some(inside + 1),
    }
}
