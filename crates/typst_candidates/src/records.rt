//! The units of a text, kept beside its tree.

ghost use Rattle.std.specs.Prelude.{◌≡◌, ◌&&◌, ◌==◌, ◌↔◌, IsTrue, ℕ, Some, None, ◌≤◌, ◌<◌, ◌+◌, ◌-◌, ◌^◌, ◌++◌, ◌∷◌, [], suc, IfOk, IfSome, MatchOption, OnOk, OnErr, length, take, true};
ghost use Rattle.typst_candidates.specs.Cursors.{PassesBlock, start_at};
ghost use Rattle.typst_candidates.specs.Entries.{back_of, block_end, end_of, entries_by, entry_of, front_of, last_start, rear_of, spliced, units_by};
ghost use Rattle.typst_candidates.specs.Entries as spec;
ghost use Rattle.typst_candidates.specs.Packed.{HasRoom};
ghost use Rattle.typst_candidates.specs.Records.{AllFit, is_opening, opening_of};

use crate::anchor::Anchor;
use crate::cursor::EntryCursor;
use crate::entries::{BLOCK, Entries, FARTHEST_FORTH, WordCursor};
use crate::entry::{self, Entry, EntryKind};
use std::alloc::{AllocError, Global};
use std::marker::Model;
use typst_language::Note;

/// How many bytes back the looks after an edit may go at most for `rear` to begin near the edit: it goes as far on
/// from there. Nearly all looks begin in the line of their token.
const MOST_BACK: usize = 1 << 12;

/// The units of a text: an entry for each note of its reading, in order, and where the looks after the
/// last note begin. None of it depends on where in a text an entry is, so an edit exchanges only the
/// entries of its own part.
#[derive(Drop)]
pub struct Records {
    entries: Entries,
    /// How far before the token of the last note the looks after it begin.
    back: usize,
    /// Where the token of the last note begins, modulo 2^64. It is kept, since adding up all entries for it costs as
    /// much as the rest of an edit.
    last: usize,
    pub(crate) anchor: Anchor,
}

impl Model for Records {
    ghost use Rattle.std.specs.Prelude.{◌≡◌, ◌%◌, ◌^◌};
    ghost use Rattle.typst_candidates.specs.Anchors.{IsAnchor};
    ghost use Rattle.typst_candidates.specs.Entries.{end_of};
    ghost use Rattle.typst_candidates.specs.Records.{Kept};

    ghost Value = { Kept };

    ghost view = { λ r. record { units = record { entries = r.entries.entries; back = r.back }; space = r.entries.space } };

    ghost invariant = { λ r. (r.last ≡ end_of 0 r.entries.entries % 2 ^ 64) × IsAnchor r.entries.entries r.anchor };
}

impl Records {
    /// The units of a text without notes.
    pub fn new(alloc: Global) -> Records
        ensures { result.units ≡ record { entries = []; back = 0 } }
    {
        Records {
            entries: Entries::new(alloc),
            back: 0,
            last: 0,
            anchor: Anchor::first(),
        }
    }

    /// The units of a reading with these notes, after the last of which the looks begin at `least`, which counts
    /// the mark before the text.
    pub fn of_notes(alloc: Global, notes: &[Note], least: usize) -> Result<Records, AllocError>
        requires { AllFit notes.now }
        ensures { IfOk result (λ r. r.units ≡ units_by notes.now least) }
    {
        let mut records = Records::new(alloc);
        let last = records.add_all(0, notes)?;
        records.end(last, least);
        Ok(records)
    }

    /// Adds a note after one whose token begins at the byte `start`. If there is no memory for it, nothing
    /// changes.
    pub fn add(&mut self, start: usize, note: &Note) -> Result<(), AllocError>
        requires { start < 2 ^ 64 - 1 }
        ensures ok { OnOk result (self.new.units ≡ record self.old.units { entries = self.old.units.entries ++ entry_of start note.now ∷ [] }) }
        ensures err { OnErr result (self.new.units ≡ self.old.units) }
    {
        self.push(Entry::new(start, note))
    }

    /// Adds an entry at the end. If there is no memory for it, nothing changes.
    fn push(&mut self, entry: Entry) -> Result<(), AllocError>
        ensures ok { OnOk result (self.new.units ≡ record self.old.units { entries = self.old.units.entries ++ entry ∷ [] }) }
        ensures err { OnErr result (self.new.units ≡ self.old.units) }
    {
        self.entries.push(entry)?;
        self.last = self.last.wrapping_add(entry.step).wrapping_add(entry.gap);
        Ok(())
    }

    /// Adds notes after one whose token begins at the byte `start`; answers where the token of the last of them
    /// begins.
    pub fn add_all(&mut self, start: usize, notes: &[Note]) -> Result<usize, AllocError>
        requires first { start < 2 ^ 64 - 1 }
        requires fits { AllFit notes.now }
        ensures entries { OnOk result (self.new.units ≡ record self.old.units { entries = self.old.units.entries ++ entries_by start notes.now }) }
        ensures last { IfOk result (λ at. at ≡ last_start start notes.now) }
        ensures small { IfOk result (λ at. at < 2 ^ 64 - 1) }
    {
        self.entries.reserve_words(notes.len())?;
        let mut start = start;
        for note in notes {
            self.add(start, note)?;
            start = note.start;
        }
        Ok(start)
    }

    /// Adds the end of a block at the byte `end`, after a note whose token begins at the byte `start`, where the
    /// looks since that note end at `reach` and begin at `least`. If there is no memory for it, nothing changes.
    pub fn add_end(
        &mut self,
        start: usize,
        end: usize,
        reach: usize,
        least: usize,
    ) -> Result<(), AllocError>
        requires { start < 2 ^ 64 - 1 }
        ensures ok { OnOk result (self.new.units ≡ record self.old.units { entries = self.old.units.entries ++ block_end start end reach least ∷ [] }) }
        ensures err { OnErr result (self.new.units ≡ self.old.units) }
    {
        self.push(Entry::of_block_end(start, end, reach, least))
    }

    /// Says how the units end: the last note's token begins at the byte `start`, and the looks after it at
    /// `least`.
    pub fn end(&mut self, start: usize, least: usize)
        requires { start < 2 ^ 64 - 1 }
        ensures { self.new ≡ record self.old { units = record self.old.units { back = back_of start least } } }
    {
        self.back = entry::back_of(start, least);
    }

    /// How many notes there are.
    pub fn count(&self) -> usize
        ensures { result ≡ length self.now.units.entries }
    {
        self.entries.count()
    }

    /// Where the last note's token begins, in bytes, or 0 if there is none; `None` if that isn't a number of the
    /// machine. Goes through all entries.
    pub fn last(&self) -> Option<usize>
        ensures some { IfSome result (λ at. at ≡ end_of 0 self.now.units.entries) }
        ensures none { result ≡ None → 2 ^ 64 ≤ end_of 0 self.now.units.entries }
    {
        let mut at = 0usize;
        let mut place = self.word_cursor();
        while let Some(entry) = place.next() {
            at = at.checked_add(entry.step)?.checked_add(entry.gap)?;
        }
        Some(at)
    }

    /// Where the last note's token begins, in bytes, or 0 if there is none, where the places of the text are
    /// numbers of the machine. It is kept: nothing is added up.
    pub fn last_token(&self) -> usize
        requires { end_of 0 self.now.units.entries < 2 ^ 64 }
        ensures { result ≡ end_of 0 self.now.units.entries }
    {
        self.last
    }

    /// The place before the first entry.
    pub(crate) fn word_cursor(&self) -> WordCursor<'_>
        ensures { result ≡ record { entries = self.now.units.entries; number = 0 } }
    {
        self.entries.word_cursor()
    }

    /// The place after the first `number` entries. Goes through the words of these.
    pub(crate) fn word_cursor_at(&self, number: usize) -> WordCursor<'_>
        requires { number ≤ length self.now.units.entries }
        ensures { result ≡ record { entries = self.now.units.entries; number = number } }
    {
        self.entries.word_cursor_at(number)
    }

    /// Keeps the tally of the first `number` words, so that cursors there or after it are counted from there.
    pub(crate) fn tally_at(&mut self, number: usize)
        requires { number ≤ length self.old.units.entries }
        ensures { self.new ≡ self.old }
    {
        self.entries.tally_at(number);
    }

    /// The place after the last entry.
    pub(crate) fn word_cursor_at_end(&self) -> WordCursor<'_>
        ensures { result ≡ record { entries = self.now.units.entries; number = length self.now.units.entries } }
    {
        self.entries.word_cursor_at_end()
    }

    /// A copy of the units.
    pub fn try_clone(&self, alloc: Global) -> Result<Records, AllocError>
        ensures { IfOk result (λ r. r.units ≡ self.now.units) }
    {
        Ok(Records {
            entries: self.entries.try_clone(alloc)?,
            back: self.back,
            last: self.last,
            anchor: self.anchor,
        })
    }

    /// How many of the first notes are, with all looks before them, at the byte `at` or before it. Goes through
    /// these and one more, from the anchor on if all before it are among them.
    pub fn front(&self, at: usize) -> usize
        ensures { result ≡ front_of at 0 self.now.units.entries }
    {
        let (mut place, mut left) = self.front_place(at);
        let mut steps = 0;
        'entries: loop {
            if let Some(span) = pass_far(
                &mut place,
                &mut steps,
                left.saturating_sub(FARTHEST_FORTH),
            ) {
                left -= span;
                continue 'entries;
            }
            let here = place.number();
            let Some(entry) = place.next() else {
                return here;
            };
            let Some(rest) = left_after(left, &entry) else {
                return here;
            };
            if entry.forth > rest {
                return here;
            }
            left = rest;
        }
    }

    /// From which note on all looks after it begin at the byte `at` or after it, where the last note's token begins
    /// at the byte `last`; the number of notes if there is none. Goes through the notes from the anchor to a while
    /// after the byte, and back; if looks of later notes go far back, back through these notes from the last one.
    pub fn rear(&self, at: usize, last: usize) -> usize
        requires { last ≡ end_of 0 self.now.units.entries }
        ensures { result ≡ rear_of at 0 0 self.now.units.entries self.now.units.back }
    {
        let (mut place, mut back) = self.rear_place(at, last);
        let mut steps = 0;
        'entries: while is_after(at, place.start(), back) {
            if let Some(first) = place.pass_far_back(&mut steps, at) {
                back = first;
                continue 'entries;
            }
            let Some(entry) = place.back() else {
                return 0;
            };
            back = entry.back;
        }
        place.number()
    }

    /// From which place on `rear` has to go back through the entries, and how far back the looks after it begin: the
    /// first place from the anchor on that is so far after the byte `at` that no look after it reaches back to the
    /// byte, or else the last.
    fn rear_place(&self, at: usize, last: usize) -> (EntryCursor<'_>, usize)
        requires { last ≡ end_of 0 self.now.units.entries }
        ensures entries { result.0.entries ≡ self.now.units.entries }
        ensures within { result.0.number ≤ length self.now.units.entries }
        ensures later { rear_of at 0 0 (take result.0.number self.now.units.entries) result.1 ≡ rear_of at 0 0 self.now.units.entries self.now.units.back }
    {
        let mut place = self.cursor_from(self.anchor);
        let most = place.farthest_back().max(self.back);
        if most <= MOST_BACK && go_after(&mut place, at, most) {
            let back = place.back_after(self.back);
            return (place, back);
        }
        (self.cursor_at_end(last), self.back)
    }

    /// The number of the first entry at which a block begins whose token begins at the byte `at`. Goes
    /// through the entries up to it.
    pub fn opening(&self, at: usize) -> Option<usize>
        ensures { result ≡ opening_of at 0 0 self.now.units.entries }
    {
        let (mut place, mut left) = self.opening_place(at);
        let mut steps = 0;
        'entries: loop {
            if let Some(span) = pass_far(&mut place, &mut steps, left) {
                left -= span;
                continue 'entries;
            }
            let here = place.number();
            let entry = place.next()?;
            left = left_after(left, &entry)?;
            if opens_at(entry.kind, left) {
                return Some(here);
            }
        }
    }

    /// Makes room for a part; the units stay, whatever it answers.
    pub fn reserve(&mut self, part: &Records) -> Result<(), AllocError>
        ensures units { self.new.units ≡ self.old.units }
        ensures room { OnOk result (HasRoom (length self.new.units.entries) self.new.space (length part.now.units.entries) part.now.space) }
    {
        self.entries.reserve(&part.entries)?;
        Ok(())
    }

    /// Puts a part in place of the entries after the one numbered `from` up to the one numbered `to`.
    /// It takes no memory, since room was made before.
    pub fn put(&mut self, part: &Records, from: usize, to: usize)
        requires order { from ≤ to }
        requires within { to < length self.old.units.entries }
        requires room { HasRoom (length self.old.units.entries) self.old.space (length part.now.units.entries) part.now.space }
        ensures { self.new.units ≡ spliced from to part.now.units.entries self.old.units }
    {
        let gone = self.entries.put(&part.entries, from, to);
        self.anchor = self.anchor.upto(from);
        self.last = self.last.wrapping_sub(gone).wrapping_add(part.last);
    }
}

/// Whether the token of each note begins at a byte of a text that a machine word counts.
pub fn fit(notes: &[Note]) -> bool
    ensures { IsTrue result ↔ AllFit notes.now }
{
    for note in notes {
        if note.start == usize::MAX {
            return false;
        }
    }
    true
}

/// Passes over a block of entries after the place, if it takes up fewer bytes than `most`, and answers how many
/// these are. If it doesn't, it is tried again only `BLOCK` calls later.
#[inline]
fn pass_far(place: &mut WordCursor<'_>, steps: &mut usize, most: usize) -> Option<usize>
    ensures { MatchOption result (place.new ≡ place.old) (λ span. PassesBlock place.old place.new span × span < most) }
{
    if *steps > 0 {
        *steps -= 1;
        return None;
    }
    let Some(span) = place.pass_block(most) else {
        *steps = BLOCK;
        return None;
    };
    Some(span)
}

/// What is left of `left` bytes after the token of the entry, or `None` if that is further.
#[inline]
fn left_after(left: usize, entry: &Entry) -> Option<usize>
    ensures some { (rest : ℕ) → result ≡ Some rest → left ≡ (rest + entry.now.step) + entry.now.gap }
    ensures none { result ≡ None → left < entry.now.step + entry.now.gap }
{
    left.checked_sub(entry.step)?.checked_sub(entry.gap)
}

/// Goes on to the first place whose token begins `most` bytes after the byte `at` or later; answers whether there
/// is one.
fn go_after(place: &mut EntryCursor<'_>, at: usize, most: usize) -> bool
    requires { place.old.number ≤ length place.old.entries }
    ensures entries { place.new.entries ≡ place.old.entries }
    ensures on { place.old.number ≤ place.new.number }
    ensures within { place.new.number ≤ length place.new.entries }
    ensures after { result ≡ true → spec.is_after at (start_at place.new) most ≡ true }
{
    'entries: while !is_after(at, place.start(), most) {
        if place.next().is_none() {
            return false;
        }
    }
    true
}

/// Whether looks that begin `back` bytes before the token at the byte `start` begin at the byte `at` or after it.
#[inline]
fn is_after(at: usize, start: usize, back: usize) -> bool
    ensures { result ≡ spec.is_after at start back }
{
    at <= start && back <= start - at
}

/// Whether a block begins at an entry of this kind.
fn is_opening(kind: EntryKind) -> bool
    ensures { result ≡ is_opening kind }
{
    matches!(kind, EntryKind::Opens(_, _))
}

/// Whether a block begins at an entry of this kind, and no bytes are left up to the byte that is looked for.
fn opens_at(kind: EntryKind, left: usize) -> bool
    ensures { result ≡ (is_opening kind && left == 0) }
{
    is_opening(kind) && left == 0
}
