//! Where the pieces of a run begin, and where a block ends, by the records of a text.

ghost use Rattle.std.specs.Prelude.{◌≡◌, ◌+◌, ◌-◌, ◌&&◌, ◌==◌, ◌<◌, ◌≤◌, ◌^◌, ◌++◌, ◌∷◌, [], if◌then◌else◌, nat_le, IfOk, OnOk, drop, ℕ, length, slice_get};
ghost use Rattle.typst_candidates.specs.Cursors as spec;
ghost use Rattle.typst_candidates.specs.Entries.{end_of};
ghost use Rattle.typst_candidates.specs.Edges.{IsRun, within};
ghost use Rattle.typst_candidates.specs.Units.{after_first};

use crate::cursor::{EntryCursor, inside_after, leads};
use crate::cuts::{Cuts, Window};
use crate::entries::WordCursor;
use crate::entry::{Entry, EntryKind};
use crate::records::Records;
use std::alloc::{AllocError, Global};
use typst_language::Block;

impl<'a> EntryCursor<'a> {
    /// Where the pieces after the place begin, in bytes, of the run that it is in, within a window. Goes through
    /// the entries up to the window's end.
    fn starts(&self, alloc: Global, window: Window) -> Result<Vec<usize>, AllocError>
        ensures { IfOk result (λ bytes. bytes.items ≡ within window (spec.pieces_of 0 (spec.start_at self.now) (drop self.now.number self.now.entries))) }
    {
        let mut starts = Vec::new(alloc);
        let mut place = self.copy();
        let mut inside = 0usize;
        loop {
            let Some(entry) = place.next() else {
                return Ok(starts);
            };
            if place.start() > window.to {
                return Ok(starts);
            }
            add_piece(&mut starts, entry.kind, inside, place.start(), window.from)?;
            let Some(further) = inside_after(entry.kind, inside) else {
                return Ok(starts);
            };
            inside = further;
        }
    }
}

impl Records {
    /// The text's own run within a window. Goes through the entries from the anchor on, if that is in the run, or
    /// else from the first, up to the window's end.
    pub fn top_run(&self, alloc: Global, window: Window) -> Result<Option<Cuts>, AllocError>
        requires { end_of 0 self.now.units.entries < 2 ^ 64 }
        ensures { IfOk result (λ run. IsRun window (after_first (spec.pieces_of 0 0 self.now.units.entries)) run) }
    {
        self.run_after(alloc, &self.cursor(), window)
    }

    /// The run that begins after a place, within a window, if a piece of it begins there. Goes through the entries
    /// up to the window's end.
    fn run_after(
        &self,
        alloc: Global,
        place: &EntryCursor<'_>,
        window: Window,
    ) -> Result<Option<Cuts>, AllocError>
        requires places { end_of 0 self.now.units.entries < 2 ^ 64 }
        requires entries { place.now.entries ≡ self.now.units.entries }
        ensures { IfOk result (λ run. IsRun window (after_first (spec.pieces_of 0 (spec.start_at place.now) (drop place.now.number place.now.entries))) run) }
    {
        let Some(mut first) = place.piece_after() else {
            return Ok(None);
        };
        first.next();
        let later = self.later_place(place.number(), first, window.from);
        let starts = later.starts(alloc, window)?;
        Ok(Some(Cuts { starts, window }))
    }

    /// The run of the content block that begins at byte `at`, within a window; `None` if no block or no piece of
    /// it is noted, as at the limit of depth. Passes over the entries up to the block, many at a time, and goes
    /// through those of the block from the anchor on, if that is in its run, or else from its beginning, up to the
    /// window's end.
    pub fn run_in(
        &self,
        alloc: Global,
        at: usize,
        window: Window,
    ) -> Result<Option<Cuts>, AllocError>
        requires { end_of 0 self.now.units.entries < 2 ^ 64 }
        ensures { IfOk result (λ run. IsRun window (spec.pieces_in at 0 self.now.units.entries) run) }
    {
        let Some(first) = self.opening(at) else {
            return Ok(None);
        };
        let mut place = self.cursor_at(first);
        while let Some(entry) = place.next() {
            if begins_content(at, entry.kind, place.start()) {
                return self.run_after(alloc, &place, window);
            }
        }
        Ok(None)
    }

    /// The number of the entry at which the block ends that the entries from `from` on are in. Goes through the
    /// entries up to there.
    pub fn closing(&self, from: usize) -> Option<usize>
        requires within { from ≤ length self.now.units.entries }
        requires fits { end_of 0 self.now.units.entries < 2 ^ 64 }
        ensures { result ≡ spec.closing_of 0 from (drop from self.now.units.entries) }
    {
        let mut place = self.word_cursor_at(from);
        let mut inside = 0usize;
        loop {
            pass_pieces(&mut place);
            let number = place.number();
            let entry = place.next()?;
            let Some(further) = inside_after(entry.kind, inside) else {
                return Some(number);
            };
            inside = further;
        }
    }
}

impl Records {
    /// The entry of a number. Goes through the words before it.
    pub fn entry(&self, number: usize) -> Option<Entry>
        ensures { result ≡ slice_get self.now.units.entries number }
    {
        if number >= self.count() {
            return None;
        }
        self.word_cursor_at(number).next()
    }
}

impl<'a> EntryCursor<'a> {
    /// The place before the first piece after it, of the run that it is in, whose token begins at byte
    /// `at`. Goes through the entries up to there.
    pub fn piece_from(&self, at: usize) -> Option<EntryCursor<'a>>
        ensures { result ≡ spec.placed self.now (spec.piece_of at 0 (spec.start_at self.now) self.now.number (drop self.now.number self.now.entries)) }
    {
        let mut place = self.copy();
        let mut inside = 0usize;
        loop {
            pass_other_pieces(&mut place, inside, at);
            let entry = place.next()?;
            if begins_piece(at, entry.kind, inside, place.start()) {
                // one step back here costs less than a copy of the place before each entry
                place.back();
                return Some(place);
            }
            inside = inside_after(entry.kind, inside)?;
        }
    }
}

/// Passes over entries at which pieces begin: no block ends at these.
fn pass_pieces(place: &mut WordCursor<'_>)
    ensures entries { place.new.entries ≡ place.old.entries }
    ensures on { place.old.number ≤ place.new.number }
    ensures closing { (inside : ℕ) → spec.closing_of inside place.new.number (drop place.new.number place.new.entries) ≡ spec.closing_of inside place.old.number (drop place.old.number place.old.entries) }
{
    while let Some(_) = place.pass_piece() {}
}

/// Passes over entries at which pieces of the run itself begin, up to one whose token begins at byte `at`. While a
/// block of the run is open, none of its entries begins such a piece.
fn pass_other_pieces(place: &mut EntryCursor<'_>, inside: usize, at: usize)
    ensures entries { place.new.entries ≡ place.old.entries }
    ensures on { place.old.number ≤ place.new.number }
    ensures piece { spec.piece_of at inside (spec.start_at place.new) place.new.number (drop place.new.number place.new.entries) ≡ spec.piece_of at inside (spec.start_at place.old) place.old.number (drop place.old.number place.old.entries) }
{
    if inside > 0 {
        return;
    }
    while place.pass_piece() {
        if place.start() == at {
            // one step back here costs less than a copy of the place before each entry
            place.back();
            return;
        }
    }
}

/// Whether a piece of a run itself begins at byte `at`, by an entry in `inside` blocks of the run whose token
/// begins at the byte `start`.
fn begins_piece(at: usize, kind: EntryKind, inside: usize, start: usize) -> bool
    ensures { result ≡ (spec.leads kind inside && start == at) }
{
    leads(kind, inside) && start == at
}

/// Adds the byte of an entry's token, if a piece of the run itself begins there, in `inside` blocks of the run, at
/// the byte `from` or after it.
fn add_piece(
    starts: &mut Vec<usize>,
    kind: EntryKind,
    inside: usize,
    start: usize,
    from: usize,
) -> Result<(), AllocError>
    ensures { OnOk result (starts.new.items ≡ starts.old.items ++ (if spec.leads kind inside && nat_le from start then start ∷ [] else [])) }
{
    if leads(kind, inside) && from <= start {
        starts.push(start)?;
    }
    Ok(())
}

/// Whether a content block begins at byte `at`, by an entry whose token begins at the byte `start`.
fn begins_content(at: usize, kind: EntryKind, start: usize) -> bool
    ensures { result ≡ (spec.opens_content kind && start == at) }
{
    opens_content(kind) && start == at
}

/// Whether a content block begins at an entry of this kind.
fn opens_content(kind: EntryKind) -> bool
    ensures { result ≡ spec.opens_content kind }
{
    match kind {
        EntryKind::Opens(block, _) => block == Block::Content,
        _ => false,
    }
}
