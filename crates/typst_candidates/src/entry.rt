//! Entries: the notes of a reading, each relative to the note before it.

ghost use Rattle.std.specs.Prelude.{◌≡◌, ◌-◌, ◌^◌, ◌<◌};
ghost use Rattle.typst_candidates.specs.Entries as spec;

use typst_kinds::SyntaxMode;
use typst_language::{Block, Mark, Note, State};

/// What begins or ends at an [`Entry`]: what its note's `Mark` says, except for the count, and for a block also
/// the mode of its first token.
#[derive(Debug, Clone, Copy, PartialEq, Eq)]
pub enum EntryKind {
    /// A piece of a run begins, whether at the start of a line, or the run ends.
    Piece(bool),
    /// A block begins, whose first token is read in this mode.
    Opens(Block, SyntaxMode),
    /// A block ends.
    Closes,
}

/// A `Note` of a reading as distances, in bytes, from the note before it. A note has places of the text, and an
/// entry has none, so an edit changes only the entries of its own part. `Packed` is an entry in 32 bits.
#[derive(Debug, Clone, Copy, PartialEq, Eq)]
pub struct Entry {
    /// What begins or ends.
    pub kind: EntryKind,
    /// How far the note is after the start of the token of the note before it.
    pub step: usize,
    /// How long the trivia between it and its own token are.
    pub gap: usize,
    /// How far the looks since the note before it go past the start of its token.
    pub forth: usize,
    /// How far before the start of the token of the note before it these looks begin.
    pub back: usize,
    /// The brackets that are open after a piece, the levels that are left in a block, or nothing.
    pub count: usize,
}

impl Entry {
    /// The entry of a note, after a note whose token begins at the byte `start`.
    pub fn new(start: usize, note: &Note) -> Entry
        requires { start < 2 ^ 64 - 1 }
        ensures { result ≡ spec.entry_of start note.now }
    {
        Entry {
            kind: entry_kind_of(note.mark, note.state),
            step: note.before.saturating_sub(start),
            gap: note.start.saturating_sub(note.before),
            forth: note.reach.saturating_sub(note.start),
            back: back_of(start, note.least),
            count: count_of(note.mark, note.levels),
        }
    }
}

impl Entry {
    /// The entry of a block's end at the byte `end`, after a note whose token begins at the byte `start`, where
    /// the looks since that note end at `reach` and begin at `least`.
    pub(crate) fn of_block_end(start: usize, end: usize, reach: usize, least: usize) -> Entry
        requires { start < 2 ^ 64 - 1 }
        ensures { result ≡ spec.block_end start end reach least }
    {
        Entry {
            kind: EntryKind::Closes,
            step: end.saturating_sub(start),
            gap: 0,
            forth: reach.saturating_sub(end),
            back: back_of(start, least),
            count: 0,
        }
    }
}

/// How far before the token at the byte `start` looks begin that begin at `least`, which counts the
/// mark before the text.
pub(crate) fn back_of(start: usize, least: usize) -> usize
    requires { start < 2 ^ 64 - 1 }
    ensures { result ≡ spec.back_of start least }
{
    if least > start { 0 } else { start - least + 1 }
}

fn entry_kind_of(mark: Mark, state: State) -> EntryKind
    ensures { result ≡ spec.entry_kind_of mark state }
{
    match mark {
        Mark::Piece(at_start, _) => EntryKind::Piece(at_start),
        Mark::Opens(block) => EntryKind::Opens(block, state.held.mode),
        Mark::Closes => EntryKind::Closes,
    }
}

fn count_of(mark: Mark, levels: usize) -> usize
    ensures { result ≡ spec.count_of mark levels }
{
    match mark {
        Mark::Piece(_, brackets) => brackets,
        Mark::Opens(_) => levels,
        Mark::Closes => 0,
    }
}
