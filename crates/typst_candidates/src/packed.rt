//! Entries in 32 bits.

ghost use Rattle.std.specs.Prelude.{◌≡◌, ◌+◌, ◌*◌, ◌/◌, ◌%◌, ◌^◌, ◌<◌, IfSome, Some, slice_get};
ghost use Rattle.typst_candidates.specs.Packed as spec;

use crate::entry::{Entry, EntryKind};
use typst_kinds::SyntaxMode;
use typst_language::Block;

/// An [`Entry`] in a word of 32 bits, or the mark that it is too wide for one. Nearly all entries of a text are
/// small, so they take 4 bytes where an `Entry` takes 48.
#[derive(Debug, Clone, Copy, PartialEq, Eq)]
pub(crate) struct Packed {
    word: u32,
}

/// How many bits the parts of an entry take after those of its kind, from the lowest on; what is left holds
/// its count.
#[derive(Clone, Copy)]
struct Widths {
    step: u32,
    gap: u32,
    forth: u32,
    back: u32,
}

/// How many bits the kind takes.
const KIND: u32 = 4;

/// How many bits the step and the gap take. They are the same for each kind, so words are added up without looking
/// at their kinds.
const STEP: u32 = 8;

const GAP: u32 = 4;

impl Packed {
    /// The word of an entry that no word holds.
    pub(crate) fn wide() -> Packed
        ensures { spec.entry_in result ≡ spec.nothing }
    {
        Packed { word: 15 }
    }

    /// The word that holds an entry, if one can.
    pub(crate) fn pack(entry: Entry) -> Option<Packed>
        ensures { IfSome result (λ p. spec.entry_in p ≡ Some entry) }
    {
        let widths = widths_of(entry.kind);
        let count = word_of(entry.count)?;
        let from_back = joined(entry.back, widths.back, count)?;
        let from_forth = joined(entry.forth, widths.forth, from_back)?;
        let from_gap = joined(entry.gap, widths.gap, from_forth)?;
        let from_step = joined(entry.step, widths.step, from_gap)?;
        let word = joined(number(entry.kind), KIND, from_step)?;
        Some(Packed { word })
    }

    /// The entry that the word holds, if it holds one.
    #[inline]
    pub(crate) fn entry(self) -> Option<Entry>
        ensures { result ≡ spec.entry_in self }
    {
        let (number, from_step) = split(self.word, KIND);
        let kind = entry_kind_of(number)?;
        let widths = widths_of(kind);
        let (step, from_gap) = split(from_step, widths.step);
        let (gap, from_forth) = split(from_gap, widths.gap);
        let (forth, from_back) = split(from_forth, widths.forth);
        let (back, count) = split(from_back, widths.back);
        Some(Entry {
            kind,
            step,
            gap,
            forth,
            back,
            count: count as usize,
        })
    }

    /// How many entries beside the words the word stands for: one, if it holds none itself.
    #[inline]
    pub(crate) fn beside(self) -> u32
        ensures { result ≡ spec.beside (spec.entry_in self) }
    {
        let (number, _) = split(self.word, KIND);
        match entry_kind_of(number) {
            None => 1,
            Some(_) => 0,
        }
    }

    /// How many bytes lie between the token before an entry and its own, or 0 if the word holds no entry.
    #[inline]
    pub(crate) fn span(self) -> u32
        ensures value { result ≡ spec.span (spec.entry_in self) }
        ensures small { result < 2 ^ 9 }
    {
        let (number, from_step) = split(self.word, KIND);
        let (step, from_gap) = split(from_step, STEP);
        let (gap, _) = split(from_gap, GAP);
        match entry_kind_of(number) {
            None => 0,
            Some(_) => (step + gap) as u32,
        }
    }

    /// Whether the word holds an entry at which a piece begins.
    #[inline]
    pub(crate) fn is_piece(self) -> bool
        ensures { result ≡ spec.holds_piece (spec.entry_in self) }
    {
        let (number, _) = split(self.word, KIND);
        matches!(entry_kind_of(number), Some(EntryKind::Piece(_)))
    }
}

/// The number whose lowest `width` bits are `low`, and whose others are `high`, if both fit.
#[inline]
fn joined(low: usize, width: u32, high: u32) -> Option<u32>
    requires { width < 32 }
    ensures { IfSome result (λ both. (low < 2 ^ width) × (both ≡ high * 2 ^ width + low)) }
{
    if low >> width != 0 {
        return None;
    }
    word_of(((high as usize) << width) | low)
}

/// The number as a word, if it fits.
#[inline]
fn word_of(number: usize) -> Option<u32>
    ensures { IfSome result (λ word. word ≡ number) }
{
    u32::try_from(number).ok()
}

/// The lowest `width` bits of a number, and the others.
#[inline]
fn split(both: u32, width: u32) -> (usize, u32)
    requires { width < 32 }
    ensures low { result.0 ≡ both % 2 ^ width }
    ensures high { result.1 ≡ both / 2 ^ width }
{
    let low = both & ((1 << width) - 1);
    (low as usize, both >> width)
}

/// The widths of the parts of an entry of this kind. A block's count is the levels that are left in it, a few
/// less than the limit of depth, and trivia are seldom before it; the count of a piece is nearly always 0.
#[inline]
fn widths_of(kind: EntryKind) -> Widths
    ensures widths { result ≡ spec.widths kind }
    ensures fits { (result.step < 32) × (result.gap < 32) × (result.forth < 32) × (result.back < 32) }
{
    match kind {
        EntryKind::Opens(_, _) => Widths {
            step: STEP,
            gap: GAP,
            forth: 6,
            back: 2,
        },
        _ => Widths {
            step: STEP,
            gap: GAP,
            forth: 10,
            back: 4,
        },
    }
}

/// The number of a kind.
fn number(kind: EntryKind) -> usize
    ensures { slice_get spec.entry_kinds result ≡ Some kind }
{
    match kind {
        EntryKind::Piece(false) => 0,
        EntryKind::Piece(true) => 1,
        EntryKind::Closes => 2,
        EntryKind::Opens(Block::Code, SyntaxMode::Markup) => 3,
        EntryKind::Opens(Block::Code, SyntaxMode::Math) => 4,
        EntryKind::Opens(Block::Code, SyntaxMode::Code) => 5,
        EntryKind::Opens(Block::Content, SyntaxMode::Markup) => 6,
        EntryKind::Opens(Block::Content, SyntaxMode::Math) => 7,
        EntryKind::Opens(Block::Content, SyntaxMode::Code) => 8,
    }
}

/// The kind of a number.
#[inline]
fn entry_kind_of(number: usize) -> Option<EntryKind>
    ensures { result ≡ slice_get spec.entry_kinds number }
{
    match number {
        0 => Some(EntryKind::Piece(false)),
        1 => Some(EntryKind::Piece(true)),
        2 => Some(EntryKind::Closes),
        3 => Some(EntryKind::Opens(Block::Code, SyntaxMode::Markup)),
        4 => Some(EntryKind::Opens(Block::Code, SyntaxMode::Math)),
        5 => Some(EntryKind::Opens(Block::Code, SyntaxMode::Code)),
        6 => Some(EntryKind::Opens(Block::Content, SyntaxMode::Markup)),
        7 => Some(EntryKind::Opens(Block::Content, SyntaxMode::Math)),
        8 => Some(EntryKind::Opens(Block::Content, SyntaxMode::Code)),
        _ => None,
    }
}
