//! Entries in order, nearly all of them in words.

ghost use Rattle.std.specs.Prelude.{ℕ, List, ◌≡◌, ◌+◌, ◌-◌, ◌%◌, ◌^◌, ◌++◌, ◌∷◌, [], ◌≤◌, ◌<◌, IfOk, IfSome, MatchOption, None, OnErr, OnOk, Some, length, drop, slice_get, suc, take, vec_capacity};
ghost use Rattle.typst_candidates.specs.Cursors.{GoBack, PassesBlock, PassesPiece, before, after, block_len, entry_before, entry_after, start_at};
ghost use Rattle.typst_candidates.specs.Entries.{end_of};
ghost use Rattle.typst_candidates.specs.Tallies.{IsTally};
ghost use Rattle.typst_candidates.specs.Packed.{HasRoom, lengths, spans, wides};

use crate::entry::Entry;
use crate::packed::Packed;
use std::alloc::{AllocError, Global};
use std::marker::Model;

/// Entries in order: a word for each, and beside the words, in the same order, those that no word holds.
#[derive(Drop)]
pub(crate) struct Entries {
    words: Vec<Packed>,
    wide: Vec<Entry>,
    tally: Tally,
}

/// How many entries are beside the first `number` words. It is kept for one place, so that cursors at that place or
/// after it are counted from there.
#[derive(Clone, Copy)]
struct Tally {
    number: usize,
    passed: usize,
}

impl Tally {
    /// The tally of no words.
    fn first() -> Tally
        ensures tally { (ps : List Packed) → IsTally ps result }
        ensures first { result.number ≡ 0 }
    {
        Tally {
            number: 0,
            passed: 0,
        }
    }

    /// This tally, if it is of no more than `number` words, or else that of none.
    fn upto(self, number: usize) -> Tally
        ensures same { (ps qs : List Packed) → IsTally ps self → take number qs ≡ take number ps → number ≤ length qs → IsTally qs result }
        ensures upto { result.number ≤ number }
    {
        if self.number <= number {
            self
        } else {
            Tally::first()
        }
    }
}

impl Model for Entries {
    ghost use Rattle.std.specs.Prelude.{◌≡◌, length, vec_capacity};
    ghost use Rattle.typst_candidates.specs.Tallies.{IsTally};
    ghost use Rattle.typst_candidates.specs.Packed.{Held, unpacked, wides};

    ghost Value = { Held };

    ghost view = { λ e. record { entries = unpacked e.words.items e.wide.items; space = record { wide = length e.wide.items; room = vec_capacity e.words; wide_room = vec_capacity e.wide } } };

    ghost invariant = { λ e. (wides e.words.items ≡ length e.wide.items) × IsTally e.words.items e.tally };
}

impl Entries {
    /// No entries.
    pub(crate) fn new(alloc: Global) -> Entries
        ensures { result.entries ≡ [] }
    {
        Entries {
            words: Vec::new(alloc),
            wide: Vec::new(alloc),
            tally: Tally::first(),
        }
    }

    /// How many entries there are.
    pub(crate) fn count(&self) -> usize
        ensures { result ≡ length self.now.entries }
    {
        self.words.len()
    }

    /// Adds an entry at the end. If there is no memory for it, nothing changes.
    pub(crate) fn push(&mut self, entry: Entry) -> Result<(), AllocError>
        ensures ok { OnOk result (self.new.entries ≡ self.old.entries ++ entry ∷ []) }
        ensures err { OnErr result (self.new.entries ≡ self.old.entries) }
    {
        let Some(word) = Packed::pack(entry) else {
            return self.push_wide(entry);
        };
        self.words.push(word)?;
        Ok(())
    }

    /// Adds an entry at the end, beside the words. If there is no memory for it, nothing changes.
    fn push_wide(&mut self, entry: Entry) -> Result<(), AllocError>
        ensures ok { OnOk result (self.new.entries ≡ self.old.entries ++ entry ∷ []) }
        ensures err { OnErr result (self.new.entries ≡ self.old.entries) }
    {
        self.words.reserve(1)?;
        self.wide.push(entry)?;
        self.words.push_reserved(Packed::wide());
        Ok(())
    }

    /// Makes room for `more` words at once; the entries stay, whatever it answers.
    pub(crate) fn reserve_words(&mut self, more: usize) -> Result<(), AllocError>
        ensures { self.new.entries ≡ self.old.entries }
    {
        self.words.reserve(more)?;
        Ok(())
    }

    /// Makes room for a part; the entries stay, whatever it answers.
    pub(crate) fn reserve(&mut self, part: &Entries) -> Result<(), AllocError>
        ensures entries { self.new.entries ≡ self.old.entries }
        ensures room { OnOk result (HasRoom (length self.old.entries) self.new.space (length part.now.entries) part.now.space) }
    {
        self.words.reserve(part.words.len())?;
        self.wide.reserve(part.wide.len())?;
        Ok(())
    }

    /// A copy of the entries.
    pub(crate) fn try_clone(&self, alloc: Global) -> Result<Entries, AllocError>
        ensures { IfOk result (λ e. e.entries ≡ self.now.entries) }
    {
        let mut words = Vec::new(alloc);
        words.extend_from_slice(&self.words)?;
        let mut wide = Vec::new(alloc);
        wide.extend_from_slice(&self.wide)?;
        Ok(Entries {
            words,
            wide,
            tally: self.tally,
        })
    }

    /// Puts a part in place of the entries after the one numbered `from` up to the one numbered `to`, and
    /// answers how many bytes lay between the tokens of these two, modulo 2^64.
    /// It takes no memory, since room was made before.
    pub(crate) fn put(&mut self, part: &Entries, from: usize, to: usize) -> usize
        requires order { from ≤ to }
        requires within { to < length self.old.entries }
        requires room { HasRoom (length self.old.entries) self.old.space (length part.now.entries) part.now.space }
        ensures entries { self.new.entries ≡ take (suc from) self.old.entries ++ (part.now.entries ++ drop (suc to) self.old.entries) }
        ensures gone { (end_of 0 (take (suc from) self.old.entries) + result) % 2 ^ 64 ≡ end_of 0 (take (suc to) self.old.entries) % 2 ^ 64 }
    {
        let between = &self.words[from + 1..to + 1];
        let first = passed_at(&self.words, self.tally, from + 1);
        let last = first + beside(between);
        let gone = spans(between).wrapping_add(lengths(&self.wide[first..last]));
        self.tally = self.tally.upto(from + 1);
        replace(&mut self.words, from + 1, to + 1, &part.words);
        replace(&mut self.wide, first, last, &part.wide);
        gone
    }

    /// The place before the first entry.
    pub(crate) fn word_cursor(&self) -> WordCursor<'_>
        ensures { result ≡ record { entries = self.now.entries; number = 0 } }
    {
        WordCursor {
            words: &self.words,
            wide: &self.wide,
            number: 0,
            passed: 0,
        }
    }

    /// The place after the first `number` entries. Goes through the words before it, except those of the tally.
    pub(crate) fn word_cursor_at(&self, number: usize) -> WordCursor<'_>
        requires { number ≤ length self.now.entries }
        ensures { result ≡ record { entries = self.now.entries; number = number } }
    {
        WordCursor {
            words: &self.words,
            wide: &self.wide,
            number,
            passed: passed_at(&self.words, self.tally, number),
        }
    }

    /// Keeps the tally of the first `number` words.
    pub(crate) fn tally_at(&mut self, number: usize)
        requires { number ≤ length self.old.entries }
        ensures { self.new ≡ self.old }
    {
        let passed = passed_at(&self.words, self.tally, number);
        self.tally = Tally { number, passed };
    }

    /// The place after the last entry.
    pub(crate) fn word_cursor_at_end(&self) -> WordCursor<'_>
        ensures { result ≡ record { entries = self.now.entries; number = length self.now.entries } }
    {
        WordCursor {
            words: &self.words,
            wide: &self.wide,
            number: self.words.len(),
            passed: self.wide.len(),
        }
    }
}

/// How many words are passed over at once, if what is looked for can't be among them. The more they are, the more
/// often one of them can't be passed over.
pub(crate) const BLOCK: usize = 16;

/// The looks of an entry that a word holds go fewer bytes forth than this.
pub(crate) const FARTHEST_FORTH: usize = 1 << 10;

/// The looks of an entry that a word holds go fewer bytes back than this.
pub(crate) const FARTHEST_BACK: usize = 1 << 4;

/// A place between two entries, among the words and the entries beside them. An `EntryCursor` also has its byte.
#[derive(Drop)]
pub(crate) struct WordCursor<'a> {
    words: &'a [Packed],
    wide: &'a [Entry],
    /// How many words are before the place.
    number: usize,
    /// How many entries beside the words are before the place.
    passed: usize,
}

impl<'a> Model for WordCursor<'a> {
    ghost use Rattle.std.specs.Prelude.{◌≡◌, ◌≤◌, length, take};
    ghost use Rattle.typst_candidates.specs.Cursors.{EntryPlace};
    ghost use Rattle.typst_candidates.specs.Packed.{unpacked, wides};

    ghost Value = { EntryPlace };

    ghost view = { λ w. record { entries = unpacked w.words.now w.wide.now; number = w.number } };

    ghost invariant = { λ w. (w.number ≤ length w.words.now) × (w.passed ≡ wides (take w.number w.words.now)) × (wides w.words.now ≡ length w.wide.now) };
}

impl<'a> WordCursor<'a> {
    /// A copy of the place.
    pub(crate) fn copy(&self) -> WordCursor<'a>
        ensures place { result ≡ self.now }
        ensures fits { result.number < 2 ^ 64 }
    {
        WordCursor {
            words: self.words,
            wide: self.wide,
            number: self.number,
            passed: self.passed,
        }
    }

    /// Where the token of the entry before it begins, in bytes, or 0 before the first. The places of the text
    /// must be numbers of the machine. Adds up the words before it, many at a time.
    pub(crate) fn start(&self) -> usize
        requires { end_of 0 self.now.entries < 2 ^ 64 }
        ensures { result ≡ start_at self.now }
    {
        spans(&self.words[..self.number]) + lengths(&self.wide[..self.passed])
    }

    /// Passes over a block of words after the place, if all of them hold entries and take up fewer bytes than
    /// `most`; answers how many these are. Otherwise nothing changes.
    #[inline]
    pub(crate) fn pass_block(&mut self, most: usize) -> Option<usize>
        ensures none { result ≡ None → self.new ≡ self.old }
        ensures some { IfSome result (λ span. PassesBlock self.old self.new span × span < most) }
    {
        if self.words.len() - self.number < BLOCK {
            return None;
        }
        let span = block_span(&self.words[self.number..self.number + BLOCK])?;
        if span >= most {
            return None;
        }
        self.number += BLOCK;
        Some(span)
    }

    /// Passes back over a block of words before the place, if all of them hold entries and take up fewer bytes
    /// than `most`; answers how many these are. Otherwise nothing changes.
    #[inline]
    pub(crate) fn pass_block_back(&mut self, most: usize) -> Option<usize>
        ensures none { result ≡ None → self.new ≡ self.old }
        ensures some { IfSome result (λ span. PassesBlock self.new self.old span × span < most) }
    {
        let number = self.number.checked_sub(BLOCK)?;
        let span = block_span(&self.words[number..self.number])?;
        if span >= most {
            return None;
        }
        self.number = number;
        Some(span)
    }

    /// How many entries are before the place.
    #[inline]
    pub(crate) fn number(&self) -> usize
        ensures number { result ≡ self.now.number }
        ensures within { result ≤ length self.now.entries }
    {
        self.number
    }

    /// The entry after the place, which moves past it; `None` after the last.
    #[inline]
    pub(crate) fn next(&mut self) -> Option<Entry>
        ensures entry { result ≡ entry_after self.old }
        ensures place { self.new ≡ after result self.old }
        ensures fits { self.new.number < 2 ^ 64 }
    {
        let word = *self.words.get(self.number)?;
        self.number += 1;
        if let Some(entry) = word.entry() {
            return Some(entry);
        }
        let entry = wide_at(self.wide, self.passed);
        self.passed += 1;
        Some(entry)
    }

    /// Passes over the entry after the place, if a word holds it and a piece begins at it; answers how many bytes
    /// it takes up. Otherwise nothing changes. Reads no more of the word than these two facts.
    #[inline]
    pub(crate) fn pass_piece(&mut self) -> Option<usize>
        ensures { MatchOption result (self.new ≡ self.old) (λ span. (p : PassesPiece self.old self.new) × (span ≡ p.entry.step + p.entry.gap)) }
    {
        let word = *self.words.get(self.number)?;
        if !word.is_piece() {
            return None;
        }
        self.number += 1;
        Some(word.span() as usize)
    }

    /// How many bytes back the looks of the entries after the place go at most, or `FARTHEST_BACK` if that is more.
    /// Goes only through those beside the words, which are few: the looks of the others go less far back.
    pub(crate) fn farthest_back(&self) -> usize
        ensures { GoBack result (drop self.now.number self.now.entries) }
    {
        farthest_back(self.wide, self.passed)
    }

    /// How many entries are after the place.
    pub(crate) fn left(&self) -> usize
        ensures { result ≡ length self.now.entries - self.now.number }
    {
        self.words.len() - self.number
    }

    /// The entry before the place, which moves back over it; `None` before the first.
    #[inline]
    pub(crate) fn back(&mut self) -> Option<Entry>
        ensures entry { result ≡ entry_before self.old }
        ensures place { self.new ≡ before self.old }
    {
        self.number = self.number.checked_sub(1)?;
        let word = self.words[self.number];
        if let Some(entry) = word.entry() {
            return Some(entry);
        }
        self.passed -= 1;
        Some(wide_at(self.wide, self.passed))
    }
}

/// The entry of a number beside the words.
fn wide_at(wide: &[Entry], number: usize) -> Entry
    requires { number < length wide.now }
    ensures { slice_get wide.now number ≡ Some result }
{
    wide[number]
}

/// How many bytes back the looks of the entries from one on go at most, or `FARTHEST_BACK` if that is more.
fn farthest_back(entries: &[Entry], from: usize) -> usize
    requires { from ≤ length entries.now }
    ensures least { 2 ^ 4 ≤ result }
    ensures all { GoBack result (drop from entries.now) }
{
    let mut most = FARTHEST_BACK;
    for entry in &entries[from..] {
        most = most.max(entry.back);
    }
    most
}

/// How many entries are beside the first `number` words. Goes through those after the tally's, if it is of fewer,
/// or else through all.
fn passed_at(words: &[Packed], tally: Tally, number: usize) -> usize
    requires tally { IsTally words.now tally }
    requires within { number ≤ length words.now }
    ensures { result ≡ wides (take number words.now) }
{
    let from = tally.upto(number);
    from.passed + beside(&words[from.number..number])
}

/// How many entries are beside some words. Adds up one block after the other.
fn beside(words: &[Packed]) -> usize
    ensures { result ≡ wides words.now }
{
    let mut count = 0usize;
    let mut from = 0;
    while from < words.len() {
        let to = from + BLOCK.min(words.len() - from);
        count += block_beside(&words[from..to]) as usize;
        from = to;
    }
    count
}

/// How many entries are beside the words of a block. It adds in 32 bits, as the machine adds twice as many of
/// these at once as of 64; they hold the sum, since each word counts one at most.
#[inline]
fn block_beside(words: &[Packed]) -> u32
    requires { length words.now ≤ block_len }
    ensures { result ≡ wides words.now }
{
    let mut count = 0u32;
    for word in words {
        count += word.beside();
    }
    count
}

/// How many bytes the words of a block take up, if all of them hold entries.
#[inline]
fn block_span(words: &[Packed]) -> Option<usize>
    requires { length words.now ≡ block_len }
    ensures { IfSome result (λ span. (wides words.now ≡ 0) × (span ≡ spans words.now)) }
{
    if block_beside(words) > 0 {
        return None;
    }
    Some(block_spans(words) as usize)
}

/// How many bytes lie between the tokens of the entries that some words hold and the tokens before these, modulo
/// 2^64. Adds up one block after the other.
fn spans(words: &[Packed]) -> usize
    ensures { result ≡ spans words.now % 2 ^ 64 }
{
    let mut sum = 0usize;
    let mut from = 0;
    while from < words.len() {
        let to = from + BLOCK.min(words.len() - from);
        sum = sum.wrapping_add(block_spans(&words[from..to]) as usize);
        from = to;
    }
    sum
}

/// How many bytes lie between the tokens of the entries that the words of a block hold and the tokens before
/// these. It adds in 32 bits, as `block_beside` does; they hold the sum, since no word takes up 2^9 bytes.
#[inline]
fn block_spans(words: &[Packed]) -> u32
    requires { length words.now ≤ block_len }
    ensures { result ≡ spans words.now }
{
    let mut sum = 0u32;
    for word in words {
        sum += word.span();
    }
    sum
}

/// How many bytes lie between the tokens of entries beside the words and the tokens before these, modulo 2^64.
fn lengths(entries: &[Entry]) -> usize
    ensures { result ≡ lengths entries.now % 2 ^ 64 }
{
    let mut sum = 0usize;
    for entry in entries {
        sum = sum.wrapping_add(entry.step).wrapping_add(entry.gap);
    }
    sum
}

/// Replaces the items from the one numbered `from` up to the one numbered `to` by a part for which there is room.
/// If the part is as long, as at nearly every keystroke, it writes over them; otherwise rotations make place, which
/// go through all items after them.
fn replace<T: Copy>(items: &mut Vec<T>, from: usize, to: usize, part: &[T])
    requires order { from ≤ to }
    requires within { to ≤ length items.old.items }
    requires room { length items.old.items + length part.now ≤ vec_capacity items.old }
    ensures { items.new.items ≡ take from items.old.items ++ (part.now ++ drop to items.old.items) }
{
    let more = part.len();
    let gone = to - from;
    if more == gone {
        items[from..to].copy_from_slice(part);
        return;
    }
    let count = items.len();
    if items.extend_from_slice(part).is_err() {
        return;
    }
    bring_forward(items, from, more);
    bring_back(items, from + more, gone);
    items.truncate(count + more - gone);
}

/// Brings the last `count` items to the place `at`, before the others from there on.
fn bring_forward<T>(items: &mut [T], at: usize, count: usize)
    requires { at + count ≤ length items.old }
    ensures { let rest = drop at items.old in items.new ≡ take at items.old ++ (drop (length rest - count) rest ++ take (length rest - count) rest) }
{
    items[at..].rotate_right(count);
}

/// Brings `count` items from the place `at` to the end.
fn bring_back<T>(items: &mut [T], at: usize, count: usize)
    requires { at + count ≤ length items.old }
    ensures { let rest = drop at items.old in items.new ≡ take at items.old ++ (drop count rest ++ take count rest) }
{
    items[at..].rotate_left(count);
}
