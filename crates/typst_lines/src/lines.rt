//! The lines of a text, and positions in bytes, lines, columns and UTF-16 units.
ghost use Rattle.std.specs.Prelude.{◌≡◌, ◌≢◌, ℕ, ◌+◌, ◌-◌, ◌≤◌, ◌<◌, ◌^◌, ◌++◌, List, [], length, map, Some, Ok, false, IsTrue, ◌↔◌, IfOk, IfErr, IfSome, MatchOption, OnErr, OnOk, not, take, drop, reverse, slice_get, slice_index, nat_eq};
ghost use Rattle.std.specs.Option.{SomeIff};
ghost use Rattle.std.specs.Str.{IsCharBoundary, IsUtf8, chars};
ghost use Rattle.std.specs.String.{string_bytes, string_capacity};
ghost use Rattle.std.specs.Cmp.{partial_equiv_from_equiv};
ghost use Rattle.std.specs.Cmp.Lexicographic.{pointwise, nat_list_eq_equiv};
ghost use Rattle.std.specs.Cmp.Rules.{hashing};
ghost use Rattle.std.specs.Hash as fed;
ghost use Rattle.std.proofs.Common.{rules};
ghost use Rattle.typst_lines.specs.Blocks.{IsSharedEnd, IsSharedFront, is_plain_byte};
ghost use Rattle.typst_lines.specs.Edited.{moved_line, shifted_line, units_at};
ghost use Rattle.typst_lines.specs.Newline.{is_newline, ends_line};
ghost use Rattle.typst_lines.specs.Pending.{AddsStarts, lines_behind, settled_lines};
ghost use Rattle.typst_lines.specs.Place.{char_width, place_at, scout};
ghost use Rattle.typst_lines.specs.Replacement.{Replaces};
ghost use Rattle.typst_lines.specs.Lines.{IsLine, IsLineOf, IsLineUpTo, IsPlainRun, utf16_len, units, line_table, lines_after, utf16_before, line_of, line_start, column_of, line_range, byte_at, byte_at_utf16, bytes, common_ends, common_front, IsCommonFront};

use crate::blocks::{
    InChars, InUnits, LANES, alike_at_end, alike_at_front, boundary_within, measured, plain_lanes,
};
use crate::newline::is_newline;
use crate::scanner::{Scanner, next_char};
use std::alloc::{AllocError, Global};
use std::hash::{Hash, Hasher};
use std::marker::Model;
use std::mem;
use std::ops::Range;

/// What holds a text, and gives the same one each time.
pub trait Text: Drop {
    ghost bytes: { Self → List ℕ };

    /// The text.
    fn as_text(&self) -> &str
        ensures { result.now ≡ bytes self.now };
}

impl Text for &str {
    ghost bytes = { λ s. s.now };

    fn as_text(&self) -> &str {
        self
    }
}

impl Text for String {
    ghost bytes = { string_bytes };

    fn as_text(&self) -> &str {
        self.as_str()
    }
}

/// Where a line starts.
#[derive(Debug, Clone, Copy, PartialEq, Eq)]
pub struct Line {
    byte_idx: usize,
    utf16_idx: usize,
}

impl Line {
    /// The start in bytes.
    #[inline]
    pub fn byte_idx(&self) -> usize
        ensures { result ≡ self.now.byte_idx }
    {
        self.byte_idx
    }

    /// The start in UTF-16 units.
    #[inline]
    pub fn utf16_idx(&self) -> usize
        ensures { result ≡ self.now.utf16_idx }
    {
        self.utf16_idx
    }

    /// Moves the line by so many bytes and UTF-16 units, which wrap round where it moves back.
    #[inline]
    fn shift(&mut self, bytes: usize, units: usize)
        ensures { self.new ≡ shifted_line bytes units self.old }
    {
        self.byte_idx = self.byte_idx.wrapping_add(bytes);
        self.utf16_idx = self.utf16_idx.wrapping_add(units);
    }
}

/// The lines of a text that start after a place of it.
#[derive(Clone, Copy)]
pub struct LinesFrom<'a> {
    text: &'a str,
    byte_idx: usize,
    utf16_idx: usize,
    ghost utf8: { ∥ IsUtf8 text.now ∥₁ },
    ghost short: { length text.now < 2 ^ 64 },
    ghost boundary: { IsCharBoundary text.now byte_idx },
    ghost counted: { utf16_idx ≡ utf16_before text.now byte_idx },
}

impl<'a> LinesFrom<'a> {
    ghost use Rattle.typst_lines.specs.LinesLeft.{lines_left};

    /// The lines after a byte offset, which is on a character boundary and has so many UTF-16 units
    /// before it.
    pub fn new(text: &'a str, byte_offset: usize, utf16_offset: usize) -> LinesFrom<'a>
        requires boundary { IsCharBoundary text.now byte_offset }
        requires units { utf16_offset ≡ utf16_before text.now byte_offset }
        ensures { lines_left result ≡ lines_after text.now byte_offset }
    {
        LinesFrom {
            text,
            byte_idx: byte_offset,
            utf16_idx: utf16_offset,
        }
    }
}

impl Iterator for LinesFrom<'_> {
    ghost use Rattle.std.specs.Iterator.{YieldsFirst, item_count};
    ghost use Rattle.typst_lines.specs.LinesLeft.{lines_left};

    type Item = Line;

    ghost next_gives = { YieldsFirst lines_left };

    ghost remaining = { item_count lines_left };

    fn next(&mut self) -> Option<Line> {
        let text = self.text;
        let mut byte_idx = plain_end(text, self.byte_idx);
        let mut utf16_idx = self.utf16_idx + (byte_idx - self.byte_idx);
        while let Some((c, end)) = next_char(text, byte_idx) {
            utf16_idx += utf16_len(c);
            if ends_line(text, c, end) {
                let byte_idx = end;
                *self = LinesFrom {
                    text,
                    byte_idx,
                    utf16_idx,
                };
                return Some(Line {
                    byte_idx,
                    utf16_idx,
                });
            }
            byte_idx = plain_end(text, end);
            utf16_idx += byte_idx - end;
        }
        *self = LinesFrom {
            text,
            byte_idx,
            utf16_idx,
        };
        None
    }
}

/// Whether a line ends after a character, which ends at a byte offset of a text.
#[inline]
fn ends_line(text: &str, c: char, end: usize) -> bool
    requires { IsCharBoundary text.now end }
    ensures { result ≡ ends_line c (scout 0 (place_at text.now end)) }
{
    if c != '\r' {
        return is_newline(c);
    }
    match next_char(text, end) {
        Some((next, _)) => next != '\n',
        None => true,
    }
}

/// Where the run of ASCII characters that aren't newline characters ends.
#[inline]
fn plain_end(text: &str, start: usize) -> usize
    requires { IsCharBoundary text.now start }
    ensures { IsPlainRun text.now start result }
{
    let bytes = text.as_bytes();
    let mut at = start;
    while bytes.len() - at >= LANES && starts_run(bytes, at) {
        let run = plain_lanes(bytes, at);
        if run < LANES {
            return at + run;
        }
        at += LANES;
    }
    while at < bytes.len() && is_plain(bytes[at]) {
        at += 1;
    }
    at
}

/// Whether the next two bytes are ASCII characters that aren't newline characters. If they aren't, the
/// run is one byte at most, as in text of other scripts most are, and a load costs more than it saves.
#[inline]
fn starts_run(bytes: &[u8], at: usize) -> bool
    requires { at + 2 ≤ length bytes.now }
    ensures { IsTrue result ↔ (IsTrue (is_plain_byte (slice_index bytes.now at)) × IsTrue (is_plain_byte (slice_index bytes.now (at + 1)))) }
{
    is_plain(bytes[at]) && is_plain(bytes[at + 1])
}

/// Whether a byte is an ASCII character that isn't a newline character.
#[inline]
fn is_plain(byte: u8) -> bool
    ensures { IsTrue result ↔ ((byte < 128) × (is_newline byte ≡ false)) }
{
    byte < 0x80 && !(b'\n'..=b'\r').contains(&byte)
}

/// The UTF-16 units of a character.
#[inline]
fn utf16_len(c: char) -> usize
    ensures { result ≡ utf16_len c }
{
    c.len_utf16()
}

/// A text and where its lines start. Contracts see its text alone.
#[derive(Drop)]
pub struct Lines<S: Text> {
    text: S,
    lines: Vec<Line>,
}

impl<S: Text> Model for Lines<S> {
    ghost Value = { List ℕ };

    ghost view = { λ a. S.bytes a.text };

    ghost invariant = { λ a. a.lines.items ≡ line_table (S.bytes a.text) };
}

impl<S: Text> Lines<S> {
    /// The lines of a text. Goes through the text once, and takes memory for the table.
    pub fn new(alloc: Global, text: S) -> Result<Lines<S>, AllocError>
        ensures { IfOk result (λ lines. lines ≡ S.bytes text) }
    {
        let lines = line_table(alloc, text.as_text())?;
        Ok(Lines { text, lines })
    }

    /// The text.
    #[inline]
    pub fn text(&self) -> &str
        ensures { result.now ≡ self.now }
    {
        self.text.as_text()
    }

    /// The text's length in bytes.
    pub fn len_bytes(&self) -> usize
        ensures { result ≡ length self.now }
    {
        self.text().len()
    }

    /// The text's length in UTF-16 units. Goes through the last line.
    pub fn len_utf16(&self) -> usize
        ensures { result ≡ units (chars self.now) }
    {
        self.byte_to_utf16(self.len_bytes()).unwrap_or(0)
    }

    /// How many lines there are, which is at least one.
    pub fn len_lines(&self) -> usize
        ensures { result ≡ length (line_table self.now) }
    {
        self.lines.len()
    }

    /// Where the line of a number starts.
    pub fn line(&self, line_idx: usize) -> Option<Line>
        ensures value { result ≡ slice_get (line_table self.now) line_idx }
        ensures fits { IfSome result (λ _. line_idx < usize.MAX) }
    {
        let _lines = self.lines.as_slice();
        self.lines.get(line_idx).copied()
    }

    /// The UTF-16 units before a byte offset; none past the text or inside a character. Goes through the line up
    /// to it.
    pub fn byte_to_utf16(&self, byte_idx: usize) -> Option<usize>
        ensures value { SomeIff result (IsCharBoundary self.now byte_idx) (utf16_before self.now byte_idx) }
        ensures back { IfSome result (λ utf16. byte_at_utf16 self.now utf16 ≡ Some byte_idx) }
    {
        let text = self.text();
        if !text.is_char_boundary(byte_idx) {
            return None;
        }
        let line = self.line_before(byte_idx);
        Some(line.utf16_idx + len_utf16(&text[line.byte_idx..byte_idx]))
    }

    /// The number of the line that holds a byte offset; none past the text. A binary search in the table.
    pub fn byte_to_line(&self, byte_idx: usize) -> Option<usize>
        ensures { SomeIff result (byte_idx ≤ length self.now) (line_of self.now byte_idx) }
    {
        if byte_idx > self.len_bytes() {
            return None;
        }
        Some(self.line_holding(byte_idx))
    }

    /// How many characters are between the start of its line and a byte offset; none past the text
    /// or inside a character. Goes through the line up to it.
    pub fn byte_to_column(&self, byte_idx: usize) -> Option<usize>
        ensures { SomeIff result (IsCharBoundary self.now byte_idx) (column_of self.now byte_idx) }
    {
        let (_, column) = self.byte_to_line_column(byte_idx)?;
        Some(column)
    }

    /// The line and the column of a byte offset; none past the text or inside a character. Goes through the line
    /// up to it.
    pub fn byte_to_line_column(&self, byte_idx: usize) -> Option<(usize, usize)>
        ensures value { SomeIff result (IsCharBoundary self.now byte_idx) (line_of self.now byte_idx, column_of self.now byte_idx) }
        ensures back { IfSome result (λ position. byte_at self.now position.0 position.1 ≡ Some byte_idx) }
    {
        let text = self.text();
        if !text.is_char_boundary(byte_idx) {
            return None;
        }
        let (number, line) = self.numbered_line(byte_idx);
        let column = count_chars(&text[line.byte_idx..byte_idx]);
        Some((number, column))
    }

    /// The byte offset with so many UTF-16 units before it; inside a pair the offset after the
    /// character, but none if that is the text's end. Goes through the line up to it.
    pub fn utf16_to_byte(&self, utf16_idx: usize) -> Option<usize>
        ensures { result ≡ byte_at_utf16 self.now utf16_idx }
    {
        let line = self.line_before_utf16(utf16_idx);
        let text = self.text();
        let behind_line = utf16_idx - line.utf16_idx;
        let (near, passed) = boundary_within::<InUnits>(&text[line.byte_idx..], behind_line);
        let mut scanner = Scanner::new(text);
        scanner.jump(line.byte_idx + near);
        let mut left = behind_line - passed;
        while left > 0 {
            let units = utf16_len(scanner.eat()?);
            if units > left && scanner.done() {
                return None;
            }
            left = left.saturating_sub(units);
        }
        Some(scanner.cursor())
    }

    /// The byte at which a line starts.
    #[tactic(auto, unfolding(crate::specs::Lines::line_start))]
    pub fn line_to_byte(&self, line_idx: usize) -> Option<usize>
        ensures { result ≡ line_start self.now line_idx }
    {
        Some(self.line(line_idx)?.byte_idx)
    }

    /// The bytes of a line with its line end.
    #[tactic(auto, unfolding(crate::specs::Lines::line_start, crate::specs::Lines::line_range))]
    pub fn line_to_range(&self, line_idx: usize) -> Option<Range<usize>>
        ensures { result ≡ line_range self.now line_idx }
    {
        let start = self.line(line_idx)?;
        let end = match self.line(line_idx + 1) {
            Some(next) => next.byte_idx,
            None => self.len_bytes(),
        };
        Some(start.byte_idx..end)
    }

    /// The byte offset so many characters into a line; none if the line and its end hold fewer. Goes through the
    /// line up to it.
    pub fn line_column_to_byte(&self, line_idx: usize, column_idx: usize) -> Option<usize>
        ensures { result ≡ byte_at self.now line_idx column_idx }
    {
        let range = self.line_to_range(line_idx)?;
        let start = range.start;
        let line = &self.text()[range];
        let (near, passed) = boundary_within::<InChars>(line, column_idx);
        let mut scanner = Scanner::new(line);
        scanner.jump(near);
        for i in passed..column_idx {
            scanner.eat()?;
        }
        Some(start + scanner.cursor())
    }

    /// The number of the line that holds a byte, and that of the last line past the text's end.
    fn line_holding(&self, byte_idx: usize) -> usize
        ensures value { result ≡ line_of self.now byte_idx }
        ensures within { result < length (line_table self.now) }
    {
        self.lines
            .as_slice()
            .partition_point(|line| line.byte_idx <= byte_idx)
            .saturating_sub(1)
    }

    /// The last line that starts at or before a byte offset.
    fn line_before(&self, byte_idx: usize) -> Line
        ensures { IsLineOf self.now byte_idx result }
    {
        let (_, line) = self.numbered_line(byte_idx);
        line
    }

    /// The number of the line that holds a byte offset, and that line.
    fn numbered_line(&self, byte_idx: usize) -> (usize, Line)
        ensures number { result.0 ≡ line_of self.now byte_idx }
        ensures line { IsLineOf self.now byte_idx result.1 }
    {
        let number = self.line_holding(byte_idx);
        (number, self.lines[number])
    }

    /// The last line that starts at or before a UTF-16 offset.
    fn line_before_utf16(&self, utf16_idx: usize) -> Line
        ensures { IsLineUpTo self.now utf16_idx result }
    {
        let lines = self.lines.as_slice();
        let after = lines.partition_point(|line| line.utf16_idx <= utf16_idx);
        lines[after.saturating_sub(1)]
    }
}

impl Lines<String> {
    /// A copy of the text and its line table.
    pub fn try_clone(&self) -> Result<Lines<String>, AllocError>
        ensures { IfOk result (λ lines. lines ≡ self.now) }
    {
        let text = self.text.clone()?;
        let lines = Vec::from_slice(*self.text.allocator(), self.lines.as_slice())?;
        Ok(Lines { text, lines })
    }

    /// Makes another text the text, and says whether it differs. It asks for no memory where the texts
    /// are equal. After an error nothing has changed.
    pub fn replace(&mut self, new: &str) -> Result<bool, AllocError>
        ensures text { IfOk result (λ _. self.new ≡ new.now) }
        ensures same { self.old ≡ new.now → (result ≡ Ok false) × (self.new ≡ self.old) }
        ensures changed { IfOk result (λ changed. changed ≡ not (pointwise nat_eq self.old new.now)) }
        ensures err { OnErr result (self.new ≡ self.old) }
    {
        if self.text() == new {
            return Ok(false);
        }
        let alloc = *self.text.allocator();
        let text = String::from_str(alloc, new)?;
        let lines = line_table(alloc, text.as_str())?;
        self.text = text;
        self.lines = lines;
        Ok(true)
    }

    /// The bytes of the longest common front of the text and another, in whole characters, and of
    /// the longest common end of what is left of both; none if the texts are equal.
    #[tactic(auto, unfolding(crate::specs::Lines::common_ends))]
    pub fn replacement_range(&self, new: &str) -> Option<(usize, usize)>
        ensures value { MatchOption result (self.now ≡ new.now) (λ ends. (self.now ≢ new.now) × (ends ≡ common_ends self.now new.now)) }
        ensures replaces { IfSome result (Replaces self.now new.now) }
    {
        let old = self.text();
        if old == new {
            return None;
        }
        let front = common_front_len(old, new);
        Some((front, common_end_len(&old[front..], &new[front..])))
    }

    /// Puts a text in the place of a range of bytes, whose ends are on character boundaries. After an
    /// error nothing has changed.
    pub fn edit(&mut self, replace: Range<usize>, with: &str) -> Result<(), AllocError>
        requires start { IsCharBoundary self.old replace.start }
        requires end { IsCharBoundary self.old replace.end }
        requires ordered { replace.start ≤ replace.end }
        ensures ok { IfOk result (λ _. self.new ≡ take replace.start self.old ++ with.now ++ drop replace.end self.old) }
        ensures err { OnErr result (self.new ≡ self.old) }
    {
        *self = self.start_edit(replace, with)?.keep();
        Ok(())
    }

    /// Puts a text in the place of a range of bytes, as `edit` does, and hands the lines out, so that the edit can
    /// be taken back without a request for memory. The lines of the empty text take their place until they come
    /// back. After an error nothing has changed.
    ///
    /// It asks for memory for the removed text and the empty text's one line, and for more room only where the
    /// text or the table has none left.
    pub fn start_edit(
        &mut self,
        replace: Range<usize>,
        with: &str,
    ) -> Result<EditedLines, AllocError>
        requires start { IsCharBoundary self.old replace.start }
        requires end { IsCharBoundary self.old replace.end }
        requires ordered { replace.start ≤ replace.end }
        ensures before { IfOk result (λ edited. edited.before ≡ self.old) }
        ensures after { IfOk result (λ edited. edited.after ≡ take replace.start self.old ++ with.now ++ drop replace.end self.old) }
        ensures left { OnOk result (self.new ≡ []) }
        ensures err { OnErr result (self.new ≡ self.old) }
    {
        let alloc = *self.text.allocator();
        let empty = Lines::new(alloc, String::new(alloc))?;
        match mem::replace(self, empty).edited(replace.start, replace.end, with) {
            Ok(edited) => Ok(edited),
            Err(lines) => {
                *self = lines;
                Err(AllocError)
            }
        }
    }

    /// The lines with a text in the place of a range of bytes, or the lines as they were if memory is refused.
    fn edited(self, start: usize, end: usize, with: &str) -> Result<EditedLines, Lines<String>>
        requires start { IsCharBoundary self start }
        requires end { IsCharBoundary self end }
        requires ordered { start ≤ end }
        ensures before { IfOk result (λ edited. edited.before ≡ self) }
        ensures after { IfOk result (λ edited. edited.after ≡ take start self ++ with.now ++ drop end self) }
        ensures err { IfErr result (λ lines. lines ≡ self) }
    {
        let alloc = *self.text.allocator();
        let Ok(removed) = String::from_str(alloc, &self.text()[start..end]) else {
            return Err(self);
        };
        let before = start.saturating_sub(1);
        let first = self.line_before(before);
        let kept = self.line_holding(before) + 1;
        let behind = self.line_holding(end) + 1;
        let Lines {
            mut text,
            mut lines,
        } = self;
        let known = lines.len();
        let Ok(()) = text.reserve(with.len()) else {
            return Err(Lines { text, lines });
        };
        put_text(&mut text, start, end, with);
        let new_end = start + with.len();
        let Ok(utf16_idx) = add_starts(&mut lines, text.as_str(), first, new_end) else {
            put_text(&mut text, start, new_end, removed.as_str());
            return Err(Lines { text, lines });
        };
        Ok(EditedLines {
            text,
            lines,
            stretch: Stretch {
                start,
                end,
                new_end,
                kept,
                behind,
                known,
                utf16_idx,
            },
            removed,
        })
    }
}

/// A stretch of a text that was replaced, and the lines of the table that it concerns.
#[derive(Clone, Copy)]
struct Stretch {
    start: usize,
    /// Where the stretch ended, and where it ends now.
    end: usize,
    new_end: usize,
    /// How many lines stay, from which one on they start after the stretch, and how many there were.
    kept: usize,
    behind: usize,
    known: usize,
    /// The units before the first line after the stretch now.
    utf16_idx: usize,
}

/// Lines whose text was edited, while it isn't settled whether the edit stays. Contracts see the texts
/// before and after it.
#[derive(Drop)]
pub struct EditedLines {
    text: String,
    /// The table before the edit, and then the lines that start in the stretch now.
    lines: Vec<Line>,
    stretch: Stretch,
    removed: String,
}

impl Model for EditedLines {
    ghost use Rattle.std.specs.Prelude.{string_bytes, string_capacity};
    ghost use Rattle.typst_lines.specs.Pending.{Texts, HasRoom, IsPending, put_back};

    ghost Value = { Texts };

    ghost view = { λ a. record { before = put_back (string_bytes a.text) (string_bytes a.removed) a.stretch; after = string_bytes a.text } };

    ghost invariant = { λ a. HasRoom (string_bytes a.text) (string_bytes a.removed) (string_capacity a.text) a.stretch × IsPending (put_back (string_bytes a.text) (string_bytes a.removed) a.stretch) (string_bytes a.text) a.lines.items a.stretch };
}

impl EditedLines {
    /// The text after the edit.
    #[inline]
    pub fn text(&self) -> &str
        ensures { result.now ≡ self.now.after }
    {
        self.text.as_str()
    }

    /// The lines after the edit. It asks for no memory, and goes through the lines after the stretch.
    pub fn keep(self) -> Lines<String>
        ensures { result ≡ self.after }
    {
        let EditedLines {
            text,
            mut lines,
            stretch,
            ..
        } = self;
        let count = lines.len() - (stretch.behind - stretch.kept);
        settle(lines.as_mut_slice(), stretch);
        lines.truncate(count);
        Lines { text, lines }
    }

    /// The lines before the edit. It asks for no memory, and puts the removed text back.
    pub fn take_back(self) -> Lines<String>
        ensures { result ≡ self.before }
    {
        let EditedLines {
            mut text,
            mut lines,
            stretch,
            removed,
        } = self;
        put_text(&mut text, stretch.start, stretch.new_end, removed.as_str());
        lines.truncate(stretch.known);
        Lines { text, lines }
    }
}

impl<S: Text> PartialEq for Lines<S> {
    ghost eq = { pointwise nat_eq };

    ghost laws = { partial_equiv_from_equiv nat_list_eq_equiv };

    fn eq(&self, other: &Self) -> bool {
        self.text() == other.text()
    }
}

impl<S: Text> Eq for Lines<S> {
    ghost laws = { nat_list_eq_equiv };
}

impl<S: Text> Hash for Lines<S> {
    ghost hash_input = { fed.str };

    ghost respects_eq = { Prim.search (hashing, rules) };

    fn hash<H: Hasher>(&self, state: &mut H) {
        self.text().hash(state);
    }
}

/// The table of the lines of a text.
fn line_table(alloc: Global, text: &str) -> Result<Vec<Line>, AllocError>
    ensures { IfOk result (λ lines. lines.items ≡ line_table text.now) }
{
    let mut lines = Vec::new(alloc);
    lines.push(Line {
        byte_idx: 0,
        utf16_idx: 0,
    })?;
    for line in LinesFrom::new(text, 0, 0) {
        lines.push(line)?;
    }
    Ok(lines)
}

/// The UTF-16 units of a text.
fn len_utf16(text: &str) -> usize
    ensures { result ≡ units (chars text.now) }
{
    measured::<InUnits>(text.as_bytes())
}

/// How many characters a text has.
fn count_chars(text: &str) -> usize
    ensures { result ≡ length (chars text.now) }
{
    measured::<InChars>(text.as_bytes())
}

/// The bytes of the longest front that two texts have in common, in whole characters.
fn common_front_len(old: &str, new: &str) -> usize
    ensures { IsCommonFront old.now new.now result }
{
    let start = shared_front_len(old, new);
    let mut first = Scanner::new(old);
    first.jump(start);
    let mut second = Scanner::new(new);
    second.jump(start);
    while let Some(c) = first.peek() {
        if !second.at(c) {
            return first.cursor();
        }
        first.eat();
        second.eat();
    }
    first.cursor()
}

/// The bytes of the longest end that two texts have in common, in whole characters.
fn common_end_len(old: &str, new: &str) -> usize
    ensures { result ≡ bytes (common_front (reverse (chars old.now)) (reverse (chars new.now))) }
{
    let shared = shared_end_len(old, new);
    let mut first = Scanner::new(old);
    first.jump(old.len() - shared);
    let mut second = Scanner::new(new);
    second.jump(new.len() - shared);
    while let Some(c) = first.last() {
        if !second.is_after(c) {
            return old.len() - first.cursor();
        }
        first.uneat();
        second.uneat();
    }
    old.len() - first.cursor()
}

/// The bytes of a front that two texts have in common, in whole characters. It is short of the longest
/// by less than a block of bytes and a character, and is found without a look at the characters.
fn shared_front_len(old: &str, new: &str) -> usize
    ensures { IsSharedFront old.now new.now result }
{
    old.floor_char_boundary(alike_at_front(old.as_bytes(), new.as_bytes()))
}

/// The bytes of an end that two texts have in common, in whole characters. It is short of the longest by
/// less than a block of bytes and a character, and is found without a look at the characters.
fn shared_end_len(old: &str, new: &str) -> usize
    ensures { IsSharedEnd old.now new.now result }
{
    let alike = alike_at_end(old.as_bytes(), new.as_bytes());
    old.len() - old.ceil_char_boundary(old.len() - alike)
}

/// Puts a text in the place of a range of bytes of one that has room for both.
fn put_text(text: &mut String, start: usize, end: usize, with: &str)
    requires start { IsCharBoundary (string_bytes text.old) start }
    requires end { IsCharBoundary (string_bytes text.old) end }
    requires ordered { start ≤ end }
    requires room { length (string_bytes text.old) + length with.now ≤ string_capacity text.old }
    ensures bytes { string_bytes text.new ≡ take start (string_bytes text.old) ++ with.now ++ drop end (string_bytes text.old) }
    ensures capacity { string_capacity text.old ≤ string_capacity text.new }
{
    match text.replace_range(start..end, with) {
        Ok(()) => {}
        Err(_) => unreachable!(),
    }
}

/// Adds the lines of a text that start after one of its lines and up to a byte. Returns the UTF-16 units before
/// the next line, if there is one. After an error nothing has changed.
fn add_starts(
    lines: &mut Vec<Line>,
    text: &str,
    first: Line,
    end: usize,
) -> Result<usize, AllocError>
    requires { IsLine text.now first }
    ensures ok { IfOk result (λ utf16_idx. AddsStarts (lines_after text.now first.byte_idx) end utf16_idx lines.old.items lines.new.items) }
    ensures err { OnErr result (lines.new.items ≡ lines.old.items) }
{
    let known = lines.len();
    for line in LinesFrom::new(text, first.byte_idx, first.utf16_idx) {
        if line.byte_idx > end {
            return Ok(line.utf16_idx);
        }
        if lines.push(line).is_err() {
            lines.truncate(known);
            return Err(AllocError);
        }
    }
    Ok(0)
}

/// Makes the table that of the edited text, with lines of no use after it: the lines after the old table take the
/// place of those that started in the stretch, and the lines after the stretch are moved. Where as many lines start
/// in the stretch as before, as at nearly every keystroke, they are written over those, and no line changes its place
/// in the table; otherwise rotations make place, which go through all lines after them.
fn settle(lines: &mut [Line], stretch: Stretch)
    requires kept { stretch.kept ≤ stretch.behind }
    requires behind { stretch.behind ≤ stretch.known }
    requires known { stretch.known ≤ length lines.old }
    ensures { take (length lines.old - (stretch.behind - stretch.kept)) lines.new ≡ settled_lines stretch lines.old }
{
    let count = lines.len();
    let fresh = count - stretch.known;
    let gone = stretch.behind - stretch.kept;
    move_behind(lines, stretch);
    if fresh == gone {
        lines.copy_within(stretch.known..count, stretch.kept);
        return;
    }
    bring_forward(lines, stretch.kept, fresh);
    bring_back(lines, stretch.kept + fresh, gone);
}

/// Moves the lines that start after a stretch to where they start in the edited text.
fn move_behind(lines: &mut [Line], stretch: Stretch)
    requires behind { stretch.behind ≤ stretch.known }
    requires known { stretch.known ≤ length lines.old }
    ensures { lines.new ≡ take stretch.behind lines.old ++ (map (moved_line stretch.end stretch.new_end (units_at (lines_behind stretch lines.old)) stretch.utf16_idx) (lines_behind stretch lines.old) ++ drop stretch.known lines.old) }
{
    let behind = &mut lines[stretch.behind..stretch.known];
    move_lines(behind, stretch.end, stretch.new_end, stretch.utf16_idx);
}

/// Moves lines that start after byte `end` so that they start as far after byte `new_end`, and the first of them
/// has so many UTF-16 units before it.
///
/// A keystroke goes through all lines after it here, so the loop makes two sums a line and tests nothing: all lines
/// move by the same bytes and units, found once, which wrap round where they move back.
fn move_lines(lines: &mut [Line], end: usize, new_end: usize, utf16_idx: usize)
    ensures { lines.new ≡ map (moved_line end new_end (units_at lines.old) utf16_idx) lines.old }
{
    let base = match lines.first() {
        Some(line) => line.utf16_idx,
        None => 0,
    };
    let bytes = new_end.wrapping_sub(end);
    let units = utf16_idx.wrapping_sub(base);
    for line in lines.iter_mut() {
        line.shift(bytes, units);
    }
}

/// Brings the last `count` items to the place `at`, before the others from there on.
fn bring_forward<T>(items: &mut [T], at: usize, count: usize)
    requires { at + count ≤ length items.old }
    ensures { let rest = drop at items.old in items.new ≡ take at items.old ++ (drop (length rest - count) rest ++ take (length rest - count) rest) }
{
    items[at..].rotate_right(count);
}

/// Brings `count` items from the place `at` to the end.
fn bring_back<T>(items: &mut [T], at: usize, count: usize)
    requires { at + count ≤ length items.old }
    ensures { let rest = drop at items.old in items.new ≡ take at items.old ++ (drop count rest ++ take count rest) }
{
    items[at..].rotate_left(count);
}
