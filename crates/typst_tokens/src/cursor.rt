//! A cursor that keeps how far was looked around it.
ghost use Rattle.std.specs.Prelude.{◌≡◌, ◌==◌, ◌+◌, ◌<◌, ◌^◌, ℕ, suc, IsTrue, if◌then◌else◌, is_none, slice_get, length, take};
ghost use Rattle.std.specs.List.{prefix_len};
ghost use Rattle.std.specs.Str.{chars};
ghost use Rattle.typst_tokens.specs.Pairs.{either, went_past_pairs};
ghost use Rattle.typst_tokens.specs.Sight as spec;
ghost use Rattle.typst_lines.specs.Classes.{in_line};
ghost use Rattle.typst_lines.specs.Place.{moved, passes, past, run, scout, word_at};
ghost use Rattle.typst_lines.specs.Scanner.{place};

use crate::hull::Hull;
use crate::line::LineEnd;
use crate::pairs::{PairSet, past_pairs};
use std::marker::Model;
use typst_lines::sets::InLine;
use typst_lines::{CharSet, Scanner, ScannerExt};

/// A place in a text, and the bytes that were looked at on the way to it.
#[derive(Drop)]
pub struct Cursor<'a> {
    s: Scanner<'a>,
    /// Where the bytes that were looked at end, in bytes from the text's start.
    reach: usize,
    /// Where the bytes that were looked at begin, in bytes from the mark before the text.
    least: usize,
    /// From where on the end of a line is known, in bytes.
    line_from: usize,
    /// Where that line ends, in bytes.
    line_end: usize,
}

impl<'a> Model for Cursor<'a> {
    ghost use Rattle.typst_tokens.specs.Sight.{Sight, sight_code};

    ghost Value = { Sight };

    ghost coded = { sight_code };

    ghost use Rattle.typst_tokens.specs.Cursor.{sight_of, IsKept};

    ghost view = { sight_of };

    ghost invariant = { IsKept };
}

impl<'a> Cursor<'a> {
    /// A cursor at the scanner's place, which looked at nothing yet.
    pub fn new(s: Scanner<'a>) -> Cursor<'a>
        ensures { result ≡ spec.fresh (place s.entry) }
    {
        Cursor::on_line(s, LineEnd::of_text(s.string()))
    }

    /// A cursor at the scanner's place, which looked at nothing yet, and knows where a line of the text ends.
    pub fn on_line(s: Scanner<'a>, line: LineEnd<'a>) -> Cursor<'a>
        requires { line.text.now ≡ s.text.now }
        ensures { result ≡ spec.fresh (place s.entry) }
    {
        Cursor {
            s,
            reach: s.cursor(),
            least: s.cursor() + 1,
            line_from: line.from,
            line_end: line.end,
        }
    }

    /// The line of the text whose end the cursor knows.
    pub fn line(&self) -> LineEnd<'a>
        ensures { result.text.now ≡ spec.text_of self.now.place }
    {
        LineEnd {
            text: self.s.string(),
            from: self.line_from,
            end: self.line_end,
        }
    }

    /// The scanner, and what was looked at.
    pub fn finish(self) -> (Scanner<'a>, Hull)
        ensures place { place result.0 ≡ self.entry.place }
        ensures text { result.0.text.now ≡ spec.text_of self.entry.place }
        ensures hull { result.1 ≡ record { reach = self.entry.reach; least = self.entry.least } }
    {
        let hull = Hull {
            reach: self.reach,
            least: self.least,
        };
        (self.s, hull)
    }

    /// The next character.
    #[inline]
    pub fn peek(&mut self) -> Option<char>
        ensures next { result ≡ scout 0 self.old.place }
        ensures sight { self.new ≡ spec.saw 1 self.old }
    {
        let mut ahead = self.s;
        let c = ahead.eat();
        self.reach = self.reach.max(end_of(&ahead, c));
        c
    }

    /// The character after the next.
    #[inline]
    pub fn second(&mut self) -> Option<char>
        ensures second { result ≡ scout 1 self.old.place }
        ensures sight { self.new ≡ spec.saw 2 self.old }
    {
        let mut ahead = self.s;
        ahead.eat();
        let c = ahead.eat();
        self.reach = self.reach.max(end_of(&ahead, c));
        c
    }

    /// The character directly before the cursor.
    #[inline]
    pub fn last(&mut self) -> Option<char>
        ensures last { result ≡ slice_get self.old.place.before 0 }
        ensures sight { self.new ≡ spec.saw_back 1 self.old }
    {
        let mut before = self.s;
        let c = before.uneat();
        self.least = self.least.min(start_of(&before, c));
        c
    }

    /// The second character before the cursor.
    #[inline]
    pub fn second_last(&mut self) -> Option<char>
        ensures second_last { result ≡ slice_get self.old.place.before 1 }
        ensures sight { self.new ≡ spec.saw_back 2 self.old }
    {
        let mut before = self.s;
        before.uneat();
        let c = before.uneat();
        self.least = self.least.min(start_of(&before, c));
        c
    }

    /// The third character before the cursor.
    #[inline]
    pub fn third_last(&mut self) -> Option<char>
        ensures third_last { result ≡ slice_get self.old.place.before 2 }
        ensures sight { self.new ≡ spec.saw_back 3 self.old }
    {
        let mut before = self.s;
        before.uneat();
        before.uneat();
        let c = before.uneat();
        self.least = self.least.min(start_of(&before, c));
        c
    }

    /// Eats the next character.
    #[inline(always)]
    pub fn eat(&mut self) -> Option<char>
        ensures next { result ≡ scout 0 self.old.place }
        ensures sight { self.new ≡ spec.went 1 self.old }
        ensures covers { spec.Covers self.new }
        ensures fits { self.new.reach < 2 ^ 64 }
    {
        let c = self.s.eat();
        self.reach = self.reach.max(end_of(&self.s, c));
        c
    }

    /// Eats the next two characters.
    pub fn eat_two(&mut self)
        ensures sight { self.new ≡ spec.went 2 self.old }
        ensures covers { spec.Covers self.new }
    {
        self.s.eat();
        let c = self.s.eat();
        self.reach = self.reach.max(end_of(&self.s, c));
    }

    /// Eats the character if it comes next.
    #[inline]
    pub fn eat_if(&mut self, wanted: char) -> bool
        ensures taken { result ≡ passes (λ c. c == wanted) (scout 0 self.old.place) }
        ensures sight { self.new ≡ (if result then spec.went 1 (spec.saw 1 self.old) else spec.saw 1 self.old) }
    {
        let mut ahead = self.s;
        let c = ahead.eat();
        self.reach = self.reach.max(end_of(&ahead, c));
        if !is(c, wanted) {
            return false;
        }
        self.s = ahead;
        true
    }

    /// Eats the word of ASCII bytes if it comes next.
    pub fn eat_word(&mut self, word: &[u8]) -> bool
        ensures taken { result ≡ word_at 0 word.now self.old.place }
        ensures sight { self.new ≡ (if result then spec.went (length word.now) (spec.saw_word 0 word.now self.old) else spec.saw_word 0 word.now self.old) }
    {
        let mut ahead = self.s;
        let (found, reach) = see_word(&mut ahead, self.reach, word);
        self.reach = reach;
        if found {
            self.s = ahead;
        }
        found
    }

    /// Whether the word of ASCII bytes comes after the next character.
    pub fn word_after(&mut self, word: &[u8]) -> bool
        ensures found { result ≡ word_at 1 word.now self.old.place }
        ensures sight { self.new ≡ spec.saw_word 1 word.now self.old }
    {
        let mut ahead = self.s;
        ahead.eat();
        let (found, reach) = see_word(&mut ahead, self.reach, word);
        self.reach = reach;
        found
    }

    /// A scanner at the cursor's place. Who reads on by it says so by `saw_to`.
    #[inline]
    pub fn ahead(&self) -> Scanner<'a>
        ensures place { place result ≡ self.now.place }
        ensures text { result.text.now ≡ spec.text_of self.now.place }
    {
        self.s
    }

    /// Says that all characters up to `end`, and the one that comes next there, were looked at.
    #[inline]
    pub fn saw_to(&mut self, end: &Scanner<'a>)
        ensures sight { (n : ℕ) → place end.now ≡ moved n self.old.place → self.new ≡ spec.saw (suc n) self.old }
        ensures covers { spec.Covers self.old }
    {
        let mut ahead = *end;
        let c = ahead.eat();
        self.reach = self.reach.max(end_of(&ahead, c));
    }

    /// The longest run of characters of the set, which stays ahead.
    pub fn see_while<S: CharSet>(&mut self, set: &S) -> &'a str
        ensures taken { chars result.now ≡ run (S.members set.now) self.old.place }
        ensures sight { self.new ≡ spec.saw (suc (prefix_len (S.members set.now) self.old.place.ahead)) self.old }
    {
        let mut end = self.ahead();
        let seen = end.eat_while(set);
        self.saw_to(&end);
        seen
    }

    /// The rest of the line, which stays ahead. Where it ends is looked for once a line.
    #[inline(always)]
    pub fn see_line(&mut self) -> &'a str
        ensures taken { chars result.now ≡ run in_line self.old.place }
        ensures sight { self.new ≡ spec.saw (suc (prefix_len in_line self.old.place.ahead)) self.old }
    {
        let start = self.ahead();
        let end = self.end_of_line();
        self.saw_to(&end);
        end.since(&start)
    }

    /// A scanner at the end of the line.
    fn end_of_line(&mut self) -> Scanner<'a>
        ensures place { place result ≡ past in_line self.old.place }
        ensures text { result.text.now ≡ spec.text_of self.old.place }
        ensures sight { self.new ≡ self.old }
    {
        let at = self.s.cursor();
        let mut end = self.s;
        if self.line_from <= at && at <= self.line_end {
            end.jump(self.line_end);
            return end;
        }
        end.eat_while(&InLine);
        self.line_from = at;
        self.line_end = end.cursor();
        end
    }

    /// Goes past the text, which comes next.
    pub fn skip(&mut self, text: &str)
        requires { take (length (chars text.now)) self.old.place.ahead ≡ chars text.now }
        ensures { self.new ≡ spec.went (length (chars text.now)) self.old }
    {
        self.s.advance(text.len());
        self.reach = self.reach.max(self.s.cursor());
    }

    /// Eats the longest run of characters of the set.
    #[inline(always)]
    pub fn eat_while<S: CharSet>(&mut self, set: &S) -> &'a str
        ensures taken { chars result.now ≡ run (S.members set.now) self.old.place }
        ensures sight { self.new ≡ spec.went_past (S.members set.now) self.old }
        ensures covers { spec.Covers self.new }
    {
        let taken = self.s.eat_while(set);
        let mut ahead = self.s;
        let c = ahead.eat();
        self.reach = self.reach.max(end_of(&ahead, c));
        taken
    }

    /// Goes past the longest run of characters that are in the set, or in its other one by what
    /// follows, and gives the character that ends it.
    #[inline]
    pub fn go_past<P: PairSet>(&mut self, set: &P) -> Option<char>
        ensures next { result ≡ scout 0 self.new.place }
        ensures sight { self.new ≡ went_past_pairs (either (P.CharSet.members set.now) (P.PairSet.before set.now)) self.old }
        ensures covers { spec.Covers self.old }
    {
        let (after, c) = past_pairs(&mut self.s, set);
        self.reach = self.reach.max(end_of(&after, c));
        c
    }
}

/// Where a look ends that read this character last, or the mark after the text.
#[inline(always)]
fn end_of(s: &Scanner<'_>, c: Option<char>) -> usize
    ensures { result ≡ spec.position (place s.now) + (if is_none c then 1 else 0) }
{
    match c {
        Some(_) => s.cursor(),
        None => s.cursor() + 1,
    }
}

/// Where a look begins that read this character last, or the mark before the text.
#[inline(always)]
fn start_of(s: &Scanner<'_>, c: Option<char>) -> usize
    ensures { result ≡ (if is_none c then 0 else spec.position (place s.now) + 1) }
{
    match c {
        Some(_) => s.cursor() + 1,
        None => 0,
    }
}

/// Whether the character is the wanted one.
#[inline(always)]
fn is(c: Option<char>, wanted: char) -> bool
    ensures { result ≡ passes (λ d. d == wanted) c }
{
    match c {
        Some(c) => c == wanted,
        None => false,
    }
}

/// Whether the word of ASCII bytes comes next, and where looks end with those at its characters.
fn see_word(s: &mut Scanner<'_>, mut reach: usize, word: &[u8]) -> (bool, usize)
    ensures found { result.0 ≡ word_at 0 word.now (place s.old) }
    ensures moved { IsTrue result.0 → place s.new ≡ moved (length word.now) (place s.old) }
    ensures reach { result.1 ≡ spec.word_reach 0 word.now (place s.old) reach }
    ensures same_text { s.new.text.now ≡ s.old.text.now }
{
    for b in word {
        let c = s.eat();
        reach = reach.max(end_of(s, c));
        if !is(c, *b as char) {
            return (false, reach);
        }
    }
    (true, reach)
}
