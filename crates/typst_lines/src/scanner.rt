//! A cursor over a text, always between two of its characters.
ghost use Rattle.std.specs.Prelude.{◌≡◌, ℕ, Bool, not, is_none, ◌==◌, ◌-◌, ◌≤◌, ◌<◌, ◌+◌, if◌then◌else◌, IsTrue, ◌↔◌, length, take, drop, reverse, slice_range, MatchOption, IfSome, slice_get, None};
ghost use Rattle.std.specs.Char.{IsScalar};
ghost use Rattle.std.specs.Str.{IsUtf8, IsCharBoundary, chars};
ghost use Rattle.typst_lines.specs.Newline.{is_newline, line_end_len};
ghost use Rattle.typst_lines.specs.Place.{Place, place_at, char_width, moved, moved_back, around, scout, passes, past, run, word_at, IsStep, IsStepBack, IsRun, IsAfter, bytes_ahead, IsFirst, IsLast};

use crate::newline::NewlineSet;
use std::ops::Range;

/// A text and a byte offset between two of its characters.
#[derive(Clone, Copy)]
pub struct Scanner<'a> {
    text: &'a str,
    cursor: usize,
    ghost utf8: { ∥ IsUtf8 text.now ∥₁ },
    ghost boundary: { IsCharBoundary text.now cursor },
}

impl<'a> Scanner<'a> {
    ghost use Rattle.typst_lines.specs.Scanner.{place};

    /// A scanner at the start of a text.
    pub fn new(text: &'a str) -> Scanner<'a>
        ensures place { place result ≡ place_at text.now 0 }
        ensures text { result.text.now ≡ text.now }
        ensures cursor { result.cursor ≡ 0 }
    {
        Scanner { text, cursor: 0 }
    }

    /// The whole text.
    #[inline]
    pub fn string(&self) -> &'a str
        ensures { result.now ≡ self.now.text.now }
    {
        self.text
    }

    /// The cursor, in bytes from the text's start.
    #[inline]
    pub fn cursor(&self) -> usize
        ensures { result ≡ self.now.cursor }
    {
        self.cursor
    }

    /// Goes to a byte offset of the text, on a character boundary.
    #[inline]
    pub fn jump(&mut self, target: usize)
        requires { IsCharBoundary self.old.text.now target }
        ensures moved { place self.new ≡ place_at self.old.text.now target }
        ensures cursor { self.new.cursor ≡ target }
        ensures same_text { self.new.text.now ≡ self.old.text.now }
    {
        self.cursor = target;
    }

    /// Whether the cursor is at the text's end.
    #[inline]
    pub fn done(&self) -> bool
        ensures { result ≡ is_none (scout 0 (place self.now)) }
    {
        self.peek().is_none()
    }

    /// The next character.
    #[inline]
    pub fn peek(&self) -> Option<char>
        ensures { result ≡ scout 0 (place self.now) }
    {
        match next_char(self.text, self.cursor) {
            Some((c, _)) => Some(c),
            None => None,
        }
    }

    /// The character so many characters on; a negative number counts back, and -1 is the character
    /// directly before.
    pub fn scout(&self, n: isize) -> Option<char>
        ensures { result ≡ around n (place self.now) }
    {
        if n < 0 {
            self.nth_before(n.unsigned_abs() - 1)
        } else {
            self.nth_ahead(n.unsigned_abs())
        }
    }

    /// The character ahead with `n` others between the cursor and it.
    fn nth_ahead(&self, n: usize) -> Option<char>
        ensures { result ≡ slice_get (place self.now).ahead n }
    {
        let mut ahead = *self;
        for i in 0..n {
            ahead.eat()?;
        }
        ahead.peek()
    }

    /// The character before the cursor with `n` others between it and the cursor.
    fn nth_before(&self, n: usize) -> Option<char>
        ensures { result ≡ slice_get (place self.now).before n }
    {
        let mut before = *self;
        for i in 0..n {
            before.uneat()?;
        }
        before.last()
    }

    /// The character directly before the cursor.
    #[inline]
    pub fn last(&self) -> Option<char>
        ensures { result ≡ slice_get (place self.now).before 0 }
    {
        match char_before(self.text, self.cursor) {
            Some((c, _)) => Some(c),
            None => None,
        }
    }

    /// Whether this character comes next.
    #[inline]
    pub fn at(&self, wanted: char) -> bool
        ensures { result ≡ passes (λ c. c == wanted) (scout 0 (place self.now)) }
    {
        match next_char(self.text, self.cursor) {
            Some((c, _)) => c == wanted,
            None => false,
        }
    }

    /// Whether this character is directly before the cursor.
    #[inline]
    pub fn is_after(&self, wanted: char) -> bool
        ensures { result ≡ passes (λ c. c == wanted) (slice_get (place self.now).before 0) }
    {
        match char_before(self.text, self.cursor) {
            Some((c, _)) => c == wanted,
            None => false,
        }
    }

    /// Whether a word of ASCII bytes comes next.
    pub fn at_word(&self, word: &[u8]) -> bool
        ensures { result ≡ word_at 0 word.now (place self.now) }
    {
        let mut ahead = *self;
        ahead.eat_word(word)
    }

    /// Whether a character of the set comes next.
    #[inline]
    pub fn at_set<S: CharSet>(&self, set: &S) -> bool
        ensures { result ≡ passes (S.members set.now) (scout 0 (place self.now)) }
    {
        match next_char(self.text, self.cursor) {
            Some((c, _)) => set.has(c),
            None => false,
        }
    }

    /// The text before the cursor.
    pub fn before(&self) -> &'a str
        ensures bytes { result.now ≡ take self.now.cursor self.now.text.now }
        ensures characters { chars result.now ≡ reverse (place self.now).before }
    {
        &self.text[..self.cursor]
    }

    /// The text ahead of the cursor.
    pub fn after(&self) -> &'a str
        ensures bytes { result.now ≡ drop self.now.cursor self.now.text.now }
        ensures characters { chars result.now ≡ (place self.now).ahead }
    {
        &self.text[self.cursor..]
    }

    /// The text from a byte offset, on a character boundary and not past the cursor, to the cursor.
    pub fn from(&self, start: usize) -> &'a str
        requires boundary { IsCharBoundary self.now.text.now start }
        requires before { start ≤ self.now.cursor }
        ensures { result.now ≡ slice_range self.now.text.now start self.now.cursor }
    {
        &self.text[start..self.cursor]
    }

    /// The text of a range of bytes, whose ends are on character boundaries.
    pub fn get(&self, range: Range<usize>) -> &'a str
        requires start { IsCharBoundary self.now.text.now range.start }
        requires end { IsCharBoundary self.now.text.now range.end }
        requires ordered { range.start ≤ range.end }
        ensures { result.now ≡ slice_range self.now.text.now range.start range.end }
    {
        &self.text[range]
    }

    /// The text from an earlier place to here.
    pub fn since(&self, start: &Scanner<'a>) -> &'a str
        requires text { self.now.text.now ≡ start.now.text.now }
        requires after { IsAfter (place start.now) (place self.now) }
        ensures { (n : ℕ) → place self.now ≡ moved n (place start.now) → chars result.now ≡ take n (place start.now).ahead }
    {
        &self.text[start.cursor..self.cursor]
    }

    /// Eats the next character.
    #[inline(always)]
    pub fn eat(&mut self) -> Option<char>
        ensures next { result ≡ scout 0 (place self.old) }
        ensures moved { place self.new ≡ moved 1 (place self.old) }
        ensures same_text { self.new.text.now ≡ self.old.text.now }
        ensures grows { IfSome result (λ _. self.old.cursor < self.new.cursor) }
        ensures width { IfSome result (λ c. self.new.cursor ≡ self.old.cursor + char_width c) }
    {
        match next_char(self.text, self.cursor) {
            Some((c, end)) => {
                self.cursor = end;
                Some(c)
            }
            None => None,
        }
    }

    /// Goes back over the character before the cursor, and gives it.
    #[inline]
    pub fn uneat(&mut self) -> Option<char>
        ensures last { result ≡ slice_get (place self.old).before 0 }
        ensures moved { place self.new ≡ moved_back (place self.old) }
        ensures same_text { self.new.text.now ≡ self.old.text.now }
    {
        match char_before(self.text, self.cursor) {
            Some((c, start)) => {
                self.cursor = start;
                Some(c)
            }
            None => None,
        }
    }

    /// Eats the character if it comes next.
    #[inline]
    pub fn eat_if(&mut self, wanted: char) -> bool
        ensures taken { result ≡ passes (λ c. c == wanted) (scout 0 (place self.old)) }
        ensures moved { place self.new ≡ (if result then moved 1 (place self.old) else place self.old) }
        ensures same_text { self.new.text.now ≡ self.old.text.now }
    {
        match next_char(self.text, self.cursor) {
            Some((c, end)) => {
                if c != wanted {
                    return false;
                }
                self.cursor = end;
                true
            }
            None => false,
        }
    }

    /// Eats the word of ASCII bytes if it comes next.
    pub fn eat_word(&mut self, word: &[u8]) -> bool
        ensures taken { result ≡ word_at 0 word.now (place self.old) }
        ensures moved { place self.new ≡ (if result then moved (length word.now) (place self.old) else place self.old) }
        ensures same_text { self.new.text.now ≡ self.old.text.now }
    {
        let mut ahead = *self;
        for b in word {
            if !ahead.eat_if(*b as char) {
                return false;
            }
        }
        *self = ahead;
        true
    }

    /// Eats one character of the set if one comes next.
    #[inline]
    pub fn eat_set<S: CharSet>(&mut self, set: &S) -> bool
        ensures taken { result ≡ passes (S.members set.now) (scout 0 (place self.old)) }
        ensures moved { place self.new ≡ (if result then moved 1 (place self.old) else place self.old) }
        ensures same_text { self.new.text.now ≡ self.old.text.now }
    {
        match next_char(self.text, self.cursor) {
            Some((c, end)) => {
                if !set.has(c) {
                    return false;
                }
                self.cursor = end;
                true
            }
            None => false,
        }
    }

    /// Eats the longest run of characters of the set.
    #[inline(always)]
    pub fn eat_while<S: CharSet>(&mut self, set: &S) -> &'a str
        ensures moved { place self.new ≡ past (S.members set.now) (place self.old) }
        ensures taken { chars result.now ≡ run (S.members set.now) (place self.old) }
        ensures same_text { self.new.text.now ≡ self.old.text.now }
        ensures grows { self.old.cursor ≤ self.new.cursor }
    {
        let start = self.cursor;
        let end = run_end(self.text, start, set);
        self.cursor = end;
        &self.text[start..end]
    }

    /// Eats the longest run of characters that aren't of the set.
    pub fn eat_until<S: CharSet>(&mut self, set: &S) -> &'a str
        ensures moved { place self.new ≡ past (λ c. not (S.members set.now c)) (place self.old) }
        ensures taken { chars result.now ≡ run (λ c. not (S.members set.now c)) (place self.old) }
        ensures same_text { self.new.text.now ≡ self.old.text.now }
        ensures grows { self.old.cursor ≤ self.new.cursor }
    {
        self.eat_while(&Outside { set })
    }

    /// Eats the longest run of characters that pass.
    pub fn eat_while_fn<F: Fn(char) -> bool>(&mut self, test: F)
        requires { F.IsAlwaysCallable test }
        ensures moved { (p : ℕ → Bool) → ((c : ℕ) (r : Bool) → IsScalar c → F.post test c r → r ≡ p c)
            → place self.new ≡ past p (place self.old) }
        ensures same_text { self.new.text.now ≡ self.old.text.now }
    {
        let text = self.text;
        let mut at = self.cursor;
        while let Some((c, end)) = next_char(text, at) {
            if !test(c) {
                break;
            }
            at = end;
        }
        self.cursor = at;
    }
}

/// What a scanner does for lexers beyond single characters and runs.
pub trait ScannerExt {
    ghost place: { Self → Place };

    /// Goes on by so many bytes, which are those of whole characters.
    fn advance(&mut self, bytes: usize)
        requires { (n : ℕ) × (bytes ≡ bytes_ahead n (place self.old)) }
        ensures { (n : ℕ) → bytes ≡ bytes_ahead n (place self.old) → place self.new ≡ moved n (place self.old) };

    /// Eats the line end if one comes next; CR LF is one.
    fn eat_newline(&mut self) -> bool
        ensures taken { result ≡ passes is_newline (scout 0 (place self.old)) }
        ensures moved { place self.new ≡ moved (line_end_len (place self.old)) (place self.old) };
}

impl ScannerExt for Scanner<'_> {
    ghost use Rattle.typst_lines.specs.Scanner as shown;

    ghost place = { shown.place };

    #[inline]
    fn advance(&mut self, bytes: usize)
        requires { (n : ℕ) × (bytes ≡ bytes_ahead n (shown.place self.old)) }
        ensures moved { (n : ℕ) → bytes ≡ bytes_ahead n (shown.place self.old) → shown.place self.new ≡ moved n (shown.place self.old) }
        ensures same_text { self.new.text.now ≡ self.old.text.now }
    {
        self.cursor = past_bytes(self.text, self.cursor, bytes);
    }

    #[inline]
    fn eat_newline(&mut self) -> bool
        ensures taken { result ≡ passes is_newline (scout 0 (shown.place self.old)) }
        ensures moved { shown.place self.new ≡ moved (line_end_len (shown.place self.old)) (shown.place self.old) }
        ensures same_text { self.new.text.now ≡ self.old.text.now }
    {
        let returned = self.at('\r');
        let ate = self.eat_set(&NewlineSet);
        if returned {
            self.eat_if('\n');
        }
        ate
    }
}

/// A set of characters.
pub trait CharSet {
    ghost members: { Self → ℕ → Bool };

    /// Whether the character is in the set.
    fn has(&self, c: char) -> bool
        ensures { result ≡ members self.now c };
}

impl CharSet for char {
    ghost members = { λ wanted c. c == wanted };

    #[inline]
    fn has(&self, c: char) -> bool {
        c == *self
    }
}

/// The characters that aren't in a set.
#[derive(Clone, Copy)]
struct Outside<'a, S: CharSet> {
    set: &'a S,
}

impl<S: CharSet> CharSet for Outside<'_, S> {
    ghost members = { λ o c. not (S.members o.set.now c) };

    #[inline]
    fn has(&self, c: char) -> bool {
        !self.set.has(c)
    }
}

/// The character at the offset, and the offset after it.
#[inline(always)]
pub(crate) fn next_char(text: &str, at: usize) -> Option<(char, usize)>
    requires { IsCharBoundary text.now at }
    ensures { MatchOption result (IsLast text.now at) (λ r. IsStep text.now at r.0 r.1) }
{
    let bytes = text.as_bytes();
    if at < bytes.len() && bytes[at] < 128 {
        return Some((bytes[at] as char, at + 1));
    }
    let mut chars = text[at..].chars();
    match chars.next() {
        Some(c) => Some((c, text.len() - chars.as_str().len())),
        None => None,
    }
}

/// The character that ends at the offset, and where it begins.
#[inline(always)]
fn char_before(text: &str, at: usize) -> Option<(char, usize)>
    requires { IsCharBoundary text.now at }
    ensures { MatchOption result (IsFirst text.now at) (λ r. IsStepBack text.now r.1 r.0 at) }
{
    let mut chars = text[..at].chars();
    match chars.next_back() {
        Some(c) => Some((c, chars.as_str().len())),
        None => None,
    }
}

/// Where the run of characters of the set ends.
#[inline(always)]
fn run_end<S: CharSet>(text: &str, start: usize, set: &S) -> usize
    requires { IsCharBoundary text.now start }
    ensures { IsRun (S.members set.now) text.now start result }
{
    let mut at = start;
    while let Some((c, end)) = next_char(text, at) {
        if !set.has(c) {
            break;
        }
        at = end;
    }
    at
}

/// The offset after so many bytes, which are those of whole characters.
#[inline(always)]
fn past_bytes(text: &str, at: usize, bytes: usize) -> usize
    requires boundary { IsCharBoundary text.now at }
    requires whole { (n : ℕ) × (bytes ≡ bytes_ahead n (place_at text.now at)) }
    ensures boundary { IsCharBoundary text.now result }
    ensures moves { (n : ℕ) → bytes ≡ bytes_ahead n (place_at text.now at) → place_at text.now result ≡ moved n (place_at text.now at) }
{
    at + bytes
}
