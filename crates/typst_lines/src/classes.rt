//! Classes of characters, which the caller hands in.
ghost use Rattle.std.specs.Prelude.{◌≡◌, ℕ, true, ◌<◌, length, take, encode_utf8_all};
ghost use Rattle.std.specs.List.{list_all};
ghost use Rattle.std.specs.Str.{chars};
ghost use Rattle.typst_lines.specs.Classes.{ascii_math, in_line};
ghost use Rattle.typst_lines.specs.Identifiers as spec;

/// What a character does in a formula.
#[derive(Debug, Clone, Copy, PartialEq, Eq)]
pub enum MathClass {
    /// The character opens a delimited part.
    Opening,
    /// The character closes a delimited part.
    Closing,
    /// The character stands for itself, like a letter.
    Alphabetic,
}

/// The classes of characters by which a text is read.
///
/// A class value answers the same each time. What it answers on ASCII is fixed, a character with
/// the Unicode property White_Space is in no class, and a cluster is made of whole characters.
/// No call takes memory.
pub trait Classes {
    ghost use Rattle.typst_lines.specs.Classes.{CharClasses, IsLawful};

    // What each call answers, as functions of the characters handed in.
    ghost classes: { Self → CharClasses };

    /// Whether an identifier may start with the character. Of ASCII these are the letters.
    fn is_xid_start(&self, c: char) -> bool
        ensures { result ≡ (classes self.now).xid_start c };

    /// Whether an identifier may go on with the character. Of ASCII these are letters, digits
    /// and `_`.
    fn is_xid_continue(&self, c: char) -> bool
        ensures { result ≡ (classes self.now).xid_continue c };

    /// Whether the character is alphabetic. Of ASCII these are the letters.
    fn is_alphabetic(&self, c: char) -> bool
        ensures { result ≡ (classes self.now).alphabetic c };

    /// Whether the character is a letter or a number. Of ASCII these are letters and digits.
    fn is_alphanumeric(&self, c: char) -> bool
        ensures { result ≡ (classes self.now).alphanumeric c };

    /// Whether the character is a number. Of ASCII these are the digits.
    fn is_numeric(&self, c: char) -> bool
        ensures { result ≡ (classes self.now).numeric c };

    /// Whether the character belongs to a word, inside which `*` and `_` are plain text. Of
    /// ASCII these are letters and digits.
    fn is_word(&self, c: char) -> bool
        ensures { result ≡ (classes self.now).word c };

    /// What the character does in a formula. Of ASCII `([{` are opening, `)]}` closing and
    /// letters alphabetic.
    fn math_class(&self, c: char) -> Option<MathClass>
        ensures { result ≡ (classes self.now).math c };

    /// How many bytes the first cluster of the line has, which is what a reader takes for one
    /// character. It is at least one and at most all of the line's characters, and one where the
    /// line is all of ASCII.
    fn cluster(&self, line: &str) -> usize
        requires some { 0 < length line.now }
        requires inside { list_all in_line (chars line.now) ≡ true }
        ensures { result ≡ length (encode_utf8_all (take ((classes self.now).cluster (chars line.now)) (chars line.now))) };

    // The answers keep the law.
    ghost lawful: { (s : Self) → IsLawful (classes s) };
}

/// What an ASCII character does in a formula; `None` for any other character.
#[inline]
pub fn ascii_math_class(c: char) -> Option<MathClass>
    ensures { result ≡ ascii_math c }
{
    match c {
        '(' | '[' | '{' => Some(MathClass::Opening),
        ')' | ']' | '}' => Some(MathClass::Closing),
        'a'..='z' | 'A'..='Z' => Some(MathClass::Alphabetic),
        _ => None,
    }
}

/// Whether the character can start an identifier.
#[inline]
pub fn is_id_start<C: Classes>(c: char, classes: &C) -> bool
    ensures { result ≡ spec.is_id_start (C.classes classes.now) c }
{
    c == '_' || classes.is_xid_start(c)
}

/// Whether the character can continue an identifier.
#[inline]
pub fn is_id_continue<C: Classes>(c: char, classes: &C) -> bool
    ensures { result ≡ spec.is_id_continue (C.classes classes.now) c }
{
    c == '_' || c == '-' || classes.is_xid_continue(c)
}

/// Whether the text is an identifier: a character that starts one, and then any number of
/// characters that continue one.
pub fn is_ident<C: Classes>(text: &str, classes: &C) -> bool
    ensures { result ≡ spec.is_ident (C.classes classes.now) (chars text.now) }
{
    let mut rest = text.chars();
    match rest.next() {
        Some(first) => is_id_start(first, classes) && rest.all(|c| is_id_continue(c, classes)),
        None => false,
    }
}
