//! The classes by the properties of Unicode.
ghost use Rattle.std.specs.Char.{is_ascii};
ghost use Rattle.std.specs.List.{list_all};
ghost use Rattle.std.specs.Prelude.{◌≡◌, take};
ghost use Rattle.std.specs.Str.{chars};
ghost use Rattle.typst_lines.specs.UnicodeTables.{unicode_numeric, unicode_alphanumeric, is_unspaced};
ghost use Rattle.unicode.specs.Script.{script};

use crate::classes::{Classes, MathClass, ascii_math_class};
use unicode::properties;
use unicode::properties::GeneralCategory::{self, DecimalNumber, LetterNumber, OtherNumber};
use unicode::properties::Script::{self, Han, Hangul, Hiragana, Katakana};
use unicode_segmentation::UnicodeSegmentation;

/// The classes by Unicode.
#[derive(Debug, Clone, Copy, PartialEq, Eq)]
pub struct UnicodeClasses;

impl Classes for UnicodeClasses {
    ghost use Rattle.typst_lines.specs.UnicodeTables.{unicode_classes};
    ghost use Rattle.typst_lines.specs.UnicodeLaws.{IsLawful-unicode_classes};

    ghost classes = { λ _. unicode_classes };

    ghost lawful = { λ _. IsLawful-unicode_classes };

    #[inline]
    fn is_xid_start(&self, c: char) -> bool {
        if c.is_ascii() {
            c.is_ascii_alphabetic()
        } else {
            !c.is_whitespace() && unicode_ident::is_xid_start(c)
        }
    }

    #[inline]
    fn is_xid_continue(&self, c: char) -> bool {
        if c.is_ascii() {
            c.is_ascii_alphanumeric() || c == '_'
        } else {
            !c.is_whitespace() && unicode_ident::is_xid_continue(c)
        }
    }

    #[inline]
    fn is_alphabetic(&self, c: char) -> bool {
        if c.is_ascii() {
            c.is_ascii_alphabetic()
        } else {
            !c.is_whitespace() && properties::is_alphabetic(c)
        }
    }

    #[inline(always)]
    fn is_alphanumeric(&self, c: char) -> bool {
        if c.is_ascii() {
            c.is_ascii_alphanumeric()
        } else {
            !c.is_whitespace() && alphanumeric(c)
        }
    }

    #[inline]
    fn is_numeric(&self, c: char) -> bool {
        if c.is_ascii() {
            c.is_ascii_digit()
        } else {
            !c.is_whitespace() && numeric(c)
        }
    }

    #[inline]
    fn is_word(&self, c: char) -> bool {
        if c.is_ascii() {
            c.is_ascii_alphanumeric()
        } else {
            !c.is_whitespace() && alphanumeric(c) && !unspaced(c)
        }
    }

    fn math_class(&self, c: char) -> Option<MathClass> {
        if c.is_ascii() {
            ascii_math_class(c)
        } else if c.is_whitespace() {
            None
        } else {
            match c {
                '⌈' | '⌊' | '⟦' | '⟨' | '⟪' | '⟬' | '⟮' => Some(MathClass::Opening),
                '⌉' | '⌋' | '⟧' | '⟩' | '⟫' | '⟭' | '⟯' => Some(MathClass::Closing),
                _ => None,
            }
        }
    }

    fn cluster(&self, line: &str) -> usize {
        if begins_alone(line) {
            return 1;
        }
        match line.graphemes(true).next() {
            Some(cluster) => cluster.len(),
            None => 1,
        }
    }
}

/// Whether the line is one ASCII character or begins with two, between which a cluster ends.
#[inline]
fn begins_alone(line: &str) -> bool
    ensures { result ≡ list_all is_ascii (take 2 (chars line.now)) }
{
    line.chars().take(2).all(|c| c.is_ascii())
}

/// Whether the general category is Nd, Nl or No.
fn numeric(c: char) -> bool
    ensures { result ≡ unicode_numeric c }
{
    matches!(
        GeneralCategory::for_char(c),
        DecimalNumber | LetterNumber | OtherNumber
    )
}

#[inline(never)]
fn alphanumeric(c: char) -> bool
    ensures { result ≡ unicode_alphanumeric c }
{
    properties::is_alphabetic(c) || numeric(c)
}

/// Whether the script puts no spaces between words.
fn unspaced(c: char) -> bool
    ensures { result ≡ is_unspaced (script c) }
{
    matches!(Script::for_char(c), Han | Hiragana | Katakana | Hangul)
}
