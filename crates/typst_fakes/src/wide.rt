//! Nearly every character is a letter.
ghost use Rattle.std.specs.Prelude.{◌≡◌};

use typst_lines::classes::{Classes, MathClass, ascii_math_class};

/// Past ASCII each character that isn't white space starts and continues identifiers, is
/// alphabetic, alphanumeric and of a word; none is numeric or has a class in formulas. A line that
/// isn't all ASCII is one cluster.
#[derive(Clone, Copy)]
pub struct Wide;

impl Classes for Wide {
    ghost use Rattle.typst_fakes.specs.Odd.{wide_classes};
    ghost use Rattle.typst_fakes.specs.OddLaws.{IsLawful-wide_classes};

    ghost classes = { λ _. wide_classes };

    ghost lawful = { λ _. IsLawful-wide_classes };

    fn is_xid_start(&self, c: char) -> bool {
        if c.is_ascii() {
            c.is_ascii_alphabetic()
        } else {
            !c.is_whitespace()
        }
    }

    fn is_xid_continue(&self, c: char) -> bool {
        if c.is_ascii() {
            c.is_ascii_alphanumeric() || c == '_'
        } else {
            !c.is_whitespace()
        }
    }

    fn is_alphabetic(&self, c: char) -> bool {
        if c.is_ascii() {
            c.is_ascii_alphabetic()
        } else {
            !c.is_whitespace()
        }
    }

    fn is_alphanumeric(&self, c: char) -> bool {
        if c.is_ascii() {
            c.is_ascii_alphanumeric()
        } else {
            !c.is_whitespace()
        }
    }

    fn is_numeric(&self, c: char) -> bool {
        c.is_ascii_digit()
    }

    fn is_word(&self, c: char) -> bool {
        if c.is_ascii() {
            c.is_ascii_alphanumeric()
        } else {
            !c.is_whitespace()
        }
    }

    fn math_class(&self, c: char) -> Option<MathClass> {
        ascii_math_class(c)
    }

    fn cluster(&self, line: &str) -> usize {
        if line.is_ascii() { 1 } else { line.len() }
    }
}
