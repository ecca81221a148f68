//! Only ASCII characters are in a class.
ghost use Rattle.std.specs.Prelude.{◌≡◌};

use typst_lines::classes::{Classes, MathClass, ascii_math_class};

/// Past ASCII no character is in a class, and a cluster is always one character.
#[derive(Clone, Copy)]
pub struct Narrow;

impl Classes for Narrow {
    ghost use Rattle.typst_fakes.specs.Odd.{narrow_classes};
    ghost use Rattle.typst_fakes.specs.OddLaws.{IsLawful-narrow_classes};

    ghost classes = { λ _. narrow_classes };

    ghost lawful = { λ _. IsLawful-narrow_classes };

    fn is_xid_start(&self, c: char) -> bool {
        c.is_ascii_alphabetic()
    }

    fn is_xid_continue(&self, c: char) -> bool {
        c.is_ascii_alphanumeric() || c == '_'
    }

    fn is_alphabetic(&self, c: char) -> bool {
        c.is_ascii_alphabetic()
    }

    fn is_alphanumeric(&self, c: char) -> bool {
        c.is_ascii_alphanumeric()
    }

    fn is_numeric(&self, c: char) -> bool {
        c.is_ascii_digit()
    }

    fn is_word(&self, c: char) -> bool {
        c.is_ascii_alphanumeric()
    }

    fn math_class(&self, c: char) -> Option<MathClass> {
        ascii_math_class(c)
    }

    fn cluster(&self, line: &str) -> usize {
        match line.chars().next() {
            Some(c) => c.len_utf8(),
            None => 1,
        }
    }
}
