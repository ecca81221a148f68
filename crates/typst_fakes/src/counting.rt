//! The classes by Unicode, counted.
ghost use Rattle.std.specs.Prelude.{◌≡◌};

use std::cell::Cell;
use typst_lines::{Classes, MathClass, UnicodeClasses};

/// Answers as `UnicodeClasses` does and counts the calls in a cell that is lent to it, up to
/// `usize::MAX`.
#[derive(Clone, Copy)]
pub struct Counting<'a> {
    /// How many calls there were, with what the cell held before.
    pub calls: &'a Cell<usize>,
}

impl Counting<'_> {
    fn count(&self) {
        self.calls.set(self.calls.get().saturating_add(1));
    }
}

impl Classes for Counting<'_> {
    ghost use Rattle.typst_lines.specs.UnicodeTables.{unicode_classes};
    ghost use Rattle.typst_lines.specs.UnicodeLaws.{IsLawful-unicode_classes};

    ghost classes = { λ _. unicode_classes };

    ghost lawful = { λ _. IsLawful-unicode_classes };

    fn is_xid_start(&self, c: char) -> bool {
        self.count();
        UnicodeClasses.is_xid_start(c)
    }

    fn is_xid_continue(&self, c: char) -> bool {
        self.count();
        UnicodeClasses.is_xid_continue(c)
    }

    fn is_alphabetic(&self, c: char) -> bool {
        self.count();
        UnicodeClasses.is_alphabetic(c)
    }

    fn is_alphanumeric(&self, c: char) -> bool {
        self.count();
        UnicodeClasses.is_alphanumeric(c)
    }

    fn is_numeric(&self, c: char) -> bool {
        self.count();
        UnicodeClasses.is_numeric(c)
    }

    fn is_word(&self, c: char) -> bool {
        self.count();
        UnicodeClasses.is_word(c)
    }

    fn math_class(&self, c: char) -> Option<MathClass> {
        self.count();
        UnicodeClasses.math_class(c)
    }

    fn cluster(&self, line: &str) -> usize {
        self.count();
        UnicodeClasses.cluster(line)
    }
}
