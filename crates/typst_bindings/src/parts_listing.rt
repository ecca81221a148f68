//! What several patterns in parens were found to be.

ghost use Rattle.std.specs.Prelude.{◌≡◌, false};
ghost use Rattle.typst_kinds.specs.Kinds.{is_error};
ghost use Rattle.typst_bindings.specs.Patterns as spec;

use typst_kinds::SyntaxKind;

/// What several patterns in parens were found to be so far.
#[derive(Debug, Clone, Copy, PartialEq, Eq)]
pub struct Parts {
    /// Whether there is any.
    pub any: bool,
    /// Whether they may be one pattern in parens: no comma, no dots, no colon, no second one.
    pub is_plain: bool,
    /// Whether one of them has two dots.
    pub has_sink: bool,
}

impl Parts {
    /// What is known before the first pattern.
    pub(crate) fn none() -> Parts
        ensures { result ≡ spec.no_parts }
    {
        Parts {
            any: false,
            is_plain: true,
            has_sink: false,
        }
    }

    /// What was found, with a pattern that has two dots.
    pub(crate) fn with_sink(self) -> Parts
        ensures { result ≡ spec.with_sink self }
    {
        Parts {
            any: true,
            is_plain: false,
            has_sink: true,
        }
    }

    /// What was found, with one more pattern, which has a colon or not.
    pub(crate) fn with_part(self, is_named: bool) -> Parts
        ensures { result ≡ spec.with_part is_named self }
    {
        Parts {
            any: true,
            is_plain: self.is_plain && !self.any && !is_named,
            has_sink: self.has_sink,
        }
    }

    /// What was found, after a comma or none.
    pub(crate) fn with_comma(self, comma: bool) -> Parts
        ensures { result ≡ spec.with_comma comma self }
    {
        Parts {
            any: self.any,
            is_plain: self.is_plain && !comma,
            has_sink: self.has_sink,
        }
    }

    /// What the patterns in parens are.
    pub(crate) fn kind(self) -> SyntaxKind
        ensures kind { result ≡ spec.parts_kind self }
        ensures fine { is_error result ≡ false }
    {
        if self.any && self.is_plain {
            return SyntaxKind::Parenthesized;
        }
        SyntaxKind::Destructuring
    }
}
