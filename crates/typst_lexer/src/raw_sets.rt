//! Sets of characters.
ghost use Rattle.std.specs.Prelude.{◌≡◌};
ghost use Rattle.std.specs.Char.{is_whitespace};
ghost use Rattle.typst_lexer.specs.RawLines.{is_tick};
ghost use Rattle.typst_lexer.specs.RawTag.{in_tag};

use typst_lines::CharSet;

/// The set of the backtick alone.
#[derive(Clone, Copy)]
pub(crate) struct Tick;

impl CharSet for Tick {
    ghost members = { λ _. is_tick };

    #[inline]
    fn has(&self, c: char) -> bool {
        c == '`'
    }
}

/// The set of the characters with the property White_Space.
#[derive(Clone, Copy)]
pub(crate) struct Whitespace;

impl CharSet for Whitespace {
    ghost members = { λ _. is_whitespace };

    #[inline]
    fn has(&self, c: char) -> bool {
        c.is_whitespace()
    }
}

/// The set of the characters that a language tag can have.
#[derive(Clone, Copy)]
pub(crate) struct InTag;

impl CharSet for InTag {
    ghost members = { λ _. in_tag };

    #[inline]
    fn has(&self, c: char) -> bool {
        !c.is_whitespace() && c != '`'
    }
}
