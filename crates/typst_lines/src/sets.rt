//! Sets of characters.
ghost use Rattle.typst_lines.specs.Classes.{in_line};
ghost use Rattle.typst_lines.specs.Identifiers as identifiers;

use crate::classes::{Classes, is_id_continue, is_id_start};
use crate::{CharSet, is_newline};

/// The set of the characters that aren't newline characters.
#[derive(Clone, Copy)]
pub struct InLine;

impl CharSet for InLine {
    ghost members = { λ _. in_line };

    #[inline]
    fn has(&self, c: char) -> bool {
        !is_newline(c)
    }
}

/// The set of the characters that can start an identifier.
#[derive(Clone, Copy)]
pub struct IdStart<'a, C: Classes>(pub &'a C);

impl<C: Classes> CharSet for IdStart<'_, C> {
    ghost members = { λ s. identifiers.is_id_start (C.classes s.0.now) };

    #[inline]
    fn has(&self, c: char) -> bool {
        is_id_start(c, self.0)
    }
}

/// The set of the characters that can continue an identifier.
#[derive(Clone, Copy)]
pub struct IdContinue<'a, C: Classes>(pub &'a C);

impl<C: Classes> CharSet for IdContinue<'_, C> {
    ghost members = { λ s. identifiers.is_id_continue (C.classes s.0.now) };

    #[inline]
    fn has(&self, c: char) -> bool {
        is_id_continue(c, self.0)
    }
}
