//! The names of labels and references.
ghost use Rattle.std.specs.Prelude.{◌≡◌, ◌==◌, ◌||◌};
ghost use Rattle.std.specs.Str.{chars};
ghost use Rattle.typst_lines.specs.Labels as spec;

use crate::ends::without_last;
use crate::{CharSet, Classes, is_id_continue};

/// Whether the names of labels and references can have the character.
#[inline]
pub fn is_valid_in_label_literal<C: Classes>(c: char, classes: &C) -> bool
    ensures { result ≡ spec.is_name (C.classes classes.now) c }
{
    is_id_continue(c, classes) || c == ':' || c == '.'
}

/// The set of the characters that names of labels and references can have.
#[derive(Clone, Copy)]
pub struct InName<'a, C: Classes>(pub &'a C);

impl<C: Classes> CharSet for InName<'_, C> {
    ghost members = { λ s. spec.is_name (C.classes s.0.now) };

    #[inline]
    fn has(&self, c: char) -> bool {
        is_valid_in_label_literal(c, self.0)
    }
}

/// The set of the characters that the name of a reference doesn't end in.
#[derive(Clone, Copy)]
struct LastMarks;

impl CharSet for LastMarks {
    ghost members = { λ _ c. c == 58 || c == 46 };

    #[inline]
    fn has(&self, c: char) -> bool {
        c == ':' || c == '.'
    }
}

/// The name of a reference: the text without the colons and dots at its end.
pub fn ref_name(text: &str) -> &str
    ensures { chars result.now ≡ spec.ref_name (chars text.now) }
{
    without_last(text, &LastMarks)
}

/// Whether a label can be written with the name: whether it is one or more characters that names
/// can have. A text that begins with a colon is such a name, though `<:a>` isn't read as a label.
pub fn is_valid_label_literal_id<C: Classes>(id: &str, classes: &C) -> bool
    ensures { result ≡ spec.is_label_id (C.classes classes.now) (chars id.now) }
{
    if id.is_empty() {
        return false;
    }
    id.chars().all(|c| is_valid_in_label_literal(c, classes))
}
