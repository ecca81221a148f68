//! Labels and references.
ghost use Rattle.std.specs.Prelude.{◌≡◌};
ghost use Rattle.typst_lines.specs.Identifiers.{is_id_continue};
ghost use Rattle.typst_tokens.specs.Names as spec;
ghost use Rattle.typst_lines.specs.Place.{passes};
ghost use Rattle.typst_tokens.specs.Reads.{Reads};

use crate::labels::label;
use crate::text::text_from;
use crate::{Cursor, Token};
use typst_kinds::SyntaxKind;
use typst_lines::classes::{Classes, is_id_continue};
use typst_lines::labels::{InName, ref_name};

/// A label, or a text that `<` begins.
#[tactic(auto, unfolding(crate::specs::Names::label_or_text))]
pub(crate) fn label_or_text<C: Classes>(s: &mut Cursor<'_>, classes: &C) -> Token
    ensures { Reads (spec.label_or_text (C.classes classes.now)) s.old result s.new }
{
    if begins_name(s.second(), classes) {
        return label(s, classes);
    }
    text_from(s, classes)
}

/// A reference, or a text that `@` begins.
#[tactic(auto, unfolding(crate::specs::Names::ref_or_text))]
pub(crate) fn ref_or_text<C: Classes>(s: &mut Cursor<'_>, classes: &C) -> Token
    ensures { Reads (spec.ref_or_text (C.classes classes.now)) s.old result s.new }
{
    if begins_name(s.second(), classes) {
        return ref_marker(s, classes);
    }
    text_from(s, classes)
}

/// `@` and a name, without the colons and dots at the name's end.
#[tactic(auto, unfolding(crate::specs::Names::ref_marker))]
fn ref_marker<C: Classes>(s: &mut Cursor<'_>, classes: &C) -> Token
    ensures { Reads (spec.ref_marker (C.classes classes.now)) s.old result s.new }
{
    s.eat();
    let name = s.see_while(&InName(classes));
    s.skip(ref_name(name));
    Token::plain(SyntaxKind::RefMarker)
}

/// Whether a name may begin with the character.
fn begins_name<C: Classes>(c: Option<char>, classes: &C) -> bool
    ensures { result ≡ passes (is_id_continue (C.classes classes.now)) c }
{
    match c {
        Some(c) => is_id_continue(c, classes),
        None => false,
    }
}
