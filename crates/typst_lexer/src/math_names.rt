//! Identifiers of formulas, and fields of them.
ghost use Rattle.std.specs.Prelude.{◌≡◌, ◌==◌, ◌<◌, Some, true, length};
ghost use Rattle.std.specs.List.{list_all};
ghost use Rattle.std.specs.Str.{chars};
ghost use Rattle.typst_lines.specs.Classes.{in_line};
ghost use Rattle.typst_lines.specs.Place.{passes, scout};
ghost use Rattle.typst_lexer.specs.MathNames as spec;
ghost use Rattle.typst_tokens.specs.Reads.{Reads};
ghost use Rattle.typst_tokens.specs.Sight.{saw};

use crate::atoms::text;
use typst_kinds::SyntaxKind;
use typst_lines::CharSet;
use typst_lines::classes::Classes;
use typst_tokens::{Cursor, Token};

/// The set of what continues an identifier of a formula.
#[derive(Clone, Copy)]
struct MathIdContinue<'a, C: Classes>(&'a C);

impl<C: Classes> CharSet for MathIdContinue<'_, C> {
    ghost members = { λ s. spec.continues (C.classes s.0.now) };

    #[inline]
    fn has(&self, c: char) -> bool {
        is_math_id_continue(c, self.0)
    }
}

/// Whether the character can continue an identifier of a formula.
#[inline]
fn is_math_id_continue<C: Classes>(c: char, classes: &C) -> bool
    ensures { result ≡ spec.continues (C.classes classes.now) c }
{
    classes.is_xid_continue(c) && c != '_'
}

/// A name that begins with the character, which comes next and starts identifiers, or a text.
#[inline(always)]
#[tactic(auto, unfolding(crate::specs::MathNames::name))]
pub(crate) fn name<C: Classes>(s: &mut Cursor<'_>, c: char, classes: &C) -> Token
    requires next { scout 0 s.old.place ≡ Some c }
    requires starts { (C.classes classes.now).xid_start c ≡ true }
    ensures { Reads (spec.name (C.classes classes.now) c) s.old result s.new }
{
    if !continues_name(s.second(), classes) {
        return text(s, c, classes);
    }
    let start = s.ahead();
    s.eat();
    s.eat_while(&MathIdContinue(classes));
    let own = s.ahead().since(&start);
    if is_cluster(own, classes) {
        return Token::plain(SyntaxKind::MathText);
    }
    after_name(s, classes)
}

fn continues_name<C: Classes>(c: Option<char>, classes: &C) -> bool
    ensures { result ≡ passes (spec.continues (C.classes classes.now)) c }
{
    match c {
        Some(c) => is_math_id_continue(c, classes),
        None => false,
    }
}

/// Whether a text without a newline character is one cluster.
fn is_cluster<C: Classes>(text: &str, classes: &C) -> bool
    requires some { 0 < length text.now }
    requires inside { list_all in_line (chars text.now) ≡ true }
    ensures { result ≡ ((C.classes classes.now).cluster (chars text.now) == length (chars text.now)) }
{
    classes.cluster(text) == text.len()
}

/// An identifier after its name, with the fields that follow.
#[inline(always)]
fn after_name<C: Classes>(s: &mut Cursor<'_>, classes: &C) -> Token
    ensures { Reads (spec.after_name (C.classes classes.now)) s.old result s.new }
{
    if !field_follows(s, classes) {
        return Token::plain(SyntaxKind::MathIdent);
    }
    s.eat_two();
    s.eat_while(&MathIdContinue(classes));
    while field_follows(s, classes) {
        s.eat_two();
        s.eat_while(&MathIdContinue(classes));
    }
    Token::plain(SyntaxKind::MathFieldAccess)
}

/// Whether a dot comes next and then what starts an identifier.
fn field_follows<C: Classes>(s: &mut Cursor<'_>, classes: &C) -> bool
    ensures found { result ≡ spec.is_field (C.classes classes.now) (scout 0 s.old.place) (scout 1 s.old.place) }
    ensures sight { s.new ≡ saw 2 s.old }
{
    let next = s.peek();
    let after = s.second();
    is_field(next, after, classes)
}

fn is_field<C: Classes>(next: Option<char>, after: Option<char>, classes: &C) -> bool
    ensures { result ≡ spec.is_field (C.classes classes.now) next after }
{
    match (next, after) {
        (Some('.'), Some(after)) => classes.is_xid_start(after),
        _ => false,
    }
}
