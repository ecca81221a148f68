//! Identifiers and keywords.
ghost use Rattle.std.specs.Prelude.{◌≡◌, ◌∷◌, length, take};
ghost use Rattle.std.specs.Str.{chars};
ghost use Rattle.typst_tokens.specs.Identifiers as spec;
ghost use Rattle.typst_tokens.specs.Reads.{Reads};
ghost use Rattle.typst_tokens.specs.Token.{plain};

use crate::Cursor;
use typst_kinds::SyntaxKind;
use typst_lines::classes::Classes;
use typst_lines::sets::IdContinue;

/// The kind of a name that begins with the character, which comes next and starts names.
#[inline(always)]
#[tactic(auto, unfolding(crate::specs::Identifiers::ident))]
pub(crate) fn ident<C: Classes>(s: &mut Cursor<'_>, c: char, classes: &C) -> SyntaxKind
    ensures { Reads (spec.ident (C.classes classes.now) c) s.old (plain result) s.new }
{
    s.eat();
    let rest = s.see_while(&IdContinue(classes));
    if let Some(kind) = keyword(c, rest) {
        return keyword_or_name(s, rest, kind);
    }
    s.skip(rest);
    named(c, rest)
}

/// A keyword, or an identifier directly after `@` and directly after a single dot.
#[inline(always)]
#[tactic(auto, unfolding(crate::specs::Identifiers::keyword_or_name))]
fn keyword_or_name(s: &mut Cursor<'_>, rest: &str, kind: SyntaxKind) -> SyntaxKind
    requires { take (length (chars rest.now)) s.old.place.ahead ≡ chars rest.now }
    ensures { Reads (spec.keyword_or_name (chars rest.now) kind) s.old (plain result) s.new }
{
    let is_name = match s.second_last() {
        Some('@') => true,
        Some('.') => s.third_last() != Some('.'),
        _ => false,
    };
    s.skip(rest);
    if is_name {
        return SyntaxKind::Ident;
    }
    kind
}

/// The kind of a name that isn't a keyword, by its first character and the others.
#[inline(always)]
fn named(first: char, rest: &str) -> SyntaxKind
    ensures { plain result ≡ spec.named (first ∷ rest.now) }
{
    if first == '_' && rest.is_empty() {
        return SyntaxKind::Underscore;
    }
    SyntaxKind::Ident
}

/// The kind of a name with this first character and these others that is a keyword, `true` or `false`.
fn keyword(first: char, rest: &str) -> Option<SyntaxKind>
    ensures { result ≡ spec.keyword (first ∷ rest.now) }
{
    match first {
        'a' => from_a(rest),
        'b' if rest == "reak" => Some(SyntaxKind::Break),
        'c' => from_c(rest),
        'e' if rest == "lse" => Some(SyntaxKind::Else),
        'f' => from_f(rest),
        'i' => from_i(rest),
        'l' if rest == "et" => Some(SyntaxKind::Let),
        'n' => from_n(rest),
        'o' if rest == "r" => Some(SyntaxKind::Or),
        'r' if rest == "eturn" => Some(SyntaxKind::Return),
        's' => from_s(rest),
        't' if rest == "rue" => Some(SyntaxKind::Bool),
        'w' if rest == "hile" => Some(SyntaxKind::While),
        _ => None,
    }
}

fn from_a(rest: &str) -> Option<SyntaxKind>
    ensures { result ≡ spec.keyword (97 ∷ rest.now) }
{
    match rest {
        "uto" => Some(SyntaxKind::Auto),
        "nd" => Some(SyntaxKind::And),
        "s" => Some(SyntaxKind::As),
        _ => None,
    }
}

fn from_c(rest: &str) -> Option<SyntaxKind>
    ensures { result ≡ spec.keyword (99 ∷ rest.now) }
{
    match rest {
        "ontext" => Some(SyntaxKind::Context),
        "ontinue" => Some(SyntaxKind::Continue),
        _ => None,
    }
}

fn from_f(rest: &str) -> Option<SyntaxKind>
    ensures { result ≡ spec.keyword (102 ∷ rest.now) }
{
    match rest {
        "alse" => Some(SyntaxKind::Bool),
        "or" => Some(SyntaxKind::For),
        _ => None,
    }
}

fn from_i(rest: &str) -> Option<SyntaxKind>
    ensures { result ≡ spec.keyword (105 ∷ rest.now) }
{
    match rest {
        "f" => Some(SyntaxKind::If),
        "n" => Some(SyntaxKind::In),
        "mport" => Some(SyntaxKind::Import),
        "nclude" => Some(SyntaxKind::Include),
        _ => None,
    }
}

fn from_n(rest: &str) -> Option<SyntaxKind>
    ensures { result ≡ spec.keyword (110 ∷ rest.now) }
{
    match rest {
        "one" => Some(SyntaxKind::None),
        "ot" => Some(SyntaxKind::Not),
        _ => None,
    }
}

fn from_s(rest: &str) -> Option<SyntaxKind>
    ensures { result ≡ spec.keyword (115 ∷ rest.now) }
{
    match rest {
        "et" => Some(SyntaxKind::Set),
        "how" => Some(SyntaxKind::Show),
        _ => None,
    }
}
