//! The tokens of formulas.
ghost use Rattle.std.specs.Prelude.{◌≡◌, Some};
ghost use Rattle.typst_lines.specs.Place.{scout};
ghost use Rattle.typst_lexer.specs.Math as spec;
ghost use Rattle.typst_tokens.specs.Reads.{Reads};

use crate::atoms::text;
use crate::math_names::name;
use crate::shorthands::{bang, bar, bracket, colon, dot, equals, greater, hyphen, less, tilde};
use typst_kinds::SyntaxKind;
use typst_lines::classes::{Classes, MathClass};
use typst_tokens::common::sign;
use typst_tokens::escapes::backslash;
use typst_tokens::strings::string;
use typst_tokens::{Cursor, Token};

/// The token of a formula that comes next, unless it is one that all modes share.
#[inline(always)]
#[tactic(auto, unfolding(crate::specs::Math::math))]
pub fn math<C: Classes>(s: &mut Cursor<'_>, classes: &C) -> Token
    ensures { Reads (spec.math (C.classes classes.now)) s.old result s.new }
{
    match s.peek() {
        Some(c) => math_from(s, c, classes),
        None => Token::plain(SyntaxKind::End),
    }
}

/// A token that begins with the character, which comes next.
#[inline(always)]
#[tactic(auto, unfolding(crate::specs::Math::math_from, crate::specs::Shorthands::several))]
fn math_from<C: Classes>(s: &mut Cursor<'_>, c: char, classes: &C) -> Token
    requires { scout 0 s.old.place ≡ Some c }
    ensures { Reads (spec.math_from (C.classes classes.now) c) s.old result s.new }
{
    match c {
        '\\' => backslash(s),
        '"' => string(s),
        '\'' => primes(s),
        '-' => hyphen(s),
        '~' => tilde(s),
        ':' => colon(s, classes),
        '=' => equals(s, classes),
        '>' => greater(s, classes),
        '<' => less(s, classes),
        '|' => bar(s, classes),
        '[' => bracket(s),
        '!' => bang(s),
        '.' => dot(s),
        c => single(s, c, classes),
    }
}

#[tactic(auto, unfolding(crate::specs::Math::primes))]
fn primes(s: &mut Cursor<'_>) -> Token
    ensures { Reads spec.primes s.old result s.new }
{
    s.eat_while(&'\'');
    Token::plain(SyntaxKind::MathPrimes)
}

/// A sign of one character, or what its class says.
#[inline(always)]
#[tactic(auto, unfolding(crate::specs::Math::single))]
fn single<C: Classes>(s: &mut Cursor<'_>, c: char, classes: &C) -> Token
    requires { scout 0 s.old.place ≡ Some c }
    ensures { Reads (spec.single (C.classes classes.now) c) s.old result s.new }
{
    match c {
        '*' => sign(s, SyntaxKind::MathShorthand),
        ',' => sign(s, SyntaxKind::Comma),
        ';' => sign(s, SyntaxKind::Semicolon),
        '#' => sign(s, SyntaxKind::Hash),
        '_' => sign(s, SyntaxKind::Underscore),
        '$' => sign(s, SyntaxKind::Dollar),
        '/' => sign(s, SyntaxKind::Slash),
        '^' => sign(s, SyntaxKind::Hat),
        '&' => sign(s, SyntaxKind::MathAlignPoint),
        '(' => sign(s, SyntaxKind::LeftParen),
        ')' => sign(s, SyntaxKind::RightParen),
        '√' | '∛' | '∜' => sign(s, SyntaxKind::Root),
        c => by_class(s, c, classes),
    }
}

/// What opens or closes a delimited part, or an atom.
#[inline(never)]
#[tactic(auto, unfolding(crate::specs::Math::by_class))]
fn by_class<C: Classes>(s: &mut Cursor<'_>, c: char, classes: &C) -> Token
    requires { scout 0 s.old.place ≡ Some c }
    ensures { Reads (spec.by_class (C.classes classes.now) c ((C.classes classes.now).math c)) s.old result s.new }
{
    match classes.math_class(c) {
        Some(MathClass::Opening) => sign(s, SyntaxKind::LeftBrace),
        Some(MathClass::Closing) => sign(s, SyntaxKind::RightBrace),
        _ => atom(s, c, classes),
    }
}

/// A name, a number or a cluster.
#[inline(always)]
#[tactic(auto, unfolding(crate::specs::Math::atom))]
fn atom<C: Classes>(s: &mut Cursor<'_>, c: char, classes: &C) -> Token
    requires { scout 0 s.old.place ≡ Some c }
    ensures { Reads (spec.atom (C.classes classes.now) c) s.old result s.new }
{
    if classes.is_xid_start(c) {
        return name(s, c, classes);
    }
    text(s, c, classes)
}
