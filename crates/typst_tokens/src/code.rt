//! The tokens of code.
ghost use Rattle.std.specs.Prelude.{◌≡◌};
ghost use Rattle.typst_lines.specs.Identifiers.{is_id_continue};
ghost use Rattle.typst_tokens.specs.Code as spec;
ghost use Rattle.typst_lines.specs.Place.{passes};
ghost use Rattle.typst_tokens.specs.Reads.{Reads};
ghost use Rattle.typst_tokens.specs.Common as common;
ghost use Rattle.typst_tokens.specs.Token.{plain};

use crate::identifiers::ident;
use crate::invalid::invalid;
use crate::labels::label;
use crate::numbers::{dotted, number_token};
use crate::strings::string;
use crate::{Cursor, Token};
use typst_kinds::SyntaxKind;
use typst_lines::classes::{Classes, is_id_continue, is_id_start};

/// A token of code that begins with the character, which comes next and begins no token that all
/// modes share.
#[inline(always)]
#[tactic(auto, unfolding(crate::specs::Code::code))]
pub fn code<C: Classes>(s: &mut Cursor<'_>, c: char, classes: &C) -> Token
    ensures { Reads (spec.code (C.classes classes.now) c) s.old result s.new }
{
    match c {
        '<' => again(less(s, classes)),
        '0'..='9' => again(number_token(s, c, classes)),
        '.' => again(dot(s)),
        '"' => again(string(s)),
        '=' => Token::plain(equals(s)),
        '!' => again(bang(s)),
        '>' => Token::plain(with_equals(s, SyntaxKind::Gt, SyntaxKind::GtEq)),
        '+' => Token::plain(with_equals(s, SyntaxKind::Plus, SyntaxKind::PlusEq)),
        '-' | '\u{2212}' => Token::plain(with_equals(s, SyntaxKind::Minus, SyntaxKind::HyphEq)),
        '*' => Token::plain(with_equals(s, SyntaxKind::Star, SyntaxKind::StarEq)),
        '/' => Token::plain(with_equals(s, SyntaxKind::Slash, SyntaxKind::SlashEq)),
        _ => single(s, c, classes),
    }
}

/// The token, put together again from its parts, so that it meets those of the other ways in
/// registers.
#[inline(always)]
fn again(token: Token) -> Token
    ensures { result ≡ token }
{
    Token {
        fault: token.fault,
        kind: token.kind,
        newline: token.newline,
    }
}

/// A sign alone, a name, or an error.
#[inline(always)]
#[tactic(auto, unfolding(crate::specs::Code::single))]
fn single<C: Classes>(s: &mut Cursor<'_>, c: char, classes: &C) -> Token
    ensures { Reads (spec.single (C.classes classes.now) c) s.old result s.new }
{
    match c {
        '{' => Token::plain(sign(s, SyntaxKind::LeftBrace)),
        '}' => Token::plain(sign(s, SyntaxKind::RightBrace)),
        '[' => Token::plain(sign(s, SyntaxKind::LeftBracket)),
        ']' => Token::plain(sign(s, SyntaxKind::RightBracket)),
        '(' => Token::plain(sign(s, SyntaxKind::LeftParen)),
        ')' => Token::plain(sign(s, SyntaxKind::RightParen)),
        '$' => Token::plain(sign(s, SyntaxKind::Dollar)),
        ',' => Token::plain(sign(s, SyntaxKind::Comma)),
        ';' => Token::plain(sign(s, SyntaxKind::Semicolon)),
        ':' => Token::plain(sign(s, SyntaxKind::Colon)),
        c if is_id_start(c, classes) => Token::plain(ident(s, c, classes)),
        c => again(invalid(s, c)),
    }
}

/// The kind of a sign of one character.
#[tactic(auto, unfolding(crate::specs::Common::sign))]
fn sign(s: &mut Cursor<'_>, kind: SyntaxKind) -> SyntaxKind
    ensures { Reads (common.sign kind) s.old (plain result) s.new }
{
    s.eat();
    kind
}

/// A label, or `<` or `<=`.
#[tactic(auto, unfolding(crate::specs::Code::less))]
fn less<C: Classes>(s: &mut Cursor<'_>, classes: &C) -> Token
    ensures { Reads (spec.less (C.classes classes.now)) s.old result s.new }
{
    if continues_name(s.second(), classes) {
        return label(s, classes);
    }
    Token::plain(with_equals(s, SyntaxKind::Lt, SyntaxKind::LtEq))
}

fn continues_name<C: Classes>(c: Option<char>, classes: &C) -> bool
    ensures { result ≡ passes (is_id_continue (C.classes classes.now)) c }
{
    match c {
        Some(c) => is_id_continue(c, classes),
        None => false,
    }
}

/// The kind of a sign, or of another one with an equals sign.
#[tactic(auto, unfolding(crate::specs::Code::with_equals))]
fn with_equals(s: &mut Cursor<'_>, alone: SyntaxKind, both: SyntaxKind) -> SyntaxKind
    ensures { Reads (spec.with_equals alone both) s.old (plain result) s.new }
{
    s.eat();
    if s.eat_if('=') {
        return both;
    }
    alone
}

/// A number, two dots, or one.
#[tactic(auto, unfolding(crate::specs::Code::dot))]
fn dot(s: &mut Cursor<'_>) -> Token
    ensures { Reads spec.dot s.old result s.new }
{
    match s.second() {
        Some(c) if c.is_ascii_digit() => dotted(s),
        _ => dots(s),
    }
}

#[tactic(auto, unfolding(crate::specs::Code::dots))]
fn dots(s: &mut Cursor<'_>) -> Token
    ensures { Reads spec.dots s.old result s.new }
{
    s.eat();
    if s.eat_if('.') {
        return Token::plain(SyntaxKind::Dots);
    }
    Token::plain(SyntaxKind::Dot)
}

#[tactic(auto, unfolding(crate::specs::Code::equals))]
fn equals(s: &mut Cursor<'_>) -> SyntaxKind
    ensures { Reads spec.equals s.old (plain result) s.new }
{
    s.eat();
    if s.eat_if('=') {
        return SyntaxKind::EqEq;
    }
    if s.eat_if('>') {
        return SyntaxKind::Arrow;
    }
    SyntaxKind::Eq
}

/// `!=`, or an error.
#[tactic(auto, unfolding(crate::specs::Code::bang))]
fn bang(s: &mut Cursor<'_>) -> Token
    ensures { Reads spec.bang s.old result s.new }
{
    if s.second() == Some('=') {
        s.eat_two();
        return Token::plain(SyntaxKind::ExclEq);
    }
    invalid(s, '!')
}
