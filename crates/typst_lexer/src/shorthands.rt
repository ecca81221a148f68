//! Signs that are written with several characters.
ghost use Rattle.typst_lexer.specs.Shorthands as spec;
ghost use Rattle.typst_tokens.specs.Reads.{Reads};

use crate::atoms::cluster;
use typst_kinds::SyntaxKind;
use typst_lines::classes::Classes;
use typst_tokens::common::sign;
use typst_tokens::{Cursor, Token};

/// A shorthand that begins with a hyphen, or the hyphen alone, which is one too.
#[tactic(auto, unfolding(crate::specs::Shorthands::hyphen))]
pub(crate) fn hyphen(s: &mut Cursor<'_>) -> Token
    ensures { Reads spec.hyphen s.old result s.new }
{
    if s.eat_word(b"->>") {
        return Token::plain(SyntaxKind::MathShorthand);
    }
    if s.eat_word(b"-->") {
        return Token::plain(SyntaxKind::MathShorthand);
    }
    if s.eat_word(b"->") {
        return Token::plain(SyntaxKind::MathShorthand);
    }
    sign(s, SyntaxKind::MathShorthand)
}

/// A shorthand that begins with a tilde, or the tilde alone, which is one too.
#[tactic(auto, unfolding(crate::specs::Shorthands::tilde))]
pub(crate) fn tilde(s: &mut Cursor<'_>) -> Token
    ensures { Reads spec.tilde s.old result s.new }
{
    if s.eat_word(b"~~>") {
        return Token::plain(SyntaxKind::MathShorthand);
    }
    if s.eat_word(b"~>") {
        return Token::plain(SyntaxKind::MathShorthand);
    }
    sign(s, SyntaxKind::MathShorthand)
}

/// A shorthand that begins with a colon, or a cluster.
#[tactic(auto, unfolding(crate::specs::Shorthands::colon))]
pub(crate) fn colon<C: Classes>(s: &mut Cursor<'_>, classes: &C) -> Token
    ensures { Reads (spec.colon (C.classes classes.now)) s.old result s.new }
{
    if s.eat_word(b"::=") {
        return Token::plain(SyntaxKind::MathShorthand);
    }
    if s.eat_word(b":=") {
        return Token::plain(SyntaxKind::MathShorthand);
    }
    cluster(s, classes)
}

/// A shorthand that begins with an equals sign, or a cluster.
#[tactic(auto, unfolding(crate::specs::Shorthands::equals))]
pub(crate) fn equals<C: Classes>(s: &mut Cursor<'_>, classes: &C) -> Token
    ensures { Reads (spec.equals (C.classes classes.now)) s.old result s.new }
{
    if s.eat_word(b"==>") {
        return Token::plain(SyntaxKind::MathShorthand);
    }
    if s.eat_word(b"=>") {
        return Token::plain(SyntaxKind::MathShorthand);
    }
    if s.eat_word(b"=:") {
        return Token::plain(SyntaxKind::MathShorthand);
    }
    cluster(s, classes)
}

/// A shorthand that begins with `>`, or a cluster.
#[tactic(auto, unfolding(crate::specs::Shorthands::greater))]
pub(crate) fn greater<C: Classes>(s: &mut Cursor<'_>, classes: &C) -> Token
    ensures { Reads (spec.greater (C.classes classes.now)) s.old result s.new }
{
    if s.eat_word(b">->") {
        return Token::plain(SyntaxKind::MathShorthand);
    }
    if s.eat_word(b">>>") {
        return Token::plain(SyntaxKind::MathShorthand);
    }
    if s.eat_word(b">=") {
        return Token::plain(SyntaxKind::MathShorthand);
    }
    if s.eat_word(b">>") {
        return Token::plain(SyntaxKind::MathShorthand);
    }
    cluster(s, classes)
}

/// A shorthand that begins with `<`, or a cluster.
#[tactic(auto, unfolding(crate::specs::Shorthands::less))]
pub(crate) fn less<C: Classes>(s: &mut Cursor<'_>, classes: &C) -> Token
    ensures { Reads (spec.less (C.classes classes.now)) s.old result s.new }
{
    if s.eat_word(b"<==>") {
        return Token::plain(SyntaxKind::MathShorthand);
    }
    if s.eat_word(b"<-->") {
        return Token::plain(SyntaxKind::MathShorthand);
    }
    less_middle(s, classes)
}

/// The shorthands of `<` with three characters, and shorter ones.
#[tactic(auto, unfolding(crate::specs::Shorthands::less_middle))]
fn less_middle<C: Classes>(s: &mut Cursor<'_>, classes: &C) -> Token
    ensures { Reads (spec.less_middle (C.classes classes.now)) s.old result s.new }
{
    if s.eat_word(b"<--") {
        return Token::plain(SyntaxKind::MathShorthand);
    }
    if s.eat_word(b"<-<") {
        return Token::plain(SyntaxKind::MathShorthand);
    }
    if s.eat_word(b"<->") {
        return Token::plain(SyntaxKind::MathShorthand);
    }
    if s.eat_word(b"<<-") {
        return Token::plain(SyntaxKind::MathShorthand);
    }
    if s.eat_word(b"<<<") {
        return Token::plain(SyntaxKind::MathShorthand);
    }
    if s.eat_word(b"<=>") {
        return Token::plain(SyntaxKind::MathShorthand);
    }
    if s.eat_word(b"<==") {
        return Token::plain(SyntaxKind::MathShorthand);
    }
    if s.eat_word(b"<~~") {
        return Token::plain(SyntaxKind::MathShorthand);
    }
    less_short(s, classes)
}

/// The shorthands of `<` with two characters, or a cluster.
#[tactic(auto, unfolding(crate::specs::Shorthands::less_short))]
fn less_short<C: Classes>(s: &mut Cursor<'_>, classes: &C) -> Token
    ensures { Reads (spec.less_short (C.classes classes.now)) s.old result s.new }
{
    if s.eat_word(b"<=") {
        return Token::plain(SyntaxKind::MathShorthand);
    }
    if s.eat_word(b"<<") {
        return Token::plain(SyntaxKind::MathShorthand);
    }
    if s.eat_word(b"<-") {
        return Token::plain(SyntaxKind::MathShorthand);
    }
    if s.eat_word(b"<~") {
        return Token::plain(SyntaxKind::MathShorthand);
    }
    cluster(s, classes)
}

/// A shorthand, or a bar with a bracket, which closes a delimited part.
#[tactic(auto, unfolding(crate::specs::Shorthands::bar))]
pub(crate) fn bar<C: Classes>(s: &mut Cursor<'_>, classes: &C) -> Token
    ensures { Reads (spec.bar (C.classes classes.now)) s.old result s.new }
{
    if s.eat_word(b"|->") {
        return Token::plain(SyntaxKind::MathShorthand);
    }
    if s.eat_word(b"|=>") {
        return Token::plain(SyntaxKind::MathShorthand);
    }
    if s.eat_word(b"||") {
        return Token::plain(SyntaxKind::MathShorthand);
    }
    if s.eat_word(b"|]") {
        return Token::plain(SyntaxKind::RightBrace);
    }
    cluster(s, classes)
}

/// A bracket, or one with a bar, which opens a delimited part.
#[tactic(auto, unfolding(crate::specs::Shorthands::bracket))]
pub(crate) fn bracket(s: &mut Cursor<'_>) -> Token
    ensures { Reads spec.bracket s.old result s.new }
{
    s.eat();
    if s.eat_if('|') {
        return Token::plain(SyntaxKind::LeftBrace);
    }
    Token::plain(SyntaxKind::LeftBrace)
}

/// `!=`, or `!` alone.
#[tactic(auto, unfolding(crate::specs::Shorthands::bang))]
pub(crate) fn bang(s: &mut Cursor<'_>) -> Token
    ensures { Reads spec.bang s.old result s.new }
{
    if s.eat_word(b"!=") {
        return Token::plain(SyntaxKind::MathShorthand);
    }
    sign(s, SyntaxKind::Bang)
}

/// Three dots, which are a shorthand, or one dot.
#[tactic(auto, unfolding(crate::specs::Shorthands::dot))]
pub(crate) fn dot(s: &mut Cursor<'_>) -> Token
    ensures { Reads spec.dot s.old result s.new }
{
    if s.eat_word(b"...") {
        return Token::plain(SyntaxKind::MathShorthand);
    }
    sign(s, SyntaxKind::Dot)
}
