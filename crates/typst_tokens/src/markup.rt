//! The tokens of markup.
ghost use Rattle.std.specs.Prelude.{◌≡◌, Bool, IfOk};
ghost use Rattle.typst_tokens.specs.Markup as spec;
ghost use Rattle.typst_tokens.specs.Reader.{Reader};
ghost use Rattle.typst_tokens.specs.Reads.{Reads};
ghost use Rattle.typst_tokens.specs.Sight.{sight};
ghost use Rattle.typst_tokens.specs.declared.token.Token.{Token};
ghost use Rattle.typst_lines.specs.Place.{passes};
ghost use Rattle.typst_tokens.specs.Memory.{Memory};

use crate::common::sign;
use crate::escapes::backslash;
use crate::link::link_or_text;
use crate::names::{label_or_text, ref_or_text};
use crate::sets::{AsciiDigits, is_u64};
use crate::text::{text, text_from};
use crate::{Cursor, Token};
use std::alloc::{AllocError, Global};
use typst_kinds::SyntaxKind;
use typst_lines::classes::Classes;

/// A token that begins with the character, which comes next. Memory is taken only for the brackets of a link.
#[inline(always)]
#[tactic(auto, unfolding(crate::specs::Markup::markup))]
pub fn markup<C: Classes>(
    alloc: Global,
    s: &mut Cursor<'_>,
    c: char,
    classes: &C,
) -> Result<Token, AllocError>
    ensures { IfOk result (λ token. Reads (spec.markup (C.classes classes.now) c) s.old token s.new) }
{
    match c {
        '\\' => Ok(backslash(s)),
        'h' => Ok(link_or_text(alloc, s, classes)?),
        '<' => Ok(label_or_text(s, classes)),
        '@' => Ok(ref_or_text(s, classes)),
        '.' => Ok(dot(s, classes)),
        '-' => Ok(minus(s, classes)),
        '*' => Ok(emphasis(s, SyntaxKind::Star, classes)),
        '_' => Ok(emphasis(s, SyntaxKind::Underscore, classes)),
        '#' => Ok(sign(s, SyntaxKind::Hash)),
        '[' => Ok(sign(s, SyntaxKind::LeftBracket)),
        ']' => Ok(sign(s, SyntaxKind::RightBracket)),
        '\'' | '"' => Ok(sign(s, SyntaxKind::SmartQuote)),
        '$' => Ok(sign(s, SyntaxKind::Dollar)),
        '~' => Ok(sign(s, SyntaxKind::Shorthand)),
        ':' => Ok(sign(s, SyntaxKind::Colon)),
        '=' => Ok(heading(s, classes)),
        '+' => Ok(marker(s, SyntaxKind::EnumMarker, classes)),
        '/' => Ok(marker(s, SyntaxKind::TermMarker, classes)),
        '0'..='9' => Ok(numbering(s, classes)),
        _ => Ok(text_from(s, classes)),
    }
}

#[tactic(auto, unfolding(crate::specs::Markup::dot))]
fn dot<C: Classes>(s: &mut Cursor<'_>, classes: &C) -> Token
    ensures { Reads (spec.dot (C.classes classes.now)) s.old result s.new }
{
    s.eat();
    if s.eat_word(b"..") {
        Token::plain(SyntaxKind::Shorthand)
    } else {
        text(s, classes)
    }
}

#[tactic(auto, unfolding(crate::specs::Markup::minus))]
fn minus<C: Classes>(s: &mut Cursor<'_>, classes: &C) -> Token
    ensures { Reads (spec.minus (C.classes classes.now)) s.old result s.new }
{
    s.eat();
    hyphen(s, classes)
}

/// What a hyphen begins, from after it on: a shorthand, a list marker or a text.
#[tactic(auto, unfolding(crate::specs::Markup::hyphen))]
fn hyphen<C: Classes>(s: &mut Cursor<'_>, classes: &C) -> Token
    ensures { Reads (spec.hyphen (C.classes classes.now)) s.old result s.new }
{
    if s.eat_if('-') {
        s.eat_if('-');
        return Token::plain(SyntaxKind::Shorthand);
    }
    if s.eat_if('?') {
        return Token::plain(SyntaxKind::Shorthand);
    }
    match s.peek() {
        Some(c) if classes.is_numeric(c) => Token::plain(SyntaxKind::Shorthand),
        _ => marker_or_text(s, SyntaxKind::ListMarker, classes),
    }
}

/// A star or an underscore.
#[tactic(auto, unfolding(crate::specs::Markup::emphasis))]
fn emphasis<C: Classes>(s: &mut Cursor<'_>, kind: SyntaxKind, classes: &C) -> Token
    ensures { Reads (spec.emphasis (C.classes classes.now) kind) s.old result s.new }
{
    if is_word(s.last(), classes) && is_word(s.second(), classes) {
        return text_from(s, classes);
    }
    sign(s, kind)
}

fn is_word<C: Classes>(c: Option<char>, classes: &C) -> bool
    ensures { result ≡ passes (C.classes classes.now).word c }
{
    match c {
        Some(c) => classes.is_word(c),
        None => false,
    }
}

#[tactic(auto, unfolding(crate::specs::Markup::heading))]
fn heading<C: Classes>(s: &mut Cursor<'_>, classes: &C) -> Token
    ensures { Reads (spec.heading (C.classes classes.now)) s.old result s.new }
{
    s.eat_while(&'=');
    marker_or_text(s, SyntaxKind::HeadingMarker, classes)
}

#[tactic(auto, unfolding(crate::specs::Markup::numbering))]
fn numbering<C: Classes>(s: &mut Cursor<'_>, classes: &C) -> Token
    ensures { Reads (spec.numbering (C.classes classes.now)) s.old result s.new }
{
    let digits = s.eat_while(&AsciiDigits);
    if !s.eat_if('.') {
        return text(s, classes);
    }
    if is_u64(digits) {
        return marker_or_text(s, SyntaxKind::EnumMarker, classes);
    }
    text(s, classes)
}

/// A marker of one character, or a text that it begins.
#[tactic(auto, unfolding(crate::specs::Markup::marker))]
fn marker<C: Classes>(s: &mut Cursor<'_>, kind: SyntaxKind, classes: &C) -> Token
    ensures { Reads (spec.marker (C.classes classes.now) kind) s.old result s.new }
{
    s.eat();
    marker_or_text(s, kind, classes)
}

/// A marker that was eaten if it may end here, else what is left of a text.
#[tactic(auto, unfolding(crate::specs::Markup::marker_or_text))]
fn marker_or_text<C: Classes>(s: &mut Cursor<'_>, kind: SyntaxKind, classes: &C) -> Token
    ensures { Reads (spec.marker_or_text (C.classes classes.now) kind) s.old result s.new }
{
    if space_or_end(s) {
        Token::plain(kind)
    } else {
        text(s, classes)
    }
}

/// Whether a marker may end here: at the end, at whitespace or at a comment.
fn space_or_end(s: &mut Cursor<'_>) -> bool
    ensures { (go_on : Bool → Reader Memory Token) → sight (spec.marker_end go_on) s.old ≡ sight (go_on result) s.new }
{
    match s.peek() {
        None => true,
        Some('/') => matches!(s.second(), Some('/' | '*')),
        Some(c) => c.is_whitespace(),
    }
}
