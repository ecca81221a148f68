//! Escapes.
ghost use Rattle.std.specs.Str.{chars};
ghost use Rattle.typst_tokens.specs.Reads.{Reads};
ghost use Rattle.typst_tokens.specs.Escapes as spec;

use crate::Cursor;
use crate::sets::{AsciiAlphanumeric, is_code_point};
use crate::token::{Fault, Token};
use typst_kinds::SyntaxKind;

/// A backslash: an escape, or a line break.
#[tactic(auto, unfolding(crate::specs::Escapes::backslash))]
pub fn backslash(s: &mut Cursor<'_>) -> Token
    ensures { Reads spec.backslash s.old result s.new }
{
    s.eat();
    if s.eat_word(b"u{") {
        let digits = s.eat_while(&AsciiAlphanumeric);
        return code_point(s, digits);
    }
    match s.peek() {
        Some(c) if !c.is_whitespace() => {
            s.eat();
            Token::plain(SyntaxKind::Escape)
        }
        _ => Token::plain(SyntaxKind::Linebreak),
    }
}

/// The end of an escape by a code point.
#[tactic(auto, unfolding(crate::specs::Escapes::code_point))]
fn code_point(s: &mut Cursor<'_>, digits: &str) -> Token
    ensures { Reads (spec.code_point (chars digits.now)) s.old result s.new }
{
    if !s.eat_if('}') {
        return Token::faulty(Fault::UnclosedEscape);
    }
    if is_code_point(digits) {
        Token::plain(SyntaxKind::Escape)
    } else {
        Token::faulty(Fault::InvalidEscape)
    }
}
