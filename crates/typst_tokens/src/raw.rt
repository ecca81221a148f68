//! How far a raw text goes.
ghost use Rattle.std.specs.Prelude.{◌≡◌};
ghost use Rattle.typst_tokens.specs.Raw as spec;
ghost use Rattle.typst_tokens.specs.Reads.{Reads};

use crate::Cursor;
use crate::token::{Fault, Token};
use typst_kinds::SyntaxKind;

/// A raw text: two backticks, or all from some backticks to as many in a row.
pub fn raw(s: &mut Cursor<'_>) -> Token
    ensures { Reads spec.raw s.old result s.new }
{
    let backticks = s.eat_while(&'`').len();
    if backticks == 2 {
        return Token::plain(SyntaxKind::Raw);
    }
    let mut found = 0usize;
    while let Some(c) = s.eat() {
        if c != '`' {
            found = 0;
        } else if found + 1 == backticks {
            return Token::plain(SyntaxKind::Raw);
        } else {
            found += 1;
        }
    }
    Token::faulty(Fault::UnclosedRaw)
}
