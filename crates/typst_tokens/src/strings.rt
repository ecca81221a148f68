//! Strings.
ghost use Rattle.typst_tokens.specs.Strings as spec;
ghost use Rattle.typst_tokens.specs.Reads.{Reads};

use crate::{Cursor, Fault, Token};
use typst_kinds::SyntaxKind;

/// A string, from one quotation mark to another. A backslash takes the next character with it.
pub fn string(s: &mut Cursor<'_>) -> Token
    ensures { Reads spec.string s.old result s.new }
{
    s.eat();
    let mut escaped = false;
    while let Some(c) = s.eat() {
        if escaped {
            escaped = false;
        } else if c == '"' {
            return Token::plain(SyntaxKind::Str);
        } else {
            escaped = c == '\\';
        }
    }
    Token::faulty(Fault::UnclosedString)
}
