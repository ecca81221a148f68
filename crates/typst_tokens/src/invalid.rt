//! Characters that no token of code begins with.
ghost use Rattle.typst_tokens.specs.Invalid as spec;
ghost use Rattle.typst_tokens.specs.Reads.{Reads};

use crate::{Cursor, Fault, Token};

/// An error: the character, which comes next, begins no token of code.
#[inline(always)]
#[tactic(auto, unfolding(crate::specs::Invalid::invalid))]
pub(crate) fn invalid(s: &mut Cursor<'_>, c: char) -> Token
    ensures { Reads (spec.invalid c) s.old result s.new }
{
    if s.last() == Some('#') {
        return wrong(s, Fault::HashedCharacter);
    }
    match c {
        '&' => foreign(s, '&'),
        '|' => foreign(s, '|'),
        '~' => foreign(s, '='),
        _ => wrong(s, Fault::InvalidCharacter),
    }
}

fn wrong(s: &mut Cursor<'_>, fault: Fault) -> Token
    ensures { Reads (spec.wrong fault) s.old result s.new }
{
    s.eat();
    Token::faulty(fault)
}

/// An error: an operator of other languages if the second character follows, or else the next character alone.
#[tactic(auto, unfolding(crate::specs::Invalid::foreign))]
fn foreign(s: &mut Cursor<'_>, second: char) -> Token
    ensures { Reads (spec.foreign second) s.old result s.new }
{
    s.eat();
    if s.eat_if(second) {
        return Token::faulty(Fault::InvalidOperator);
    }
    Token::faulty(Fault::InvalidCharacter)
}
