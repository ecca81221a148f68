//! Labels.
ghost use Rattle.typst_tokens.specs.Reads.{Reads};
ghost use Rattle.typst_tokens.specs.Labels as spec;

use crate::Cursor;
use crate::token::{Fault, Token};
use typst_kinds::SyntaxKind;
use typst_lines::classes::Classes;
use typst_lines::labels::InName;

/// A label, from `<` to `>`.
#[tactic(auto, unfolding(crate::specs::Labels::label))]
pub fn label<C: Classes>(s: &mut Cursor<'_>, classes: &C) -> Token
    ensures { Reads (spec.label (C.classes classes.now)) s.old result s.new }
{
    s.eat();
    s.eat_while(&InName(classes));
    if s.eat_if('>') {
        return Token::plain(SyntaxKind::Label);
    }
    Token::faulty(Fault::UnclosedLabel)
}
