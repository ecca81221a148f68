//! Links.
ghost use Rattle.std.specs.Prelude.{IfOk};
ghost use Rattle.typst_tokens.specs.Link as spec;
ghost use Rattle.typst_tokens.specs.Reads.{Reads};

use crate::text::text;
use crate::{Cursor, Fault, Token};
use std::alloc::{AllocError, Global};
use typst_kinds::SyntaxKind;
use typst_lines::classes::Classes;
use typst_lines::links::{eat_front, without_last_signs};

/// A link if the scheme of one comes next, or a text that `h` begins.
#[tactic(auto, unfolding(crate::specs::Link::link_or_text))]
pub(crate) fn link_or_text<C: Classes>(
    alloc: Global,
    s: &mut Cursor<'_>,
    classes: &C,
) -> Result<Token, AllocError>
    ensures { IfOk result (λ token. Reads (spec.link_or_text (C.classes classes.now)) s.old token s.new) }
{
    s.eat();
    if s.eat_word(b"ttp://") {
        return Ok(link(alloc, s)?);
    }
    if s.eat_word(b"ttps://") {
        return Ok(link(alloc, s)?);
    }
    Ok(text(s, classes))
}

/// What is left of a link, after its scheme. Memory is taken only where there are brackets.
fn link(alloc: Global, s: &mut Cursor<'_>) -> Result<Token, AllocError>
    ensures { IfOk result (λ token. Reads spec.link s.old token s.new) }
{
    let start = s.ahead();
    let mut end = start;
    let is_balanced = eat_front(alloc, &mut end)?;
    s.saw_to(&end);
    s.skip(without_last_signs(end.since(&start)));
    if is_balanced {
        return Ok(Token::plain(SyntaxKind::Link));
    }
    Ok(Token::faulty(Fault::UnbalancedLink))
}
