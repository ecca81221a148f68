//! References, and content blocks.

ghost use Rattle.std.specs.Prelude.{◌≡◌, ◌<◌};
ghost use Rattle.typst_language.specs.Steps.{read_block};
ghost use Rattle.typst_language.specs.Hand.{as_at_hand};
ghost use Rattle.typst_language.specs.View.{MeansLast};
ghost use Rattle.typst_markup.specs.Markup as spec;
ghost use Rattle.typst_markup.specs.Outside.{MeansOutside};

use crate::sequences::run_with_trivia;
use crate::stops::Stop;
use std::alloc::AllocError;
use typst_kinds::{SyntaxKind, SyntaxMode};
use typst_language::{AtNewline, Block, Levels, Parser, Reading};

/// Reads `[ .. ]` as markup, whatever is around it. What comes after it isn't asked for.
pub fn content_block<L: Levels>(g: &L, p: &mut Parser<'_>) -> Result<(), AllocError>
    requires { L.may_call g.now }
    ensures { MeansLast (L.frame g.now) spec.content_block p.old result p.new }
{
    let from = p.marker();
    let outer = p.enter(Reading {
        mode: SyntaxMode::Markup,
        at_newline: AtNewline::Continue,
    });
    p.pass(g)?;
    run_with_trivia(g, p, Stop::Block)?;
    let closed = p.close_if(p.current() == SyntaxKind::RightBracket, g)?;
    p.leave_unasked(outer);
    p.wrap_enclosed(from, SyntaxKind::ContentBlock, closed)?;
    Ok(())
}

/// Reads a content block as a unit, which is noted where it begins and where it ends.
pub fn read_content<L: Levels>(g: &L, p: &mut Parser<'_>) -> Result<(), AllocError>
    requires { L.may_call g.now }
    ensures { MeansOutside (L.frame g.now) (read_block Block.Content) p.old result p.new }
{
    p.open_block(Block::Content, g)?;
    content_block(g, p)?;
    p.close_block(g)?;
    Ok(())
}

/// Reads a content block, if one begins here without trivia before it.
fn direct_content<L: Levels>(g: &L, p: &mut Parser<'_>) -> Result<(), AllocError>
    requires { L.may_call g.now }
    ensures { MeansOutside (L.frame g.now) spec.direct_content p.old result p.new }
{
    if opens_directly(p) {
        read_content(g, p)?;
    }
    Ok(())
}

/// Reads `@name`, and a content block directly after it.
pub fn reference<L: Levels>(g: &L, p: &mut Parser<'_>) -> Result<(), AllocError>
    requires { L.may_call g.now }
    ensures { MeansOutside (L.frame g.now) spec.reference p.old result p.new }
{
    let from = p.marker();
    p.eat(g)?;
    direct_content(g, p)?;
    p.wrap(from, SyntaxKind::Ref)?;
    Ok(())
}

/// Whether a content block begins at the current token, without trivia before it.
pub fn opens_directly(p: &Parser<'_>) -> bool
    ensures { result ≡ spec.opens_directly (as_at_hand p.now.hand) }
{
    p.current() == SyntaxKind::LeftBracket && !p.had_trivia()
}
