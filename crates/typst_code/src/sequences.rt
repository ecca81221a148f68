//! Sequences of code, and code blocks.

ghost use Rattle.std.specs.Prelude.{◌≡◌};
ghost use Rattle.typst_language.specs.Steps.{read_block};
ghost use Rattle.typst_language.specs.Syntax.Parser.{repeat};
ghost use Rattle.typst_language.specs.View.{Means, MeansBy, MeansLast};
ghost use Rattle.typst_code.specs.Sequences as spec;
ghost use Rattle.typst_code.specs.Outside.{MeansAround};
ghost use Rattle.typst_code.specs.Stops.{stops_at};

use crate::stops::CodeStop;
use std::alloc::AllocError;
use typst_bindings::code_expression;
use typst_kinds::{SyntaxKind, SyntaxMode};
use typst_language::{AtNewline, Block, Levels, Parser, Reading, Stops, too_deep};
use typst_markup::begins_code;

/// Reads statements up to a stop.
pub fn code_exprs<L: Levels>(g: &L, p: &mut Parser<'_>, stop: CodeStop) -> Result<(), AllocError>
    requires { L.may_call g.now }
    ensures { Means (L.frame g.now) (spec.code_exprs (stops_at stop)) p.old result p.new }
{
    if g.levels() == 0 {
        too_deep(g, p, &stop)?;
        return Ok(());
    }
    code_turns(g, p, stop)?;
    Ok(())
}

fn code_turns<L: Levels>(g: &L, p: &mut Parser<'_>, stop: CodeStop) -> Result<(), AllocError>
    requires { L.may_call g.now }
    ensures { Means (L.frame g.now) (repeat (spec.code_turn (stops_at stop)) tt) p.old result p.new }
{
    'turns: loop {
        let before = p.left();
        let more = code_turn(g, p, stop)?;
        if !p.goes_on(more, before) {
            return Ok(());
        }
    }
}

/// Reads a statement, unless a stop comes; answers whether it did.
fn code_turn<L: Levels>(g: &L, p: &mut Parser<'_>, stop: CodeStop) -> Result<bool, AllocError>
    requires { L.may_call g.now }
    ensures { MeansBy (L.frame g.now) (λ more. (more, tt)) (spec.code_turn (stops_at stop) tt) p.old result p.new }
{
    if stop.has(p.current()) {
        return Ok(false);
    }
    let outer = p.enter_rule(AtNewline::ContextualContinue);
    statement(g, p, stop)?;
    p.leave(outer, g)?;
    Ok(true)
}

/// Reads an expression up to where its statement ends.
fn statement<L: Levels>(g: &L, p: &mut Parser<'_>, stop: CodeStop) -> Result<(), AllocError>
    requires { L.may_call g.now }
    ensures { Means (L.frame g.now) (spec.statement (stops_at stop)) p.old result p.new }
{
    if !begins_code(p.current()) {
        p.unexpected(g)?;
        return Ok(());
    }
    code_expression(g, p)?;
    statement_end(g, p, stop)?;
    Ok(())
}

/// Reads the end of a statement: a semicolon, unless the sequence stops.
fn statement_end<L: Levels>(g: &L, p: &mut Parser<'_>, stop: CodeStop) -> Result<(), AllocError>
    ensures { Means (L.frame g.now) (spec.statement_end (stops_at stop)) p.old result p.new }
{
    if stop.has(p.current()) {
        return Ok(());
    }
    if p.current() == SyntaxKind::Semicolon {
        p.eat(g)?;
        return Ok(());
    }
    missing_break(g, p)?;
    Ok(())
}

/// Says that a statement doesn't end; at a label, with hints.
#[cold]
fn missing_break<L: Levels>(g: &L, p: &mut Parser<'_>) -> Result<(), AllocError>
    ensures { Means (L.frame g.now) spec.missing_break p.old result p.new }
{
    p.expected("semicolon or line break", g)?;
    if p.current() == SyntaxKind::Label {
        p.hint("labels can only be applied in markup mode")?;
        p.hint("try wrapping your code in a markup block (`[ ]`)")?;
    }
    Ok(())
}

/// Reads `{ .. }`. What comes after it isn't asked for.
pub fn code_block<L: Levels>(g: &L, p: &mut Parser<'_>) -> Result<(), AllocError>
    requires { L.may_call g.now }
    ensures { MeansLast (L.frame g.now) spec.code_block p.old result p.new }
{
    let from = p.marker();
    let outer = p.enter(Reading {
        mode: SyntaxMode::Code,
        at_newline: AtNewline::Continue,
    });
    p.eat(g)?;
    code(g, p)?;
    let closed = p.close_if(p.current() == SyntaxKind::RightBrace, g)?;
    p.leave_unasked(outer);
    p.wrap_enclosed(from, SyntaxKind::CodeBlock, closed)?;
    Ok(())
}

/// Reads the statements of a code block as one node.
fn code<L: Levels>(g: &L, p: &mut Parser<'_>) -> Result<(), AllocError>
    requires { L.may_call g.now }
    ensures { Means (L.frame g.now) (spec.code spec.ends_code) p.old result p.new }
{
    let from = p.marker();
    code_exprs(g, p, CodeStop::Block)?;
    p.wrap(from, SyntaxKind::Code)?;
    Ok(())
}

/// Reads a code block as a unit, which is noted where it begins and where it ends.
pub(crate) fn read_code<L: Levels>(g: &L, p: &mut Parser<'_>) -> Result<(), AllocError>
    requires { L.may_call g.now }
    ensures { MeansAround (L.frame g.now) (read_block Block.Code) p.old result p.new }
{
    p.open_block(Block::Code, g)?;
    code_block(g, p)?;
    p.close_block(g)?;
    Ok(())
}
