//! Formulas between dollars, and sequences of their expressions.

ghost use Rattle.std.specs.Prelude.{◌≡◌};
ghost use Rattle.typst_kinds.specs.Kinds.{among};
ghost use Rattle.typst_kinds.specs.Sets.{math_expr};
ghost use Rattle.typst_language.specs.Syntax.Parser.{repeat};
ghost use Rattle.typst_language.specs.View.{Means};
ghost use Rattle.typst_markup.specs.Equations as spec;
ghost use Rattle.typst_markup.specs.Stops.{math_stops_at};

use crate::stops::MathStop;
use std::alloc::AllocError;
use typst_kinds::{SyntaxKind, SyntaxMode, set};
use typst_language::{
    AtNewline, ChainSet, Levels, Parser, Reading, Stops, deeper_math_expr, too_deep,
};

/// No signs of attachments.
pub fn no_signs() -> ChainSet
    ensures { result ≡ spec.no_signs }
{
    ChainSet {
        hat: false,
        underscore: false,
    }
}

/// Reads an expression with all its operators.
fn math_expression<L: Levels>(g: &L, p: &mut Parser<'_>) -> Result<(), AllocError>
    requires { L.may_call g.now }
    ensures { Means (L.frame g.now) spec.math_expression p.old result p.new }
{
    deeper_math_expr(g, p, 0, no_signs())?;
    Ok(())
}

/// Reads an expression. A token that begins none is unexpected.
fn math_item<L: Levels>(g: &L, p: &mut Parser<'_>) -> Result<(), AllocError>
    requires { L.may_call g.now }
    ensures { Means (L.frame g.now) spec.math_item p.old result p.new }
{
    if begins_math(p.current()) {
        math_expression(g, p)?;
        return Ok(());
    }
    p.unexpected(g)?;
    Ok(())
}

/// Whether an expression begins at this token.
fn begins_math(kind: SyntaxKind) -> bool
    ensures { result ≡ among math_expr kind }
{
    set::named_sets();
    set::MATH_EXPR.contains(kind)
}

/// Reads one more expression, unless a stop comes; answers whether it did, and how many there are.
fn math_turn<L: Levels>(
    g: &L,
    p: &mut Parser<'_>,
    stop: MathStop,
    count: usize,
) -> Result<(bool, usize), AllocError>
    requires { L.may_call g.now }
    ensures { Means (L.frame g.now) (spec.math_turn (math_stops_at stop) count) p.old result p.new }
{
    if stop.has(p.current()) {
        return Ok((false, count));
    }
    math_item(g, p)?;
    Ok((true, count.saturating_add(1)))
}

fn math_turns<L: Levels>(g: &L, p: &mut Parser<'_>, stop: MathStop) -> Result<usize, AllocError>
    requires { L.may_call g.now }
    ensures { Means (L.frame g.now) (repeat (spec.math_turn (math_stops_at stop)) 0) p.old result p.new }
{
    let mut count = 0;
    'turns: loop {
        let before = p.left();
        let (more, next) = math_turn(g, p, stop, count)?;
        count = next;
        if !p.goes_on(more, before) {
            return Ok(next);
        }
    }
}

/// Reads expressions up to a stop; answers how many there are, of which what is too deep is one.
pub fn math_exprs<L: Levels>(g: &L, p: &mut Parser<'_>, stop: MathStop) -> Result<usize, AllocError>
    requires { L.may_call g.now }
    ensures { Means (L.frame g.now) (spec.math_exprs (math_stops_at stop)) p.old result p.new }
{
    if g.levels() == 0 {
        too_deep(g, p, &stop)?;
        return Ok(1);
    }
    Ok(math_turns(g, p, stop)?)
}

/// Reads the expressions of a formula as one node.
fn math<L: Levels>(g: &L, p: &mut Parser<'_>) -> Result<(), AllocError>
    requires { L.may_call g.now }
    ensures { Means (L.frame g.now) spec.math p.old result p.new }
{
    let from = p.marker();
    math_exprs(g, p, MathStop::Equation)?;
    p.wrap(from, SyntaxKind::Math)?;
    Ok(())
}

/// Reads two dollars and what is between them; answers whether the second one came.
fn between_dollars<L: Levels>(g: &L, p: &mut Parser<'_>) -> Result<bool, AllocError>
    requires { L.may_call g.now }
    ensures { Means (L.frame g.now) spec.between_dollars p.old result p.new }
{
    let outer = p.enter(Reading {
        mode: SyntaxMode::Math,
        at_newline: AtNewline::Continue,
    });
    p.eat(g)?;
    math(g, p)?;
    if p.current() != SyntaxKind::Dollar {
        p.leave(outer, g)?;
        return Ok(false);
    }
    p.pass(g)?;
    p.leave_unasked(outer);
    p.look(g)?;
    Ok(true)
}

/// Reads `$ .. $` as one node.
pub fn equation<L: Levels>(g: &L, p: &mut Parser<'_>) -> Result<(), AllocError>
    requires { L.may_call g.now }
    ensures { Means (L.frame g.now) spec.equation p.old result p.new }
{
    let from = p.marker();
    let closed = between_dollars(g, p)?;
    p.wrap_enclosed(from, SyntaxKind::Equation, closed)?;
    Ok(())
}
