//! Sequences of markup.

ghost use Rattle.std.specs.Prelude.{◌≡◌};
ghost use Rattle.typst_language.specs.Syntax.Parser.{repeat};
ghost use Rattle.typst_language.specs.View.{Means, MeansFirst};
ghost use Rattle.typst_markup.specs.Markup as spec;
ghost use Rattle.typst_markup.specs.Stops.{stops_at};

use crate::stops::Stop;
use std::alloc::AllocError;
use typst_kinds::SyntaxKind;
use typst_language::{Carried, Levels, Mark, Parser, Stops, deeper_markup_expr, too_deep};

/// Reads expressions up to a stop.
pub fn markup_exprs<L: Levels>(
    g: &L,
    p: &mut Parser<'_>,
    at_start: bool,
    stop: Stop,
) -> Result<(), AllocError>
    requires { L.may_call g.now }
    ensures { Means (L.frame g.now) (spec.markup_exprs at_start (stops_at stop)) p.old result p.new }
{
    if g.levels() == 0 {
        too_deep(g, p, &stop)?;
        return Ok(());
    }
    let at_start = at_start | p.had_newline();
    markup_turns(g, p, false, stop, at_start)?;
    Ok(())
}

/// Reads the expressions of a text or of a content block, at the start of a line, up to a stop. Its
/// first piece is noted before anything is asked.
pub fn markup_run<L: Levels>(g: &L, p: &mut Parser<'_>, stop: Stop) -> Result<(), AllocError>
    requires { L.may_call g.now }
    ensures { MeansFirst (L.frame g.now) (spec.markup_run (stops_at stop)) p.old result p.new }
{
    if g.levels() == 0 {
        p.look(g)?;
        too_deep(g, p, &stop)?;
        return Ok(());
    }
    p.note_here(Mark::Piece(true, 0), g)?;
    p.look(g)?;
    markup_turns(g, p, true, stop, true)?;
    Ok(())
}

/// Reads expressions up to a stop, and notes them in a run; answers what is carried after the last.
fn markup_turns<L: Levels>(
    g: &L,
    p: &mut Parser<'_>,
    is_run: bool,
    stop: Stop,
    at_start: bool,
) -> Result<Carried, AllocError>
    requires { L.may_call g.now }
    ensures { Means (L.frame g.now) (repeat (spec.markup_turn is_run (stops_at stop)) (at_start, 0)) p.old result p.new }
{
    let mut carried = (at_start, 0usize);
    'turns: loop {
        let before = p.left();
        let (more, next) = markup_turn(g, p, is_run, stop, carried)?;
        carried = next;
        if !p.goes_on(more, before) {
            return Ok(next);
        }
    }
}

/// Reads one expression, unless a stop comes; answers whether it did, and what is carried after it.
pub fn markup_turn<L: Levels>(
    g: &L,
    p: &mut Parser<'_>,
    is_run: bool,
    stop: Stop,
    carried: Carried,
) -> Result<(bool, Carried), AllocError>
    requires { L.may_call g.now }
    ensures { Means (L.frame g.now) (spec.markup_turn is_run (stops_at stop) carried) p.old result p.new }
{
    let (at_start, nesting) = carried;
    if ends(stop, nesting, p.current()) {
        return Ok((false, carried));
    }
    let nesting = deeper_markup_expr(g, p, at_start, nesting)?;
    let has_newline = p.had_newline();
    note_piece(g, p, is_run, has_newline, nesting)?;
    Ok((true, (has_newline, nesting)))
}

/// Notes, in a run, that an expression ended and the next one may begin.
fn note_piece<L: Levels>(
    g: &L,
    p: &mut Parser<'_>,
    is_run: bool,
    at_start: bool,
    nesting: usize,
) -> Result<(), AllocError>
    ensures { Means (L.frame g.now) (spec.note_piece is_run at_start nesting) p.old result p.new }
{
    if is_run {
        p.note(Mark::Piece(at_start, nesting), g)?;
    }
    Ok(())
}

/// Reads a sequence as one node, which begins at its first token.
pub fn markup<L: Levels>(
    g: &L,
    p: &mut Parser<'_>,
    at_start: bool,
    stop: Stop,
) -> Result<(), AllocError>
    requires { L.may_call g.now }
    ensures { Means (L.frame g.now) (spec.markup at_start (stops_at stop)) p.old result p.new }
{
    let from = p.marker();
    markup_exprs(g, p, at_start, stop)?;
    p.wrap(from, SyntaxKind::Markup)?;
    Ok(())
}

/// Reads a sequence as one node, with the trivia at both ends; answers whether it is empty.
pub fn markup_with_trivia<L: Levels>(
    g: &L,
    p: &mut Parser<'_>,
    at_start: bool,
    stop: Stop,
) -> Result<bool, AllocError>
    requires { L.may_call g.now }
    ensures { Means (L.frame g.now) (spec.markup_is_empty (spec.markup_exprs at_start (stops_at stop))) p.old result p.new }
{
    let from = p.before_trivia();
    markup_exprs(g, p, at_start, stop)?;
    p.flush_trivia()?;
    Ok(p.wrap(from, SyntaxKind::Markup)?)
}

/// Reads a run as one node, with the trivia at both ends; answers whether it is empty. Nothing was asked before
/// it.
pub fn run_with_trivia<L: Levels>(g: &L, p: &mut Parser<'_>, stop: Stop) -> Result<bool, AllocError>
    requires { L.may_call g.now }
    ensures { MeansFirst (L.frame g.now) (spec.markup_is_empty (spec.markup_run (stops_at stop))) p.old result p.new }
{
    let from = p.before_trivia();
    markup_run(g, p, stop)?;
    p.flush_trivia()?;
    Ok(p.wrap(from, SyntaxKind::Markup)?)
}

/// Whether a sequence ends at this token. It goes on past a bracket that closes one opened in it.
fn ends(stop: Stop, nesting: usize, kind: SyntaxKind) -> bool
    ensures { result ≡ spec.ends (stops_at stop) nesting kind }
{
    if kind == SyntaxKind::RightBracket {
        stop.has(kind) && nesting == 0
    } else {
        stop.has(kind)
    }
}
