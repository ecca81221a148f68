//! The knot: what is read one level deeper, and whole texts.

ghost use Rattle.std.specs.Prelude.{◌≡◌, ◌<◌, IfOk, false};
ghost use Rattle.std.specs.Str.{chars};
ghost use Rattle.typst_language.specs.View.{Calls, MeansFirst};
ghost use Rattle.typst_language.specs.Calls.Call.{MarkupExpr, CodeExpr, MathExpr, Pattern};
ghost use Rattle.typst_grammar.specs.Grammar as spec;
ghost use Rattle.typst_grammar.specs.Read.{IsParsed};
ghost use Rattle.typst_grammar.specs.Guessing.{guessing_at};

use std::alloc::{AllocError, Global};
use typst_code::{
    CodeStop, MathStop, Stop, code_expr, code_exprs, markup_expr, markup_run, math_expr,
    math_exprs, pattern,
};
use typst_kinds::{Names, SyntaxMode};
use typst_language::{AtNewline, ChainSet, Grammar, Levels, Parser, Reading, Role};
use typst_lines::Classes;

/// How deep calls may nest.
pub const MAX_DEPTH: usize = 256;

/// A grammar whose calls are made by the functions below, with these classes and a given number of levels.
macro_rules! grammar {
    ($classes:expr, $levels:expr) => {
        Grammar {
            classes: $classes,
            levels: $levels,
            markup_expr: call_markup_expr,
            code_expr: call_code_expr,
            math_expr: call_math_expr,
            pattern: call_pattern,
        }
    };
}

pub(crate) use grammar;

/// Reads an expression of markup where a given number of levels are left.
#[cycle(knot)]
pub(crate) fn call_markup_expr<C: Classes>(
    classes: &C,
    p: &mut Parser<'_>,
    levels: usize,
    at_start: bool,
    nesting: usize,
) -> Result<usize, AllocError>
    requires { 0 < levels }
    ensures { Calls (guessing_at (C.classes classes.now) levels) (MarkupExpr at_start nesting) p.old result p.new }
{
    let below = grammar!(classes, levels - 1);
    Ok(markup_expr(&below, p, at_start, nesting)?)
}

/// Reads an expression of code where a given number of levels are left.
#[cycle(knot)]
pub(crate) fn call_code_expr<C: Classes>(
    classes: &C,
    p: &mut Parser<'_>,
    levels: usize,
    atomic: bool,
    least: u8,
) -> Result<(), AllocError>
    requires { 0 < levels }
    ensures { Calls (guessing_at (C.classes classes.now) levels) (CodeExpr atomic least) p.old result p.new }
{
    let below = grammar!(classes, levels - 1);
    Ok(code_expr(&below, p, atomic, least)?)
}

/// Reads an expression of a formula where a given number of levels are left.
#[cycle(knot)]
pub(crate) fn call_math_expr<C: Classes>(
    classes: &C,
    p: &mut Parser<'_>,
    levels: usize,
    least: u8,
    signs: ChainSet,
) -> Result<(), AllocError>
    requires { 0 < levels }
    ensures { Calls (guessing_at (C.classes classes.now) levels) (MathExpr least signs) p.old result p.new }
{
    let below = grammar!(classes, levels - 1);
    Ok(math_expr(&below, p, least, signs)?)
}

/// Reads a pattern where a given number of levels are left.
#[cycle(knot)]
pub(crate) fn call_pattern<C: Classes>(
    classes: &C,
    p: &mut Parser<'_>,
    levels: usize,
    role: Role,
    names: Names,
) -> Result<Names, AllocError>
    requires { 0 < levels }
    ensures { Calls (guessing_at (C.classes classes.now) levels) (Pattern role names) p.old result p.new }
{
    let below = grammar!(classes, levels - 1);
    Ok(pattern(&below, p, role, names)?)
}

/// Reads all of a text from its start, in a mode.
fn read_all<L: Levels>(g: &L, p: &mut Parser<'_>, mode: SyntaxMode) -> Result<(), AllocError>
    requires { L.may_call g.now }
    ensures { MeansFirst (L.frame g.now) (spec.whole_in mode) p.old result p.new }
{
    match mode {
        SyntaxMode::Markup => {
            markup_run(g, p, Stop::End)?;
            p.flush_trivia()?;
            Ok(())
        }
        SyntaxMode::Code => {
            p.look(g)?;
            code_exprs(g, p, CodeStop::End)?;
            p.flush_trivia()?;
            Ok(())
        }
        SyntaxMode::Math => {
            p.look(g)?;
            math_exprs(g, p, MathStop::End)?;
            p.flush_trivia()?;
            Ok(())
        }
    }
}

/// A parser that read a whole text in a mode, and kept notes if `keeps_notes` says so.
pub fn read_whole<'s, C: Classes>(
    alloc: Global,
    text: &'s str,
    mode: SyntaxMode,
    keeps_notes: bool,
    classes: &C,
) -> Result<Parser<'s>, AllocError>
    ensures { IfOk result (λ p. IsParsed keeps_notes (chars text.now) (spec.parsed_in mode (C.classes classes.now) spec.max_depth (chars text.now)) p) }
{
    let reading = Reading {
        mode,
        at_newline: AtNewline::Continue,
    };
    let mut p = Parser::new(alloc, text, reading, keeps_notes)?;
    let g = grammar!(classes, MAX_DEPTH);
    read_all(&g, &mut p, mode)?;
    Ok(p)
}
