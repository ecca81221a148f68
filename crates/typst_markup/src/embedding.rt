//! Code that is embedded in text by a hash.

ghost use Rattle.std.specs.Prelude.{◌≡◌};
ghost use Rattle.typst_language.specs.View.{Means};
ghost use Rattle.typst_markup.specs.Embedded as spec;

use crate::starts::begins_statement;
use std::alloc::AllocError;
use typst_kinds::{SyntaxKind, SyntaxMode};
use typst_language::{AtNewline, Levels, Parser, Reading, deeper_code_expr, is_end};

/// Reads a hash and an expression of code.
pub fn embedded<L: Levels>(g: &L, p: &mut Parser<'_>) -> Result<(), AllocError>
    requires { L.may_call g.now }
    ensures { Means (L.frame g.now) spec.embedded p.old result p.new }
{
    let outer = p.enter(Reading {
        mode: SyntaxMode::Code,
        at_newline: AtNewline::Stop,
    });
    p.eat(g)?;
    embedded_expr(g, p)?;
    p.leave(outer, g)?;
    Ok(())
}

/// Reads an atomic expression directly after a hash.
fn embedded_expr<L: Levels>(g: &L, p: &mut Parser<'_>) -> Result<(), AllocError>
    requires { L.may_call g.now }
    ensures { Means (L.frame g.now) spec.embedded_expr p.old result p.new }
{
    if is_bare(p.current(), p.had_trivia()) {
        p.expected("expression", g)?;
        return Ok(());
    }
    let is_statement = begins_statement(p.current());
    deeper_code_expr(g, p, true, 0)?;
    embedded_end(g, p, is_statement)?;
    Ok(())
}

/// Ends an expression or a statement.
fn embedded_end<L: Levels>(g: &L, p: &mut Parser<'_>, is_statement: bool) -> Result<(), AllocError>
    ensures { Means (L.frame g.now) (spec.embedded_end is_statement) p.old result p.new }
{
    if takes_semicolon(is_statement, p.current(), p.had_trivia()) {
        p.eat(g)?;
        return Ok(());
    }
    if is_followed(is_statement, p.current()) {
        p.expected("semicolon or line break", g)?;
    }
    Ok(())
}

/// Whether there is nothing directly after a hash: trivia or the end comes.
fn is_bare(kind: SyntaxKind, has_trivia: bool) -> bool
    ensures { result ≡ spec.is_bare kind has_trivia }
{
    has_trivia || is_end(kind)
}

/// Whether a semicolon belongs to the code: to a statement also after trivia, to another expression only directly
/// after it.
fn takes_semicolon(is_statement: bool, kind: SyntaxKind, has_trivia: bool) -> bool
    ensures { result ≡ spec.takes_semicolon is_statement kind has_trivia }
{
    kind == SyntaxKind::Semicolon && (is_statement || !has_trivia)
}

/// Whether something follows a statement that may not.
fn is_followed(is_statement: bool, kind: SyntaxKind) -> bool
    ensures { result ≡ spec.is_followed is_statement kind }
{
    is_statement && !(kind == SyntaxKind::RightBracket || is_end(kind))
}
