//! Operands, and what is attached by `^`, `_` and primes.

ghost use Rattle.std.specs.Prelude.{◌≡◌};
ghost use Rattle.typst_language.specs.Syntax.Parser.{repeat};
ghost use Rattle.typst_language.specs.View.{Means};
ghost use Rattle.typst_markup.specs.Attachments as spec;

use std::alloc::AllocError;
use typst_kinds::SyntaxKind;
use typst_language::{ChainSet, Levels, NodeChange, Parser, deeper_math_expr};

/// Whether a token is one of the signs.
pub(crate) fn is_in(signs: ChainSet, kind: SyntaxKind) -> bool
    ensures { result ≡ spec.is_in signs kind }
{
    (kind == SyntaxKind::Hat && signs.hat) || (kind == SyntaxKind::Underscore && signs.underscore)
}

/// The signs without this one.
fn without(kind: SyntaxKind, signs: ChainSet) -> ChainSet
    ensures { result ≡ spec.without kind signs }
{
    ChainSet {
        hat: signs.hat && kind != SyntaxKind::Hat,
        underscore: signs.underscore && kind != SyntaxKind::Underscore,
    }
}

/// Reads an operand of operators that bind at least so tightly, up to one of some signs. Parens around it aren't
/// delimiters.
pub(crate) fn operand<L: Levels>(
    g: &L,
    p: &mut Parser<'_>,
    least: u8,
    signs: ChainSet,
) -> Result<(), AllocError>
    requires { L.may_call g.now }
    ensures { Means (L.frame g.now) (spec.operand least signs) p.old result p.new }
{
    let from = p.marker();
    deeper_math_expr(g, p, least, signs)?;
    p.change(from, NodeChange::Unparened)?;
    Ok(())
}

/// Reads one of the signs and its operand, if one comes; answers whether it did, and the signs that
/// may follow.
fn attachment_turn<L: Levels>(
    g: &L,
    p: &mut Parser<'_>,
    signs: ChainSet,
) -> Result<(bool, ChainSet), AllocError>
    requires { L.may_call g.now }
    ensures { Means (L.frame g.now) (spec.attachment_turn signs) p.old result p.new }
{
    let kind = p.current();
    if !is_in(signs, kind) {
        return Ok((false, signs));
    }
    let others = without(kind, signs);
    p.eat(g)?;
    operand(g, p, 2, others)?;
    Ok((true, others))
}

fn attachment_turns<L: Levels>(g: &L, p: &mut Parser<'_>) -> Result<ChainSet, AllocError>
    requires { L.may_call g.now }
    ensures { Means (L.frame g.now) (repeat spec.attachment_turn spec.both_signs) p.old result p.new }
{
    let mut signs = ChainSet {
        hat: true,
        underscore: true,
    };
    'turns: loop {
        let before = p.left();
        let (more, next) = attachment_turn(g, p, signs)?;
        signs = next;
        if !p.goes_on(more, before) {
            return Ok(next);
        }
    }
}

/// Reads each sign with its operand, at most once.
pub(crate) fn attachments<L: Levels>(g: &L, p: &mut Parser<'_>) -> Result<(), AllocError>
    requires { L.may_call g.now }
    ensures { Means (L.frame g.now) spec.attachments p.old result p.new }
{
    attachment_turns(g, p)?;
    Ok(())
}

/// Reads primes, and attachments after them unless the expression ends there.
pub(crate) fn primes<L: Levels>(
    g: &L,
    p: &mut Parser<'_>,
    stops: ChainSet,
) -> Result<(), AllocError>
    requires { L.may_call g.now }
    ensures { Means (L.frame g.now) (spec.primes stops) p.old result p.new }
{
    p.eat(g)?;
    if is_in(stops, p.current()) {
        return Ok(());
    }
    attachments(g, p)?;
    Ok(())
}
