//! What begins with a paren: a group, a closure or an assignment.

ghost use Rattle.std.specs.Prelude.{◌≡◌};
ghost use Rattle.typst_language.specs.View.{Means};
ghost use Rattle.typst_kinds.specs.declared.kind.SyntaxKind.TheVariants as kind;
ghost use Rattle.typst_code.specs.Outside.{MeansAround};
ghost use Rattle.typst_code.specs.Parens as spec;

use crate::groups::group;
use std::alloc::AllocError;
use typst_bindings::{destructuring, expression_if, params, wrap_closure};
use typst_kinds::{Names, SyntaxKind};
use typst_language::{AfterName, Levels, Parser, Role};

/// What comes after a group of this kind: an arrow, or an equals sign that asks for a second reading.
fn after_group(group: SyntaxKind, kind: SyntaxKind) -> AfterName
    ensures { result ≡ spec.after_group group kind }
{
    if kind == SyntaxKind::Arrow {
        return AfterName::Arrow;
    }
    if kind == SyntaxKind::Eq && group != SyntaxKind::Parenthesized {
        return AfterName::Eq;
    }
    AfterName::Nothing
}

/// Reads a group; answers what comes after it.
fn as_group<L: Levels>(g: &L, p: &mut Parser<'_>) -> Result<AfterName, AllocError>
    requires { L.may_call g.now }
    ensures { Means (L.frame g.now) spec.as_group p.old result p.new }
{
    let kind = group(g, p)?;
    Ok(after_group(kind, p.current()))
}

/// Reads a group; if what comes after it asks for that, goes back and reads parameters or what is assigned to.
fn guess<L: Levels>(g: &L, p: &mut Parser<'_>) -> Result<AfterName, AllocError>
    requires may { L.may_call g.now }
    requires paren { p.old.hand.kind ≡ kind.LeftParen }
    ensures { MeansAround (L.frame g.now) spec.either_reading p.old result p.new }
{
    let aside = p.begin_guess();
    let place = p.checkpoint();
    let after = as_group(g, p)?;
    match after {
        AfterName::Arrow => {
            p.restore(place)?;
            p.remember(after, g)?;
            p.look_too(aside);
            params(g, p)?;
            p.drop_notes(place);
        }
        AfterName::Eq => {
            p.restore(place)?;
            p.remember(after, g)?;
            p.look_too(aside);
            destructuring(g, p, Role::Target, Names::new(p.alloc()))?;
            p.drop_notes(place);
        }
        AfterName::Nothing => p.look_before(place, aside),
    }
    Ok(after)
}

/// Reads a group, or in a second reading parameters or what is assigned to; answers what comes after it. If it is
/// remembered that a second reading is asked for, there is no first one.
fn readings<L: Levels>(g: &L, p: &mut Parser<'_>) -> Result<AfterName, AllocError>
    requires { L.may_call g.now }
    ensures { MeansAround (L.frame g.now) spec.readings p.old result p.new }
{
    if p.current() != SyntaxKind::LeftParen {
        return Ok(as_group(g, p)?);
    }
    let place = p.checkpoint();
    match p.guessed(g) {
        Some((AfterName::Arrow, hull)) => {
            p.look_too(hull);
            params(g, p)?;
            p.drop_notes(place);
            return Ok(AfterName::Arrow);
        }
        Some((AfterName::Eq, hull)) => {
            p.look_too(hull);
            destructuring(g, p, Role::Target, Names::new(p.alloc()))?;
            p.drop_notes(place);
            return Ok(AfterName::Eq);
        }
        _ => {}
    }
    let after = guess(g, p)?;
    p.end_guess();
    Ok(after)
}

/// Takes the arrow or the equals sign after a second reading; answers whether it came.
fn sign<L: Levels>(g: &L, p: &mut Parser<'_>, after: AfterName) -> Result<bool, AllocError>
    ensures { Means (L.frame g.now) (spec.sign after) p.old result p.new }
{
    match after {
        AfterName::Arrow => Ok(p.expects(p.current() == SyntaxKind::Arrow, "arrow", g)?),
        AfterName::Eq => Ok(p.expects(p.current() == SyntaxKind::Eq, "equals sign", g)?),
        AfterName::Nothing => Ok(false),
    }
}

/// What came after a group, if its sign did, and else nothing.
fn after_if(came: bool, after: AfterName) -> AfterName
    ensures { result ≡ spec.after_if came after }
{
    if came {
        return after;
    }
    AfterName::Nothing
}

/// Reads a group, a closure or an assignment.
pub(crate) fn parens<L: Levels>(g: &L, p: &mut Parser<'_>) -> Result<(), AllocError>
    requires { L.may_call g.now }
    ensures { MeansAround (L.frame g.now) spec.parens p.old result p.new }
{
    let from = p.marker();
    let after = readings(g, p)?;
    let came = sign(g, p, after)?;
    expression_if(g, p, came)?;
    wrap_closure(p, from, after_if(came, after))?;
    Ok(())
}
