//! Closures, and underscores.

ghost use Rattle.std.specs.Prelude.{◌≡◌, OnOk};
ghost use Rattle.typst_language.specs.View.{Means, Rewrapped};
ghost use Rattle.typst_bindings.specs.Closures as spec;

use crate::parts::code_expression;
use std::alloc::AllocError;
use typst_kinds::SyntaxKind;
use typst_language::{AfterName, Levels, NodeChange, Parser};

/// What comes after a name: only an arrow counts.
fn after_name(kind: SyntaxKind) -> AfterName
    ensures { result ≡ spec.after_name kind }
{
    if kind == SyntaxKind::Arrow {
        return AfterName::Arrow;
    }
    AfterName::Nothing
}

/// What comes after an underscore: an arrow or an equals sign counts.
fn after_underscore(kind: SyntaxKind) -> AfterName
    ensures { result ≡ spec.after_underscore kind }
{
    if kind == SyntaxKind::Arrow {
        return AfterName::Arrow;
    }
    if kind == SyntaxKind::Eq {
        return AfterName::Eq;
    }
    AfterName::Nothing
}

/// Makes parameters of a name before an arrow.
fn wrap_name(p: &mut Parser<'_>, from: usize, after: AfterName) -> Result<(), AllocError>
    ensures { OnOk result (Rewrapped from (spec.name_shape after) p.old p.new) }
{
    match after {
        AfterName::Arrow => {
            p.wrap(from, SyntaxKind::Params)?;
        }
        AfterName::Eq => p.change(from, NodeChange::Stays)?,
        AfterName::Nothing => p.change(from, NodeChange::Stays)?,
    }
    Ok(())
}

/// Makes parameters of an underscore before an arrow, and an error of one that is alone.
fn wrap_underscore(p: &mut Parser<'_>, from: usize, after: AfterName) -> Result<(), AllocError>
    ensures { OnOk result (Rewrapped from (spec.underscore_shape after) p.old p.new) }
{
    match after {
        AfterName::Arrow => {
            p.wrap(from, SyntaxKind::Params)?;
        }
        AfterName::Eq => p.change(from, NodeChange::Stays)?,
        AfterName::Nothing => p.change(from, NodeChange::IsNot("expression"))?,
    }
    Ok(())
}

/// Makes a closure or an assignment of all that was read.
pub fn wrap_closure(p: &mut Parser<'_>, from: usize, after: AfterName) -> Result<(), AllocError>
    ensures { OnOk result (Rewrapped from (spec.closure_shape after) p.old p.new) }
{
    match after {
        AfterName::Arrow => {
            p.wrap(from, SyntaxKind::Closure)?;
        }
        AfterName::Eq => {
            p.wrap(from, SyntaxKind::DestructAssignment)?;
        }
        AfterName::Nothing => p.change(from, NodeChange::Stays)?,
    }
    Ok(())
}

/// Reads the arrow or the equals sign, and an expression.
fn right_side<L: Levels>(g: &L, p: &mut Parser<'_>, after: AfterName) -> Result<(), AllocError>
    requires { L.may_call g.now }
    ensures { Means (L.frame g.now) (spec.right_side after) p.old result p.new }
{
    match after {
        AfterName::Arrow => {
            p.eat(g)?;
            code_expression(g, p)?;
        }
        AfterName::Eq => {
            p.eat(g)?;
            code_expression(g, p)?;
        }
        AfterName::Nothing => {}
    }
    Ok(())
}

/// Reads a name, or a closure of one parameter.
pub fn named<L: Levels>(g: &L, p: &mut Parser<'_>) -> Result<(), AllocError>
    requires { L.may_call g.now }
    ensures { Means (L.frame g.now) spec.named p.old result p.new }
{
    let from = p.marker();
    p.eat(g)?;
    let after = after_name(p.current());
    wrap_name(p, from, after)?;
    right_side(g, p, after)?;
    wrap_closure(p, from, after)?;
    Ok(())
}

/// Reads an underscore: the parameter of a closure, or what is assigned to.
pub fn placeholder<L: Levels>(g: &L, p: &mut Parser<'_>) -> Result<(), AllocError>
    requires { L.may_call g.now }
    ensures { Means (L.frame g.now) spec.placeholder p.old result p.new }
{
    let from = p.marker();
    p.eat(g)?;
    let after = after_underscore(p.current());
    wrap_underscore(p, from, after)?;
    right_side(g, p, after)?;
    wrap_closure(p, from, after)?;
    Ok(())
}
