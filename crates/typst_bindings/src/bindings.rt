//! `let`.

ghost use Rattle.std.specs.Prelude.{◌≡◌, OnOk};
ghost use Rattle.typst_language.specs.View.{Means, Rewrapped};
ghost use Rattle.typst_bindings.specs.Bindings as spec;

use crate::parameters::params;
use crate::parts::expression_if;
use std::alloc::AllocError;
use typst_kinds::{Names, SyntaxKind};
use typst_language::{Levels, NodeChange, Parser, Role, deeper_pattern};

/// What is bound.
#[derive(Debug, Clone, Copy, PartialEq, Eq)]
pub enum Bound {
    /// A name.
    Name,
    /// A name with parameters directly after it.
    Function,
    /// The names of a pattern.
    Names,
}

/// Whether parameters begin directly after a name.
fn opens_params(kind: SyntaxKind, has_trivia: bool) -> bool
    ensures { result ≡ spec.opens_params kind has_trivia }
{
    kind == SyntaxKind::LeftParen && !has_trivia
}

/// Reads a name, and parameters if they begin directly after it.
fn bound_name<L: Levels>(g: &L, p: &mut Parser<'_>) -> Result<Bound, AllocError>
    requires { L.may_call g.now }
    ensures { Means (L.frame g.now) spec.bound_name p.old result p.new }
{
    p.eat(g)?;
    if !opens_params(p.current(), p.had_trivia()) {
        return Ok(Bound::Name);
    }
    params(g, p)?;
    Ok(Bound::Function)
}

/// Reads what is bound.
fn bound_part<L: Levels>(g: &L, p: &mut Parser<'_>) -> Result<Bound, AllocError>
    requires { L.may_call g.now }
    ensures { Means (L.frame g.now) spec.bound_part p.old result p.new }
{
    if p.current() == SyntaxKind::Ident {
        return Ok(bound_name(g, p)?);
    }
    deeper_pattern(g, p, Role::Binding, Names::new(p.alloc()))?;
    Ok(Bound::Names)
}

/// Reads the equals sign, which only after a name alone may be missing; answers whether it came.
fn equals<L: Levels>(g: &L, p: &mut Parser<'_>, bound: Bound) -> Result<bool, AllocError>
    ensures { Means (L.frame g.now) (spec.equals bound) p.old result p.new }
{
    let comes = p.current() == SyntaxKind::Eq;
    match bound {
        Bound::Name => Ok(p.eat_if(comes, g)?),
        Bound::Function => Ok(p.expects(comes, "equals sign", g)?),
        Bound::Names => Ok(p.expects(comes, "equals sign", g)?),
    }
}

/// Makes a closure of a function that is bound.
fn wrap_bound(p: &mut Parser<'_>, from: usize, bound: Bound) -> Result<(), AllocError>
    ensures { OnOk result (Rewrapped from (spec.bound_shape bound) p.old p.new) }
{
    match bound {
        Bound::Name => p.change(from, NodeChange::Stays)?,
        Bound::Function => {
            p.wrap(from, SyntaxKind::Closure)?;
        }
        Bound::Names => p.change(from, NodeChange::Stays)?,
    }
    Ok(())
}

/// Reads what is bound, and its value.
fn binding<L: Levels>(g: &L, p: &mut Parser<'_>) -> Result<(), AllocError>
    requires { L.may_call g.now }
    ensures { Means (L.frame g.now) spec.binding p.old result p.new }
{
    let from = p.marker();
    let bound = bound_part(g, p)?;
    let comes = equals(g, p, bound)?;
    expression_if(g, p, comes)?;
    wrap_bound(p, from, bound)?;
    Ok(())
}

/// Reads `let .. = ..`.
pub fn let_binding<L: Levels>(g: &L, p: &mut Parser<'_>) -> Result<(), AllocError>
    requires { L.may_call g.now }
    ensures { Means (L.frame g.now) spec.let_binding p.old result p.new }
{
    let from = p.marker();
    p.eat(g)?;
    binding(g, p)?;
    p.wrap(from, SyntaxKind::LetBinding)?;
    Ok(())
}
