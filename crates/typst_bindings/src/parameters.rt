//! Parameters of closures.

ghost use Rattle.std.specs.Prelude.{◌≡◌, is_some, map};
ghost use Rattle.typst_language.specs.Shape.{seen};
ghost use Rattle.typst_language.specs.Syntax.Parser.{repeat};
ghost use Rattle.typst_language.specs.View.{Means};
ghost use Rattle.typst_bindings.specs.Params as spec;
ghost use Rattle.typst_bindings.specs.Patterns.{name_of, name_of_one};

use crate::parts::{code_expression, separator};
use crate::patterns::{sink, wrap_named, wrap_sink};
use std::alloc::AllocError;
use typst_kinds::{Names, SyntaxKind, set};
use typst_language::{AtNewline, Levels, NodeChange, Parser, Role, deeper_pattern};
use typst_tree::SyntaxNode;

/// Whether the first of some nodes is a name.
fn is_name(nodes: &[SyntaxNode]) -> bool
    ensures { result ≡ is_some (name_of (map seen nodes.now)) }
{
    if nodes.is_empty() {
        return false;
    }
    is_name_itself(&nodes[0])
}

/// Whether a node is a name.
fn is_name_itself(node: &SyntaxNode) -> bool
    ensures { result ≡ is_some (name_of_one (seen node.now)) }
{
    if node.is_inner() {
        return false;
    }
    node.kind() == SyntaxKind::Ident
}

/// Reads a pattern, and after a colon its default; answers whether a colon came and a name is before it, and the
/// names that were seen.
fn defaulted<L: Levels>(
    g: &L,
    p: &mut Parser<'_>,
    names: Names,
) -> Result<(Option<bool>, Names), AllocError>
    requires { L.may_call g.now }
    ensures { Means (L.frame g.now) (spec.defaulted names) p.old result p.new }
{
    let from = p.marker();
    let seen = deeper_pattern(g, p, Role::Parameter, names)?;
    p.change(from, NodeChange::Stays)?;
    if p.current() != SyntaxKind::Colon {
        return Ok((None, seen));
    }
    let is_name = is_name(p.given_since(from));
    p.eat(g)?;
    code_expression(g, p)?;
    Ok((Some(is_name), seen))
}

/// Reads one parameter; answers whether there were two dots so far, and the names that were seen.
fn param<L: Levels>(
    g: &L,
    p: &mut Parser<'_>,
    had_sink: bool,
    names: Names,
) -> Result<(bool, Names), AllocError>
    requires { L.may_call g.now }
    ensures { Means (L.frame g.now) (spec.param (had_sink, names)) p.old result p.new }
{
    let from = p.marker();
    if p.current() == SyntaxKind::Dots {
        let seen = sink(g, p, Role::Parameter, names)?;
        wrap_sink(p, from, "only one argument sink is allowed", had_sink)?;
        return Ok((true, seen));
    }
    let (is_name, seen) = defaulted(g, p, names)?;
    wrap_named(p, from, is_name)?;
    Ok((had_sink, seen))
}

/// Whether a parameter begins at this token.
fn begins_param(kind: SyntaxKind) -> bool
    ensures { result ≡ spec.begins_param kind }
{
    set::named_sets();
    set::PARAM.contains(kind)
}

/// Reads a parameter and what separates it from the next, unless the list ends; answers whether it
/// did.
fn param_turn<L: Levels>(
    g: &L,
    p: &mut Parser<'_>,
    so_far: (bool, Names),
) -> Result<(bool, (bool, Names)), AllocError>
    requires { L.may_call g.now }
    ensures { Means (L.frame g.now) (spec.param_turn so_far) p.old result p.new }
{
    if p.current().is_terminator() {
        return Ok((false, so_far));
    }
    if !begins_param(p.current()) {
        p.unexpected(g)?;
        return Ok((true, so_far));
    }
    let (had_sink, names) = so_far;
    let more = param(g, p, had_sink, names)?;
    separator(g, p)?;
    Ok((true, more))
}

/// Reads the parameters in parens.
fn param_turns<L: Levels>(
    g: &L,
    p: &mut Parser<'_>,
    so_far: (bool, Names),
) -> Result<(bool, Names), AllocError>
    requires { L.may_call g.now }
    ensures { Means (L.frame g.now) (repeat spec.param_turn so_far) p.old result p.new }
{
    let mut so_far = so_far;
    'turns: loop {
        let before = p.left();
        let (more, next) = param_turn(g, p, so_far)?;
        so_far = next;
        if !p.goes_on(more, before) {
            return Ok(so_far);
        }
    }
}

/// Reads the parameters of a closure, with their parens.
pub fn params<L: Levels>(g: &L, p: &mut Parser<'_>) -> Result<(), AllocError>
    requires { L.may_call g.now }
    ensures { Means (L.frame g.now) spec.params p.old result p.new }
{
    let from = p.marker();
    let outer = p.enter_rule(AtNewline::Continue);
    p.eat(g)?;
    param_turns(g, p, (false, Names::new(p.alloc())))?;
    let closed = p.eat_if(p.current() == SyntaxKind::RightParen, g)?;
    p.leave(outer, g)?;
    p.wrap_enclosed(from, SyntaxKind::Params, closed)?;
    Ok(())
}
