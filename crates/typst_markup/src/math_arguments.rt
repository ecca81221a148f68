//! Arguments of calls in formulas.

ghost use Rattle.std.specs.Prelude.{◌≡◌, OnOk};
ghost use Rattle.typst_kinds.specs.declared.kind.SyntaxKind.TheVariants as kind;
ghost use Rattle.typst_language.specs.Shape.Shape.{holds};
ghost use Rattle.typst_language.specs.Syntax.Parser.{repeat};
ghost use Rattle.typst_language.specs.View.{Means, Rewrapped};
ghost use Rattle.typst_markup.specs.MathArguments as spec;

use crate::{Key, MathStop, ends_list, key_of, math_exprs, separates, with_argument, wrap_named};
use std::alloc::AllocError;
use typst_kinds::{Names, SyntaxKind};
use typst_language::{Levels, NodeChange, Parser, Way};

/// Reads the expressions of an argument, of which a named one has to have some; answers how many there are.
fn argument_exprs<L: Levels>(g: &L, p: &mut Parser<'_>, is_named: bool) -> Result<usize, AllocError>
    requires { L.may_call g.now }
    ensures { Means (L.frame g.now) (spec.argument_exprs is_named) p.old result p.new }
{
    let count = math_exprs(g, p, MathStop::Argument)?;
    if is_missing(is_named, count) {
        p.expected("expression", g)?;
    }
    Ok(count)
}

/// Whether a named argument has no value.
fn is_missing(is_named: bool, count: usize) -> bool
    ensures { result ≡ spec.is_missing is_named count }
{
    is_named && count == 0
}

/// Reads the value of an argument as one node. Several expressions, or none, become math.
fn argument_value<L: Levels>(g: &L, p: &mut Parser<'_>, is_named: bool) -> Result<(), AllocError>
    requires { L.may_call g.now }
    ensures { Means (L.frame g.now) (spec.argument_value is_named) p.old result p.new }
{
    let from = p.marker();
    let count = argument_exprs(g, p, is_named)?;
    wrap_value(p, from, count)?;
    Ok(())
}

fn wrap_value(p: &mut Parser<'_>, from: usize, count: usize) -> Result<(), AllocError>
    ensures { OnOk result (Rewrapped from (spec.value_shape count) p.old p.new) }
{
    if count == 1 {
        p.change(from, NodeChange::Stays)?;
        return Ok(());
    }
    p.wrap(from, SyntaxKind::Math)?;
    Ok(())
}

/// Reads a name before a colon, or an underscore, which isn't a name; answers it as a key.
fn argument_name<L: Levels>(g: &L, p: &mut Parser<'_>, kind: SyntaxKind) -> Result<Key, AllocError>
    ensures { Means (L.frame g.now) (spec.argument_name kind) p.old result p.new }
{
    let from = p.marker();
    eat_name(g, p, kind)?;
    p.change(from, NodeChange::Stays)?;
    Ok(key_of(p.alloc(), p.given_since(from))?)
}

fn eat_name<L: Levels>(g: &L, p: &mut Parser<'_>, kind: SyntaxKind) -> Result<(), AllocError>
    ensures { Means (L.frame g.now) (spec.eat_name kind) p.old result p.new }
{
    if kind == SyntaxKind::Underscore {
        p.eat_wanted_so(Way::NamedArgument, "identifier", g)?;
        return Ok(());
    }
    p.eat_so(Way::NamedArgument, g)?;
    Ok(())
}

/// Reads a name, its colon, and a value; answers the name as a key.
fn named_argument<L: Levels>(
    g: &L,
    p: &mut Parser<'_>,
    kind: SyntaxKind,
    names: &Names,
) -> Result<Key, AllocError>
    requires { L.may_call g.now }
    ensures { Means (L.frame g.now) (spec.named_argument kind names.now) p.old result p.new }
{
    let from = p.marker();
    let key = argument_name(g, p, kind)?;
    p.convert_and_eat(SyntaxKind::Colon, g)?;
    argument_value(g, p, true)?;
    wrap_argument(p, from, names, &key)?;
    Ok(key)
}

/// Makes one node of a named argument, whose name becomes an error if it was seen.
fn wrap_argument(
    p: &mut Parser<'_>,
    from: usize,
    names: &Names,
    key: &Key,
) -> Result<(), AllocError>
    ensures { OnOk result (Rewrapped from (holds (spec.name_change names.now key.now) kind.Named) p.old p.new) }
{
    match key {
        Key::Name(name) => wrap_named(p, from, names, name.as_str())?,
        _ => p.wrap_changed(from, NodeChange::Stays, SyntaxKind::Named)?,
    }
    Ok(())
}

/// Reads two dots and a value.
fn spread_argument<L: Levels>(g: &L, p: &mut Parser<'_>) -> Result<(), AllocError>
    requires { L.may_call g.now }
    ensures { Means (L.frame g.now) spec.spread_argument p.old result p.new }
{
    let from = p.marker();
    p.eat_so(Way::SpreadArgument, g)?;
    argument_value(g, p, false)?;
    p.wrap(from, SyntaxKind::Spread)?;
    Ok(())
}

/// Whether this is the name of an argument, or an underscore instead.
fn names_argument(kind: SyntaxKind) -> bool
    ensures { result ≡ spec.names_argument kind }
{
    kind == SyntaxKind::Ident || kind == SyntaxKind::Underscore
}

/// Reads one argument; answers the names that were seen.
fn math_argument<L: Levels>(g: &L, p: &mut Parser<'_>, names: Names) -> Result<Names, AllocError>
    requires { L.may_call g.now }
    ensures { Means (L.frame g.now) (spec.math_argument names) p.old result p.new }
{
    if p.kind_so(Way::SpreadArgument, g)? == SyntaxKind::Dots {
        spread_argument(g, p)?;
        return Ok(names);
    }
    let name = p.kind_so(Way::NamedArgument, g)?;
    if !names_argument(name) {
        argument_value(g, p, false)?;
        return Ok(names);
    }
    let key = Some(named_argument(g, p, name, &names)?);
    Ok(with_argument(names, key)?)
}

/// Reads the comma or semicolon after an argument, unless the list ends.
fn argument_end<L: Levels>(g: &L, p: &mut Parser<'_>) -> Result<(), AllocError>
    ensures { Means (L.frame g.now) spec.argument_end p.old result p.new }
{
    if separates(p.current()) {
        p.eat(g)?;
        return Ok(());
    }
    if ends_list(p.current()) {
        return Ok(());
    }
    p.expected("comma or semicolon", g)?;
    Ok(())
}

/// Reads an argument and what separates it from the next, unless the list ends; answers whether it
/// did.
fn math_argument_turn<L: Levels>(
    g: &L,
    p: &mut Parser<'_>,
    names: Names,
) -> Result<(bool, Names), AllocError>
    requires { L.may_call g.now }
    ensures { Means (L.frame g.now) (spec.math_argument_turn names) p.old result p.new }
{
    if ends_list(p.current()) {
        return Ok((false, names));
    }
    let more = math_argument(g, p, names)?;
    argument_end(g, p)?;
    Ok((true, more))
}

fn math_argument_turns<L: Levels>(
    g: &L,
    p: &mut Parser<'_>,
    names: Names,
) -> Result<Names, AllocError>
    requires { L.may_call g.now }
    ensures { Means (L.frame g.now) (repeat spec.math_argument_turn names) p.old result p.new }
{
    let mut names = names;
    'turns: loop {
        let before = p.left();
        let (more, next) = math_argument_turn(g, p, names)?;
        names = next;
        if !p.goes_on(more, before) {
            return Ok(names);
        }
    }
}

/// Reads the arguments of a call.
pub(crate) fn math_arguments<L: Levels>(g: &L, p: &mut Parser<'_>) -> Result<(), AllocError>
    requires { L.may_call g.now }
    ensures { Means (L.frame g.now) spec.math_arguments p.old result p.new }
{
    let from = p.marker();
    p.eat(g)?;
    math_argument_turns(g, p, Names::new(p.alloc()))?;
    let closed = p.eat_if(p.current() == SyntaxKind::RightParen, g)?;
    p.wrap_enclosed(from, SyntaxKind::MathArgs, closed)?;
    Ok(())
}
