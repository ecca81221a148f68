//! Arguments of calls.

ghost use Rattle.std.specs.Prelude.{◌≡◌, IfOk, OnOk};
ghost use Rattle.typst_kinds.specs.declared.kind.SyntaxKind.TheVariants as kind;
ghost use Rattle.typst_language.specs.Shape.Shape.{holds};
ghost use Rattle.typst_language.specs.Syntax.Parser.{repeat};
ghost use Rattle.typst_language.specs.View.{Means, MeansBy, Rewrapped};
ghost use Rattle.typst_code.specs.Arguments as spec;
ghost use Rattle.typst_code.specs.Outside.{MeansAround, MeansAroundBy};

use crate::groups::{begins_item, pair, spread};
use crate::heads::{calls_directly, opens_arguments};
use std::alloc::AllocError;
use typst_bindings::separator;
use typst_kinds::{Names, SyntaxKind};
use typst_language::{AtNewline, Levels, NodeChange, Parser};
use typst_markup::{Key, opens_directly, read_content, with_argument, wrap_named};

/// Makes one node of a named argument: its key has to be a name, one that wasn't seen.
fn wrap_argument(
    p: &mut Parser<'_>,
    from: usize,
    names: &Names,
    key: &Option<Key>,
) -> Result<(), AllocError>
    ensures { OnOk result (Rewrapped from (spec.argument_shape names.now key.now) p.old p.new) }
{
    match key {
        None => p.change(from, NodeChange::Stays)?,
        Some(Key::Name(name)) => wrap_named(p, from, names, name.as_str())?,
        Some(_) => p.wrap_changed(from, NodeChange::IsNot("identifier"), SyntaxKind::Named)?,
    }
    Ok(())
}

/// Reads one argument; answers the names that were seen.
fn argument<L: Levels>(g: &L, p: &mut Parser<'_>, names: Names) -> Result<Names, AllocError>
    requires { L.may_call g.now }
    ensures { Means (L.frame g.now) (spec.argument names) p.old result p.new }
{
    if p.current() == SyntaxKind::Dots {
        spread(g, p)?;
        return Ok(names);
    }
    let from = p.marker();
    let key = pair(g, p)?;
    wrap_argument(p, from, &names, &key)?;
    Ok(with_argument(names, key)?)
}

/// Reads an argument and what separates it from the next, unless the list ends; answers whether it
/// did.
fn argument_turn<L: Levels>(
    g: &L,
    p: &mut Parser<'_>,
    names: Names,
) -> Result<(bool, Names), AllocError>
    requires { L.may_call g.now }
    ensures { Means (L.frame g.now) (spec.argument_turn names) p.old result p.new }
{
    if p.current().is_terminator() {
        return Ok((false, names));
    }
    if !begins_item(p.current()) {
        p.unexpected(g)?;
        return Ok((true, names));
    }
    let more = argument(g, p, names)?;
    separator(g, p)?;
    Ok((true, more))
}

fn argument_turns<L: Levels>(g: &L, p: &mut Parser<'_>, names: Names) -> Result<Names, AllocError>
    requires { L.may_call g.now }
    ensures { Means (L.frame g.now) (repeat spec.argument_turn names) p.old result p.new }
{
    let mut names = names;
    'turns: loop {
        let before = p.left();
        let (more, next) = argument_turn(g, p, names)?;
        names = next;
        if !p.goes_on(more, before) {
            return Ok(names);
        }
    }
}

/// Reads the arguments in parens; answers whether they are closed.
fn argument_list<L: Levels>(g: &L, p: &mut Parser<'_>) -> Result<bool, AllocError>
    requires { L.may_call g.now }
    ensures { Means (L.frame g.now) spec.argument_list p.old result p.new }
{
    let outer = p.enter_rule(AtNewline::Continue);
    p.eat(g)?;
    argument_turns(g, p, Names::new(p.alloc()))?;
    let closed = p.eat_if(p.current() == SyntaxKind::RightParen, g)?;
    p.leave(outer, g)?;
    Ok(closed)
}

/// Reads a content block, if one begins here without trivia before it; answers whether it did.
fn content_turn<L: Levels>(g: &L, p: &mut Parser<'_>) -> Result<bool, AllocError>
    requires { L.may_call g.now }
    ensures { MeansAroundBy (L.frame g.now) (λ more. (more, tt)) (spec.content_turn tt) p.old result p.new }
{
    if !opens_directly(p) {
        return Ok(false);
    }
    read_content(g, p)?;
    Ok(true)
}

/// Reads content blocks that come directly one after another.
fn content_turns<L: Levels>(g: &L, p: &mut Parser<'_>) -> Result<(), AllocError>
    requires { L.may_call g.now }
    ensures { MeansAround (L.frame g.now) (repeat spec.content_turn tt) p.old result p.new }
{
    'turns: loop {
        let before = p.left();
        let more = content_turn(g, p)?;
        if !p.goes_on(more, before) {
            return Ok(());
        }
    }
}

/// Says that arguments are missing, or come after a space.
#[cold]
fn missing_arguments<L: Levels>(g: &L, p: &mut Parser<'_>) -> Result<(), AllocError>
    ensures { Means (L.frame g.now) spec.missing_arguments p.old result p.new }
{
    p.expected("argument list", g)?;
    if opens_arguments(p.current()) {
        p.hint("there may not be any spaces before the argument list")?;
    }
    Ok(())
}

/// Reads the arguments of a call: a list in parens, and content blocks directly after it.
pub(crate) fn arguments<L: Levels>(g: &L, p: &mut Parser<'_>) -> Result<(), AllocError>
    requires { L.may_call g.now }
    ensures { MeansAround (L.frame g.now) spec.arguments p.old result p.new }
{
    begin_arguments(g, p)?;
    let from = p.marker();
    let closed = listed_arguments(g, p)?;
    content_turns(g, p)?;
    p.wrap_enclosed(from, SyntaxKind::Args, closed)?;
    Ok(())
}

/// Says that arguments are missing, if none begin directly here.
fn begin_arguments<L: Levels>(g: &L, p: &mut Parser<'_>) -> Result<(), AllocError>
    ensures { Means (L.frame g.now) spec.begin_arguments p.old result p.new }
{
    if !calls_directly(p.current(), p.had_trivia()) {
        missing_arguments(g, p)?;
    }
    Ok(())
}

/// Reads the arguments in parens, if there are some; answers whether no paren is left open.
fn listed_arguments<L: Levels>(g: &L, p: &mut Parser<'_>) -> Result<bool, AllocError>
    requires { L.may_call g.now }
    ensures { Means (L.frame g.now) spec.listed_arguments p.old result p.new }
{
    if p.current() != SyntaxKind::LeftParen {
        return Ok(true);
    }
    Ok(argument_list(g, p)?)
}
