//! Groups, arrays and dictionaries.

ghost use Rattle.std.specs.Prelude.{◌≡◌, OnOk, false};
ghost use Rattle.typst_kinds.specs.Kinds.{is_error};
ghost use Rattle.typst_language.specs.Shape.Shape.{holds};
ghost use Rattle.typst_language.specs.Syntax.Parser.{repeat};
ghost use Rattle.typst_language.specs.Changes.{IsFine, meant};
ghost use Rattle.typst_language.specs.View.{Means, Rewrapped};
ghost use Rattle.typst_code.specs.Groups as spec;

use crate::listing::ParenItems;
use std::alloc::AllocError;
use typst_bindings::{code_expression, separator};
use typst_kinds::{Names, SyntaxKind};
use typst_language::{AtNewline, Levels, NodeChange, Parser};
use typst_markup::{Key, begins_code, key_of};

/// Whether an item begins at this token.
pub(crate) fn begins_item(kind: SyntaxKind) -> bool
    ensures { result ≡ spec.begins_item kind }
{
    kind == SyntaxKind::Dots || begins_code(kind)
}

/// Reads `..` and an expression.
pub(crate) fn spread<L: Levels>(g: &L, p: &mut Parser<'_>) -> Result<(), AllocError>
    requires { L.may_call g.now }
    ensures { Means (L.frame g.now) spec.spread p.old result p.new }
{
    let from = p.marker();
    p.eat(g)?;
    code_expression(g, p)?;
    p.wrap(from, SyntaxKind::Spread)?;
    Ok(())
}

/// Reads an expression, and after a colon another one; answers the first as a key if a colon came.
pub(crate) fn pair<L: Levels>(g: &L, p: &mut Parser<'_>) -> Result<Option<Key>, AllocError>
    requires { L.may_call g.now }
    ensures { Means (L.frame g.now) spec.pair p.old result p.new }
{
    let from = p.marker();
    code_expression(g, p)?;
    p.change(from, NodeChange::Stays)?;
    if p.current() != SyntaxKind::Colon {
        return Ok(None);
    }
    let key = key_of(p.alloc(), p.given_since(from))?;
    p.eat(g)?;
    code_expression(g, p)?;
    Ok(Some(key))
}

/// Makes a pair of an item that has a key.
fn wrap_item(
    p: &mut Parser<'_>,
    from: usize,
    keys: &Names,
    key: &Option<Key>,
) -> Result<(), AllocError>
    ensures { OnOk result (Rewrapped from (spec.item_shape keys.now key.now) p.old p.new) }
{
    match key {
        None => p.change(from, NodeChange::Stays)?,
        Some(Key::Name(name)) => wrap_pair(p, from, keys, name.as_str(), SyntaxKind::Named)?,
        Some(Key::Str(text)) => wrap_pair(p, from, keys, text.as_str(), SyntaxKind::Keyed)?,
        Some(Key::Other) => p.wrap_changed(from, NodeChange::Stays, SyntaxKind::Keyed)?,
    }
    Ok(())
}

/// Makes a pair, whose key becomes an error if it was seen.
fn wrap_pair(
    p: &mut Parser<'_>,
    from: usize,
    keys: &Names,
    key: &str,
    kind: SyntaxKind,
) -> Result<(), AllocError>
    requires { is_error kind ≡ false }
    ensures { OnOk result (Rewrapped from (holds (spec.when_seen keys.now key.now) kind) p.old p.new) }
{
    if !keys.has(key) {
        p.wrap_changed(from, NodeChange::Stays, kind)?;
        return Ok(());
    }
    let message = format!(in p.alloc(); "duplicate key: {key}")?;
    p.wrap_changed(from, NodeChange::TurnsWrong(message.as_str()), kind)?;
    Ok(())
}

/// What is done to an item that doesn't fit the others.
fn misfit(are_pairs: Option<bool>, is_pair: bool) -> NodeChange<'static>
    ensures meant { meant result ≡ spec.misfit are_pairs is_pair }
    ensures fine { IsFine result }
{
    match are_pairs {
        Some(true) if !is_pair => NodeChange::IsNot("named or keyed pair"),
        Some(false) if is_pair => NodeChange::IsNot("expression"),
        _ => NodeChange::Stays,
    }
}

/// Reads one item; answers what was found of the items so far.
fn item<L: Levels>(g: &L, p: &mut Parser<'_>, items: ParenItems) -> Result<ParenItems, AllocError>
    requires { L.may_call g.now }
    ensures { Means (L.frame g.now) (spec.item items) p.old result p.new }
{
    if p.current() == SyntaxKind::Dots {
        spread(g, p)?;
        return Ok(items.with_spread());
    }
    let from = p.marker();
    let key = pair(g, p)?;
    wrap_item(p, from, &items.keys, &key)?;
    p.change(from, misfit(items.are_pairs, key.is_some()))?;
    Ok(items.with_item(key)?)
}

/// Reads an item and what separates it from the next, unless the list ends; answers whether it did.
fn group_turn<L: Levels>(
    g: &L,
    p: &mut Parser<'_>,
    items: ParenItems,
) -> Result<(bool, ParenItems), AllocError>
    requires { L.may_call g.now }
    ensures { Means (L.frame g.now) (spec.group_turn items) p.old result p.new }
{
    if p.current().is_terminator() {
        return Ok((false, items));
    }
    if !begins_item(p.current()) {
        p.unexpected(g)?;
        return Ok((true, items));
    }
    let more = item(g, p, items)?;
    let comma = separator(g, p)?;
    Ok((true, more.with_comma(comma)))
}

/// Reads the items in parens; answers what was found of them.
fn group_items<L: Levels>(
    g: &L,
    p: &mut Parser<'_>,
    items: ParenItems,
) -> Result<ParenItems, AllocError>
    requires { L.may_call g.now }
    ensures { Means (L.frame g.now) (repeat spec.group_turn items) p.old result p.new }
{
    let mut items = items;
    'turns: loop {
        let before = p.left();
        let (more, next) = group_turn(g, p, items)?;
        items = next;
        if !p.goes_on(more, before) {
            return Ok(items);
        }
    }
}

/// Reads `( .. )`; answers what it is.
pub(crate) fn group<L: Levels>(g: &L, p: &mut Parser<'_>) -> Result<SyntaxKind, AllocError>
    requires { L.may_call g.now }
    ensures { Means (L.frame g.now) spec.group p.old result p.new }
{
    let from = p.marker();
    let outer = p.enter_rule(AtNewline::Continue);
    p.eat(g)?;
    let colon = p.eat_if(p.current() == SyntaxKind::Colon, g)?;
    let items = group_items(g, p, ParenItems::new(p.alloc(), colon))?;
    let closed = p.eat_if(p.current() == SyntaxKind::RightParen, g)?;
    p.leave(outer, g)?;
    let kind = items.kind();
    p.wrap_enclosed(from, kind, closed)?;
    Ok(kind)
}
