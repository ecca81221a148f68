//! Patterns: names, what is assigned to, and parens around several of them.

ghost use Rattle.std.specs.Prelude.{◌≡◌, IfOk, OnOk, map};
ghost use Rattle.typst_language.specs.Shape.{seen};
ghost use Rattle.typst_language.specs.Shape.Shape.{keeps};
ghost use Rattle.typst_language.specs.Syntax.Parser.{repeat};
ghost use Rattle.typst_language.specs.View.{Means, Rewrapped};
ghost use Rattle.typst_bindings.specs.Patterns as spec;

use crate::parts::{atomic_expression, separator};
use crate::parts_listing::Parts;
use std::alloc::{AllocError, Global};
use typst_kinds::{Names, SyntaxKind, Text, set};
use typst_language::{AtNewline, Levels, NodeChange, Parser, Role, deeper_pattern};
use typst_tree::SyntaxNode;

/// The name that the first of some nodes is.
pub(crate) fn name_of(alloc: Global, nodes: &[SyntaxNode]) -> Result<Option<Text>, AllocError>
    ensures { IfOk result (λ name. name ≡ spec.name_of (map seen nodes.now)) }
{
    if nodes.is_empty() {
        return Ok(None);
    }
    Ok(name_of_one(alloc, &nodes[0])?)
}

/// The name that a node is.
fn name_of_one(alloc: Global, node: &SyntaxNode) -> Result<Option<Text>, AllocError>
    ensures { IfOk result (λ name. name ≡ spec.name_of_one (seen node.now)) }
{
    if node.is_inner() {
        return Ok(None);
    }
    if node.kind() == SyntaxKind::Ident {
        return Ok(Some(Text::new(alloc, node.leaf_text())?));
    }
    Ok(None)
}

/// What an error says before a name that was seen.
fn duplicate(role: Role) -> &'static str
    ensures { result.now ≡ spec.duplicate role }
{
    match role {
        Role::Parameter => "duplicate parameter: ",
        _ => "duplicate binding: ",
    }
}

/// Makes what is bound an error if it isn't a name, or is one that was seen.
fn change_bound(
    p: &mut Parser<'_>,
    from: usize,
    role: Role,
    names: &Names,
    name: &Option<Text>,
) -> Result<(), AllocError>
    ensures { OnOk result (Rewrapped from (keeps (spec.bound_change role names.now name.now)) p.old p.new) }
{
    match name {
        Some(name) => change_seen(p, from, role, names, name.as_str())?,
        None => p.change(from, NodeChange::IsNot("pattern"))?,
    }
    Ok(())
}

/// Makes a name that is bound an error if it was seen.
fn change_seen(
    p: &mut Parser<'_>,
    from: usize,
    role: Role,
    names: &Names,
    name: &str,
) -> Result<(), AllocError>
    ensures { OnOk result (Rewrapped from (keeps (spec.when_bound role names.now name.now)) p.old p.new) }
{
    if !names.has(name) {
        p.change(from, NodeChange::Stays)?;
        return Ok(());
    }
    let mut message = String::from_str(p.alloc(), duplicate(role))?;
    message.push_str(name)?;
    p.change(from, NodeChange::TurnsWrong(message.as_str()))?;
    Ok(())
}

/// The names that were seen, with this one, if there is one.
fn with_bound(names: Names, name: Option<Text>) -> Result<Names, AllocError>
    ensures { IfOk result (λ more. more ≡ spec.with_bound names name) }
{
    let mut names = names;
    if let Some(name) = name {
        names.add(name)?;
    }
    Ok(names)
}

/// Reads an expression where a name has to be; answers the names that were seen.
fn bound_name<L: Levels>(
    g: &L,
    p: &mut Parser<'_>,
    role: Role,
    names: Names,
) -> Result<Names, AllocError>
    requires { L.may_call g.now }
    ensures { Means (L.frame g.now) (spec.bound_name role names) p.old result p.new }
{
    let from = p.marker();
    atomic_expression(g, p)?;
    p.change(from, NodeChange::Stays)?;
    let name = name_of(p.alloc(), p.given_since(from))?;
    change_bound(p, from, role, &names, &name)?;
    Ok(with_bound(names, name)?)
}

/// Whether what the pattern names is assigned to, and not bound.
fn is_target(role: Role) -> bool
    ensures { result ≡ spec.is_target role }
{
    match role {
        Role::Target => true,
        Role::Binding => false,
        Role::Parameter => false,
    }
}

/// Reads a name, or an expression that is assigned to; answers the names that were seen.
fn pattern_leaf<L: Levels>(
    g: &L,
    p: &mut Parser<'_>,
    role: Role,
    names: Names,
) -> Result<Names, AllocError>
    requires { L.may_call g.now }
    ensures { Means (L.frame g.now) (spec.pattern_leaf role names) p.old result p.new }
{
    if p.current().is_keyword() {
        p.eat_wanted(false, "pattern", g)?;
        return Ok(names);
    }
    if !begins_leaf(p.current()) {
        p.expected("pattern", g)?;
        return Ok(names);
    }
    if is_target(role) {
        atomic_expression(g, p)?;
        return Ok(names);
    }
    Ok(bound_name(g, p, role, names)?)
}

/// Whether a name, or an expression instead of one, begins at this token.
fn begins_leaf(kind: SyntaxKind) -> bool
    ensures { result ≡ spec.begins_leaf kind }
{
    set::named_sets();
    set::PATTERN_LEAF.contains(kind)
}

/// Reads two dots, and a name if one comes; answers the names that were seen.
pub(crate) fn sink<L: Levels>(
    g: &L,
    p: &mut Parser<'_>,
    role: Role,
    names: Names,
) -> Result<Names, AllocError>
    requires { L.may_call g.now }
    ensures { Means (L.frame g.now) (spec.sink role names) p.old result p.new }
{
    p.eat(g)?;
    if !begins_leaf(p.current()) {
        return Ok(names);
    }
    Ok(pattern_leaf(g, p, role, names)?)
}

/// Makes a node of two dots and a name, or an error if there were two dots before.
pub(crate) fn wrap_sink(
    p: &mut Parser<'_>,
    from: usize,
    message: &str,
    again: bool,
) -> Result<(), AllocError>
    ensures { OnOk result (Rewrapped from (spec.sink_shape message.now again) p.old p.new) }
{
    if again {
        p.wrap_error(from, message)?;
        return Ok(());
    }
    p.wrap(from, SyntaxKind::Spread)?;
    Ok(())
}

/// Takes a name; answers whether a colon comes after it.
fn name_and_colon<L: Levels>(g: &L, p: &mut Parser<'_>) -> Result<bool, AllocError>
    ensures { Means (L.frame g.now) spec.name_and_colon p.old result p.new }
{
    p.eat(g)?;
    Ok(p.current() == SyntaxKind::Colon)
}

/// Takes a name before a colon; answers whether it did.
fn key<L: Levels>(g: &L, p: &mut Parser<'_>) -> Result<bool, AllocError>
    ensures { Means (L.frame g.now) spec.key p.old result p.new }
{
    if p.current() != SyntaxKind::Ident {
        return Ok(false);
    }
    let place = p.checkpoint();
    let is_key = name_and_colon(g, p)?;
    if is_key {
        return Ok(is_key);
    }
    p.restore(place)?;
    p.drop_notes(place);
    Ok(false)
}

/// Reads a key or a pattern; answers whether it is a key, and the names that were seen.
fn key_or_pattern<L: Levels>(
    g: &L,
    p: &mut Parser<'_>,
    role: Role,
    names: Names,
) -> Result<(bool, Names), AllocError>
    requires { L.may_call g.now }
    ensures { Means (L.frame g.now) (spec.key_or_pattern role names) p.old result p.new }
{
    let is_key = key(g, p)?;
    if is_key {
        return Ok((is_key, names));
    }
    let seen = deeper_pattern(g, p, role, names)?;
    Ok((is_key, seen))
}

/// Reads a pattern, with a key before it or not; answers whether a colon came and a key is before it, and the
/// names that were seen.
fn part<L: Levels>(
    g: &L,
    p: &mut Parser<'_>,
    role: Role,
    names: Names,
) -> Result<(Option<bool>, Names), AllocError>
    requires { L.may_call g.now }
    ensures { Means (L.frame g.now) (spec.part role names) p.old result p.new }
{
    let (is_key, seen) = key_or_pattern(g, p, role, names)?;
    if p.current() != SyntaxKind::Colon {
        return Ok((None, seen));
    }
    p.eat(g)?;
    let all = deeper_pattern(g, p, role, seen)?;
    Ok((Some(is_key), all))
}

/// Makes one node of what a colon is in; before the colon a name has to be.
pub(crate) fn wrap_named(
    p: &mut Parser<'_>,
    from: usize,
    is_name: Option<bool>,
) -> Result<(), AllocError>
    ensures { OnOk result (Rewrapped from (spec.named_shape is_name) p.old p.new) }
{
    match is_name {
        None => p.change(from, NodeChange::Stays)?,
        Some(true) => p.wrap_changed(from, NodeChange::Stays, SyntaxKind::Named)?,
        Some(false) => p.wrap_changed(from, NodeChange::IsNot("identifier"), SyntaxKind::Named)?,
    }
    Ok(())
}

/// Reads one of several patterns; answers what was found of them so far.
fn destructuring_item<L: Levels>(
    g: &L,
    p: &mut Parser<'_>,
    role: Role,
    parts: Parts,
    names: Names,
) -> Result<(Parts, Names), AllocError>
    requires { L.may_call g.now }
    ensures { Means (L.frame g.now) (spec.destructuring_item role (parts, names)) p.old result p.new }
{
    let from = p.marker();
    if p.current() == SyntaxKind::Dots {
        let seen = sink(g, p, role, names)?;
        wrap_sink(
            p,
            from,
            "only one destructuring sink is allowed",
            parts.has_sink,
        )?;
        return Ok((parts.with_sink(), seen));
    }
    let (is_named, seen) = part(g, p, role, names)?;
    wrap_named(p, from, is_named)?;
    Ok((parts.with_part(is_named.is_some()), seen))
}

/// Whether one of several patterns begins at this token.
fn begins_part(kind: SyntaxKind) -> bool
    ensures { result ≡ spec.begins_part kind }
{
    set::named_sets();
    set::DESTRUCTURING_ITEM.contains(kind)
}

/// Reads one of several patterns and what separates it from the next, unless the list ends; answers whether it
/// did, and what was found of them so far.
fn destructuring_turn<L: Levels>(
    g: &L,
    p: &mut Parser<'_>,
    role: Role,
    found: (Parts, Names),
) -> Result<(bool, (Parts, Names)), AllocError>
    requires { L.may_call g.now }
    ensures { Means (L.frame g.now) (spec.destructuring_turn role found) p.old result p.new }
{
    if p.current().is_terminator() {
        return Ok((false, found));
    }
    if !begins_part(p.current()) {
        p.unexpected(g)?;
        return Ok((true, found));
    }
    let (parts, names) = found;
    let (more, seen) = destructuring_item(g, p, role, parts, names)?;
    let comma = separator(g, p)?;
    Ok((true, (more.with_comma(comma), seen)))
}

/// Reads the patterns in parens; answers what was found of them.
fn destructuring_items<L: Levels>(
    g: &L,
    p: &mut Parser<'_>,
    role: Role,
    found: (Parts, Names),
) -> Result<(Parts, Names), AllocError>
    requires { L.may_call g.now }
    ensures { Means (L.frame g.now) (repeat (spec.destructuring_turn role) found) p.old result p.new }
{
    let mut found = found;
    'turns: loop {
        let before = p.left();
        let (more, next) = destructuring_turn(g, p, role, found)?;
        found = next;
        if !p.goes_on(more, before) {
            return Ok(found);
        }
    }
}

/// What names are within a pattern in parens.
fn role_below(role: Role) -> Role
    ensures { result ≡ spec.role_below role }
{
    match role {
        Role::Target => Role::Target,
        Role::Binding => Role::Binding,
        Role::Parameter => Role::Binding,
    }
}

/// Reads patterns in parens; answers the names that were seen.
pub fn destructuring<L: Levels>(
    g: &L,
    p: &mut Parser<'_>,
    role: Role,
    names: Names,
) -> Result<Names, AllocError>
    requires { L.may_call g.now }
    ensures { Means (L.frame g.now) (spec.destructuring role names) p.old result p.new }
{
    let from = p.marker();
    let outer = p.enter_rule(AtNewline::Continue);
    p.eat(g)?;
    let (parts, seen) = destructuring_items(g, p, role_below(role), (Parts::none(), names))?;
    let closed = p.eat_if(p.current() == SyntaxKind::RightParen, g)?;
    p.leave(outer, g)?;
    p.wrap_enclosed(from, parts.kind(), closed)?;
    Ok(seen)
}

/// Reads a pattern; answers the names that were seen.
pub fn pattern<L: Levels>(
    g: &L,
    p: &mut Parser<'_>,
    role: Role,
    names: Names,
) -> Result<Names, AllocError>
    requires { L.may_call g.now }
    ensures { Means (L.frame g.now) (spec.pattern role names) p.old result p.new }
{
    if p.current() == SyntaxKind::Underscore {
        p.eat(g)?;
        return Ok(names);
    }
    if p.current() == SyntaxKind::LeftParen {
        return Ok(destructuring(g, p, role, names)?);
    }
    Ok(pattern_leaf(g, p, role, names)?)
}
