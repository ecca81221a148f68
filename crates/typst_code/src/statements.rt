//! Statements, and what else a keyword begins.

ghost use Rattle.std.specs.Prelude.{◌≡◌, OnOk, IfOk, IfSome, false};
ghost use Rattle.typst_kinds.specs.Kinds.{is_error};
ghost use Rattle.typst_language.specs.Hand.{as_at_hand};
ghost use Rattle.typst_language.specs.View.{Means, MeansBy, Rewrapped, bare_growth};
ghost use Rattle.typst_code.specs.Statements as spec;
ghost use Rattle.typst_code.specs.Outside.{MeansAround, MeansAroundBy};

use crate::arguments::arguments;
use crate::sequences::read_code;
use std::alloc::AllocError;
use typst_bindings::{code_expression, expression_if};
use typst_kinds::{Names, SyntaxKind, set};
use typst_language::{Levels, Parser, Role, deeper_code_expr, deeper_pattern};
use typst_markup::{begins_code, read_content};

/// Reads `{ .. }` or `[ .. ]`.
fn any_block<L: Levels>(g: &L, p: &mut Parser<'_>) -> Result<(), AllocError>
    requires { L.may_call g.now }
    ensures { MeansAround (L.frame g.now) spec.any_block p.old result p.new }
{
    if p.current() == SyntaxKind::LeftBracket {
        read_content(g, p)?;
        return Ok(());
    }
    if p.current() == SyntaxKind::LeftBrace {
        read_code(g, p)?;
        return Ok(());
    }
    p.expected("block", g)?;
    Ok(())
}

/// Reads a dot and a name, which take what is to their left into a field access.
pub(crate) fn field<L: Levels>(g: &L, p: &mut Parser<'_>) -> Result<Option<SyntaxKind>, AllocError>
    ensures means { MeansBy (L.frame g.now) bare_growth spec.field p.old result p.new }
    ensures fine { IfOk result (λ kind. IfSome kind (λ k. is_error k ≡ false)) }
{
    p.eat(g)?;
    p.expect_identifier(g)?;
    Ok(Some(SyntaxKind::FieldAccess))
}

fn target_turn<L: Levels>(g: &L, p: &mut Parser<'_>) -> Result<Option<SyntaxKind>, AllocError>
    ensures means { MeansBy (L.frame g.now) bare_growth (spec.target_turn tt) p.old result p.new }
    ensures fine { IfOk result (λ kind. IfSome kind (λ k. is_error k ≡ false)) }
{
    if p.current() != SyntaxKind::Dot {
        return Ok(None);
    }
    Ok(field(g, p)?)
}

/// Reads a name, and names after dots.
fn target<L: Levels>(g: &L, p: &mut Parser<'_>) -> Result<(), AllocError>
    ensures { Means (L.frame g.now) spec.target p.old result p.new }
{
    let from = p.marker();
    p.expect_identifier(g)?;
    'turns: loop {
        let before = p.left();
        let Some(kind) = target_turn(g, p)? else {
            return Ok(());
        };
        p.wrap(from, kind)?;
        if !p.goes_on(true, before) {
            return Ok(());
        }
    }
}

/// Reads `set text(..)`, and `if` with a condition after it.
pub(crate) fn set_rule<L: Levels>(g: &L, p: &mut Parser<'_>) -> Result<(), AllocError>
    requires { L.may_call g.now }
    ensures { MeansAround (L.frame g.now) spec.set_rule p.old result p.new }
{
    let from = p.marker();
    p.eat(g)?;
    target(g, p)?;
    arguments(g, p)?;
    let conditional = p.eat_if(p.current() == SyntaxKind::If, g)?;
    expression_if(g, p, conditional)?;
    p.wrap(from, SyntaxKind::SetRule)?;
    Ok(())
}

/// Reads `show .. : ..`.
pub(crate) fn show_rule<L: Levels>(g: &L, p: &mut Parser<'_>) -> Result<(), AllocError>
    requires { L.may_call g.now }
    ensures { Means (L.frame g.now) spec.show_rule p.old result p.new }
{
    let from = p.marker();
    p.eat(g)?;
    expression_if(g, p, p.current() != SyntaxKind::Colon)?;
    let colon = p.eat_if(p.current() == SyntaxKind::Colon, g)?;
    expression_if(g, p, colon)?;
    wrap_show(p, from, colon)?;
    Ok(())
}

/// Makes one node of a show rule, whose colon may be missing.
fn wrap_show(p: &mut Parser<'_>, from: usize, colon: bool) -> Result<(), AllocError>
    ensures { OnOk result (Rewrapped from (spec.show_shape colon) p.old p.new) }
{
    if colon {
        p.wrap(from, SyntaxKind::ShowRule)?;
        return Ok(());
    }
    p.wrap_lacking(from, 1, "expected colon", SyntaxKind::ShowRule)?;
    Ok(())
}

/// Reads `context ..`.
pub(crate) fn contextual<L: Levels>(
    g: &L,
    p: &mut Parser<'_>,
    atomic: bool,
) -> Result<(), AllocError>
    requires { L.may_call g.now }
    ensures { Means (L.frame g.now) (spec.contextual atomic) p.old result p.new }
{
    let from = p.marker();
    p.eat(g)?;
    deeper_code_expr(g, p, atomic, 0)?;
    p.wrap(from, SyntaxKind::Contextual)?;
    Ok(())
}

/// Reads `if ..` and what comes after it up to another `if`; answers whether that comes.
fn conditional_turn<L: Levels>(g: &L, p: &mut Parser<'_>) -> Result<bool, AllocError>
    requires { L.may_call g.now }
    ensures { MeansAroundBy (L.frame g.now) (λ more. (more, tt)) (spec.conditional_turn tt) p.old result p.new }
{
    p.eat(g)?;
    code_expression(g, p)?;
    any_block(g, p)?;
    let other = p.eat_if(p.current() == SyntaxKind::Else, g)?;
    if !other {
        return Ok(false);
    }
    Ok(other_branch(g, p)?)
}

/// Reads what comes after `else`, unless it is another `if`; answers whether that comes.
fn other_branch<L: Levels>(g: &L, p: &mut Parser<'_>) -> Result<bool, AllocError>
    requires { L.may_call g.now }
    ensures { MeansAroundBy (L.frame g.now) (λ more. (more, tt)) spec.other_branch p.old result p.new }
{
    if p.current() == SyntaxKind::If {
        return Ok(true);
    }
    any_block(g, p)?;
    Ok(false)
}

/// Reads `if .. else if .. else ..`, each within the one before it.
pub(crate) fn conditional<L: Levels>(g: &L, p: &mut Parser<'_>) -> Result<(), AllocError>
    requires { L.may_call g.now }
    ensures { MeansAround (L.frame g.now) spec.conditional p.old result p.new }
{
    let mut froms = Vec::new(p.alloc());
    'turns: loop {
        let before = p.left();
        froms.push(p.marker())?;
        let more = conditional_turn(g, p)?;
        if !p.goes_on(more, before) {
            p.wrap_nested(froms, SyntaxKind::Conditional)?;
            return Ok(());
        }
    }
}

/// Reads `while .. { .. }`.
pub(crate) fn while_loop<L: Levels>(g: &L, p: &mut Parser<'_>) -> Result<(), AllocError>
    requires { L.may_call g.now }
    ensures { MeansAround (L.frame g.now) spec.while_loop p.old result p.new }
{
    let from = p.marker();
    p.eat(g)?;
    code_expression(g, p)?;
    any_block(g, p)?;
    p.wrap(from, SyntaxKind::WhileLoop)?;
    Ok(())
}

/// Whether a pattern begins at this token.
fn begins_pattern(kind: SyntaxKind) -> bool
    ensures { result ≡ spec.begins_pattern kind }
{
    set::named_sets();
    set::PATTERN.contains(kind)
}

/// Reads a comma and a second pattern, which would have to be in parens with the first; these names were seen.
#[cold]
fn second_pattern<L: Levels>(g: &L, p: &mut Parser<'_>, names: Names) -> Result<(), AllocError>
    requires { L.may_call g.now }
    ensures { Means (L.frame g.now) (spec.second_pattern names) p.old result p.new }
{
    p.eat_unexpected("destructuring patterns must be wrapped in parentheses", g)?;
    if begins_pattern(p.current()) {
        deeper_pattern(g, p, Role::Binding, names)?;
    }
    Ok(())
}

/// Reads the names of a loop.
fn loop_names<L: Levels>(g: &L, p: &mut Parser<'_>) -> Result<(), AllocError>
    requires { L.may_call g.now }
    ensures { Means (L.frame g.now) spec.loop_names p.old result p.new }
{
    let names = deeper_pattern(g, p, Role::Binding, Names::new(p.alloc()))?;
    if p.current() == SyntaxKind::Comma {
        second_pattern(g, p, names)?;
    }
    Ok(())
}

/// Reads `for .. in .. { .. }`.
pub(crate) fn for_loop<L: Levels>(g: &L, p: &mut Parser<'_>) -> Result<(), AllocError>
    requires { L.may_call g.now }
    ensures { MeansAround (L.frame g.now) spec.for_loop p.old result p.new }
{
    let from = p.marker();
    p.eat(g)?;
    loop_names(g, p)?;
    p.expect(p.current() == SyntaxKind::In, "keyword `in`", g)?;
    code_expression(g, p)?;
    any_block(g, p)?;
    p.wrap(from, SyntaxKind::ForLoop)?;
    Ok(())
}

/// Reads `include ..`.
pub(crate) fn module_include<L: Levels>(g: &L, p: &mut Parser<'_>) -> Result<(), AllocError>
    requires { L.may_call g.now }
    ensures { Means (L.frame g.now) spec.module_include p.old result p.new }
{
    let from = p.marker();
    p.eat(g)?;
    code_expression(g, p)?;
    p.wrap(from, SyntaxKind::ModuleInclude)?;
    Ok(())
}

/// Reads `break` or `continue`.
pub(crate) fn jump<L: Levels>(g: &L, p: &mut Parser<'_>, kind: SyntaxKind) -> Result<(), AllocError>
    requires { is_error kind ≡ false }
    ensures { Means (L.frame g.now) (spec.jump kind) p.old result p.new }
{
    let from = p.marker();
    p.eat(g)?;
    p.wrap(from, kind)?;
    Ok(())
}

/// Reads `return`, with an expression if one comes.
pub(crate) fn func_return<L: Levels>(g: &L, p: &mut Parser<'_>) -> Result<(), AllocError>
    requires { L.may_call g.now }
    ensures { Means (L.frame g.now) spec.func_return p.old result p.new }
{
    let from = p.marker();
    p.eat(g)?;
    expression_if(g, p, begins_code(p.current()))?;
    p.wrap(from, SyntaxKind::FuncReturn)?;
    Ok(())
}
