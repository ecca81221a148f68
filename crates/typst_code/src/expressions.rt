//! Expressions of code.

ghost use Rattle.std.specs.Prelude.{◌≡◌, IfOk, IfSome, false};
ghost use Rattle.typst_kinds.specs.Kinds.{is_error};
ghost use Rattle.typst_language.specs.View.{Means, MeansBy, bare_growth};
ghost use Rattle.typst_code.specs.Expressions as spec;
ghost use Rattle.typst_code.specs.Outside.{MeansAround, MeansAroundBy};

use crate::arguments::arguments;
use crate::groups::group;
use crate::heads::{CodeHead, CodeTail, code_head, code_tail};
use crate::imports::module_import;
use crate::parens::parens;
use crate::sequences::read_code;
use crate::statements::{
    conditional, contextual, field, for_loop, func_return, jump, module_include, set_rule,
    show_rule, while_loop,
};
use std::alloc::AllocError;
use typst_bindings::{let_binding, named, placeholder};
use typst_kinds::{Assoc, BinOp, SyntaxKind, UnOp};
use typst_language::{Levels, Parser, deeper_code_expr};
use typst_markup::{equation, read_content};

/// Reads an operator and its operand.
fn unary_expr<L: Levels>(g: &L, p: &mut Parser<'_>, op: UnOp) -> Result<(), AllocError>
    requires { L.may_call g.now }
    ensures { Means (L.frame g.now) (spec.unary_expr op) p.old result p.new }
{
    let from = p.marker();
    p.eat(g)?;
    deeper_code_expr(g, p, false, op.precedence())?;
    p.wrap(from, SyntaxKind::Unary)?;
    Ok(())
}

/// Reads what an expression begins with: all but what takes it into its node.
fn code_primary<L: Levels>(g: &L, p: &mut Parser<'_>, atomic: bool) -> Result<(), AllocError>
    requires { L.may_call g.now }
    ensures { MeansAround (L.frame g.now) (spec.code_primary atomic) p.old result p.new }
{
    match code_head(atomic, p.current()) {
        CodeHead::Itself => p.eat(g)?,
        CodeHead::Unary(op) => unary_expr(g, p, op)?,
        CodeHead::StrayOperator => p.unexpected_with_hint(
            "to use a unary operator here, wrap the entire expression in parentheses",
            g,
        )?,
        CodeHead::Named => named(g, p)?,
        CodeHead::Placeholder => placeholder(g, p)?,
        CodeHead::CodeBlock => read_code(g, p)?,
        CodeHead::ContentBlock => read_content(g, p)?,
        CodeHead::Equation => equation(g, p)?,
        CodeHead::Group => {
            group(g, p)?;
        }
        CodeHead::Parens => parens(g, p)?,
        CodeHead::Let => let_binding(g, p)?,
        CodeHead::Set => set_rule(g, p)?,
        CodeHead::Show => show_rule(g, p)?,
        CodeHead::Context => contextual(g, p, atomic)?,
        CodeHead::If => conditional(g, p)?,
        CodeHead::While => while_loop(g, p)?,
        CodeHead::For => for_loop(g, p)?,
        CodeHead::Import => module_import(g, p)?,
        CodeHead::Include => module_include(g, p)?,
        CodeHead::Break => jump(g, p, SyntaxKind::LoopBreak)?,
        CodeHead::Continue => jump(g, p, SyntaxKind::LoopContinue)?,
        CodeHead::Return => func_return(g, p)?,
        CodeHead::Unexpected => p.unexpected(g)?,
        CodeHead::Missing => p.expected("expression", g)?,
    }
    Ok(())
}

/// How tightly the right operand of an operator has to bind.
fn operand_least(op: BinOp) -> u8
    ensures { result ≡ spec.operand_least op }
{
    match op.assoc() {
        Assoc::Left => op.precedence() + 1,
        Assoc::Right => op.precedence(),
    }
}

/// Reads the token of an operator, and its right operand.
fn binary_expr<L: Levels>(
    g: &L,
    p: &mut Parser<'_>,
    op: BinOp,
) -> Result<Option<SyntaxKind>, AllocError>
    requires { L.may_call g.now }
    ensures means { MeansBy (L.frame g.now) bare_growth (spec.binary_expr op) p.old result p.new }
    ensures fine { IfOk result (λ kind. IfSome kind (λ k. is_error k ≡ false)) }
{
    p.eat(g)?;
    deeper_code_expr(g, p, false, operand_least(op))?;
    Ok(Some(SyntaxKind::Binary))
}

/// Reads `not`, which with `in` after it is an operator.
fn not_in<L: Levels>(g: &L, p: &mut Parser<'_>) -> Result<Option<SyntaxKind>, AllocError>
    requires { L.may_call g.now }
    ensures means { MeansBy (L.frame g.now) bare_growth spec.not_in p.old result p.new }
    ensures fine { IfOk result (λ kind. IfSome kind (λ k. is_error k ≡ false)) }
{
    p.eat(g)?;
    if p.current() == SyntaxKind::In {
        return Ok(binary_expr(g, p, BinOp::NotIn)?);
    }
    p.expected("keyword `in`", g)?;
    Ok(None)
}

/// Reads a field access, if an identifier comes directly after the dot.
fn direct_field<L: Levels>(g: &L, p: &mut Parser<'_>) -> Result<Option<SyntaxKind>, AllocError>
    ensures means { MeansBy (L.frame g.now) bare_growth spec.direct_field p.old result p.new }
    ensures fine { IfOk result (λ kind. IfSome kind (λ k. is_error k ≡ false)) }
{
    if p.further(g)? != SyntaxKind::Ident {
        return Ok(None);
    }
    Ok(field(g, p)?)
}

/// Reads the arguments of a call.
fn call_tail<L: Levels>(g: &L, p: &mut Parser<'_>) -> Result<Option<SyntaxKind>, AllocError>
    requires { L.may_call g.now }
    ensures means { MeansAroundBy (L.frame g.now) bare_growth spec.call_tail p.old result p.new }
    ensures fine { IfOk result (λ kind. IfSome kind (λ k. is_error k ≡ false)) }
{
    arguments(g, p)?;
    Ok(Some(SyntaxKind::FuncCall))
}

/// Reads what the current token makes of the expression before it; answers the kind of that node.
fn code_tail_turn<L: Levels>(
    g: &L,
    p: &mut Parser<'_>,
    atomic: bool,
    least: u8,
) -> Result<Option<SyntaxKind>, AllocError>
    requires { L.may_call g.now }
    ensures means { MeansAroundBy (L.frame g.now) bare_growth (spec.code_tail_turn atomic least tt) p.old result p.new }
    ensures fine { IfOk result (λ kind. IfSome kind (λ k. is_error k ≡ false)) }
{
    match code_tail(atomic, least, p.current(), p.had_trivia()) {
        CodeTail::Call => Ok(call_tail(g, p)?),
        CodeTail::Field => Ok(field(g, p)?),
        CodeTail::DirectField => Ok(direct_field(g, p)?),
        CodeTail::NotIn => Ok(not_in(g, p)?),
        CodeTail::Binary(op) => Ok(binary_expr(g, p, op)?),
        CodeTail::Nothing => Ok(None),
    }
}

/// Reads an expression of code, atomic or not, of operators that bind at least so tightly.
pub fn code_expr<L: Levels>(
    g: &L,
    p: &mut Parser<'_>,
    atomic: bool,
    least: u8,
) -> Result<(), AllocError>
    requires { L.may_call g.now }
    ensures { MeansAround (L.frame g.now) (spec.code_expr atomic least) p.old result p.new }
{
    let from = p.marker();
    code_primary(g, p, atomic)?;
    'turns: loop {
        let before = p.left();
        let Some(kind) = code_tail_turn(g, p, atomic, least)? else {
            return Ok(());
        };
        p.wrap(from, kind)?;
        if !p.goes_on(true, before) {
            return Ok(());
        }
    }
}
