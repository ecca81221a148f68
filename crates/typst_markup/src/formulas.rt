//! Expressions of formulas.

ghost use Rattle.std.specs.Prelude.{◌≡◌, OnOk, map};
ghost use Rattle.std.specs.Str.{chars};
ghost use Rattle.typst_language.specs.Shape.{seen};
ghost use Rattle.typst_language.specs.View.{Means, MeansBy, Rewrapped};
ghost use Rattle.typst_markup.specs.MathExpressions as spec;

use crate::attachments::{attachments, operand, primes};
use crate::delimited::{delimited, delimiter};
use crate::math_arguments::math_arguments;
use crate::math_heads::{Callee, Grown, MathHead, MathTail, math_head, math_tail};
use crate::{embedded, no_signs};
use std::alloc::AllocError;
use typst_kinds::SyntaxKind;
use typst_language::{ChainSet, Levels, NodeChange, Parser, SyntaxNode};
use typst_lines::{Classes, MathClass, Scanner};

/// Whether a class in math is that of letters.
fn is_alphabetic(class: Option<MathClass>) -> bool
    ensures { result ≡ spec.is_alphabetic class }
{
    match class {
        Some(MathClass::Alphabetic) => true,
        _ => false,
    }
}

/// Whether a text is a letter, also by its class in math, or several letters.
fn are_letters<C: Classes>(classes: &C, text: &str) -> bool
    ensures { result ≡ spec.are_letters (C.classes classes.now) (chars text.now) }
{
    let mut s = Scanner::new(text);
    let Some(first) = s.eat() else { return true };
    if s.done() {
        return classes.is_alphabetic(first) || is_alphabetic(classes.math_class(first));
    }
    text.chars().all(|c| classes.is_alphabetic(c))
}

/// What the first of some nodes, which is a text, is to a delimiter after it: letters may be called.
fn text_callee<C: Classes>(classes: &C, nodes: &[SyntaxNode]) -> Callee
    ensures { result ≡ spec.text_callee (C.classes classes.now) (map seen nodes.now) }
{
    if nodes.is_empty() || nodes[0].is_inner() {
        return Callee::Other;
    }
    if are_letters(classes, nodes[0].leaf_text()) {
        return Callee::Symbol;
    }
    Callee::Other
}

/// Reads a text; answers what it is to a delimiter after it.
fn math_text<L: Levels>(g: &L, p: &mut Parser<'_>) -> Result<Callee, AllocError>
    ensures { Means (L.frame g.now) (spec.math_text (L.frame g.now).classes) p.old result p.new }
{
    let from = p.marker();
    p.eat(g)?;
    p.change(from, NodeChange::Stays)?;
    Ok(text_callee(g, p.given_since(from)))
}

/// Reads a root sign and what the root is taken of.
fn root<L: Levels>(g: &L, p: &mut Parser<'_>) -> Result<(), AllocError>
    requires { L.may_call g.now }
    ensures { Means (L.frame g.now) spec.root p.old result p.new }
{
    let from = p.marker();
    p.eat(g)?;
    operand(g, p, 2, no_signs())?;
    p.wrap(from, SyntaxKind::MathRoot)?;
    Ok(())
}

/// Reads what an expression begins with: all but what takes it into its node.
fn math_primary<L: Levels>(g: &L, p: &mut Parser<'_>) -> Result<Callee, AllocError>
    requires { L.may_call g.now }
    ensures { Means (L.frame g.now) (spec.math_primary (L.frame g.now).classes) p.old result p.new }
{
    match math_head(p.current()) {
        MathHead::Embedded => embedded(g, p)?,
        MathHead::Name => {
            p.eat(g)?;
            return Ok(Callee::Name);
        }
        MathHead::Delimited => delimited(g, p)?,
        MathHead::Closer => delimiter(g, p)?,
        MathHead::Plain => p.convert_and_eat(SyntaxKind::MathText, g)?,
        MathHead::Text => return Ok(math_text(g, p)?),
        MathHead::Itself => p.eat(g)?,
        MathHead::Symbol => {
            p.eat(g)?;
            return Ok(Callee::Symbol);
        }
        MathHead::Root => root(g, p)?,
        MathHead::Missing => p.expected("expression", g)?,
    }
    Ok(Callee::Other)
}

/// Reads a slash and what is below it.
fn fraction<L: Levels>(g: &L, p: &mut Parser<'_>) -> Result<(), AllocError>
    requires { L.may_call g.now }
    ensures { Means (L.frame g.now) spec.fraction p.old result p.new }
{
    p.eat(g)?;
    operand(g, p, 2, no_signs())?;
    Ok(())
}

/// Reads what the current token makes of the expression before it; answers what all becomes.
fn math_tail_turn<L: Levels>(
    g: &L,
    p: &mut Parser<'_>,
    least: u8,
    stops: ChainSet,
    callee: Callee,
) -> Result<Option<Grown>, AllocError>
    requires { L.may_call g.now }
    ensures { MeansBy (L.frame g.now) spec.growth (spec.math_tail_turn least stops callee) p.old result p.new }
{
    match math_tail(callee, least, stops, p.current(), p.had_trivia()) {
        MathTail::Call => {
            math_arguments(g, p)?;
            Ok(Some(Grown::Call))
        }
        MathTail::Delimited => {
            delimited(g, p)?;
            Ok(Some(Grown::Math))
        }
        MathTail::Fraction => {
            fraction(g, p)?;
            Ok(Some(Grown::Fraction))
        }
        MathTail::Attachments => {
            attachments(g, p)?;
            Ok(Some(Grown::Attach))
        }
        MathTail::Primes => {
            primes(g, p, stops)?;
            Ok(Some(Grown::Attach))
        }
        MathTail::Factorial => {
            p.convert_and_eat(SyntaxKind::MathText, g)?;
            Ok(Some(Grown::Math))
        }
        MathTail::Nothing => Ok(None),
    }
}

/// Makes one node of what was given since an expression began.
fn wrap_grown(p: &mut Parser<'_>, from: usize, grown: Grown) -> Result<(), AllocError>
    ensures { OnOk result (Rewrapped from (spec.grown_shape grown) p.old p.new) }
{
    match grown {
        Grown::Call => {
            p.wrap(from, SyntaxKind::MathCall)?;
        }
        Grown::Math => {
            p.wrap(from, SyntaxKind::Math)?;
        }
        Grown::Fraction => p.wrap_changed(from, NodeChange::Unparened, SyntaxKind::MathFrac)?,
        Grown::Attach => {
            p.wrap(from, SyntaxKind::MathAttach)?;
        }
    }
    Ok(())
}

/// Reads what an expression begins with, and turn by turn what takes all of that into its node.
fn math_grown<L: Levels>(
    g: &L,
    p: &mut Parser<'_>,
    least: u8,
    stops: ChainSet,
) -> Result<Callee, AllocError>
    requires { L.may_call g.now }
    ensures { Means (L.frame g.now) (spec.math_grown (L.frame g.now).classes least stops) p.old result p.new }
{
    let from = p.marker();
    let mut callee = math_primary(g, p)?;
    'turns: loop {
        let before = p.left();
        let Some(grown) = math_tail_turn(g, p, least, stops, callee)? else {
            return Ok(Callee::Other);
        };
        callee = Callee::Other;
        wrap_grown(p, from, grown)?;
        if !p.goes_on(true, before) {
            return Ok(Callee::Other);
        }
    }
}

/// Reads an expression of a formula, of operators that bind at least so tightly, up to one of some
/// signs of attachments.
pub fn math_expr<L: Levels>(
    g: &L,
    p: &mut Parser<'_>,
    least: u8,
    stops: ChainSet,
) -> Result<(), AllocError>
    requires { L.may_call g.now }
    ensures { Means (L.frame g.now) (spec.math_expr (L.frame g.now).classes least stops) p.old result p.new }
{
    math_grown(g, p, least, stops)?;
    Ok(())
}
