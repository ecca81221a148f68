//! Delimiters, and what is between two of them.

ghost use Rattle.std.specs.Prelude.{◌≡◌, OnOk, IfOk, false, map};
ghost use Rattle.typst_kinds.specs.Kinds.{is_error};
ghost use Rattle.typst_language.specs.Shape.{seen};
ghost use Rattle.typst_language.specs.View.{Means, Rewrapped};
ghost use Rattle.typst_markup.specs.Delimited as spec;

use crate::{MathStop, is_closer, math_exprs};
use std::alloc::AllocError;
use typst_kinds::SyntaxKind;
use typst_language::{Levels, NodeChange, Parser, SyntaxNode};

/// Which kind a delimiter of this text has.
fn sign_kind(text: &str) -> SyntaxKind
    ensures is { result ≡ spec.sign_kind text.now }
    ensures fine { is_error result ≡ false }
{
    match text {
        "[|" | "|]" => SyntaxKind::MathShorthand,
        _ => SyntaxKind::MathText,
    }
}

/// Which kind the first of some nodes has, which is a delimiter.
fn delimiter_kind(nodes: &[SyntaxNode]) -> SyntaxKind
    ensures is { result ≡ spec.delimiter_kind (map seen nodes.now) }
    ensures fine { is_error result ≡ false }
{
    if nodes.is_empty() || nodes[0].is_inner() {
        return SyntaxKind::MathText;
    }
    sign_kind(nodes[0].leaf_text())
}

/// Takes a delimiter; answers which kind it is to have.
fn delimiter_sign<L: Levels>(g: &L, p: &mut Parser<'_>) -> Result<SyntaxKind, AllocError>
    ensures means { Means (L.frame g.now) spec.delimiter_sign p.old result p.new }
    ensures fine { IfOk result (λ k. is_error k ≡ false) }
{
    let from = p.marker();
    p.eat(g)?;
    p.change(from, NodeChange::Stays)?;
    Ok(delimiter_kind(p.given_since(from)))
}

/// Reads a delimiter.
pub(crate) fn delimiter<L: Levels>(g: &L, p: &mut Parser<'_>) -> Result<(), AllocError>
    ensures { Means (L.frame g.now) spec.delimiter p.old result p.new }
{
    let from = p.marker();
    let kind = delimiter_sign(g, p)?;
    p.change(from, NodeChange::Renamed(kind))?;
    Ok(())
}

/// Reads expressions up to what closes them; answers whether that comes.
fn delimited_body<L: Levels>(g: &L, p: &mut Parser<'_>) -> Result<bool, AllocError>
    requires { L.may_call g.now }
    ensures { Means (L.frame g.now) spec.delimited_body p.old result p.new }
{
    let from = p.marker();
    math_exprs(g, p, MathStop::Delimited)?;
    let closed = is_closer(p.current());
    wrap_body(p, from, closed)?;
    Ok(closed)
}

/// Makes math of the expressions between two delimiters, if the second one came.
fn wrap_body(p: &mut Parser<'_>, from: usize, closed: bool) -> Result<(), AllocError>
    ensures { OnOk result (Rewrapped from (spec.body_shape closed) p.old p.new) }
{
    if closed {
        p.wrap(from, SyntaxKind::Math)?;
        return Ok(());
    }
    p.change(from, NodeChange::Stays)?;
    Ok(())
}

/// Reads the second delimiter, if it comes.
fn delimiter_if<L: Levels>(g: &L, p: &mut Parser<'_>, comes: bool) -> Result<(), AllocError>
    ensures { Means (L.frame g.now) (spec.delimiter_if comes) p.old result p.new }
{
    if comes {
        delimiter(g, p)?;
    }
    Ok(())
}

/// Reads a delimiter and expressions, up to one that closes them, of any kind.
pub(crate) fn delimited<L: Levels>(g: &L, p: &mut Parser<'_>) -> Result<(), AllocError>
    requires { L.may_call g.now }
    ensures { Means (L.frame g.now) spec.delimited p.old result p.new }
{
    let from = p.marker();
    delimiter(g, p)?;
    let closed = delimited_body(g, p)?;
    delimiter_if(g, p, closed)?;
    wrap_delimited(p, from, closed)?;
    Ok(())
}

/// Makes one node of delimiters and what is between them, or math if the second delimiter is missing.
fn wrap_delimited(p: &mut Parser<'_>, from: usize, closed: bool) -> Result<(), AllocError>
    ensures { OnOk result (Rewrapped from (spec.delimited_shape closed) p.old p.new) }
{
    if closed {
        p.wrap(from, SyntaxKind::MathDelimited)?;
        return Ok(());
    }
    p.wrap(from, SyntaxKind::Math)?;
    Ok(())
}
