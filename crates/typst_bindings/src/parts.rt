//! What patterns have in common with the rest of code.

ghost use Rattle.typst_language.specs.View.{Means};
ghost use Rattle.typst_bindings.specs.Parts as spec;

use std::alloc::AllocError;
use typst_kinds::SyntaxKind;
use typst_language::{Levels, Parser, deeper_code_expr};

/// Reads an expression with all its operators.
pub fn code_expression<L: Levels>(g: &L, p: &mut Parser<'_>) -> Result<(), AllocError>
    requires { L.may_call g.now }
    ensures { Means (L.frame g.now) spec.code_expression p.old result p.new }
{
    deeper_code_expr(g, p, false, 0)?;
    Ok(())
}

/// Reads an expression without operators.
pub(crate) fn atomic_expression<L: Levels>(g: &L, p: &mut Parser<'_>) -> Result<(), AllocError>
    requires { L.may_call g.now }
    ensures { Means (L.frame g.now) spec.atomic_expression p.old result p.new }
{
    deeper_code_expr(g, p, true, 0)?;
    Ok(())
}

/// Reads an expression, if something was taken that asks for one.
pub fn expression_if<L: Levels>(g: &L, p: &mut Parser<'_>, asked: bool) -> Result<(), AllocError>
    requires { L.may_call g.now }
    ensures { Means (L.frame g.now) (spec.expression_if asked) p.old result p.new }
{
    if asked {
        code_expression(g, p)?;
    }
    Ok(())
}

/// Reads the comma between two items; answers whether it came.
pub fn separator<L: Levels>(g: &L, p: &mut Parser<'_>) -> Result<bool, AllocError>
    ensures { Means (L.frame g.now) spec.separator p.old result p.new }
{
    if p.current().is_terminator() {
        return Ok(false);
    }
    Ok(p.expects(p.current() == SyntaxKind::Comma, "comma", g)?)
}
