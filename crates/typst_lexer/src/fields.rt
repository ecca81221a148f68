//! The nodes of names with fields.
ghost use Rattle.std.specs.Prelude.{◌≡◌, IfOk};
ghost use Rattle.std.specs.Str.{chars};
ghost use Rattle.typst_lexer.specs.Fields as spec;

use std::alloc::{AllocError, Global};
use typst_kinds::SyntaxKind;
use typst_lines::Scanner;
use typst_tree::SyntaxNode;

/// The node of a name with fields, which are separated by dots.
pub(crate) fn access_node(alloc: Global, text: &str) -> Result<SyntaxNode, AllocError>
    ensures { IfOk result (λ node. node ≡ spec.access_node (chars text.now)) }
{
    let mut s = Scanner::new(text);
    let mut node = SyntaxNode::leaf(alloc, SyntaxKind::MathIdent, s.eat_until(&'.'))?;
    'fields: while s.eat_if('.') {
        let name = s.eat_until(&'.');
        node = field_node(alloc, node, name)?;
    }
    Ok(node)
}

/// The node of a field of what is to the left of its dot.
fn field_node(alloc: Global, left: SyntaxNode, name: &str) -> Result<SyntaxNode, AllocError>
    ensures { IfOk result (λ node. node ≡ spec.field_node left (chars name.now)) }
{
    let dot = SyntaxNode::leaf(alloc, SyntaxKind::Dot, ".")?;
    let name = SyntaxNode::leaf(alloc, SyntaxKind::MathIdent, name)?;
    let children = vec![in alloc; left, dot, name]?;
    Ok(SyntaxNode::inner(SyntaxKind::MathFieldAccess, children))
}
