//! What the first of several nodes becomes.

ghost use Rattle.std.specs.Prelude.{◌≡◌, true, false, length, OnOk};
ghost use Rattle.typst_kinds.specs.Kinds.{is_error};
ghost use Rattle.typst_language.specs.Shape as spec;
ghost use Rattle.typst_language.specs.Shape.{changed, first_changed, without_parens};
ghost use Rattle.typst_language.specs.Changes.{IsFine, meant};

use std::alloc::AllocError;
use typst_kinds::SyntaxKind;
use typst_lexer::SyntaxNode;

/// What is done to the first of several nodes. An error stays as it is.
#[derive(Debug, Clone, Copy)]
pub enum NodeChange<'a> {
    /// Nothing.
    Stays,
    /// It becomes an error of its text, with this message.
    TurnsWrong(&'a str),
    /// It becomes the error that this was expected there.
    IsNot(&'a str),
    /// It becomes a node of another kind, which isn't an error.
    Renamed(SyntaxKind),
    /// If it is delimited by parens in math, these become parens, and it becomes math.
    Unparened,
}

/// Changes a node. In place, so that nothing is called if it stays, as most nodes do.
#[inline(always)]
pub fn change_node(node: &mut SyntaxNode, change: NodeChange<'_>) -> Result<(), AllocError>
    requires { IsFine change }
    ensures { OnOk result (node.new ≡ changed (meant change.entry) node.old) }
{
    match change {
        NodeChange::Stays => {}
        NodeChange::TurnsWrong(message) => node.convert_to_error(message)?,
        NodeChange::IsNot(thing) => node.expected(thing)?,
        NodeChange::Renamed(kind) => node.convert_to_kind(kind),
        NodeChange::Unparened => unparen(node),
    }
    Ok(())
}

/// Changes the first of several nodes, if there is one. In place, as `change_node`.
#[inline(always)]
pub fn change_first(nodes: &mut Vec<SyntaxNode>, change: NodeChange<'_>) -> Result<(), AllocError>
    requires { IsFine change }
    ensures changed { OnOk result (nodes.new.items ≡ first_changed (meant change.entry) nodes.old.items) }
    ensures as_many { length nodes.new.items ≡ length nodes.old.items }
{
    if nodes.is_empty() {
        return Ok(());
    }
    change_node(&mut nodes[0], change)?;
    Ok(())
}

/// Takes the parens off what is delimited by them in math: they become parens, and it becomes math.
/// Anything else stays as it is.
pub fn unparen(node: &mut SyntaxNode)
    ensures { node.new ≡ without_parens node.old }
{
    if !is_delimited(node.kind()) || !in_parens(node.children()) {
        return;
    }
    let last = node.children().len() - 1;
    node.convert_child_to_kind(0, SyntaxKind::LeftParen);
    node.convert_child_to_kind(last, SyntaxKind::RightParen);
    node.convert_to_kind(SyntaxKind::Math);
}

/// Whether nodes of this kind have delimiters in math.
fn is_delimited(kind: SyntaxKind) -> bool
    ensures is { result ≡ spec.is_delimited kind }
    ensures fine { result ≡ true → is_error kind ≡ false }
{
    matches!(kind, SyntaxKind::MathDelimited)
}

/// Whether the first and the last of at least two nodes are parens.
fn in_parens(nodes: &[SyntaxNode]) -> bool
    ensures { result ≡ spec.in_parens nodes.now }
{
    if nodes.len() < 2 {
        return false;
    }
    is_sign(&nodes[0], b'(') && is_sign(&nodes[nodes.len() - 1], b')')
}

/// Whether a node is a leaf of this one character, which is ASCII.
fn is_sign(node: &SyntaxNode, sign: u8) -> bool
    ensures { result ≡ spec.is_sign sign node.now }
{
    let text = node.leaf_text().as_bytes();
    text.len() == 1 && text[0] == sign
}
