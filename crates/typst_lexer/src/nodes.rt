//! The nodes of tokens.
ghost use Rattle.std.specs.Prelude.{◌≡◌, ◌||◌, true, IfOk, length, take};
ghost use Rattle.std.specs.Str.{chars};
ghost use Rattle.typst_lines.specs.Classes.{CharClasses};
ghost use Rattle.typst_lexer.specs.Nodes as spec;

use crate::faults::fault_node;
use crate::fields::access_node;
use crate::raw_node;
use std::alloc::{AllocError, Global};
use typst_kinds::SyntaxKind;
use typst_lines::classes::Classes;
use typst_tokens::Token;
use typst_tree::SyntaxNode;

/// Whether the node of a token is a leaf of its kind, which `leaf_node` makes.
#[inline(always)]
pub fn is_leaf(token: Token) -> bool
    ensures { result ≡ spec.is_leaf token }
{
    match token.fault {
        Some(_) => false,
        None => !token.kind.is_error() && !has_parts(token.kind),
    }
}

/// The node of a token that makes a leaf of its kind, and took the text, which `rest` begins with.
#[inline(always)]
pub fn leaf_node(
    alloc: Global,
    token: Token,
    text: &str,
    rest: &str,
) -> Result<SyntaxNode, AllocError>
    requires leaf { spec.is_leaf token ≡ true }
    requires front { take (length (chars text.now)) (chars rest.now) ≡ chars text.now }
    ensures { (k : CharClasses) → IfOk result (λ node. node ≡ spec.token_node k token (chars text.now)) }
{
    SyntaxNode::front_leaf(alloc, token.kind, text, rest)
}

/// The node of a token that took the text: a leaf of its kind, the node of a raw text or of a name
/// with fields, or an error leaf.
#[inline(never)]
pub fn make_node<C: Classes>(
    alloc: Global,
    token: Token,
    text: &str,
    classes: &C,
) -> Result<SyntaxNode, AllocError>
    ensures { IfOk result (λ node. node ≡ spec.token_node (C.classes classes.now) token (chars text.now)) }
{
    match token.fault {
        Some(fault) => fault_node(alloc, fault, text),
        None => plain_node(alloc, token, text, classes),
    }
}

fn plain_node<C: Classes>(
    alloc: Global,
    token: Token,
    text: &str,
    _classes: &C,
) -> Result<SyntaxNode, AllocError>
    ensures { IfOk result (λ node. node ≡ spec.plain_node (C.classes _classes.now) token (chars text.now)) }
{
    if token.kind.is_error() {
        return SyntaxNode::error(alloc, "", text);
    }
    if is_raw(token.kind) {
        return raw_node(alloc, text);
    }
    if has_fields(token.kind) {
        return access_node(alloc, text);
    }
    SyntaxNode::leaf(alloc, token.kind, text)
}

/// Whether tokens of the kind are more than leaves.
#[inline(always)]
fn has_parts(kind: SyntaxKind) -> bool
    ensures { result ≡ (spec.is_raw kind || spec.has_fields kind) }
{
    matches!(kind, SyntaxKind::Raw | SyntaxKind::MathFieldAccess)
}

/// Whether the kind is that of names with fields.
fn has_fields(kind: SyntaxKind) -> bool
    ensures { result ≡ spec.has_fields kind }
{
    match kind {
        SyntaxKind::MathFieldAccess => true,
        _ => false,
    }
}

/// Whether the kind is that of raw texts.
fn is_raw(kind: SyntaxKind) -> bool
    ensures { result ≡ spec.is_raw kind }
{
    match kind {
        SyntaxKind::Raw => true,
        _ => false,
    }
}
