//! What has to be in a content block so that a label can follow code.

ghost use Rattle.std.specs.Prelude.{◌≡◌, length};
ghost use Rattle.typst_tree.specs.Tree.{forest, trees};
ghost use Rattle.typst_names.specs.Around.{standing};
ghost use Rattle.typst_fixes.specs.Wrapped as spec;

use std::ops::Range;
use typst_kinds::SyntaxKind;
use typst_names::Placed;
use typst_tree::SyntaxNode;

/// The bytes of code at the end of a statement that markup reads whole after a hash, and of the label which follows
/// it among nodes that begin at a byte.
pub fn labelled(statement: Placed<'_>, behind: &[SyntaxNode], byte: usize) -> Option<Range<usize>>
    ensures { result ≡ spec.labelled (standing statement.entry) (forest behind.now) byte }
{
    let start = last_value(statement)?;
    let end = label_after(behind, byte)?;
    Some(start..end)
}

/// Where the value at the end of a statement begins, if markup reads it whole after a hash.
fn last_value(statement: Placed<'_>) -> Option<usize>
    ensures { result ≡ spec.last_value (standing statement.entry) }
{
    let last = statement.end().saturating_sub(1);
    let mut within = Some(statement);
    while let Some(code) = within {
        if is_whole(code) {
            return Some(code.start);
        }
        if !ends_with_value(code.node) {
            return None;
        }
        within = code.child_at(last);
    }
    None
}

/// Whether code that isn't read whole ends with a value.
fn ends_with_value(code: &SyntaxNode) -> bool
    ensures { result ≡ spec.ends_with_value code.now.head.kind (trees code.now.kids) }
{
    match code.kind() {
        SyntaxKind::LetBinding => has_value(code.children()),
        SyntaxKind::DestructAssignment
        | SyntaxKind::Closure
        | SyntaxKind::Unary
        | SyntaxKind::Binary
        | SyntaxKind::Contextual
        | SyntaxKind::FuncReturn => true,
        _ => false,
    }
}

/// Whether a `let` with these children may have a value.
fn has_value(kids: &[SyntaxNode]) -> bool
    ensures { result ≡ spec.ends_with_value SyntaxKind.LetBinding kids.now }
{
    for kid in kids {
        if binds(kid.kind()) {
            return true;
        }
    }
    false
}

/// Whether a `let` with a child of this kind may have a value: an equals sign, or a function.
fn binds(kind: SyntaxKind) -> bool
    ensures { result ≡ spec.binds kind }
{
    kind.same(SyntaxKind::Eq) || kind.same(SyntaxKind::Closure)
}

/// Whether markup reads code whole after a hash: it is a value with no operator, and no space is before a dot.
fn is_whole(code: Placed<'_>) -> bool
    ensures { result ≡ spec.is_whole (standing code.entry) }
{
    let first = code.start;
    let mut within = Some(code);
    while let Some(placed) = within {
        if !is_called(placed.node.kind(), placed.node.children().len()) {
            return is_atom(placed.node.kind());
        }
        within = placed.child_at(first);
    }
    false
}

/// Whether a node of this kind with so many children is a call or a field, with nothing around its dot.
fn is_called(kind: SyntaxKind, children: usize) -> bool
    ensures { result ≡ spec.is_called kind children }
{
    match kind {
        SyntaxKind::FuncCall => true,
        SyntaxKind::FieldAccess => children == 3,
        _ => false,
    }
}

/// Whether a value of this kind is one whatever is around it.
fn is_atom(kind: SyntaxKind) -> bool
    ensures { result ≡ spec.is_atom kind }
{
    match kind {
        SyntaxKind::CodeBlock
        | SyntaxKind::ContentBlock
        | SyntaxKind::Parenthesized
        | SyntaxKind::Array
        | SyntaxKind::Dict
        | SyntaxKind::Equation
        | SyntaxKind::Raw => true,
        SyntaxKind::Ident
        | SyntaxKind::None
        | SyntaxKind::Auto
        | SyntaxKind::Bool
        | SyntaxKind::Int
        | SyntaxKind::Float
        | SyntaxKind::Numeric
        | SyntaxKind::Str => true,
        _ => false,
    }
}

/// Where the label ends that nodes from a byte on begin with, space and comments aside.
fn label_after(nodes: &[SyntaxNode], byte: usize) -> Option<usize>
    ensures { result ≡ spec.label_after byte (forest nodes.now) }
{
    let mut rest = nodes;
    let mut start = byte;
    while let Some((node, behind)) = rest.split_first() {
        let placed = Placed { node, start };
        if !node.kind().is_trivia() {
            return label_of(placed);
        }
        start = placed.end();
        rest = behind;
    }
    None
}

/// Where the label ends that a node begins with.
fn label_of(node: Placed<'_>) -> Option<usize>
    ensures { result ≡ spec.label_of (standing node.entry) }
{
    let first = node.start;
    let mut within = Some(node);
    while let Some(placed) = within {
        if placed.node.kind().same(SyntaxKind::Label) {
            return Some(placed.end());
        }
        within = placed.child_at(first);
    }
    None
}
