//! Trees built node by node. Where memory was refused there is nothing.

use std::alloc::Global;
use typst_kinds::SyntaxKind;
use typst_tree::SyntaxNode;

/// A node of a tree: kind, text, and how many of the nodes before it are its children, where it is an
/// inner node.
pub(crate) type Row = (SyntaxKind, &'static str, Option<usize>);

/// Nodes, and how many times they come one after another.
pub(crate) type Part = (&'static [Row], usize);

/// A leaf, or the error with this text.
pub(crate) fn leaf(alloc: Global, kind: SyntaxKind, text: &str) -> Option<SyntaxNode> {
    if kind.is_error() {
        return SyntaxNode::error(alloc, "error", text).ok();
    }
    SyntaxNode::leaf(alloc, kind, text).ok()
}

/// Adds the node of a row to a list, and takes its children out of it. An error is a leaf.
fn add(alloc: Global, nodes: &mut Vec<SyntaxNode>, (kind, text, kids): Row) -> Option<()> {
    let node = match kids {
        Some(count) if !kind.is_error() => {
            let kids = nodes.split_off(nodes.len().saturating_sub(count)).ok()?;
            SyntaxNode::inner(kind, kids)
        }
        _ => leaf(alloc, kind, text)?,
    };
    nodes.push(node).ok()
}

/// Adds the nodes of rows to a list.
pub(crate) fn add_rows(alloc: Global, nodes: &mut Vec<SyntaxNode>, rows: &[Row]) -> Option<()> {
    for row in rows {
        add(alloc, nodes, *row)?;
    }
    Some(())
}

/// The nodes of rows, without those that are children of others.
pub(crate) fn list(alloc: Global, rows: &[Row]) -> Option<Vec<SyntaxNode>> {
    let mut nodes = Vec::new(alloc);
    add_rows(alloc, &mut nodes, rows)?;
    Some(nodes)
}

/// A tree from its nodes, each after its children.
pub(crate) fn tree(alloc: Global, rows: &[Row]) -> Option<SyntaxNode> {
    let mut nodes = list(alloc, rows)?;
    nodes.pop()
}

/// A tree whose nodes come in parts, each after its children.
pub(crate) fn long_tree(alloc: Global, parts: &[Part]) -> Option<SyntaxNode> {
    let mut nodes = Vec::new(alloc);
    for (rows, times) in parts {
        for _ in 0..*times {
            add_rows(alloc, &mut nodes, rows)?;
        }
    }
    nodes.pop()
}
