//! Where a row of nodes parts.

ghost use Rattle.std.specs.Prelude.{◌≡◌};
ghost use Rattle.typst_tree.specs.Tree.{forest};
ghost use Rattle.typst_highlight.specs.Edges as spec;

use crate::context::is_leaf;
use crate::rules::{is_dot, is_name};
use typst_tree::SyntaxNode;

/// Whether a node parts the row of its parent's children: the tags of those before it don't depend on what
/// follows it, and those of what follows it don't depend on what is before it.
pub fn is_edge(node: &SyntaxNode) -> bool
    ensures { result ≡ spec.is_edge node.now }
{
    let kind = node.kind();
    let begins = is_plain(node) || begins_plain(node.children());
    begins && !kind.is_trivia() && !kind.is_hash_expr()
}

/// Whether a node is a leaf that is neither trivia nor an error, neither a name nor a dot.
fn is_plain(node: &SyntaxNode) -> bool
    ensures { result ≡ spec.is_plain node.now }
{
    is_leaf(node) && !is_name(node.kind()) && !is_dot(node.kind())
}

/// Whether the first of some nodes is such a leaf.
fn begins_plain(nodes: &[SyntaxNode]) -> bool
    ensures { result ≡ spec.begins_plain (forest nodes.now) }
{
    match nodes.split_first() {
        None => false,
        Some((node, _)) => is_plain(node),
    }
}
