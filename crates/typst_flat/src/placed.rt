//! Nodes with their places.

ghost use Rattle.std.specs.Prelude.{◌≡◌, IsTrue, length, true};
ghost use Rattle.typst_tree.specs.Tree.{nodes, saturated};
ghost use Rattle.typst_tree.specs.Steps.{At};
ghost use Rattle.typst_tree.specs.Walks.{is_childless};
ghost use Rattle.typst_flat.specs.Codes.{flags_of};
ghost use Rattle.typst_flat.specs.Placed.{IsNarrow, IsPlaced};
ghost use Rattle.typst_flat.specs.Records.{node_record};

use crate::Node;
use crate::codes::{flags, is_usual, kind_code, narrow_known, span_code};
use typst_highlight::{Tag, is_childless};
use typst_tree::SyntaxNode;

/// A node with its place in a tree, and the number of its tag.
#[derive(Clone, Copy)]
pub struct PlacedNode<'t> {
    pub node: &'t SyntaxNode,
    /// Where it begins, in bytes.
    pub start: usize,
    /// Where it ends, in bytes.
    pub end: usize,
    /// Its number among all nodes in preorder.
    pub number: usize,
    /// The number of its parent, as records have it; of the root 0.
    pub parent: u32,
    /// Its tag, by `tag_code`.
    pub tag: u8,
    /// Its tag itself, if it is a name.
    pub name: Option<Tag>,
}

/// The record of a node. Of a node of a small tree it isn't asked whether its numbers fit into 32 bits.
#[inline(always)]
pub fn record(placed: &PlacedNode, is_small: bool) -> Node
    requires { is_small ≡ true → IsNarrow placed.now }
    ensures { (a : At) → IsPlaced a placed.now → result ≡ node_record a }
{
    record_of(placed, tell(placed.node), is_small)
}

/// The record of a plain node. As its parts are written as constants, it stands apart.
#[inline(always)]
pub fn plain_record(placed: &PlacedNode, is_small: bool) -> Node
    requires small { is_small ≡ true → IsNarrow placed.now }
    requires childless { is_childless placed.now.node.now.kids ≡ true }
    requires flags { flags_of placed.now.node.now.head ≡ 0 }
    ensures { (a : At) → IsPlaced a placed.now → result ≡ node_record a }
{
    record_of(placed, Told { nodes: 1, flags: 0 }, is_small)
}

/// Whether a node is plain, as most: it has no children, is no inner node and no error, and has no diagnostics.
#[inline(always)]
pub fn is_plain(node: &SyntaxNode) -> bool
    ensures childless { IsTrue result → is_childless node.now.kids ≡ true }
    ensures flags { IsTrue result → flags_of node.now.head ≡ 0 }
{
    if node.is_inner() {
        return false;
    }
    if !is_usual(node) {
        return false;
    }
    is_childless(node)
}

/// The record of a node, with what is said of it.
#[inline(always)]
fn record_of(placed: &PlacedNode, told: Told, is_small: bool) -> Node
    requires small { is_small ≡ true → IsNarrow placed.now }
    requires nodes { told.nodes ≡ saturated (nodes placed.now.node.now) }
    requires flags { told.flags ≡ flags_of placed.now.node.now.head }
    ensures { (a : At) → IsPlaced a placed.now → result ≡ node_record a }
{
    let node = placed.node;
    Node {
        span: span_code(node.span()),
        start: narrow_known(placed.start, is_small),
        end: narrow_known(placed.end, is_small),
        number: narrow_known(placed.number, is_small),
        nodes: narrow_known(told.nodes, is_small),
        parent: placed.parent,
        kind: kind_code(node.kind()),
        tag: placed.tag,
        flags: told.flags,
        spare: 0,
    }
}

/// How many nodes there are of a node and below it, and what single bits say of it.
#[derive(Clone, Copy)]
struct Told {
    nodes: usize,
    flags: u8,
}

/// Tells both of a node. Of a usual one it is asked once, and first, whether it is an inner node: the compiler then
/// sees where the count lies.
#[inline(always)]
fn tell(node: &SyntaxNode) -> Told
    ensures nodes { result.nodes ≡ saturated (nodes node.now) }
    ensures flags { result.flags ≡ flags_of node.now.head }
{
    if !is_usual(node) {
        return Told {
            nodes: node.descendants(),
            flags: flags(node),
        };
    }
    if node.is_inner() {
        return Told {
            nodes: node.descendants(),
            flags: 1,
        };
    }
    Told {
        nodes: node_count(node),
        flags: 0,
    }
}

/// How many nodes there are of a node and below it. A node without children, as most are, is counted in place.
#[inline(always)]
pub fn node_count(node: &SyntaxNode) -> usize
    ensures { result ≡ saturated (nodes node.now) }
{
    if is_childless(node) {
        1
    } else {
        node.descendants()
    }
}

/// The length of the text of a node itself, which only a leaf has.
// Of an inner node without diagnostics at it and below it the compiler sees that the length is 0, and reads none.
#[inline(always)]
pub fn own_len(node: &SyntaxNode) -> usize
    ensures { result ≡ length node.now.head.text }
{
    if !node.has_diagnostics() && node.is_inner() {
        let text = node.leaf_text();
        return text.len();
    }
    own_len_apart(node)
}

/// The length of the text of any node itself.
#[cold]
#[inline(never)]
fn own_len_apart(node: &SyntaxNode) -> usize
    ensures { result ≡ length node.now.head.text }
{
    let text = node.leaf_text();
    text.len()
}
