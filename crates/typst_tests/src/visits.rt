//! Walks through trees in preorder.

use crate::rows::{Row, tree};
use std::alloc::{AllocError, Global};
use typst_kinds::SyntaxKind;
use typst_tree::{Preorder, SyntaxNode};

/// What is compared of a visit: the node's kind, its offset and its depth.
type Seen = (SyntaxKind, usize, usize);

/// `éb x`, where the walk comes from a third level back to the first, and two nodes have no text.
const TREE: [Row; 10] = [
    (SyntaxKind::Text, "é", None),
    (SyntaxKind::Text, "b", None),
    (SyntaxKind::Math, "", Some(0)),
    (SyntaxKind::Strong, "", Some(2)),
    (SyntaxKind::Emph, "", Some(1)),
    (SyntaxKind::Space, " ", None),
    (SyntaxKind::Error, "", None),
    (SyntaxKind::Ident, "x", None),
    (SyntaxKind::Args, "", Some(1)),
    (SyntaxKind::Markup, "", Some(5)),
];

/// The tree's nodes in preorder.
const VISITS: [Seen; 10] = [
    (SyntaxKind::Markup, 0, 0),
    (SyntaxKind::Text, 0, 1),
    (SyntaxKind::Emph, 2, 1),
    (SyntaxKind::Strong, 2, 2),
    (SyntaxKind::Text, 2, 3),
    (SyntaxKind::Math, 3, 3),
    (SyntaxKind::Space, 3, 1),
    (SyntaxKind::Error, 4, 1),
    (SyntaxKind::Args, 4, 1),
    (SyntaxKind::Ident, 4, 2),
];

/// What a walk comes to.
fn seen(alloc: Global, walk: Preorder<'_>) -> Result<Vec<Seen>, AllocError> {
    let mut all = Vec::new(alloc);
    let mut walk = walk;
    while let Some(visit) = walk.next()? {
        all.push((visit.node.kind(), visit.offset, visit.depth))?;
    }
    Ok(all)
}

#[test]
fn comes_to_each_node_before_its_children(rt: HostRuntime) {
    let root = tree(rt.alloc(), &TREE).expect(&rt, "memory");
    let all = seen(rt.alloc(), root.preorder(rt.alloc())).expect(&rt, "memory");
    assert!(rt; all.as_slice() == VISITS.as_slice());
}

/// How far before the last offset the nodes of `TREE` begin if it begins three bytes before that.
static LATE: [usize; 10] = [3, 3, 1, 1, 1, 0, 0, 0, 0, 0];

#[test]
fn offsets_end_at_the_largest(rt: HostRuntime) {
    let root = tree(rt.alloc(), &TREE).expect(&rt, "memory");
    let walk = Preorder::new(rt.alloc(), &root, usize::MAX - 3);
    let all = seen(rt.alloc(), walk).expect(&rt, "memory");
    assert!(rt; all.len() == LATE.len());
    for ((_, offset, _), before) in all.iter().zip(LATE.iter()) {
        assert!(rt; usize::MAX.saturating_sub(*offset) == *before);
    }
}

/// How many levels a chain has, each of them a node with the next one below it.
const LEVELS: usize = 100_000;

/// A chain of nodes over an `a`, each with a `b` before or after the next one.
fn chain(alloc: Global, is_last: bool) -> Result<SyntaxNode, AllocError> {
    let mut node = SyntaxNode::leaf(alloc, SyntaxKind::Ident, "a")?;
    for _ in 1..LEVELS {
        let mut kids = Vec::with_capacity(alloc, 2)?;
        kids.push(node)?;
        kids.push(SyntaxNode::leaf(alloc, SyntaxKind::Text, "b")?)?;
        if is_last {
            kids.reverse();
        }
        node = SyntaxNode::inner(SyntaxKind::FieldAccess, kids);
    }
    Ok(node)
}

/// What a walk down a chain comes to: how many nodes, the one with this number, and the last one.
fn down(
    alloc: Global,
    is_last: bool,
    number: usize,
) -> Result<(usize, Option<Seen>, Option<Seen>), AllocError> {
    let root = chain(alloc, is_last)?;
    let all = seen(alloc, root.preorder(alloc))?;
    Ok((all.len(), all.get(number).copied(), all.last().copied()))
}

/// A walk comes to the end of a chain whose nodes are first children, and back, and to that of one whose nodes
/// are last children.
#[test]
fn goes_down_long_chains(rt: HostRuntime) {
    let lowest = (SyntaxKind::Ident, 0, LEVELS - 1);
    let last = (SyntaxKind::Text, LEVELS - 1, 1);
    let found = down(rt.alloc(), false, LEVELS - 1).expect(&rt, "memory");
    assert!(rt; found == (2 * LEVELS - 1, Some(lowest), Some(last)));
    let middle = (SyntaxKind::FieldAccess, LEVELS / 2, LEVELS / 2);
    let last = (SyntaxKind::Ident, LEVELS - 1, LEVELS - 1);
    let found = down(rt.alloc(), true, LEVELS).expect(&rt, "memory");
    assert!(rt; found == (2 * LEVELS - 1, Some(middle), Some(last)));
}
