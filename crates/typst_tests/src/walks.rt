use crate::rows::{Row, leaf, tree};
use crate::trees::{END, numbered, numbers};
use std::alloc::Global;
use typst_kinds::{FileId, Span, SpanNumber, SyntaxKind};
use typst_tree::{LinkedNode, SyntaxNode, is_ordered};

/// `ab ( ab)xab `, with an empty inner node before the error `x`.
const TREE: [Row; 10] = [
    (SyntaxKind::Ident, "ab", None),
    (SyntaxKind::Space, " ", None),
    (SyntaxKind::Space, " ", None),
    (SyntaxKind::Ident, "ab", None),
    (SyntaxKind::Strong, "", Some(2)),
    (SyntaxKind::Math, "", Some(0)),
    (SyntaxKind::Error, "x", None),
    (SyntaxKind::Ident, "ab", None),
    (SyntaxKind::Space, " ", None),
    (SyntaxKind::Markup, "", Some(7)),
];

/// Where a node begins and ends, and the places in preorder of its parent, next sibling, leaf before, leaf
/// after and first leaf within.
type Standing = (usize, usize, [Option<usize>; 5]);

/// The nodes of `TREE` in preorder.
const PLACES: [Standing; 10] = [
    (0, 10, [None, None, None, None, Some(1)]),
    (0, 2, [Some(0), Some(3), None, Some(5), Some(1)]),
    (2, 3, [Some(0), Some(3), Some(1), Some(5), None]),
    (3, 6, [Some(0), Some(6), Some(1), Some(6), Some(5)]),
    (3, 4, [Some(3), Some(5), Some(1), Some(5), None]),
    (4, 6, [Some(3), None, Some(1), Some(6), Some(5)]),
    (6, 6, [Some(0), Some(7), Some(5), Some(8), Some(6)]),
    (6, 7, [Some(0), Some(8), Some(6), Some(8), None]),
    (7, 9, [Some(0), None, Some(6), None, Some(8)]),
    (9, 10, [Some(0), None, Some(8), None, None]),
];

/// The leaves of `TREE` by the bytes that they hold.
const LEAVES: [Option<usize>; 11] = [
    Some(1),
    Some(1),
    Some(2),
    Some(4),
    Some(5),
    Some(5),
    Some(7),
    Some(8),
    Some(8),
    Some(9),
    None,
];

/// The place in preorder of a node, by its number.
fn place(numbers: &[u64], node: Option<LinkedNode>) -> Option<usize> {
    let own = node?.get().span().number_or_zero();
    for (place, number) in numbers.iter().enumerate() {
        if *number == own {
            return Some(place);
        }
    }
    None
}

/// Whether the node with a number, which is found by it, has its range and its steps.
fn is_at(
    top: LinkedNode,
    numbers: &[u64],
    number: u64,
    (begin, end, wanted): Standing,
) -> Option<bool> {
    let node = top.find_number(SpanNumber::new(number)?)?;
    let is_there = node.offset() == begin && node.range().end == end;
    let steps = [
        place(numbers, node.parent()),
        place(numbers, node.next_sibling()),
        place(numbers, node.prev_leaf()),
        place(numbers, node.next_leaf()),
        place(numbers, node.leftmost_leaf()),
    ];
    Some(is_there && steps == wanted)
}

/// `TREE` with numbers, or nothing where memory was refused.
fn linked(alloc: Global) -> Option<SyntaxNode> {
    numbered(tree(alloc, &TREE)?, END)
}

/// Whether the leaves and the nodes of `TREE` are those of the lists.
fn walks_from(top: LinkedNode, numbers: &[u64]) -> bool {
    let (leaves, places) = (LEAVES, PLACES);
    for (byte, wanted) in leaves.iter().enumerate() {
        if place(numbers, top.leaf_at(byte)) != *wanted {
            return false;
        }
    }
    for (number, place) in numbers.iter().zip(places.iter()) {
        if is_at(top, numbers, *number, *place) != Some(true) {
            return false;
        }
    }
    numbers.len() == places.len()
}

/// The steps are the same where the tree is known to be in order.
#[test]
fn walks(rt: HostRuntime) {
    let root = linked(rt.alloc()).expect(&rt, "memory");
    let numbers = numbers(rt.alloc(), &root).expect(&rt, "memory");
    assert!(rt; root.descendants() == 10 && is_ordered(&root));
    assert!(rt; walks_from(LinkedNode::new(&root), numbers.as_slice()));
    assert!(rt; walks_from(LinkedNode::ordered(&root), numbers.as_slice()));
}

/// Whether what is read of the node is what the error of `TREE` has.
fn is_the_error(node: LinkedNode) -> bool {
    let kinds = [
        Some(node.kind()),
        node.parent_kind(),
        node.next_sibling_kind(),
    ];
    kinds
        == [
            Some(SyntaxKind::Error),
            Some(SyntaxKind::Markup),
            Some(SyntaxKind::Ident),
        ]
        && node.leaf_text() == "x"
        && node.offset() == 6
        && !node.hash_expr()
}

/// `TREE` has its error once.
#[test]
fn reads_through_the_children(rt: HostRuntime) {
    let root = linked(rt.alloc()).expect(&rt, "memory");
    assert!(rt; root.descendants() == 10);
    let mut errors: u32 = 0;
    for child in LinkedNode::new(&root).children() {
        if is_the_error(child) {
            errors = errors.saturating_add(1);
        }
    }
    assert!(rt; errors == 1);
}

/// Where the first node with a span begins.
fn found(top: LinkedNode, span: Span) -> Option<usize> {
    Some(top.find(span)?.offset())
}

/// A span of the first file.
fn span(number: u64) -> Option<Span> {
    Some(Span::new(FileId::new(1)?, SpanNumber::new(number)?))
}

/// Among three leaves under a detached node.
#[test]
fn finds_the_first_without_order(rt: HostRuntime) {
    let three = span(3).expect(&rt, "a span");
    let ten = span(10).expect(&rt, "a span");
    let mut kids = Vec::new(rt.alloc());
    for span in [ten, three, ten] {
        let mut kid = leaf(rt.alloc(), SyntaxKind::Ident, "ab").expect(&rt, "memory");
        kid.synthesize(span);
        assert!(rt; kids.push(kid).is_ok());
    }
    let root = SyntaxNode::inner(SyntaxKind::Markup, kids);
    assert!(rt; root.descendants() == 4 && !is_ordered(&root));
    let top = LinkedNode::new(&root);
    assert!(rt; found(top, ten) == Some(0) && found(top, three) == Some(2));
    assert!(rt; found(top, Span::detached()) == Some(0));
}
