//! Steps in trees with rows of more than 128 children, held against a list of their nodes.

use crate::rows::{Part, Row, long_tree};
use crate::trees::{END, numbered};
use std::alloc::Global;
use typst_kinds::SyntaxKind;
use typst_tree::{LinkedNode, SyntaxNode, is_ordered};

/// A node of a tree, by places in preorder.
#[derive(Clone, Copy)]
struct Place {
    parent: Option<usize>,
    /// After all that is below it.
    after: usize,
    begin: usize,
    end: usize,
    is_leaf: bool,
    is_trivia: bool,
    /// A leaf that is neither trivia nor an error.
    counts: bool,
    number: u64,
}

/// A node, and the place of the one above it.
type Left<'a> = (&'a SyntaxNode, Option<usize>);

/// Puts the children of the node at a place on a list of nodes that are left, the first one last.
fn leave_nodes<'a>(left: &mut Vec<Left<'a>>, node: &'a SyntaxNode, place: usize) -> Option<()> {
    for kid in node.children().iter().rev() {
        left.push((kid, Some(place))).ok()?;
    }
    Some(())
}

/// The nodes in preorder, as if none had another below it.
fn alone(alloc: Global, root: &SyntaxNode) -> Option<Vec<Place>> {
    let mut all = Vec::new(alloc);
    let mut left = Vec::new(alloc);
    left.push((root, None)).ok()?;
    let mut begin = 0usize;
    for place in 0..100_000usize {
        let Some((node, parent)) = left.pop() else {
            break;
        };
        let end = begin.saturating_add(node.leaf_text().len());
        let (is_leaf, is_trivia) = (node.children().is_empty(), node.kind().is_trivia());
        let own = Place {
            parent,
            after: place.saturating_add(1),
            begin,
            end,
            is_leaf,
            is_trivia,
            counts: is_leaf && !is_trivia && !node.kind().is_error(),
            number: node.span().number_or_zero(),
        };
        all.push(own).ok()?;
        begin = end;
        leave_nodes(&mut left, node, place)?;
    }
    Some(all)
}

/// The node above the one at a place goes as far as this one.
fn reach(places: &mut [Place], place: usize) {
    let Some(own) = places.get(place).copied() else {
        return;
    };
    let Some(parent) = own.parent else {
        return;
    };
    if let Some(above) = places.get_mut(parent) {
        above.after = above.after.max(own.after);
        above.end = above.end.max(own.end);
    }
}

/// The nodes in preorder.
fn places(alloc: Global, root: &SyntaxNode) -> Option<Vec<Place>> {
    let mut all = alone(alloc, root)?;
    for place in (0..all.len()).rev() {
        reach(all.as_mut_slice(), place);
    }
    Some(all)
}

/// What a step looks for.
#[derive(Clone, Copy)]
enum Aim {
    /// A child of this node that is no trivia.
    Child(Option<usize>),
    /// A leaf that counts.
    Leaf,
    /// A leaf that holds the byte.
    Byte(usize),
}

/// The first place from one on and before another whose node is looked for.
fn first_place(places: &[Place], from: usize, to: usize, aim: Aim) -> Option<usize> {
    for place in from..to {
        let own = places.get(place)?;
        let is_aim = match aim {
            Aim::Child(parent) => own.parent == parent && !own.is_trivia,
            Aim::Leaf => own.counts,
            Aim::Byte(byte) => own.is_leaf && own.begin <= byte && byte < own.end,
        };
        if is_aim {
            return Some(place);
        }
    }
    None
}

/// The last place before one whose node is a leaf that counts.
fn leaf_before(places: &[Place], to: usize) -> Option<usize> {
    for place in (0..to).rev() {
        if places.get(place)?.counts {
            return Some(place);
        }
    }
    None
}

/// Where the steps from a node lead: `parent`, `next_sibling`, `prev_leaf`, `next_leaf`, `leftmost_leaf`
/// and `leaf_at` of its first byte.
fn wanted(places: &[Place], place: usize) -> Option<[Option<usize>; 6]> {
    let own = *places.get(place)?;
    let all = places.len();
    Some([
        own.parent,
        first_place(places, own.after, all, Aim::Child(own.parent)),
        leaf_before(places, place),
        first_place(places, own.after, all, Aim::Leaf),
        first_place(places, place, own.after, Aim::Leaf),
        first_place(places, place, own.after, Aim::Byte(own.begin)),
    ])
}

/// Whether the node stands at a place of the list.
fn stands(places: &[Place], node: LinkedNode, place: usize) -> bool {
    match places.get(place) {
        Some(own) => {
            node.get().span().number_or_zero() == own.number
                && node.offset() == own.begin
                && node.range().end == own.end
        }
        None => false,
    }
}

/// Whether both are nothing, or the node stands at the place and its steps lead where they ought to: so many
/// steps one after the other.
fn leads(places: &[Place], node: Option<LinkedNode>, place: Option<usize>, count: usize) -> bool {
    let (Some(node), Some(place)) = (node, place) else {
        return node.is_none() && place.is_none();
    };
    if count == 0 {
        return stands(places, node, place);
    }
    let Some(wanted) = wanted(places, place) else {
        return false;
    };
    let steps = [
        node.parent(),
        node.next_sibling(),
        node.prev_leaf(),
        node.next_leaf(),
        node.leftmost_leaf(),
        node.leaf_at(node.offset()),
    ];
    for i in 0..6 {
        if !leads(places, steps[i], wanted[i], count - 1) {
            return false;
        }
    }
    stands(places, node, place)
}

/// The place of a node, by its number.
fn place_of(places: &[Place], node: LinkedNode) -> Option<usize> {
    let number = node.get().span().number_or_zero();
    for place in 0..places.len() {
        if places[place].number == number {
            return Some(place);
        }
    }
    None
}

/// Whether all steps lead where they ought to from a node as `children` gives it, and from each that they lead
/// to; and from the node as it is found by its number.
fn walks_at(places: &[Place], top: LinkedNode, node: LinkedNode) -> Option<bool> {
    let place = Some(place_of(places, node)?);
    let found = Some(top.find_number(node.get().span().number()?)?);
    Some(leads(places, Some(node), place, 2) && leads(places, found, place, 1))
}

/// Whether that holds of each node of the tree.
fn walks(alloc: Global, places: &[Place], top: LinkedNode) -> Option<bool> {
    let mut left = Vec::new(alloc);
    left.push(top).ok()?;
    for _ in 0..places.len() {
        let node = left.pop()?;
        if !walks_at(places, top, node)? {
            return Some(false);
        }
        for kid in node.children() {
            left.push(kid).ok()?;
        }
    }
    Some(left.is_empty())
}

/// Whether all steps in the tree, whose order is known or not, lead where they ought to.
fn walks_both(alloc: Global, root: &SyntaxNode) -> Option<bool> {
    if root.descendants() > 100_000 || !is_ordered(root) {
        return None;
    }
    let places = places(alloc, root)?;
    let any = walks(alloc, places.as_slice(), LinkedNode::new(root))?;
    Some(any && walks(alloc, places.as_slice(), LinkedNode::ordered(root))?)
}

const X: &[Row] = &[(SyntaxKind::Ident, "x", None)];

const AB: &[Row] = &[(SyntaxKind::Ident, "ab", None)];

const SPACE: &[Row] = &[(SyntaxKind::Space, " ", None)];

/// An error and a space.
const ODD: &[Row] = &[
    (SyntaxKind::Error, "?", None),
    (SyntaxKind::Space, " ", None),
];

const A: &[Row] = &[(SyntaxKind::Ident, "a", None)];

/// Goes around the node before it.
const LINK: &[Row] = &[(SyntaxKind::Strong, "", Some(1))];

/// A leaf below five nodes with one child each.
const CHAIN: &[Row] = &[
    (SyntaxKind::Ident, "a", None),
    (SyntaxKind::Strong, "", Some(1)),
    (SyntaxKind::Strong, "", Some(1)),
    (SyntaxKind::Strong, "", Some(1)),
    (SyntaxKind::Strong, "", Some(1)),
    (SyntaxKind::Strong, "", Some(1)),
];

/// A leaf below six nodes with one child each.
const LONG_CHAIN: &[Row] = &[
    (SyntaxKind::Ident, "a", None),
    (SyntaxKind::Strong, "", Some(1)),
    (SyntaxKind::Strong, "", Some(1)),
    (SyntaxKind::Strong, "", Some(1)),
    (SyntaxKind::Strong, "", Some(1)),
    (SyntaxKind::Strong, "", Some(1)),
    (SyntaxKind::Strong, "", Some(1)),
];

/// A long row, some of whose leaves are trivia or errors, with a chain in its middle.
const LONG_ROW: [Part; 7] = [
    (X, 75),
    (SPACE, 1),
    (A, 1),
    (LINK, 2),
    (ODD, 1),
    (AB, 75),
    (&[(SyntaxKind::Markup, "", Some(154))], 1),
];

/// A long row in a short one in a long one.
const ROW_IN_ROW: [Part; 17] = [
    (X, 65),
    (SPACE, 1),
    (X, 2),
    (SPACE, 1),
    (X, 70),
    (SPACE, 1),
    (A, 1),
    (LINK, 1),
    (ODD, 1),
    (AB, 70),
    (&[(SyntaxKind::Markup, "", Some(144))], 1),
    (ODD, 1),
    (AB, 2),
    (&[(SyntaxKind::Markup, "", Some(8))], 1),
    (ODD, 1),
    (AB, 65),
    (&[(SyntaxKind::Markup, "", Some(134))], 1),
];

/// A long row of chains between two spaces.
const CHAINS: [Part; 4] = [
    (SPACE, 1),
    (CHAIN, 130),
    (SPACE, 1),
    (&[(SyntaxKind::Markup, "", Some(132))], 1),
];

/// A row with a child that is larger than it.
const LARGE_CHILD: [Part; 18] = [
    (X, 1),
    (SPACE, 1),
    (X, 65),
    (SPACE, 1),
    (X, 2),
    (SPACE, 2),
    (LONG_CHAIN, 60),
    (SPACE, 1),
    (&[(SyntaxKind::Markup, "", Some(62))], 1),
    (ODD, 1),
    (AB, 2),
    (&[(SyntaxKind::Markup, "", Some(8))], 1),
    (ODD, 1),
    (AB, 65),
    (&[(SyntaxKind::Markup, "", Some(134))], 1),
    (ODD, 1),
    (AB, 1),
    (&[(SyntaxKind::Markup, "", Some(6))], 1),
];

static TREES: [&[Part]; 4] = [&LONG_ROW, &ROW_IN_ROW, &CHAINS, &LARGE_CHILD];

#[test]
fn steps_in_long_rows(rt: HostRuntime) {
    for parts in &TREES {
        let tree = long_tree(rt.alloc(), parts).expect(&rt, "memory");
        let root = numbered(tree, END).expect(&rt, "numbers");
        assert!(rt; walks_both(rt.alloc(), &root) == Some(true));
    }
}
