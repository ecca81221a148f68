//! Stretches with tags, compared with the tags that each node says.

use crate::html::{ERRORS, RIGHT_TO_LEFT, TERM};
use crate::refusals::is_confirmed;
use crate::rows::{Row, tree};
use std::alloc::Global;
use typst_highlight::{Tag, Tagged, highlight, tag_stretches};
use typst_kinds::SyntaxKind;
use typst_tree::LinkedNode;

/// How many nodes above a leaf are asked, more than there are in any of the trees.
const MOST_ABOVE: usize = 16;

/// A reference and a label in a heading, an error with children, an empty leaf, and a text under an
/// emphasis in the heading.
const NESTED: [Row; 15] = [
    (SyntaxKind::HeadingMarker, "==", None),
    (SyntaxKind::Space, " ", None),
    (SyntaxKind::Text, "", None),
    (SyntaxKind::RefMarker, "@a", None),
    (SyntaxKind::Ref, "", Some(1)),
    (SyntaxKind::Underscore, "_", None),
    (SyntaxKind::Text, "b", None),
    (SyntaxKind::Markup, "", Some(1)),
    (SyntaxKind::Underscore, "_", None),
    (SyntaxKind::Emph, "", Some(3)),
    (SyntaxKind::Error, "!", None),
    (SyntaxKind::Markup, "", Some(4)),
    (SyntaxKind::Heading, "", Some(3)),
    (SyntaxKind::Error, "?", None),
    (SyntaxKind::Markup, "", Some(2)),
];

/// The tag of a node, or of the nearest one above it that has one, errors aside.
fn innermost(leaf: LinkedNode) -> Option<Tag> {
    let mut bearer = Some(leaf);
    for _ in 0..MOST_ABOVE {
        let node = bearer?;
        match highlight(&node) {
            None | Some(Tag::Error) => bearer = node.parent(),
            found => return found,
        }
    }
    None
}

/// Whether stretches are the leaves of a tree, each with the tag that the nodes above it say.
fn agree(root: LinkedNode, stretches: &[Tagged]) -> bool {
    let mut end = 0;
    for stretch in stretches {
        match root.leaf_at(end) {
            Some(leaf) if stretch.range == leaf.range() && stretch.tag == innermost(leaf) => {
                end = stretch.range.end;
            }
            _ => return false,
        }
    }
    end == root.range().end
}

/// Whether the stretches of a tree are such.
fn has_stretches(alloc: Global, rows: &[Row]) -> Option<bool> {
    let root = tree(alloc, rows)?;
    if root.descendants() == usize::MAX {
        return None;
    }
    let stretches = tag_stretches(alloc, &root).ok()?;
    Some(agree(LinkedNode::new(&root), stretches.as_slice()))
}

static TREES: [&[Row]; 4] = [&RIGHT_TO_LEFT, &TERM, &ERRORS, &NESTED];

/// The stretches of `NESTED`: where each ends, and its tag.
static WANTED: [(usize, Option<Tag>); 8] = [
    (2, Some(Tag::Heading)),
    (3, Some(Tag::Heading)),
    (5, Some(Tag::Ref)),
    (6, Some(Tag::Emph)),
    (7, Some(Tag::Emph)),
    (8, Some(Tag::Emph)),
    (9, Some(Tag::Heading)),
    (10, None),
];

/// Whether the stretches of `NESTED` are these.
fn are_wanted(alloc: Global) -> Option<bool> {
    let stretches = tag_stretches(alloc, &tree(alloc, &NESTED)?).ok()?;
    for (stretch, (end, tag)) in stretches.iter().zip(WANTED.iter()) {
        if stretch.range.end != *end || stretch.tag != *tag {
            return Some(false);
        }
    }
    Some(stretches.len() == WANTED.len())
}

/// Stretches have the tags of their leaves, an error that round it, whichever request for memory is refused:
/// `rt try --test --fail-alloc N`.
#[test]
fn stretches_have_the_tags_of_their_leaves(rt: HostRuntime) {
    let alloc = rt.alloc();
    for rows in &TREES {
        assert!(rt; is_confirmed(has_stretches(alloc, rows), has_stretches(alloc, rows)));
    }
    assert!(rt; is_confirmed(are_wanted(alloc), are_wanted(alloc)));
}
