//! What calls give of small texts, written out manually.

use crate::walk::{Place, Walk};
use std::alloc::{AllocError, Global};
use typst_lines::{link_prefix, split_newlines};
use typst_parser::{SyntaxKind, SyntaxNode, Tag, Tagged, UnicodeClasses, parse, tag_stretches};

/// A heading with a strong word.
pub const HEADING: &str = "= a *b*";

/// The nodes of its tree, each before its children: the kind, the byte at which it begins, and how deep it lies.
const VISITS: &[Place] = &[
    (SyntaxKind::Markup, 0, 0),
    (SyntaxKind::Heading, 0, 1),
    (SyntaxKind::HeadingMarker, 0, 2),
    (SyntaxKind::Space, 1, 2),
    (SyntaxKind::Markup, 2, 2),
    (SyntaxKind::Text, 2, 3),
    (SyntaxKind::Space, 3, 3),
    (SyntaxKind::Strong, 4, 3),
    (SyntaxKind::Star, 4, 4),
    (SyntaxKind::Markup, 5, 4),
    (SyntaxKind::Text, 5, 5),
    (SyntaxKind::Star, 6, 4),
];

/// A heading, a warning of two underscores, and an error of a star.
const FAULTY: &str = "= a\n__ *b";

/// Of the nodes of its tree those that have a warning or an error, at them or below them.
const MARKED: &[Place] = &[
    (SyntaxKind::Markup, 0, 0),
    (SyntaxKind::Emph, 4, 1),
    (SyntaxKind::Strong, 7, 1),
    (SyntaxKind::Error, 7, 2),
];

/// Nodes with a warning or an error of their own.
const DIAGNOSED: &[Place] = &[(SyntaxKind::Emph, 4, 1), (SyntaxKind::Error, 7, 2)];

/// The bytes of the leaves of the heading, and the tag of each.
static STRETCHES: [(usize, usize, Tag); 7] = [
    (0, 1, Tag::Heading),
    (1, 2, Tag::Heading),
    (2, 3, Tag::Heading),
    (3, 4, Tag::Heading),
    (4, 5, Tag::Strong),
    (5, 6, Tag::Strong),
    (6, 7, Tag::Strong),
];

/// A text with three line ends, of which one is two characters, another one past ASCII.
const LINES: &str = "a\r\nb\n\nc\u{2028}";

/// What stands between them.
const BETWEEN: &[&str] = &["a", "b", "", "c", ""];

/// A text that begins with a link in which a bracket stays open, and the link.
const LINKED: (&str, &str) = ("https://a.b/(c)[d](e. f", "https://a.b/(c)[d](e");

/// Whether a walk comes to its nodes: through the tree of the heading where it comes to all, and else through that
/// of the faulty text.
pub fn has_visits(alloc: Global, walk: Walk, heading: &SyntaxNode) -> Result<bool, AllocError> {
    let places = match walk {
        Walk::Whole => return walk.has(alloc, heading, VISITS),
        Walk::Marked => MARKED,
        Walk::Diagnosed => DIAGNOSED,
    };
    let faulty = parse(alloc, FAULTY, &UnicodeClasses)?;
    walk.has(alloc, &faulty, places)
}

/// Whether the stretches of the tree of the heading are its leaves with their tags.
pub fn has_stretches(alloc: Global, heading: &SyntaxNode) -> Result<bool, AllocError> {
    let found = tag_stretches(alloc, heading)?;
    Ok(are_stretches(found.as_slice()))
}

fn are_stretches(found: &[Tagged]) -> bool {
    let mut rest = found.iter();
    for (start, end, tag) in &STRETCHES {
        match rest.next() {
            Some(stretch) if stretch.range == (*start..*end) && stretch.tag == Some(*tag) => {}
            _ => return false,
        }
    }
    rest.next().is_none()
}

/// Whether a text is split at its line ends.
pub fn has_lines(alloc: Global) -> Result<bool, AllocError> {
    let found = split_newlines(alloc, LINES)?;
    Ok(found.as_slice() == BETWEEN)
}

/// Whether the link is found that a text begins with, and that a bracket stays open in it.
pub fn has_link(alloc: Global) -> Result<bool, AllocError> {
    let (text, link) = LINKED;
    let (found, is_balanced) = link_prefix(alloc, text)?;
    Ok(found == link && !is_balanced)
}
