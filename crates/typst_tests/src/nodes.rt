use crate::rows::{Part, leaf, long_tree};
use crate::trees::{END, numbered, same, sample};
use std::mem::size_of;
use typst_kinds::{Severity, Span, SyntaxKind};
use typst_tree::{LinkedNode, SyntaxNode};

#[test]
fn nodes_and_spans_are_small(rt: HostRuntime) {
    assert!(rt; size_of::<SyntaxNode>() == 48 && size_of::<Span>() == 8);
    assert!(rt; size_of::<LinkedNode>() <= 40);
}

fn have_kinds(nodes: &[SyntaxNode], kinds: &[SyntaxKind]) -> bool {
    for (node, kind) in nodes.iter().zip(kinds) {
        if node.kind() != *kind {
            return false;
        }
    }
    nodes.len() == kinds.len()
}

const SAMPLE_KINDS: [SyntaxKind; 4] = [
    SyntaxKind::LeftBracket,
    SyntaxKind::Text,
    SyntaxKind::Strong,
    SyntaxKind::RightBracket,
];

#[test]
fn reads_what_was_made(rt: HostRuntime) {
    let node = sample(rt.alloc()).expect(&rt, "memory");
    assert!(rt; node.kind() == SyntaxKind::ContentBlock && node.span() == Span::detached());
    assert!(rt; node.len() == 7 && node.descendants() == 8 && node.leaf_text() == "");
    assert!(rt; node.is_inner() && !node.is_empty());
    assert!(rt; have_kinds(node.children(), &SAMPLE_KINDS));
}

/// Whether the node has one error, with that message and that hint, or none where it is empty.
fn says(node: &SyntaxNode, message: &str, hint: &str) -> bool {
    match node.diagnostics() {
        [error] if error.severity() == Severity::Error && error.message() == message => {
            match error.hints() {
                [] => hint.is_empty(),
                [only] => hint == only.message(),
                _ => false,
            }
        }
        _ => false,
    }
}

/// A token, what was expected instead of it, and the error's message and hint.
type Expected = (
    SyntaxKind,
    &'static str,
    &'static str,
    &'static str,
    &'static str,
);

const HINT: &str = "keyword `let` is not allowed as an identifier; try `let_` instead";

static EXPECTED: [Expected; 5] = [
    (
        SyntaxKind::Let,
        "let",
        "identifier",
        "expected identifier, found keyword `let`",
        HINT,
    ),
    (
        SyntaxKind::Let,
        "let",
        "pattern",
        "expected pattern, found keyword `let`",
        HINT,
    ),
    (
        SyntaxKind::Let,
        "let",
        "expression",
        "expected expression, found keyword `let`",
        "",
    ),
    (
        SyntaxKind::Underscore,
        "_",
        "identifier",
        "expected identifier, found underscore",
        "",
    ),
    (
        SyntaxKind::None,
        "none",
        "colon",
        "expected colon, found `none`",
        "",
    ),
];

/// A token in whose place a thing was expected says so.
#[test]
fn says_what_was_expected(rt: HostRuntime) {
    for (kind, text, thing, message, hint) in &EXPECTED {
        let mut node = leaf(rt.alloc(), *kind, text).expect(&rt, "memory");
        assert!(rt; node.expected(thing).is_ok() && says(&node, message, hint));
    }
}

/// Whether the node is an error with this text and this message, and no hint.
fn is_error(node: &SyntaxNode, text: &str, message: &str) -> bool {
    node.kind() == SyntaxKind::Error && node.leaf_text() == text && says(node, message, "")
}

/// A bracket that became an error becomes no other one, and no text.
#[test]
fn an_error_stays(rt: HostRuntime) {
    let mut node = leaf(rt.alloc(), SyntaxKind::RightBracket, "]").expect(&rt, "memory");
    assert!(rt; node.unexpected().is_ok() && node.expected("expression").is_ok());
    assert!(rt; node.convert_to_error("again").is_ok());
    node.convert_to_kind(SyntaxKind::Text);
    assert!(rt; is_error(&node, "]", "unexpected closing bracket"));
}

const CONVERTED_KINDS: [SyntaxKind; 4] = [
    SyntaxKind::LeftBracket,
    SyntaxKind::Space,
    SyntaxKind::Strong,
    SyntaxKind::RightBracket,
];

/// A copy is the same, and the copy as an error is another one.
#[test]
fn converts(rt: HostRuntime) {
    let mut node = sample(rt.alloc()).expect(&rt, "memory");
    node.convert_child_to_kind(1, SyntaxKind::Space);
    node.convert_child_to_kind(9, SyntaxKind::Space);
    node.convert_to_kind(SyntaxKind::Markup);
    assert!(rt; node.kind() == SyntaxKind::Markup);
    assert!(rt; have_kinds(node.children(), &CONVERTED_KINDS));
    let mut copy = node.try_clone().expect(&rt, "memory");
    assert!(rt; node.spanless_eq(&copy) && copy.convert_to_error("wrong").is_ok());
    assert!(rt; is_error(&copy, "[a *b*]", "wrong") && !node.spanless_eq(&copy));
}

/// 200,000 leaves under a node.
static WIDE: [Part; 2] = [
    (&[(SyntaxKind::Text, "x", None)], 200_000),
    (&[(SyntaxKind::Markup, "", Some(200_000))], 1),
];

/// A copy has all numbers, and is the same once it has none.
#[test]
fn two_hundred_thousand_children(rt: HostRuntime) {
    let tree = long_tree(rt.alloc(), &WIDE).expect(&rt, "memory");
    let root = numbered(tree, END).expect(&rt, "numbers");
    let mut copy = root.try_clone().expect(&rt, "memory");
    assert!(rt; root.descendants() == 200_001 && copy.span() != Span::detached());
    assert!(rt; same(rt.alloc(), &root, &copy) == Some(true));
    copy.synthesize(Span::detached());
    assert!(rt; copy.span() == Span::detached() && root.spanless_eq(&copy));
}
