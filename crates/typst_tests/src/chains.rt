use crate::rows::{Part, long_tree};
use std::alloc::Global;
use typst_highlight::highlight_html;
use typst_kinds::SyntaxKind;

/// How long the chain and the row are.
const COUNT: usize = 1000;

/// A hash before the names `a.a.a`, as many.
static CHAIN: [Part; 3] = [
    (
        &[
            (SyntaxKind::Hash, "#", None),
            (SyntaxKind::Ident, "a", None),
        ],
        1,
    ),
    (
        &[
            (SyntaxKind::Dot, ".", None),
            (SyntaxKind::Ident, "a", None),
            (SyntaxKind::FieldAccess, "", Some(3)),
        ],
        COUNT - 1,
    ),
    (&[(SyntaxKind::Markup, "", Some(2))], 1),
];

/// As many hashes, and a name after the last.
static HASHES: [Part; 2] = [
    (&[(SyntaxKind::Hash, "#", None)], COUNT),
    (
        &[
            (SyntaxKind::Ident, "a", None),
            (SyntaxKind::Markup, "", Some(COUNT + 1)),
        ],
        1,
    ),
];

/// A beginning, a text `COUNT - 1` times, and an end.
type Html = (&'static str, &'static str, &'static str);

const CHAIN_HTML: Html = (
    "<code><span class=\"typ-pol\">#</span><span class=\"typ-pol\">a</span>",
    "<span class=\"typ-punct\">.</span><span class=\"typ-pol\">a</span>",
    "</code>",
);

const HASHES_HTML: Html = (
    "<code>",
    "#",
    "<span class=\"typ-pol\">#</span><span class=\"typ-pol\">a</span></code>",
);

/// Whether this is the HTML of the tree of these parts.
fn shows(alloc: Global, parts: &[Part], (begin, text, end): Html) -> Option<bool> {
    let middle = text.repeat(alloc, COUNT - 1).ok()?;
    let shown = highlight_html(alloc, &long_tree(alloc, parts)?).ok()?;
    let rest = shown.as_str().strip_prefix(begin)?;
    Some(rest.strip_suffix(end) == Some(middle.as_str()))
}

/// Names of a chain are interpolated, and of a row of hashes the last is.
#[test]
fn what_comes_after_a_hash_is_interpolated(rt: HostRuntime) {
    assert!(rt; shows(rt.alloc(), &CHAIN, CHAIN_HTML) == Some(true));
    assert!(rt; shows(rt.alloc(), &HASHES, HASHES_HTML) == Some(true));
}
