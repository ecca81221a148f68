//! The HTML of four documents that are built node by node.

use crate::refusals::{DEEP, is_confirmed};
use crate::rows::{Row, tree};
use std::alloc::Global;
use typst_highlight::highlight_html;
use typst_kinds::SyntaxKind;

/// A heading from right to left with an equals sign of its own, and after it tabs: in a text, in
/// raw text and between them.
pub(crate) const RIGHT_TO_LEFT: [Row; 25] = [
    (SyntaxKind::HeadingMarker, "=", None),
    (SyntaxKind::Space, " ", None),
    (SyntaxKind::Text, "שלום", None),
    (SyntaxKind::Space, " ", None),
    (SyntaxKind::Star, "*", None),
    (SyntaxKind::Text, "עולם", None),
    (SyntaxKind::Markup, "", Some(1)),
    (SyntaxKind::Star, "*", None),
    (SyntaxKind::Strong, "", Some(3)),
    (SyntaxKind::Text, "\u{200f}", None),
    (SyntaxKind::SmartQuote, "\"", None),
    (SyntaxKind::Text, "<", None),
    (SyntaxKind::SmartQuote, "\"", None),
    (SyntaxKind::Markup, "", Some(7)),
    (SyntaxKind::Eq, "=", None),
    (SyntaxKind::Heading, "", Some(4)),
    (SyntaxKind::Parbreak, "\n\n\t", None),
    (SyntaxKind::Text, "a", None),
    (SyntaxKind::Space, "\t", None),
    (SyntaxKind::RawDelim, "`", None),
    (SyntaxKind::Text, "\tx", None),
    (SyntaxKind::RawDelim, "`", None),
    (SyntaxKind::Raw, "", Some(3)),
    (SyntaxKind::Label, "<l>", None),
    (SyntaxKind::Markup, "", Some(6)),
];

const RIGHT_TO_LEFT_HTML: &str =
    "<code><span class=\"typ-heading\">= שלום <span class=\"typ-strong\">*עולם*</span>\u{200f}&quot;&lt;&quot;=</span>\n\n\ta\t<span class=\"typ-raw\">`\tx`</span><span class=\"typ-label\">&lt;l&gt;</span></code>";

/// A term with a call after it.
pub(crate) const TERM: [Row; 22] = [
    (SyntaxKind::TermMarker, "/", None),
    (SyntaxKind::Space, " ", None),
    (SyntaxKind::Text, "a", None),
    (SyntaxKind::Markup, "", Some(1)),
    (SyntaxKind::Colon, ":", None),
    (SyntaxKind::Space, " ", None),
    (SyntaxKind::Text, "b & 'c'", None),
    (SyntaxKind::Space, " ", None),
    (SyntaxKind::Hash, "#", None),
    (SyntaxKind::Ident, "f", None),
    (SyntaxKind::LeftBracket, "[", None),
    (SyntaxKind::Text, "x", None),
    (SyntaxKind::Markup, "", Some(1)),
    (SyntaxKind::RightBracket, "]", None),
    (SyntaxKind::ContentBlock, "", Some(3)),
    (SyntaxKind::Args, "", Some(1)),
    (SyntaxKind::FuncCall, "", Some(2)),
    (SyntaxKind::Markup, "", Some(4)),
    (SyntaxKind::TermItem, "", Some(6)),
    (SyntaxKind::Space, " ", None),
    (SyntaxKind::Text, "d", None),
    (SyntaxKind::Markup, "", Some(3)),
];

const TERM_HTML: &str =
    "<code><span class=\"typ-marker\">/</span> <span class=\"typ-term\">a</span><span class=\"typ-punct\">:</span> b &amp; &#39;c&#39; <span class=\"typ-func\">#</span><span class=\"typ-func\">f</span><span class=\"typ-punct\">[</span>x<span class=\"typ-punct\">]</span> d</code>";

/// A binding, and errors before and after it.
pub(crate) const ERRORS: [Row; 10] = [
    (SyntaxKind::Error, "*/", None),
    (SyntaxKind::Hash, "#", None),
    (SyntaxKind::Let, "let", None),
    (SyntaxKind::Space, " ", None),
    (SyntaxKind::Ident, "x", None),
    (SyntaxKind::Eq, "=", None),
    (SyntaxKind::Str, "\"a\"", None),
    (SyntaxKind::LetBinding, "", Some(5)),
    (SyntaxKind::Error, ">", None),
    (SyntaxKind::Markup, "", Some(4)),
];

const ERRORS_HTML: &str =
    "<code>*/<span class=\"typ-key\">#</span><span class=\"typ-key\">let</span> x<span class=\"typ-op\">=</span><span class=\"typ-str\">&quot;a&quot;</span>&gt;</code>";

const DEEP_HTML: &str =
    "<code><span class=\"typ-emph\"><span class=\"typ-strong\">ab</span></span></code>";

/// A document and its HTML.
type Shown = (&'static [Row], &'static str);

static SHOWN: [Shown; 4] = [
    (&RIGHT_TO_LEFT, RIGHT_TO_LEFT_HTML),
    (&TERM, TERM_HTML),
    (&ERRORS, ERRORS_HTML),
    (&DEEP, DEEP_HTML),
];

/// Whether this is the HTML of the tree of these rows.
fn shows(alloc: Global, rows: &[Row], html: &str) -> Option<bool> {
    let root = tree(alloc, rows)?;
    Some(highlight_html(alloc, &root).ok()?.as_str() == html)
}

/// HTML is right, also the next time after refused memory: `rt try --test --fail-alloc N` refuses the Nth request.
#[test]
fn documents_have_their_html(rt: HostRuntime) {
    let alloc = rt.alloc();
    for (rows, html) in &SHOWN {
        assert!(rt; is_confirmed(shows(alloc, rows, html), shows(alloc, rows, html)));
    }
}
