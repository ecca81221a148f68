//! Links in a text: addresses, and files that it names.

use std::alloc::{AllocError, Global};
use std::ops::Range;
use typst_kinds::SyntaxKind;
use typst_names::Placed;
use typst_tree::SyntaxNode;

/// What a link leads to.
#[derive(Debug, Clone, Copy, PartialEq, Eq)]
pub enum LinkKind {
    /// An address.
    Address,
    /// A file, by its path from the document's folder, or from the project's where it begins with a slash.
    File,
}

/// A link in a text.
#[derive(Debug, PartialEq, Eq, Drop)]
pub struct DocumentLink<'a> {
    pub kind: LinkKind,
    /// Its bytes, without quotes.
    pub range: Range<usize>,
    /// What stands there.
    pub target: &'a str,
}

/// The links of a text, in order: addresses in markup; texts after `import` and `include`, except packages; and
/// texts that are the first argument of `link` or of a function that reads a file. A text with an escape counts
/// for none. It goes through each node at most twice.
pub fn document_links<'a>(
    alloc: Global,
    root: &'a SyntaxNode,
) -> Result<Vec<DocumentLink<'a>>, AllocError> {
    let mut found = Vec::new(alloc);
    let mut walk = root.preorder(alloc);
    while let Some(visit) = walk.next()? {
        if let Some(link) = link_of(Placed::of(visit)) {
            found.push(link)?;
        }
    }
    Ok(found)
}

/// The link that a node is, or that it names in front of all that it holds.
fn link_of(placed: Placed<'_>) -> Option<DocumentLink<'_>> {
    match placed.node.kind() {
        SyntaxKind::Link => Some(DocumentLink {
            kind: LinkKind::Address,
            range: placed.range(),
            target: placed.node.leaf_text(),
        }),
        SyntaxKind::ModuleImport | SyntaxKind::ModuleInclude => {
            file(child_of(placed, SyntaxKind::Str)?)
        }
        SyntaxKind::FuncCall => link_of_call(placed),
        _ => None,
    }
}

/// The link that a call names by its first argument.
fn link_of_call(call: Placed<'_>) -> Option<DocumentLink<'_>> {
    let callee = call.node.children().first()?;
    let name = callee.leaf_text();
    let args = child_of(call, SyntaxKind::Args)?;
    let text = first_argument(args)?;
    if name == "link" {
        return address(text);
    }
    if reads_file(name) { file(text) } else { None }
}

/// Whether the function of that name in the standard library reads the file that its first argument names.
fn reads_file(name: &str) -> bool {
    matches!(
        name,
        "image"
            | "read"
            | "csv"
            | "json"
            | "toml"
            | "yaml"
            | "xml"
            | "cbor"
            | "bibliography"
            | "plugin"
    )
}

/// The first child of a kind.
fn child_of(placed: Placed<'_>, kind: SyntaxKind) -> Option<Placed<'_>> {
    let mut start = placed.inner_start();
    for node in placed.node.children() {
        let kid = Placed { node, start };
        if node.kind() == kind {
            return Some(kid);
        }
        start = kid.end();
    }
    None
}

/// The first of the arguments in parens, if it is a text.
fn first_argument(args: Placed<'_>) -> Option<Placed<'_>> {
    let mut start = args.inner_start();
    for node in args.node.children() {
        let kid = Placed { node, start };
        let kind = node.kind();
        if kind == SyntaxKind::Str {
            return Some(kid);
        }
        if kind != SyntaxKind::LeftParen && !kind.is_trivia() {
            return None;
        }
        start = kid.end();
    }
    None
}

/// A text as a link to a file, unless it names a package or an address.
fn file(text: Placed<'_>) -> Option<DocumentLink<'_>> {
    let link = quoted(text, LinkKind::File)?;
    if link.target.is_empty() || link.target.starts_with('@') || is_address(link.target) {
        return None;
    }
    Some(link)
}

/// A text as an address.
fn address(text: Placed<'_>) -> Option<DocumentLink<'_>> {
    let link = quoted(text, LinkKind::Address)?;
    if is_address(link.target) {
        Some(link)
    } else {
        None
    }
}

fn is_address(text: &str) -> bool {
    text.starts_with("https://")
        || text.starts_with("http://")
        || text.starts_with("mailto:")
        || text.starts_with("tel:")
}

/// What stands between the quotes of a text without escapes.
fn quoted(text: Placed<'_>, kind: LinkKind) -> Option<DocumentLink<'_>> {
    let target = text.node.leaf_text().strip_prefix('"')?.strip_suffix('"')?;
    if target.contains('\\') {
        return None;
    }
    let start = text.start.saturating_add(1);
    Some(DocumentLink {
        kind,
        range: start..start.saturating_add(target.len()),
        target,
    })
}
