//! What of a document leads elsewhere.

use std::alloc::{AllocError, Global};
use typst_document::{Document, Extents};
use typst_features::{LinkKind, document_links};
use typst_protocol::values::DocumentLink;
use typst_protocol::{Refusal, json_of, neighbour};

/// The links of a document: addresses, and files that it names from its folder. A path from the project's
/// folder isn't one, since the server doesn't know that folder.
pub fn links(alloc: Global, document: &Document, uri: &str) -> Result<String, Refusal> {
    let mut extents = Extents::new(document);
    let mut written = Vec::new(alloc);
    for link in &document_links(alloc, document.root())? {
        if let Some(target) = target_of(alloc, link, uri)? {
            written.push(DocumentLink {
                range: extents.of(&link.range),
                target,
            })?;
        }
    }
    json_of(alloc, &written)
}

/// The address that a link of a document leads to, if it is known.
fn target_of(
    alloc: Global,
    link: &typst_features::DocumentLink<'_>,
    uri: &str,
) -> Result<Option<String>, AllocError> {
    match link.kind {
        LinkKind::Address => Ok(Some(String::from_str(alloc, link.target)?)),
        LinkKind::File => neighbour(alloc, uri, link.target),
    }
}
