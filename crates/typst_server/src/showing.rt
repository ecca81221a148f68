//! What is shown of a position: what is known of it, and what a word there may become.

use std::alloc::Global;
use typst_document::{Document, Extents};
use typst_features::{CompletionKind, completions_at, hover_at};
use typst_protocol::values::{CompletionItem, CompletionList, Hover, MarkupContent, TextEdit};
use typst_protocol::{Params, Refusal, json_of};

/// What is known of what stands at the cursor, as plain text, or `null`.
pub fn hover(alloc: Global, document: &Document, params: Params<'_>) -> Result<String, Refusal> {
    let byte = document.byte_of(params.position()?);
    match hover_at(alloc, document.root(), document.text(), byte)? {
        Some(found) => {
            let hover = Hover {
                contents: MarkupContent {
                    kind: "plaintext",
                    value: document.text_at(&found.shown),
                },
                range: Extents::new(document).of(&found.range),
            };
            json_of(alloc, &hover)
        }
        None => Ok(String::from_str(alloc, "null")?),
    }
}

/// What the word before the cursor may become: all of it, so that the client needn't ask again as the word
/// grows.
pub fn completion(
    alloc: Global,
    document: &Document,
    params: Params<'_>,
) -> Result<String, Refusal> {
    let byte = document.byte_of(params.position()?);
    let mut list = CompletionList {
        is_incomplete: false,
        items: Vec::new(alloc),
    };
    if let Some(found) = completions_at(alloc, document.root(), document.text(), byte)? {
        let range = Extents::new(document).of(&found.range);
        for word in &found.words {
            list.items.push(CompletionItem {
                label: *word,
                kind: number_of(found.kind),
                text_edit: TextEdit {
                    range,
                    new_text: *word,
                },
            })?;
        }
    }
    json_of(alloc, &list)
}

/// The protocol's number of a kind of completion.
fn number_of(kind: CompletionKind) -> u8 {
    match kind {
        CompletionKind::Name => 6,
        CompletionKind::Label => 18,
    }
}
