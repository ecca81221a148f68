//! What is edited after a character that was typed.

use std::alloc::Global;
use typst_document::{Document, Extents};
use typst_features::next_item;
use typst_protocol::values::TextEdit;
use typst_protocol::{Params, Refusal, json_of};

/// The edits after a character: after a line end the marker of the next item of a list, or none of an empty one.
pub fn edits_after(
    alloc: Global,
    document: &Document,
    params: Params<'_>,
) -> Result<String, Refusal> {
    let byte = document.byte_of(params.position()?);
    let edit = if params.typed()? == "\n" {
        next_item(alloc, document.root(), document.text(), byte)?
    } else {
        None
    };
    let mut extents = Extents::new(document);
    let mut written = Vec::new(alloc);
    if let Some(edit) = &edit {
        written.push(TextEdit {
            range: extents.of(&edit.range),
            new_text: edit.text.as_str(),
        })?;
    }
    json_of(alloc, &written)
}
