//! What can be done about a stretch of a document.

use std::alloc::{AllocError, Global};
use typst_document::{Document, Extents};
use typst_fixes::{Edit, Fix, FixKind, quick_fixes};
use typst_protocol::values::{Changes, CodeAction, TextEdit, WorkspaceEdit};
use typst_protocol::{Params, Refusal, json_of};

/// The edits that remove errors and warnings which touch a stretch, if such actions are wanted.
pub fn actions(
    alloc: Global,
    document: &Document,
    uri: &str,
    params: Params<'_>,
) -> Result<String, Refusal> {
    let stretch = params.stretch()?;
    let within = document.byte_of(stretch.start)..document.byte_of(stretch.end);
    let fixes = if params.wants_fixes()? {
        quick_fixes(alloc, document.root(), document.text(), &within)?
    } else {
        Vec::new(alloc)
    };
    let texts = texts_of(alloc, &fixes)?;
    let mut extents = Extents::new(document);
    let mut written = Vec::new(alloc);
    for (fix, put) in fixes.iter().zip(texts.iter()) {
        let mut edits = Vec::new(alloc);
        edits.push(TextEdit {
            range: extents.of(&fix.edit.range),
            new_text: put.text(),
        })?;
        if let Some(further) = &fix.further {
            edits.push(TextEdit {
                range: extents.of(&further.range),
                new_text: put.further(),
            })?;
        }
        let old = document.text_at(&fix.edit.range);
        written.push(CodeAction {
            title: title_of(alloc, fix.kind, old, put.text().trim())?,
            kind: "quickfix",
            edit: WorkspaceEdit {
                changes: Changes { uri, edits },
            },
        })?;
    }
    json_of(alloc, &written)
}

/// What a fix puts in the place of what gives way, first and further on.
#[derive(Drop)]
struct Put {
    text: String,
    further: String,
}

impl Put {
    fn text(&self) -> &str {
        self.text.as_str()
    }

    fn further(&self) -> &str {
        self.further.as_str()
    }
}

/// What each fix puts in the place of what gives way.
fn texts_of(alloc: Global, fixes: &[Fix<'_>]) -> Result<Vec<Put>, AllocError> {
    let mut texts = Vec::new(alloc);
    for fix in fixes {
        let text = text_of(alloc, &fix.edit)?;
        let further = further_of(alloc, fix)?;
        texts.push(Put { text, further })?;
    }
    Ok(texts)
}

/// What the further edit of a fix puts there, or nothing.
fn further_of(alloc: Global, fix: &Fix<'_>) -> Result<String, AllocError> {
    match &fix.further {
        Some(edit) => text_of(alloc, edit),
        None => Ok(String::new(alloc)),
    }
}

/// What an edit puts in the place of what gives way.
fn text_of(alloc: Global, edit: &Edit<'_>) -> Result<String, AllocError> {
    let mut text = String::new(alloc);
    if edit.space_before {
        text.push_str(" ")?;
    }
    text.push_str(edit.text)?;
    if edit.space_behind {
        text.push_str(" ")?;
    }
    Ok(text)
}

/// How a fix is named that puts a text in the place of another one. Of two that close a delimiter the one at the
/// end of its line says so, as editors list them by their names.
fn title_of(alloc: Global, kind: FixKind, old: &str, new: &str) -> Result<String, AllocError> {
    match kind {
        FixKind::Wrap => String::from_str(alloc, "Wrap in a content block"),
        FixKind::LineEnd => format!(in alloc; "Insert `{new}` at the end of the line"),
        _ => title_by(alloc, old, new),
    }
}

/// How an edit is named that puts a text in the place of another one.
fn title_by(alloc: Global, old: &str, new: &str) -> Result<String, AllocError> {
    if old.is_empty() && new.is_empty() {
        return String::from_str(alloc, "Insert a space");
    }
    if new.is_empty() {
        return format!(in alloc; "Remove `{old}`");
    }
    if old.is_empty() {
        return format!(in alloc; "Insert `{new}`");
    }
    format!(in alloc; "Replace `{old}` by `{new}`")
}
