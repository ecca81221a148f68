//! What of a document can be folded and selected.

use std::alloc::{AllocError, Global};
use typst_document::{Document, Extents};
use typst_features::{Fold, FoldKind, expansions};
use typst_protocol::params::position_of;
use typst_protocol::values::{Extent, Folding, Place, Selection};
use typst_protocol::{Params, Refusal, json_of};

/// How a client folds.
#[derive(Clone, Copy)]
pub struct FoldingStyle {
    /// Whether it folds whole lines alone.
    pub lines_only: bool,
    /// How many stretches it wants of a document at most, if it says so.
    pub limit: Option<usize>,
}

/// The stretches to fold: no more than the client wants, those that end first.
pub fn foldings(
    alloc: Global,
    document: &Document,
    style: FoldingStyle,
) -> Result<String, Refusal> {
    let most = style.limit.unwrap_or(usize::MAX);
    let mut extents = Extents::new(document);
    let mut written = Vec::new(alloc);
    for fold in &typst_features::foldings(alloc, document.root())? {
        if written.len() >= most {
            break;
        }
        if let Some(folding) = folding_of(fold, extents.of(&fold.range), style.lines_only) {
            written.push(folding)?;
        }
    }
    json_of(alloc, &written)
}

/// A stretch to fold, if it takes more than one line. Where whole lines are folded the line of a closing
/// delimiter stays, and there are no columns.
fn folding_of(fold: &Fold, extent: Extent, lines_only: bool) -> Option<Folding> {
    let Extent { start, end } = extent;
    let end_line = if lines_only && fold.is_closed {
        end.line.saturating_sub(1)
    } else {
        end.line
    };
    if end_line <= start.line {
        return None;
    }
    let column_of = |place: Place| if lines_only {
        None
    } else {
        Some(place.character)
    };
    Some(Folding {
        start_line: start.line,
        start_character: column_of(start),
        end_line,
        end_character: column_of(end),
        kind: kind_of(fold.kind),
    })
}

/// The protocol's name of a kind of fold, if it has one.
fn kind_of(kind: FoldKind) -> Option<&'static str> {
    match kind {
        FoldKind::Comment => Some("comment"),
        FoldKind::Region => None,
    }
}

/// For each of the positions the stretches around it, each with the one around it.
pub fn selections(
    alloc: Global,
    document: &Document,
    params: Params<'_>,
) -> Result<String, Refusal> {
    let mut written = Vec::new(alloc);
    for value in params.positions()? {
        let position = position_of(value).ok_or(Refusal::BadParameters)?;
        let byte = document.byte_of(position);
        written.push(selection_at(alloc, document, byte)?)?;
    }
    json_of(alloc, &written)
}

fn selection_at(alloc: Global, document: &Document, byte: usize) -> Result<Selection, AllocError> {
    let mut extents = Extents::new(document);
    let mut around: Option<Box<Selection>> = None;
    let mut ranges = expansions(alloc, document.root(), byte)?;
    ranges.reverse();
    for range in &ranges {
        let selection = Selection {
            range: extents.of(range),
            parent: around,
        };
        around = Some(Box::new(alloc, selection)?);
    }
    match around {
        Some(selection) => Ok(Box::into_inner(selection)),
        None => Ok(Selection {
            range: extents.of(&(byte..byte)),
            parent: None,
        }),
    }
}
