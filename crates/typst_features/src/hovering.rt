//! What is shown of a place in a text.

use crate::naming::{label_name, mention_at};
use std::alloc::{AllocError, Global};
use std::ops::Range;
use typst_kinds::SyntaxKind;
use typst_names::{Placed, binding_of, name_at, names};
use typst_tree::SyntaxNode;

/// What is shown.
#[derive(Debug, Clone, Copy, PartialEq, Eq)]
pub enum HoverKind {
    /// Of a label or a reference the first line of what the label is attached to.
    Labelled,
    /// Of a name the line, up to its end, in which it is bound.
    Binding,
    /// Of a raw text its language.
    Language,
}

/// What is shown of a stretch of a text: another stretch of it.
#[derive(Debug, PartialEq, Eq, Drop)]
pub struct Hover {
    pub kind: HoverKind,
    /// The bytes of what is asked about.
    pub range: Range<usize>,
    /// The bytes that are shown of it, on one line.
    pub shown: Range<usize>,
}

/// What is shown of a byte of a text, if anything is known.
pub fn hover_at(
    alloc: Global,
    root: &SyntaxNode,
    text: &str,
    byte: usize,
) -> Result<Option<Hover>, AllocError> {
    if let Some(mention) = mention_at(root, byte) {
        let Range { start, end } = mention.range;
        return Ok(labelled(alloc, root, mention.name)?.map(|shown| Hover {
            kind: HoverKind::Labelled,
            range: start..end,
            shown: first_line(text, &shown),
        }));
    }
    if let Some(hover) = language_at(root, byte) {
        return Ok(Some(hover));
    }
    binding_at(alloc, root, text, byte)
}

/// The bytes of what the first label of a name is attached to: what is no space before it in its row.
fn labelled(
    alloc: Global,
    root: &SyntaxNode,
    name: &str,
) -> Result<Option<Range<usize>>, AllocError> {
    let mut walk = root.preorder(alloc);
    while let Some(visit) = walk.next()? {
        if visit.node.kind() == SyntaxKind::Markup
            && let Some(shown) = labelled_in(Placed::of(visit), name)
        {
            return Ok(Some(shown));
        }
    }
    Ok(None)
}

/// The bytes of what the first label of a name is attached to, in one row of markup.
fn labelled_in(markup: Placed<'_>, name: &str) -> Option<Range<usize>> {
    let mut before = None;
    let mut start = markup.inner_start();
    for node in markup.node.children() {
        let kid = Placed { node, start };
        if let Some(found) = label_name(node) {
            if found == name {
                return before;
            }
        } else if !node.kind().is_trivia() {
            before = Some(kid.range());
        }
        start = kid.end();
    }
    None
}

/// The language of the raw text that holds a byte.
fn language_at(root: &SyntaxNode, byte: usize) -> Option<Hover> {
    let mut around = Placed::top(root).if_holds(byte);
    while let Some(placed) = around {
        if placed.node.kind() == SyntaxKind::Raw {
            return Some(Hover {
                kind: HoverKind::Language,
                range: placed.range(),
                shown: language_of(placed)?,
            });
        }
        around = placed.child_at(byte);
    }
    None
}

/// The bytes of the language of a raw text, if one stands there.
fn language_of(raw: Placed<'_>) -> Option<Range<usize>> {
    let mut start = raw.inner_start();
    for node in raw.node.children() {
        let kid = Placed { node, start };
        if node.kind() == SyntaxKind::RawLang {
            return Some(kid.range());
        }
        start = kid.end();
    }
    None
}

/// The line in which the name at a byte is bound.
fn binding_at(
    alloc: Global,
    root: &SyntaxNode,
    text: &str,
    byte: usize,
) -> Result<Option<Hover>, AllocError> {
    let names = names(alloc, root)?;
    let Some(index) = name_at(&names, byte) else {
        return Ok(None);
    };
    let Some(binding) = binding_of(text, &names, index) else {
        return Ok(None);
    };
    match (names.get(index), names.get(binding)) {
        (Some(name), Some(bound)) => Ok(Some(Hover {
            kind: HoverKind::Binding,
            range: name.range.start..name.range.end,
            shown: line_around(text, bound.range.start),
        })),
        _ => Ok(None),
    }
}

/// The first line of a stretch of a text.
fn first_line(text: &str, range: &Range<usize>) -> Range<usize> {
    let shown = text.get(range.start..range.end).unwrap_or("");
    let line = match shown.find(|c: char| is_line_end(c)) {
        Some(end) => shown.get(..end).unwrap_or(""),
        None => shown,
    };
    range.start..range.start.saturating_add(line.len())
}

/// The line of a byte, without the space around it.
fn line_around(text: &str, byte: usize) -> Range<usize> {
    let (front, rest) = (
        text.get(..byte).unwrap_or(""),
        text.get(byte..).unwrap_or(""),
    );
    let before = match front.rfind(|c: char| is_line_end(c)) {
        Some(end) => front.get(end.saturating_add(1)..).unwrap_or(""),
        None => front,
    };
    let behind = match rest.find(|c: char| is_line_end(c)) {
        Some(end) => rest.get(..end).unwrap_or(""),
        None => rest,
    };
    let start = byte.saturating_sub(before.trim_start().len());
    start..byte.saturating_add(behind.trim_end().len())
}

fn is_line_end(c: char) -> bool {
    c == '\n' || c == '\r'
}
