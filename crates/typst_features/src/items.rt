//! The next item of a list, where a line is begun after one.

ghost use Rattle.std.specs.Prelude.{◌≡◌};
ghost use Rattle.typst_features.specs.Items as spec;

use std::alloc::{AllocError, Global};
use std::ops::Range;
use typst_kinds::SyntaxKind;
use typst_names::Placed;
use typst_tree::SyntaxNode;

/// An edit in a line.
#[derive(Debug, PartialEq, Eq, Drop)]
pub struct LineEdit {
    /// The bytes that give way.
    pub range: Range<usize>,
    /// What is put in their place.
    pub text: String,
}

/// What a line needs that was begun before a byte, if the line before it begins with an item of a list, an
/// enumeration or a term list: the marker of the next item, with the same indentation. If only a marker stands in
/// the line before, the list ends: the marker is removed. There is no edit where other text stands before the
/// byte. It goes through the children of each node around the item.
pub fn next_item(
    alloc: Global,
    root: &SyntaxNode,
    text: &str,
    byte: usize,
) -> Result<Option<LineEdit>, AllocError> {
    let Some(begun) = Begun::at(text, byte) else {
        return Ok(None);
    };
    let Some(marker) = marker_at(root, begun.item_start()) else {
        return Ok(None);
    };
    if begun.before.trim() == marker {
        return Ok(Some(begun.without_item(alloc)));
    }
    begun.with_item(alloc, marker)
}

/// A line that is begun after another one.
#[derive(Clone, Copy)]
struct Begun<'t> {
    /// The line before it, without its line end.
    before: &'t str,
    /// The bytes at which that line and this one begin.
    before_start: usize,
    start: usize,
    /// The byte up to which this line is indented.
    indented: usize,
}

impl<'t> Begun<'t> {
    /// The line of a byte, if nothing but space stands before the byte and a line before that.
    fn at(text: &'t str, byte: usize) -> Option<Begun<'t>> {
        let start = line_start(text.get(..byte)?);
        let indented = start.saturating_add(indentation(text.get(start..)?).len());
        if indented < byte {
            return None;
        }
        let front = without_line_end(text.get(..start)?)?;
        let before_start = line_start(front);
        Some(Begun {
            before: front.get(before_start..)?,
            before_start,
            start,
            indented,
        })
    }

    /// The byte at which the text of the line before begins.
    fn item_start(self) -> usize {
        self.before_start
            .saturating_add(indentation(self.before).len())
    }

    /// The line before becomes empty.
    fn without_item(self, alloc: Global) -> LineEdit {
        let end = self.before_start.saturating_add(self.before.len());
        LineEdit {
            range: self.before_start..end,
            text: String::new(alloc),
        }
    }

    /// The line becomes an item after one with a marker. It can't after the largest number.
    fn with_item(self, alloc: Global, marker: &str) -> Result<Option<LineEdit>, AllocError> {
        let space = indentation(self.before);
        let text = match marker.strip_suffix('.') {
            None => format!(in alloc; "{space}{marker} ")?,
            Some(digits) => {
                let Some(number) = digits.parse().ok().and_then(next_number) else {
                    return Ok(None);
                };
                format!(in alloc; "{space}{number}. ")?
            }
        };
        let range = self.start..self.indented;
        Ok(Some(LineEdit { range, text }))
    }
}

/// The number after another one, if there is one.
fn next_number(number: u64) -> Option<u64>
    ensures { result ≡ spec.next_number number }
{
    number.checked_add(1)
}

/// The marker of the item that begins at a byte.
fn marker_at(root: &SyntaxNode, byte: usize) -> Option<&str> {
    let mut around = Placed::top(root).if_holds(byte);
    while let Some(placed) = around {
        if placed.start == byte && is_item(placed.node.kind()) {
            return Some(placed.node.children().first()?.leaf_text());
        }
        around = placed.child_at(byte);
    }
    None
}

fn is_item(kind: SyntaxKind) -> bool {
    match kind {
        SyntaxKind::ListItem | SyntaxKind::EnumItem | SyntaxKind::TermItem => true,
        _ => false,
    }
}

/// The byte at which the last line of a text begins.
fn line_start(text: &str) -> usize {
    match text.rfind(|c: char| c == '\n' || c == '\r') {
        Some(end) => end.saturating_add(1),
        None => 0,
    }
}

/// The spaces and tabs that a text begins with.
fn indentation(text: &str) -> &str {
    match text.find(|c: char| c != ' ' && c != '\t') {
        Some(end) => text.get(..end).unwrap_or(""),
        None => text,
    }
}

/// A text without the line end at its end, if there is one.
fn without_line_end(text: &str) -> Option<&str> {
    match text.strip_suffix('\n') {
        Some(front) => Some(front.strip_suffix('\r').unwrap_or(front)),
        None => text.strip_suffix('\r'),
    }
}
