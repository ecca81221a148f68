//! What a selection grows to: words, lines, paragraphs and sections beside the nodes of a tree.

use crate::sections::{Sections, heading_level, is_space};
use crate::selection::MOST_SELECTIONS;
use std::alloc::{AllocError, Global};
use std::ops::Range;
use typst_kinds::SyntaxKind;
use typst_names::Placed;
use typst_tree::SyntaxNode;

/// The ranges that a selection at a byte grows to, from the smallest outwards, each larger than the one before
/// it: the innermost 100 where there are more. At the text's end the last byte counts; an empty text has none.
///
/// They are those of the nodes that hold the byte and, within these, of text and markup:
/// - the word, between space and ASCII signs except `-` and `_`, of the leaf;
/// - the line, between line ends of the row of markup;
/// - the paragraph, between empty lines and headings of the row;
/// - the sections, each from its heading to the next of the same or a smaller level in the row, without the
///   space at its end.
///
/// Goes through the children of each node around the byte.
pub fn expansions(
    alloc: Global,
    root: &SyntaxNode,
    byte: usize,
) -> Result<Vec<Range<usize>>, AllocError> {
    let byte = byte.min(root.len().saturating_sub(1));
    let mut ranges = Vec::new(alloc);
    let mut around = Placed::top(root).if_holds(byte);
    while let Some(placed) = around {
        add(&mut ranges, placed.range())?;
        if placed.node.kind() == SyntaxKind::Markup {
            add_parts(alloc, &mut ranges, placed, byte)?;
        }
        let kid = placed.child_at(byte);
        if kid.is_none() {
            add_word(&mut ranges, placed, byte)?;
        }
        around = kid;
    }
    ranges.reverse();
    ranges.truncate(MOST_SELECTIONS);
    Ok(ranges)
}

/// Adds a range within the last one, unless it is the same.
fn add(ranges: &mut Vec<Range<usize>>, range: Range<usize>) -> Result<(), AllocError> {
    match ranges.last() {
        Some(last) if last.start == range.start && last.end == range.end => Ok(()),
        _ => {
            ranges.push(range)?;
            Ok(())
        }
    }
}

/// Adds what of a row of markup holds a byte that isn't space: sections, the outermost first, the paragraph and
/// the line.
fn add_parts(
    alloc: Global,
    ranges: &mut Vec<Range<usize>>,
    markup: Placed<'_>,
    byte: usize,
) -> Result<(), AllocError> {
    let mut parts = Parts::new(alloc);
    let mut start = markup.inner_start();
    for node in markup.node.children() {
        let kid = Placed { node, start };
        parts.pass(kid, byte)?;
        start = kid.end();
    }
    parts.end_sections(0)?;
    if parts.held.is_none() {
        return Ok(());
    }
    parts.around.reverse();
    for section in &parts.around {
        add(ranges, section.start..section.end)?;
    }
    add(ranges, parts.paragraph.start..parts.paragraph.end)?;
    add(ranges, parts.line.start..parts.line.end)
}

/// The parts of a row of markup, as far as it was gone through.
#[derive(Drop)]
struct Parts {
    /// Where the node begins that holds the byte, if it was passed and is no space.
    held: Option<usize>,
    /// Whether the line and the paragraph go on.
    in_line: bool,
    in_paragraph: bool,
    line: Range<usize>,
    paragraph: Range<usize>,
    /// Where the sections that go on begin.
    sections: Sections<usize>,
    /// The sections around the byte that have ended, the innermost first.
    around: Vec<Range<usize>>,
    /// Where the last node ends that is no space.
    end: usize,
}

impl Parts {
    /// The parts of a row of which nothing was passed.
    fn new(alloc: Global) -> Parts {
        Parts {
            held: None,
            in_line: true,
            in_paragraph: true,
            line: 0..0,
            paragraph: 0..0,
            sections: Sections::new(alloc),
            around: Vec::new(alloc),
            end: 0,
        }
    }

    /// Goes past the next node of the row.
    fn pass(&mut self, kid: Placed<'_>, byte: usize) -> Result<(), AllocError> {
        if let Some(level) = heading_level(kid.node) {
            self.end_sections(level)?;
            self.sections.push(level, kid.start)?;
            self.cut_paragraph();
            self.add(kid, byte);
            self.cut_paragraph();
        } else if kid.node.kind() == SyntaxKind::Parbreak {
            self.cut_paragraph();
        } else if holds_line_end(kid.node) {
            self.cut_line();
        } else {
            self.add(kid, byte);
        }
        Ok(())
    }

    /// Adds a node to the line and the paragraph, where they go on.
    fn add(&mut self, kid: Placed<'_>, byte: usize) {
        if is_space(kid.node.kind()) {
            return;
        }
        self.end = kid.end();
        if self.in_line {
            extend(&mut self.line, kid);
        }
        if self.in_paragraph {
            extend(&mut self.paragraph, kid);
        }
        if kid.if_holds(byte).is_some() {
            self.held = Some(kid.start);
        }
    }

    /// A paragraph ends, and its line. The next ones count, unless these hold what is looked for.
    fn cut_paragraph(&mut self) {
        self.cut_line();
        if self.held.is_some() {
            self.in_paragraph = false;
        } else {
            self.paragraph = 0..0;
        }
    }

    /// A line ends. The next one counts, unless this one holds what is looked for.
    fn cut_line(&mut self) {
        if self.held.is_some() {
            self.in_line = false;
        } else {
            self.line = 0..0;
        }
    }

    /// Ends the sections that a heading of this level ends, and keeps those around the byte.
    fn end_sections(&mut self, level: usize) -> Result<(), AllocError> {
        while let Some(start) = self.sections.pop_at(0, level) {
            match self.held {
                Some(held) if start <= held => self.around.push(start..self.end)?,
                _ => {}
            }
        }
        Ok(())
    }
}

/// Takes a node into a range, which begins with it where it was empty.
fn extend(range: &mut Range<usize>, kid: Placed<'_>) {
    if range.start == range.end {
        range.start = kid.start;
    }
    range.end = kid.end();
}

/// Whether a node is space with a line end.
fn holds_line_end(node: &SyntaxNode) -> bool {
    if node.kind() != SyntaxKind::Space {
        return false;
    }
    for byte in node.leaf_text().as_bytes() {
        if *byte == b'\n' || *byte == b'\r' {
            return true;
        }
    }
    false
}

/// Adds the word of a leaf that holds a byte.
fn add_word(
    ranges: &mut Vec<Range<usize>>,
    leaf: Placed<'_>,
    byte: usize,
) -> Result<(), AllocError> {
    let text = leaf.node.leaf_text().as_bytes();
    let at = byte.saturating_sub(leaf.start);
    let (mut start, mut end) = (0, text.len());
    for index in 0..text.len() {
        if parts_words(text[index]) {
            if index < at {
                start = index + 1;
            } else if index < end {
                end = index;
            }
        }
    }
    if start <= at && at < end {
        let first = leaf.start.saturating_add(start);
        return add(ranges, first..leaf.start.saturating_add(end));
    }
    Ok(())
}

/// Whether a byte stands between words: ASCII signs and space.
fn parts_words(byte: u8) -> bool {
    byte.is_ascii_whitespace() || (byte.is_ascii_punctuation() && byte != b'_' && byte != b'-')
}
