//! The word `ranges`.

use std::alloc::{AllocError, Global};
use typst_edited::{nodes, source_of};
use typst_parser::{Source, Span, SpanNumber, SubRange, SyntaxNode, UnicodeClasses};

/// Prints which bytes of a text are those within a node, for each of the first lines, which have the place of the node
/// among those of the tree, the first of which is 0, and where the bytes start and end in it. The text comes after an
/// empty line. Before that where the source isn't of the first file, or finds something for a span without a number, or
/// bytes for the number 2, which no node of a short text has.
pub fn print(alloc: Global, printed: &mut String, text: &str) -> Result<(), AllocError> {
    let Some((lines, text)) = text.split_once("\n\n") else {
        return printed.push_str("no text\n");
    };
    let source = source_of(alloc, text, UnicodeClasses)?;
    let knows_number = match SpanNumber::new(2) {
        Some(number) => source.range(number, None).is_some(),
        None => true,
    };
    if source.id().get() != 1 || source.find(Span::detached()).is_some() || knows_number {
        printed.push_str("another file\n")?;
    }
    let nodes = nodes(alloc, source.root())?;
    print_ranges(printed, &source, nodes.as_slice(), lines)
}

/// Prints which bytes of the text are those that each line names.
fn print_ranges(
    printed: &mut String,
    source: &Source<UnicodeClasses>,
    nodes: &[&SyntaxNode],
    lines: &str,
) -> Result<(), AllocError> {
    for line in lines.split('\n') {
        match range_of(source, nodes, line) {
            Some((start, end)) => writeln!(printed, "{start}..{end}")?,
            None => printed.push_str("none\n")?,
        }
    }
    Ok(())
}

/// Which bytes of the text are those that a line names.
fn range_of(
    source: &Source<UnicodeClasses>,
    nodes: &[&SyntaxNode],
    line: &str,
) -> Option<(usize, usize)> {
    let (place, rest) = line.split_once(' ')?;
    let (start, end) = rest.split_once(' ')?;
    let place: usize = place.parse().ok()?;
    let within = SubRange::new(start.parse().ok()?, end.parse().ok()?)?;
    let range = source.range(nodes.get(place)?.span().number()?, Some(within))?;
    Some((range.start, range.end))
}
