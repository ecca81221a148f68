//! What an editor does with a text that it holds: edits it, finds a node by its span, walks the leaves,
//! and prints where each error stands, by line and UTF-16 column. The word `example` shows it.

use std::alloc::{AllocError, Global};
use std::ops::Range;
use typst_parser::{Severity, Source, SyntaxNode, UnicodeClasses};

/// Makes a source of the first line of a text, replaces its text by the whole, and prints what became of it.
pub fn print(alloc: Global, printed: &mut String, text: &str) -> Result<(), AllocError> {
    let (line, _) = text.split_once('\n').unwrap_or((text, ""));
    let line = format!(in alloc; "{line}\n")?;
    let Ok(mut source) = Source::detached(alloc, line, UnicodeClasses) else {
        return Err(AllocError);
    };
    let Ok(parsed) = source.replace(text) else {
        return Err(AllocError);
    };
    tell_source(printed, &source, parsed)
}

/// Tells which bytes were parsed again, where the heading is, and the leaves and errors.
fn tell_source(
    printed: &mut String,
    source: &Source<UnicodeClasses>,
    parsed: Range<usize>,
) -> Result<(), AllocError> {
    writeln!(printed, "parsed anew: {}..{}", parsed.start, parsed.end)?;
    print_heading(printed, source)?;
    print_node(printed, source, source.root())
}

/// Finds the first node by its span, and prints where it is.
fn print_heading(printed: &mut String, source: &Source<UnicodeClasses>) -> Result<(), AllocError> {
    let Some(heading) = source.root().children().first() else {
        return Ok(());
    };
    let Some(found) = source.find(heading.span()) else {
        return Ok(());
    };
    let (name, range) = (found.kind().name(), found.range());
    writeln!(printed, "{name} {}..{}", range.start, range.end)
}

/// Tells the leaves of a node and its errors.
fn print_node(
    printed: &mut String,
    source: &Source<UnicodeClasses>,
    node: &SyntaxNode,
) -> Result<(), AllocError> {
    if !node.leaf_text().is_empty() {
        writeln!(printed, "{} {:?}", node.kind().name(), node.leaf_text())?;
    }
    for diagnostic in node.diagnostics() {
        if diagnostic.severity() == Severity::Error {
            let (line, column) = place_of(source, node).unwrap_or((0, 0));
            writeln!(printed, "{line}:{column}: error: {}", diagnostic.message())?;
        }
    }
    for kid in node.children() {
        print_node(printed, source, kid)?;
    }
    Ok(())
}

/// The line and the UTF-16 column at which a node begins.
fn place_of(source: &Source<UnicodeClasses>, node: &SyntaxNode) -> Option<(usize, usize)> {
    let lines = source.lines();
    let byte = source.range(node.span().number()?, None)?.start;
    let line = lines.byte_to_line(byte)?;
    let start = lines.byte_to_utf16(lines.line_to_byte(line)?)?;
    Some((line, lines.byte_to_utf16(byte)?.saturating_sub(start)))
}
