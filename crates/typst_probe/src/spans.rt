//! The word `spans`.

use std::alloc::{AllocError, Global};
use typst_edited::cli::tree::{print_errors, print_remarks};
use typst_edited::cli::{SyntaxNode, UnicodeClasses};
use typst_edited::source_of;

/// Prints the syntax tree of the text as markup, as a source holds it: as a tree, with `@` and the number of
/// each node after its range.
pub fn print(alloc: Global, printed: &mut String, text: &str) -> Result<(), AllocError> {
    let source = source_of(alloc, text, UnicodeClasses)?;
    print_tree(alloc, printed, source.root())
}

/// Prints a tree with the number of each node.
pub fn print_tree(
    alloc: Global,
    printed: &mut String,
    root: &SyntaxNode,
) -> Result<(), AllocError> {
    let mut walk = root.preorder(alloc);
    for _ in 0..root.descendants() {
        if let Some(visit) = walk.next()? {
            print_node(alloc, printed, visit.node, visit.offset, visit.depth)?;
        }
    }
    Ok(())
}

/// Prints the line of a node that begins at a byte, a number of levels below the root, and below it, deeper, its
/// warnings and hints.
fn print_node(
    alloc: Global,
    printed: &mut String,
    node: &SyntaxNode,
    start: usize,
    depth: usize,
) -> Result<(), AllocError> {
    let deeper = "  ".repeat(alloc, depth.saturating_add(1))?;
    let indent = deeper.as_str().strip_prefix("  ").unwrap_or("");
    let (name, end) = (node.kind().variant_name(), start.saturating_add(node.len()));
    write!(printed, "{indent}{name} {start}..{end}")?;
    if let Some(number) = node.span().number() {
        let number = number.get();
        write!(printed, " @{number}")?;
    }
    print_errors(printed, node.diagnostics())?;
    printed.push_str("\n")?;
    print_remarks(printed, node.diagnostics(), deeper.as_str())
}
