//! The word `tree`.

ghost use Rattle.std.specs.Prelude.{◌≡◌, ◌+◌, ◌<◌, ◌^◌, ◌++◌, length, IfOk, OnOk, string_bytes};
ghost use Rattle.typst_tree.specs.Tree.{text_of};
ghost use Rattle.typst_report.specs.PrintedTree as spec;

use std::alloc::{AllocError, Global};
use std::ops::Range;
use std::slice;
use typst_grammar::{parse, parse_code, parse_math};
use typst_kinds::{Diagnostic, Hint, Severity};
use typst_lines::{Classes, is_newline};
use typst_tree::SyntaxNode;

/// The syntax tree of the text. Each node has a line with its kind, its range in bytes and, for an
/// error, its message, two spaces deeper than its parent; below it are its warnings and hints, and
/// then its children.
pub fn answer<C: Classes>(alloc: Global, text: &str, classes: &C) -> Result<String, AllocError>
    ensures { IfOk result (λ printed. string_bytes printed ≡ spec.tree_printed (C.classes classes.now) text.now) }
{
    let root = parse(alloc, text, classes)?;
    let mut printed = String::new(alloc);
    print_node(alloc, &mut printed, &root, "", 0)?;
    Ok(printed)
}

/// The syntax tree of a text of code, printed as `answer` prints one.
pub fn answer_code<C: Classes>(alloc: Global, text: &str, classes: &C) -> Result<String, AllocError>
    ensures { IfOk result (λ printed. string_bytes printed ≡ spec.code_tree_printed (C.classes classes.now) text.now) }
{
    let root = parse_code(alloc, text, classes)?;
    let mut printed = String::new(alloc);
    print_node(alloc, &mut printed, &root, "", 0)?;
    Ok(printed)
}

/// The syntax tree of the text of a formula, printed as `answer` prints one.
pub fn answer_math<C: Classes>(alloc: Global, text: &str, classes: &C) -> Result<String, AllocError>
    ensures { IfOk result (λ printed. string_bytes printed ≡ spec.math_tree_printed (C.classes classes.now) text.now) }
{
    let root = parse_math(alloc, text, classes)?;
    let mut printed = String::new(alloc);
    print_node(alloc, &mut printed, &root, "", 0)?;
    Ok(printed)
}

/// Nodes side by side that are still to be printed, and where the first one begins, in bytes.
#[derive(Clone, Copy)]
struct Siblings<'a> {
    trees: &'a [SyntaxNode],
    start: usize,
}

/// Prints a node that begins at a byte, and all below it. What is left of each row on the way to the next node
/// waits in a list, so that nothing calls itself, and a row's place there is its depth.
pub fn print_node(
    alloc: Global,
    printed: &mut String,
    node: &SyntaxNode,
    indent: &str,
    start: usize,
) -> Result<(), AllocError>
    requires { start + length (text_of node.now) < 2 ^ 64 }
    ensures { OnOk result (string_bytes printed.new ≡ string_bytes printed.old ++ spec.node_lines indent.now start node.now) }
{
    let mut deeper = format!(in alloc; "{indent}  ")?;
    let mut rows = Vec::new(alloc);
    rows.push(Siblings {
        trees: slice::from_ref(node),
        start,
    })?;
    while let Some(row) = rows.pop() {
        let width = deeper.len() - 2;
        let Some((node, after)) = row.trees.split_first() else {
            deeper.truncate(width);
            continue;
        };
        let end = row.start + node.len();
        print_head(
            printed,
            node,
            &deeper[..width],
            deeper.as_str(),
            row.start..end,
        )?;
        rows.push(Siblings {
            trees: after,
            start: end,
        })?;
        rows.push(Siblings {
            trees: node.children(),
            start: row.start,
        })?;
        deeper.push_str("  ")?;
    }
    Ok(())
}

/// Prints the line of a node in a range of bytes, and below it, deeper, its warnings and hints.
pub fn print_head(
    printed: &mut String,
    node: &SyntaxNode,
    indent: &str,
    deeper: &str,
    range: Range<usize>,
) -> Result<(), AllocError>
    ensures { OnOk result (string_bytes printed.new ≡ string_bytes printed.old ++ (spec.own_line indent.now range.start range.end node.now.head ++ spec.remarks deeper.now node.now.head.diagnostics)) }
{
    print_own_line(printed, node, indent, range)?;
    print_remarks(printed, node.diagnostics(), deeper)
}

/// Prints a node's own line.
fn print_own_line(
    printed: &mut String,
    node: &SyntaxNode,
    indent: &str,
    range: Range<usize>,
) -> Result<(), AllocError>
    ensures { OnOk result (string_bytes printed.new ≡ string_bytes printed.old ++ spec.own_line indent.now range.start range.end node.now.head) }
{
    let (name, start, end) = (node.kind().variant_name(), range.start, range.end);
    write!(printed, "{indent}{name} {start}..{end}")?;
    print_errors(printed, node.diagnostics())?;
    printed.push_str("\n")?;
    Ok(())
}

/// Prints the messages of the errors, each after a space.
pub fn print_errors(printed: &mut String, diagnostics: &[Diagnostic]) -> Result<(), AllocError>
    ensures { OnOk result (string_bytes printed.new ≡ string_bytes printed.old ++ spec.errors diagnostics.now) }
{
    for diagnostic in diagnostics {
        match diagnostic.severity() {
            Severity::Error => {
                printed.push_str(" ")?;
                print_message(printed, diagnostic.message())?;
            }
            Severity::Warning => {}
        }
    }
    Ok(())
}

/// Prints a line for each warning and each hint.
pub fn print_remarks(
    printed: &mut String,
    diagnostics: &[Diagnostic],
    indent: &str,
) -> Result<(), AllocError>
    ensures { OnOk result (string_bytes printed.new ≡ string_bytes printed.old ++ spec.remarks indent.now diagnostics.now) }
{
    for diagnostic in diagnostics {
        match diagnostic.severity() {
            Severity::Error => {}
            Severity::Warning => print_remark(printed, indent, "warning", diagnostic.message())?,
        }
        print_hints(printed, diagnostic.hints(), indent)?;
    }
    Ok(())
}

/// Prints a line for each hint.
fn print_hints(printed: &mut String, hints: &[Hint], indent: &str) -> Result<(), AllocError>
    ensures { OnOk result (string_bytes printed.new ≡ string_bytes printed.old ++ spec.hints indent.now hints.now) }
{
    for hint in hints {
        print_remark(printed, indent, "hint", hint.message())?;
    }
    Ok(())
}

/// Prints a line that a word begins.
fn print_remark(
    printed: &mut String,
    indent: &str,
    word: &str,
    message: &str,
) -> Result<(), AllocError>
    ensures { OnOk result (string_bytes printed.new ≡ string_bytes printed.old ++ spec.remark indent.now word.now message.now) }
{
    write!(printed, "{indent}{word}: ")?;
    print_message(printed, message)?;
    printed.push_str("\n")?;
    Ok(())
}

/// Prints a message with a space for each newline character.
fn print_message(printed: &mut String, message: &str) -> Result<(), AllocError>
    ensures { OnOk result (string_bytes printed.new ≡ string_bytes printed.old ++ spec.one_line message.now) }
{
    for c in message.chars() {
        printed.push(if is_newline(c) { ' ' } else { c })?;
    }
    Ok(())
}
