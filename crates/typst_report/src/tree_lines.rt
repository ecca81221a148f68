//! A syntax tree as JSON, a line for each node.

ghost use Rattle.std.specs.Prelude.{◌≡◌, ◌++◌, IfOk, OnOk};
ghost use Rattle.typst_report.specs.Ndjson.{line};
ghost use Rattle.typst_report.specs.TreeLines as spec;

use crate::ndjson::{end_line, write_count, write_text};
use json::Writer;
use std::alloc::{AllocError, Global};
use typst_tree::SyntaxNode;

/// The lines of a tree, each node's before those of the nodes below it: its depth, its kind, its bytes and, of
/// a leaf, its text.
pub fn lines_of(alloc: Global, root: &SyntaxNode) -> Result<Vec<u8>, AllocError>
    ensures { IfOk result (λ printed. printed.items ≡ spec.tree_lines root.now) }
{
    let mut lines = Vec::new(alloc);
    let mut walk = root.preorder(alloc);
    while let Some(visit) = walk.next()? {
        lines = push_line(lines, visit.node, visit.depth, visit.offset)?;
    }
    Ok(lines)
}

fn push_line(
    lines: Vec<u8>,
    node: &SyntaxNode,
    depth: usize,
    start: usize,
) -> Result<Vec<u8>, AllocError>
    ensures { IfOk result (λ new. new.items ≡ lines.items ++ line (spec.node depth start (spec.end_of start node.now.head node.now.kids) node.now.head)) }
{
    let mut writer = Writer::new(lines);
    write_node(&mut writer, node, depth, start)?;
    end_line(writer)
}

fn write_node(
    writer: &mut Writer,
    node: &SyntaxNode,
    depth: usize,
    start: usize,
) -> Result<(), AllocError>
    ensures before { OnOk result (writer.new.before ≡ writer.old.before) }
    ensures tokens { OnOk result (writer.new.tokens ≡ writer.old.tokens ++ (spec.node depth start (spec.end_of start node.now.head node.now.kids) node.now.head)) }
{
    writer.begin_object()?;
    write_members(writer, node, depth, start)?;
    writer.end_object()
}

fn write_members(
    writer: &mut Writer,
    node: &SyntaxNode,
    depth: usize,
    start: usize,
) -> Result<(), AllocError>
    ensures before { OnOk result (writer.new.before ≡ writer.old.before) }
    ensures tokens { OnOk result (writer.new.tokens ≡ writer.old.tokens ++ (spec.members depth start (spec.end_of start node.now.head node.now.kids) node.now.head)) }
{
    write_count(writer, "depth", depth)?;
    write_text(writer, "kind", node.kind().variant_name())?;
    write_range(writer, start, start.saturating_add(node.len()))?;
    write_own_text(writer, node)
}

fn write_range(writer: &mut Writer, start: usize, end: usize) -> Result<(), AllocError>
    ensures before { OnOk result (writer.new.before ≡ writer.old.before) }
    ensures tokens { OnOk result (writer.new.tokens ≡ writer.old.tokens ++ spec.range start end) }
{
    write_count(writer, "start", start)?;
    write_count(writer, "end", end)
}

/// Writes the text of a leaf.
fn write_own_text(writer: &mut Writer, node: &SyntaxNode) -> Result<(), AllocError>
    ensures before { OnOk result (writer.new.before ≡ writer.old.before) }
    ensures tokens { OnOk result (writer.new.tokens ≡ writer.old.tokens ++ spec.own_text node.now.head) }
{
    if node.is_inner() {
        return Ok(());
    }
    write_text(writer, "text", node.leaf_text())
}
