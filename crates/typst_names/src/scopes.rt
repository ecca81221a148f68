//! The names of a tree, and up to where each of them holds.

ghost use Rattle.std.specs.Prelude.{◌≡◌, ◌+◌, ◌++◌, ◌<◌, ◌≤◌, IfOk, OnOk, false, option_map};
ghost use Rattle.typst_tree.specs.Tree.{forest, none, more};
ghost use Rattle.typst_names.specs.Bytes as bytes;
ghost use Rattle.typst_names.specs.Modules.{name_in};
ghost use Rattle.typst_names.specs.NameRows.{left, left_all, steps, steps_all, steps_left};
ghost use Rattle.typst_names.specs.Names as spec;
ghost use Rattle.typst_names.specs.Scopes as scopes;

use crate::modules::name_in;
use crate::parts::{NameKind, Part};
use crate::places::Placed;
use std::alloc::{AllocError, Global};
use std::ops::Range;
use std::slice;
use typst_kinds::SyntaxKind;
use typst_tree::SyntaxNode;

/// A name in a text, or the star of an import.
#[derive(Debug, Clone, PartialEq, Eq, Drop)]
pub struct Name {
    pub kind: NameKind,
    /// The bytes of the name.
    pub range: Range<usize>,
    /// The byte up to which its scope goes: of what is bound, up to where it holds.
    pub until: usize,
}

/// Nodes side by side from a byte on, as a part of a scope that ends at another byte.
#[derive(Clone, Copy)]
struct Row<'a> {
    trees: &'a [SyntaxNode],
    start: usize,
    part: Part,
    until: usize,
}

/// The names of a tree, by the table of scopes: what is used, what is bound, and up to which byte that holds.
/// They come in the order in which they come to hold, so that what a use means is the last binding before it of
/// the same text that holds there: what a `let` binds is after its value. It goes through each node at
/// most three times.
pub fn names(alloc: Global, root: &SyntaxNode) -> Result<Vec<Name>, AllocError>
    ensures { IfOk result (λ names. names.items ≡ spec.names root.now) }
{
    let mut found = Vec::new(alloc);
    let mut rows = Vec::new(alloc);
    push_row(&mut rows, Row::whole(root))?;
    while let Some(row) = rows.pop() {
        take_next(&mut found, &mut rows, row)?;
    }
    Ok(found)
}

impl<'a> Row<'a> {
    /// The row of a whole tree.
    fn whole(root: &'a SyntaxNode) -> Row<'a>
        ensures { left result ≡ spec.names root.now }
    {
        Row {
            trees: slice::from_ref(root),
            start: 0,
            part: Part::Value,
            until: Placed::top(root).end(),
        }
    }

    /// The row of what follows the first node.
    fn behind(self, node: Placed<'a>, rest: &'a [SyntaxNode]) -> Row<'a>
        ensures left { left result ≡ spec.names_in (scopes.behind self.entry.part node.entry.node.now.head.kind) self.entry.until (bytes.behind node.entry.start node.entry.node.now.head node.entry.node.now.kids) (forest rest.now) }
        ensures steps { steps_left result ≡ 1 + steps (forest rest.now) }
    {
        Row {
            trees: rest,
            start: node.end(),
            part: self.part.behind(node.node.kind()),
            until: self.until,
        }
    }

    /// The row of a part below a node.
    fn below(self, node: Placed<'a>, part: Part) -> Row<'a>
        ensures left { left result ≡ spec.names_in part (spec.held part self.entry.until (bytes.behind node.entry.start node.entry.node.now.head node.entry.node.now.kids)) (bytes.inner node.entry.start node.entry.node.now.head) node.entry.node.now.kids }
        ensures steps { steps_left result ≡ 1 + steps node.entry.node.now.kids }
    {
        let until = if part.opens() { node.end() } else { self.until };
        Row {
            trees: node.node.children(),
            start: node.inner_start(),
            part,
            until,
        }
    }
}

/// Takes the first node of a row: adds its own name, and the rows below and after it.
fn take_next<'a>(
    found: &mut Vec<Name>,
    rows: &mut Vec<Row<'a>>,
    row: Row<'a>,
) -> Result<(), AllocError>
    ensures taken { OnOk result (found.new.items ++ left_all rows.new.items ≡ found.old.items ++ (left row.entry ++ left_all rows.old.items)) }
    ensures fewer { OnOk result (steps_all rows.new.items < steps_left row.entry + steps_all rows.old.items) }
{
    let Some((node, rest)) = row.trees.split_first() else {
        return Ok(());
    };
    let node = Placed {
        node,
        start: row.start,
    };
    let is_last = rest.is_empty();
    let (part, kind) = (row.part.base(is_last), node.node.kind());
    add_own(found, part, is_last, node, row.until)?;
    push_row(rows, row.behind(node, rest))?;
    push_row(rows, row.below(node, part.third(kind)))?;
    push_row(rows, row.below(node, part.second(kind)))?;
    push_row(rows, row.below(node, part.first(kind)))?;
    Ok(())
}

/// Adds a node's own name, or that of the module that it is from.
fn add_own(
    found: &mut Vec<Name>,
    part: Part,
    is_last: bool,
    node: Placed<'_>,
    until: usize,
) -> Result<(), AllocError>
    ensures { OnOk result (found.new.items ≡ found.old.items ++ spec.own part is_last until node.entry.start node.entry.node.now.head node.entry.node.now.kids) }
{
    add_name(found, part.says(node.node.kind(), is_last), node, until)?;
    add_module(found, module_range(part, is_last, node), node.end(), until)
}

/// Adds the name of a module in a node that ends at a byte, if it has one.
fn add_module(
    found: &mut Vec<Name>,
    range: Option<Range<usize>>,
    end: usize,
    until: usize,
) -> Result<(), AllocError>
    ensures { OnOk result (found.new.items ≡ found.old.items ++ spec.module_named range end until) }
{
    if let Some(range) = range {
        let kind = NameKind::Module(end);
        found.push(Name { kind, range, until })?;
    }
    Ok(())
}

/// Where a node has the name of the module that a bare import binds.
fn module_range(part: Part, is_last: bool, node: Placed<'_>) -> Option<Range<usize>>
    ensures { result ≡ spec.module_range part is_last node.entry.start node.entry.node.now.head node.entry.node.now.kids }
{
    let kind = node.node.kind();
    match part {
        Part::Bare if kind.same(SyntaxKind::Str) => range_in(node),
        Part::BoundField if is_last && kind.same(SyntaxKind::Ident) => Some(node.range()),
        _ => None,
    }
}

/// Where the text of a node has the name of a module.
fn range_in(node: Placed<'_>) -> Option<Range<usize>>
    ensures { result ≡ option_map (spec.moved node.entry.start) (name_in node.entry.node.now.head.text) }
{
    let Range { start, end } = name_in(node.node.leaf_text())?;
    Some(node.start.saturating_add(start)..node.start.saturating_add(end))
}

/// Adds the name of a node, if it has one.
fn add_name(
    found: &mut Vec<Name>,
    kind: Option<NameKind>,
    node: Placed<'_>,
    until: usize,
) -> Result<(), AllocError>
    ensures { OnOk result (found.new.items ≡ found.old.items ++ spec.named kind (bytes.range node.entry.start node.entry.node.now.head node.entry.node.now.kids) until) }
{
    if let Some(kind) = kind {
        let range = node.range();
        found.push(Name { kind, range, until })?;
    }
    Ok(())
}

/// Puts a row on the others, unless nothing of it counts.
fn push_row<'a>(rows: &mut Vec<Row<'a>>, row: Row<'a>) -> Result<(), AllocError>
    ensures left { OnOk result (left_all rows.new.items ≡ left row.entry ++ left_all rows.old.items) }
    ensures steps { OnOk result (steps_all rows.new.items ≤ steps_left row.entry + steps_all rows.old.items) }
{
    if row.trees.is_empty() || row.part.is_nothing() {
        return Ok(());
    }
    rows.push(row)?;
    Ok(())
}
