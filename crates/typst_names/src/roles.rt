//! What the names of a tree are.

ghost use Rattle.std.specs.Prelude.{◌≡◌, ◌+◌, ◌++◌, ◌<◌, ◌≤◌, IfOk, OnOk};
ghost use Rattle.typst_tree.specs.Tree.{forest};
ghost use Rattle.typst_names.specs.Contexts as contexts;
ghost use Rattle.typst_names.specs.RoleRows.{left, left_all, steps, steps_all, steps_left};
ghost use Rattle.typst_names.specs.Roles as spec;

use crate::contexts::{Context, Role};
use std::alloc::{AllocError, Global};
use std::slice;
use typst_kinds::SyntaxKind;
use typst_tree::SyntaxNode;

/// Nodes that stand side by side, in a context.
#[derive(Clone, Copy)]
struct Row<'a> {
    trees: &'a [SyntaxNode],
    context: Context,
}

/// The role of each node that has a text of its own, in order; only names have one. It goes through each node
/// once.
pub fn name_roles(alloc: Global, root: &SyntaxNode) -> Result<Vec<Option<Role>>, AllocError>
    ensures { IfOk result (λ roles. roles.items ≡ spec.roles root.now) }
{
    let mut found = Vec::new(alloc);
    let mut rows = Vec::new(alloc);
    push_row(&mut rows, Row::whole(root))?;
    while let Some(row) = rows.pop() {
        take_next(&mut found, &mut rows, row)?;
    }
    Ok(found)
}

impl<'a> Row<'a> {
    /// A whole tree.
    fn whole(root: &'a SyntaxNode) -> Row<'a>
        ensures { left result ≡ spec.roles root.now }
    {
        Row {
            trees: slice::from_ref(root),
            context: Context::Value,
        }
    }

    /// What follows the first node, which is of this kind.
    fn after(self, kind: SyntaxKind, rest: &'a [SyntaxNode]) -> Row<'a>
        ensures left { left result ≡ spec.row (contexts.after self.entry.context kind) (forest rest.now) }
        ensures steps { steps_left result ≡ 1 + steps (forest rest.now) }
    {
        Row {
            trees: rest,
            context: self.context.after(kind),
        }
    }

    /// What is below the first node.
    fn below(self, node: &'a SyntaxNode) -> Row<'a>
        ensures left { left result ≡ spec.row (contexts.below self.entry.context node.now.head.kind) node.now.kids }
        ensures steps { steps_left result ≡ 1 + steps node.now.kids }
    {
        Row {
            trees: node.children(),
            context: self.context.below(node.kind()),
        }
    }
}

/// Takes the first node of a row: adds its role, and the rows below and after it.
fn take_next<'a>(
    found: &mut Vec<Option<Role>>,
    rows: &mut Vec<Row<'a>>,
    row: Row<'a>,
) -> Result<(), AllocError>
    ensures taken { OnOk result (found.new.items ++ left_all rows.new.items ≡ found.old.items ++ (left row.entry ++ left_all rows.old.items)) }
    ensures fewer { OnOk result (steps_all rows.new.items < steps_left row.entry + steps_all rows.old.items) }
{
    let Some((node, rest)) = row.trees.split_first() else {
        return Ok(());
    };
    let kind = node.kind();
    add_role(found, node, row.context.role(kind, rest.is_empty()))?;
    push_row(rows, row.after(kind, rest))?;
    push_row(rows, row.below(node))?;
    Ok(())
}

/// Adds the role of a node, if it has a text of its own.
fn add_role(
    found: &mut Vec<Option<Role>>,
    node: &SyntaxNode,
    role: Option<Role>,
) -> Result<(), AllocError>
    ensures { OnOk result (found.new.items ≡ found.old.items ++ spec.own node.now.head role) }
{
    if node.leaf_text().is_empty() {
        return Ok(());
    }
    found.push(role)?;
    Ok(())
}

/// Puts a row on the others, unless it is empty.
fn push_row<'a>(rows: &mut Vec<Row<'a>>, row: Row<'a>) -> Result<(), AllocError>
    ensures left { OnOk result (left_all rows.new.items ≡ left row.entry ++ left_all rows.old.items) }
    ensures steps { OnOk result (steps_all rows.new.items ≤ steps_left row.entry + steps_all rows.old.items) }
{
    if row.trees.is_empty() {
        return Ok(());
    }
    rows.push(row)?;
    Ok(())
}
