//! The errors and warnings of a text.

ghost use Rattle.std.specs.Prelude.{◌≡◌, ◌+◌, ◌++◌, IfOk, OnOk, length, map};
ghost use Rattle.typst_tree.specs.Tree.{saturated, text_of};
ghost use Rattle.typst_report.specs.Found.{as_reported};
ghost use Rattle.typst_report.specs.Reported as spec;

use std::alloc::{AllocError, Global};
use typst_kinds::{Diagnostic, Hint, Severity, SubRange};
use typst_tree::SyntaxNode;

/// An error or a warning of a text, with the bytes that it is about.
#[derive(Clone, Copy)]
pub struct Finding<'t> {
    pub start: usize,
    pub end: usize,
    diagnostic: &'t Diagnostic,
}

impl<'t> Finding<'t> {
    ghost use Rattle.std.specs.Prelude.{◌≡◌};
    ghost use Rattle.typst_report.specs.Reported as spec;

    /// Whether the finding is an error.
    pub fn is_error(&self) -> bool
        ensures { result ≡ spec.is_grave self.now.diagnostic.now.severity }
    {
        self.diagnostic.severity() == Severity::Error
    }

    /// The word for how grave the finding is.
    pub fn severity(&self) -> &'static str
        ensures { result.now ≡ spec.severity_word self.now.diagnostic.now.severity }
    {
        if self.is_error() { "error" } else { "warning" }
    }

    /// What the finding says.
    pub fn message(&self) -> &'t str
        ensures { result.now ≡ self.now.diagnostic.now.message }
    {
        self.diagnostic.message()
    }

    /// The finding's hints, in their order.
    pub fn hints(&self) -> &'t [Hint]
        ensures { result.now ≡ self.now.diagnostic.now.hints }
    {
        self.diagnostic.hints()
    }
}

/// All errors and warnings of a tree, each node's before those below it. Looks at the nodes that have some, at
/// them or below them, and at their children.
pub fn findings<'t>(alloc: Global, root: &'t SyntaxNode) -> Result<Vec<Finding<'t>>, AllocError>
    ensures { IfOk result (λ found. map as_reported found.items ≡ spec.reported root.now) }
{
    let mut found = Vec::new(alloc);
    let mut walk = root.preorder(alloc);
    while let Some(visit) = walk.next_diagnosed()? {
        add_own(&mut found, visit.node, visit.offset)?;
    }
    Ok(found)
}

/// Adds the findings of a node that begins at a byte, without those of the nodes below it.
fn add_own<'t>(
    found: &mut Vec<Finding<'t>>,
    node: &'t SyntaxNode,
    start: usize,
) -> Result<(), AllocError>
    ensures { OnOk result (map as_reported found.new.items ≡ map as_reported found.old.items ++ spec.reported_of start (saturated (start + length (text_of node.now))) node.now.head.diagnostics) }
{
    let end = start.saturating_add(node.len());
    for diagnostic in node.diagnostics() {
        let (from, to) = about(start, end, diagnostic.sub_range());
        found.push(Finding {
            start: from,
            end: to,
            diagnostic,
        })?;
    }
    Ok(())
}

/// The bytes that a remark about a node of the bytes `start..end` is about.
fn about(start: usize, end: usize, part: Option<SubRange>) -> (usize, usize)
    ensures from { result.0 ≡ spec.from_byte start end part }
    ensures to { result.1 ≡ spec.to_byte start end part }
{
    match part {
        None => (start, end),
        Some(part) => {
            let from = start.saturating_add(part.start()).min(end);
            let to = start.saturating_add(part.end()).min(end);
            (from, to.max(from))
        }
    }
}
