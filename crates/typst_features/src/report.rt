//! The errors and warnings of a tree.

ghost use Rattle.std.specs.Prelude.{◌≡◌, ◌++◌, IfOk, OnOk, length, map};
ghost use Rattle.typst_tree.specs.Tree.{saturated, text_of};
ghost use Rattle.typst_features.specs.Problems as spec;

use std::alloc::{AllocError, Global};
use std::ops::Range;
use typst_kinds::Diagnostic;
use typst_tree::SyntaxNode;

/// An error or a warning, and the bytes of the text that it is about.
#[derive(Drop)]
pub struct Problem<'a> {
    /// The bytes of its node, or those that it names among them.
    pub range: Range<usize>,
    /// Its severity, its message and its hints.
    pub diagnostic: &'a Diagnostic,
}

/// The errors and warnings of a tree, those of a node before those of its children. It looks at the nodes that
/// have some, at them or below them, and at their children.
pub fn problems<'a>(alloc: Global, root: &'a SyntaxNode) -> Result<Vec<Problem<'a>>, AllocError>
    ensures { IfOk result (λ found. map spec.reported found.items ≡ spec.node 0 root.now) }
{
    let mut found = Vec::new(alloc);
    let mut walk = root.preorder(alloc);
    while let Some(visit) = walk.next_diagnosed()? {
        add_own(&mut found, visit.node, visit.offset)?;
    }
    Ok(found)
}

/// Adds the problems of a node itself.
fn add_own<'a>(
    found: &mut Vec<Problem<'a>>,
    node: &'a SyntaxNode,
    start: usize,
) -> Result<(), AllocError>
    ensures { OnOk result (map spec.reported found.new.items ≡ map spec.reported found.old.items ++ spec.own start (length (text_of node.now)) node.now.head.diagnostics) }
{
    for diagnostic in node.diagnostics() {
        let range = range_of(diagnostic, start, node.len());
        found.push(Problem { range, diagnostic })?;
    }
    Ok(())
}

/// The bytes that a diagnostic is about, of a node that begins at a byte and has so many.
pub fn range_of(diagnostic: &Diagnostic, start: usize, len: usize) -> Range<usize>
    ensures { result ≡ spec.about start len diagnostic.now.sub_range }
{
    match diagnostic.sub_range() {
        None => start..start.saturating_add(len),
        Some(bytes) => {
            start.saturating_add(bytes.start().min(len))..start.saturating_add(bytes.end().min(len))
        }
    }
}
