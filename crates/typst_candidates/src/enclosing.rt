//! The runs and blocks around the replaced bytes, on the way down to these.

ghost use Rattle.std.specs.Prelude.{◌≡◌, ◌+◌, ◌<◌, ◌≤◌, ◌^◌, List, length, option_and_then};
ghost use Rattle.typst_tree.specs.Tree.{trees, text_of};
ghost use Rattle.typst_candidates.specs.declared.entry.Entry.{Entry};
ghost use Rattle.typst_candidates.specs.Cursors.{piece_run};
ghost use Rattle.typst_candidates.specs.Edges.{IsEdge, pieces_at};

use crate::Near;
use typst_kinds::SyntaxKind;
use typst_tree::SyntaxNode;

/// Which run a node is.
#[derive(Debug, Clone, Copy, PartialEq, Eq)]
pub(crate) enum RunAt {
    /// The text's own run.
    Text,
    /// The run of the content block that begins at this byte.
    Block(usize),
}

/// A node on the way down to the replaced bytes.
#[derive(Clone, Copy)]
pub(crate) struct Stop<'a> {
    pub node: &'a SyntaxNode,
    /// The byte at which the node begins.
    pub at: usize,
    /// Those of the node's children that are near the replaced bytes.
    pub near: Near,
    /// How many steps from the root lead to the node.
    pub depth: usize,
    ghost fits: { at + length (text_of node.now) < 2 ^ 64 },
    ghost first: { IsEdge (at + length node.now.head.text) (trees node.now.kids) near.first },
    ghost end: { IsEdge (at + length node.now.head.text) (trees node.now.kids) near.end },
    ghost order: { near.first.index ≤ near.end.index },
}

/// A run or a block that is around the replaced bytes.
#[derive(Clone, Copy)]
pub(crate) enum Enclosing<'a> {
    /// A block: the child that covers the replaced bytes.
    Block(Stop<'a>),
    /// A run: all children of the node.
    Run(Stop<'a>, RunAt),
}

/// The run that a child is of a node which begins at byte `at`: the content block's, if the child is its markup.
pub(crate) fn run_of_child(parent: SyntaxKind, child: SyntaxKind, at: usize) -> Option<RunAt>
    ensures { (es : List Entry) → option_and_then (pieces_at es) result ≡ piece_run es at parent child }
{
    if parent == SyntaxKind::ContentBlock && child == SyntaxKind::Markup {
        Some(RunAt::Block(at))
    } else {
        None
    }
}
