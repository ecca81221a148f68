//! The nodes that were given, and what the state says of the last of them.

ghost use Rattle.std.specs.Prelude.{◌≡◌, ◌≤◌, ◌++◌, ◌∷◌, [], if◌then◌else◌, length, OnOk, OnErr};
ghost use Rattle.typst_kinds.specs.Kinds.{is_error};
ghost use Rattle.typst_tree.specs.Tree.{text_of};
ghost use Rattle.typst_language.specs.Point.{is_nil};
ghost use Rattle.typst_language.specs.Shape.{count_empty};
ghost use Rattle.typst_language.specs.Meaning.{less};

use crate::State;
use std::alloc::AllocError;
use typst_tree::SyntaxNode;

/// Adds a node; the state then says whether it is an error.
#[inline(always)]
pub(crate) fn give(
    nodes: &mut Vec<SyntaxNode>,
    state: &mut State,
    node: SyntaxNode,
) -> Result<(), AllocError>
    ensures nodes { OnOk result (nodes.new.items ≡ nodes.old.items ++ node ∷ []) }
    ensures state { OnOk result (state.new ≡ record state.old { empties = if is_error node.head.kind then count_empty (text_of node) else 0; is_after_error = is_error node.head.kind }) }
    ensures refused { OnErr result (state.new.empties ≡ 0) }
{
    let is_after_error = node.kind().is_error();
    let empties = empty_errors(&node);
    state.empties = 0;
    nodes.push(node)?;
    state.empties = empties;
    state.is_after_error = is_after_error;
    Ok(())
}

/// How many empty errors this node is: one, if it is an error without text.
pub(crate) fn empty_errors(node: &SyntaxNode) -> usize
    ensures { result ≡ (if is_error node.now.head.kind then count_empty (text_of node.now) else 0) }
{
    if !node.kind().is_error() {
        return 0;
    }
    if node.is_empty() {
        return 1;
    }
    0
}

/// Whether there are no nodes.
pub(crate) fn is_none(nodes: &[SyntaxNode]) -> bool
    ensures { result ≡ is_nil nodes.now }
{
    nodes.is_empty()
}

/// Takes the last `count` nodes away.
pub(crate) fn trim(nodes: &mut Vec<SyntaxNode>, count: usize)
    requires { count ≤ length nodes.old.items }
    ensures { nodes.new.items ≡ less count nodes.old.items }
{
    nodes.truncate(nodes.len() - count);
}

/// Drops all nodes. Mostly there are none, and nothing is called.
#[inline(always)]
pub(crate) fn clear(nodes: &mut Vec<SyntaxNode>)
    ensures { nodes.new.items ≡ [] }
{
    if !nodes.is_empty() {
        nodes.clear();
    }
}

/// Moves all nodes after the others. Mostly it is one, a space, which is moved by itself.
#[inline(always)]
pub(crate) fn push_all(
    nodes: &mut Vec<SyntaxNode>,
    more: &mut Vec<SyntaxNode>,
) -> Result<(), AllocError>
    ensures ok { OnOk result (nodes.new.items ≡ nodes.old.items ++ more.old.items) }
    ensures err { OnErr result (nodes.new.items ≡ nodes.old.items) }
    ensures none { OnOk result (more.new.items ≡ []) }
{
    if more.len() == 1 {
        if let Some(node) = more.pop() {
            nodes.push(node)?;
            return Ok(());
        }
    }
    nodes.append(more)?;
    Ok(())
}
