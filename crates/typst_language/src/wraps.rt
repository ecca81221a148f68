//! What nodes that were given become.

ghost use Rattle.std.specs.Prelude.{◌≡◌, if◌then◌else◌, [], ◌∷◌, ◌++◌, take, drop, OnOk, IfOk, false};
ghost use Rattle.typst_kinds.specs.Kinds.{is_error};
ghost use Rattle.typst_tree.specs.Tree.{text_of};
ghost use Rattle.typst_language.specs.Shape.{after_node, becomes, encloses, unclosed};
ghost use Rattle.typst_language.specs.Point.{is_nil};
ghost use Rattle.typst_language.specs.Shape.NodeChange.{stays};
ghost use Rattle.typst_language.specs.Shape.Shape.{fails, holds, keeps, lacks, warns};
ghost use Rattle.typst_language.specs.Changes.{IsFine, meant};
ghost use Rattle.typst_language.specs.View.{Rewrapped, rewrapped_each};

use crate::nodes::{empty_errors, give};
use crate::parser::Parser;
use crate::{NodeChange, change_first, change_node};
use std::alloc::AllocError;
use std::mem;
use typst_kinds::SyntaxKind;
use typst_tree::SyntaxNode;

impl<'s> Parser<'s> {
    /// Makes the nodes from a number on the children of one node, and answers whether there was none.
    pub fn wrap(&mut self, from: usize, kind: SyntaxKind) -> Result<bool, AllocError>
        requires { is_error kind ≡ false }
        ensures wrapped { OnOk result (Rewrapped from (becomes kind) self.old self.new) }
        ensures empty { IfOk result (λ b. b ≡ is_nil (drop from self.old.nodes)) }
    {
        let nodes = self.cut_off(from)?;
        let is_empty = nodes.is_empty();
        self.give(SyntaxNode::inner(kind, nodes))?;
        Ok(is_empty)
    }

    /// Makes the nodes from a number on, the first of them changed, the children of one node.
    pub fn wrap_changed(
        &mut self,
        from: usize,
        change: NodeChange<'_>,
        kind: SyntaxKind,
    ) -> Result<(), AllocError>
        requires change { IsFine change }
        requires fine { is_error kind ≡ false }
        ensures { OnOk result (Rewrapped from (holds (meant change.entry) kind) self.old self.new) }
    {
        let mut nodes = self.cut_off(from)?;
        change_first(&mut nodes, change)?;
        self.give(SyntaxNode::inner(kind, nodes))?;
        Ok(())
    }

    /// Makes the nodes from a number on the children of one node, with an empty error after the first `count` of
    /// them.
    #[cold]
    pub fn wrap_lacking(
        &mut self,
        from: usize,
        count: usize,
        message: &str,
        kind: SyntaxKind,
    ) -> Result<(), AllocError>
        requires { is_error kind ≡ false }
        ensures { OnOk result (Rewrapped from (lacks count message.now kind) self.old self.new) }
    {
        let mut nodes = self.cut_off(from)?;
        let at = count.min(nodes.len());
        let error = SyntaxNode::error(self.alloc, message, "")?;
        nodes.insert(at, error)?;
        self.give(SyntaxNode::inner(kind, nodes))?;
        Ok(())
    }

    /// Makes the nodes from a number on the children of one node, which has a warning and its hint.
    #[cold]
    pub fn wrap_with_warning(
        &mut self,
        from: usize,
        kind: SyntaxKind,
        message: &str,
        hint: &str,
    ) -> Result<(), AllocError>
        requires { is_error kind ≡ false }
        ensures { OnOk result (Rewrapped from (warns kind message.now hint.now) self.old self.new) }
    {
        let nodes = self.cut_off(from)?;
        let mut node = SyntaxNode::inner(kind, nodes);
        node.warn(message)?;
        node.hint(hint)?;
        self.give(node)?;
        Ok(())
    }

    /// Makes the nodes from a number on the children of one node, which they delimit: if the second delimiter is
    /// missing, the first becomes the error that it was not closed.
    pub fn wrap_enclosed(
        &mut self,
        from: usize,
        kind: SyntaxKind,
        closed: bool,
    ) -> Result<(), AllocError>
        requires { is_error kind ≡ false }
        ensures { OnOk result (Rewrapped from (encloses kind closed) self.old self.new) }
    {
        if closed {
            self.wrap(from, kind)?;
            return Ok(());
        }
        self.wrap_unclosed(from, kind)?;
        Ok(())
    }

    #[cold]
    fn wrap_unclosed(&mut self, from: usize, kind: SyntaxKind) -> Result<(), AllocError>
        requires { is_error kind ≡ false }
        ensures { OnOk result (Rewrapped from (unclosed kind) self.old self.new) }
    {
        self.wrap_changed(from, NodeChange::TurnsWrong("unclosed delimiter"), kind)?;
        Ok(())
    }

    /// Makes the nodes from a number on one error leaf of their text.
    #[cold]
    pub fn wrap_error(&mut self, from: usize, message: &str) -> Result<(), AllocError>
        ensures { OnOk result (Rewrapped from (fails message.now) self.old self.new) }
    {
        let nodes = self.take_from(from)?;
        let mut node = SyntaxNode::inner(SyntaxKind::Markup, nodes);
        node.convert_to_error(message)?;
        self.give(node)?;
        Ok(())
    }

    /// Makes the nodes from a number on the children of one node of a kind, for each of these numbers: from the
    /// last number to the first, so that each node holds the one made before it.
    pub fn wrap_nested(&mut self, froms: Vec<usize>, kind: SyntaxKind) -> Result<(), AllocError>
        requires { is_error kind ≡ false }
        ensures { OnOk result (self.new ≡ rewrapped_each froms.items (becomes kind) self.old) }
    {
        let mut froms = froms;
        'froms: while let Some(from) = froms.pop() {
            self.wrap(from, kind)?;
        }
        Ok(())
    }

    /// Changes the first of the nodes from a number on, if there is one. In place, since mostly it stays.
    #[inline(always)]
    pub fn change(&mut self, from: usize, change: NodeChange<'_>) -> Result<(), AllocError>
        requires { IsFine change }
        ensures { OnOk result (Rewrapped from (keeps (meant change.entry)) self.old self.new) }
    {
        if from >= self.nodes.len() {
            return Ok(());
        }
        let is_alone = from + 1 == self.nodes.len();
        let node = &mut self.nodes[from];
        let was_error = node.kind().is_error();
        change_node(node, change)?;
        if is_alone && !was_error {
            self.state.empties = empty_errors(node);
            self.state.is_after_error = node.kind().is_error();
        }
        Ok(())
    }

    /// The nodes from a number on.
    pub fn given_since(&self, from: usize) -> &[SyntaxNode]
        ensures { result.now ≡ drop from self.now.nodes }
    {
        &self.nodes.as_slice()[from.min(self.nodes.len())..]
    }

    /// Takes the nodes from a number on away, and gives them.
    fn cut_off(&mut self, from: usize) -> Result<Vec<SyntaxNode>, AllocError>
        ensures rest { OnOk result (self.new ≡ record self.old { nodes = take from self.old.nodes; state = record self.old.state { empties = 0 } }) }
        ensures cut { IfOk result (λ found. found.items ≡ drop from self.old.nodes) }
    {
        self.state.empties = 0;
        let at = from.min(self.nodes.len());
        let nodes = self.nodes.split_off(at)?;
        Ok(nodes)
    }

    /// Takes the nodes from a number on away, and gives them. If they are more than those before them, those are
    /// moved instead.
    fn take_from(&mut self, from: usize) -> Result<Vec<SyntaxNode>, AllocError>
        ensures rest { OnOk result (self.new ≡ record self.old { nodes = take from self.old.nodes; state = record self.old.state { empties = 0 } }) }
        ensures cut { IfOk result (λ found. found.items ≡ drop from self.old.nodes) }
    {
        let count = self.nodes.len().saturating_sub(from);
        if count <= from {
            return Ok(self.cut_off(from)?);
        }
        self.state.empties = 0;
        self.nodes.as_mut_slice().rotate_left(from);
        let before = self.nodes.split_off(count)?;
        Ok(mem::replace(&mut self.nodes, before))
    }

    /// Adds a node.
    #[inline(always)]
    fn give(&mut self, node: SyntaxNode) -> Result<(), AllocError>
        ensures { OnOk result (self.new ≡ record self.old { nodes = self.old.nodes ++ node ∷ []; state = after_node (is_error node.head.kind) (text_of node) self.old.state }) }
    {
        give(&mut self.nodes, &mut self.state, node)?;
        Ok(())
    }
}
