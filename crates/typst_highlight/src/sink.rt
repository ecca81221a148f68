//! One walk through a tree, and what it gives the nodes to.

ghost use Rattle.std.specs.Prelude.{◌≡◌, ◌<◌, IfOk, List, ℕ, OnOk, Option, false, true};
ghost use Rattle.typst_tree.specs.Tree.{forest, more, none};
ghost use Rattle.typst_tree.specs.Walks.{is_childless};
ghost use Rattle.typst_highlight.specs.Walk as walk;

use crate::context::is_childless;
use crate::progress::Progress;
use crate::rules::{Rule, is_name, rule_of};
use crate::spans::{span_asked, span_of, spanned};
use crate::tags::Tag;
use std::alloc::{AllocError, Global};
use std::slice;
use typst_tree::SyntaxNode;

/// What a walk gives the nodes of a tree to, in order.
///
/// A node with children is given by the beginning of its span, its own text, its children and the end
/// of the span. A node without children is given at once.
pub trait Sink {
    // what each step makes of it
    ghost outlet: { walk.Outlet Self };

    /// Begins the span of a node, if it has one, and answers what is to be passed to its end.
    fn begin(&mut self, span: Option<Tag>) -> Result<Option<Tag>, AllocError>
        ensures begun { OnOk result (self.new ≡ outlet.begun self.old span) }
        ensures kept { IfOk result (λ kept. kept ≡ outlet.kept self.old span) };

    /// Takes the text of a node with children, which is empty where the parser made the node.
    fn own(&mut self, text: &str) -> Result<(), AllocError>
        ensures { OnOk result (self.new ≡ outlet.given self.old text.now) };

    /// Takes the text of a node without children, in the node's span.
    fn leaf(&mut self, span: Option<Tag>, text: &str) -> Result<(), AllocError>
        ensures { OnOk result (self.new ≡ outlet.ended (outlet.given (outlet.begun self.old span) text.now) (outlet.kept self.old span)) };

    /// Ends the span of a node, by what its beginning answered.
    fn close(&mut self, kept: Option<Tag>) -> Result<(), AllocError>
        ensures { OnOk result (self.new ≡ outlet.ended self.old kept) };
}

/// Gives all nodes of a tree, each once. The nodes to come back to stand in a list, so a deep tree
/// takes no more of the stack than a flat one.
pub fn give_tree<'t, S: Sink>(
    alloc: Global,
    sink: &mut S,
    root: &'t SyntaxNode,
) -> Result<(), AllocError>
    ensures { OnOk result (sink.new ≡ walk.walked S.outlet walk.root_context root.now none sink.old) }
{
    let mut progress = Progress::start(alloc);
    let mut rest = slice::from_ref(root);
    'nodes: loop {
        let Some((node, later)) = rest.split_first() else {
            let Some(row) = progress.leave() else {
                return Ok(());
            };
            sink.close(row.kept)?;
            rest = row.nodes;
            continue 'nodes;
        };
        if is_childless(node) {
            give_leaf(sink, node, later, &mut progress)?;
            rest = later;
        } else {
            give_inner(sink, node, later, &mut progress)?;
            rest = node.children();
        }
    }
}

/// Gives the beginning of a node with children, and goes into it.
#[inline(always)]
fn give_inner<'t, S: Sink>(
    sink: &mut S,
    node: &'t SyntaxNode,
    later: &'t [SyntaxNode],
    progress: &mut Progress<'t>,
) -> Result<(), AllocError>
    requires { is_childless node.now.kids ≡ false }
    ensures given { OnOk result (walk.left S.outlet progress.new node.now.kids sink.new ≡ walk.left S.outlet progress.old (more node.now.head node.now.kids (forest later.now)) sink.old) }
    ensures fewer { OnOk result (walk.steps progress.new node.now.kids < walk.steps progress.old (more node.now.head node.now.kids (forest later.now))) }
{
    let span = span_of(node, later, progress)?;
    let kept = sink.begin(span)?;
    let text = node.leaf_text();
    sink.own(text)?;
    progress.enter(node, later, text.len(), kept)?;
    Ok(())
}

/// Gives a node without children, and goes past it.
#[inline(always)]
fn give_leaf<S: Sink>(
    sink: &mut S,
    node: &SyntaxNode,
    later: &[SyntaxNode],
    progress: &mut Progress,
) -> Result<(), AllocError>
    requires { is_childless node.now.kids ≡ true }
    ensures given { OnOk result (sink.new ≡ walk.walked S.outlet (walk.joined progress.old) node.now (forest later.now) sink.old) }
    ensures passed { OnOk result (walk.joined progress.new ≡ walk.past (walk.joined progress.old) node.now (walk.passed (walk.joined progress.old) node.now (forest later.now))) }
    ensures waiting { OnOk result (walk.waiting progress.new ≡ walk.waiting progress.old) }
{
    let kind = node.kind();
    let Rule::Fixed(tag) = rule_of(kind) else {
        return give_asking(sink, node, later, progress);
    };
    let span = spanned(tag);
    let text = node.leaf_text();
    sink.leaf(span, text)?;
    progress.pass(node, later, text.len(), None);
    Ok(())
}

/// Gives a node without children whose tag depends on what is around it, and goes past it.
#[inline(never)]
fn give_asking<S: Sink>(
    sink: &mut S,
    node: &SyntaxNode,
    later: &[SyntaxNode],
    progress: &mut Progress,
) -> Result<(), AllocError>
    requires { is_childless node.now.kids ≡ true }
    ensures given { OnOk result (sink.new ≡ walk.walked S.outlet (walk.joined progress.old) node.now (forest later.now) sink.old) }
    ensures passed { OnOk result (walk.joined progress.new ≡ walk.past (walk.joined progress.old) node.now (walk.passed (walk.joined progress.old) node.now (forest later.now))) }
    ensures waiting { OnOk result (walk.waiting progress.new ≡ walk.waiting progress.old) }
{
    let text = node.leaf_text();
    if is_name(node.kind()) {
        let name = progress.name(node, later);
        sink.leaf(spanned(name), text)?;
        progress.pass(node, later, text.len(), name);
        return Ok(());
    }
    let span = span_asked(node, later, progress)?;
    sink.leaf(span, text)?;
    progress.pass(node, later, text.len(), None);
    Ok(())
}
