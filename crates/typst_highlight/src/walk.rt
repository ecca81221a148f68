//! The tag of a node that a walk has come to, found from what the walk knows.

ghost use Rattle.std.specs.Prelude.{◌≡◌, ◌+◌, ◌<◌, ◌≤◌, IfOk, IfSome, None, option_and_then};
ghost use Rattle.std.specs.Option.{option_map};
ghost use Rattle.typst_tree.specs.Tree.{count, forest, nodes};
ghost use Rattle.typst_highlight.specs.Rules.{rule_of, term_tag};
ghost use Rattle.typst_highlight.specs.Walk as walk;

use crate::context::{Context, Trail, holds_leaf, is_childless, is_leaf};
use crate::rules::{
    Rule, equals_tag, paren_tag, rule_of, slash_tag, star_tag, term_tag, underscore_tag,
};
use crate::tags::Tag;
use std::alloc::{AllocError, Global};
use typst_kinds::SyntaxKind;
use typst_tree::SyntaxNode;

/// A node with what is around it, and the nodes that follow it under its parent.
#[derive(Clone, Copy)]
struct Place<'t> {
    node: &'t SyntaxNode,
    later: &'t [SyntaxNode],
    context: Context,
}

/// Nodes that stand side by side, with what is around the first of them.
#[derive(Clone, Copy)]
struct Row<'t> {
    nodes: &'t [SyntaxNode],
    context: Context,
}

/// The last leaves before what follows a node. Takes memory where the node has children.
fn passed(
    alloc: Global,
    node: &SyntaxNode,
    later: &[SyntaxNode],
    context: &Context,
) -> Result<Trail, AllocError>
    ensures { IfOk result (λ trail. trail ≡ walk.passed context.now node.now (forest later.now)) }
{
    if is_childless(node) {
        return Ok(context.behind(node, later));
    }
    passed_row(alloc, node.children(), context.within(node, later))
}

/// The last leaves before what follows nodes side by side. The rows to come back to stand in a list, so
/// a deep tree takes no more of the stack than a flat one.
fn passed_row(alloc: Global, nodes: &[SyntaxNode], context: Context) -> Result<Trail, AllocError>
    ensures { IfOk result (λ trail. trail ≡ walk.passed_row context (forest nodes.now)) }
{
    let mut waiting: Vec<Row> = Vec::new(alloc);
    let mut row = Row { nodes, context };
    'nodes: loop {
        let at = row.context;
        let Some((node, later)) = row.nodes.split_first() else {
            let Some(outer) = waiting.pop() else {
                return Ok(at.trail);
            };
            row = Row {
                nodes: outer.nodes,
                context: Context {
                    trail: at.trail,
                    ..outer.context
                },
            };
            continue 'nodes;
        };
        if is_childless(node) {
            row = Row {
                nodes: later,
                context: at.past(node, at.behind(node, later)),
            };
        } else {
            waiting.push(Row {
                nodes: later,
                context: at.past(node, at.trail),
            })?;
            row = Row {
                nodes: node.children(),
                context: at.within(node, later),
            };
        }
    }
}

/// The kind of the first node that is no trivia.
fn next_kind(nodes: &[SyntaxNode]) -> Option<SyntaxKind>
    ensures { result ≡ walk.next_kind (forest nodes.now) }
{
    let mut rest = nodes;
    while let Some((node, later)) = rest.split_first() {
        let kind = node.kind();
        if !kind.is_trivia() {
            return Some(kind);
        }
        rest = later;
    }
    None
}

/// The tag of markup that others follow. Only in an item of a term list does the next one count.
#[inline(always)]
fn term_under(parent: Option<SyntaxKind>, later: &[SyntaxNode]) -> Option<Tag>
    ensures { result ≡ term_tag parent (walk.next_kind (forest later.now)) }
{
    match parent {
        Some(SyntaxKind::TermItem) => term_tag(parent, next_kind(later)),
        _ => None,
    }
}

/// The tag of a node that others follow, where its kind, its parent's and the next one's tell it.
#[inline(always)]
pub fn tag_under(
    kind: SyntaxKind,
    parent: Option<SyntaxKind>,
    later: &[SyntaxNode],
) -> Option<Option<Tag>>
    ensures { result ≡ walk.tag_under (rule_of kind) parent (walk.next_kind (forest later.now)) }
{
    match rule_of(kind) {
        Rule::Fixed(tag) => Some(tag),
        Rule::Paren => Some(paren_tag(parent)),
        Rule::Star => Some(star_tag(parent)),
        Rule::Underscore => Some(underscore_tag(parent)),
        Rule::Slash => Some(slash_tag(parent)),
        Rule::Equals => Some(equals_tag(parent)),
        Rule::Term => Some(term_under(parent, later)),
        Rule::Name | Rule::Expression => None,
    }
}

/// The tag of a node that other nodes follow under the same parent.
#[inline(never)]
pub fn tag_here(
    alloc: Global,
    node: &SyntaxNode,
    later: &[SyntaxNode],
    context: &Context,
) -> Result<Option<Tag>, AllocError>
    ensures { IfOk result (λ tag. tag ≡ walk.tag context.now node.now (forest later.now)) }
{
    let mut bearer = Place {
        node,
        later,
        context: *context,
    };
    while let Rule::Expression = rule_of(bearer.node.kind()) {
        let Some(leaf) = expression_leaf(alloc, bearer)? else {
            return Ok(None);
        };
        bearer = leaf;
    }
    Ok(tag_by_rule(bearer))
}

/// The tag of a node that is no hash.
fn tag_by_rule(place: Place) -> Option<Tag>
    ensures { result ≡ walk.tag_here (rule_of place.entry.node.now.head.kind) place.entry.context place.entry.node.now (forest place.entry.later.now) None }
{
    let context = &place.context;
    match rule_of(place.node.kind()) {
        Rule::Fixed(tag) => tag,
        Rule::Paren => paren_tag(context.parent),
        Rule::Star => star_tag(context.parent),
        Rule::Underscore => underscore_tag(context.parent),
        Rule::Slash => slash_tag(context.parent),
        Rule::Equals => equals_tag(context.parent),
        Rule::Term => term_tag(context.parent, next_kind(place.later)),
        Rule::Name => context.name(place.node, place.later),
        Rule::Expression => None,
    }
}

/// The leaf whose tag a hash has: the first one of the expression after it.
fn expression_leaf<'t>(alloc: Global, hash: Place<'t>) -> Result<Option<Place<'t>>, AllocError>
    ensures tag { IfOk result (λ leaf. option_and_then walk.tag_at leaf ≡ walk.expression_at hash.entry) }
    ensures smaller { IfOk result (λ leaf. IfSome leaf (λ place. walk.size place < walk.size hash.entry)) }
{
    let mut at = hash.context.past(
        hash.node,
        passed(alloc, hash.node, hash.later, &hash.context)?,
    );
    let mut rest = hash.later;
    while let Some((node, later)) = rest.split_first() {
        let kind = node.kind();
        if !kind.is_trivia() {
            if kind.is_hash_expr() {
                return Ok(leaf_of(node, later, &at));
            }
            return Ok(None);
        }
        at = at.past(node, passed(alloc, node, later, &at)?);
        rest = later;
    }
    Ok(None)
}

/// The first leaf of a node that other nodes follow under the same parent.
fn leaf_of<'t>(
    node: &'t SyntaxNode,
    later: &'t [SyntaxNode],
    context: &Context,
) -> Option<Place<'t>>
    ensures tag { option_map walk.tag_at result ≡ walk.own context.now node.now (forest later.now) }
    ensures smaller { IfSome result (λ place. walk.size place ≤ nodes node.now + count (forest later.now)) }
{
    if is_leaf(node) {
        return Some(Place {
            node,
            later,
            context: *context,
        });
    }
    leaf_below(node, later, context)
}

/// The first leaf below a node that other nodes follow under the same parent.
#[cycle(places)]
fn leaf_below<'t>(
    node: &'t SyntaxNode,
    later: &'t [SyntaxNode],
    context: &Context,
) -> Option<Place<'t>>
    ensures tag { option_map walk.tag_at result ≡ (walk.found (walk.within context.now node.now (forest later.now)) node.now.kids).leaf }
    ensures smaller { IfSome result (λ place. walk.size place ≤ count node.now.kids) }
{
    if is_childless(node) {
        return None;
    }
    let row = Row {
        nodes: node.children(),
        context: context.within(node, later),
    };
    first_place(row, node.descendants() / 2)
}

/// The first leaf of nodes that stand side by side.
///
/// Calls `leaf_below` for a child of at most `share` nodes, and goes on with the children of a larger
/// one. It keeps where to go on if they hold no leaf: after the last such node that a leaf follows. As
/// a node has at most one child of more than half of its nodes, calls nest no deeper than the logarithm
/// of the number of nodes, however deep a tree is.
#[cycle(places)]
fn first_place<'t>(mut row: Row<'t>, mut share: usize) -> Option<Place<'t>>
    ensures tag { option_map walk.tag_at result ≡ (walk.found row.entry.context (forest row.entry.nodes.now)).leaf }
    ensures smaller { IfSome result (λ place. walk.size place ≤ count (forest row.entry.nodes.now)) }
{
    let mut behind = None;
    'nodes: loop {
        let at = row.context;
        let Some((node, later)) = row.nodes.split_first() else {
            row = behind?;
            behind = None;
            continue 'nodes;
        };
        if is_leaf(node) {
            return Some(Place {
                node,
                later,
                context: at,
            });
        }
        let next = Row {
            nodes: later,
            context: at.past(node, at.trail),
        };
        if node.descendants() > share {
            if holds_leaf(later) {
                behind = Some(next);
            }
            share = node.descendants() / 2;
            row = Row {
                nodes: node.children(),
                context: at.within(node, later),
            };
        } else if let Some(place) = leaf_below(node, later, &at) {
            return Some(place);
        } else {
            row = next;
        }
    }
}
