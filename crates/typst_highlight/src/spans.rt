//! The spans that nodes stand in.

ghost use Rattle.std.specs.Prelude.{◌≡◌, IfOk, None, if◌then◌else◌};
ghost use Rattle.typst_tree.specs.Tree.{forest};
ghost use Rattle.typst_highlight.specs.Html as spec;
ghost use Rattle.typst_highlight.specs.Rules.{is_name};
ghost use Rattle.typst_highlight.specs.Walk as walk;

use crate::progress::Progress;
use crate::rules::{Rule, rule_of};
use crate::tags::Tag;
use crate::walk::tag_under;
use std::alloc::AllocError;
use typst_tree::SyntaxNode;

/// The tag of the span that a node of the tag stands in: an error has none.
#[inline(always)]
pub fn spanned(tag: Option<Tag>) -> Option<Tag>
    ensures { result ≡ spec.spanned tag }
{
    match tag {
        Some(Tag::Error) => None,
        other => other,
    }
}

/// The tag of the span that the next node of a walk stands in.
#[inline(always)]
pub fn span_of(
    node: &SyntaxNode,
    later: &[SyntaxNode],
    progress: &Progress,
) -> Result<Option<Tag>, AllocError>
    ensures { IfOk result (λ span. span ≡ spec.spanned (walk.tag (walk.joined progress.now) node.now (forest later.now))) }
{
    match rule_of(node.kind()) {
        Rule::Fixed(tag) => Ok(spanned(tag)),
        _ => span_asked(node, later, progress),
    }
}

/// The tag of the span that any node stands in, apart from the common way.
#[inline(never)]
pub fn span_asked(
    node: &SyntaxNode,
    later: &[SyntaxNode],
    progress: &Progress,
) -> Result<Option<Tag>, AllocError>
    ensures { IfOk result (λ span. span ≡ spec.spanned (walk.tag (walk.joined progress.now) node.now (forest later.now))) }
{
    match tag_under(node.kind(), progress.parent(), later) {
        Some(tag) => Ok(spanned(tag)),
        None => {
            let tag = progress.tag(node, later)?;
            Ok(spanned(tag))
        }
    }
}

/// The tag of a node, and the same once more if the node is a name.
#[derive(Clone, Copy)]
pub struct NextTag {
    pub tag: Option<Tag>,
    pub name: Option<Tag>,
}

/// The tag of the next node of a walk.
#[inline(always)]
pub fn tag_next(
    node: &SyntaxNode,
    later: &[SyntaxNode],
    progress: &Progress,
) -> Result<NextTag, AllocError>
    ensures tag { IfOk result (λ next. next.tag ≡ walk.tag (walk.joined progress.now) node.now (forest later.now)) }
    ensures name { IfOk result (λ next. next.name ≡ (if is_name node.now.head.kind then walk.name (walk.joined progress.now) node.now (forest later.now) else None)) }
{
    match rule_of(node.kind()) {
        Rule::Fixed(tag) => Ok(NextTag { tag, name: None }),
        Rule::Name => {
            let tag = progress.name(node, later);
            Ok(NextTag { tag, name: tag })
        }
        _ => {
            let tag = tag_asked(node, later, progress)?;
            Ok(NextTag { tag, name: None })
        }
    }
}

/// The tag of a node that is no name. The tag of a hash is found by a call, all others in place.
#[inline(always)]
fn tag_asked(
    node: &SyntaxNode,
    later: &[SyntaxNode],
    progress: &Progress,
) -> Result<Option<Tag>, AllocError>
    ensures { IfOk result (λ tag. tag ≡ walk.tag (walk.joined progress.now) node.now (forest later.now)) }
{
    match tag_under(node.kind(), progress.parent(), later) {
        Some(tag) => Ok(tag),
        None => progress.tag(node, later),
    }
}
