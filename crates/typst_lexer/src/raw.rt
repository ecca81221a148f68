//! The node of a raw text.
ghost use Rattle.std.specs.Prelude.{◌≡◌, ◌+◌, ◌<◌, ◌^◌, ◌++◌, OnOk, IfOk, MatchOption, Some, None, length, reverse};
ghost use Rattle.std.specs.Str.{chars};
ghost use Rattle.typst_lines.specs.Scanner.{place};
ghost use Rattle.typst_lexer.specs.Raw as spec;

use crate::faults::fault_node;
use crate::raw_lines::{push_block, push_inline, push_leaf};
use crate::raw_sets::Tick;
use crate::raw_tag::{split_tag, warn};
use std::alloc::{AllocError, Global};
use typst_kinds::SyntaxKind;
use typst_lines::Scanner;
use typst_tokens::Fault;
use typst_tree::SyntaxNode;

/// The node of a raw text, whose characters begin with its backticks and end with them again. If they don't, it is
/// the error of an unclosed one.
pub fn raw_node(alloc: Global, text: &str) -> Result<SyntaxNode, AllocError>
    ensures { IfOk result (λ node. node ≡ spec.raw_node (chars text.now)) }
{
    let mut s = Scanner::new(text);
    let delim = s.eat_while(&Tick);
    let rest = s.after();
    if is_pair(delim, rest) {
        let node = two_delimiters(alloc)?;
        return Ok(node);
    }
    let Some(end) = before_ticks(rest, delim.len()) else {
        let node = fault_node(alloc, Fault::UnclosedRaw, text)?;
        return Ok(node);
    };
    let node = closed_node(alloc, delim, end.before())?;
    Ok(node)
}

/// Whether there are two backticks and nothing else.
fn is_pair(delim: &str, rest: &str) -> bool
    requires { length delim.now ≡ length (chars delim.now) }
    ensures { result ≡ spec.is_pair (chars delim.now) (chars rest.now) }
{
    delim.len() == 2 && rest.is_empty()
}

fn two_delimiters(alloc: Global) -> Result<SyntaxNode, AllocError>
    ensures { IfOk result (λ node. node ≡ spec.two_delimiters) }
{
    let mut leaves = Vec::new(alloc);
    push_leaf(&mut leaves, SyntaxKind::RawDelim, "`")?;
    push_leaf(&mut leaves, SyntaxKind::RawDelim, "`")?;
    Ok(SyntaxNode::inner(SyntaxKind::Raw, leaves))
}

/// The place in the text before the backticks that it ends in, if there are so many.
fn before_ticks(text: &str, count: usize) -> Option<Scanner<'_>>
    ensures { MatchOption result (spec.before_ticks count (chars text.now) ≡ None) (λ s. spec.before_ticks count (chars text.now) ≡ Some (reverse (place s).before)) }
{
    let mut s = Scanner::new(text);
    s.jump(text.len());
    for i in 0..count {
        if !s.is_after('`') {
            return None;
        }
        s.uneat();
    }
    Some(s)
}

fn closed_node(alloc: Global, delim: &str, inner: &str) -> Result<SyntaxNode, AllocError>
    requires ascii { length delim.now ≡ length (chars delim.now) }
    requires fits { length delim.now + length inner.now < 2 ^ 64 }
    ensures { IfOk result (λ node. node ≡ spec.closed_node (chars delim.now) (chars inner.now)) }
{
    if delim.len() > 2 {
        let node = block_node(alloc, delim, inner)?;
        return Ok(node);
    }
    let node = inline_node(alloc, delim, inner)?;
    Ok(node)
}

fn inline_node(alloc: Global, delim: &str, inner: &str) -> Result<SyntaxNode, AllocError>
    ensures { IfOk result (λ node. node ≡ spec.inline_node (chars delim.now) (chars inner.now)) }
{
    let mut leaves = Vec::new(alloc);
    push_leaf(&mut leaves, SyntaxKind::RawDelim, delim)?;
    push_inline(&mut leaves, inner)?;
    push_leaf(&mut leaves, SyntaxKind::RawDelim, delim)?;
    Ok(SyntaxNode::inner(SyntaxKind::Raw, leaves))
}

fn block_node(alloc: Global, delim: &str, inner: &str) -> Result<SyntaxNode, AllocError>
    requires ascii { length delim.now ≡ length (chars delim.now) }
    requires fits { length delim.now + length inner.now < 2 ^ 64 }
    ensures { IfOk result (λ node. node ≡ spec.block_node (chars delim.now) (chars inner.now)) }
{
    let s = split_tag(inner);
    let tag = s.before();
    let mut leaves = Vec::new(alloc);
    push_leaf(&mut leaves, SyntaxKind::RawDelim, delim)?;
    push_tag(&mut leaves, tag)?;
    push_block(&mut leaves, s.after())?;
    push_leaf(&mut leaves, SyntaxKind::RawDelim, delim)?;
    let mut node = SyntaxNode::inner(SyntaxKind::Raw, leaves);
    warn(alloc, &mut node, delim.len(), tag, inner)?;
    Ok(node)
}

/// Adds the leaf of a tag, if there is one.
fn push_tag(leaves: &mut Vec<SyntaxNode>, tag: &str) -> Result<(), AllocError>
    ensures { OnOk result (leaves.new.items ≡ leaves.old.items ++ spec.tag_leaves (chars tag.now)) }
{
    if !tag.is_empty() {
        push_leaf(leaves, SyntaxKind::RawLang, tag)?;
    }
    Ok(())
}
