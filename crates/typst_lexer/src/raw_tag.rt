//! The language tag of a raw text, and the warning of a text that is only a tag.
ghost use Rattle.std.specs.Prelude.{◌≡◌, ◌+◌, ◌<◌, ◌^◌, length, drop, reverse, OnOk};
ghost use Rattle.std.specs.Str.{chars};
ghost use Rattle.typst_lines.specs.Scanner.{place};
ghost use Rattle.typst_lexer.specs.RawTag as spec;

use crate::raw_sets::InTag;
use std::alloc::{AllocError, Global};
use typst_kinds::SubRange;
use typst_lines::Scanner;
use typst_tree::SyntaxNode;

/// The place after the tag in what is after the backticks.
pub(crate) fn split_tag(inner: &str) -> Scanner<'_>
    ensures tag { reverse (place result).before ≡ spec.tag (chars inner.now) }
    ensures rest { (place result).ahead ≡ drop (length (spec.tag (chars inner.now))) (chars inner.now) }
{
    let mut s = Scanner::new(inner);
    s.eat_while(&InTag);
    s
}

/// Adds the warning of a tag that is all there is, if it is.
pub(crate) fn warn(
    alloc: Global,
    node: &mut SyntaxNode,
    ticks: usize,
    tag: &str,
    inner: &str,
) -> Result<(), AllocError>
    requires { ticks + length tag.now < 2 ^ 64 }
    ensures { OnOk result (node.new ≡ spec.warned ticks (chars tag.now) (chars inner.now) node.old) }
{
    if is_whole(tag, inner) {
        warn_only_tag(alloc, node, ticks, tag)?;
    }
    Ok(())
}

/// Whether there is a tag and nothing else.
fn is_whole(tag: &str, inner: &str) -> bool
    ensures { result ≡ spec.is_whole (chars tag.now) (chars inner.now) }
{
    !tag.is_empty() && tag.len() == inner.len()
}

/// Adds the warning that there is a tag and nothing else.
fn warn_only_tag(
    alloc: Global,
    node: &mut SyntaxNode,
    ticks: usize,
    tag: &str,
) -> Result<(), AllocError>
    requires { ticks + length tag.now < 2 ^ 64 }
    ensures { OnOk result (node.new ≡ spec.only_tag ticks (chars tag.now) node.old) }
{
    node.warn("empty raw text")?;
    let treated = format!(in alloc; "Typst is treating `{tag}` as the language tag")?;
    node.hint(treated.as_str())?;
    let stretch = SubRange::new(ticks, ticks + tag.len()).unwrap();
    node.hint_at(
        stretch,
        "to treat this as text, add a space after the initial backticks",
    )?;
    Ok(())
}
