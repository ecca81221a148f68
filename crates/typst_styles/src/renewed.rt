//! Tokens from one edit of a text to the next.

ghost use Rattle.std.specs.Prelude.{IfOk};
ghost use Rattle.typst_tree.specs.Boundaries.{IsBoundary};
ghost use Rattle.typst_styles.specs.Renewed as spec;

use crate::token_list::TokenList;
use crate::tokens::semantic_tokens;
use std::alloc::{AllocError, Global};
use std::ops::Range;
use typst_tree::{Boundary, SyntaxNode};

/// All tokens of a text after an edit, from all those before it, `was`, of a text of `was_len` bytes: what
/// `semantic_tokens` gives for the whole text. It makes those of the window, which is what `token_window` gives
/// for the bytes that the edit answered as read again, from a place among the root's children, `near`; puts them
/// in the place of the old ones, and moves those after them.
pub fn renewed_tokens(
    alloc: Global,
    root: &SyntaxNode,
    text: &str,
    window: &Range<usize>,
    near: Boundary,
    was: TokenList,
    was_len: usize,
) -> Result<TokenList, AllocError>
    requires { IsBoundary root.now near }
    ensures { IfOk result (λ tokens. spec.AreRenewed text.now root.now window.now was was_len tokens) }
{
    let made = semantic_tokens(alloc, root, text, window, near)?;
    let rest = text.len().saturating_sub(window.end);
    let from = was_len.saturating_sub(rest);
    let tokens = was.replaced(window.start, from, made, window.end)?;
    Ok(tokens)
}

/// How many of all tokens an edit leaves as they were, but moved.
#[derive(Clone, Copy)]
pub struct Outside {
    /// How many stand before its window.
    pub front: usize,
    /// How many stand after it.
    pub back: usize,
}

/// How many of all tokens before an edit, `was`, of a text of `was_len` bytes, stand outside of its window: see
/// `renewed_tokens`. It finds where by halves, and takes no memory.
pub fn tokens_outside(text: &str, window: &Range<usize>, was: &TokenList, was_len: usize) -> Outside
    ensures { spec.AreOutside text.now window.now was.now was_len result }
{
    let rest = text.len().saturating_sub(window.end);
    let from = was_len.saturating_sub(rest);
    let front = was.count_before(window.start);
    let before = was.count_before(from);
    let back = was.len().saturating_sub(before);
    Outside { front, back }
}
