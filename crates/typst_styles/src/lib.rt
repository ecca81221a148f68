//! Semantic tokens: which stretches of a text are shown how, line by line, and what changes from one list of
//! their numbers to the next.
//!
//! [`semantic_tokens`] gives those of a tree that touch a range, [`renewed_tokens`] all after an edit, by those
//! before it ([`TokenList`]), of which [`tokens_outside`] says how many stay, and [`edit_between`] the edit that
//! makes one list of numbers of another. Positions are in bytes of the tree's text.
#![tactic(auto)]

mod boundaries;
mod delta;
mod joined;
mod renewed;
mod seeking;
mod styles;
mod token_list;
mod tokens;
mod windows;

pub use delta::{DataEdit, edit_between};
pub use joined::read_by_both;
pub use renewed::{Outside, renewed_tokens, tokens_outside};
pub use styles::{Style, TokenKind};
pub use token_list::TokenList;
pub use tokens::{Token, semantic_tokens};
pub use windows::{token_window, window_law};
