//! The parser layer of Typst, as programs use it.
//!
//! - [`parse`] makes the syntax tree of a text of markup. Any text has one; errors, warnings and hints
//!   are in the tree, and its leaves joined are the text. [`parse_code`] does the same of code,
//!   and [`parse_math`] of a formula.
//!   [`parse_noted`] gives a text's [`Noted`]: its tree with what was looked at for it, and a [`Note`] for
//!   each [`Mark`] at which a piece or a [`Block`] begins or ends.
//! - A tree is a [`SyntaxNode`] of some [`SyntaxKind`], with its [`Diagnostic`]s and its [`Span`];
//!   [`LinkedNode`] is a node that knows what is around it. A [`Boundary`] is a place between the root's children.
//! - [`highlight`] gives the [`Tag`] that a node is shown by, and [`highlight_html`] writes a tree's text
//!   as HTML. [`tag_stretches`] gives the text as stretches, each a [`Tagged`] with its tag.
//! - A [`Source`] holds a text with its lines and its numbered tree from edit to edit, finds nodes by
//!   their spans and says which bytes they are; [`SourceError`] is why one can't be made or edited.
//! - What characters are letters, digits and word characters is asked of a value of [`Classes`];
//!   [`UnicodeClasses`] answers by Unicode. [`is_id_start`], [`is_id_continue`] and [`is_ident`] say by
//!   such a value what an identifier is, and [`is_valid_label_literal_id`] what a label can be named.
//! - [`link_prefix`] finds the link that a text begins with.
//! - [`Lines`] finds lines, columns and UTF-16 positions in a text; [`is_newline`] and
//!   [`split_newlines`] say where lines end.
//!
//! Positions are in bytes unless said otherwise. What makes a value takes the allocator, and answers
//! `AllocError` if memory is refused.
#![tactic(auto)]

mod attempt;
mod edited;
mod read;
mod replacement;
mod source;

pub use source::Source;
pub use typst_edits::{Block, Mark, Note, Noted, parse, parse_code, parse_math, parse_noted};
pub use typst_highlight::{Tag, Tagged, highlight, highlight_html, tag_stretches};
pub use typst_kinds::{
    Assoc, BinOp, Diagnostic, FileId, Hint, Severity, SourceError, Span, SpanNumber, SubRange,
    SyntaxKind, SyntaxMode, SyntaxSet, UnOp, set,
};
pub use typst_lines::{
    Classes, Line, Lines, MathClass, Text, UnicodeClasses, is_id_continue, is_id_start, is_ident,
    is_newline, is_valid_label_literal_id, link_prefix, split_newlines,
};
pub use typst_tree::{
    Boundary, LinkedChildren, LinkedNode, Preorder, SyntaxNode, Visit, is_ordered,
};
