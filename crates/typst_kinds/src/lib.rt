//! The small types of Typst's syntax tree: kinds of nodes, sets of kinds, operators, modes, spans; and
//! what a node keeps beside its children: texts, diagnostics, its head. [`Names`] are those that were seen.
#![tactic(auto)]

mod diagnostic;
mod error;
mod items;
mod kind;
pub mod messages;
mod mode;
mod operator;
mod own;
mod seen;
pub mod set;
mod span;
mod text;

pub use diagnostic::{Diagnostic, Hint, Severity};
pub use error::SourceError;
pub use items::Items;
pub use kind::SyntaxKind;
pub use mode::SyntaxMode;
pub use operator::{Assoc, BinOp, UnOp};
pub use own::Own;
pub use seen::Names;
pub use set::SyntaxSet;
pub use span::{FileId, Span, SpanNumber, SubRange};
pub use text::Text;
