//! The productions of code.
#![tactic(auto)]

mod arguments;
mod expressions;
mod groups;
mod heads;
mod imports;
mod listing;
mod parens;
mod sequences;
mod statements;
mod stops;

pub use expressions::code_expr;
pub use heads::{CodeHead, CodeTail};
pub use listing::ParenItems;
pub use sequences::{code_block, code_exprs};
pub use stops::CodeStop;
pub use typst_bindings::pattern;
pub use typst_markup::{
    MathStop, Stop, content_block, markup_expr, markup_run, markup_turn, math_expr, math_exprs,
};
