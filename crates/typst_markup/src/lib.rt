//! The productions of markup, and where code and formulas begin in it; the productions of formulas; keys
//! of pairs and named arguments, which code and formulas share.
#![tactic(auto)]

mod attachments;
mod delimited;
mod embedding;
mod equations;
mod escapes;
mod expressions;
mod formulas;
mod head;
mod keys;
mod math_arguments;
mod math_heads;
mod named;
mod references;
mod sequences;
mod starts;
mod stops;

pub use embedding::embedded;
pub use equations::{equation, math_exprs, no_signs};
pub use escapes::string_key;
pub use expressions::{emph, heading, item, markup_expr, strong, term_item};
pub use formulas::math_expr;
pub use head::MarkupHead;
pub use keys::{Key, key_of};
pub use math_heads::{Callee, Grown, MathHead, MathTail};
pub use named::{with_argument, wrap_named};
pub use references::{content_block, opens_directly, read_content, reference};
pub use sequences::{markup, markup_exprs, markup_run, markup_turn, markup_with_trivia};
pub use starts::{begins_code, begins_statement};
pub use stops::{MathStop, Stop, ends_list, is_closer, separates};
