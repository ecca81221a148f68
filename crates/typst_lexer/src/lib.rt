//! The lexer of Typst: the tokens that only formulas have, the token of a mode, and the node that a token
//! makes of its text, a raw text's among them.
#![tactic(auto)]

mod atoms;
mod faults;
mod fields;
pub mod lexer;
pub mod math;
pub mod math_arguments;
pub mod math_laws;
mod math_names;
mod nodes;
mod numbers;
mod raw;
pub mod raw_laws;
mod raw_lines;
mod raw_sets;
mod raw_tag;
mod shorthands;
pub mod text_laws;
pub mod token_laws;

pub use lexer::{Lexer, Read};
pub use nodes::{is_leaf, leaf_node, make_node};
pub use raw::raw_node;
pub use typst_tree::SyntaxNode;
