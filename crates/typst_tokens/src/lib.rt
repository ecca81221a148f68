//! The language in which the rules of tokens are written, the cursor that reads by it, and tokens: what
//! those of all modes share, those that only markup has, and those that only code has.
#![tactic(auto)]

pub mod code;
pub mod code_laws;
pub mod column;
pub mod column_laws;
pub mod common;
pub mod cursor;
pub mod escapes;
pub mod hull;
mod identifiers;
mod invalid;
pub mod labels;
pub mod line;
mod link;
pub mod link_laws;
pub mod markup;
mod markup_sets;
mod names;
pub mod numbers;
pub mod pairs;
pub mod raw;
pub mod sets;
pub mod strings;
pub mod text;
pub mod token;

pub use cursor::Cursor;
pub use hull::Hull;
pub use line::LineEnd;
pub use pairs::PairSet;
pub use token::{Base, Fault, NumberFault, Token};
