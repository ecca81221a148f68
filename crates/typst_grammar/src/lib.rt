//! The grammar: what its calls read, the laws of the definition of trees, how the operands of binary
//! operators bind, and the entry points: the syntax tree of a whole text of markup, of code or of a
//! formula.
#![tactic(auto)]

mod binding_laws;
mod entry;
mod grammar;
mod laws;
mod part;

pub use binding_laws::{binding_law, bindings_of_texts};
pub use entry::{Noted, parse, parse_code, parse_math, parse_noted, root_over};
pub use grammar::{MAX_DEPTH, read_whole};
pub use laws::{
    grammar_laws, leaves_law, notes_of_texts, reading_laws, trees_of_code, trees_of_formulas,
    trees_of_names, trees_of_patterns, trees_of_texts,
};
pub use part::{PieceReader, ReadPart, RunKind, parse_block, resume_pieces};
