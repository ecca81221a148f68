//! The language in which Typst's grammar is written, and the parser that follows it: with one token
//! read ahead, what was looked at and noted, and what it does to nodes that were given.
#![tactic(auto)]

mod ahead;
mod calls;
mod change;
mod checkpoint;
mod depth;
mod eats;
mod hints;
mod laws;
mod log;
mod memo;
mod nodes;
mod parser;
mod reading;
mod ways;
mod wraps;

pub use ahead::{ReadAhead, judged, left, no_newlines};
pub use calls::{AfterName, Block, Carried, ChainSet, Mark, Note, Role, Way};
pub use change::{NodeChange, change_first, change_node, unparen};
pub use checkpoint::Checkpoint;
pub use depth::{
    Anywhere, Grammar, Levels, Stops, deeper_code_expr, deeper_markup_expr, deeper_math_expr,
    deeper_pattern, is_end, too_deep,
};
pub use hints::hint_last;
pub use laws::words_of_the_language;
pub use log::Log;
pub use memo::Guessed;
pub use parser::Parser;
pub use reading::{AtNewline, Newlines, Reading, State};
pub use typst_lexer::lexer::{named_argument, spread_argument, token};
pub use typst_lexer::{Read, SyntaxNode, is_leaf, leaf_node, make_node};
pub use typst_tokens::sets::number;
