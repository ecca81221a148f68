//! Edits of sources for tests: texts that are put in, what came of that ([`Made`]), edits that are drawn
//! ([`Draws`]), and whether a source holds afterwards what its text asks for ([`fault`]).
#![tactic(auto)]

mod draws;
mod edit;
mod whole;

pub use draws::{Draws, boundary};
pub use edit::{Edit, Made, edit_of, source_of};
// Programs that name this crate name what it stands on through it.
pub use typst_cli as cli;
pub use whole::{Wanted, are_alike, are_same, are_same_lines, fault, nodes};
