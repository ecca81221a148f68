//! What of a tree an edit may read again: blocks that cover the replaced bytes, and pieces around
//! them, in order; and the units of a text, by which it is decided.
//!
//! [`find_candidates`] gives as many of the first candidates as are asked for. To get them one at a time, walk down
//! by [`Children::near`] and [`Near::covers`], and take a run's child ranges by [`Children::around`] and
//! [`Children::is_all`]. [`Records`] keep the units beside a tree.
#![tactic(auto)]

mod anchor;
mod candidate;
mod children;
mod cursor;
mod cuts;
mod enclosing;
mod entries;
mod entry;
mod laws;
mod packed;
mod records;
mod run;

pub use candidate::{Candidate, Candidates, find_candidates, find_candidates_from};
pub use children::{ChildRange, Children, Edge, Near};
pub use cursor::EntryCursor;
pub use cuts::{Cuts, Window};
pub use entry::{Entry, EntryKind};
pub use laws::{candidates_of_texts, looks_law, nested_law, records_of_texts};
pub use records::{Records, fit};
