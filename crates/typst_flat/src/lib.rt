//! A syntax tree as arrays of records of one size each, for programs of other languages.
//!
//! [`fill_nodes`] puts the records of all nodes of a tree into an array, in preorder, and
//! [`fill_nodes_in`] those of the nodes that meet a stretch of bytes. [`fill_remarks`] does the same of what
//! is said of the nodes. Each puts as many as fit, and tells how many there are. Kinds and tags are numbers in
//! records: [`kind_of_code`], [`kind_named`] and [`tag_of_code`] tell which, and [`span_of`] gives a record's span back.
#![tactic(auto)]

mod boundaries;
mod bytes;
mod codes;
mod fill;
mod kinds;
mod nodes;
mod placed;
mod records;
mod said;
mod tags;
mod walk;

pub use bytes::fill_text;
pub use codes::{kind_code, span_of, tag_code};
pub use fill::{fill_nodes, fill_nodes_in};
pub use kinds::{kind_count, kind_named, kind_of_code, tag_of_code};
pub use records::{Node, Remark, Stretch};
pub use said::{Said, fill_remarks};
