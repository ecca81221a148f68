//! What programs print about a text, over any reader and writers: what is wrong with it (check.rt, report.rt), its
//! lines, its tree, its HTML.
#![tactic(auto)]

pub mod check;
mod escape;
mod finding;
pub mod form;
mod github;
pub mod html;
pub mod lines;
mod located;
pub mod names;
mod ndjson;
mod page;
mod place;
pub mod report;
mod short;
pub mod streams;
mod style;
pub mod tally;
pub mod tree;
mod tree_lines;
