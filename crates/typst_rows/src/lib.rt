//! Rows: texts, and what a word is to answer about each, as files have them. A program has words of its own,
//! a [`RowWord`]. [`run`] compares all rows of files, or answers one word about the text on standard input.
#![tactic(auto)]

mod escapes;
mod program;
mod reading;
mod row;
mod row_word;

pub use escapes::with_line_feeds;
pub use program::{ended, run, show_usage, words};
pub use row_word::RowWord;
