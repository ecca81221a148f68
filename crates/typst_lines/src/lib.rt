//! Characters and texts: a cursor over a text, the lines of a text, classes of characters, by which texts
//! are read, and links and labels by their characters.
#![tactic(auto)]

mod blocks;
pub mod by_unicode;
pub mod classes;
pub mod ends;
pub mod labels;
pub mod laws;
pub mod lines;
pub mod links;
pub mod newline;
pub mod scanner;
pub mod sets;

pub use by_unicode::UnicodeClasses;
pub use classes::{Classes, MathClass, is_id_continue, is_id_start, is_ident};
pub use labels::{InName, is_valid_in_label_literal, is_valid_label_literal_id, ref_name};
pub use lines::{EditedLines, Line, Lines, LinesFrom, Text};
pub use links::{eat_front, link_prefix, without_last_signs};
pub use newline::{is_newline, split_newlines};
pub use scanner::{CharSet, Scanner, ScannerExt};
