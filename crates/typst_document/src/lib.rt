//! An open document of an editor: its text with its tree and the table of its lines, and the places of its bytes.
//!
//! [`Document`] holds what [`Source`](typst_parser::Source) proves of a text through all changes. [`Walk`] and
//! [`Extents`] tell places one after another, each from the one before it.
#![tactic(auto)]

mod document;
mod walk;

pub use document::Document;
pub use typst_lines::{is_id_continue, is_valid_label_literal_id, ref_name};
pub use typst_parser::{Diagnostic, Severity, SyntaxKind, UnicodeClasses, parse_code};
pub use walk::{Extents, Walk, is_line_end};
