//! The program `typst_syn` over any reader and writers: what it answers to its words (program.rt). What is printed
//! about a text without an edit is of `typst_report`.
#![tactic(auto)]

pub mod command;
mod edit;
pub mod failure;
mod input;
pub mod program;
mod request;

pub use command::Command;
pub use failure::Failure;
pub use program::run;
// What programs name of the libraries beside what is answered to words.
pub use typst_parser::{
    Block, Classes, Diagnostic, FileId, Hint, Lines, LinkedNode, Mark, Note, Severity, Source,
    SourceError, Span, SpanNumber, SubRange, SyntaxKind, SyntaxMode, SyntaxNode, Tag, Tagged,
    UnicodeClasses, highlight, is_newline, is_ordered, link_prefix, parse, parse_code, parse_math,
    parse_noted, tag_stretches,
};
pub use typst_report::{check, form, names, report, tally, tree};
