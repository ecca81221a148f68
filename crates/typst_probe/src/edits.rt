//! Edits of a source. The first line of a row's text is the edit's words, START END TEXT, and the text
//! comes after that line.

use crate::{edit_lines, spans};
use std::alloc::{AllocError, Global};
use typst_edited::cli::tree::print_node;
use typst_edited::cli::{Classes, Source, UnicodeClasses};
use typst_edited::{Edit, Made, edit_of};
use typst_fakes::{Narrow, Wide};
use typst_rows::with_line_feeds;

/// What is printed of a text after an edit.
#[derive(Clone, Copy)]
pub enum After {
    /// Its tree.
    Tree,
    /// Its tree, where nearly all characters past ASCII are letters.
    TreeWide,
    /// Its tree, where no character past ASCII has a class.
    TreeNarrow,
    /// The range that was parsed again, and the tree with the number of each node.
    Spans,
    /// Its lines.
    Lines,
}

/// Prints what a row is answered whose first line has an edit's words.
pub fn print(
    alloc: Global,
    printed: &mut String,
    text: &str,
    after: After,
) -> Result<(), AllocError> {
    let Some((words, text)) = text.split_once('\n') else {
        return printed.push_str("no text\n");
    };
    let words = with_line_feeds(alloc, words)?;
    let Some(edit) = edit_of(words.as_str()) else {
        return printed.push_str("no edit\n");
    };
    match after {
        After::Tree => print_after(alloc, printed, text, edit, UnicodeClasses),
        After::TreeWide => print_after(alloc, printed, text, edit, Wide),
        After::TreeNarrow => print_after(alloc, printed, text, edit, Narrow),
        After::Spans => print_spans_after(alloc, printed, text, edit),
        After::Lines => edit_lines::print_after(alloc, printed, text, edit),
    }
}

/// Prints the tree of a text after an edit.
fn print_after<C: Classes + Drop>(
    alloc: Global,
    printed: &mut String,
    text: &str,
    edit: Edit<'_>,
    classes: C,
) -> Result<(), AllocError> {
    let (source, made) = edit.source(alloc, text, classes)?;
    match made {
        Made::Read(_) => print_source(alloc, printed, &source),
        Made::Fault(_) => printed.push_str("bad range\n"),
    }
}

/// Prints the tree of a source, if it is as long as its text.
fn print_source<C: Classes>(
    alloc: Global,
    printed: &mut String,
    source: &Source<C>,
) -> Result<(), AllocError> {
    let root = source.root();
    if root.len() != source.text().len() {
        return printed.push_str("another length\n");
    }
    print_node(alloc, printed, root, "", 0)
}

/// Prints what came of an edit, on a line, and below it, where it was made, the tree with the number of each node.
pub fn print_spans_after(
    alloc: Global,
    printed: &mut String,
    text: &str,
    edit: Edit<'_>,
) -> Result<(), AllocError> {
    let (source, made) = edit.source(alloc, text, UnicodeClasses)?;
    made.print(printed)?;
    match made {
        Made::Read(_) => spans::print_tree(alloc, printed, source.root()),
        Made::Fault(_) => Ok(()),
    }
}
