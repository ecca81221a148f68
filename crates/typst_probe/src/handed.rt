//! The word `handed`.

use crate::answers;
use std::alloc::{AllocError, Global};
use typst_edited::{are_alike, are_same, are_same_lines, nodes};
use typst_parser::{
    FileId, Lines, Source, SpanNumber, SubRange, SyntaxKind, SyntaxNode, UnicodeClasses,
    is_ordered, parse,
};

/// Numbers that no node of a tree without numbers has.
const UNKNOWN: [u64; 5] = [2, 3, 1000, 1 << 46, (1 << 47) - 1];

/// Prints whether a source holds the tree that it is handed, and what edits of it answer: what the word `edits` prints,
/// and of which file the nodes are then. The first line has the number of the source's file and what [`tree_of`] reads;
/// the edits stand on the next lines, and the text comes after an empty line.
pub fn print(alloc: Global, printed: &mut String, text: &str) -> Result<(), AllocError> {
    let Some((lines, text)) = text.split_once("\n\n") else {
        return printed.push_str("no text\n");
    };
    let line = lines.split('\n').next().unwrap_or("");
    let (file, words) = line.split_once(' ').unwrap_or((line, ""));
    let Some(file) = file_of(file) else {
        return printed.push_str("no file\n");
    };
    let tree = tree_of(alloc, words)?;
    let mut source = source_with(alloc, file, text, &tree)?;
    print_held(alloc, printed, &source, &tree, text)?;
    print_edits(alloc, printed, &mut source, lines)
}

/// A source of a file with this text and a copy of this tree.
fn source_with(
    alloc: Global,
    file: FileId,
    text: &str,
    tree: &SyntaxNode,
) -> Result<Source<UnicodeClasses>, AllocError> {
    let root = tree.try_clone()?;
    let text = String::from_str(alloc, text)?;
    Source::with_root(alloc, file, text, root, UnicodeClasses)
}

/// Prints what the edits on the lines after the first answer.
fn print_edits(
    alloc: Global,
    printed: &mut String,
    source: &mut Source<UnicodeClasses>,
    lines: &str,
) -> Result<(), AllocError> {
    for edit in lines.split('\n').skip(1) {
        answers::print_line(alloc, printed, source, edit)?;
        print_file(alloc, printed, source)?;
    }
    Ok(())
}

/// The file of a number.
fn file_of(number: &str) -> Option<FileId> {
    FileId::new(number.parse().ok()?)
}

/// The tree that words name: a text after `bare`, its tree without numbers; after the number of a file, its tree
/// numbered in that; after `leaf`, it alone; and `cut-tag`.
fn tree_of(alloc: Global, words: &str) -> Result<SyntaxNode, AllocError> {
    let (form, text) = words.split_once(' ').unwrap_or((words, ""));
    if form == "leaf" {
        return SyntaxNode::leaf(alloc, SyntaxKind::Text, text);
    }
    if form == "cut-tag" {
        return cut_tag(alloc);
    }
    let mut tree = parse(alloc, text, &UnicodeClasses)?;
    if let Some(file) = file_of(form) {
        if tree.numberize(file, 2..1 << 47).is_err() {
            return Err(AllocError);
        }
    }
    Ok(tree)
}

/// The tree of "```c++ x```" in which the tag is an identifier and the rest is text.
fn cut_tag(alloc: Global) -> Result<SyntaxNode, AllocError> {
    let mut leaves = Vec::new(alloc);
    for (kind, text) in [
        (SyntaxKind::RawDelim, "```"),
        (SyntaxKind::RawLang, "c"),
        (SyntaxKind::Text, "++ x"),
        (SyntaxKind::RawDelim, "```"),
    ] {
        leaves.push(SyntaxNode::leaf(alloc, kind, text)?)?;
    }
    let mut raw = SyntaxNode::inner(SyntaxKind::Raw, leaves);
    if let Some(tag) = SubRange::new(3, 6) {
        raw.warn_at(tag, "no whitespace between language tag and raw text")?;
    }
    let mut nodes = Vec::new(alloc);
    nodes.push(raw)?;
    Ok(SyntaxNode::inner(SyntaxKind::Markup, nodes))
}

/// Prints the name of a source's clone, where both have this text, its lines, and the tree with its spans.
fn print_held(
    alloc: Global,
    printed: &mut String,
    source: &Source<UnicodeClasses>,
    tree: &SyntaxNode,
    text: &str,
) -> Result<(), AllocError> {
    let (clone, root) = (source.try_clone()?, source.root());
    let lines = Lines::new(alloc, String::from_str(alloc, text)?)?;
    let is_tree = root.spanless_eq(tree) && are_alike(alloc, root, tree)?;
    let is_text = source.text() == text && are_same_lines(source.lines(), &lines);
    if is_tree && is_text && are_same(alloc, source, &clone)? {
        return writeln!(printed, "{clone:?} holds it");
    }
    printed.push_str("another source\n")
}

/// Prints of which file all nodes of a source are, which isn't that of the source.
fn print_file(
    alloc: Global,
    printed: &mut String,
    source: &Source<UnicodeClasses>,
) -> Result<(), AllocError> {
    let (root, span) = (source.root(), source.root().span());
    for node in nodes(alloc, root)?.as_slice() {
        if node.span().id() != span.id() {
            return printed.push_str("several files\n");
        }
    }
    if !knows_root(source) || source.find(span).is_some() {
        return printed.push_str("another root\n");
    }
    match span.id() {
        Some(_) if !is_ordered(root) => printed.push_str("no order\n"),
        Some(file) => writeln!(printed, "file {}", file.get()),
        None => printed.push_str("no file\n"),
    }
}

/// Whether a source knows its root by its number, or where that has none finds no bytes by a number.
fn knows_root(source: &Source<UnicodeClasses>) -> bool {
    if let Some(number) = source.root().span().number() {
        return source.range(number, None) == Some(0..source.text().len());
    }
    for number in UNKNOWN {
        if let Some(number) = SpanNumber::new(number) {
            if source.range(number, None).is_some() {
                return false;
            }
        }
    }
    true
}
