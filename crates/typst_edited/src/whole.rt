//! Whether a source holds what its text asks for.

use crate::edit::Edit;
use std::alloc::{AllocError, Global};
use typst_cli::{Classes, FileId, Lines, Source, SyntaxNode, parse};

/// The tree and the lines of a text, newly made.
#[derive(Drop)]
pub struct Wanted {
    tree: SyntaxNode,
    lines: Lines<String>,
}

impl Wanted {
    /// The tree and the lines of a text.
    pub fn of<C: Classes>(alloc: Global, text: &str, classes: &C) -> Result<Wanted, AllocError> {
        let tree = parse(alloc, text, classes)?;
        let lines = Lines::new(alloc, String::from_str(alloc, text)?)?;
        Ok(Wanted { tree, lines })
    }

    /// The tree and the lines of a text after an edit; nothing where its range isn't one of the text.
    pub fn after<C: Classes>(
        alloc: Global,
        text: &str,
        edit: Edit<'_>,
        classes: &C,
    ) -> Result<Option<Wanted>, AllocError> {
        match edit.applied(alloc, text)? {
            Some(new) => Ok(Some(Wanted::of(alloc, new.as_str(), classes)?)),
            None => Ok(None),
        }
    }
}

/// What of a source isn't as it has to be. Whether each node is found by its span is asked only where
/// that is wanted.
pub fn fault<C: Classes>(
    alloc: Global,
    source: &Source<C>,
    wanted: &Wanted,
    with_spans: bool,
) -> Result<Option<&'static str>, AllocError> {
    if source.text() != wanted.lines.text() {
        return Ok(Some("text"));
    }
    if !source.root().spanless_eq(&wanted.tree) {
        return Ok(Some("tree"));
    }
    if !are_same_lines(source.lines(), &wanted.lines) {
        return Ok(Some("lines"));
    }
    let nodes = nodes(alloc, source.root())?;
    if !have_text(nodes.as_slice(), source.text()) {
        return Ok(Some("leaves"));
    }
    if !are_in_order(nodes.as_slice(), source.id()) {
        return Ok(Some("numbers"));
    }
    if with_spans && !finds_all(source, nodes.as_slice()) {
        return Ok(Some("spans"));
    }
    Ok(None)
}

/// Whether two sources have the same text, lines and tree, spans too.
pub fn are_same<C: Classes>(
    alloc: Global,
    one: &Source<C>,
    other: &Source<C>,
) -> Result<bool, AllocError> {
    let (tree, others) = (one.root(), other.root());
    let is_text = one.text() == other.text() && are_same_lines(one.lines(), other.lines());
    Ok(is_text && tree.spanless_eq(others) && are_alike(alloc, tree, others)?)
}

/// Whether the nodes of two trees have the same spans.
pub fn are_alike(alloc: Global, one: &SyntaxNode, other: &SyntaxNode) -> Result<bool, AllocError> {
    let ones = nodes(alloc, one)?;
    let others = nodes(alloc, other)?;
    Ok(have_same_spans(ones.as_slice(), others.as_slice()))
}

/// Whether these nodes have the same spans, one by one.
fn have_same_spans(ones: &[&SyntaxNode], others: &[&SyntaxNode]) -> bool {
    if ones.len() != others.len() {
        return false;
    }
    for place in 0..ones.len() {
        if ones[place].span() != others[place].span() {
            return false;
        }
    }
    true
}

/// Whether two tables of lines are the same.
pub fn are_same_lines(one: &Lines<String>, other: &Lines<String>) -> bool {
    for i in 0..other.len_lines() {
        if one.line(i) != other.line(i) {
            return false;
        }
    }
    one.len_lines() == other.len_lines() && one.len_utf16() == other.len_utf16()
}

/// The nodes of a tree, each before its children.
pub fn nodes(alloc: Global, root: &SyntaxNode) -> Result<Vec<&SyntaxNode>, AllocError> {
    let (mut all, mut left) = (Vec::new(alloc), Vec::new(alloc));
    left.push(root)?;
    for _ in 0..root.descendants() {
        take_next(&mut all, &mut left)?;
    }
    Ok(all)
}

/// Takes the next of the nodes that are left, and leaves its children.
fn take_next<'a>(
    all: &mut Vec<&'a SyntaxNode>,
    left: &mut Vec<&'a SyntaxNode>,
) -> Result<(), AllocError> {
    let Some(node) = left.pop() else {
        return Ok(());
    };
    all.push(node)?;
    for child in node.children().iter().rev() {
        left.push(child)?;
    }
    Ok(())
}

/// Whether the leaves among these nodes, joined, are the text.
fn have_text(nodes: &[&SyntaxNode], text: &str) -> bool {
    let mut rest = text;
    for node in nodes {
        let Some(after) = rest.strip_prefix(node.leaf_text()) else {
            return false;
        };
        rest = after;
    }
    rest.is_empty()
}

/// Whether the number of each node is one of the file and above those of the nodes before it.
fn are_in_order(nodes: &[&SyntaxNode], file: FileId) -> bool {
    let mut last = 0;
    for node in nodes {
        let number = node.span().number_or_zero();
        if number <= last || node.span().id() != Some(file) {
            return false;
        }
        last = number;
    }
    true
}

/// Whether the source finds these nodes, which are all of its tree, by their spans, and their bytes by their numbers.
fn finds_all<C: Classes>(source: &Source<C>, nodes: &[&SyntaxNode]) -> bool {
    let mut start = 0usize;
    for node in nodes {
        let (Some(found), Some(number)) = (source.find(node.span()), node.span().number()) else {
            return false;
        };
        let range = start..start.saturating_add(node.len());
        let is_node = found.get().span() == node.span() && found.kind() == node.kind();
        if !is_node || found.range() != range || source.range(number, None) != Some(range) {
            return false;
        }
        if node.children().is_empty() {
            start = start.saturating_add(node.len());
        }
    }
    start == source.text().len()
}
