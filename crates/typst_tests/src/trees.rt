use crate::rows::{Row, add_rows, list};
use std::alloc::Global;
use typst_kinds::{FileId, SourceError, SyntaxKind};
use typst_tree::SyntaxNode;

/// The first number that isn't one.
pub(crate) const END: u64 = 1 << 47;

/// The leaf `b` of `sample`, and what stands before it.
const FRONT: [Row; 4] = [
    (SyntaxKind::LeftBracket, "[", None),
    (SyntaxKind::Text, "a ", None),
    (SyntaxKind::Star, "*", None),
    (SyntaxKind::Text, "b", None),
];

/// What stands after it.
const BEHIND: [Row; 4] = [
    (SyntaxKind::Star, "*", None),
    (SyntaxKind::Strong, "", Some(3)),
    (SyntaxKind::RightBracket, "]", None),
    (SyntaxKind::ContentBlock, "", Some(4)),
];

/// `[a *b*]`, with a warning and a hint at the leaf `b`.
pub(crate) fn sample(alloc: Global) -> Option<SyntaxNode> {
    let mut nodes = list(alloc, &FRONT)?;
    let leaf = nodes.last_mut()?;
    leaf.warn("odd").ok()?;
    leaf.hint("look").ok()?;
    add_rows(alloc, &mut nodes, &BEHIND)?;
    nodes.pop()
}

/// The numbers of the first thousand nodes, each before its children's, 0 for a detached one.
pub(crate) fn numbers(alloc: Global, root: &SyntaxNode) -> Option<Vec<u64>> {
    let mut all = Vec::new(alloc);
    let mut walk = root.preorder(alloc);
    for _ in 0..1000 {
        let Some(visit) = walk.next().ok()? else {
            break;
        };
        all.push(visit.node.span().number_or_zero()).ok()?;
    }
    Some(all)
}

/// Numbers a tree within `start..end`, both within all numbers.
pub(crate) fn number(node: &mut SyntaxNode, start: u64, end: u64) -> Result<(), SourceError> {
    match FileId::new(1) {
        Some(file) if 2 <= start && end <= END => node.numberize(file, start..end),
        _ => Err(SourceError::OutOfMemory),
    }
}

/// The tree with numbers below the end, or nothing where these are too few or memory was refused.
pub(crate) fn numbered(mut node: SyntaxNode, end: u64) -> Option<SyntaxNode> {
    number(&mut node, 2, end).ok()?;
    Some(node)
}

/// `replace_at` where the path leads to such children, or lack of memory.
pub(crate) fn replace(
    node: &mut SyntaxNode,
    path: &[usize],
    from: usize,
    to: usize,
    nodes: Vec<SyntaxNode>,
) -> Result<(), SourceError> {
    if node.reaches(path, from, to) {
        node.replace_at(path, from..to, nodes)
    } else {
        Err(SourceError::OutOfMemory)
    }
}

/// Whether both are the same, spans too.
pub(crate) fn same(alloc: Global, a: &SyntaxNode, b: &SyntaxNode) -> Option<bool> {
    let (one, other) = (numbers(alloc, a)?, numbers(alloc, b)?);
    Some(one.as_slice() == other.as_slice() && a.spanless_eq(b))
}
