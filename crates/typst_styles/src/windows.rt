//! Which tokens an edit leaves as they were.

ghost use Rattle.std.specs.Prelude.{◌≡◌, ◌+◌, ◌<◌, ◌≤◌, ◌⊎◌, length, take, true};
ghost use Rattle.typst_highlight.specs.RootEdits.{bytes_of};
ghost use Rattle.typst_tree.specs.Boundaries.{AreCounted, IsBoundary};
ghost use Rattle.typst_tree.specs.Tree.{forest, trees};
ghost use Rattle.typst_styles.specs.Windows as spec;

use crate::boundaries::{is_counted, last_to};
use std::ops::Range;
use typst_highlight::is_edge;
use typst_tree::{Boundary, SyntaxNode};

/// The bytes, in whole lines, whose tokens may have changed where some bytes of a text were read again: what
/// `Source::edit` answers. All tokens before them and after them are as they were. The lines go up to an edge
/// among the root's children (see `is_edge`), or to the text's start and its end.
///
/// It goes over the root's children between `near`, a place among them, or an end that is nearer, and the window's
/// ends, and over the bytes up to a line feed at both ends. Where nodes or bytes can't be counted, all are in the
/// window.
pub fn token_window(
    root: &SyntaxNode,
    text: &str,
    read: &Range<usize>,
    near: Boundary,
) -> Range<usize>
    requires { IsBoundary root.now near }
    ensures { spec.IsWindow root.now text.now read.now result }
{
    if !is_counted(root) {
        return 0..text.len();
    }
    let nodes = root.children();
    let (count, bytes) = nodes_before(root, near, read.start);
    let first = last_edge(nodes, count, bytes);
    let last = edge_after(nodes, count, bytes, read.end, text.len());
    line_before(text.as_bytes(), first)..line_after(text.as_bytes(), last)
}

/// How many of the root's first children end before a byte, and how many bytes they have.
fn nodes_before(root: &SyntaxNode, near: Boundary, limit: usize) -> (usize, usize)
    requires counted { AreCounted root.now }
    requires near { IsBoundary root.now near }
    ensures within { result.0 ≤ length (trees root.now.kids) }
    ensures bytes { result.1 ≡ bytes_of (take result.0 (trees root.now.kids)) }
    ensures below { (result.1 < limit) ⊎ (result.1 ≡ 0) }
{
    let end = last_to(root, near, limit.saturating_sub(1));
    let bytes = end.bytes - root.leaf_text().len();
    (end.index, bytes)
}

/// Where the last edge with a byte begins among the first of some nodes, or 0. `bytes` says how many these have.
fn last_edge(nodes: &[SyntaxNode], count: usize, bytes: usize) -> usize
    requires within { count ≤ length nodes.now }
    requires bytes { bytes ≡ bytes_of (take count nodes.now) }
    ensures { spec.BeginsEdge (forest nodes.now) (bytes + 1) result }
{
    let mut end = bytes;
    for back in 0..count {
        let at = count - back - 1;
        let node = &nodes[at];
        let start = end.saturating_sub(node.len());
        if start < end && is_edge(node) {
            return start;
        }
        end = start;
    }
    0
}

/// Where the first edge ends that begins after a byte and isn't among the first of some nodes, or the text's end.
/// `bytes` says how many these have.
fn edge_after(nodes: &[SyntaxNode], count: usize, bytes: usize, limit: usize, len: usize) -> usize
    requires { bytes ≡ bytes_of (take count nodes.now) }
    ensures { spec.EndsEdge (forest nodes.now) limit len result }
{
    let mut start = bytes;
    for index in count..nodes.len() {
        let node = &nodes[index];
        let end = node.len().saturating_add(start);
        if limit < start && is_edge_to(node, start, end) {
            return end;
        }
        start = end;
    }
    len
}

/// Whether a node is an edge with a byte, and ends where bytes can be counted.
fn is_edge_to(node: &SyntaxNode, start: usize, end: usize) -> bool
    ensures { result ≡ true → spec.IsEdgeTo node.now start end }
{
    start < end && end < usize::MAX && is_edge(node)
}

/// The start of the line of a byte, where a line ends with a line feed.
fn line_before(text: &[u8], at: usize) -> usize
    ensures low { result ≤ at }
    ensures line { (result ≡ 0) ⊎ spec.FollowsFeed text.now result }
{
    let last = at.min(text.len());
    for back in 0..last {
        let start = last - back;
        if text[start - 1] == b'\n' {
            return start;
        }
    }
    0
}

/// The first start of such a line from a byte on, or the text's end.
fn line_after(text: &[u8], at: usize) -> usize
    ensures { spec.IsLineAfter text.now at result }
{
    for index in at.saturating_sub(1)..text.len() {
        if text[index] == b'\n' {
            return index + 1;
        }
    }
    text.len()
}

/// Outside of such a window an edit of a root's children leaves all tokens as they were.
pub fn window_law()
    ensures { spec.WindowLaw }
{}
