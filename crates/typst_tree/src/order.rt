//! Trees whose numbers are in order.

ghost use Rattle.std.specs.Prelude.{◌≡◌, ◌+◌, ◌^◌, ◌<◌, ◌≤◌, ◌-◌, ◌++◌, true, length, option_to_list, IfSome, IsTrue, ◌↔◌};
ghost use Rattle.std.specs.Option.{option_map};
ghost use Rattle.typst_kinds.specs.Span.{number_of};
ghost use Rattle.typst_tree.specs.Tree.{nodes, places, forest, count, joined, saturated};
ghost use Rattle.typst_tree.specs.Passed.{IsPassed};
ghost use Rattle.typst_tree.specs.Order.{AreInOrder, numbers_of};
ghost use Rattle.typst_tree.specs.Walks.{first_at, Within};
ghost use Rattle.typst_tree.specs.Wanted.{wanted};
ghost use Rattle.typst_tree.specs.Ordered.{number_at, IsKey, IsLastUpTo};

use crate::SyntaxNode;
use crate::search::{Passed, Search, Spot, first_in};

/// The number of the tree of an index in a row, or the end if there is none.
fn number_at(row: &[SyntaxNode], index: usize, end: Option<u64>) -> Option<u64>
    ensures { result ≡ number_at row.now index end }
{
    match row.get(index) {
        None => end,
        Some(tree) => Some(tree.span().number_or_zero()),
    }
}

/// Whether the node's own number is below the next one, if there is one.
fn is_before(node: &SyntaxNode, next: Option<u64>) -> bool
    ensures { IsTrue result ↔ IfSome next (λ n. number_of node.now.head.span < n) }
{
    match next {
        None => true,
        Some(next) => node.span().number_or_zero() < next,
    }
}

/// Whether the numbers of a tree are in order and below the end, if there is one.
///
/// A node's number is the least of its tree, so the end of each child is the number of the next one, which is
/// known before the children are gone through. The loop goes on with the child of the most nodes: each of the
/// others has at most half as many, so frames are few however deep the tree is.
fn rises_to(root: &SyntaxNode, end: Option<u64>) -> bool
    ensures { IsTrue result ↔ AreInOrder (numbers_of root.now ++ option_to_list end) }
{
    let (mut node, mut limit) = (root, end);
    loop {
        let row = node.children();
        if !is_before(node, number_at(row, 0, limit)) {
            return false;
        }
        let last = node.last_to_go();
        for i in 0..row.len() {
            if i == last {
                continue;
            }
            if !rises_to(&row[i], number_at(row, i + 1, limit)) {
                return false;
            }
        }
        if last >= row.len() {
            return true;
        }
        limit = number_at(row, last + 1, limit);
        node = &row[last];
    }
}

/// Whether the tree's numbers are in order: each is below all that come later in preorder, where
/// a detached node counts as 0. A tree that was numbered as a whole is. Goes through all nodes.
pub fn is_ordered(root: &SyntaxNode) -> bool
    ensures { IsTrue result ↔ AreInOrder (numbers_of root.now) }
{
    rises_to(root, None)
}

/// Of trees whose numbers are in order, the last whose number isn't above `key`, or else the first.
fn last_up_to(row: &[SyntaxNode], key: u64) -> usize
    requires { 0 < length row.now }
    ensures { IsLastUpTo key row.now result }
{
    let mut low = 0usize;
    let mut high = row.len();
    while high - low > 1 {
        let middle = low + (high - low) / 2;
        let tree = &row[middle];
        if key < tree.span().number_or_zero() {
            high = middle;
        } else {
            low = middle;
        }
    }
    low
}

/// How many nodes the children of a node may have, one with another, for the node's length to be asked for.
/// If that isn't kept, it is added up again, and so from no more than these.
const MANY: usize = 64;

/// The number and the offset of the tree of an index in a row, of which the first has this number and
/// offset.
fn summed_to(row: &[SyntaxNode], number: usize, offset: usize, index: usize) -> Passed
    requires counted { number + count (forest row.now) < 2 ^ 64 - 1 }
    requires within { index ≤ length row.now }
    ensures { IsPassed row.now number offset index result.number result.offset }
{
    let mut at = number;
    let mut begin = offset;
    for i in 0..index {
        let tree = &row[i];
        at += tree.descendants();
        begin = begin.saturating_add(tree.len());
    }
    Passed {
        index,
        number: at,
        offset: begin,
    }
}

/// The number and the offset of the tree of an index in a row, added up from the row's end, where the row has so
/// many nodes and so many bytes.
fn summed_back_to(
    row: &[SyntaxNode],
    number: usize,
    offset: usize,
    nodes: usize,
    len: usize,
    index: usize,
) -> Passed
    requires counted { number + nodes < 2 ^ 64 - 1 }
    requires measured { offset + len < 2 ^ 64 - 1 }
    requires nodes { nodes ≡ count (forest row.now) }
    requires len { len ≡ length (joined (forest row.now)) }
    requires within { index ≤ length row.now }
    ensures { IsPassed row.now number offset index result.number result.offset }
{
    let mut at = number + nodes;
    let mut begin = offset + len;
    let mut i = row.len();
    while i > index {
        i -= 1;
        let tree = &row[i];
        at -= tree.descendants();
        begin -= tree.len();
    }
    Passed {
        index,
        number: at,
        offset: begin,
    }
}

/// The number and the offset of the child of an index of a node, which has this number and offset. They are added
/// up from the side that has fewer siblings.
pub fn before_index(
    node: &SyntaxNode,
    row: &[SyntaxNode],
    number: usize,
    offset: usize,
    index: usize,
) -> Passed
    requires counted { number + nodes node.now < 2 ^ 64 - 1 }
    requires row { forest row.now ≡ node.now.kids }
    requires within { index ≤ length row.now }
    ensures { IsPassed row.now (number + 1) (saturated (offset + length node.now.head.text)) index result.number result.offset }
{
    let text = node.leaf_text().len();
    let start = offset.saturating_add(text);
    if index <= row.len() / 2 {
        return summed_to(row, number + 1, start, index);
    }
    let all = node.descendants();
    if row.len() < all / MANY {
        return summed_to(row, number + 1, start, index);
    }
    let len = node.len();
    if offset.saturating_add(len) == usize::MAX {
        return summed_to(row, number + 1, start, index);
    }
    summed_back_to(row, number + 1, start, all - 1, len - text, index)
}

/// `first_in` of a node whose numbers are in order, for a search that asks for the number `key`:
/// it goes on with one child at the most.
fn first_in_order<'a>(
    node: &'a SyntaxNode,
    number: usize,
    offset: usize,
    search: &Search,
    key: u64,
) -> Option<Spot<'a>>
    requires counted { number + nodes node.now < 2 ^ 64 - 1 }
    requires in_order { AreInOrder (numbers_of node.now) }
    requires keyed { IsKey (wanted search.now) key }
    ensures first { option_map (λ spot. spot.number) result ≡ first_at (wanted search.now) number offset (places node.now) }
    ensures spot { IfSome result (λ spot. Within number offset (places node.now) spot.number spot.offset (places spot.node.now)) }
{
    if key < node.span().number_or_zero() {
        return None;
    }
    if search.wants(number, node) {
        return Some(Spot {
            node,
            number,
            offset,
        });
    }
    let row = node.children();
    if row.is_empty() {
        return None;
    }
    let index = last_up_to(row, key);
    let passed = before_index(node, row, number, offset, index);
    first_in_order(&row[index], passed.number, passed.offset, search, key)
}

/// `first_in`, by the way that the numbers show if they are in order.
pub fn find_in<'a>(
    node: &'a SyntaxNode,
    number: usize,
    offset: usize,
    search: &Search,
    in_order: bool,
) -> Option<Spot<'a>>
    requires counted { number + nodes node.now < 2 ^ 64 - 1 }
    requires ordered { in_order ≡ true → AreInOrder (numbers_of node.now) }
    ensures first { option_map (λ spot. spot.number) result ≡ first_at (wanted search.now) number offset (places node.now) }
    ensures spot { IfSome result (λ spot. Within number offset (places node.now) spot.number spot.offset (places spot.node.now)) }
{
    match search.key() {
        Some(key) if in_order => first_in_order(node, number, offset, search, key),
        _ => first_in(node, number, offset, search),
    }
}
