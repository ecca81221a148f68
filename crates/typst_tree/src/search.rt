//! The walk through a tree in preorder that all steps share.

ghost use Rattle.std.specs.Prelude.{◌≡◌, ℕ, ◌+◌, ◌^◌, ◌<◌, ◌-◌, ◌≤◌, true, false, None, Some, length, take, drop, IfSome, IsTrue, ◌↔◌, if◌then◌else◌};
ghost use Rattle.std.specs.Option.{option_map};
ghost use Rattle.typst_tree.specs.Tree.{nodes, places, forest, count, preorder, joined, text_of, saturated};
ghost use Rattle.typst_tree.specs.Passed.{IsPassed, FindsChild};
ghost use Rattle.typst_tree.specs.Walks.{first_at, is_childless, is_leaf, holds_byte, Within};
ghost use Rattle.typst_tree.specs.Rows.{IsChild};
ghost use Rattle.typst_tree.specs.Wanted.{wanted};
ghost use Rattle.typst_tree.specs.Ordered.{IsKey};
ghost use Rattle.typst_tree.specs.Looked.{IsIn, FoundFrom, Finds, Looks};

use crate::SyntaxNode;
use crate::known::LONG;
use crate::node::SMALL;
use typst_kinds::{Span, SpanNumber};

/// What a walk in preorder looks for.
#[derive(Clone, Copy)]
pub enum Search {
    /// A leaf that is neither trivia nor an error, from this number on.
    LeafFrom(usize),
    /// A node with this span.
    Spanned(Span),
    /// A node whose span has this number.
    Numbered(SpanNumber),
}

/// A node with its number in preorder and its offset in bytes.
#[derive(Clone, Copy)]
pub struct Spot<'a> {
    pub node: &'a SyntaxNode,
    pub number: usize,
    pub offset: usize,
}

/// Whether the node has no children.
fn is_childless(node: &SyntaxNode) -> bool
    ensures { result ≡ is_childless node.now.kids }
{
    node.children().is_empty()
}

/// Whether the node is a leaf that is neither trivia nor an error.
pub fn is_leaf(node: &SyntaxNode) -> bool
    ensures { result ≡ is_leaf node.now }
{
    let kind = node.kind();
    is_childless(node) && !kind.is_trivia() && !kind.is_error()
}

impl Search {
    /// Whether the node with this number is one that is looked for.
    pub fn wants(&self, number: usize, node: &SyntaxNode) -> bool
        requires { number + nodes node.now < 2 ^ 64 - 1 }
        ensures { (a : ℕ) → result ≡ wanted self.now number a node.now }
    {
        match self {
            Search::LeafFrom(least) => *least <= number && is_leaf(node),
            Search::Spanned(span) => same_span(node.span(), *span),
            Search::Numbered(wanted) => match node.span().number() {
                None => false,
                Some(number) => number == *wanted,
            },
        }
    }

    /// Whether it is known that neither the node nor one below it is looked for.
    #[inline(always)]
    fn passes_over(&self, number: usize, node: &SyntaxNode) -> bool
        requires { number + nodes node.now < 2 ^ 64 - 1 }
        ensures { result ≡ true → (a : ℕ) → first_at (wanted self.now) number a (places node.now) ≡ None }
    {
        match self {
            Search::LeafFrom(least) => number + node.descendants() <= *least,
            Search::Spanned(_) | Search::Numbered(_) => false,
        }
    }

    /// The span number that a node has to have, if it is looked for by that. A detached node
    /// counts as 0.
    pub fn key(&self) -> Option<u64>
        ensures { IfSome result (λ m. IsKey (wanted self.now) m) }
    {
        match self {
            Search::Spanned(span) => Some(span.number_or_zero()),
            Search::Numbered(number) => Some(number.get()),
            _ => None,
        }
    }
}

/// Whether two spans are the same.
fn same_span(a: Span, b: Span) -> bool
    ensures { IsTrue result ↔ (a ≡ b) }
{
    a == b
}

/// Whether the node is a leaf whose range holds the byte.
pub fn holds_byte(byte: usize, offset: usize, node: &SyntaxNode) -> bool
    ensures { result ≡ holds_byte byte 0 offset node.now }
{
    is_childless(node) && offset <= byte && byte < offset.saturating_add(node.len())
}

/// The trees of a row from an index on.
pub fn from_index(row: &[SyntaxNode], index: usize) -> &[SyntaxNode]
    requires { index ≤ length row.now }
    ensures { result.now ≡ drop index row.now }
{
    &row[index..]
}

/// A tree of a row, and which of them it is, from 0 on.
#[derive(Clone, Copy)]
pub struct Kid<'a> {
    pub spot: Spot<'a>,
    pub index: usize,
}

/// How many trees of a row are passed over, and the number and the offset of what is after them.
#[derive(Clone, Copy)]
pub struct Passed {
    pub index: usize,
    pub number: usize,
    pub offset: usize,
}

impl Passed {
    /// Before the first child of a node, which has this number and offset.
    #[inline(always)]
    fn front(node: &SyntaxNode, number: usize, offset: usize) -> Passed
        requires { number < 2 ^ 64 - 1 }
        ensures index { result.index ≡ 0 }
        ensures number { result.number ≡ number + 1 }
        ensures offset { result.offset ≡ saturated (offset + length node.now.head.text) }
    {
        Passed {
            index: 0,
            number: number + 1,
            offset: offset.saturating_add(node.leaf_text().len()),
        }
    }

    /// The next tree, which has to be `node`, with its place.
    pub fn tree<'a>(&self, node: &'a SyntaxNode) -> Kid<'a>
        ensures node { result.spot.node.now ≡ node.now }
        ensures number { result.spot.number ≡ self.now.number }
        ensures offset { result.spot.offset ≡ self.now.offset }
        ensures index { result.index ≡ self.now.index }
    {
        Kid {
            spot: Spot {
                node,
                number: self.number,
                offset: self.offset,
            },
            index: self.index,
        }
    }

    /// After the next tree, which has to be `tree`.
    pub fn behind(&self, tree: &SyntaxNode) -> Passed
        requires index { self.now.index < 2 ^ 64 - 1 }
        requires counted { self.now.number + nodes tree.now < 2 ^ 64 - 1 }
        ensures index { result.index ≡ self.now.index + 1 }
        ensures number { result.number ≡ self.now.number + nodes tree.now }
        ensures offset { result.offset ≡ saturated (self.now.offset + length (text_of tree.now)) }
    {
        Passed {
            index: self.index + 1,
            number: self.number + tree.descendants(),
            offset: self.offset.saturating_add(tree.len()),
        }
    }

    /// Before the last of the trees that were passed over, which has to be `tree`.
    pub fn before(self, tree: &SyntaxNode) -> Passed
        requires index { 0 < self.index }
        requires counted { nodes tree.now ≤ self.number }
        requires measured { length (text_of tree.now) ≤ self.offset }
        ensures index { result.index ≡ self.index - 1 }
        ensures number { result.number ≡ self.number - nodes tree.now }
        ensures offset { result.offset ≡ self.offset - length (text_of tree.now) }
    {
        Passed {
            index: self.index - 1,
            number: self.number - tree.descendants(),
            offset: self.offset - tree.len(),
        }
    }
}

/// Passes over children at the front of a long row that end at or before a byte. It goes on from both ends of the
/// row by turns until one of them has reached the byte.
fn passed_by_turns(over: Spot, row: &[SyntaxNode], byte: usize) -> Passed
    requires counted { over.number + nodes over.node.now < 2 ^ 64 - 1 }
    requires row { forest row.now ≡ over.node.now.kids }
    ensures passed { IsPassed row.now (over.entry.number + 1) (saturated (over.entry.offset + length over.entry.node.now.head.text)) result.index result.number result.offset }
    ensures nothing { first_at (holds_byte byte) (over.entry.number + 1) (saturated (over.entry.offset + length over.entry.node.now.head.text)) (preorder (forest (take result.index row.now))) ≡ None }
{
    let mut front = Passed::front(over.node, over.number, over.offset);
    let start = front.offset;
    if row.len() <= LONG {
        return front;
    }
    let text = over.node.leaf_text().len();
    let len = over.node.len();
    if len == usize::MAX {
        return front;
    }
    let mut index = row.len();
    let mut end = over.number + over.node.descendants();
    let mut left = len - text;
    for tree in row {
        let next = front.behind(tree);
        if byte < next.offset {
            return front;
        }
        front = next;
        let begin = start.saturating_add(left);
        if begin <= byte {
            return Passed {
                index,
                number: end,
                offset: begin,
            };
        }
        index -= 1;
        let last = &row[index];
        end -= last.descendants();
        left -= last.len();
    }
    front
}

/// The child of a node that has the leaf whose range holds the byte, if there is one.
pub fn child_at<'a>(over: Spot<'a>, byte: usize) -> Option<Kid<'a>>
    requires { over.number + nodes over.node.now < 2 ^ 64 - 1 }
    ensures none { result ≡ None → first_at (holds_byte byte) over.entry.number over.entry.offset (places over.entry.node.now) ≡ if holds_byte byte 0 over.entry.offset over.entry.node.now then Some over.entry.number else None }
    ensures kid { IfSome result (λ kid. FindsChild byte over.entry kid.spot kid.index) }
{
    let row = over.node.children();
    let mut at = passed_by_turns(over, row, byte);
    while at.index < row.len() {
        let node = &row[at.index];
        let next = at.behind(node);
        if byte < next.offset {
            return Some(at.tree(node));
        }
        at = next;
    }
    None
}

/// The child of a node that has the node with the number `wanted` in it, itself counted. Lengths are asked
/// for only of the children before it.
pub fn child_over<'a>(over: Spot<'a>, wanted: usize) -> Kid<'a>
    requires counted { over.number + nodes over.node.now < 2 ^ 64 - 1 }
    requires from { over.number < wanted }
    requires to { wanted < over.number + nodes over.node.now }
    ensures child { IsChild over.entry.node.now over.entry.number result.spot.node.now result.spot.number result.index }
    ensures spot { Within over.entry.number over.entry.offset (places over.entry.node.now) result.spot.number result.spot.offset (places result.spot.node.now) }
    ensures from { result.spot.number ≤ wanted }
    ensures to { wanted < result.spot.number + nodes result.spot.node.now }
{
    let row = over.node.children();
    let mut at = Passed::front(over.node, over.number, over.offset);
    loop {
        let node = &row[at.index];
        if wanted < at.number + node.descendants() {
            return at.tree(node);
        }
        at = at.behind(node);
    }
}

/// The first node in preorder that is looked for, among a node, which has this number and
/// offset, and those below it.
pub fn first_in<'a>(
    node: &'a SyntaxNode,
    number: usize,
    offset: usize,
    search: &Search,
) -> Option<Spot<'a>>
    requires { number + nodes node.now < 2 ^ 64 - 1 }
    ensures first { option_map (λ spot. spot.number) result ≡ first_at (wanted search.now) number offset (places node.now) }
    ensures spot { IfSome result (λ spot. Within number offset (places node.now) spot.number spot.offset (places spot.node.now)) }
{
    if search.passes_over(number, node) {
        return None;
    }
    let top = Spot {
        node,
        number,
        offset,
    };
    top.first_from(search, number)
}

/// What a look at the children of a node gave.
#[derive(Clone, Copy)]
enum Look<'a> {
    /// The node that is looked for.
    Found(Spot<'a>),
    /// A heavy child, and nothing before it.
    Heavy(Spot<'a>),
    /// No node that is looked for.
    Nothing,
}

// A search has few frames of the stack, however deep the tree is, and takes no memory. A child is heavy if it has
// more than half of its parent's nodes: at most one is. A call goes into each other child, and so into half as many
// nodes at the most. A loop goes on with the heavy one. What is after heavy children has to wait until nothing
// was found in them, and is then gone through from below, level by level.
//
// All that is known meanwhile is the number from which on the search goes on: what is found has that or a larger one.
impl<'a> Spot<'a> {
    /// The number after this node and those below it.
    fn end(&self) -> usize
        requires { self.now.number + nodes self.now.node.now < 2 ^ 64 - 1 }
        ensures { result ≡ self.now.number + nodes self.now.node.now }
    {
        self.number + self.node.descendants()
    }

    /// The first node in preorder that is looked for, among this one and those below it, where none has a number
    /// below `least`.
    #[cycle(first_from)]
    fn first_from(&self, search: &Search, least: usize) -> Option<Spot<'a>>
        requires counted { self.now.number + nodes self.now.node.now < 2 ^ 64 - 1 }
        requires from { self.now.number ≤ least }
        requires least { FoundFrom (wanted search.now) least self.now }
        ensures { Finds (wanted search.now) self.now result }
    {
        if self.node.descendants() <= SMALL {
            return self.first_small(search);
        }
        let mut spot = *self;
        let mut from = least;
        let mut levels: usize = 0;
        loop {
            if search.wants(spot.number, spot.node) {
                return Some(spot);
            }
            from = from.max(spot.number + 1);
            let heavy = SMALL.max(spot.node.descendants() / 2);
            match spot.look(search, from, heavy) {
                Look::Found(found) => return Some(found),
                Look::Nothing => return self.first_behind(search, spot.end(), levels),
                Look::Heavy(kid) => {
                    spot = kid;
                    from = from.max(kid.number);
                    levels += 1;
                }
            }
        }
    }

    /// The first node that is looked for below this one, where there are about so many levels on the way to the
    /// number `least`.
    ///
    /// What is half of the levels down is searched by a call, and then what is after it: so each level is walked
    /// down to as often as the levels can be halved, and as many calls wait for each other.
    #[cycle(first_from)]
    fn first_behind(&self, search: &Search, least: usize, levels: usize) -> Option<Spot<'a>>
        requires counted { self.now.number + nodes self.now.node.now < 2 ^ 64 - 1 }
        requires from { self.now.number < least }
        requires least { FoundFrom (wanted search.now) least self.now }
        ensures { Finds (wanted search.now) self.now result }
    {
        let end = self.end();
        let mut from = least;
        let mut left = levels;
        while left > 1 && from < end {
            let half = left / 2;
            let below = self.towards(from, half);
            if below.number == self.number {
                break;
            }
            if let Some(found) = below.first_behind(search, from, left - half) {
                return Some(found);
            }
            from = below.end();
            left = half;
        }
        if end <= from {
            return None;
        }
        if let Look::Found(found) = self.look(search, from, usize::MAX) {
            return Some(found);
        }
        None
    }

    /// Looks for the first node that `search` wants below this one, where none has a number below `least`, up to a
    /// child that has more than `heavy` nodes.
    #[cycle(first_from)]
    fn look(&self, search: &Search, least: usize, heavy: usize) -> Look<'a>
        requires counted { self.now.number + nodes self.now.node.now < 2 ^ 64 - 1 }
        requires from { self.now.number < least }
        requires least { FoundFrom (wanted search.now) least self.now }
        ensures { Looks (wanted search.now) heavy self.now result }
    {
        let row = self.node.children();
        let mut at = Passed::front(self.node, self.number, self.offset);
        while at.index < row.len() {
            let node = &row[at.index];
            let kid = at.tree(node).spot;
            at = at.behind(node);
            if at.number <= least {
                continue;
            }
            if search.passes_over(kid.number, node) {
                continue;
            }
            if node.descendants() > heavy {
                return Look::Heavy(kid);
            }
            if let Some(found) = kid.first_from(search, least.max(kid.number)) {
                return Look::Found(found);
            }
        }
        Look::Nothing
    }

    /// The node so many steps down the way to the node with this number, or the last before that one.
    fn towards(&self, number: usize, steps: usize) -> Spot<'a>
        requires counted { self.now.number + nodes self.now.node.now < 2 ^ 64 - 1 }
        requires from { self.now.number < number }
        requires to { number < self.now.number + nodes self.now.node.now }
        ensures spot { IsIn self.now result }
        ensures from { result.number < number }
        ensures to { number < result.number + nodes result.node.now }
    {
        let mut spot = *self;
        for _ in 0..steps {
            let kid = child_over(spot, number).spot;
            if kid.number == number {
                return spot;
            }
            spot = kid;
        }
        spot
    }

    /// The first node in preorder that is looked for, among this one and those below it, in a small tree.
    fn first_small(&self, search: &Search) -> Option<Spot<'a>>
        requires { self.now.number + nodes self.now.node.now < 2 ^ 64 - 1 }
        ensures { Finds (wanted search.now) self.now result }
    {
        let mut spot = *self;
        if !spot.goes_to(search) {
            return None;
        }
        Some(spot)
    }

    /// Goes to the first node in preorder that is looked for, among this one and those below it, and says
    /// whether there is one; if not, it ends somewhere. For small trees: calls nest as the levels do, but none is
    /// made for a child that is passed over.
    fn goes_to(&mut self, search: &Search) -> bool
        requires { self.old.number + nodes self.old.node.now < 2 ^ 64 - 1 }
        ensures first { result ≡ true → first_at (wanted search.now) self.old.number self.old.offset (places self.old.node.now) ≡ Some self.new.number }
        ensures spot { result ≡ true → Within self.old.number self.old.offset (places self.old.node.now) self.new.number self.new.offset (places self.new.node.now) }
        ensures none { result ≡ false → first_at (wanted search.now) self.old.number self.old.offset (places self.old.node.now) ≡ None }
    {
        let Spot {
            node,
            number,
            offset,
        } = *self;
        if search.wants(number, node) {
            return true;
        }
        let row = node.children();
        let mut at = Passed::front(node, number, offset);
        while at.index < row.len() {
            let kid = &row[at.index];
            if !search.passes_over(at.number, kid) {
                *self = at.tree(kid).spot;
                if self.goes_to(search) {
                    return true;
                }
            }
            at = at.behind(kid);
        }
        false
    }
}
