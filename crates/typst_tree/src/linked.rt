//! Nodes that know what is around them: parents, siblings and leaves.

ghost use Rattle.std.specs.Prelude.{◌≡◌, ◌+◌, ◌^◌, ◌<◌, ◌-◌, nat_lt, true, drop, length, take};
ghost use Rattle.typst_tree.specs.Tree.{nodes, forest, places, preorder, trees, count};
ghost use Rattle.typst_tree.specs.Order.{AreInOrder, numbers_of};
ghost use Rattle.typst_tree.specs.Follows.{in_order_of};
ghost use Rattle.typst_tree.specs.Rows.{Holds, long};
ghost use Rattle.typst_tree.specs.Walks.{Stands};

use crate::SyntaxNode;
use crate::back::{Found, last_leaf_in};
use crate::boundary::Boundary;
use crate::known::{Known, LONG, Reach};
use crate::order::find_in;
use crate::search::{Kid, Passed, Search, Spot, child_at, child_over, from_index, holds_byte};
use std::ops::Range;
use typst_kinds::{Span, SpanNumber, SyntaxKind};

/// A node of a tree, with the way to its parent, its siblings and the leaves next to it.
///
/// It holds the tree's root, the node, the node's number in the root's preorder, its offset, whether
/// the tree's numbers are known to be in order, and its place in the first long row on the way from the
/// root, if that is known: 40 bytes, `Copy`, and no memory is taken. A row of more than 128 children is
/// long. What reads the node itself takes a constant time. A step upwards or sideways walks down from
/// the root, a step downwards from the node; each says what it goes through. To go through a
/// node means a constant time, and what a step says it passes over is never looked into.
///
/// A step upwards or sideways from a node whose place in the first long row is known doesn't go through
/// that row. The place is known of what `children` and `leaf_at` give, from the root or from within the row,
/// and of what a step within the row leads to. It isn't known of what `find`, `find_number` or
/// `leftmost_leaf` found from above the row, nor of what `next_leaf` led to from outside of it, nor of a node
/// that is by 2^16 numbers or bytes or more after its tree in the row, nor where that tree has an index of
/// 2^29 or more: then a step goes through the row.
#[derive(Clone, Copy)]
pub struct LinkedNode<'a> {
    root: &'a SyntaxNode,
    node: &'a SyntaxNode,
    number: usize,
    offset: usize,
    known: Known,
    ghost counted: { nodes root.now < 2 ^ 64 - 1 },
    ghost stands: { Stands (places root.now) number offset (places node.now) },
    ghost ordered: { in_order_of known ≡ true → AreInOrder (numbers_of root.now) },
    ghost holds: { Holds root.now number offset (nodes node.now) known },
}

/// The children of a node that are still to come, each as a linked node.
#[derive(Drop)]
pub struct LinkedChildren<'a> {
    root: &'a SyntaxNode,
    rest: &'a [SyntaxNode],
    number: usize,
    offset: usize,
    index: usize,
    parent: Parent<'a>,
    ghost counted: { nodes root.now < 2 ^ 64 - 1 },
    ghost stands: { Stands (places root.now) number offset (preorder (forest rest.now)) },
    ghost node: { Stands (places root.now) parent.number parent.offset (places parent.node.now) },
    ghost row: { rest.now ≡ drop index (trees parent.node.now.kids) },
    ghost before: { number ≡ parent.number + 1 + count (forest (take index (trees parent.node.now.kids))) },
    ghost ordered: { in_order_of parent.known ≡ true → AreInOrder (numbers_of root.now) },
    ghost holds: { Holds root.now parent.number parent.offset (nodes parent.node.now) parent.known },
}

/// What the children of a node need to know of it.
#[derive(Clone, Copy)]
struct Parent<'a> {
    node: &'a SyntaxNode,
    number: usize,
    offset: usize,
    known: Known,
    is_long: bool,
    ghost many: { is_long ≡ nat_lt long (length (trees node.now.kids)) },
}

/// The parent of a node, and which of its children the node is, from 0 on.
#[derive(Clone, Copy)]
struct Above<'a> {
    parent: LinkedNode<'a>,
    index: usize,
}

/// The tree of the first long row on the way to a node that the node is or is below, and that row's owner.
#[derive(Clone, Copy)]
struct Branch<'a> {
    above: Above<'a>,
    tree: LinkedNode<'a>,
}

impl<'a> LinkedNode<'a> {
    ghost use Rattle.std.specs.Prelude.{◌≡◌, ◌+◌, ◌^◌, ◌<◌, ◌≤◌, ◌-◌, find, drop, Some, MatchOption};
    ghost use Rattle.std.specs.Option.{option_map, option_or};
    ghost use Rattle.typst_tree.specs.Tree.{nodes, places};
    ghost use Rattle.typst_tree.specs.Order.{AreInOrder, numbers_of};
    ghost use Rattle.typst_kinds.specs.Kinds.{is_hash_expr};
    ghost use Rattle.typst_tree.specs.Branches.{IsAbove, IsBranch, EndsBy, leaf_after, leaf_until};
    ghost use Rattle.typst_tree.specs.Rows.{IsChild, IsFork};
    ghost use Rattle.typst_tree.specs.Found.{IsBelow};
    ghost use Rattle.typst_tree.specs.Walks.{Stands, Within};
    ghost use Rattle.typst_tree.specs.Wanted.{wanted};
    ghost use Rattle.typst_tree.specs.Steps.{at, node_of, kind_of, offset_of, end_of, first_below, parent, children, is_sibling_after, next_sibling, prev_leaf, next_leaf, leftmost_leaf, leaf_at, find_span, find_number, FindsOwn};
    ghost use Rattle.typst_tree.specs.Linked.{linked, left};
    ghost use Rattle.typst_tree.specs.Follows.{in_order_of};

    /// The root of a tree, with number and offset 0. Takes a constant time.
    pub fn new(root: &'a SyntaxNode) -> LinkedNode<'a>
        requires { nodes root.now < 2 ^ 64 - 1 }
        ensures { linked result ≡ at root.now 0 }
    {
        LinkedNode::at_root(root, false)
    }

    /// The root of a tree whose numbers are in order, for which `is_ordered` is the test. From it,
    /// and from the nodes that steps lead to, `find` and `find_number` go down a single way.
    pub fn ordered(root: &'a SyntaxNode) -> LinkedNode<'a>
        requires counted { nodes root.now < 2 ^ 64 - 1 }
        requires in_order { AreInOrder (numbers_of root.now) }
        ensures { linked result ≡ at root.now 0 }
    {
        LinkedNode::at_root(root, true)
    }

    /// The root of a tree, and whether its numbers are known to be in order.
    fn at_root(root: &'a SyntaxNode, in_order: bool) -> LinkedNode<'a>
        requires counted { nodes root.now < 2 ^ 64 - 1 }
        requires ordered { in_order ≡ true → AreInOrder (numbers_of root.now) }
        ensures { linked result ≡ at root.now 0 }
    {
        LinkedNode {
            root,
            node: root,
            number: 0,
            offset: 0,
            known: Known::open(in_order),
        }
    }

    /// The root of this node's tree.
    fn top(self) -> LinkedNode<'a>
        ensures { linked result ≡ at (linked self.entry).root 0 }
    {
        LinkedNode::at_root(self.root, self.known.in_order())
    }

    /// The node with its number and offset.
    fn spot(self) -> Spot<'a>
        ensures node { result.node.now ≡ self.entry.node.now }
        ensures number { result.number ≡ self.entry.number }
        ensures offset { result.offset ≡ self.entry.offset }
    {
        Spot {
            node: self.node,
            number: self.number,
            offset: self.offset,
        }
    }

    /// This node, or one below it.
    fn below(self, spot: Spot<'a>) -> LinkedNode<'a>
        requires { Within self.number self.offset (places self.node.now) spot.number spot.offset (places spot.node.now) }
        ensures { linked result ≡ at (linked self.entry).root spot.entry.number }
    {
        LinkedNode {
            root: self.root,
            node: spot.node,
            number: spot.number,
            offset: spot.offset,
            known: self
                .known
                .behind(spot.number - self.number, spot.offset - self.offset),
        }
    }

    /// What was found among this node and those below it.
    fn with_found(self, found: Found<'a>) -> LinkedNode<'a>
        requires { IsBelow self.node.now self.number (in_order_of self.known) found }
        ensures { linked result ≡ at self.entry.root.now found.entry.number }
    {
        LinkedNode {
            root: self.root,
            node: found.node,
            number: found.number,
            offset: self.offset.saturating_add(found.begins),
            known: self
                .known
                .then(found.known, found.number - self.number, found.begins),
        }
    }

    /// What the children of this node need to know of it.
    #[inline(always)]
    fn as_parent(self) -> Parent<'a>
        ensures node { result.node.now ≡ self.entry.node.now }
        ensures number { result.number ≡ self.entry.number }
        ensures offset { result.offset ≡ self.entry.offset }
        ensures known { result.known ≡ self.entry.known }
    {
        Parent {
            node: self.node,
            number: self.number,
            offset: self.offset,
            known: self.known,
            is_long: self.node.children().len() > LONG,
        }
    }

    /// A child of this node.
    fn child(self, kid: Kid<'a>) -> LinkedNode<'a>
        requires stands { Stands (places self.root.now) kid.spot.number kid.spot.offset (places kid.spot.node.now) }
        requires child { IsChild self.node.now self.number kid.spot.node.now kid.spot.number kid.index }
        ensures root { result.root.now ≡ self.entry.root.now }
        ensures number { result.number ≡ kid.entry.spot.number }
        ensures offset { result.offset ≡ kid.entry.spot.offset }
        ensures node { result.node.now ≡ kid.entry.spot.node.now }
    {
        LinkedNode {
            root: self.root,
            node: kid.spot.node,
            number: kid.spot.number,
            offset: kid.spot.offset,
            known: self
                .as_parent()
                .known_of(kid.index, kid.spot.number, kid.spot.offset),
        }
    }

    /// The number after this node and those below it.
    fn end(self) -> usize
        ensures { result ≡ self.entry.number + nodes self.entry.node.now }
    {
        self.number + self.node.descendants()
    }

    /// The child that the node with this number is or is below.
    fn child_over(self, number: usize) -> Kid<'a>
        requires from { self.number < number }
        requires to { number < self.number + nodes self.node.now }
        ensures child { IsChild self.entry.node.now self.entry.number result.spot.node.now result.spot.number result.index }
        ensures stands { Stands (places self.entry.root.now) result.spot.number result.spot.offset (places result.spot.node.now) }
        ensures from { result.spot.number ≤ number }
        ensures to { number < result.spot.number + nodes result.spot.node.now }
    {
        child_over(self.spot(), number)
    }

    /// The first node on the way from the root to this one that has a long row, if it ends after the number
    /// `least`: the way is gone no further than that.
    fn fork(self, least: usize) -> Option<LinkedNode<'a>>
        ensures { MatchOption result (EndsBy self.entry.root.now self.entry.number least) (λ o. (o.root.now ≡ self.entry.root.now) × IsFork self.entry.root.now self.entry.number o.node.now o.number) }
    {
        if let Reach::Open = self.known.reach() {
            return None;
        }
        let mut over = self.top();
        while over.number < self.number {
            if over.end() <= least {
                return None;
            }
            if over.node.children().len() > LONG {
                return Some(over);
            }
            over = over.child(over.child_over(self.number));
        }
        None
    }

    /// The tree that this node is or is below, in the first long row on the way to it.
    fn tree_of(self, owner: LinkedNode<'a>) -> Kid<'a>
        requires root { owner.root.now ≡ self.root.now }
        requires fork { IsFork self.root.now self.number owner.node.now owner.number }
        ensures child { IsChild owner.entry.node.now owner.entry.number result.spot.node.now result.spot.number result.index }
        ensures stands { Stands (places self.entry.root.now) result.spot.number result.spot.offset (places result.spot.node.now) }
        ensures from { result.spot.number ≤ self.entry.number }
        ensures to { self.entry.number < result.spot.number + nodes result.spot.node.now }
    {
        // An offset that stands for all that are too large says nothing of the tree's.
        if let Reach::Placed = self.known.reach()
            && self.offset < usize::MAX
        {
            let index = self.known.index();
            let spot = Spot {
                node: &owner.node.children()[index],
                number: self.number - usize::from(self.known.below),
                offset: self.offset - usize::from(self.known.begins),
            };
            return Kid { spot, index };
        }
        owner.child_over(self.number)
    }

    /// The tree of the first long row on the way to this node, where there is one whose owner ends after the
    /// number `least`.
    fn branch(self, least: usize) -> Option<Branch<'a>>
        ensures { MatchOption result (EndsBy self.entry.root.now self.entry.number least) (λ branch. IsBranch self.entry branch) }
    {
        let owner = self.fork(least)?;
        let kid = self.tree_of(owner);
        Some(Branch {
            above: Above {
                parent: owner,
                index: kid.index,
            },
            tree: owner.child(kid),
        })
    }

    /// The parent, where this node is below another one.
    fn above_in(self, over: LinkedNode<'a>) -> Above<'a>
        requires root { over.root.now ≡ self.root.now }
        requires from { over.number < self.number }
        requires to { self.number < over.number + nodes over.node.now }
        ensures { IsAbove self.entry result }
    {
        let mut parent = over;
        loop {
            let kid = parent.child_over(self.number);
            if kid.spot.number == self.number {
                return Above {
                    parent,
                    index: kid.index,
                };
            }
            parent = parent.child(kid);
        }
    }

    /// The parent, with this node's index; none at the root.
    fn above(self) -> Option<Above<'a>>
        ensures { MatchOption result (self.entry.number ≡ 0) (λ above. IsAbove self.entry above) }
    {
        if self.number == 0 {
            return None;
        }
        if let Reach::Placed = self.known.reach()
            && let Some(branch) = self.branch(self.number)
        {
            if branch.tree.number == self.number {
                return Some(branch.above);
            }
            return Some(self.above_in(branch.tree));
        }
        Some(self.above_in(self.top()))
    }

    /// The node itself.
    pub fn get(self) -> &'a SyntaxNode
        ensures { result.now ≡ node_of (linked self.entry) }
    {
        self.node
    }

    /// The node's kind.
    pub fn kind(self) -> SyntaxKind
        ensures { result ≡ kind_of (linked self.entry) }
    {
        self.get().kind()
    }

    /// The text of a leaf, empty for an inner node.
    pub fn leaf_text(self) -> &'a str
        ensures { result.now ≡ (node_of (linked self.entry)).head.text }
    {
        self.get().leaf_text()
    }

    /// Where the node begins in the tree's text, in bytes.
    pub fn offset(self) -> usize
        ensures { result ≡ offset_of (linked self.entry) }
    {
        self.offset
    }

    /// Where the node begins and ends in the tree's text, in bytes.
    pub fn range(self) -> Range<usize>
        ensures start { result.start ≡ offset_of (linked self.entry) }
        ensures end { result.end ≡ end_of (linked self.entry) }
    {
        let start = self.offset();
        start..start.saturating_add(self.node.len())
    }

    /// Whether an expression of the node's kind may follow a hash.
    pub fn hash_expr(self) -> bool
        ensures { result ≡ is_hash_expr (kind_of (linked self.entry)) }
    {
        self.kind().is_hash_expr()
    }

    /// The first node that is looked for, among this one and those below it.
    fn first(self, search: &Search) -> Option<LinkedNode<'a>>
        ensures { option_map linked result ≡ first_below (wanted search.now) (linked self.entry) }
    {
        let in_order = self.known.in_order();
        let spot = find_in(self.node, self.number, self.offset, search, in_order)?;
        Some(self.below(spot))
    }

    /// The parent, or `None` at the root. Goes through the children of each node above this one.
    pub fn parent(self) -> Option<LinkedNode<'a>>
        ensures { option_map linked result ≡ parent (linked self.entry) }
    {
        match self.above() {
            None => None,
            Some(above) => Some(above.parent),
        }
    }

    /// The parent's kind, or `None` at the root. Costs what `parent` costs.
    pub fn parent_kind(self) -> Option<SyntaxKind>
        ensures { result ≡ option_map kind_of (parent (linked self.entry)) }
    {
        let parent = self.parent()?;
        Some(parent.kind())
    }

    /// The first leaf that is neither trivia nor an error after this node and all below it.
    ///
    /// Goes through the children of each node above this one, and the nodes from the end of this
    /// one to the leaf. What ends before that is passed over.
    pub fn next_leaf(self) -> Option<LinkedNode<'a>>
        ensures { option_map linked result ≡ next_leaf (linked self.entry) }
    {
        let end = self.end();
        let Some(branch) = self.branch(end) else {
            return self.top().first(&Search::LeafFrom(end));
        };
        if let Some(leaf) = branch.tree.first(&Search::LeafFrom(end)) {
            return Some(leaf);
        }
        if let Some(leaf) = branch.tree.leaf_behind(branch.above) {
            return Some(leaf);
        }
        self.top()
            .first(&Search::LeafFrom(branch.above.parent.end()))
    }

    /// The first leaf that is neither trivia nor an error after this node, in its parent.
    fn leaf_behind(self, above: Above<'a>) -> Option<LinkedNode<'a>>
        requires { IsAbove self above }
        ensures { leaf_after self.entry.root.now (self.entry.number + nodes self.entry.node.now) ≡ option_or (option_map linked result) (leaf_after self.entry.root.now (above.entry.parent.number + nodes above.entry.parent.node.now)) }
    {
        let parent = above.parent;
        let row = parent.node.children();
        let mut at = self.passed(above).behind(self.node);
        while at.index < row.len() {
            let node = &row[at.index];
            let kid = parent.child(at.tree(node));
            if let Some(leaf) = kid.first(&Search::LeafFrom(at.number)) {
                return Some(leaf);
            }
            at = at.behind(node);
        }
        None
    }

    /// The siblings before this node, passed over.
    fn passed(self, above: Above<'a>) -> Passed
        requires { IsAbove self above }
        ensures index { result.index ≡ above.entry.index }
        ensures number { result.number ≡ self.entry.number }
        ensures offset { result.offset ≡ self.entry.offset }
    {
        Passed {
            index: above.index,
            number: self.number,
            offset: self.offset,
        }
    }

    /// The last leaf that is neither trivia nor an error before this node.
    ///
    /// Goes through the children of each node above this one and above the leaf, and the nodes
    /// from the leaf to this one.
    pub fn prev_leaf(self) -> Option<LinkedNode<'a>>
        ensures { option_map linked result ≡ prev_leaf (linked self.entry) }
    {
        let Some(branch) = self.branch(self.number) else {
            return self.top().last_leaf(self.number);
        };
        if let Some(leaf) = branch.tree.last_leaf(self.number) {
            return Some(leaf);
        }
        if let Some(leaf) = branch.tree.leaf_before(branch.above) {
            return Some(leaf);
        }
        self.top().last_leaf(branch.above.parent.number)
    }

    /// The last leaf that is neither trivia nor an error and has a number below `before`, among this node and
    /// those below it.
    fn last_leaf(self, before: usize) -> Option<LinkedNode<'a>>
        requires from { self.number ≤ before }
        requires to { before ≤ self.number + nodes self.node.now }
        ensures { leaf_until self.entry.root.now before ≡ option_or (option_map linked result) (leaf_until self.entry.root.now self.entry.number) }
    {
        let leaf = last_leaf_in(self.node, self.number, before, self.known.in_order())?;
        Some(self.with_found(leaf))
    }

    /// The last leaf that is neither trivia nor an error before this node, in its parent.
    fn leaf_before(self, above: Above<'a>) -> Option<LinkedNode<'a>>
        requires { IsAbove self above }
        ensures { leaf_until self.entry.root.now self.entry.number ≡ option_or (option_map linked result) (leaf_until self.entry.root.now above.entry.parent.number) }
    {
        let parent = above.parent;
        if self.offset == usize::MAX {
            return parent.last_leaf(self.number);
        }
        let row = parent.node.children();
        let mut at = self.passed(above);
        while at.index > 0 {
            let node = &row[at.index - 1];
            let before = at.number;
            at = at.before(node);
            let kid = parent.child(at.tree(node));
            if let Some(leaf) = kid.last_leaf(before) {
                return Some(leaf);
            }
        }
        None
    }

    /// The first leaf that is neither trivia nor an error, among this node and those below it.
    /// Goes through the nodes from this one to the leaf.
    pub fn leftmost_leaf(self) -> Option<LinkedNode<'a>>
        ensures { option_map linked result ≡ leftmost_leaf (linked self.entry) }
    {
        self.first(&Search::LeafFrom(0))
    }

    /// The leaf whose range holds this byte of the tree's text, among this node and those below
    /// it. Goes through the children of this node and of each on the way to the leaf.
    pub fn leaf_at(self, byte: usize) -> Option<LinkedNode<'a>>
        ensures { option_map linked result ≡ leaf_at byte (linked self.entry) }
    {
        if byte < self.offset || self.offset.saturating_add(self.node.len()) <= byte {
            return None;
        }
        let mut over = self;
        while let Some(kid) = child_at(over.spot(), byte) {
            over = over.child(kid);
        }
        if holds_byte(byte, over.offset, over.node) {
            Some(over)
        } else {
            None
        }
    }

    /// The first node with this span, among this node and those below it.
    ///
    /// From `ordered` it goes through the children of this node and of each on the way to the found one, and
    /// passes over what ends before the span's number; else through all nodes before the found one, since nothing
    /// says what numbers are below a node.
    pub fn find(self, span: Span) -> Option<LinkedNode<'a>>
        ensures first { option_map linked result ≡ find_span span (linked self.entry) }
        ensures own { FindsOwn span (linked self.entry) (option_map linked result) }
    {
        self.first(&Search::Spanned(span))
    }

    /// The first node whose span has this number, among this node and those below it. Costs what `find` costs.
    pub fn find_number(self, number: SpanNumber) -> Option<LinkedNode<'a>>
        ensures { option_map linked result ≡ find_number number (linked self.entry) }
    {
        self.first(&Search::Numbered(number))
    }

    /// The children, in order. The call and each child take a constant time.
    #[inline(always)]
    pub fn children(self) -> LinkedChildren<'a>
        ensures { left result ≡ children (linked self.entry) }
    {
        LinkedChildren {
            root: self.root,
            rest: self.node.children(),
            number: self.number + 1,
            offset: self.offset.saturating_add(self.node.leaf_text().len()),
            index: 0,
            parent: self.as_parent(),
        }
    }

    /// Whether a child of the same parent comes after this one and isn't trivia.
    fn is_before(self, child: LinkedNode<'a>) -> bool
        ensures { result ≡ is_sibling_after (linked self.entry) (linked child.entry) }
    {
        self.number < child.number && !child.kind().is_trivia()
    }

    /// The next sibling that isn't trivia. Goes through the children of each node above this one.
    pub fn next_sibling(self) -> Option<LinkedNode<'a>>
        ensures { option_map linked result ≡ next_sibling (linked self.entry) }
    {
        let above = self.above()?;
        self.next_among(self.row(above))
    }

    /// The first of some siblings that comes after this node and isn't trivia.
    fn next_among(self, row: LinkedChildren<'a>) -> Option<LinkedNode<'a>>
        ensures { option_map linked result ≡ find (is_sibling_after (linked self.entry)) (left row.entry) }
    {
        for child in row {
            if self.is_before(child) {
                return Some(child);
            }
        }
        None
    }

    /// The node and its siblings after it.
    fn row(self, above: Above<'a>) -> LinkedChildren<'a>
        requires { IsAbove self above }
        ensures { left result ≡ drop above.entry.index (children (linked above.entry.parent)) }
    {
        LinkedChildren {
            root: self.root,
            rest: from_index(above.parent.node.children(), above.index),
            number: self.number,
            offset: self.offset,
            index: above.index,
            parent: above.parent.as_parent(),
        }
    }

    /// The kind of the next sibling that isn't trivia. Costs what `next_sibling` costs.
    pub fn next_sibling_kind(self) -> Option<SyntaxKind>
        ensures { result ≡ option_map kind_of (next_sibling (linked self.entry)) }
    {
        let sibling = self.next_sibling()?;
        Some(sibling.kind())
    }
}

impl<'a> Parent<'a> {
    ghost use Rattle.std.specs.Prelude.{◌≡◌, ◌-◌, ◌≤◌};
    ghost use Rattle.typst_tree.specs.Follows.{Follows, in_order_of};

    /// What is known of the way to the child of an index, where that has a number and an offset.
    #[inline(always)]
    fn known_of(&self, index: usize, number: usize, offset: usize) -> Known
        requires number { self.now.number ≤ number }
        requires offset { self.now.offset ≤ offset }
        ensures in_order { in_order_of result ≡ in_order_of self.now.known }
        ensures follows { Follows self.now.known self.now.is_long index (number - self.now.number) (offset - self.now.offset) result }
    {
        let numbers = number - self.number;
        let bytes = offset - self.offset;
        self.known.of_child(self.is_long, index, numbers, bytes)
    }
}

impl<'a> LinkedChildren<'a> {
    ghost use Rattle.std.specs.Prelude.{◌≡◌, ◌^◌, ◌<◌, ◌-◌, drop};
    ghost use Rattle.typst_tree.specs.Tree.{nodes};
    ghost use Rattle.typst_tree.specs.Boundaries.{IsBoundary};
    ghost use Rattle.typst_tree.specs.Steps.{at, children};
    ghost use Rattle.typst_tree.specs.Linked.{left};

    /// The children of a tree's root after a place between them. The call and each child take a constant time.
    #[inline]
    pub fn from_boundary(root: &'a SyntaxNode, boundary: Boundary) -> LinkedChildren<'a>
        requires counted { nodes root.now < 2 ^ 64 - 1 }
        requires boundary { IsBoundary root.now boundary }
        ensures { left result ≡ drop boundary.index (children (at root.now 0)) }
    {
        let top = LinkedNode::new(root);
        LinkedChildren {
            root,
            rest: from_index(root.children(), boundary.index),
            number: boundary.nodes + 1,
            offset: boundary.bytes,
            index: boundary.index,
            parent: top.as_parent(),
        }
    }
}

impl<'a> Iterator for LinkedChildren<'a> {
    ghost use Rattle.std.specs.Iterator.{YieldsFirstBy, item_count};
    ghost use Rattle.typst_tree.specs.Linked.{linked, left};

    type Item = LinkedNode<'a>;

    ghost next_gives = { YieldsFirstBy linked left };

    ghost remaining = { item_count left };

    #[inline(always)]
    fn next(&mut self) -> Option<LinkedNode<'a>> {
        let (node, rest) = self.rest.split_first()?;
        let child = LinkedNode {
            root: self.root,
            node,
            number: self.number,
            offset: self.offset,
            known: self.parent.known_of(self.index, self.number, self.offset),
        };
        *self = LinkedChildren {
            root: self.root,
            rest,
            number: self.number + node.descendants(),
            offset: self.offset.saturating_add(node.len()),
            index: self.index + 1,
            parent: self.parent,
        };
        Some(child)
    }
}
