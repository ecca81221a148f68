//! The walk back through a tree in preorder.

ghost use Rattle.std.specs.Prelude.{◌≡◌, ℕ, Bool, ◌+◌, ◌^◌, ◌<◌, ◌≤◌, ◌-◌, true, false, None, Some, IfSome};
ghost use Rattle.std.specs.Option.{option_map};
ghost use Rattle.typst_tree.specs.Tree.{Tree, nodes, places};
ghost use Rattle.typst_tree.specs.Walks.{last_leaf};
ghost use Rattle.typst_tree.specs.Follows.{in_order_of};
ghost use Rattle.typst_tree.specs.Found.{IsBelow, IsBelowChild, IsUnder, FindsLast, LooksBack};

use crate::SyntaxNode;
use crate::known::{Known, LONG};
use crate::node::SMALL;
use crate::order::before_index;
use crate::search::is_leaf;

/// A node that was found among another one and those below it: its number, by how many bytes it begins
/// after the other one, and what is known of the way to it if no row on the way to the other one is long.
#[derive(Clone, Copy)]
pub struct Found<'a> {
    pub node: &'a SyntaxNode,
    pub number: usize,
    pub begins: usize,
    pub known: Known,
}

impl<'a> Found<'a> {
    /// A node, found among itself and those below it.
    fn itself(node: &'a SyntaxNode, number: usize, in_order: bool) -> Found<'a>
        ensures node { result.node.now ≡ node.now }
        ensures number { result.number ≡ number }
        ensures below { IsBelow node.now number in_order result }
    {
        Found {
            node,
            number,
            begins: 0,
            known: Known::open(in_order),
        }
    }

    /// This node as it is found among the node `over`, which has this number, where it was found among the child
    /// of `over` with this index.
    fn below(self, over: &SyntaxNode, number: usize, index: usize) -> Found<'a>
        requires counted { number + nodes over.now < 2 ^ 64 - 1 }
        requires child { IsBelowChild over.now number index (in_order_of self.known) self }
        ensures node { result.node.now ≡ self.entry.node.now }
        ensures number { result.number ≡ self.entry.number }
        ensures below { IsBelow over.now number (in_order_of self.entry.known) result }
    {
        let row = over.children();
        let at = before_index(over, row, number, 0, index);
        let way = Known::open(self.known.in_order()).of_child(row.len() > LONG, index, 0, 0);
        Found {
            begins: at.offset.saturating_add(self.begins),
            known: way.then(self.known, self.number - at.number, self.begins),
            ..self
        }
    }

    /// A node that was found among this one, as it is found where this one was found.
    fn with(self, inner: Found<'a>) -> Found<'a>
        requires { IsUnder self inner }
        ensures number { result.number ≡ inner.entry.number }
        ensures node { result.node.now ≡ inner.entry.node.now }
        ensures below { (o : Tree) (n : ℕ) (in_order : Bool) → IsBelow o n in_order self.entry → IsBelow o n in_order result }
    {
        Found {
            begins: self.begins.saturating_add(inner.begins),
            known: self
                .known
                .then(inner.known, inner.number - self.number, inner.begins),
            ..inner
        }
    }

    /// The child of this node that the node with the number `wanted` is or is below, found among it. It goes
    /// through the children after that one.
    fn child_over(self, wanted: usize) -> Found<'a>
        requires counted { self.number + nodes self.node.now < 2 ^ 64 - 1 }
        requires from { self.number < wanted }
        requires to { wanted < self.number + nodes self.node.now }
        ensures below { IsUnder self.entry result }
        ensures from { result.number ≤ wanted }
        ensures to { wanted < result.number + nodes result.node.now }
    {
        let row = self.node.children();
        let mut end = self.number + self.node.descendants();
        let mut index = row.len();
        loop {
            index -= 1;
            let kid = &row[index];
            end -= kid.descendants();
            if end <= wanted {
                let itself = Found::itself(kid, end, self.known.in_order());
                return itself.below(self.node, self.number, index);
            }
        }
    }

    /// The node so many steps down the way from this node to the one with this number, or that one, found among
    /// this one.
    fn towards(self, number: usize, steps: usize) -> Found<'a>
        requires counted { self.number + nodes self.node.now < 2 ^ 64 - 1 }
        requires from { self.number ≤ number }
        requires to { number < self.number + nodes self.node.now }
        ensures below { IsUnder self.entry result }
        ensures from { result.number ≤ number }
        ensures to { number < result.number + nodes result.node.now }
    {
        let mut way = Found::itself(self.node, self.number, self.known.in_order());
        for _ in 0..steps {
            if way.number == number {
                return way;
            }
            way = way.with(way.child_over(number));
        }
        way
    }

    /// The last leaf with a number below `before` that is neither trivia nor an error, among this node and those
    /// below it.
    #[cycle(last_leaf)]
    fn last_leaf(self, before: usize) -> Option<Found<'a>>
        requires counted { self.number + nodes self.node.now < 2 ^ 64 - 1 }
        requires from { self.number < before }
        ensures { FindsLast self.entry before result }
    {
        let end = self.number + self.node.descendants();
        if end - self.number <= SMALL {
            return self.last_small(before);
        }
        let mut way = Found::itself(self.node, self.number, self.known.in_order());
        let mut until = before.min(end);
        let mut levels: usize = 0;
        loop {
            let heavy = SMALL.max(way.node.descendants() / 2);
            match way.look_back(until, heavy) {
                Seen::Leaf(found) => return Some(way.with(found)),
                Seen::Nothing => return self.last_before(way.number, levels),
                Seen::Heavy(kid) => {
                    until = until.min(kid.number + kid.node.descendants());
                    way = way.with(kid);
                    levels += 1;
                }
            }
        }
    }

    /// The last leaf as `last_leaf` finds it, where there are about so many levels on the way to the node before
    /// that number.
    ///
    /// What is half of the levels down is searched by a call, and then what is before it.
    #[cycle(last_leaf)]
    fn last_before(self, before: usize, levels: usize) -> Option<Found<'a>>
        requires counted { self.number + nodes self.node.now < 2 ^ 64 - 1 }
        requires from { self.number ≤ before }
        requires to { before ≤ self.number + nodes self.node.now }
        ensures { FindsLast self.entry before result }
    {
        let mut until = before;
        let mut left = levels;
        while left > 1 && until > self.number + 1 {
            let half = left / 2;
            let below = self.towards(until - 1, half);
            if below.number == self.number {
                break;
            }
            if let Some(found) = below.last_before(until, left - half) {
                return Some(below.with(found));
            }
            until = below.number;
            left = half;
        }
        if until <= self.number {
            return None;
        }
        if let Seen::Leaf(found) = self.look_back(until, usize::MAX) {
            return Some(found);
        }
        None
    }

    /// Looks for the last leaf with a number below `before` among this node and those below it, back to a child
    /// that has more than `heavy` nodes.
    #[cycle(last_leaf)]
    fn look_back(self, before: usize, heavy: usize) -> Seen<'a>
        requires counted { self.number + nodes self.node.now < 2 ^ 64 - 1 }
        requires from { self.number < before }
        ensures { LooksBack before heavy self.entry result }
    {
        let in_order = self.known.in_order();
        let row = self.node.children();
        let mut end = self.number + self.node.descendants();
        let mut index = row.len();
        while index > 0 {
            index -= 1;
            let node = &row[index];
            end -= node.descendants();
            if before <= end {
                continue;
            }
            let kid = Found::itself(node, end, in_order);
            if node.descendants() > heavy {
                return Seen::Heavy(kid.below(self.node, self.number, index));
            }
            if let Some(found) = kid.last_leaf(before) {
                return Seen::Leaf(found.below(self.node, self.number, index));
            }
        }
        if is_leaf(self.node) {
            return Seen::Leaf(Found::itself(self.node, self.number, in_order));
        }
        Seen::Nothing
    }

    /// The last leaf as `last_leaf` finds it, in a small tree.
    fn last_small(self, before: usize) -> Option<Found<'a>>
        requires { self.number + nodes self.node.now < 2 ^ 64 - 1 }
        ensures { FindsLast self.entry before result }
    {
        let in_order = self.known.in_order();
        let mut leaf = self;
        if !leaf.goes_back(before, in_order) {
            return None;
        }
        Some(leaf)
    }

    /// Goes back to the last leaf with a number below `before` that is neither trivia nor an error, among this
    /// node and those below it, and says whether there is one; if not, it ends somewhere. For small trees: calls
    /// nest as the levels do. Lengths are asked for only where one was found.
    fn goes_back(&mut self, before: usize, in_order: bool) -> bool
        requires { self.old.number + nodes self.old.node.now < 2 ^ 64 - 1 }
        ensures found { result ≡ true → last_leaf before self.old.number (places self.old.node.now) ≡ Some self.new.number }
        ensures below { result ≡ true → IsBelow self.old.node.now self.old.number in_order self.new }
        ensures none { result ≡ false → last_leaf before self.old.number (places self.old.node.now) ≡ None }
    {
        let Found { node, number, .. } = *self;
        if before <= number {
            return false;
        }
        let row = node.children();
        let mut end = number + node.descendants();
        let mut index = row.len();
        while index > 0 {
            index -= 1;
            let kid = &row[index];
            end -= kid.descendants();
            if before <= end {
                continue;
            }
            *self = Found::itself(kid, end, in_order);
            if self.goes_back(before, in_order) {
                *self = self.below(node, number, index);
                return true;
            }
        }
        *self = Found::itself(node, number, in_order);
        is_leaf(node)
    }
}

/// What a look at the children of a node from the last one on gave.
#[derive(Clone, Copy)]
enum Seen<'a> {
    /// The leaf that is looked for.
    Leaf(Found<'a>),
    /// A heavy child, and nothing after it.
    Heavy(Found<'a>),
    /// No leaf that is looked for.
    Nothing,
}

/// The last leaf with a number below `before` that is neither trivia nor an error, among a node, which has
/// this number, and those below it. The tree's numbers may be known to be in order. Lengths are asked for only
/// on the way to one that was found, and on the way to heavy children.
pub fn last_leaf_in<'a>(
    node: &'a SyntaxNode,
    number: usize,
    before: usize,
    in_order: bool,
) -> Option<Found<'a>>
    requires { number + nodes node.now < 2 ^ 64 - 1 }
    ensures number { option_map (λ leaf. leaf.number) result ≡ last_leaf before number (places node.now) }
    ensures below { IfSome result (λ leaf. IsBelow node.now number in_order leaf) }
{
    if before <= number {
        return None;
    }
    Found::itself(node, number, in_order).last_leaf(before)
}
