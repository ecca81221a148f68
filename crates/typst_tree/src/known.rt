//! What a linked node knows of the way to it.

ghost use Rattle.std.specs.Prelude.{◌≡◌, ◌+◌, ◌^◌, ◌<◌};
ghost use Rattle.typst_tree.specs.Follows.{Follows, Joins, reach_of, index_of, in_order_of, bit};
ghost use Rattle.typst_tree.specs.declared.known.Reach.TheVariants as reach;

/// A row of more children than this is long. A linked node keeps its place in the first long row on its
/// way, and a search for a byte passes over a long row from both ends.
pub const LONG: usize = 128;

/// From this on an index doesn't fit beside the flags.
const MOST: u32 = 1 << 29;

/// How much is known of the way from a tree's root to a node.
#[derive(Clone, Copy)]
pub enum Reach {
    /// No row on the way is long.
    Open,
    /// The place in the first long row on the way is known.
    Placed,
    /// Nothing of the way is known.
    Lost,
}

/// What is known of the way to a node: the index of the tree in the first long row on the way that the node is or
/// is below, and by how many numbers and bytes the node is after that tree. If one of them is too large, nothing
/// is known.
///
/// A linked node has 8 bytes for it. So `word` is the index times 8 and three bits: two for what `reach` says, and
/// the lowest for whether the tree's numbers are known to be in order. Only `open`, `lost`, `at_index` and the
/// readers below read and write it.
#[derive(Clone, Copy)]
pub struct Known {
    word: u32,
    pub below: u16,
    pub begins: u16,
}

/// The lowest bit of a word, 1 for yes.
#[inline(always)]
fn bit(in_order: bool) -> u32
    ensures { result ≡ bit in_order }
{
    if in_order { 1 } else { 0 }
}

impl Known {
    /// No row on the way is long.
    #[tactic(auto, unfolding(crate::specs::Follows::told))]
    #[inline(always)]
    pub fn open(in_order: bool) -> Known
        ensures reach { reach_of result ≡ reach.Open }
        ensures in_order { in_order_of result ≡ in_order }
    {
        Known {
            word: bit(in_order),
            below: 0,
            begins: 0,
        }
    }

    /// Nothing is known of the way.
    #[tactic(auto, unfolding(crate::specs::Follows::told))]
    #[inline(always)]
    fn lost(in_order: bool) -> Known
        ensures reach { reach_of result ≡ reach.Lost }
        ensures in_order { in_order_of result ≡ in_order }
    {
        Known {
            word: 4 + bit(in_order),
            below: 0,
            begins: 0,
        }
    }

    /// The tree of this index in the first long row itself.
    #[tactic(auto, unfolding(crate::specs::Follows::told))]
    #[inline(always)]
    fn at_index(in_order: bool, index: u32) -> Known
        requires { index < 2 ^ 29 }
        ensures reach { reach_of result ≡ reach.Placed }
        ensures in_order { in_order_of result ≡ in_order }
        ensures index { index_of result ≡ index }
        ensures below { result.below ≡ 0 }
        ensures begins { result.begins ≡ 0 }
    {
        Known {
            word: index * 8 + 2 + bit(in_order),
            below: 0,
            begins: 0,
        }
    }

    /// How much is known.
    #[tactic(auto, unfolding(crate::specs::Follows::told))]
    #[inline(always)]
    pub fn reach(self) -> Reach
        ensures { result ≡ reach_of self }
    {
        let flag = self.word / 2 % 4;
        if flag == 0 {
            Reach::Open
        } else if flag == 1 {
            Reach::Placed
        } else {
            Reach::Lost
        }
    }

    /// The index of the tree in the first long row.
    #[inline(always)]
    pub fn index(self) -> usize
        ensures { result ≡ index_of self }
    {
        (self.word / 8) as usize
    }

    /// Whether the tree's numbers are known to be in order.
    #[inline(always)]
    pub fn in_order(self) -> bool
        ensures { result ≡ in_order_of self }
    {
        self.word % 2 == 1
    }

    /// The tree of an index in the first long row.
    #[inline(always)]
    fn placed(in_order: bool, index: usize) -> Known
        ensures in_order { in_order_of result ≡ in_order }
        ensures not_open { reach_of result ≡ reach.Open → ⊥ }
        ensures index { reach_of result ≡ reach.Placed → index_of result ≡ index }
        ensures below { reach_of result ≡ reach.Placed → result.below ≡ 0 }
        ensures begins { reach_of result ≡ reach.Placed → result.begins ≡ 0 }
        ensures small { index < 2 ^ 29 → reach_of result ≡ reach.Placed }
    {
        match u32::try_from(index) {
            Ok(index) if index < MOST => Known::at_index(in_order, index),
            _ => Known::lost(in_order),
        }
    }

    /// What is known of the way to this node or one below it, so many numbers and bytes after it.
    #[inline(always)]
    pub fn behind(self, numbers: usize, bytes: usize) -> Known
        ensures in_order { in_order_of result ≡ in_order_of self }
        ensures opens { reach_of result ≡ reach.Open → (reach_of self ≡ reach.Open) × (numbers ≡ 0) }
        ensures placed { reach_of result ≡ reach.Placed → (reach_of self ≡ reach.Placed) × ((index_of result ≡ index_of self) × ((result.below ≡ self.below + numbers) × (result.begins ≡ self.begins + bytes))) }
    {
        match self.reach() {
            Reach::Placed => self.further(numbers, bytes),
            Reach::Open if numbers == 0 => self,
            Reach::Open | Reach::Lost => Known::lost(self.in_order()),
        }
    }

    /// The place of a node so many numbers and bytes further after its tree in the long row.
    #[inline(always)]
    fn further(self, numbers: usize, bytes: usize) -> Known
        requires { reach_of self ≡ reach.Placed }
        ensures in_order { in_order_of result ≡ in_order_of self }
        ensures not_open { reach_of result ≡ reach.Open → ⊥ }
        ensures index { reach_of result ≡ reach.Placed → index_of result ≡ index_of self }
        ensures below { reach_of result ≡ reach.Placed → result.below ≡ self.below + numbers }
        ensures begins { reach_of result ≡ reach.Placed → result.begins ≡ self.begins + bytes }
        ensures small { self.below + numbers < 2 ^ 16 → self.begins + bytes < 2 ^ 16 → reach_of result ≡ reach.Placed }
    {
        let below = usize::from(self.below).saturating_add(numbers);
        let begins = usize::from(self.begins).saturating_add(bytes);
        match (u16::try_from(below), u16::try_from(begins)) {
            (Ok(below), Ok(begins)) => Known {
                below,
                begins,
                ..self
            },
            _ => Known::lost(self.in_order()),
        }
    }

    /// What is known of a child of this node: the one with this index in its row, so many numbers and bytes
    /// after.
    #[inline(always)]
    pub fn of_child(self, is_long: bool, index: usize, numbers: usize, bytes: usize) -> Known
        ensures in_order { in_order_of result ≡ in_order_of self }
        ensures follows { Follows self is_long index numbers bytes result }
    {
        match self.reach() {
            Reach::Open if is_long => Known::placed(self.in_order(), index),
            Reach::Open | Reach::Lost => self,
            Reach::Placed => self.further(numbers, bytes),
        }
    }

    /// What is known of a node, so many numbers and bytes after this one, where `way` is known of the way from
    /// here on.
    pub fn then(self, way: Known, numbers: usize, bytes: usize) -> Known
        ensures in_order { in_order_of way ≡ in_order_of self → in_order_of result ≡ in_order_of self }
        ensures joins { Joins self way numbers bytes result }
    {
        match self.reach() {
            Reach::Open => way,
            Reach::Placed | Reach::Lost => self.behind(numbers, bytes),
        }
    }
}
