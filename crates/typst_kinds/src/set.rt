//! Sets of kinds.

ghost use Rattle.std.specs.Prelude.{◌≡◌, ◌≢◌, ◌↔◌, ◌<◌, ◌||◌, true, false, IsTrue};
ghost use Rattle.std.specs.Cmp.{partial_equiv_from_equiv};
ghost use Rattle.std.specs.Cmp.Lexicographic.{nat_list_eq_equiv};
ghost use Rattle.std.proofs.lemmas.Cmp.{on_equiv};
ghost use Rattle.typst_kinds.specs.Kinds.{among};
ghost use Rattle.typst_kinds.specs.Members.{has, kind_words, place_of, same_kinds};
ghost use Rattle.typst_kinds.specs.Sets.{stmt, math_expr, unary_op, binary_op, pattern_leaf, code_expr, pattern, arg, array_or_dict_item, param, destructuring_item};
ghost use Rattle.typst_kinds.specs.declared.kind.SyntaxKind.{SyntaxKind};

use crate::SyntaxKind;

/// A set of kinds of nodes.
#[derive(Debug, Clone, Copy)]
pub struct SyntaxSet {
    words: [u64; 3],
}

/// The bits of a set's last word that stand for kinds. The bits after them stand for nothing.
const LAST_WORD: u64 = (1 << (SyntaxKind::DestructAssignment as u64 % 64 + 1)) - 1;

/// The set of the kinds that are listed.
macro_rules! syntax_set {
    ($($kind:ident),*) => {
        SyntaxSet {
            words: [
                0 $(| ((SyntaxKind::$kind as u64 / 64 == 0) as u64) << (SyntaxKind::$kind as u64 % 64))*,
                0 $(| ((SyntaxKind::$kind as u64 / 64 == 1) as u64) << (SyntaxKind::$kind as u64 % 64))*,
                0 $(| ((SyntaxKind::$kind as u64 / 64 == 2) as u64) << (SyntaxKind::$kind as u64 % 64))*,
            ],
        }
    };
}

/// The kinds of all sets that are listed.
macro_rules! joined {
    ($($set:expr),*) => {
        SyntaxSet {
            words: [
                0 $(| $set.words[0])*,
                0 $(| $set.words[1])*,
                0 $(| $set.words[2])*,
            ],
        }
    };
}

/// Kinds that begin a statement of code.
pub const STMT: SyntaxSet = syntax_set!(Let, Set, Show, Import, Include, Return);

/// Kinds that begin an expression of math.
pub const MATH_EXPR: SyntaxSet = syntax_set!(
    Hash,
    MathIdent,
    MathFieldAccess,
    LeftBrace,
    LeftParen,
    RightBrace,
    RightParen,
    Dot,
    Bang,
    Comma,
    Semicolon,
    MathText,
    Linebreak,
    MathAlignPoint,
    MathShorthand,
    MathPrimes,
    Escape,
    Str,
    Root
);

/// Kinds of unary operators.
pub const UNARY_OP: SyntaxSet = syntax_set!(Plus, Minus, Not);

/// Kinds of binary operators, except the word pair `not in`.
pub const BINARY_OP: SyntaxSet = syntax_set!(
    Plus, Minus, Star, Slash, And, Or, EqEq, ExclEq, Lt, LtEq, Gt, GtEq, Eq, In, PlusEq, HyphEq,
    StarEq, SlashEq
);

/// Kinds that begin a part of a pattern that isn't a pattern in parens.
pub const PATTERN_LEAF: SyntaxSet = syntax_set!(
    Ident,
    LeftBrace,
    LeftBracket,
    LeftParen,
    Dollar,
    Let,
    Set,
    Show,
    Context,
    If,
    While,
    For,
    Import,
    Include,
    Break,
    Continue,
    Return,
    Raw,
    None,
    Auto,
    Int,
    Float,
    Bool,
    Numeric,
    Str,
    Label
);

/// Kinds that begin an expression of code.
pub const CODE_EXPR: SyntaxSet = joined!(PATTERN_LEAF, UNARY_OP, syntax_set!(Underscore));

/// Kinds that begin a pattern.
pub const PATTERN: SyntaxSet = joined!(PATTERN_LEAF, syntax_set!(Underscore));

/// Kinds that begin an argument of a call.
pub const ARG: SyntaxSet = joined!(PATTERN_LEAF, UNARY_OP, syntax_set!(Underscore, Dots));

/// Kinds that begin an item of an array or a dictionary.
pub const ARRAY_OR_DICT_ITEM: SyntaxSet = joined!(
    PATTERN_LEAF,
    UNARY_OP,
    syntax_set!(Underscore, Dots)
);

/// Kinds that begin a parameter of a closure.
pub const PARAM: SyntaxSet = joined!(PATTERN_LEAF, syntax_set!(Underscore, Dots));

/// Kinds that begin an item of a destructuring pattern.
pub const DESTRUCTURING_ITEM: SyntaxSet = joined!(PATTERN_LEAF, syntax_set!(Underscore, Dots));

/// Which bit of a set stands for a kind.
const fn place(kind: SyntaxKind) -> usize
    ensures place { result ≡ place_of kind }
    ensures small { result < 192 }
{
    kind as usize
}

impl SyntaxSet {
    /// The empty set.
    pub const fn new() -> SyntaxSet
        ensures { (kind : SyntaxKind) → has result kind ≡ false }
    {
        SyntaxSet { words: [0; 3] }
    }

    /// This set with a kind added.
    pub const fn add(self, kind: SyntaxKind) -> SyntaxSet
        ensures added { has result kind ≡ true }
        ensures others { (other : SyntaxKind) → other ≢ kind → has result other ≡ has self other }
    {
        let place = place(kind);
        let mut words = self.words;
        words[place / 64] |= 1 << (place % 64);
        SyntaxSet { words }
    }

    /// This set without a kind.
    pub const fn remove(self, kind: SyntaxKind) -> SyntaxSet
        ensures removed { has result kind ≡ false }
        ensures others { (other : SyntaxKind) → other ≢ kind → has result other ≡ has self other }
    {
        let place = place(kind);
        let mut words = self.words;
        words[place / 64] &= !(1 << (place % 64));
        SyntaxSet { words }
    }

    /// The kinds that are in either set.
    pub const fn union(self, other: SyntaxSet) -> SyntaxSet
        ensures { (kind : SyntaxKind) → has result kind ≡ (has self kind || has other kind) }
    {
        let [first, second, third] = self.words;
        let [fourth, fifth, sixth] = other.words;
        SyntaxSet {
            words: [first | fourth, second | fifth, third | sixth],
        }
    }

    /// Whether the kind is in the set.
    pub const fn contains(&self, kind: SyntaxKind) -> bool
        ensures { result ≡ has self.now kind }
    {
        let place = place(kind);
        (self.words[place / 64] >> (place % 64)) & 1 == 1
    }
}

impl PartialEq for SyntaxSet {
    ghost eq = { same_kinds };

    ghost laws = { partial_equiv_from_equiv (on_equiv kind_words nat_list_eq_equiv) };

    /// Whether both sets have the same kinds.
    fn eq(&self, other: &SyntaxSet) -> bool
        ensures value { result ≡ same_kinds self.now other.now }
        ensures kinds { IsTrue result ↔ ((kind : SyntaxKind) → has self.now kind ≡ has other.now kind) }
    {
        let [first, second, third] = self.words;
        let [fourth, fifth, sixth] = other.words;
        first == fourth && second == fifth && third & LAST_WORD == sixth & LAST_WORD
    }
}

impl Eq for SyntaxSet {
    ghost laws = { on_equiv kind_words nat_list_eq_equiv };
}

/// What each named set holds.
///
/// For proofs: it does nothing when it runs.
pub fn named_sets()
    ensures stmt { (kind : SyntaxKind) → has STMT kind ≡ among stmt kind }
    ensures math_expr { (kind : SyntaxKind) → has MATH_EXPR kind ≡ among math_expr kind }
    ensures unary_op { (kind : SyntaxKind) → has UNARY_OP kind ≡ among unary_op kind }
    ensures binary_op { (kind : SyntaxKind) → has BINARY_OP kind ≡ among binary_op kind }
    ensures pattern_leaf { (kind : SyntaxKind) → has PATTERN_LEAF kind ≡ among pattern_leaf kind }
    ensures code_expr { (kind : SyntaxKind) → has CODE_EXPR kind ≡ among code_expr kind }
    ensures pattern { (kind : SyntaxKind) → has PATTERN kind ≡ among pattern kind }
    ensures arg { (kind : SyntaxKind) → has ARG kind ≡ among arg kind }
    ensures array_or_dict_item { (kind : SyntaxKind) → has ARRAY_OR_DICT_ITEM kind ≡ among array_or_dict_item kind }
    ensures param { (kind : SyntaxKind) → has PARAM kind ≡ among param kind }
    ensures destructuring_item { (kind : SyntaxKind) → has DESTRUCTURING_ITEM kind ≡ among destructuring_item kind }
{}
