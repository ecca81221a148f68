//! The tokens of a text, kept from one edit to the next.

ghost use Rattle.std.specs.Prelude.{◌≡◌, ℕ, ◌+◌, ◌≤◌, ◌<◌, ◌++◌, ◌%◌, ◌^◌, length, map, take, drop, vec_len, slice_get, Some, IfOk, OnOk, OnErr};
ghost use Rattle.typst_styles.specs.TokenList.{IsSettled, in_places};
ghost use Rattle.typst_styles.specs.Renewed as spec;
ghost use Rattle.typst_styles.specs.Tokens.{AreOrdered};

use crate::tokens::Token;
use std::alloc::AllocError;
use std::marker::Model;

/// Tokens of a text, in order. Those after the last edit stand where they were before it, and are moved when they
/// are read: so an edit changes one distance, and not each of them.
#[derive(Drop)]
pub struct TokenList {
    items: Vec<Token>,
    /// How many of them stand in their places.
    settled: usize,
    /// By how far the others have to be moved, in numbers that wrap round.
    distance: usize,
}

impl Model for TokenList {
    ghost use Rattle.std.specs.Prelude.{◌≤◌, List, length};
    ghost use Rattle.typst_styles.specs.TokenList.{in_places};
    ghost use Rattle.typst_styles.specs.declared.tokens.Token.{Token};

    ghost Value = { List Token };

    ghost view = { λ a. in_places a.settled a.distance a.items.items };

    ghost invariant = { λ a. a.settled ≤ length a.items.items };
}

impl TokenList {
    /// The tokens of a `Vec`, which is moved.
    pub fn new(tokens: Vec<Token>) -> TokenList
        ensures { result ≡ tokens.items }
    {
        let settled = tokens.len();
        TokenList {
            items: tokens,
            settled,
            distance: 0,
        }
    }

    /// How many tokens there are.
    pub fn len(&self) -> usize
        ensures { result ≡ length self.now }
    {
        self.items.len()
    }

    /// The token with an index.
    pub fn at(&self, index: usize) -> Token
        requires { index < length self.now }
        ensures { slice_get self.now index ≡ Some result }
    {
        token_at(self.items.as_slice(), self.settled, self.distance, index)
    }

    /// How many tokens begin before a byte. It finds where by halves: they stand in order.
    pub(crate) fn count_before(&self, byte: usize) -> usize
        ensures within { result ≤ length self.now }
        ensures parts { AreOrdered 0 self.now → spec.IsParted byte self.now result }
    {
        count_in_places(self.items.as_slice(), self.settled, self.distance, byte)
    }

    /// The list with other tokens in the place of those that begin from byte `start` to byte `end`, and those
    /// after these moved so that they are as far after `to`.
    pub(crate) fn replaced(
        self,
        start: usize,
        end: usize,
        made: Vec<Token>,
        to: usize,
    ) -> Result<TokenList, AllocError>
        ensures { IfOk result (λ tokens. AreOrdered 0 self → start ≤ end → tokens ≡ spec.replaced start end to made.items self) }
    {
        let TokenList {
            items,
            settled,
            distance,
        } = self;
        let mut items = items;
        let first = count_in_places(items.as_slice(), settled, distance, start);
        let after = count_in_places(items.as_slice(), settled, distance, end);
        let last = after.max(first);
        let behind = first + made.len();
        let distance = settle(items.as_mut_slice(), settled, distance, last);
        splice(&mut items, first, last, made)?;
        Ok(TokenList {
            items,
            settled: behind,
            distance: distance.wrapping_add(to.wrapping_sub(end)),
        })
    }
}

/// The token with an index of some of which so many stand in their places, and the others are moved by a distance.
fn token_at(tokens: &[Token], settled: usize, distance: usize, index: usize) -> Token
    requires { index < length tokens.now }
    ensures { slice_get (in_places settled distance tokens.now) index ≡ Some result }
{
    let token = tokens[index];
    if index < settled {
        token
    } else {
        wrapped(token, distance)
    }
}

/// How many of them begin before a byte, if they stand in order.
fn count_in_places(tokens: &[Token], settled: usize, distance: usize, byte: usize) -> usize
    requires { settled ≤ length tokens.now }
    ensures within { result ≤ length tokens.now }
    ensures parts { AreOrdered 0 (in_places settled distance tokens.now) → spec.IsParted byte (in_places settled distance tokens.now) result }
{
    let count = count_before(&tokens[..settled], byte);
    if count < settled {
        return count;
    }
    settled + count_moved(&tokens[settled..], distance, byte)
}

/// How many of some tokens begin before a byte, if they stand in order.
fn count_before(tokens: &[Token], byte: usize) -> usize
    ensures within { result ≤ length tokens.now }
    ensures parts { AreOrdered 0 tokens.now → spec.IsParted byte tokens.now result }
{
    tokens.partition_point(|token| token.start < byte)
}

/// How many of some tokens begin before a byte, if moved by a distance.
fn count_moved(tokens: &[Token], distance: usize, byte: usize) -> usize
    ensures within { result ≤ length tokens.now }
    ensures parts { AreOrdered 0 (map (spec.wrapped distance) tokens.now) → spec.IsParted byte (map (spec.wrapped distance) tokens.now) result }
{
    tokens.partition_point(|token| token.start.wrapping_add(distance) < byte)
}

/// Puts the tokens before an index in their places, and answers by how far those after it have to be moved then.
/// Where the last edit was after the index, all are put there.
fn settle(tokens: &mut [Token], settled: usize, distance: usize, index: usize) -> usize
    requires settled { settled ≤ length tokens.old }
    requires within { index ≤ length tokens.old }
    ensures len { length tokens.new ≡ length tokens.old }
    ensures settled { IsSettled settled distance index tokens.old tokens.new result }
{
    if index < settled {
        shift_all(&mut tokens[settled..], distance);
        0
    } else {
        shift_all(&mut tokens[settled..index], distance);
        distance
    }
}

/// Moves tokens by a distance.
fn shift_all(tokens: &mut [Token], distance: usize)
    ensures { tokens.new ≡ map (spec.wrapped distance) tokens.old }
{
    for token in tokens.iter_mut() {
        *token = wrapped(*token, distance);
    }
}

/// A token moved by a distance, which wraps round.
fn wrapped(token: Token, distance: usize) -> Token
    ensures { result ≡ spec.wrapped distance token }
{
    Token {
        start: token.start.wrapping_add(distance),
        len: token.len,
        style: token.style,
    }
}

/// Puts tokens in the place of those from one index to another, or changes nothing. As many are written over those,
/// and the tokens after them stay in their places.
fn splice(
    tokens: &mut Vec<Token>,
    first: usize,
    last: usize,
    made: Vec<Token>,
) -> Result<(), AllocError>
    requires order { first ≤ last }
    requires within { last ≤ vec_len tokens.old }
    ensures ok { OnOk result (tokens.new.items ≡ take first tokens.old.items ++ (made.items ++ drop last tokens.old.items)) }
    ensures err { OnErr result (tokens.new.items ≡ tokens.old.items) }
{
    if made.len() == last - first {
        tokens[first..last].copy_from_slice(made.as_slice());
        return Ok(());
    }
    let _ = tokens.splice(first..last, made)?;
    Ok(())
}
