//! Bytes that are looked at many at a time.
ghost use Rattle.std.specs.Prelude.{◌≡◌, ℕ, ◌+◌, ◌-◌, ◌*◌, ◌<◌, ◌≤◌, ◌||◌, length, nat_le, nat_lt, slice_range, take};
ghost use Rattle.std.specs.List.{sum_by};
ghost use Rattle.std.specs.Str.{IsCharBoundary};
ghost use Rattle.typst_lines.specs.Blocks.{BeginAlike, EndAlike, IsOfFirst, IsPlainFront, chars_begun, first_set, units_begun};

use std::simd::prelude::*;

/// How many bytes are compared at a time.
const BLOCK: usize = 64;

/// How many bytes make a load: they are tested, or measured, at a time.
pub(crate) const LANES: usize = 16;

/// How many bytes two slices begin with alike, in whole blocks, which `==` compares many bytes at a time.
pub(crate) fn alike_at_front(first: &[u8], second: &[u8]) -> usize
    ensures { BeginAlike first.now second.now 64 result }
{
    let shorter = first.len().min(second.len());
    let mut at = 0;
    while shorter - at >= BLOCK && first[at..at + BLOCK] == second[at..at + BLOCK] {
        at += BLOCK;
    }
    at
}

/// How many bytes two slices end with alike, in whole blocks.
pub(crate) fn alike_at_end(first: &[u8], second: &[u8]) -> usize
    ensures { EndAlike first.now second.now 64 result }
{
    let shorter = first.len().min(second.len());
    let mut count = 0;
    while shorter - count >= BLOCK
        && block_before(first, first.len() - count) == block_before(second, second.len() - count)
    {
        count += BLOCK;
    }
    count
}

/// The block of bytes before an index.
#[inline]
fn block_before(bytes: &[u8], end: usize) -> &[u8]
    requires room { 64 ≤ end }
    requires within { end ≤ length bytes.now }
    ensures { result.now ≡ slice_range bytes.now (end - 64) end }
{
    &bytes[end - BLOCK..end]
}

/// How many bytes from an index on are ASCII characters that aren't newline characters, as far as one
/// load goes.
#[inline]
pub(crate) fn plain_lanes(bytes: &[u8], at: usize) -> usize
    requires { at + 16 ≤ length bytes.now }
    ensures { IsPlainFront bytes.now at 16 result }
{
    let lanes = u8x16::from_slice(&bytes[at..]);
    let is_newline = lanes.simd_ge(u8x16::splat(b'\n')) & lanes.simd_le(u8x16::splat(b'\r'));
    let is_wide = lanes.simd_ge(u8x16::splat(0x80));
    lanes_before((is_newline | is_wide).to_bitmask())
}

/// How many lanes come before the first that is set.
#[inline]
fn lanes_before(set: u64) -> usize
    ensures { result ≡ first_set set 16 }
{
    if set == 0 {
        LANES
    } else {
        set.trailing_zeros() as usize
    }
}

/// What a text is measured in: a number that each of its bytes adds to, and a byte that goes on with a
/// character adds nothing.
pub(crate) trait Measure {
    ghost begun: { ℕ → ℕ };

    /// What a byte adds.
    fn of_byte(byte: u8) -> usize
        ensures value { result ≡ begun byte }
        ensures small { result ≤ 2 };

    /// What the bytes of one load add.
    fn of_lanes(bytes: &[u8], at: usize) -> usize
        requires { at + 16 ≤ length bytes.now }
        ensures value { result ≡ sum_by begun (slice_range bytes.now at (at + 16)) }
        ensures small { result ≤ 32 };
}

/// Measures in characters.
pub(crate) struct InChars;

impl Measure for InChars {
    ghost begun = { chars_begun };

    #[inline]
    fn of_byte(byte: u8) -> usize {
        usize::from(begins_char(byte))
    }

    #[inline]
    fn of_lanes(bytes: &[u8], at: usize) -> usize {
        let lanes = u8x16::from_slice(&bytes[at..]);
        let begins = lanes.simd_lt(u8x16::splat(0x80)) | lanes.simd_ge(u8x16::splat(0xC0));
        begins.to_bitmask().count_ones() as usize
    }
}

/// Measures in UTF-16 units.
pub(crate) struct InUnits;

impl Measure for InUnits {
    ghost begun = { units_begun };

    #[inline]
    fn of_byte(byte: u8) -> usize {
        usize::from(begins_char(byte)) + usize::from(begins_pair(byte))
    }

    #[inline]
    fn of_lanes(bytes: &[u8], at: usize) -> usize {
        let lanes = u8x16::from_slice(&bytes[at..]);
        let pairs = lanes.simd_ge(u8x16::splat(0xF0)).to_bitmask().count_ones();
        InChars::of_lanes(bytes, at) + pairs as usize
    }
}

/// Whether a character begins with a byte of UTF-8.
#[inline]
fn begins_char(byte: u8) -> bool
    ensures { result ≡ (nat_lt byte 128 || nat_le 192 byte) }
{
    byte < 0x80 || byte >= 0xC0
}

/// Whether a character of two UTF-16 units begins with a byte of UTF-8.
#[inline]
fn begins_pair(byte: u8) -> bool
    ensures { result ≡ nat_le 240 byte }
{
    byte >= 0xF0
}

/// So many bytes from the front, in whole loads, as measure no more than a bound, and what they measure.
/// It stops where less is left to the bound than a load of ASCII measures, since a few characters are
/// passed sooner one by one.
#[inline]
fn loads_within<M: Measure>(bytes: &[u8], most: usize) -> (usize, usize)
    ensures within { result.0 ≤ length bytes.now }
    ensures measured { result.1 ≡ sum_by M.begun (take result.0 bytes.now) }
    ensures bounded { result.1 ≤ most }
    ensures small { result.1 ≤ 2 * result.0 }
    ensures stops { result.0 + 16 ≤ length bytes.now → result.1 + 16 ≤ most → most < sum_by M.begun (take (result.0 + 16) bytes.now) }
{
    let mut at = 0;
    let mut sum = 0;
    while bytes.len() - at >= LANES && most - sum >= LANES {
        let more = M::of_lanes(bytes, at);
        if more > most - sum {
            return (at, sum);
        }
        sum += more;
        at += LANES;
    }
    (at, sum)
}

/// What all bytes measure.
pub(crate) fn measured<M: Measure>(bytes: &[u8]) -> usize
    ensures { result ≡ sum_by M.begun bytes.now }
{
    let (at, mut sum) = loads_within::<M>(bytes, usize::MAX);
    for i in at..bytes.len() {
        sum += M::of_byte(bytes[i]);
    }
    sum
}

/// A character boundary of a text up to which it measures no more than a bound, short of the last such one
/// by fewer characters than a load has bytes, and what it measures up to there.
pub(crate) fn boundary_within<M: Measure>(text: &str, most: usize) -> (usize, usize)
    requires { IsOfFirst M.begun }
    ensures boundary { IsCharBoundary text.now result.0 }
    ensures measured { result.1 ≡ sum_by M.begun (take result.0 text.now) }
    ensures bounded { result.1 ≤ most }
    ensures stops { result.0 + 16 ≤ length text.now → result.1 + 16 ≤ most → most < sum_by M.begun (take (result.0 + 16) text.now) }
{
    let (at, sum) = loads_within::<M>(text.as_bytes(), most);
    (text.ceil_char_boundary(at), sum)
}
