//! Where lines start.
ghost use Rattle.std.specs.Prelude.{◌≡◌, ℕ, ◌+◌, ◌<◌, ◌≤◌, ◌++◌, count_by, drop, length, map, nat_le, true, if◌then◌else◌, [], ◌∷◌, IfOk, OnErr, OnOk, slice_get, slice_index, take, vec_len};
ghost use Rattle.std.specs.List.Sorted.{IsNonDecreasingBy};
ghost use Rattle.memchr.specs.Find.{IsFirst, Passes};
ghost use Rattle.typst_positions.specs.Starts as spec;

use memchr::memchr2;
use std::alloc::{AllocError, Global};

/// Where the lines of a text start.
pub(crate) fn table(alloc: Global, text: &[u8]) -> Result<Vec<usize>, AllocError>
    ensures { IfOk result (λ starts. starts.items ≡ spec.line_starts text.now) }
{
    let mut starts = Vec::new(alloc);
    starts.push(0)?;
    push_starts(&mut starts, text, 0, text.len())?;
    Ok(starts)
}

/// Adds where lines start after one byte and up to another.
pub(crate) fn push_starts(
    starts: &mut Vec<usize>,
    text: &[u8],
    from: usize,
    to: usize,
) -> Result<(), AllocError>
    requires ordered { from ≤ to }
    requires within { to ≤ length text.now }
    ensures { OnOk result (starts.new.items ≡ starts.old.items ++ spec.starts_between text.now (from + 1) to) }
{
    let mut at = from;
    while let Some(end) = next_end(text, at, to) {
        at = end + 1;
        push_if(starts, at, ends_line(text, end))?;
    }
    Ok(())
}

/// Adds a byte where a line starts, if one does.
fn push_if(starts: &mut Vec<usize>, at: usize, is_start: bool) -> Result<(), AllocError>
    ensures { OnOk result (starts.new.items ≡ starts.old.items ++ (if is_start then at ∷ [] else [])) }
{
    if is_start {
        starts.push(at)?;
    }
    Ok(())
}

/// The first LF or CR from one byte on and before another.
fn next_end(text: &[u8], from: usize, to: usize) -> Option<usize>
    requires ordered { from ≤ to }
    requires within { to ≤ length text.now }
    ensures { IsFirst (Passes spec.is_line_end text.now) from to result }
{
    let length = memchr2(b'\n', b'\r', &text[from..to])?;
    Some(from + length)
}

/// Whether a line ends with this LF or CR, and not with an LF after the CR.
fn ends_line(text: &[u8], end: usize) -> bool
    requires within { end < length text.now }
    requires end { spec.is_line_end (slice_index text.now end) ≡ true }
    ensures { result ≡ spec.starts_line text.now (end + 1) }
{
    text[end] == b'\n' || text.get(end + 1) != Some(&b'\n')
}

/// How many bytes the line that starts at a byte has, without its end.
pub(crate) fn line_len(text: &[u8], start: usize) -> usize
    requires { start ≤ length text.now }
    ensures within { start + result ≤ length text.now }
    ensures line { take result (drop start text.now) ≡ spec.line_at text.now start }
    ensures ended { start + result < length text.now → spec.is_line_end (slice_index text.now (start + result)) ≡ true }
{
    match next_end(text, start, text.len()) {
        Some(end) => end - start,
        None => text.len() - start,
    }
}

/// Where the line of a number starts.
pub(crate) fn start_of(starts: &[usize], line: usize) -> Option<usize>
    ensures { result ≡ slice_get starts.now line }
{
    starts.get(line).copied()
}

/// How many of some numbers, which rise, are no greater than one.
pub(crate) fn count_to(starts: &[usize], most: usize) -> usize
    requires { IsNonDecreasingBy (λ (start : ℕ). start) starts.now }
    ensures value { result ≡ count_by (λ start. nat_le start most) starts.now }
    ensures within { result ≤ length starts.now }
{
    starts.partition_point(|start| *start <= most)
}

/// Puts numbers between those up to `before` and those past `end`, which are moved so that they are as far after
/// `to`.
pub(crate) fn replace(
    starts: &mut Vec<usize>,
    before: usize,
    end: usize,
    between: Vec<usize>,
    to: usize,
) -> Result<(), AllocError>
    requires ordered { before ≤ end }
    requires rising { IsNonDecreasingBy (λ (start : ℕ). start) starts.old.items }
    ensures ok { OnOk result (starts.new.items ≡ spec.replaced before end to between.items starts.old.items) }
    ensures err { OnErr result (starts.new.items ≡ starts.old.items) }
{
    let first = count_to(starts.as_slice(), before);
    let last = count_to(starts.as_slice(), end);
    let behind = first + between.len();
    splice(starts, first, last, between)?;
    shift(starts, behind, end, to);
    Ok(())
}

/// Puts numbers in the place of those from one index to another, or changes nothing. As many, as at nearly every
/// keystroke, are written over those, and the numbers after them stay in their places.
fn splice(
    starts: &mut Vec<usize>,
    first: usize,
    last: usize,
    between: Vec<usize>,
) -> Result<(), AllocError>
    requires order { first ≤ last }
    requires within { last ≤ vec_len starts.old }
    ensures ok { OnOk result (starts.new.items ≡ take first starts.old.items ++ (between.items ++ drop last starts.old.items)) }
    ensures err { OnErr result (starts.new.items ≡ starts.old.items) }
{
    if between.len() == last - first {
        starts[first..last].copy_from_slice(between.as_slice());
        return Ok(());
    }
    let _ = starts.splice(first..last, between)?;
    Ok(())
}

/// Moves the numbers from an index on, so that they are as far after `to` as they were after `from`.
fn shift(starts: &mut Vec<usize>, first: usize, from: usize, to: usize)
    requires { first ≤ vec_len starts.old }
    ensures { starts.new.items ≡ take first starts.old.items ++ map (spec.shifted from to) (drop first starts.old.items) }
{
    shift_behind(starts.as_mut_slice(), first, from, to);
}

fn shift_behind(starts: &mut [usize], first: usize, from: usize, to: usize)
    requires { first ≤ length starts.old }
    ensures { starts.new ≡ take first starts.old ++ map (spec.shifted from to) (drop first starts.old) }
{
    shift_all(&mut starts[first..], from, to);
}

/// Moves numbers. A keystroke goes through all lines after it here, so the loop makes one sum a line and tests
/// nothing: all move by the same distance, found once, which wraps round where they move back.
fn shift_all(starts: &mut [usize], from: usize, to: usize)
    ensures { starts.new ≡ map (spec.shifted from to) starts.old }
{
    let distance = to.wrapping_sub(from);
    for at in starts.iter_mut() {
        *at = at.wrapping_add(distance);
    }
}
