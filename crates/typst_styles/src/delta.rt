//! What changes from one list of numbers to the next.

ghost use Rattle.std.specs.Prelude.{◌≡◌, ◌≢◌, ◌+◌, ◌-◌, ◌≤◌, ◌<◌, IfSome, MatchOption, length, take, drop, slice_get};
ghost use Rattle.typst_styles.specs.DataEdits.{Makes};

use std::ops::Range;

/// An edit of a list of numbers: so many of them, from a place on, give way to a stretch of the new list.
#[derive(Debug, PartialEq, Eq, Drop)]
pub struct DataEdit {
    /// The place of the first number that gives way.
    pub start: usize,
    /// How many give way.
    pub removed: usize,
    /// The places of those that come, in the new list.
    pub inserted: Range<usize>,
}

/// The edit that makes the new list of the old one: what they have in common at the front and at the end
/// stays. None where they are equal.
pub fn edit_between(old: &[u32], new: &[u32]) -> Option<DataEdit>
    ensures { MatchOption result (old.now ≡ new.now) (λ edit. Makes old.now new.now edit) }
{
    let front = common_front(old, new);
    let end = common_end(&old[front..], &new[front..]);
    let (old_end, new_end) = (old.len() - end, new.len() - end);
    if front == old_end && front == new_end {
        return None;
    }
    Some(DataEdit {
        start: front,
        removed: old_end - front,
        inserted: front..new_end,
    })
}

/// How many numbers two lists have in common at the front.
fn common_front(old: &[u32], new: &[u32]) -> usize
    ensures old { result ≤ length old.now }
    ensures new { result ≤ length new.now }
    ensures same { take result old.now ≡ take result new.now }
    ensures differs { result < length old.now → slice_get old.now result ≢ slice_get new.now result }
{
    let most = old.len().min(new.len());
    for index in 0..most {
        if old[index] != new[index] {
            return index;
        }
    }
    most
}

/// How many numbers two lists have in common at the end.
fn common_end(old: &[u32], new: &[u32]) -> usize
    ensures old { result ≤ length old.now }
    ensures new { result ≤ length new.now }
    ensures same { drop (length old.now - result) old.now ≡ drop (length new.now - result) new.now }
{
    let most = old.len().min(new.len());
    for index in 0..most {
        if old[old.len() - 1 - index] != new[new.len() - 1 - index] {
            return index;
        }
    }
    most
}
