//! What two edits in a row read again.

ghost use Rattle.typst_styles.specs.Windows.{IsOfBoth};

use std::ops::Range;

/// The bytes that two edits in a row read again, and those between, in the text that the second one left: by what
/// the first one read, in the text between them, which had `before` bytes, and what the second one did, in the
/// text that it left, which has `after`. So both are one edit. Takes a constant time.
pub fn read_by_both(
    first: &Range<usize>,
    second: &Range<usize>,
    before: usize,
    after: usize,
) -> Range<usize>
    ensures { IsOfBoth first.now second.now before after result }
{
    let rest = before.saturating_sub(first.end);
    let end = after.saturating_sub(rest);
    first.start.min(second.start)..end.max(second.end)
}
