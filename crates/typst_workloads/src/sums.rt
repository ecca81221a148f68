//! Sums that are computed separately.

use crate::digest::Outcome;
use crate::work::Work;
use std::alloc::Global;

/// Kinds of work, texts, and what a round on the text sums up. `"a\r\nb"` has four units, and its second
/// line begins after three bytes and three units; `"a"` is one byte and two nodes.
static ROWS: [(Work, &str, u64); 4] = [
    (Work::Lines, "a\r\nb", 10),
    (Work::Parse, "a", 3),
    (Work::ParseCode, "a", 3),
    (Work::ParseMath, "a", 3),
];

/// Does a round of each kind of work on a short text, and holds its sum against the one computed separately.
pub fn sums(alloc: Global, outcome: &mut Outcome) -> anyhow::Result<()> {
    for (work, text, sum) in &ROWS {
        let mut subject = work.subject(alloc, String::from_str(alloc, text)?)?;
        outcome.hold("a sum", subject.round(alloc)? == *sum);
    }
    Ok(())
}
