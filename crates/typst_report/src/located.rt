//! The errors and warnings of a text, with their lines and columns.

ghost use Rattle.std.specs.Prelude.{IfOk, map};
ghost use Rattle.typst_report.specs.Found.{as_reported};
ghost use Rattle.typst_report.specs.Placed.{ArePlaced, as_placed};

use crate::finding::Finding;
use crate::place::LineColumn;
use std::alloc::{AllocError, Global};
use typst_lines::Lines;

/// An error or a warning, and the places between which it is.
#[derive(Clone, Copy)]
pub struct Located<'t> {
    pub finding: Finding<'t>,
    pub start: LineColumn,
    pub end: LineColumn,
}

/// Finds the places of findings. If one is in the line of the last and after it, only what is between them is
/// looked at, so a line with many findings isn't read again for each.
pub fn locate<'t>(
    alloc: Global,
    lines: &Lines<&str>,
    found: &[Finding<'t>],
) -> Result<Vec<Located<'t>>, AllocError>
    ensures { IfOk result (λ located. ArePlaced lines.now (map as_reported found.now) (map as_placed located.items)) }
{
    let mut all = Vec::new(alloc);
    let (mut last_start, mut last_end) = (None, None);
    for finding in found {
        let start = LineColumn::of_byte(lines, finding.start, last_start);
        let end = LineColumn::of_byte(lines, finding.end, last_end);
        all.push(Located {
            finding: *finding,
            start,
            end,
        })?;
        (last_start, last_end) = (Some(start), Some(end));
    }
    Ok(all)
}
