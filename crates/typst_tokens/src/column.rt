//! Columns.
ghost use Rattle.std.specs.Prelude.{◌≡◌};
ghost use Rattle.typst_lines.specs.Scanner.{place};
ghost use Rattle.typst_tokens.specs.Column as spec;
ghost use Rattle.typst_tokens.specs.Sight.{hull_of};

use crate::hull::Hull;
use typst_lines::{Scanner, is_newline};

/// How many characters are between the last newline character before, or the text's start, and
/// here; and what was looked at for it.
#[inline(never)]
pub fn column(s: &Scanner<'_>) -> (usize, Hull)
    ensures column { result.0 ≡ spec.column_at (place s.now) }
    ensures hull { result.1 ≡ hull_of (spec.column_look (place s.now)) (place s.now) }
{
    let reach = s.cursor();
    let mut at = *s;
    let mut count = 0usize;
    'back: while let Some(c) = at.uneat() {
        if is_newline(c) {
            let least = at.cursor() + 1;
            return (count, Hull { reach, least });
        }
        count = count.saturating_add(1);
    }
    (count, Hull { reach, least: 0 })
}
