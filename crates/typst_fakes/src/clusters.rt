//! The first cluster of any text, also of one that class values aren't asked about.
ghost use Rattle.std.specs.Prelude.{◌≡◌};
ghost use Rattle.std.specs.List.{list_all};
ghost use Rattle.std.specs.Str.{chars};
ghost use Rattle.typst_lines.specs.Classes.{in_line};

use typst_lines::{Classes, is_newline};

/// How many bytes the first cluster of a line has; nothing where that is empty or has a newline character.
pub fn first_cluster<C: Classes>(classes: &C, line: &str) -> Option<usize> {
    if line.is_empty() || !is_line(line) {
        return None;
    }
    Some(classes.cluster(line))
}

/// Whether no character is a newline character.
fn is_line(line: &str) -> bool
    ensures { result ≡ list_all in_line (chars line.now) }
{
    line.chars().all(|c| !is_newline(c))
}
