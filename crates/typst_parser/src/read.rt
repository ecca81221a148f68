//! Reading a whole text with its units.

ghost use Rattle.std.specs.Prelude.{◌≡◌, ◌<◌, ◌^◌, ◌-◌, IfOk, length};
ghost use Rattle.std.specs.Str.{chars};
ghost use Rattle.typst_candidates.specs.Entries.{units_of};
ghost use Rattle.typst_edits.specs.Grammar.{log, tree};

use std::alloc::{AllocError, Global};
use typst_candidates::Records;
use typst_edits::{Noted, parse_noted};
use typst_lines::Classes;
use typst_tree::SyntaxNode;

/// The syntax tree of a text, with detached spans, and its units.
#[derive(Drop)]
pub struct Recorded {
    pub tree: SyntaxNode,
    pub records: Records,
}

/// The syntax tree of a text of markup and its units. It fails only for lack of memory, which it also reports for a
/// text of `usize::MAX` bytes.
pub fn parse_recorded<C: Classes>(
    alloc: Global,
    text: &str,
    classes: &C,
) -> Result<Recorded, AllocError>
    ensures tree { IfOk result (λ r. r.tree ≡ tree (C.classes classes.now) (chars text.now)) }
    ensures units { IfOk result (λ r. r.records.units ≡ units_of (log (C.classes classes.now) (chars text.now))) }
    ensures fits { IfOk result (λ r. length text.now < 2 ^ 64 - 1) }
{
    if text.len() == usize::MAX {
        return Err(AllocError);
    }
    let Noted { tree, notes, hull } = parse_noted(alloc, text, classes)?;
    let records = Records::of_notes(alloc, &notes, hull.least)?;
    Ok(Recorded { tree, records })
}
