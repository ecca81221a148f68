//! The word `edit`.

ghost use Rattle.std.specs.Prelude.{◌≡◌, ◌↔◌, ◌++◌, IfErr, IfOk, IsTrue, OnOk};
ghost use Rattle.std.specs.String.{string_bytes};
ghost use Rattle.typst_cli.specs.Asked.{edits, range_in};
ghost use Rattle.typst_cli.specs.Faults.{IsAnswerFault};
ghost use Rattle.typst_cli.specs.PrintedEdit.{IsRange, Prints, range_line};

use crate::failure::Failure;
use std::alloc::{AllocError, Global};
use std::ops::Range;
use typst_parser::{Source, UnicodeClasses};
use typst_report::tree::print_node;

/// A text to be put in the place of a range of bytes.
#[derive(Debug, Clone, Copy)]
pub struct Edit<'a> {
    /// Where the range starts.
    pub start: usize,
    /// Where the range ends.
    pub end: usize,
    /// The text to be put there.
    pub with_text: &'a str,
}

impl Edit<'_> {
    /// The range of the new text that was parsed again, on a line, and below it the tree of the new text.
    pub fn answer(self, alloc: Global, text: String) -> Result<String, Failure>
        ensures printed { IfOk result (λ printed. Prints (edits (range_in self.entry) self.entry.with_text.now) (string_bytes text) (string_bytes printed)) }
        ensures fault { IfErr result (λ fault. IsAnswerFault fault (edits (range_in self.entry) self.entry.with_text.now) (string_bytes text)) }
    {
        if !self.fits(text.as_str()) {
            return Err(Failure::BadRange);
        }
        let mut source = Source::detached(alloc, text, UnicodeClasses)?;
        let parsed = source.edit(self.start..self.end, self.with_text)?;
        let mut printed = String::new(alloc);
        push_range(&mut printed, parsed)?;
        print_node(alloc, &mut printed, source.root(), "", 0)?;
        Ok(printed)
    }

    /// Whether the range is one of the text, with both ends on boundaries of its characters.
    fn fits(self, text: &str) -> bool
        ensures { IsTrue result ↔ IsRange (range_in self.entry) text.now }
    {
        self.start <= self.end
            && text.is_char_boundary(self.start)
            && text.is_char_boundary(self.end)
    }
}

/// Prints a line with the ends of a range.
fn push_range(printed: &mut String, range: Range<usize>) -> Result<(), AllocError>
    ensures { OnOk result (string_bytes printed.new ≡ string_bytes printed.old ++ range_line range) }
{
    let (start, end) = (range.start, range.end);
    writeln!(printed, "{start}..{end}")
}
