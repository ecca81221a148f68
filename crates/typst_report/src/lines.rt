//! The word `lines`.
ghost use Rattle.std.specs.Prelude.{◌≡◌, ◌++◌, IfOk, OnOk};
ghost use Rattle.std.specs.String.{string_bytes};
ghost use Rattle.typst_report.specs.PrintedLines.{lines_printed, row, totals};

use std::alloc::{AllocError, Global};
use typst_lines::{Line, Lines};

/// A row for each line of the text, with its number and its start in bytes and in UTF-16 units, and
/// then a row with the totals.
pub fn answer(alloc: Global, text: &str) -> Result<String, AllocError>
    ensures { IfOk result (λ answer. string_bytes answer ≡ lines_printed text.now) }
{
    let lines = Lines::new(alloc, text)?;
    let mut printed = String::new(alloc);
    for number in 0..lines.len_lines() {
        if let Some(line) = lines.line(number) {
            push_row(&mut printed, number, line)?;
        }
    }
    push_totals(&mut printed, &lines)?;
    Ok(printed)
}

fn push_row(printed: &mut String, number: usize, line: Line) -> Result<(), AllocError>
    ensures { OnOk result (string_bytes printed.new ≡ string_bytes printed.old ++ row number line) }
{
    let (byte, utf16) = (line.byte_idx(), line.utf16_idx());
    writeln!(printed, "{number} {byte} {utf16}")
}

fn push_totals(printed: &mut String, lines: &Lines<&str>) -> Result<(), AllocError>
    ensures { OnOk result (string_bytes printed.new ≡ string_bytes printed.old ++ totals lines.now) }
{
    let (bytes, utf16, count) = (lines.len_bytes(), lines.len_utf16(), lines.len_lines());
    writeln!(printed, "bytes {bytes} utf16 {utf16} lines {count}")
}
