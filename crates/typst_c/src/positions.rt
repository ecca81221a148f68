//! Positions in a text, in lines and columns.

ghost use Rattle.std.specs.Prelude.{◌≡◌, ◌↔◌, ℕ, IfErr, IfNone, IfOk, IfSome, OnOk, Some};
ghost use Rattle.std.specs.Str.{IsCharBoundary};
ghost use Rattle.typst_c.specs.Positions as spec;
ghost use Rattle.typst_c.specs.Positions.{IsAtBytes, IsAtUnits, IsByteAt, IsMeasured};
ghost use Rattle.typst_c.specs.Refusals.{RefusesByte, RefusesPosition};
ghost use Rattle.typst_c.specs.declared.positions.Measure.{Measure};

use crate::refusal::Refusal;
use typst_parser::Lines;

/// Where a byte stands in a text. Lines and columns are counted from 0 on.
#[repr(C)]
#[derive(Debug, Clone, Copy, PartialEq, Eq)]
pub struct Position {
    /// Its line.
    pub line: usize,
    /// How many characters stand before it in the line.
    pub column: usize,
    /// How many UTF-16 units stand before it in the line.
    pub utf16_column: usize,
    /// How many UTF-16 units stand before it in the text.
    pub utf16: usize,
}

/// What columns are counted in.
#[derive(Debug, Clone, Copy, PartialEq, Eq)]
pub enum Measure {
    Chars,
    Utf16,
    Bytes,
}

/// What columns are counted in, by its code.
fn measure_of(code: u32) -> Option<Measure>
    ensures { (measure : Measure) → (result ≡ Some measure) ↔ (spec.measure_code measure ≡ code) }
{
    match code {
        0 => Some(Measure::Chars),
        1 => Some(Measure::Utf16),
        2 => Some(Measure::Bytes),
        _ => None,
    }
}

/// The UTF-16 units before a line; none where there is no such line.
fn units_before(lines: &Lines<String>, line: usize) -> usize
    ensures { result ≡ spec.units_before lines.now line }
{
    match lines.line(line) {
        Some(line) => line.utf16_idx(),
        None => 0,
    }
}

/// The position of a byte.
pub fn position_of(lines: &Lines<String>, byte: usize) -> Result<Position, Refusal>
    ensures position { IfOk result (λ position. position ≡ spec.position_of lines.now byte) }
    ensures boundary { OnOk result (IsCharBoundary lines.now byte) }
    ensures refused { IfErr result (λ refusal. RefusesPosition lines.now byte refusal) }
{
    let Some((line, column)) = lines.byte_to_line_column(byte) else {
        return Err(Refusal::BadRange);
    };
    let Some(utf16) = lines.byte_to_utf16(byte) else {
        return Err(Refusal::BadRange);
    };
    Ok(Position {
        line,
        column,
        utf16_column: utf16.saturating_sub(units_before(lines, line)),
        utf16,
    })
}

/// The byte at a column of a line, where the columns are counted in what a code says.
pub fn byte_at(
    lines: &Lines<String>,
    line: usize,
    column: usize,
    code: u32,
) -> Result<usize, Refusal>
    ensures byte { IfOk result (λ byte. IsByteAt code lines.now line column byte) }
    ensures refused { IfErr result (λ refusal. RefusesByte code lines.now line column refusal) }
{
    let Some(measure) = measure_of(code) else {
        return Err(Refusal::BadArgument);
    };
    match measured(lines, line, column, measure) {
        Some(byte) => Ok(byte),
        None => Err(Refusal::BadRange),
    }
}

/// The byte at a column of a line.
fn measured(lines: &Lines<String>, line: usize, column: usize, measure: Measure) -> Option<usize>
    ensures byte { IfSome result (λ byte. IsMeasured measure lines.now line column byte) }
    ensures none { IfNone result ((byte : ℕ) → IsMeasured measure lines.now line column byte → ⊥) }
{
    match measure {
        Measure::Chars => lines.line_column_to_byte(line, column),
        Measure::Utf16 => at_units(lines, line, column),
        Measure::Bytes => at_bytes(lines, line, column),
    }
}

/// The byte so many UTF-16 units after a line's start.
fn at_units(lines: &Lines<String>, line: usize, column: usize) -> Option<usize>
    ensures byte { IfSome result (λ byte. IsAtUnits lines.now line column byte) }
    ensures none { IfNone result ((byte : ℕ) → IsAtUnits lines.now line column byte → ⊥) }
{
    let _text = lines.text();
    let range = lines.line_to_range(line)?;
    let utf16 = units_before(lines, line).checked_add(column)?;
    let byte = lines.utf16_to_byte(utf16)?;
    let there = lines.byte_to_utf16(byte)?;
    if there != utf16 || byte > range.end {
        return None;
    }
    Some(byte)
}

/// The byte so many bytes after a line's start.
fn at_bytes(lines: &Lines<String>, line: usize, column: usize) -> Option<usize>
    ensures byte { IfSome result (λ byte. IsAtBytes lines.now line column byte) }
    ensures none { IfNone result ((byte : ℕ) → IsAtBytes lines.now line column byte → ⊥) }
{
    let text = lines.text();
    let range = lines.line_to_range(line)?;
    let byte = range.start.checked_add(column)?;
    if byte > range.end || !text.is_char_boundary(byte) {
        return None;
    }
    Some(byte)
}
