//! Errors and warnings as JSON, an object a line.

ghost use Rattle.std.specs.Prelude.{◌≡◌, ◌++◌, IfOk, OnOk, map};
ghost use Rattle.typst_report.specs.Ndjson as spec;
ghost use Rattle.typst_report.specs.Placed.{as_placed};

use crate::finding::Finding;
use crate::located::Located;
use crate::place::LineColumn;
use json::Writer;
use std::alloc::{AllocError, Global};
use typst_kinds::Hint;

/// A line for each finding.
pub fn lines_of(alloc: Global, name: &str, located: &[Located]) -> Result<Vec<u8>, AllocError>
    ensures { IfOk result (λ printed. printed.items ≡ spec.lines name.now (map as_placed located.now)) }
{
    let mut printed = Vec::new(alloc);
    for one in located {
        printed = push_line(printed, name, one)?;
    }
    Ok(printed)
}

/// The lines, and after them the line of a finding.
fn push_line(lines: Vec<u8>, name: &str, located: &Located) -> Result<Vec<u8>, AllocError>
    ensures { IfOk result (λ new. new.items ≡ lines.items ++ spec.line (spec.finding name.now (as_placed located.now))) }
{
    let mut writer = Writer::new(lines);
    write_finding(&mut writer, name, located)?;
    end_line(writer)
}

/// The bytes that were written, with the end of a line after them.
pub fn end_line(writer: Writer) -> Result<Vec<u8>, AllocError>
    ensures { IfOk result (λ new. new.items ≡ writer.before ++ spec.line writer.tokens) }
{
    let mut lines = writer.into_inner();
    lines.push(b'\n')?;
    Ok(lines)
}

fn write_finding(writer: &mut Writer, name: &str, located: &Located) -> Result<(), AllocError>
    ensures before { OnOk result (writer.new.before ≡ writer.old.before) }
    ensures tokens { OnOk result (writer.new.tokens ≡ writer.old.tokens ++ spec.finding name.now (as_placed located.now)) }
{
    writer.begin_object()?;
    write_reported(writer, name, &located.finding)?;
    write_places(writer, located.start, located.end)?;
    writer.end_object()
}

/// Writes what a finding in the file of that name says.
fn write_reported(writer: &mut Writer, name: &str, finding: &Finding) -> Result<(), AllocError>
    ensures before { OnOk result (writer.new.before ≡ writer.old.before) }
    ensures tokens { OnOk result (writer.new.tokens ≡ writer.old.tokens ++ spec.reported_members name.now finding.now.diagnostic.now) }
{
    write_text(writer, "file", name)?;
    write_text(writer, "severity", finding.severity())?;
    write_text(writer, "message", finding.message())?;
    write_hints(writer, finding.hints())
}

/// Writes a text under its name.
pub fn write_text(writer: &mut Writer, name: &str, text: &str) -> Result<(), AllocError>
    ensures before { OnOk result (writer.new.before ≡ writer.old.before) }
    ensures tokens { OnOk result (writer.new.tokens ≡ writer.old.tokens ++ spec.text_member name.now text.now) }
{
    writer.key(name)?;
    writer.string(text)
}

/// Writes a number under its name.
pub fn write_count(writer: &mut Writer, name: &str, count: usize) -> Result<(), AllocError>
    ensures before { OnOk result (writer.new.before ≡ writer.old.before) }
    ensures tokens { OnOk result (writer.new.tokens ≡ writer.old.tokens ++ spec.count_member name.now count) }
{
    writer.key(name)?;
    writer.u64(count as u64)
}

fn write_hints(writer: &mut Writer, hints: &[Hint]) -> Result<(), AllocError>
    ensures before { OnOk result (writer.new.before ≡ writer.old.before) }
    ensures tokens { OnOk result (writer.new.tokens ≡ writer.old.tokens ++ spec.hints_member hints.now) }
{
    writer.key("hints")?;
    writer.begin_array()?;
    write_messages(writer, hints)?;
    writer.end_array()
}

fn write_messages(writer: &mut Writer, hints: &[Hint]) -> Result<(), AllocError>
    ensures before { OnOk result (writer.new.before ≡ writer.old.before) }
    ensures tokens { OnOk result (writer.new.tokens ≡ writer.old.tokens ++ spec.messages hints.now) }
{
    for hint in hints {
        writer.string(hint.message())?;
    }
    Ok(())
}

fn write_places(writer: &mut Writer, start: LineColumn, end: LineColumn) -> Result<(), AllocError>
    ensures before { OnOk result (writer.new.before ≡ writer.old.before) }
    ensures tokens { OnOk result (writer.new.tokens ≡ writer.old.tokens ++ spec.places_members start end) }
{
    write_place(writer, "start", start)?;
    write_place(writer, "end", end)
}

/// Writes a place under its name.
fn write_place(writer: &mut Writer, name: &str, place: LineColumn) -> Result<(), AllocError>
    ensures before { OnOk result (writer.new.before ≡ writer.old.before) }
    ensures tokens { OnOk result (writer.new.tokens ≡ writer.old.tokens ++ spec.place_member name.now place) }
{
    writer.key(name)?;
    writer.begin_object()?;
    write_numbers(writer, place)?;
    writer.end_object()
}

fn write_numbers(writer: &mut Writer, place: LineColumn) -> Result<(), AllocError>
    ensures before { OnOk result (writer.new.before ≡ writer.old.before) }
    ensures tokens { OnOk result (writer.new.tokens ≡ writer.old.tokens ++ spec.numbers place) }
{
    write_count(writer, "byte", place.byte)?;
    write_count(writer, "line", place.line)?;
    write_count(writer, "column", place.column)?;
    write_count(writer, "utf16_column", place.utf16_column)
}
