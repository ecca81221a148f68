//! The objects of a log of SARIF 2.1.0.

ghost use Rattle.std.specs.Prelude.{◌≡◌, ℕ, List, ◌++◌, OnOk, codes, map};
ghost use Rattle.json.specs.Value.{value_view};
ghost use Rattle.typst_report.specs.Ndjson.{count_member, text_member};
ghost use Rattle.typst_check.specs.Sarif as spec;

use super::finding::{NdjsonFinding, Region, hints_of};
use super::rules::{RULES, Rule, rule_of};
use json::{Error, Value, Writer};
use std::alloc::AllocError;

const SCHEMA: &str = "https://json.schemastore.org/sarif-2.1.0.json";

/// What ends a line of a text.
static LINE_ENDS: [&str; 8] = [
    "\r\n", "\n", "\u{b}", "\u{c}", "\r", "\u{85}", "\u{2028}", "\u{2029}",
];

/// Writes a log up to its first result: the program with its rules, and how lines and columns are counted.
pub fn write_head(writer: &mut Writer, version: &str) -> Result<(), AllocError> {
    writer.begin_object()?;
    write_text(writer, "$schema", SCHEMA)?;
    write_text(writer, "version", "2.1.0")?;
    writer.key("runs")?;
    writer.begin_array()?;
    writer.begin_object()?;
    write_tool(writer, version)?;
    write_text(writer, "columnKind", "utf16CodeUnits")?;
    write_line_ends(writer)?;
    writer.key("results")?;
    writer.begin_array()
}

fn write_tool(writer: &mut Writer, version: &str) -> Result<(), AllocError> {
    writer.key("tool")?;
    writer.begin_object()?;
    writer.key("driver")?;
    writer.begin_object()?;
    write_text(writer, "name", "typst_check")?;
    write_text(writer, "version", version)?;
    write_rules(writer)?;
    writer.end_object()?;
    writer.end_object()
}

fn write_rules(writer: &mut Writer) -> Result<(), AllocError> {
    writer.key("rules")?;
    writer.begin_array()?;
    for rule in &RULES {
        write_rule(writer, rule)?;
    }
    writer.end_array()
}

fn write_rule(writer: &mut Writer, rule: &Rule) -> Result<(), AllocError> {
    writer.begin_object()?;
    write_text(writer, "id", rule.id)?;
    writer.key("shortDescription")?;
    writer.begin_object()?;
    write_text(writer, "text", rule.meaning)?;
    writer.end_object()?;
    writer.end_object()
}

fn write_line_ends(writer: &mut Writer) -> Result<(), AllocError> {
    writer.key("newlineSequences")?;
    writer.begin_array()?;
    for line_end in &LINE_ENDS {
        writer.string(*line_end)?;
    }
    writer.end_array()
}

/// Writes the result that a line of `ndjson` is about, in the file of that address; `Invalid` if it isn't such a
/// line.
pub fn write_result(writer: &mut Writer, uri: &str, line: &Value) -> Result<(), Error>
    ensures before { OnOk result (writer.new.before ≡ writer.old.before) }
    ensures tokens { OnOk result (spec.WritesResult uri.now (value_view line.now) writer.old.tokens writer.new.tokens) }
{
    let finding = NdjsonFinding::of_line(line)?;
    let hints = hints_of(line)?;
    write_object(writer, uri, &finding, hints)
}

/// Writes a result with these hints.
fn write_object(
    writer: &mut Writer,
    uri: &str,
    finding: &NdjsonFinding,
    hints: &[Value],
) -> Result<(), Error>
    ensures before { OnOk result (writer.new.before ≡ writer.old.before) }
    ensures tokens { OnOk result ((rule : List ℕ) × (writer.new.tokens ≡ writer.old.tokens ++ spec.result_item uri.now rule finding.now (map value_view hints.now))) }
{
    writer.begin_object()?;
    write_finding(writer, uri, rule_of(finding), finding)?;
    write_hints(writer, uri, finding.region, hints)?;
    writer.end_object()?;
    Ok(())
}

/// Writes what an error or a warning says, by which rule, and its place.
fn write_finding(
    writer: &mut Writer,
    uri: &str,
    rule: &str,
    finding: &NdjsonFinding,
) -> Result<(), AllocError>
    ensures before { OnOk result (writer.new.before ≡ writer.old.before) }
    ensures tokens { OnOk result (writer.new.tokens ≡ writer.old.tokens ++ spec.finding_members uri.now rule.now finding.now) }
{
    write_text(writer, "ruleId", rule)?;
    write_text(writer, "level", finding.severity)?;
    write_message(writer, finding.message)?;
    write_locations(writer, uri, finding.region)
}

/// Writes the one place of a result.
fn write_locations(writer: &mut Writer, uri: &str, region: Region) -> Result<(), AllocError>
    ensures before { OnOk result (writer.new.before ≡ writer.old.before) }
    ensures tokens { OnOk result (writer.new.tokens ≡ writer.old.tokens ++ spec.list_member (codes "locations") (spec.object_item (spec.place_member uri.now region))) }
{
    writer.key("locations")?;
    writer.begin_array()?;
    write_location(writer, uri, region)?;
    writer.end_array()
}

fn write_location(writer: &mut Writer, uri: &str, region: Region) -> Result<(), AllocError>
    ensures before { OnOk result (writer.new.before ≡ writer.old.before) }
    ensures tokens { OnOk result (writer.new.tokens ≡ writer.old.tokens ++ spec.object_item (spec.place_member uri.now region)) }
{
    writer.begin_object()?;
    write_place(writer, uri, region)?;
    writer.end_object()
}

/// Writes hints as related locations.
fn write_hints(writer: &mut Writer, uri: &str, region: Region, hints: &[Value]) -> Result<(), Error>
    ensures before { OnOk result (writer.new.before ≡ writer.old.before) }
    ensures tokens { OnOk result (writer.new.tokens ≡ writer.old.tokens ++ spec.list_member (codes "relatedLocations") (spec.hint_items uri.now region (map value_view hints.now))) }
{
    writer.key("relatedLocations")?;
    writer.begin_array()?;
    write_each_hint(writer, uri, region, hints)?;
    writer.end_array()?;
    Ok(())
}

fn write_each_hint(
    writer: &mut Writer,
    uri: &str,
    region: Region,
    hints: &[Value],
) -> Result<(), Error>
    ensures before { OnOk result (writer.new.before ≡ writer.old.before) }
    ensures tokens { OnOk result (writer.new.tokens ≡ writer.old.tokens ++ spec.hint_items uri.now region (map value_view hints.now)) }
{
    for hint in hints {
        let Some(text) = hint.as_str() else {
            return Err(Error::Invalid);
        };
        write_hint(writer, uri, region, text)?;
    }
    Ok(())
}

fn write_hint(writer: &mut Writer, uri: &str, region: Region, text: &str) -> Result<(), AllocError>
    ensures before { OnOk result (writer.new.before ≡ writer.old.before) }
    ensures tokens { OnOk result (writer.new.tokens ≡ writer.old.tokens ++ spec.hint_item uri.now region text.now) }
{
    writer.begin_object()?;
    write_place(writer, uri, region)?;
    write_message(writer, text)?;
    writer.end_object()
}

fn write_message(writer: &mut Writer, text: &str) -> Result<(), AllocError>
    ensures before { OnOk result (writer.new.before ≡ writer.old.before) }
    ensures tokens { OnOk result (writer.new.tokens ≡ writer.old.tokens ++ spec.message_member text.now) }
{
    writer.key("message")?;
    writer.begin_object()?;
    write_text(writer, "text", text)?;
    writer.end_object()
}

fn write_place(writer: &mut Writer, uri: &str, region: Region) -> Result<(), AllocError>
    ensures before { OnOk result (writer.new.before ≡ writer.old.before) }
    ensures tokens { OnOk result (writer.new.tokens ≡ writer.old.tokens ++ spec.place_member uri.now region) }
{
    writer.key("physicalLocation")?;
    writer.begin_object()?;
    write_place_members(writer, uri, region)?;
    writer.end_object()
}

fn write_place_members(writer: &mut Writer, uri: &str, region: Region) -> Result<(), AllocError>
    ensures before { OnOk result (writer.new.before ≡ writer.old.before) }
    ensures tokens { OnOk result (writer.new.tokens ≡ writer.old.tokens ++ spec.place_members uri.now region) }
{
    write_file(writer, uri)?;
    write_region(writer, region)
}

fn write_file(writer: &mut Writer, uri: &str) -> Result<(), AllocError>
    ensures before { OnOk result (writer.new.before ≡ writer.old.before) }
    ensures tokens { OnOk result (writer.new.tokens ≡ writer.old.tokens ++ spec.object_member (codes "artifactLocation") (text_member (codes "uri") uri.now)) }
{
    writer.key("artifactLocation")?;
    writer.begin_object()?;
    write_text(writer, "uri", uri)?;
    writer.end_object()
}

fn write_region(writer: &mut Writer, region: Region) -> Result<(), AllocError>
    ensures before { OnOk result (writer.new.before ≡ writer.old.before) }
    ensures tokens { OnOk result (writer.new.tokens ≡ writer.old.tokens ++ spec.object_member (codes "region") (spec.region_members region)) }
{
    writer.key("region")?;
    writer.begin_object()?;
    write_numbers(writer, region)?;
    writer.end_object()
}

fn write_numbers(writer: &mut Writer, region: Region) -> Result<(), AllocError>
    ensures before { OnOk result (writer.new.before ≡ writer.old.before) }
    ensures tokens { OnOk result (writer.new.tokens ≡ writer.old.tokens ++ spec.region_members region) }
{
    write_count(writer, "startLine", region.start_line)?;
    write_count(writer, "startColumn", region.start_column)?;
    write_count(writer, "endLine", region.end_line)?;
    write_count(writer, "endColumn", region.end_column)
}

/// Writes a text under its name.
fn write_text(writer: &mut Writer, name: &str, text: &str) -> Result<(), AllocError>
    ensures before { OnOk result (writer.new.before ≡ writer.old.before) }
    ensures tokens { OnOk result (writer.new.tokens ≡ writer.old.tokens ++ text_member name.now text.now) }
{
    writer.key(name)?;
    writer.string(text)
}

/// Writes a number under its name.
fn write_count(writer: &mut Writer, name: &str, count: u64) -> Result<(), AllocError>
    ensures before { OnOk result (writer.new.before ≡ writer.old.before) }
    ensures tokens { OnOk result (writer.new.tokens ≡ writer.old.tokens ++ count_member name.now count) }
{
    writer.key(name)?;
    writer.u64(count)
}
