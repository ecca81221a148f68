//! An error or a warning, as a line of `ndjson` gives it.

ghost use Rattle.std.specs.Prelude.{◌≡◌, IfOk, Some, codes};
ghost use Rattle.json.specs.Find.{get};
ghost use Rattle.json.specs.Json.{array};
ghost use Rattle.json.specs.Value.{items_view, value_view};
ghost use Rattle.typst_check.specs.NdjsonFinding as spec;

use json::{Error, Value};

/// The lines and columns between which something is. Both are counted from 1, columns in UTF-16 units.
#[derive(Debug, Clone, Copy, PartialEq, Eq)]
pub struct Region {
    pub start_line: u64,
    pub start_column: u64,
    pub end_line: u64,
    pub end_column: u64,
}

/// An error or a warning.
#[derive(Debug, Clone, Copy)]
pub struct NdjsonFinding<'a> {
    /// The word for how grave it is.
    pub severity: &'a str,
    pub message: &'a str,
    pub region: Region,
}

impl<'a> NdjsonFinding<'a> {
    /// What a line says; `Invalid` if a part of it is missing.
    pub fn of_line(line: &Value<'a>) -> Result<NdjsonFinding<'a>, Error>
        ensures { IfOk result (λ finding. spec.IsWrittenAs (value_view line.now) finding) }
    {
        Ok(NdjsonFinding {
            severity: text(line, "severity")?,
            message: text(line, "message")?,
            region: region_of(line)?,
        })
    }
}

/// The region that a line names; `Invalid` if the line has no such numbers.
fn region_of(line: &Value) -> Result<Region, Error>
    ensures { IfOk result (λ region. spec.IsRegionOf (value_view line.now) region) }
{
    let start = member(line, "start")?;
    let end = member(line, "end")?;
    Ok(Region {
        start_line: number(start, "line")?,
        start_column: number(start, "utf16_column")?,
        end_line: number(end, "line")?,
        end_column: number(end, "utf16_column")?,
    })
}

/// The hints of a line; `Invalid` if the line has no list of them.
pub fn hints_of<'v, 'a>(line: &'v Value<'a>) -> Result<&'v [Value<'a>], Error>
    ensures { IfOk result (λ hints. get (codes "hints") (value_view line.now) ≡ Some (array (items_view hints.now))) }
{
    match member(line, "hints")? {
        Value::Array(hints) => Ok(hints.as_slice()),
        _ => Err(Error::Invalid),
    }
}

/// The text of that name.
fn text<'a>(object: &Value<'a>, name: &str) -> Result<&'a str, Error>
    ensures { IfOk result (λ text. spec.text_of name.now (value_view object.now) ≡ Some text.now) }
{
    match member(object, name)?.as_str() {
        Some(text) => Ok(text),
        None => Err(Error::Invalid),
    }
}

/// The number of that name.
fn number(object: &Value, name: &str) -> Result<u64, Error>
    ensures { IfOk result (λ number. spec.IsNumberOf name.now (value_view object.now) number) }
{
    match member(object, name)?.as_u64() {
        Some(number) => Ok(number),
        None => Err(Error::Invalid),
    }
}

/// The member of that name.
fn member<'v, 'a>(object: &'v Value<'a>, name: &str) -> Result<&'v Value<'a>, Error>
    ensures { IfOk result (λ found. get name.now (value_view object.now) ≡ Some (value_view found.now)) }
{
    match object.get(name) {
        Some(found) => Ok(found),
        None => Err(Error::Invalid),
    }
}
