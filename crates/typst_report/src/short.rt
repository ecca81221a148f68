//! Errors and warnings as lines to read, as compilers print them.

ghost use Rattle.std.specs.Prelude.{◌≡◌, ◌++◌, IfOk, OnOk, map, string_bytes};
ghost use Rattle.typst_report.specs.Placed.{as_placed};
ghost use Rattle.typst_report.specs.Short as spec;

use crate::escape::{Target, push_escaped};
use crate::finding::Finding;
use crate::located::Located;
use crate::place::LineColumn;
use std::alloc::{AllocError, Global};
use typst_kinds::Hint;

/// How a part of a line is shown.
#[derive(Debug, Clone, Copy, PartialEq, Eq)]
enum Paint {
    /// Bold.
    Place,
    /// Bold and red.
    Error,
    /// Bold and yellow.
    Warning,
    /// Bold and cyan.
    Hint,
}

impl Paint {
    /// The paint of the word for how grave a finding is.
    fn of(finding: &Finding) -> Paint
        ensures { result ≡ spec.paint_of finding.now.diagnostic.now.severity }
    {
        if finding.is_error() {
            Paint::Error
        } else {
            Paint::Warning
        }
    }

    /// The code by which a terminal begins the paint, or nothing if there are no colours.
    fn begin(self, color: bool) -> &'static str
        ensures { result.now ≡ spec.begin color self }
    {
        if !color {
            return "";
        }
        match self {
            Paint::Place => "\u{1b}[1m",
            Paint::Error => "\u{1b}[1;31m",
            Paint::Warning => "\u{1b}[1;33m",
            Paint::Hint => "\u{1b}[1;36m",
        }
    }
}

/// The code by which a terminal ends any paint, or nothing if there are no colours.
fn finish(color: bool) -> &'static str
    ensures { result.now ≡ spec.finish color }
{
    if color { "\u{1b}[0m" } else { "" }
}

/// A line for each finding, and below it a line for each of its hints.
pub fn lines_of(
    alloc: Global,
    name: &str,
    located: &[Located],
    color: bool,
) -> Result<String, AllocError>
    ensures { IfOk result (λ printed. string_bytes printed ≡ spec.short_lines color name.now (map as_placed located.now)) }
{
    let mut printed = String::new(alloc);
    for one in located {
        push_line(&mut printed, name, one, color)?;
    }
    Ok(printed)
}

/// Adds the line of a finding, and below it those of its hints.
fn push_line(
    printed: &mut String,
    name: &str,
    located: &Located,
    color: bool,
) -> Result<(), AllocError>
    ensures { OnOk result (string_bytes printed.new ≡ string_bytes printed.old ++ spec.short_line color name.now (as_placed located.now)) }
{
    let finding = &located.finding;
    push_place(printed, name, located.start, color)?;
    push_word(printed, finding.severity(), Paint::of(finding), color)?;
    push_message(printed, finding.message())?;
    push_hints(printed, finding.hints(), color)
}

fn push_place(
    printed: &mut String,
    name: &str,
    place: LineColumn,
    color: bool,
) -> Result<(), AllocError>
    ensures { OnOk result (string_bytes printed.new ≡ string_bytes printed.old ++ spec.place_part color name.now place) }
{
    let (begin, end) = (Paint::Place.begin(color), finish(color));
    let (line, column) = (place.line, place.column);
    printed.push_str(begin)?;
    push_escaped(printed, name, Target::Line)?;
    write!(printed, ":{line}:{column}:{end} ")
}

fn push_word(printed: &mut String, word: &str, paint: Paint, color: bool) -> Result<(), AllocError>
    ensures { OnOk result (string_bytes printed.new ≡ string_bytes printed.old ++ spec.word_part color paint word.now) }
{
    let (begin, end) = (paint.begin(color), finish(color));
    write!(printed, "{begin}{word}:{end} ")
}

fn push_message(printed: &mut String, message: &str) -> Result<(), AllocError>
    ensures { OnOk result (string_bytes printed.new ≡ string_bytes printed.old ++ spec.message_part message.now) }
{
    push_escaped(printed, message, Target::Line)?;
    printed.push_str("\n")?;
    Ok(())
}

fn push_hints(printed: &mut String, hints: &[Hint], color: bool) -> Result<(), AllocError>
    ensures { OnOk result (string_bytes printed.new ≡ string_bytes printed.old ++ spec.hint_lines color hints.now) }
{
    for hint in hints {
        printed.push_str("  ")?;
        push_word(printed, "hint", Paint::Hint, color)?;
        push_message(printed, hint.message())?;
    }
    Ok(())
}
