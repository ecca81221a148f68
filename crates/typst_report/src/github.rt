//! Errors and warnings as workflow commands of GitHub, which shows them at their lines.

ghost use Rattle.std.specs.Prelude.{◌≡◌, ◌++◌, IfOk, OnOk, map, string_bytes};
ghost use Rattle.typst_report.specs.Github as spec;
ghost use Rattle.typst_report.specs.Placed.{as_placed};

use crate::escape::{Target, push_escaped};
use crate::located::Located;
use crate::place::LineColumn;
use std::alloc::{AllocError, Global};
use typst_kinds::Hint;

/// A command for each finding.
pub fn commands_of(alloc: Global, name: &str, located: &[Located]) -> Result<String, AllocError>
    ensures { IfOk result (λ printed. string_bytes printed ≡ spec.commands name.now (map as_placed located.now)) }
{
    let mut printed = String::new(alloc);
    for one in located {
        push_command(&mut printed, name, one)?;
    }
    Ok(printed)
}

/// Adds the command of a finding. Its hints are in the message, each in a line of its own.
fn push_command(printed: &mut String, name: &str, located: &Located) -> Result<(), AllocError>
    ensures { OnOk result (string_bytes printed.new ≡ string_bytes printed.old ++ spec.command name.now (as_placed located.now)) }
{
    let finding = &located.finding;
    push_file(printed, finding.severity(), name)?;
    push_range(printed, located.start, located.end)?;
    push_escaped(printed, finding.message(), Target::Message)?;
    push_hints(printed, finding.hints())?;
    printed.push_str("\n")?;
    Ok(())
}

fn push_file(printed: &mut String, word: &str, name: &str) -> Result<(), AllocError>
    ensures { OnOk result (string_bytes printed.new ≡ string_bytes printed.old ++ spec.file_part word.now name.now) }
{
    write!(printed, "::{word} file=")?;
    push_escaped(printed, name, Target::Property)
}

fn push_range(printed: &mut String, start: LineColumn, end: LineColumn) -> Result<(), AllocError>
    ensures { OnOk result (string_bytes printed.new ≡ string_bytes printed.old ++ spec.range_part start end) }
{
    let (line, end_line) = (start.line, end.line);
    let (column, end_column) = (start.column, end.column);
    write!(
        printed,
        ",line={line},endLine={end_line},col={column},endColumn={end_column}::"
    )
}

fn push_hints(printed: &mut String, hints: &[Hint]) -> Result<(), AllocError>
    ensures { OnOk result (string_bytes printed.new ≡ string_bytes printed.old ++ spec.hint_parts hints.now) }
{
    for hint in hints {
        printed.push_str("%0Ahint: ")?;
        push_escaped(printed, hint.message(), Target::Message)?;
    }
    Ok(())
}
