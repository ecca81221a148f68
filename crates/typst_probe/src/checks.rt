//! The words `check`, `check-run` and `file-names`.

use crate::bytes::{bytes_of, text_of};
use crate::one_run::print_part;
use std::alloc::{AllocError, Global};
use std::str;
use typst_edited::cli::check::check;
use typst_edited::cli::form::{Form, Format, Options};
use typst_edited::cli::names::names_in;
use typst_edited::cli::report::Report;
use typst_edited::cli::tally::Tally;
use typst_fakes::streams::{Pace, Reader, Room, Writer};

/// Prints what the checker does about a text in a form, of a page what stands from its body on; before it a line
/// where the text has no errors. The first line has the words for the form and the name of the file.
pub fn print(alloc: Global, printed: &mut String, text: &str) -> Result<(), AllocError> {
    let (words, text) = text.split_once('\n').unwrap_or((text, ""));
    let (form, name) = words.split_once(' ').unwrap_or((words, ""));
    let Some(form) = form_of(form) else {
        return printed.push_str("no form\n");
    };
    let report = Report::of_text(alloc, form, name, text)?;
    if !report.has_errors {
        printed.push_str("no errors\n")?;
    }
    let text = str::from_utf8(report.printed.as_slice()).unwrap_or("not UTF-8\n");
    let start = match form {
        Form::Page => text.find("<body>").unwrap_or(0),
        _ => 0,
    };
    printed.push_str(text.get(start..).unwrap_or(text))
}

/// The form that a word names.
fn form_of(word: &str) -> Option<Form> {
    match word {
        "short" => Some(Form::Findings(Format::Short { color: false })),
        "short-color" => Some(Form::Findings(Format::Short { color: true })),
        "ndjson" => Some(Form::Findings(Format::Ndjson)),
        "github" => Some(Form::Findings(Format::Github)),
        "tree" => Some(Form::Tree),
        "page" => Some(Form::Page),
        "nothing" => Some(Form::Nothing),
        _ => None,
    }
}

/// Prints what the checker comes to about a file whose content is the text: its status, what it passes on, what it
/// tells, whether nobody reads what it writes, and the line that sums up. The first line has what [`checked_as`] reads.
pub fn print_run(alloc: Global, printed: &mut String, text: &str) -> Result<(), AllocError> {
    let (line, text) = text.split_once('\n').unwrap_or((text, ""));
    let Some((options, room, name)) = checked_as(line) else {
        return printed.push_str("no options\n");
    };
    let mut input = Reader::ending(text.as_bytes(), Pace::Whole);
    let mut output = Writer::new(alloc, Room::of(room, Pace::Bytes));
    let mut errors = Writer::new(alloc, Room::ample(Pace::Whole));
    let mut tally = Tally::new();
    let status = check(
        alloc,
        options,
        name,
        &mut input,
        &mut output,
        &mut errors,
        &mut tally,
    );
    let (output, errors) = (output.passed(), errors.taken());
    print_outcome(alloc, printed, status, output, errors, tally)
}

/// Prints with which status a file was checked, what was passed on and told, and what sums it up.
fn print_outcome(
    alloc: Global,
    printed: &mut String,
    status: u8,
    output: &[u8],
    errors: &[u8],
    tally: Tally,
) -> Result<(), AllocError> {
    writeln!(printed, "status {status}")?;
    print_part(printed, "output", output)?;
    print_part(printed, "errors", errors)?;
    if tally.is_unheard {
        printed.push_str("unheard\n")?;
    }
    printed.push_str(tally.summary(alloc)?.as_str())
}

/// How a file is checked, by a line: the form, how many errors and warnings are printed at most, or `all`, whether
/// warnings are `denied` or `allowed`, for how many bytes the output has room, and the file's name.
fn checked_as(line: &str) -> Option<(Options, usize, &str)> {
    let (form, rest) = line.split_once(' ')?;
    let (most, rest) = rest.split_once(' ')?;
    let (warnings, rest) = rest.split_once(' ')?;
    let (room, name) = rest.split_once(' ')?;
    let options = Options {
        form: form_of(form)?,
        most: most.parse().ok(),
        denies_warnings: warnings == "denied",
    };
    Some((options, room.parse().ok()?, name))
}

/// Prints how many names a list of files has, and a line for each, in quotes. Each character is the byte of its
/// number.
pub fn print_names(alloc: Global, printed: &mut String, text: &str) -> Result<(), AllocError> {
    let list = bytes_of(alloc, text)?;
    let names = names_in(alloc, list.as_slice())?;
    let count = names.len();
    writeln!(printed, "{count} names")?;
    for name in &names {
        let name = text_of(alloc, name.as_slice())?;
        writeln!(printed, "{name:?}")?;
    }
    Ok(())
}
