//! What is printed about a text.

ghost use Rattle.std.specs.Prelude.{◌≡◌, IfOk, map};
ghost use Rattle.typst_report.specs.Found.{as_reported};
ghost use Rattle.typst_report.specs.Checked.{PrintsShown, PrintsReported};
ghost use Rattle.typst_report.specs.Reported.{any_error, error_count, first};

use crate::finding::{Finding, findings};
use crate::form::{Form, Format};
use crate::located::locate;
use crate::tally::Counts;
use crate::{github, ndjson, page, short, tree_lines};
use std::alloc::{AllocError, Global};
use typst_grammar::parse;
use typst_lines::{Lines, UnicodeClasses};
use typst_tree::SyntaxNode;

/// What is printed about a text, and what was found in it.
#[derive(Drop)]
pub struct Report {
    pub printed: Vec<u8>,
    pub has_errors: bool,
    pub counts: Counts,
}

impl Report {
    ghost use Rattle.std.specs.Prelude.{◌≡◌, ◌&&◌, ◌||◌, nat_lt, IfOk};
    ghost use Rattle.std.specs.Str.{chars};
    ghost use Rattle.typst_report.specs.Checked.{IsCounted, Prints, PrintsUpTo};
    ghost use Rattle.typst_report.specs.Reported.{has_error};
    ghost use Rattle.typst_lines.specs.UnicodeTables.{unicode_classes};
    ghost use Rattle.typst_grammar.specs.Grammar.{tree};

    /// What the form prints about a text of that name, with all errors and warnings.
    pub fn of_text(alloc: Global, form: Form, name: &str, text: &str) -> Result<Report, AllocError>
        ensures errors { IfOk result (λ report. report.has_errors ≡ has_error text.now) }
        ensures printed { IfOk result (λ report. Prints form name.now text.now (tree unicode_classes (chars text.now)) report.printed.items) }
    {
        Report::limited(alloc, form, None, name, text)
    }

    /// What the form prints about a text of that name, with so many errors and warnings at most.
    pub fn limited(
        alloc: Global,
        form: Form,
        most: Option<usize>,
        name: &str,
        text: &str,
    ) -> Result<Report, AllocError>
        ensures errors { IfOk result (λ report. report.has_errors ≡ has_error text.now) }
        ensures counts { IfOk result (λ report. IsCounted text.now report.counts) }
        ensures printed { IfOk result (λ report. PrintsUpTo form most name.now text.now (tree unicode_classes (chars text.now)) report.printed.items) }
    {
        let root = parse(alloc, text, &UnicodeClasses)?;
        let lines = Lines::new(alloc, text)?;
        let found = findings(alloc, &root)?;
        let printed = print(alloc, form, name, &root, &lines, first(&found, most))?;
        Ok(Report {
            printed,
            has_errors: any_error(&found),
            counts: Counts {
                errors: count_errors(&found),
                findings: found.len(),
            },
        })
    }

    /// Whether the text fails: it has an error or, if warnings are denied, a warning.
    pub fn fails(&self, denies_warnings: bool) -> bool
        ensures { result ≡ (self.now.has_errors || (denies_warnings && nat_lt 0 self.now.counts.findings)) }
    {
        self.has_errors || denies_warnings && self.counts.findings > 0
    }
}

/// The first of the findings, so many at most.
fn first<'f, 't>(found: &'f [Finding<'t>], most: Option<usize>) -> &'f [Finding<'t>]
    ensures { map as_reported result.now ≡ first most (map as_reported found.now) }
{
    match most {
        None => found,
        Some(most) => &found[..most.min(found.len())],
    }
}

/// How many errors are among the findings.
fn count_errors(found: &[Finding]) -> usize
    ensures { result ≡ error_count (map as_reported found.now) }
{
    let mut errors = 0;
    for finding in found {
        errors += usize::from(finding.is_error());
    }
    errors
}

/// Whether an error is among the findings.
fn any_error(found: &[Finding]) -> bool
    ensures { result ≡ any_error (map as_reported found.now) }
{
    for finding in found {
        if finding.is_error() {
            return true;
        }
    }
    false
}

/// What a form prints about a text of that name and tree, if these findings are to be shown.
fn print(
    alloc: Global,
    form: Form,
    name: &str,
    root: &SyntaxNode,
    lines: &Lines<&str>,
    found: &[Finding],
) -> Result<Vec<u8>, AllocError>
    ensures { IfOk result (λ printed. PrintsShown form name.now lines.now (map as_reported found.now) root.now printed.items) }
{
    match form {
        Form::Findings(format) => print_findings(alloc, format, name, lines, found),
        Form::Tree => tree_lines::lines_of(alloc, root),
        Form::Page => page::page_of(alloc, name, root, lines, found),
        Form::Nothing => Ok(Vec::new(alloc)),
    }
}

/// The findings of a text of that name in a format.
fn print_findings(
    alloc: Global,
    format: Format,
    name: &str,
    lines: &Lines<&str>,
    found: &[Finding],
) -> Result<Vec<u8>, AllocError>
    ensures { IfOk result (λ printed. PrintsReported format name.now lines.now (map as_reported found.now) printed.items) }
{
    let located = locate(alloc, lines, found)?;
    match format {
        Format::Short { color } => Ok(short::lines_of(alloc, name, &located, color)?.into_bytes()),
        Format::Ndjson => ndjson::lines_of(alloc, name, &located),
        Format::Github => Ok(github::commands_of(alloc, name, &located)?.into_bytes()),
    }
}
