//! The errors and warnings of a document.
ghost use Rattle.std.specs.Prelude.{◌≡◌, IfOk, map};
ghost use Rattle.std.specs.String.{string_bytes};
ghost use Rattle.typst_features.specs.Problems.{reported};
ghost use Rattle.typst_server.specs.Published as spec;
ghost use Rattle.typst_server.specs.Published.{AreNone, AreProblemsOf, ArePublished, IsNotice, IsPublished, IsShownAt, Publishes, Reports, full_message, severity_number};

use std::alloc::{AllocError, Global};
use std::ops::Range;
use typst_document::{Diagnostic, Document, Extents, Severity, is_line_end};
use typst_protocol::values::{Problem, Problems, Report};
use typst_protocol::{Refusal, json_of, notification};

/// Which errors of a document are shown. Warnings always are.
#[derive(Debug, Clone, Copy, PartialEq, Eq)]
pub enum ShownErrors {
    /// All.
    All,
    /// None that only follows from a delimiter that nothing closes.
    WithoutCascades,
}

/// The method of the notifications that publish errors and warnings.
const PUBLISH: &str = "textDocument/publishDiagnostics";

/// The notification that publishes errors and warnings.
fn notice_of(alloc: Global, problems: &Problems<'_>) -> Result<String, Refusal>
    ensures { IfOk result (λ text. IsNotice problems.now (string_bytes text)) }
{
    let params = json_of(alloc, problems)?;
    Ok(notification(alloc, PUBLISH, params.as_str())?)
}

/// The notification of the errors and warnings of a document, at a version of it.
pub fn publish(
    alloc: Global,
    document: &Document,
    errors: ShownErrors,
    uri: &str,
    version: Option<i64>,
) -> Result<String, Refusal>
    ensures { IfOk result (λ text. Publishes (AreProblemsOf errors document.now uri.now version) (string_bytes text)) }
{
    notice_of(alloc, &problems_of(alloc, document, errors, uri, version)?)
}

/// The notification that a document has no errors and warnings.
pub fn publish_none(alloc: Global, uri: &str) -> Result<String, Refusal>
    ensures { IfOk result (λ text. Publishes (AreNone uri.now) (string_bytes text)) }
{
    notice_of(alloc, &no_problems(alloc, uri))
}

/// The errors and warnings of a document, as a report that answers who asks for them.
pub fn report(alloc: Global, document: &Document, errors: ShownErrors) -> Result<String, Refusal>
    ensures { IfOk result (λ text. Reports errors document.now (string_bytes text)) }
{
    json_of(
        alloc,
        &Report {
            kind: "full",
            items: items_of(alloc, document, errors)?,
        },
    )
}

/// The errors and warnings of a document, at a version of it.
fn problems_of<'a>(
    alloc: Global,
    document: &Document,
    errors: ShownErrors,
    uri: &'a str,
    version: Option<i64>,
) -> Result<Problems<'a>, AllocError>
    ensures { IfOk result (AreProblemsOf errors document.now uri.now version) }
{
    Ok(Problems {
        uri,
        version,
        diagnostics: items_of(alloc, document, errors)?,
    })
}

/// The errors and warnings of a document that are shown, in order, as the protocol has them.
fn items_of(
    alloc: Global,
    document: &Document,
    errors: ShownErrors,
) -> Result<Vec<Problem>, AllocError>
    ensures { IfOk result (λ items. ArePublished document.now (spec.problems_of errors document.now) items.items) }
{
    let found = shown_of(alloc, document, errors)?;
    let mut extents = Extents::new(document);
    let mut items = Vec::new(alloc);
    for problem in &found {
        items.push(published(alloc, document.text(), &mut extents, problem)?)?;
    }
    Ok(items)
}

/// The errors and warnings of a document that are shown, in order.
fn shown_of<'a>(
    alloc: Global,
    document: &'a Document,
    errors: ShownErrors,
) -> Result<Vec<typst_features::Problem<'a>>, AllocError>
    ensures { IfOk result (λ found. map reported found.items ≡ spec.problems_of errors document.now) }
{
    match errors {
        ShownErrors::All => typst_features::problems(alloc, document.root()),
        ShownErrors::WithoutCascades => typst_features::shown_problems(alloc, document.root()),
    }
}

/// None, as of a document that is closed or lost.
fn no_problems<'a>(alloc: Global, uri: &'a str) -> Problems<'a>
    ensures { AreNone uri.now result }
{
    Problems {
        uri,
        version: None,
        diagnostics: Vec::new(alloc),
    }
}

/// An error or a warning as the protocol has it.
fn published(
    alloc: Global,
    text: &str,
    extents: &mut Extents<'_>,
    problem: &typst_features::Problem<'_>,
) -> Result<Problem, AllocError>
    ensures published { IfOk result (IsPublished extents.old (reported problem.now)) }
    ensures document { extents.new ≡ extents.old }
{
    let bytes = widened(text, problem.range.start, problem.range.end);
    Ok(Problem {
        range: extents.of(&bytes),
        severity: number_of(problem.diagnostic.severity()),
        source: "typst",
        message: message_of(alloc, problem.diagnostic)?,
    })
}

/// The protocol's number of a severity.
fn number_of(severity: Severity) -> u8
    ensures { result ≡ severity_number severity }
{
    match severity {
        Severity::Error => 1,
        Severity::Warning => 2,
    }
}

/// The message of an error or a warning, with a line for each hint.
fn message_of(alloc: Global, diagnostic: &Diagnostic) -> Result<String, AllocError>
    ensures { IfOk result (λ text. string_bytes text ≡ full_message diagnostic.now) }
{
    let mut text = String::from_str(alloc, diagnostic.message())?;
    for hint in diagnostic.hints() {
        text.push_str("\nhint: ")?;
        text.push_str(hint.message())?;
    }
    Ok(text)
}

/// Some bytes, and where they are none the character after them: the one before them at the end of a
/// line, and none on an empty line.
fn widened(text: &str, start: usize, end: usize) -> Range<usize>
    ensures { IsShownAt (record { start = start; end = end }) result }
{
    if start < end {
        return start..end;
    }
    let behind = text.get(start..).and_then(|rest| rest.chars().next());
    if let Some(c) = behind.filter(|c| !is_line_end(*c)) {
        return start..start.saturating_add(c.len_utf8());
    }
    let before = text
        .get(..start)
        .and_then(|front| front.chars().next_back());
    match before.filter(|c| !is_line_end(*c)) {
        Some(c) => start.saturating_sub(c.len_utf8())..start,
        None => start..start,
    }
}
