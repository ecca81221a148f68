//! A log of SARIF 2.1.0 that is printed while files are checked.

ghost use Rattle.std.specs.Prelude.{◌≡◌, ◌≢◌, ◌≤◌, IfOk, IfSome, false, true};
ghost use Rattle.std.specs.Io.KnownBytes.{Appends};
ghost use Rattle.json.specs.Value.{value_view};
ghost use Rattle.typst_check.specs.Sarif.{AppendsResult};
ghost use Rattle.typst_report.specs.Reported.{fails};

mod finding;
mod objects;
mod rules;
mod uri;

use json::{Error, Scratch, Value, Writer};
use objects::{write_head, write_result};
use std::alloc::{AllocError, Global};
use std::io::{self, ErrorKind, Read, Write};
use std::str;
use typst_report::check::{Fault, check, tell};
use typst_report::form::{Form, Format, Options};
use typst_report::streams::deliver;
use typst_report::tally::Tally;
use uri::uri_of;

/// The name under which faults are reported of what belongs to no file.
const OUTPUT: &str = "standard output";

/// What ends a log of files that were all checked.
const WHOLE: &[u8] = b"\n],\"invocations\":[{\"executionSuccessful\":true}]}]}\n";

/// What ends a log of files of which one wasn't checked.
const CUT: &[u8] = b"\n],\"invocations\":[{\"executionSuccessful\":false}]}]}\n";

/// A log of what is found in one file after the other.
#[derive(Drop)]
pub struct Log {
    alloc: Global,
    /// The version of the program.
    version: &'static str,
    /// Whether a result was printed.
    has_results: bool,
}

impl Log {
    /// A log of which nothing is printed.
    pub fn new(alloc: Global, version: &'static str) -> Log {
        Log {
            alloc,
            version,
            has_results: false,
        }
    }

    /// Prints what comes before the results, and gives the status: 0, or 2 if it can't be printed.
    pub fn begin<W: Write, E: Write>(
        &self,
        output: &mut W,
        errors: &mut E,
        tally: &mut Tally,
    ) -> u8 {
        match self.head() {
            Ok(head) => print(self.alloc, OUTPUT, head.as_slice(), output, errors, tally),
            Err(_) => tell(self.alloc, errors, OUTPUT, Fault::OutOfMemory),
        }
    }

    /// Checks a text as `check` does, and prints its errors and warnings as results.
    pub fn check<R: Read, W: Write, E: Write>(
        &mut self,
        options: Options,
        name: &str,
        input: &mut R,
        output: &mut W,
        errors: &mut E,
        tally: &mut Tally,
    ) -> u8
        ensures clean { result ≡ 0 → IfSome (R.remaining input.old) (λ text. false ≡ fails options.denies_warnings text) }
        ensures erroneous { result ≡ 1 → IfSome (R.remaining input.old) (λ text. true ≡ fails options.denies_warnings text) }
        ensures status { result ≤ 2 }
    {
        let alloc = self.alloc;
        let options = Options {
            form: Form::Findings(Format::Ndjson),
            ..options
        };
        let mut lines = Vec::new(alloc);
        let status = check(alloc, options, name, input, &mut lines, errors, tally);
        let printed = match self.results(name, lines.as_slice()) {
            Ok(results) => self.print(name, results.as_slice(), output, errors, tally),
            Err(error) => tell(alloc, errors, name, fault_of(error)),
        };
        status.max(printed)
    }

    /// Prints what comes after the results, by whether all files were checked, and gives the status as `begin`
    /// does.
    pub fn end<W: Write, E: Write>(
        &self,
        is_whole: bool,
        output: &mut W,
        errors: &mut E,
        tally: &mut Tally,
    ) -> u8 {
        let end = if is_whole { WHOLE } else { CUT };
        print(self.alloc, OUTPUT, end, output, errors, tally)
    }

    fn head(&self) -> Result<Vec<u8>, AllocError> {
        let mut writer = Writer::new(Vec::new(self.alloc));
        write_head(&mut writer, self.version)?;
        Ok(writer.into_inner())
    }

    /// The results of a file of which `ndjson` prints these lines, each in a line of its own.
    fn results(&self, name: &str, lines: &[u8]) -> Result<Vec<u8>, Error> {
        let uri = uri_of(self.alloc, name)?;
        let Ok(text) = str::from_utf8(lines) else {
            return Err(Error::Invalid);
        };
        let mut scratch = Scratch::new(self.alloc);
        let mut results = Vec::new(self.alloc);
        for line in text.lines() {
            let is_first = results.is_empty() && !self.has_results;
            let line = Value::parse(self.alloc, line, &mut scratch)?;
            results.extend_from_slice(separator(is_first))?;
            results = push_result(results, uri.as_str(), &line)?;
        }
        Ok(results)
    }

    /// Prints results of the file of that name, and gives the status as `begin` does.
    fn print<W: Write, E: Write>(
        &mut self,
        name: &str,
        results: &[u8],
        output: &mut W,
        errors: &mut E,
        tally: &mut Tally,
    ) -> u8
        ensures known { result ≢ 1 }
        ensures status { result ≤ 2 }
    {
        self.has_results = self.has_results || !results.is_empty();
        print(self.alloc, name, results, output, errors, tally)
    }
}

/// What comes before a result.
fn separator(is_first: bool) -> &'static [u8] {
    if is_first { b"\n" } else { b",\n" }
}

/// The results with one more after them, of the file of that address.
fn push_result(results: Vec<u8>, uri: &str, line: &Value) -> Result<Vec<u8>, Error>
    ensures { IfOk result (λ new. AppendsResult uri.now (value_view line.now) results.items new.items) }
{
    let mut writer = Writer::new(results);
    write_result(&mut writer, uri, line)?;
    Ok(writer.into_inner())
}

/// Why no results were made.
fn fault_of(error: Error) -> Fault {
    match error {
        Error::OutOfMemory => Fault::OutOfMemory,
        _ => Fault::NotWritten(io::Error::from(ErrorKind::InvalidData)),
    }
}

/// Prints a part of the log, and gives the status: 0, or 2 with a line on `errors`. If nobody reads the output any
/// more the tally says so, and there is no line.
fn print<W: Write, E: Write>(
    alloc: Global,
    name: &str,
    part: &[u8],
    output: &mut W,
    errors: &mut E,
    tally: &mut Tally,
) -> u8
    ensures all { result ≡ 0 → Appends (W.contents output.old) (W.contents output.new) part.now }
    ensures known { result ≢ 1 }
    ensures status { result ≤ 2 }
{
    match deliver(output, part) {
        Ok(_) => 0,
        Err(error) if error.kind() == ErrorKind::BrokenPipe => {
            tally.is_unheard = true;
            2
        }
        Err(error) => tell(alloc, errors, name, Fault::NotWritten(error)),
    }
}
