//! Checking one text, over any reader and writers.

ghost use Rattle.std.specs.Prelude.{◌≡◌, ◌≤◌, IfOk, IfSome, false, true};
ghost use Rattle.typst_report.specs.Checked.{IsChecked, IsCounted, tallied};

use crate::escape::{Target, push_escaped};
use crate::form::Options;
use crate::report::Report;
use crate::streams::{Unread, deliver, read_all};
use crate::tally::{Counts, Tally};
use std::alloc::{AllocError, Global};
use std::io::{self, ErrorKind, Read, Write};

/// Why a file wasn't checked.
#[derive(Debug, Clone, Copy)]
pub enum Fault {
    /// The file's name isn't UTF-8.
    OddName,
    /// The file can't be opened, for that reason.
    NotOpened(io::Error),
    /// The file can't be read, for that reason.
    NotRead(io::Error),
    /// The file isn't UTF-8.
    NotUtf8,
    /// Memory was refused.
    OutOfMemory,
    /// The answer can't be written, for that reason.
    NotWritten(io::Error),
    /// Nobody reads the output any more.
    Unheard,
}

impl From<AllocError> for Fault {
    fn from(_error: AllocError) -> Fault {
        Fault::OutOfMemory
    }
}

impl From<Unread> for Fault {
    fn from(unread: Unread) -> Fault {
        match unread {
            Unread::Failed(reason) => Fault::NotRead(reason),
            Unread::OutOfMemory => Fault::OutOfMemory,
        }
    }
}

impl Fault {
    /// Why an answer wasn't written, by the error.
    fn of_writing(error: io::Error) -> Fault {
        if error.kind() == ErrorKind::BrokenPipe {
            Fault::Unheard
        } else {
            Fault::NotWritten(error)
        }
    }

    /// Adds what the fault says to a line.
    fn push_to(self, line: &mut String) -> Result<(), AllocError> {
        match self {
            Fault::OddName => line.push_str("the name isn't UTF-8")?,
            Fault::NotOpened(reason) => write!(line, "can't be opened: {reason}")?,
            Fault::NotRead(reason) => write!(line, "can't be read: {reason}")?,
            Fault::NotUtf8 => line.push_str("isn't UTF-8")?,
            Fault::OutOfMemory => line.push_str("out of memory")?,
            Fault::NotWritten(reason) => write!(line, "the answer can't be written: {reason}")?,
            Fault::Unheard => line.push_str("nobody reads the output")?,
        }
        Ok(())
    }
}

/// Reads a text from `input`, prints to `output` what the options ask of it, and adds to the tally what it has.
/// Gives the status: 0, or 1 if the text fails, or 2 with a line on `errors`. If nobody reads the output any more
/// the tally says so, and there is no line.
pub fn check<R: Read, W: Write, E: Write>(
    alloc: Global,
    options: Options,
    name: &str,
    input: &mut R,
    output: &mut W,
    errors: &mut E,
    tally: &mut Tally,
) -> u8
    ensures clean { result ≡ 0 → IfSome (R.remaining input.old) (λ text. IsChecked options name.now text false (W.contents output.old) (W.contents output.new)) }
    ensures erroneous { result ≡ 1 → IfSome (R.remaining input.old) (λ text. IsChecked options name.now text true (W.contents output.old) (W.contents output.new)) }
    ensures tally { result ≤ 1 → IfSome (R.remaining input.old) (λ text. tally.new ≡ tallied tally.old text) }
    ensures status { result ≤ 2 }
{
    match answer(alloc, options, name, input, output) {
        Ok((fails, counts)) => {
            tally.add(counts);
            u8::from(fails)
        }
        Err(Fault::Unheard) => {
            tally.is_unheard = true;
            2
        }
        Err(fault) => tell(alloc, errors, name, fault),
    }
}

/// Prints what the options ask, and answers whether the text fails, and how much was found in it.
fn answer<R: Read, W: Write>(
    alloc: Global,
    options: Options,
    name: &str,
    input: &mut R,
    output: &mut W,
) -> Result<(bool, Counts), Fault>
    ensures checked { IfOk result (λ found. IfSome (R.remaining input.old) (λ text. IsChecked options name.now text found.0 (W.contents output.old) (W.contents output.new))) }
    ensures counted { IfOk result (λ found. IfSome (R.remaining input.old) (λ text. IsCounted text found.1)) }
{
    let Ok(text) = String::from_utf8(read_all(alloc, input)?) else {
        return Err(Fault::NotUtf8);
    };
    let Options { form, most, .. } = options;
    let report = Report::limited(alloc, form, most, name, text.as_str())?;
    match deliver(output, report.printed.as_slice()) {
        Ok(_) => Ok((report.fails(options.denies_warnings), report.counts)),
        Err(error) => Err(Fault::of_writing(error)),
    }
}

/// Says on `errors` why the file of that name wasn't checked, and gives the status.
pub fn tell<E: Write>(alloc: Global, errors: &mut E, name: &str, fault: Fault) -> u8
    ensures { result ≡ 2 }
{
    if let Ok(line) = line_of(alloc, name, fault) {
        let _ = deliver(errors, line.as_bytes());
    }
    2
}

/// The line that says why the file of that name wasn't checked.
fn line_of(alloc: Global, name: &str, fault: Fault) -> Result<String, AllocError> {
    let mut line = String::from_str(alloc, "typst_check: ")?;
    push_escaped(&mut line, name, Target::Line)?;
    line.push_str(": ")?;
    fault.push_to(&mut line)?;
    line.push_str("\n")?;
    Ok(line)
}
