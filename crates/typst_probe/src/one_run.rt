//! The words `run` and `run-cut`. The first line of a row's text has the program's words with a space between two, and
//! its input comes after that line.

use crate::bytes::bytes_of;
use std::alloc::{AllocError, Global};
use std::str;
use typst_edited::cli::run;
use typst_fakes::streams::{Flush, PACES, Pace, Reader, Room, Writer};
use typst_rows::with_line_feeds;

/// How many bytes an input has at most that is given a byte at a time, too.
const SHORT: usize = 1000;

/// What a run of the program `typst_syn` comes to.
#[derive(Drop)]
struct Outcome {
    status: u8,
    output: Writer,
    errors: Writer,
}

impl Outcome {
    /// What a run with these words comes to where the output has this room.
    fn of(alloc: Global, words: &[&str], input: Reader<'_>, room: Room) -> Outcome {
        let (mut input, mut output) = (input, Writer::new(alloc, room));
        let mut errors = Writer::new(alloc, Room::ample(Pace::Interrupted));
        let status = run(alloc, words, &mut input, &mut output, &mut errors);
        Outcome {
            status,
            output,
            errors,
        }
    }

    /// Whether it ended with this status, wrote this to its output, which it passed on where the status is 0, and
    /// told this.
    fn is(&self, status: u8, written: &[u8], told: &[u8]) -> bool {
        let passed = if status == 0 { written } else { b"" };
        let is_written = self.output.taken() == written && self.output.passed() == passed;
        self.status == status && is_written && self.errors.passed() == told
    }

    /// Prints its status, and what it wrote to its output and to its errors, where that is anything.
    fn print(&self, printed: &mut String) -> Result<(), AllocError> {
        let status = self.status;
        writeln!(printed, "status {status}")?;
        print_part(printed, "output", self.output.taken())?;
        print_part(printed, "errors", self.errors.passed())
    }
}

/// Prints what was written, below its name, where that is anything.
pub fn print_part(printed: &mut String, name: &str, written: &[u8]) -> Result<(), AllocError> {
    if written.is_empty() {
        return Ok(());
    }
    let text = str::from_utf8(written).unwrap_or("not UTF-8\n");
    write!(printed, "{name}:\n{text}")
}

/// The words of a line, which has none where it is empty.
fn words_of(alloc: Global, line: &str) -> Result<Vec<&str>, AllocError> {
    let mut words = Vec::new(alloc);
    if line.is_empty() {
        return Ok(words);
    }
    for word in line.split(' ') {
        words.push(word)?;
    }
    Ok(words)
}

/// Prints what a run comes to: its status, and what it writes to its output and to its errors, where that is anything;
/// and the first pace at which it comes to something else.
pub fn print(alloc: Global, printed: &mut String, text: &str) -> Result<(), AllocError> {
    let (line, text) = text.split_once('\n').unwrap_or((text, ""));
    let line = with_line_feeds(alloc, line)?;
    let words = words_of(alloc, line.as_str())?;
    print_run(alloc, printed, words.as_slice(), text.as_bytes())
}

/// Prints what a run comes to with these words and this input.
fn print_run(
    alloc: Global,
    printed: &mut String,
    words: &[&str],
    bytes: &[u8],
) -> Result<(), AllocError> {
    let input = Reader::ending(bytes, Pace::Whole);
    let whole = Outcome::of(alloc, words, input, Room::ample(Pace::Whole));
    whole.print(printed)?;
    match unlike_pace(alloc, words, bytes, &whole) {
        Some((reading, writing)) => writeln!(printed, "not so at {reading:?} and {writing:?}"),
        None => Ok(()),
    }
}

/// The first pace of reading and of writing at which a run doesn't come to what another one came to.
fn unlike_pace(
    alloc: Global,
    words: &[&str],
    bytes: &[u8],
    whole: &Outcome,
) -> Option<(Pace, Pace)> {
    let (written, told) = (whole.output.taken(), whole.errors.passed());
    for reading in PACES {
        if bytes.len() > SHORT && !matches!(reading, Pace::Whole) {
            continue;
        }
        for writing in PACES {
            let input = Reader::ending(bytes, reading);
            let other = Outcome::of(alloc, words, input, Room::ample(writing));
            if !other.is(whole.status, written, told) {
                return Some((reading, writing));
            }
        }
    }
    None
}

/// Prints what a run comes to that can write nothing: first where its input fails after what it has, and then where
/// it ends. The last line has at how many places of its input it tells that reading fails, and at how many of its
/// output that writing fails. Each character of the input is the byte of its number.
pub fn print_cut(alloc: Global, printed: &mut String, text: &str) -> Result<(), AllocError> {
    let (line, text) = text.split_once('\n').unwrap_or((text, ""));
    let (words, bytes) = (words_of(alloc, line)?, bytes_of(alloc, text)?);
    print_faults(alloc, printed, words.as_slice(), bytes.as_slice())
}

/// Prints what a run with these words comes to where its input or its output fails.
fn print_faults(
    alloc: Global,
    printed: &mut String,
    words: &[&str],
    bytes: &[u8],
) -> Result<(), AllocError> {
    let failing = Reader::failing(bytes, Pace::Interrupted);
    for input in [failing, Reader::ending(bytes, Pace::Whole)] {
        Outcome::of(alloc, words, input, Room::of(0, Pace::Whole)).print(printed)?;
    }
    let reads = failed_reads(alloc, words, bytes);
    let writes = failed_writes(alloc, words, bytes);
    writeln!(printed, "{reads} reads fail, {writes} writes fail")
}

/// After how many beginnings of its input a run tells that reading fails, and writes nothing.
fn failed_reads(alloc: Global, words: &[&str], bytes: &[u8]) -> usize {
    let mut fail = 0usize;
    for end in 0..bytes.len().saturating_add(1) {
        let given = bytes.get(..end).unwrap_or(bytes);
        let input = Reader::failing(given, Pace::Interrupted);
        let outcome = Outcome::of(alloc, words, input, Room::ample(Pace::Whole));
        fail = fail.saturating_add(usize::from(outcome.is(1, b"", b"read failed\n")));
    }
    fail
}

/// After how many beginnings of its output a run tells that writing fails: where there is no more room for it, or
/// where all was written and isn't passed on.
fn failed_writes(alloc: Global, words: &[&str], bytes: &[u8]) -> usize {
    let input = Reader::ending(bytes, Pace::Whole);
    let whole = Outcome::of(alloc, words, input, Room::ample(Pace::Whole));
    let answer = whole.output.taken();
    let mut fail = 0usize;
    for end in 0..answer.len().saturating_add(1) {
        let mut room = Room::of(end, Pace::Interrupted);
        if end == answer.len() {
            room.flush = Flush::Fails;
        }
        let outcome = Outcome::of(alloc, words, input, room);
        let taken = answer.get(..end).unwrap_or(answer);
        fail = fail.saturating_add(usize::from(outcome.is(1, taken, b"write failed\n")));
    }
    fail
}
