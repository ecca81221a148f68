//! Why the program failed.
ghost use Rattle.std.specs.Prelude.{◌≡◌, OnOk};
ghost use Rattle.std.specs.Io.KnownBytes.{Appends};
ghost use Rattle.typst_report.specs.Streams.{Begins};
ghost use Rattle.typst_cli.specs.Faults.{failure_from, failure_of, line_of, status_of};
ghost use Rattle.typst_cli.specs.declared.failure.Failure.TheVariants as failure;

use std::alloc::{AllocError, AllocFailed};
use std::io::{self, Write};
use typst_parser::SourceError;
use typst_report::streams::{Delivered, Unread, deliver};

/// What went wrong, in the order in which it is looked for; lack of memory is met anywhere.
#[derive(Debug, Clone, Copy, PartialEq, Eq)]
pub enum Failure {
    /// The words are none that the program knows.
    Usage,
    /// Standard input couldn't be read.
    NotRead,
    /// The text isn't UTF-8.
    NotUtf8,
    /// The range isn't one of the text.
    BadRange,
    /// The tree has more nodes than there are span numbers.
    OutOfSpanNumbers,
    /// A request for memory was refused.
    OutOfMemory,
    /// The answer couldn't be written.
    NotWritten,
}

impl From<AllocError> for Failure {
    ghost from_gives = { λ _ made. made ≡ failure.OutOfMemory };

    fn from(_error: AllocError) -> Failure {
        Failure::OutOfMemory
    }
}

impl<T: Drop> From<AllocFailed<T>> for Failure {
    ghost from_gives = { λ _ made. made ≡ failure.OutOfMemory };

    fn from(_error: AllocFailed<T>) -> Failure {
        Failure::OutOfMemory
    }
}

impl From<Unread> for Failure {
    ghost from_gives = { λ unread made. made ≡ failure_of unread };

    fn from(unread: Unread) -> Failure {
        match unread {
            Unread::Failed(_) => Failure::NotRead,
            Unread::OutOfMemory => Failure::OutOfMemory,
        }
    }
}

impl From<SourceError> for Failure {
    ghost from_gives = { λ error made. made ≡ failure_from error };

    fn from(error: SourceError) -> Failure {
        match error {
            SourceError::OutOfMemory => Failure::OutOfMemory,
            SourceError::SpanNumbers => Failure::OutOfSpanNumbers,
        }
    }
}

impl Failure {
    /// The program's exit status.
    pub fn status(self) -> u8
        ensures { result ≡ status_of self }
    {
        match self {
            Failure::Usage => 2,
            _ => 1,
        }
    }

    /// The line on standard error.
    pub fn line(self) -> &'static str
        ensures { result.now ≡ line_of self }
    {
        match self {
            Failure::Usage => "usage: typst_syn lines | tree | html | edit START END TEXT\n",
            Failure::NotRead => "read failed\n",
            Failure::NotUtf8 => "not UTF-8\n",
            Failure::BadRange => "bad range\n",
            Failure::OutOfSpanNumbers => "out of span numbers\n",
            Failure::OutOfMemory => "out of memory\n",
            Failure::NotWritten => "write failed\n",
        }
    }

    /// Reports the failure and gives the status, even if the line can't be written.
    pub fn report<E: Write>(self, errors: &mut E) -> u8
        ensures status { result ≡ status_of self }
        ensures line { Begins (E.contents errors.old) (E.contents errors.new) (line_of self) }
    {
        let _ = self.tell(errors);
        self.status()
    }

    /// Writes and flushes the line on the failure, which takes no memory.
    pub fn tell<E: Write>(self, errors: &mut E) -> io::Result<Delivered>
        ensures whole { OnOk result (Appends (E.contents errors.old) (E.contents errors.new) (line_of self)) }
        ensures begins { Begins (E.contents errors.old) (E.contents errors.new) (line_of self) }
    {
        deliver(errors, self.line().as_bytes())
    }
}
