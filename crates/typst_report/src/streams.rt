//! Reading all of a reader, and delivering all of an answer.
ghost use Rattle.std.specs.Prelude.{◌≡◌, ◌↔◌, IfOk, IfErr, IsFalse, OnOk, IfSome};
ghost use Rattle.std.specs.Io.KnownBytes.{Appends, Keeps};
ghost use Rattle.typst_report.specs.Streams.{Begins, IsFinal, IsFinalRead};
ghost use Rattle.typst_report.specs.declared.streams.Unread.TheVariants as unread;

use std::alloc::{AllocError, Global};
use std::io::{self, ErrorKind, Read, Write};

/// Why not all of the input was read.
#[derive(Debug, Drop)]
pub enum Unread {
    /// A read failed, with that error.
    Failed(io::Error),
    /// A request for memory was refused.
    OutOfMemory,
}

impl From<AllocError> for Unread {
    ghost from_gives = { λ _ made. made ≡ unread.OutOfMemory };

    fn from(_error: AllocError) -> Unread {
        Unread::OutOfMemory
    }
}

/// All that the reader gives. A read that was interrupted is made again.
pub fn read_all<R: Read>(alloc: Global, input: &mut R) -> Result<Vec<u8>, Unread>
    ensures bytes { IfOk result (λ bytes. IfSome (R.remaining input.old) (λ all. bytes.items ≡ all)) }
    ensures retried { IfErr result IsFinalRead }
{
    let mut bytes = Vec::new(alloc);
    let mut buffer = [0u8; 8192];
    for _turn in 0..u64::MAX {
        match input.read(&mut buffer) {
            Ok(0) => return Ok(bytes),
            Ok(count) => bytes.extend_from_slice(&buffer[..count])?,
            Err(error) if is_interrupted(&error) => {}
            Err(error) => return Err(Unread::Failed(error)),
        }
    }
    Err(Unread::Failed(too_many_turns()))
}

/// Shows that bytes were written and then flushed: only `deliver` makes one.
#[derive(Debug, Drop)]
pub struct Delivered {
    flushed: (),
}

/// Writes the bytes, and flushes them. After an error a beginning of them was written.
pub fn deliver<W: Write>(output: &mut W, bytes: &[u8]) -> io::Result<Delivered>
    ensures all { OnOk result (Appends (W.contents output.old) (W.contents output.new) bytes.now) }
    ensures begins { Begins (W.contents output.old) (W.contents output.new) bytes.now }
    ensures retried { IfErr result IsFinal }
{
    write_bytes(output, bytes)?;
    flush(output)
}

/// Writes the bytes. A write that was interrupted is made again.
fn write_bytes<W: Write>(output: &mut W, bytes: &[u8]) -> io::Result<()>
    ensures all { OnOk result (Appends (W.contents output.old) (W.contents output.new) bytes.now) }
    ensures begins { Begins (W.contents output.old) (W.contents output.new) bytes.now }
    ensures retried { IfErr result IsFinal }
{
    let mut done = 0;
    for _turn in 0..u64::MAX {
        if done == bytes.len() {
            return Ok(());
        }
        match output.write(&bytes[done..]) {
            Ok(0) => return Err(io::Error::from(ErrorKind::WriteZero)),
            Ok(count) => done += count,
            Err(error) if is_interrupted(&error) => {}
            Err(error) => return Err(error),
        }
    }
    Err(too_many_turns())
}

/// Flushes what was written. A flush that was interrupted is made again.
fn flush<W: Write>(output: &mut W) -> io::Result<Delivered>
    ensures kept { Keeps (W.contents output.old) (W.contents output.new) }
    ensures retried { IfErr result IsFinal }
{
    for _turn in 0..u64::MAX {
        match output.flush() {
            Ok(flushed) => return Ok(Delivered { flushed }),
            Err(error) if is_interrupted(&error) => {}
            Err(error) => return Err(error),
        }
    }
    Err(too_many_turns())
}

/// Whether the call that failed with this error has to be made again.
fn is_interrupted(error: &io::Error) -> bool
    ensures { IsFalse result ↔ IsFinal error.now }
{
    error.kind() == ErrorKind::Interrupted
}

/// The error for a stream that was interrupted without an end.
fn too_many_turns() -> io::Error
    ensures { IsFinal result }
{
    io::Error::from(ErrorKind::TimedOut)
}
