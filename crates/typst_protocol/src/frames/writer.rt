//! Writing frames.
ghost use Rattle.std.specs.Prelude.{◌≡◌, ℕ, ◌^◌, ◌<◌, ◌++◌, List, decimal, length, OnOk};
ghost use Rattle.std.specs.List.{AllByRecursion, flat_map};
ghost use Rattle.std.specs.Io.KnownBytes.{Appends, Keeps};
ghost use Rattle.typst_protocol.specs.Frames.{Has, frame, written};
ghost use Rattle.typst_protocol.specs.Stream.{Begins};
ghost use Rattle.typst_protocol.specs.declared.frames.reader.End.TheVariants as end;

use crate::frames::bytes::is_interrupted;
use itoa::Buffer;
use std::io::{self, ErrorKind, Write};

/// Writes a frame with a body, in a few pieces, and flushes it. After an error a beginning of the frame was
/// written.
pub fn write_frame<W: Write>(writer: &mut W, body: &[u8]) -> io::Result<()>
    ensures whole { OnOk result (Appends (W.contents writer.old) (W.contents writer.new) (written body.now)) }
    ensures begins { Begins (W.contents writer.old) (W.contents writer.new) (written body.now) }
{
    write_bytes(writer, b"Content-Length: ")?;
    write_number(writer, body.len())?;
    write_bytes(writer, b"\r\n\r\n")?;
    write_bytes(writer, body)?;
    flush(writer)
}

/// A frame that was written is read again, whatever follows it, and so are frames in a row, after which
/// the stream ends clean.
pub fn written_is_read()
    ensures one { (body rest : List ℕ) → length body < 2 ^ 64 → frame (written body ++ rest) ≡ Ok (body, rest) }
    ensures all { (bodies : List (List ℕ)) → AllByRecursion (λ body. length body < 2 ^ 64) bodies → Has (flat_map written bodies) bodies end.Clean }
{}

/// Writes the decimal digits of a number.
fn write_number<W: Write>(writer: &mut W, number: usize) -> io::Result<()>
    ensures whole { OnOk result (Appends (W.contents writer.old) (W.contents writer.new) (decimal number)) }
    ensures begins { Begins (W.contents writer.old) (W.contents writer.new) (decimal number) }
{
    let mut digits = Buffer::new();
    write_bytes(writer, digits.format(number).as_bytes())
}

/// Writes bytes. A write that was interrupted is made again.
fn write_bytes<W: Write>(writer: &mut W, bytes: &[u8]) -> io::Result<()>
    ensures whole { OnOk result (Appends (W.contents writer.old) (W.contents writer.new) bytes.now) }
    ensures begins { Begins (W.contents writer.old) (W.contents writer.new) bytes.now }
{
    let mut done = 0;
    for _turn in 0..u64::MAX {
        if done == bytes.len() {
            return Ok(());
        }
        match writer.write(&bytes[done..]) {
            Ok(0) => return Err(io::Error::from(ErrorKind::WriteZero)),
            Ok(count) => done += count,
            Err(error) if is_interrupted(&error) => {}
            Err(error) => return Err(error),
        }
    }
    Err(io::Error::from(ErrorKind::TimedOut))
}

/// Flushes what was written. A flush that was interrupted is made again.
fn flush<W: Write>(writer: &mut W) -> io::Result<()>
    ensures { Keeps (W.contents writer.old) (W.contents writer.new) }
{
    for _turn in 0..u64::MAX {
        match writer.flush() {
            Ok(()) => return Ok(()),
            Err(error) if is_interrupted(&error) => {}
            Err(error) => return Err(error),
        }
    }
    Err(io::Error::from(ErrorKind::TimedOut))
}
