//! Reading frames.
ghost use Rattle.std.specs.Prelude.{◌≡◌, None, IfErr, IfOk, IfSome, OnOk, length, true};
ghost use Rattle.std.specs.Io.KnownBytes.{Consumes};
ghost use Rattle.typst_protocol.specs.Stream.{Answers, IsShort, Reads, ReadsHead};

use crate::frames::bytes::{fill, is_at_end, read_line, skip};
use crate::frames::header::length_after;
use std::alloc::{AllocError, Global};
use std::io::{BufRead, BufReader, Read};
use std::marker::Model;

/// The longest body that is read, in bytes: 64 MiB.
pub const LONGEST_BODY: usize = 64 << 20;

/// How many lines a head has at most, with the empty one that ends it.
const LINES: usize = 64;

/// How many bytes a line of a head has at most, with its CR LF.
const LINE: usize = 1024;

/// What was read.
#[derive(Debug, Clone, Copy, PartialEq, Eq)]
pub enum Frame {
    /// A frame, whose body is held now.
    Body,
    /// A frame whose body is longer than `LONGEST_BODY`, and was skipped.
    TooLong,
    /// A frame whose body was skipped, since the memory for it was refused.
    OutOfMemory,
}

/// Why there are no more frames.
#[derive(Debug, Clone, Copy, PartialEq, Eq)]
pub enum End {
    /// The input ended, and not inside a frame.
    Clean,
    /// A head doesn't say how long its body is, says it in two ways, has a line without a colon, or is too
    /// long.
    Malformed,
    /// The input ended inside a frame.
    CutOff,
    /// The input couldn't be read.
    NotRead,
}

/// Reads frames, one after the other.
#[derive(Drop)]
pub struct FrameReader<R: Read + Drop> {
    reader: BufReader<R>,
    end: Option<End>,
}

impl<R: Read + Drop> Model for FrameReader<R> {
    ghost use Rattle.std.specs.Io.Buffered.{reader_remaining};
    ghost use Rattle.typst_protocol.specs.Stream.{Stream};

    ghost Value = { Stream };

    ghost view = { λ a. record { left = reader_remaining R.remaining a.reader; end = a.end } };
}

impl<R: Read + Drop> FrameReader<R> {
    /// The frames that a reader gives, which is read some bytes ahead.
    pub fn new(alloc: Global, reader: R) -> Result<FrameReader<R>, AllocError>
        ensures left { IfOk result (λ frames. frames.left ≡ R.remaining reader) }
        ensures end { IfOk result (λ frames. frames.end ≡ None) }
    {
        match BufReader::new(alloc, reader) {
            Ok(reader) => Ok(FrameReader { reader, end: None }),
            Err(_) => Err(AllocError),
        }
    }

    /// Reads the next frame. Its body takes the place of what `body` holds. After an end there is the same
    /// end again.
    pub fn read_frame(&mut self, body: &mut Vec<u8>) -> Result<Frame, End>
        ensures { Reads self.old self.new result body.new.items }
    {
        if let Some(end) = self.end {
            return Err(end);
        }
        let answer = read_frame(&mut self.reader, body);
        if let Err(end) = answer {
            self.end = Some(end);
        }
        answer
    }
}

/// Reads a frame.
fn read_frame<R: BufRead>(reader: &mut R, body: &mut Vec<u8>) -> Result<Frame, End>
    ensures { IfSome (R.remaining reader.old) (λ bytes. Answers bytes result body.new.items (R.remaining reader.new)) }
{
    if is_at_end(reader)? {
        return Err(End::Clean);
    }
    let length = read_head(reader)?;
    if length > LONGEST_BODY {
        skip(reader, length)?;
        return Ok(Frame::TooLong);
    }
    if make_room(body, length) {
        fill_all(reader, body)?;
        return Ok(Frame::Body);
    }
    skip(reader, length)?;
    Ok(Frame::OutOfMemory)
}

/// Makes a buffer as long as a body.
fn make_room(body: &mut Vec<u8>, size: usize) -> bool
    ensures { result ≡ true → length body.new.items ≡ size }
{
    body.resize(size, 0).is_ok()
}

/// Reads bytes till the buffer is full.
fn fill_all<R: Read>(reader: &mut R, body: &mut Vec<u8>) -> Result<(), End>
    ensures taken { OnOk result (Consumes (R.remaining reader.old) (R.remaining reader.new) body.new.items) }
    ensures size { length body.new.items ≡ length body.old.items }
    ensures short { IfErr result (λ e. IsShort e (R.remaining reader.old) (length body.old.items)) }
{
    fill(reader, body.as_mut_slice())
}

/// Reads a head, and says how long the body after it is.
fn read_head<R: Read>(reader: &mut R) -> Result<usize, End>
    ensures { IfSome (R.remaining reader.old) (λ bytes. ReadsHead bytes result (R.remaining reader.new)) }
{
    let mut line = [0u8; LINE];
    let mut length = None;
    for _number in 0..LINES {
        let end = read_line(reader, &mut line)?;
        if end == 0 {
            return length.ok_or(End::Malformed);
        }
        length = length_after(&line[..end], length).ok_or(End::Malformed)?;
    }
    Err(End::Malformed)
}
