//! Streams over memory.

ghost use Rattle.std.specs.Prelude.{◌≤◌};

use std::alloc::Global;
use std::io::{self, ErrorKind, Read, Write};

/// How a stream goes on from call to call.
#[derive(Debug, Clone, Copy)]
pub enum Pace {
    /// All that fits at once.
    Whole,
    /// A byte at a time.
    Bytes,
    /// A byte at a time, and before each an interruption.
    Interrupted,
}

/// All paces.
pub const PACES: [Pace; 3] = [Pace::Whole, Pace::Bytes, Pace::Interrupted];

impl Pace {
    /// Whether the call is to be interrupted, which every other call is.
    pub fn interrupts(self, is_resumed: &mut bool) -> bool {
        let interrupts = matches!(self, Pace::Interrupted) && !*is_resumed;
        *is_resumed = interrupts;
        interrupts
    }

    /// How many of a given number of bytes are given or taken at once.
    pub fn at_once(self, count: usize) -> usize
        ensures { result ≤ count }
    {
        match self {
            Pace::Whole => count,
            Pace::Bytes | Pace::Interrupted => count.min(1),
        }
    }
}

/// Gives its bytes, and then fails or ends.
#[derive(Clone, Copy)]
pub struct Reader<'a> {
    bytes: &'a [u8],
    pace: Pace,
    fails: bool,
    is_resumed: bool,
}

impl Reader<'_> {
    /// A reader that ends after the bytes.
    pub fn ending(bytes: &[u8], pace: Pace) -> Reader<'_> {
        Reader {
            bytes,
            pace,
            fails: false,
            is_resumed: false,
        }
    }

    /// A reader that fails after the bytes.
    pub fn failing(bytes: &[u8], pace: Pace) -> Reader<'_> {
        Reader {
            bytes,
            pace,
            fails: true,
            is_resumed: false,
        }
    }
}

impl Read for Reader<'_> {
    fn read(&mut self, buf: &mut [u8]) -> io::Result<usize> {
        if self.pace.interrupts(&mut self.is_resumed) {
            return Err(io::Error::from(ErrorKind::Interrupted));
        }
        if self.bytes.is_empty() && self.fails {
            return Err(io::Error::from(ErrorKind::BrokenPipe));
        }
        let count = self.pace.at_once(self.bytes.len().min(buf.len()));
        let (given, rest) = self.bytes.split_at(count);
        buf[..count].copy_from_slice(given);
        self.bytes = rest;
        Ok(count)
    }
}

/// What a flush answers.
#[derive(Clone, Copy)]
pub enum Flush {
    /// It passes on what was written.
    Passes,
    /// It fails.
    Fails,
}

/// What a writer answers where it has no room.
#[derive(Clone, Copy)]
pub enum Full {
    /// It fails.
    Fails,
    /// It takes nothing.
    TakesNothing,
}

/// What a writer takes.
#[derive(Clone, Copy)]
pub struct Room {
    /// How many bytes it has room for.
    pub bytes: usize,
    pub pace: Pace,
    pub flush: Flush,
    pub full: Full,
}

impl Room {
    /// Room for so many bytes, after which writes fail.
    pub fn of(bytes: usize, pace: Pace) -> Room {
        Room {
            bytes,
            pace,
            flush: Flush::Passes,
            full: Full::Fails,
        }
    }

    /// Room for all that tests write.
    pub fn ample(pace: Pace) -> Room {
        Room::of(100_000, pace)
    }
}

/// Takes bytes while it has room for them, and passes on what it took only where it is flushed.
#[derive(Drop)]
pub struct Writer {
    taken: Vec<u8>,
    passed: usize,
    room: Room,
    is_resumed: bool,
}

impl Writer {
    /// A writer with this room.
    pub fn new(alloc: Global, room: Room) -> Writer {
        Writer {
            taken: Vec::new(alloc),
            passed: 0,
            room,
            is_resumed: false,
        }
    }

    /// What it took.
    pub fn taken(&self) -> &[u8] {
        self.taken.as_slice()
    }

    /// What it passed on.
    pub fn passed(&self) -> &[u8] {
        &self.taken[..self.passed.min(self.taken.len())]
    }
}

impl Write for Writer {
    fn write(&mut self, buf: &[u8]) -> io::Result<usize> {
        if self.room.pace.interrupts(&mut self.is_resumed) {
            return Err(io::Error::from(ErrorKind::Interrupted));
        }
        if self.room.bytes == 0 && !buf.is_empty() && matches!(self.room.full, Full::Fails) {
            return Err(io::Error::from(ErrorKind::BrokenPipe));
        }
        let count = self.room.pace.at_once(buf.len().min(self.room.bytes));
        self.taken.extend_from_slice(&buf[..count])?;
        self.room.bytes -= count;
        Ok(count)
    }

    fn flush(&mut self) -> io::Result<()> {
        if self.room.pace.interrupts(&mut self.is_resumed) {
            return Err(io::Error::from(ErrorKind::Interrupted));
        }
        if matches!(self.room.flush, Flush::Fails) {
            return Err(io::Error::from(ErrorKind::BrokenPipe));
        }
        self.passed = self.taken.len();
        Ok(())
    }
}
