//! A session of the language server, with what it wrote about each message.

use crate::sessions::{HEAD, body_of};
use std::alloc::{AllocError, Global};
use std::cell::Cell;
use std::io::{self, ErrorKind, Read, Write};
use std::str;
use typst_server::{ShownErrors, serve};

/// Room for what is written about one frame, in bytes.
const ROOM: usize = 10_000;

/// What the person is warned by.
const WARNING: &str = "\"method\":\"window/showMessage\"";

/// How a body ends that says that a document has no errors and warnings.
const NO_PROBLEMS: &str = "\"diagnostics\":[]}}";

/// Gives frames, one after the other, and counts those that it has begun to give.
#[derive(Drop)]
struct Sender<'a> {
    begun: &'a Cell<usize>,
    frames: &'a [String],
    rest: &'a [u8],
}

impl Read for Sender<'_> {
    fn read(&mut self, buf: &mut [u8]) -> io::Result<usize> {
        if self.rest.is_empty() {
            let begun = self.begun.get();
            self.rest = self.frames.get(begun).map_or(b"", String::as_bytes);
            self.begun.set(begun.saturating_add(1));
        }
        let count = self.rest.len().min(buf.len());
        let (given, rest) = self.rest.split_at(count);
        buf[..count].copy_from_slice(given);
        self.rest = rest;
        Ok(count)
    }
}

/// Takes what is written, by how many frames have begun.
#[derive(Drop)]
struct Recipient<'a> {
    begun: &'a Cell<usize>,
    taken: Vec<Vec<u8>>,
}

impl Write for Recipient<'_> {
    fn write(&mut self, buf: &[u8]) -> io::Result<usize> {
        let Some(taken) = self.taken.get_mut(self.begun.get()) else {
            return Err(io::Error::from(ErrorKind::Other));
        };
        taken.extend_from_slice(buf)?;
        Ok(buf.len())
    }

    fn flush(&mut self) -> io::Result<()> {
        Ok(())
    }
}

/// How a session went.
#[derive(Drop)]
pub struct Session {
    pub status: u8,
    /// How many frames were begun, and one more where it went on after the last.
    begun: usize,
    /// What was written while so many frames were begun.
    taken: Vec<Vec<u8>>,
}

/// Has frames answered. Nothing here takes memory while the server runs.
pub fn exchange(alloc: Global, frames: &[String]) -> Result<Session, AllocError> {
    let mut taken = Vec::new(alloc);
    for _ in 0..=frames.len().saturating_add(1) {
        taken.push(Vec::with_capacity(alloc, ROOM)?)?;
    }
    let begun = Cell::new(0);
    let sender = Sender {
        begun: &begun,
        frames,
        rest: b"",
    };
    let mut recipient = Recipient {
        begun: &begun,
        taken,
    };
    let errors = ShownErrors::WithoutCascades;
    let status = serve(alloc, errors, sender, &mut recipient);
    Ok(Session {
        status,
        begun: begun.get(),
        taken: recipient.taken,
    })
}

impl Session {
    /// Whether it went as another one did.
    pub fn is_same(&self, other: &Session) -> bool {
        self.status == other.status && self.taken == other.taken
    }

    /// What was written about the message of a number.
    fn written(&self, number: usize) -> Option<&str> {
        str::from_utf8(self.taken.get(number.saturating_add(1))?.as_slice()).ok()
    }

    /// The body of the first frame that was written about the message of a number, empty where there is none.
    pub fn body(&self, number: usize) -> Option<&str> {
        let written = self.written(number)?;
        if written.is_empty() {
            return Some("");
        }
        let frames = written.strip_prefix(HEAD)?;
        let (first, _) = frames.split_once(HEAD).unwrap_or((frames, ""));
        body_of(first)
    }

    /// Whether the person is warned about the message of a number, and nothing is reported after that except that
    /// documents have no errors and warnings.
    pub fn tells_loss(&self, number: usize) -> bool {
        let written = self.written(number).unwrap_or("");
        let Some((_, rest)) = written.split_once(WARNING) else {
            return false;
        };
        for frame in rest.split(HEAD).skip(1) {
            if !body_of(frame).unwrap_or("").ends_with(NO_PROBLEMS) {
                return false;
            }
        }
        true
    }

    /// Whether nothing was written while so many frames were begun.
    pub fn is_silent(&self, begun: usize) -> bool {
        self.taken.get(begun).is_some_and(Vec::is_empty)
    }

    /// Whether it ended before anything was read or written.
    pub fn gave_up(&self) -> bool {
        self.begun == 0 && self.status == 1 && self.taken.iter().all(Vec::is_empty)
    }
}

/// What a body says, without its identifier and the name of tokens.
pub fn told(body: &str) -> &str {
    for mark in ["\"data\":", "\"edits\":", "\"result\":"] {
        if let Some((_, told)) = body.split_once(mark) {
            return told;
        }
    }
    body
}
