//! The words of the command line, also those that aren't UTF-8.

use std::alloc::Global;
use std::env::{Env, FillError};

/// A word as text.
#[derive(Drop)]
pub struct Word {
    /// The word, with U+FFFD for what isn't UTF-8 in it.
    pub text: String,
    /// Whether the word isn't UTF-8.
    pub is_odd: bool,
}

impl Word {
    /// The word of those bytes.
    pub fn of_bytes(alloc: Global, bytes: &[u8]) -> anyhow::Result<Word> {
        Ok(Word {
            text: String::from_utf8_lossy(alloc, bytes)?,
            is_odd: std::str::from_utf8(bytes).is_err(),
        })
    }
}

/// The words, of which the first is the program's name.
pub fn words_of(rt: &HostRuntime, alloc: Global) -> anyhow::Result<Vec<Word>> {
    let mut words = Vec::new(alloc);
    let mut room = vec![in alloc; 0u8; 4096]?;
    for _ in 0..u64::MAX {
        match rt.arg(words.len(), room.as_mut_slice()) {
            Ok(len) => words.push(Word::of_bytes(alloc, &room[..len])?)?,
            Err(FillError::NotPresent) => break,
            Err(FillError::TooLong) => {
                let more = room.len().saturating_mul(2);
                room.resize(more, 0)?;
            }
        }
    }
    Ok(words)
}
