//! A row: a text, and what is wanted of it.

ghost use Rattle.std.specs.Prelude.{◌≡◌, ◌≢◌, MatchOption, string_bytes};

use crate::row_word::RowWord;
use std::alloc::{AllocError, Global};

/// A text, and what a word is to answer about it.
#[derive(Drop)]
pub struct Row<W: RowWord> {
    /// The number of the line in its file at which its title stands, from 1 on.
    pub line: u64,
    /// What is asked.
    pub word: W,
    /// What it shows, with the word in front.
    pub title: String,
    /// The text.
    pub text: String,
    /// The whole answer that is wanted.
    pub wanted: String,
}

impl<W: RowWord> Row<W> {
    /// The answer, where it isn't what is wanted.
    pub fn differing(&self, alloc: Global) -> Result<Option<String>, AllocError> {
        let answer = self.word.answer(alloc, self.text.as_str())?;
        Ok(unless_equal(answer, self.wanted.as_str()))
    }
}

/// The answer, unless it is what is wanted.
fn unless_equal(answer: String, wanted: &str) -> Option<String>
    ensures { MatchOption result (string_bytes answer ≡ wanted.now) (λ other. (other ≡ answer) × (string_bytes answer ≢ wanted.now)) }
{
    if answer.as_str() == wanted {
        return None;
    }
    Some(answer)
}
