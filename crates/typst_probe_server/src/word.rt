//! The words that name what can be asked about a text, or about what a client sends.

mod offered_word;
mod session_word;
mod shown_word;

ghost use Rattle.std.specs.Prelude.{◌≡◌};
ghost use Rattle.typst_probe_server.specs.Words.{word_named};

use crate::word::offered_word::OfferedWord;
use crate::word::session_word::SessionWord;
use crate::word::shown_word::ShownWord;
use std::alloc::{AllocError, Global};
use typst_rows::RowWord;

/// What can be asked.
#[derive(Clone, Copy)]
pub enum Word {
    /// What is shown of a text as a whole.
    Shown(ShownWord),
    /// What is offered at places of it.
    Offered(OfferedWord),
    /// What a session answers.
    Session(SessionWord),
}

impl RowWord for Word {
    fn from_name(name: &str) -> Option<Word>
        ensures { result ≡ word_named name.now }
    {
        if let Some(word) = ShownWord::from_name(name) {
            return Some(Word::Shown(word));
        }
        if let Some(word) = OfferedWord::from_name(name) {
            return Some(Word::Offered(word));
        }
        match SessionWord::from_name(name) {
            Some(word) => Some(Word::Session(word)),
            None => None,
        }
    }

    fn answer(self, alloc: Global, text: &str) -> Result<String, AllocError> {
        match self {
            Word::Shown(word) => word.answer(alloc, text),
            Word::Offered(word) => word.answer(alloc, text),
            Word::Session(word) => word.answer(alloc, text),
        }
    }
}
