//! What a session of a language server answers, and what its answers are made by.

ghost use Rattle.std.specs.Prelude.{◌≡◌};
ghost use Rattle.typst_probe_server.specs.Words.{session_word_named};

use crate::{refused, sessions, tokens};
use std::alloc::{AllocError, Global};
use typst_server::ShownErrors;

/// What can be asked about what a client sends.
#[derive(Clone, Copy)]
pub enum SessionWord {
    /// What a session of the language server answers.
    Session,
    /// What one answers that shows all errors.
    SessionAllErrors,
    /// What a session of the language server answers that is cut off.
    SessionCut,
    /// How a session of the language server goes on where memory is refused.
    SessionRefused,
    /// The edit between two lists of numbers, by which it answers for tokens that it sent before.
    Deltas,
}

impl SessionWord {
    /// The word of that name.
    pub fn from_name(name: &str) -> Option<SessionWord>
        ensures { result ≡ session_word_named name.now }
    {
        match name {
            "session" => Some(SessionWord::Session),
            "session-all-errors" => Some(SessionWord::SessionAllErrors),
            "session-cut" => Some(SessionWord::SessionCut),
            "session-refused" => Some(SessionWord::SessionRefused),
            "deltas" => Some(SessionWord::Deltas),
            _ => None,
        }
    }

    /// The whole answer about what a client sends.
    pub fn answer(self, alloc: Global, text: &str) -> Result<String, AllocError> {
        match self {
            SessionWord::Session => sessions::answer(alloc, ShownErrors::WithoutCascades, text),
            SessionWord::SessionAllErrors => sessions::answer(alloc, ShownErrors::All, text),
            SessionWord::SessionCut => sessions::cut_answer(alloc, text),
            SessionWord::SessionRefused => refused::answer(alloc, text),
            SessionWord::Deltas => tokens::delta(alloc, text),
        }
    }
}
