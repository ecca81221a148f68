//! What the program is asked about a text.
ghost use Rattle.std.specs.Prelude.{◌≡◌, IfOk};
ghost use Rattle.std.specs.String.{string_bytes};
ghost use Rattle.typst_cli.specs.Printed.{command_named, printed};

use std::alloc::{AllocError, Global};
use typst_parser::UnicodeClasses;
use typst_report::{html, lines, tree};

/// What the program is asked about a text.
#[derive(Debug, Clone, Copy, PartialEq, Eq)]
pub enum Command {
    /// Where the lines of the text start.
    Lines,
    /// The syntax tree of the text.
    Tree,
    /// The text as HTML.
    Html,
}

impl Command {
    /// The command that a word names.
    pub fn from_word(word: &str) -> Option<Command>
        ensures { result ≡ command_named word.now }
    {
        match word {
            "lines" => Some(Command::Lines),
            "tree" => Some(Command::Tree),
            "html" => Some(Command::Html),
            _ => None,
        }
    }

    /// The whole answer about a text.
    pub fn answer(self, alloc: Global, text: &str) -> Result<String, AllocError>
        ensures { IfOk result (λ answer. string_bytes answer ≡ printed self text.now) }
    {
        match self {
            Command::Lines => lines::answer(alloc, text),
            Command::Tree => tree::answer(alloc, text, &UnicodeClasses),
            Command::Html => html::answer(alloc, text, &UnicodeClasses),
        }
    }
}
