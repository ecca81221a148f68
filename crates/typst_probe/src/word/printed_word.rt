//! What the library `typst_cli` prints about a text.

ghost use Rattle.std.specs.Prelude.{◌≡◌, IfOk, string_bytes};
ghost use Rattle.typst_probe.specs.Words.{printed_as, printed_word_named};

use std::alloc::{AllocError, Global};
use typst_edited::cli::{Command, UnicodeClasses, tree};

/// What is printed about a text.
#[derive(Clone, Copy)]
pub enum PrintedWord {
    /// The syntax tree of the text as markup.
    Tree,
    /// The syntax tree of the text as code.
    TreeCode,
    /// The syntax tree of the text as a formula.
    TreeMath,
    /// Where the lines of the text start.
    Lines,
    /// The text as HTML.
    Html,
}

impl PrintedWord {
    /// The word of that name.
    pub fn from_name(name: &str) -> Option<PrintedWord>
        ensures { result ≡ printed_word_named name.now }
    {
        match name {
            "tree" => Some(PrintedWord::Tree),
            "tree-code" => Some(PrintedWord::TreeCode),
            "tree-math" => Some(PrintedWord::TreeMath),
            "lines" => Some(PrintedWord::Lines),
            "html" => Some(PrintedWord::Html),
            _ => None,
        }
    }

    /// The whole answer about a text.
    pub fn answer(self, alloc: Global, text: &str) -> Result<String, AllocError>
        ensures { IfOk result (λ answer. string_bytes answer ≡ printed_as self text.now) }
    {
        match self {
            PrintedWord::Tree => Command::Tree.answer(alloc, text),
            PrintedWord::TreeCode => tree::answer_code(alloc, text, &UnicodeClasses),
            PrintedWord::TreeMath => tree::answer_math(alloc, text, &UnicodeClasses),
            PrintedWord::Lines => Command::Lines.answer(alloc, text),
            PrintedWord::Html => Command::Html.answer(alloc, text),
        }
    }
}
