//! What the program's words ask for.

ghost use Rattle.std.specs.Prelude.{◌≡◌, IfErr, IfOk, map, option_map};
ghost use Rattle.std.specs.String.{string_bytes};
ghost use Rattle.typst_cli.specs.Asked.{asked_by, asked_in, edit_named, number_named};
ghost use Rattle.typst_cli.specs.Faults.{IsAnswerFault};
ghost use Rattle.typst_cli.specs.PrintedEdit.{Prints};

use crate::command::Command;
use crate::edit::Edit;
use crate::failure::Failure;
use std::alloc::Global;

/// What the program's words ask for.
#[derive(Debug, Clone, Copy)]
pub enum Request<'a> {
    /// An answer about the text.
    About(Command),
    /// An edit of the text.
    Edits(Edit<'a>),
}

impl Request<'_> {
    /// What the words ask for.
    #[tactic(auto, using(crate::proofs::WordLemmas::asked_other))]
    pub fn from_words<'a>(words: &[&'a str]) -> Option<Request<'a>>
        ensures { option_map asked_in result ≡ asked_by (map (λ word. word.now) words.now) }
    {
        match words {
            [word] => Some(Request::About(Command::from_word(word)?)),
            [word, start, end, with_text] => edit_from(word, start, end, with_text),
            _ => None,
        }
    }

    /// The whole answer about a text.
    pub fn answer(self, alloc: Global, text: String) -> Result<String, Failure>
        ensures printed { IfOk result (λ printed. Prints (asked_in self.entry) (string_bytes text) (string_bytes printed)) }
        ensures fault { IfErr result (λ fault. IsAnswerFault fault (asked_in self.entry) (string_bytes text)) }
    {
        match self {
            Request::About(command) => Ok(command.answer(alloc, text.as_str())?),
            Request::Edits(edit) => edit.answer(alloc, text),
        }
    }
}

/// The edit that four words name.
fn edit_from<'a>(word: &str, start: &str, end: &str, with_text: &'a str) -> Option<Request<'a>>
    ensures { option_map asked_in result ≡ edit_named word.now start.now end.now with_text.now }
{
    if word != "edit" {
        return None;
    }
    let (start, end) = (number(start)?, number(end)?);
    Some(Request::Edits(Edit {
        start,
        end,
        with_text,
    }))
}

/// The number that one or more decimal digits write.
fn number(word: &str) -> Option<usize>
    ensures { result ≡ number_named word.now }
{
    if word.as_bytes().first() == Some(&b'+') {
        return None;
    }
    match word.parse() {
        Ok(number) => Some(number),
        Err(_) => None,
    }
}
