//! The words that name what can be asked about a text.

mod edit_word;
mod printed_word;
mod program_word;
mod read_word;
mod tree_word;

ghost use Rattle.std.specs.Prelude.{◌≡◌, IfOk, IfSome, string_bytes};
ghost use Rattle.typst_probe.specs.Words.{printed_by, word_named};

use crate::word::edit_word::EditWord;
use crate::word::printed_word::PrintedWord;
use crate::word::program_word::ProgramWord;
use crate::word::read_word::ReadWord;
use crate::word::tree_word::TreeWord;
use std::alloc::{AllocError, Global};
use typst_rows::RowWord;

/// What can be asked about a text.
#[derive(Clone, Copy)]
pub enum Word {
    /// What is printed about it.
    Printed(PrintedWord),
    /// How it is read in a mode or with a class value.
    Read(ReadWord),
    /// What is printed of its tree.
    Tree(TreeWord),
    /// What edits of it answer.
    Edit(EditWord),
    /// What programs and calls answer.
    Program(ProgramWord),
}

impl RowWord for Word {
    fn from_name(name: &str) -> Option<Word>
        ensures { result ≡ word_named name.now }
    {
        if let Some(word) = PrintedWord::from_name(name) {
            return Some(Word::Printed(word));
        }
        if let Some(word) = ReadWord::from_name(name) {
            return Some(Word::Read(word));
        }
        if let Some(word) = TreeWord::from_name(name) {
            return Some(Word::Tree(word));
        }
        if let Some(word) = EditWord::from_name(name) {
            return Some(Word::Edit(word));
        }
        match ProgramWord::from_name(name) {
            Some(word) => Some(Word::Program(word)),
            None => None,
        }
    }

    fn answer(self, alloc: Global, text: &str) -> Result<String, AllocError>
        ensures { IfOk result (λ answer. IfSome (printed_by self text.now) (λ printed. string_bytes answer ≡ printed)) }
    {
        let mut printed = String::new(alloc);
        match self {
            Word::Printed(word) => word.answer(alloc, text),
            Word::Read(word) => {
                word.print(alloc, &mut printed, text)?;
                Ok(printed)
            }
            Word::Tree(word) => {
                word.print(alloc, &mut printed, text)?;
                Ok(printed)
            }
            Word::Edit(word) => {
                word.print(alloc, &mut printed, text)?;
                Ok(printed)
            }
            Word::Program(word) => {
                word.print(alloc, &mut printed, text)?;
                Ok(printed)
            }
        }
    }
}
