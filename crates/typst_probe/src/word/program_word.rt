//! What programs answer about a text, and calls of the library.

ghost use Rattle.std.specs.Prelude.{◌≡◌};
ghost use Rattle.typst_probe.specs.Words.{program_word_named};

use crate::{checks, failures, one_call, one_run, runs};
use std::alloc::{AllocError, Global};

/// What programs and calls answer.
#[derive(Clone, Copy)]
pub enum ProgramWord {
    /// Runs of the program that edit the text.
    Runs,
    /// A run of the program with words.
    Run,
    /// A run whose input or output fails.
    RunCut,
    /// What is told of each failure.
    Failures,
    /// What the checker prints about the text in a form.
    Check,
    /// What the checker comes to about a file.
    CheckRun,
    /// The names in a list of files.
    FileNames,
    /// Whether the call of the library that the text names is as it has to be.
    Call,
}

impl ProgramWord {
    /// The word of that name.
    pub fn from_name(name: &str) -> Option<ProgramWord>
        ensures { result ≡ program_word_named name.now }
    {
        match name {
            "runs" => Some(ProgramWord::Runs),
            "run" => Some(ProgramWord::Run),
            "run-cut" => Some(ProgramWord::RunCut),
            "failures" => Some(ProgramWord::Failures),
            "check" => Some(ProgramWord::Check),
            "check-run" => Some(ProgramWord::CheckRun),
            "file-names" => Some(ProgramWord::FileNames),
            "call" => Some(ProgramWord::Call),
            _ => None,
        }
    }

    /// Prints the whole answer about a text.
    pub fn print(self, alloc: Global, printed: &mut String, text: &str) -> Result<(), AllocError> {
        match self {
            ProgramWord::Runs => runs::print(alloc, printed, text),
            ProgramWord::Run => one_run::print(alloc, printed, text),
            ProgramWord::RunCut => one_run::print_cut(alloc, printed, text),
            ProgramWord::Failures => failures::print(alloc, printed),
            ProgramWord::Check => checks::print(alloc, printed, text),
            ProgramWord::CheckRun => checks::print_run(alloc, printed, text),
            ProgramWord::FileNames => checks::print_names(alloc, printed, text),
            ProgramWord::Call => one_call::print(alloc, printed, text),
        }
    }
}
