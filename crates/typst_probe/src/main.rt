//! Shows what the parser layer answers about a text, makes calls of the library by their names, also some that are
//! refused memory, and compares all that with rows of wanted answers.
#![tactic(auto)]

mod answers;
mod bytes;
mod calls;
mod candidates;
mod chain;
mod checks;
mod compared;
mod edit_lines;
mod edits;
mod everywhere;
mod example;
mod failures;
mod handed;
mod in_a_row;
mod library_call;
mod links;
mod looks;
mod modes;
mod names;
mod notes;
mod one_call;
mod one_run;
mod query;
mod ranges;
mod runs;
mod spans;
mod stretches;
mod subject;
mod tagged;
mod tags;
mod tokens;
mod walk;
mod word;
mod written;

use std::alloc::Global;
use std::io;
use std::process::ExitCode;
use typst_edited::Edit;
use typst_rows::{ended, show_usage};
use word::Word;

const USAGE: &str =
    "usage: typst_probe rows FILE.. | tree | tree-wide | tree-narrow | tree-code | tree-math | tree-math-wide |
    tree-math-narrow | tokens | tokens-wide | tokens-narrow | tokens-code | tokens-math | lines | link |
    look | stretches | notes | tags | tagged | html | spans | ranges | depths | size | asked | again | leaves |
    kinds | tag-list | edit | edit-wide | edit-narrow | edit-spans | edits | edit-lines | in-a-row | handed |
    example | calls | runs | run | run-cut | failures | chain | check | check-run | file-names | call | candidates |
    candidates START END | edit-spans START END TEXT | everywhere | everywhere-in-turn | everywhere-at";

/// `rows FILE..` compares all rows of the files, and any other word answers about the text on
/// standard input. Ends with status 1 where a row disagrees or something fails, and with status 2
/// for other words.
fn main(rt: HostRuntime) -> ExitCode {
    let status = run(&rt, rt.alloc());
    ended(&rt, status)
}

fn run(rt: &HostRuntime, alloc: Global) -> anyhow::Result<u8> {
    let words = typst_rows::words(rt, alloc)?;
    match words.as_slice() {
        [word, start, end, with] if word.as_str() == "edit-spans" => {
            match Edit::from_words(start.as_str(), end.as_str(), with.as_str()) {
                Some(edit) => show(rt, alloc, Asked::Edit(edit)),
                None => show_usage(rt, USAGE),
            }
        }
        [word, start, end] if word.as_str() == "candidates" => {
            match (start.as_str().parse(), end.as_str().parse()) {
                (Ok(start), Ok(end)) => show(rt, alloc, Asked::Candidates(start, end)),
                _ => show_usage(rt, USAGE),
            }
        }
        words => typst_rows::run::<Word>(rt, alloc, words, USAGE),
    }
}

/// What is asked by words with numbers.
#[derive(Clone, Copy)]
enum Asked<'a> {
    /// The tree after an edit.
    Edit(Edit<'a>),
    /// What may be read again where a range of bytes is replaced.
    Candidates(usize, usize),
}

/// Prints what is asked about the text on standard input.
fn show(rt: &HostRuntime, alloc: Global, asked: Asked<'_>) -> anyhow::Result<u8> {
    let text = io::read_to_string(alloc, rt.reader())?;
    let mut printed = String::new(alloc);
    match asked {
        Asked::Edit(edit) => {
            edits::print_spans_after(alloc, &mut printed, text.as_str(), edit)?;
        }
        Asked::Candidates(start, end) => {
            candidates::print_between(alloc, &mut printed, text.as_str(), start, end)?;
        }
    }
    print!(rt; "{printed}")?;
    Ok(0)
}
