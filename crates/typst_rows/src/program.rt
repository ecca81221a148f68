//! A program that answers words about texts.

use crate::reading;
use crate::row::Row;
use crate::row_word::RowWord;
use anyhow::Context;
use std::alloc::Global;
use std::process::ExitCode;
use std::{env, fs, io};

/// The words after the program's name.
pub fn words(rt: &HostRuntime, alloc: Global) -> anyhow::Result<Vec<String>> {
    let mut words = Vec::new(alloc);
    for word in env::args(rt)?.skip(1) {
        words.push(word)?;
    }
    Ok(words)
}

/// `rows FILE..` compares all rows of the files, and any other word answers about the text on standard
/// input. Gives the status: 1 where a row disagrees, and 2, with the usage line, for other words.
pub fn run<W: RowWord>(
    rt: &HostRuntime,
    alloc: Global,
    words: &[String],
    usage: &str,
) -> anyhow::Result<u8> {
    match words {
        [rows, files @ ..] if rows.as_str() == "rows" => compare::<W>(rt, alloc, files),
        [name] => match W::from_name(name.as_str()) {
            Some(word) => show(rt, alloc, word),
            None => show_usage(rt, usage),
        },
        _ => show_usage(rt, usage),
    }
}

/// Prints the usage line, and gives the status for words that the program doesn't take.
pub fn show_usage(rt: &HostRuntime, usage: &str) -> anyhow::Result<u8> {
    eprintln!(rt; "{usage}")?;
    Ok(2)
}

/// The program's exit: its status, or 1 where something failed, which it prints.
pub fn ended(rt: &HostRuntime, status: anyhow::Result<u8>) -> ExitCode {
    match status {
        Ok(status) => ExitCode::from(status),
        Err(error) => {
            let _ = eprintln!(rt; "{error:?}");
            ExitCode::FAILURE
        }
    }
}

/// Prints what the word answers about the text on standard input.
fn show<W: RowWord>(rt: &HostRuntime, alloc: Global, word: W) -> anyhow::Result<u8> {
    let text = io::read_to_string(alloc, rt.reader())?;
    let answer = word.answer(alloc, text.as_str())?;
    print!(rt; "{answer}")?;
    Ok(0)
}

/// Compares all rows of the files, prints each that disagrees, and then how many agree.
fn compare<W: RowWord>(rt: &HostRuntime, alloc: Global, files: &[String]) -> anyhow::Result<u8> {
    let (mut agree, mut disagree) = (0u64, 0u64);
    for file in files {
        for row in read::<W>(rt, alloc, file.as_str())? {
            match row.differing(alloc)? {
                None => agree = agree.saturating_add(1),
                Some(answer) => {
                    disagree = disagree.saturating_add(1);
                    tell(rt, file.as_str(), &row, answer.as_str())?;
                }
            }
        }
    }
    println!(rt; "{agree} rows agree")?;
    if disagree == 0 {
        return Ok(0);
    }
    println!(rt; "{disagree} rows disagree")?;
    Ok(1)
}

/// The rows of a file.
fn read<W: RowWord>(rt: &HostRuntime, alloc: Global, file: &str) -> anyhow::Result<Vec<Row<W>>> {
    let text = fs::read_to_string(rt, file).context(format_args!("reading {file}"))?;
    reading::rows(alloc, text.as_str()).context(format_args!("in {file}"))
}

/// Prints a row that disagrees, with what was wanted and what came.
fn tell<W: RowWord>(rt: &HostRuntime, file: &str, row: &Row<W>, answer: &str) -> io::Result<()> {
    let (line, title, wanted) = (row.line, row.title.as_str(), row.wanted.as_str());
    println!(rt; "{file}:{line}: {title}")?;
    print!(rt; "wanted:\n{wanted}came:\n{answer}")
}
