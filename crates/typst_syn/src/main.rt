//! Prints what the parser layer answers about the text on standard input.
#![tactic(auto)]

use std::alloc::Global;
use std::env;
use std::process::ExitCode;
use typst_cli::{Failure, run};

fn main(rt: HostRuntime) -> ExitCode {
    let alloc = rt.alloc();
    let status = match words(&rt, alloc) {
        Ok(words) => run_words(&rt, alloc, words.as_slice()),
        Err(failure) => failure.report(&mut rt.stderr()),
    };
    ExitCode::from(status)
}

/// The words after the program's name.
fn words(rt: &HostRuntime, alloc: Global) -> Result<Vec<String>, Failure> {
    let mut words = Vec::new(alloc);
    let mut name = true;
    for word in env::args(rt).map_err(|_| Failure::OutOfMemory)? {
        if !name {
            words.push(word)?;
        }
        name = false;
    }
    Ok(words)
}

fn run_words(rt: &HostRuntime, alloc: Global, words: &[String]) -> u8 {
    let mut borrowed: Vec<&str> = Vec::new(alloc);
    for word in words {
        if borrowed.push(word.as_str()).is_err() {
            return Failure::OutOfMemory.report(&mut rt.stderr());
        }
    }
    run(
        alloc,
        borrowed.as_slice(),
        &mut rt.reader(),
        &mut rt.stdout(),
        &mut rt.stderr(),
    )
}
