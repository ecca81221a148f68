//! A server of the Language Server Protocol for Typst, on standard input and output.
#![tactic(auto)]

mod request;

use crate::request::Request;
use std::env::{Env, FillError};
use std::process::ExitCode;
use std::{io, str};
use typst_server::{ShownErrors, serve};

/// The version of Typst whose grammar this is.
const VERSION: &str = "0.15.1";

const USAGE: &str = "usage: typst_lsp [--stdio] [--all-errors] | --version | --help";

const HELP: &str =
    "A language server for Typst. An editor starts it and speaks with it over standard input and output.

Usage: typst_lsp [OPTIONS]

Options:
      --stdio       Speaks over standard input and output, as it does without this option
      --all-errors  Shows also errors that only follow from a delimiter that nothing closes
  -h, --help        Print help
  -V, --version     Print version
";

/// Ends with the status that `serve` gives; with 0 where the version or the help is printed, and with 1 where it
/// can't be; and with 2 for other words.
fn main(rt: HostRuntime) -> ExitCode {
    let status = match request_of(&rt) {
        Some(Request::Serve(errors)) => serve(rt.alloc(), errors, rt.reader(), &mut rt.stdout()),
        Some(Request::Version) => status_of(println!(rt; "typst_lsp {VERSION}")),
        Some(Request::Help) => status_of(print!(rt; "{HELP}")),
        None => {
            let _ = eprintln!(rt; "{USAGE}");
            2
        }
    };
    ExitCode::from(status)
}

/// What the words after the program's name ask for: without any, for a session. This takes no memory.
fn request_of(rt: &HostRuntime) -> Option<Request> {
    let mut room = [0; 16];
    let mut request = match word_at(rt, 1, &mut room) {
        Some(word) => Request::from_word(word)?,
        None => return Some(Request::Serve(ShownErrors::WithoutCascades)),
    };
    for number in 2..usize::MAX {
        match word_at(rt, number, &mut room) {
            Some(word) => {
                request = request.with(word)?;
            }
            None => break,
        }
    }
    Some(request)
}

/// The word of a number, if there are so many. One that is longer than those that are known, or no text, is read
/// as the empty one, which asks for nothing.
fn word_at<'a>(rt: &HostRuntime, number: usize, room: &'a mut [u8; 16]) -> Option<&'a str> {
    match rt.arg(number, room) {
        Ok(len) => match str::from_utf8(&room[..len]) {
            Ok(word) => Some(word),
            Err(_) => Some(""),
        },
        Err(FillError::NotPresent) => None,
        Err(FillError::TooLong) => Some(""),
    }
}

/// The status for what was printed.
fn status_of(printed: io::Result<()>) -> u8 {
    match printed {
        Ok(()) => 0,
        Err(_) => 1,
    }
}
