//! Checks files of Typst: prints their errors and warnings, their trees, or their text as a page.
#![tactic(auto)]

mod checker;
mod request;
mod sarif;
mod words;

use crate::checker::Checker;
use crate::request::Request;
use crate::words::{Word, words_of};
use std::alloc::Global;
use std::process::ExitCode;

/// Ends with status 0 if no file fails, with 1 if one does, and with 2 for other words and if a file can't be
/// read. The other files are still checked.
fn main(rt: HostRuntime) -> ExitCode {
    match run(&rt, rt.alloc()) {
        Ok(status) => ExitCode::from(status),
        Err(error) => {
            let _ = eprintln!(rt; "typst_check: {error:?}");
            ExitCode::from(2)
        }
    }
}

fn run(rt: &HostRuntime, alloc: Global) -> anyhow::Result<u8> {
    let words = words_of(rt, alloc)?;
    let texts = texts_of(alloc, &words)?;
    let request = match Request::from_words(alloc, texts.as_slice()) {
        Ok(request) => request,
        Err(error) => {
            error.print(rt)?;
            return Ok(if error.exit_code() == 0 { 0 } else { 2 });
        }
    };
    let mut checker = Checker::new(rt, alloc, &request);
    let status = checker.begin();
    if status > 0 {
        return Ok(status);
    }
    for name in &request.names {
        if is_odd(&words, name) {
            checker.tell_odd(name);
        } else {
            checker.check_named(name)?;
        }
    }
    if let Some(list) = request.list {
        checker.check_listed(list)?;
    }
    Ok(checker.finish())
}

fn texts_of<'a>(alloc: Global, words: &'a [Word]) -> anyhow::Result<Vec<&'a str>> {
    let mut texts = Vec::new(alloc);
    for word in words {
        texts.push(word.text.as_str())?;
    }
    Ok(texts)
}

/// Whether the name was made of a word that isn't UTF-8.
fn is_odd(words: &[Word], name: &str) -> bool {
    for word in words {
        if word.is_odd && word.text.as_str() == name {
            return true;
        }
    }
    false
}
