//! The word `call`.

use crate::library_call::{Call, call_named};
use crate::subject::{Subject, WRONG};
use std::alloc::{AllocError, Global};

/// Prints whether a call is as it has to be. The text is its name and the number from which the edits are drawn
/// that come before it; `start` makes no call. A call that is refused memory has to change nothing, and is made
/// again; then it has to answer and leave what it does of a twin, and so does an edit after it.
pub fn print(alloc: Global, printed: &mut String, text: &str) -> Result<(), AllocError> {
    let Some((call, first)) = call_of(text) else {
        return printed.push_str("no call\n");
    };
    let mut subject = Subject::new(alloc, first)?;
    let mut twin = Subject::new(alloc, first)?;
    match call {
        Call::Start => printed.push_str("right\n"),
        call => print_called(alloc, printed, &mut subject, &mut twin, call),
    }
}

/// The call and the number that a text names.
fn call_of(text: &str) -> Option<(Call, u32)> {
    let (name, first) = text.trim_end().split_once(' ')?;
    Some((call_named(name)?, first.parse().ok()?))
}

/// Makes a call of a subject and its twin. Prints where it was refused, and whether its subject isn't as before then.
fn print_called(
    alloc: Global,
    printed: &mut String,
    subject: &mut Subject,
    twin: &mut Subject,
    call: Call,
) -> Result<(), AllocError> {
    let answer = match subject.take(alloc, call) {
        Ok(answer) => answer,
        Err(AllocError) => {
            printed.push_str("refused\n")?;
            if !subject.is_same(alloc, twin)? {
                printed.push_str("changed\n")?;
            }
            subject.take(alloc, call)?
        }
    };
    let answered = if answer == WRONG {
        "another value"
    } else if answer == twin.take(alloc, call)? {
        standing(alloc, subject, twin)?
    } else {
        "another answer"
    };
    writeln!(printed, "{answered}")
}

/// How a subject stands beside its twin after a call, and after one more edit.
fn standing(
    alloc: Global,
    subject: &mut Subject,
    twin: &mut Subject,
) -> Result<&'static str, AllocError> {
    if !subject.is_same(alloc, twin)? {
        return Ok("another subject");
    }
    if subject.edit()? != twin.edit()? || !subject.is_same(alloc, twin)? {
        return Ok("another next edit");
    }
    Ok(subject.fault(alloc)?.unwrap_or("right"))
}
