//! The word `runs`.

use std::alloc::{AllocError, Global};
use typst_edited::cli::{Command, UnicodeClasses, run, tree};
use typst_edited::{Edit, boundary};

static WORDS: [(&str, Command); 3] = [
    ("lines", Command::Lines),
    ("tree", Command::Tree),
    ("html", Command::Html),
];

/// Prints how many runs of the program `typst_syn` agree: one for each word about the text, and three that put
/// an `a` in at its start, in its middle and at its end.
pub fn print(alloc: Global, printed: &mut String, text: &str) -> Result<(), AllocError> {
    let mut agree = 0u64;
    for (word, command) in &WORDS {
        let wanted = command.answer(alloc, text)?;
        if agrees(alloc, text, &[*word], wanted.as_str())? {
            agree = agree.saturating_add(1);
        }
    }
    for at in [0, boundary(text, text.len() / 2), text.len()] {
        if agrees_on_edit(alloc, text, at)? {
            agree = agree.saturating_add(1);
        }
    }
    writeln!(printed, "{agree} runs agree")
}

/// Whether the run agrees that puts an `a` in at a byte.
fn agrees_on_edit(alloc: Global, text: &str, at: usize) -> Result<bool, AllocError> {
    let (place, wanted) = (format!(in alloc; "{at}")?, edited(alloc, text, at)?);
    let words = ["edit", place.as_str(), place.as_str(), "a"];
    agrees(alloc, text, &words, wanted.as_str())
}

const OUT_OF_MEMORY: &[u8] = b"out of memory\n";

/// Whether a run ends with status 0 and prints what is wanted, and nothing else. Where it says that memory is
/// refused, and prints nothing else, this is refused too. What it writes to takes no memory meanwhile.
fn agrees(alloc: Global, text: &str, words: &[&str], wanted: &str) -> Result<bool, AllocError> {
    let mut input = text.as_bytes();
    let (mut output, mut errors) = (Vec::new(alloc), Vec::new(alloc));
    output.reserve(wanted.len())?;
    errors.reserve(OUT_OF_MEMORY.len())?;
    let status = run(alloc, words, &mut input, &mut output, &mut errors);
    let (printed, told) = (output.as_slice(), errors.as_slice());
    if status == 1 && printed.is_empty() && told == OUT_OF_MEMORY {
        return Err(AllocError);
    }
    Ok(status == 0 && printed == wanted.as_bytes() && told.is_empty())
}

/// What the word `edit` prints of putting an `a` in at a byte: the bytes that a source reads, and the tree
/// of the new text.
fn edited(alloc: Global, text: &str, at: usize) -> Result<String, AllocError> {
    let edit = Edit::new(at, at, "a");
    let mut printed = String::new(alloc);
    let (_, made) = edit.source(alloc, text, UnicodeClasses)?;
    made.print(&mut printed)?;
    print_tree(alloc, &mut printed, text, edit)?;
    Ok(printed)
}

/// Prints the tree of a text after an edit.
fn print_tree(
    alloc: Global,
    printed: &mut String,
    text: &str,
    edit: Edit<'_>,
) -> Result<(), AllocError> {
    let Some(new) = edit.applied(alloc, text)? else {
        return Ok(());
    };
    let tree = tree::answer(alloc, new.as_str(), &UnicodeClasses)?;
    printed.push_str(tree.as_str())
}
