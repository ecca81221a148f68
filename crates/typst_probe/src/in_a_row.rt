//! The word `in-a-row`.

use std::alloc::{AllocError, Global};
use typst_edited::cli::{Source, UnicodeClasses};
use typst_edited::{Draws, Edit, Made, Wanted, fault, source_of};
use typst_rows::with_line_feeds;

/// Prints how many edits agree that are drawn and made of one source, one after the other. The first line has
/// their numbers (`Numbers`), the second one what they put in, with `|` between, and the text comes
/// after it. The first edit that doesn't agree has a line before that of the number.
pub fn print(alloc: Global, printed: &mut String, text: &str) -> Result<(), AllocError> {
    let Some((numbers, rest)) = text.split_once('\n') else {
        return printed.push_str("no numbers\n");
    };
    let (Some(numbers), Some((pieces, text))) = (Numbers::of(numbers), rest.split_once('\n')) else {
        return printed.push_str("no pieces\n");
    };
    let pieces = with_line_feeds(alloc, pieces)?;
    let mut source = source_of(alloc, text, UnicodeClasses)?;
    numbers.go(alloc, printed, &mut source, pieces.as_str())
}

/// What edits are drawn.
#[derive(Clone, Copy)]
struct Numbers {
    /// How many.
    count: usize,
    /// The number from which the draws come; 0: always the middle.
    first: u32,
    /// How many bytes an edit replaces at most.
    width: usize,
    /// How many bytes at the front of the text aren't edited,
    front: usize,
    /// and how many at its rear.
    rear: usize,
}

impl Numbers {
    /// The numbers that a line has.
    fn of(line: &str) -> Option<Numbers> {
        let mut numbers = [0usize; 5];
        for (place, word) in line.split(' ').enumerate() {
            *numbers.get_mut(place)? = word.parse().ok()?;
        }
        let [count, first, width, front, rear] = numbers;
        Some(Numbers {
            count,
            first: u32::try_from(first).ok()?,
            width,
            front,
            rear,
        })
    }

    /// Makes the edits of a source.
    fn go(
        self,
        alloc: Global,
        printed: &mut String,
        source: &mut Source<UnicodeClasses>,
        pieces: &str,
    ) -> Result<(), AllocError> {
        let mut draws = Draws::new(self.first);
        let mut agree = self.count;
        for done in 0..self.count {
            if !self.agrees(alloc, printed, source, &mut draws, pieces)? {
                agree = done;
                break;
            }
        }
        writeln!(printed, "{agree} edits agree")
    }

    /// Makes the next edit of a source, and prints it where it doesn't agree.
    fn agrees(
        self,
        alloc: Global,
        printed: &mut String,
        source: &mut Source<UnicodeClasses>,
        draws: &mut Draws,
        pieces: &str,
    ) -> Result<bool, AllocError> {
        let text = String::from_str(alloc, source.text())?;
        let rear = text.len().saturating_sub(self.rear);
        let (start, end) = draws.range(text.as_str(), self.front, rear, self.width);
        let piece = draws.below(pieces.split('|').count());
        let edit = Edit::new(start, end, pieces.split('|').nth(piece).unwrap_or(""));
        let Some(fault) = fault_of_edit(alloc, source, text.as_str(), edit)? else {
            return Ok(true);
        };
        edit.print(printed)?;
        writeln!(printed, ": {fault}")?;
        Ok(false)
    }
}

/// What isn't as it has to be after an edit of a source with this text: what it answers is what a source
/// that is newly made answers, and it holds what the new text asks for.
fn fault_of_edit(
    alloc: Global,
    source: &mut Source<UnicodeClasses>,
    text: &str,
    edit: Edit<'_>,
) -> Result<Option<&'static str>, AllocError> {
    let (fresh, answer) = edit.source(alloc, text, UnicodeClasses)?;
    unlike_fresh(alloc, source, text, edit, &fresh, &answer)
}

/// What isn't as it has to be, by the edited source that was newly made, and what it answered.
fn unlike_fresh(
    alloc: Global,
    source: &mut Source<UnicodeClasses>,
    text: &str,
    edit: Edit<'_>,
    fresh: &Source<UnicodeClasses>,
    answer: &Made,
) -> Result<Option<&'static str>, AllocError> {
    let made = edit.make(source)?;
    if made != *answer {
        return Ok(Some("range"));
    }
    if let Made::Fault(fault) = made {
        return Ok(Some(fault));
    }
    let Some(wanted) = Wanted::after(alloc, text, edit, &UnicodeClasses)? else {
        return Ok(Some("bad range"));
    };
    match fault(alloc, fresh, &wanted, false)? {
        Some(_) => Ok(Some("anew")),
        None => fault(alloc, source, &wanted, true),
    }
}
