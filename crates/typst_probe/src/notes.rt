//! The word `notes`.

use std::alloc::{AllocError, Global};
use typst_edited::cli::{Block, Mark, Note, UnicodeClasses, parse_noted};

/// Prints what is noted in reading the text as markup. Each note has a line: what begins or ends, the bytes
/// at which the trivia before it begin and end, how many levels are left, where all looks before it
/// end, which is the greatest that the notes up to it say, and where those since the note before it
/// begin. A last line has the same two of the whole text.
pub fn print(alloc: Global, printed: &mut String, text: &str) -> Result<(), AllocError> {
    let noted = parse_noted(alloc, text, &UnicodeClasses)?;
    let mut reach = 0;
    for note in &noted.notes {
        reach = note.reach.max(reach);
        print_note(printed, note, reach)?;
    }
    printed.push_str("End")?;
    print_looks(printed, noted.hull.reach.max(reach), noted.hull.least)
}

/// Prints the line of a note, with where all looks before it end. What begins or ends comes first: of a piece also
/// whether a line starts there, and in how many brackets it stands.
fn print_note(printed: &mut String, note: &Note, reach: usize) -> Result<(), AllocError> {
    match note.mark {
        Mark::Piece(true, brackets) => write!(printed, "Piece line {brackets}")?,
        Mark::Piece(false, brackets) => write!(printed, "Piece inline {brackets}")?,
        Mark::Opens(Block::Code) => printed.push_str("Opens Code")?,
        Mark::Opens(Block::Content) => printed.push_str("Opens Content")?,
        Mark::Closes => printed.push_str("Closes")?,
    }
    let (before, start, levels) = (note.before, note.start, note.levels);
    write!(printed, " {before}..{start} levels {levels}")?;
    print_looks(printed, reach, note.least)
}

/// Prints the end of a line: where looks end and where they begin, if there are any.
fn print_looks(printed: &mut String, reach: usize, least: usize) -> Result<(), AllocError> {
    if least == usize::MAX {
        return writeln!(printed, " reach {reach} least none");
    }
    writeln!(printed, " reach {reach} least {least}")
}
