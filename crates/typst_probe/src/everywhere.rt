//! The words `everywhere`, `everywhere-in-turn` and `everywhere-at`.

use std::alloc::{AllocError, Global};
use typst_edited::cli::{Classes, Source, UnicodeClasses};
use typst_edited::{Edit, Made, Wanted, fault, source_of};
use typst_fakes::{Narrow, Wide};

/// What is put in at each place.
const INSERTIONS: [&str; 21] = [
    "a", " ", "\n", "\r", "*", "_", "#", "[", "]", "{", "}", "(", ")", "$", "`", "/", "=", "\"",
    "\\", ":", "é",
];

/// How many bytes a text has at most that is edited in full with each class value, and by edits in a
/// row too, and in which each node is looked for. In a longer one the other class values are asked only where something past ASCII is put
/// in: of ASCII all class values answer alike.
const SHORT: usize = 63;

/// Prints how many edits of the text agree, each with each class value: those that put something in at a
/// place, and those that take a character out. Before that the first that doesn't agree. In turn two of three
/// places have three insertions, the next ones, and not all of them: for texts in which an edit takes long.
pub fn print(
    alloc: Global,
    printed: &mut String,
    text: &str,
    is_in_turn: bool,
) -> Result<(), AllocError> {
    let edits = edits(alloc, text, is_in_turn)?;
    let is_short = text.len() <= SHORT && !is_in_turn;
    print_tally(alloc, printed, text, edits.as_slice(), is_short, is_short)
}

/// Prints what `print` does of all insertions at some places alone, also by edits in a row. The first line has
/// the places, in bytes, and the text comes after that line.
pub fn print_at(alloc: Global, printed: &mut String, text: &str) -> Result<(), AllocError> {
    let Some((places, text)) = text.split_once('\n') else {
        return printed.push_str("no text\n");
    };
    let edits = edits_at(alloc, text, places)?;
    print_tally(alloc, printed, text, edits.as_slice(), false, true)
}

/// Prints how many edits agree: each with the classes of Unicode, and with the two others those that put in
/// something past ASCII, or all.
fn print_tally(
    alloc: Global,
    printed: &mut String,
    text: &str,
    edits: &[Edit<'static>],
    all_with_others: bool,
    is_in_a_row: bool,
) -> Result<(), AllocError> {
    let mut tally = Tally {
        agree: 0,
        is_wrong: false,
        is_in_a_row,
    };
    tally.add(alloc, printed, text, edits, true, UnicodeClasses)?;
    tally.add(alloc, printed, text, edits, all_with_others, Wide)?;
    tally.add(alloc, printed, text, edits, all_with_others, Narrow)?;
    let agree = tally.agree;
    writeln!(printed, "{agree} edits agree")
}

/// The edits of a text: at each place each insertion, or, in turn, at every third place each of them and at the
/// others the next three; and the character after it taken out.
fn edits(alloc: Global, text: &str, is_in_turn: bool) -> Result<Vec<Edit<'static>>, AllocError> {
    let mut edits = Vec::new(alloc);
    let mut place = 0usize;
    for (start, character) in text.char_indices() {
        insert(&mut edits, start, place)?;
        let end = start.saturating_add(character.len_utf8());
        edits.push(Edit::new(start, end, ""))?;
        place = place.saturating_add(usize::from(is_in_turn));
    }
    insert(&mut edits, text.len(), place)?;
    Ok(edits)
}

/// The edits of a text at the bytes that words name.
fn edits_at(alloc: Global, text: &str, places: &str) -> Result<Vec<Edit<'static>>, AllocError> {
    let mut edits = Vec::new(alloc);
    for place in places.split(' ') {
        let at: usize = place.parse().unwrap_or(0);
        insert(&mut edits, at, 0)?;
        if let Some(character) = text.get(at..).unwrap_or("").chars().next() {
            let end = at.saturating_add(character.len_utf8());
            edits.push(Edit::new(at, end, ""))?;
        }
    }
    Ok(edits)
}

/// Adds the edits that put something in at a byte, which is the place of this number: at every third place each
/// insertion, at the others the next three.
fn insert(edits: &mut Vec<Edit<'static>>, at: usize, place: usize) -> Result<(), AllocError> {
    for (number, with) in INSERTIONS.iter().enumerate() {
        if place % 3 == 0 || number / 3 == place % 7 {
            edits.push(Edit::new(at, at, *with))?;
        }
    }
    Ok(())
}

/// How many edits agree, and whether one doesn't.
#[derive(Drop)]
struct Tally {
    agree: u64,
    is_wrong: bool,
    /// Whether edits are made in a row, too.
    is_in_a_row: bool,
}

impl Tally {
    /// Makes edits of a text, until one doesn't agree, which is printed: those that put in something past ASCII,
    /// or all.
    fn add<C: Classes + Copy + Drop>(
        &mut self,
        alloc: Global,
        printed: &mut String,
        text: &str,
        edits: &[Edit<'static>],
        makes_all: bool,
        classes: C,
    ) -> Result<(), AllocError> {
        if self.is_wrong {
            return Ok(());
        }
        let mut trial = Trial::new(alloc, text, classes, self.is_in_a_row)?;
        self.go(alloc, printed, &mut trial, edits, makes_all)
    }

    fn go<C: Classes + Copy + Drop>(
        &mut self,
        alloc: Global,
        printed: &mut String,
        trial: &mut Trial<'_, C>,
        edits: &[Edit<'static>],
        makes_all: bool,
    ) -> Result<(), AllocError> {
        for edit in edits {
            if edit.is_ascii() && !makes_all {
                continue;
            }
            match trial.fault(alloc, *edit)? {
                None => self.agree = self.agree.saturating_add(1),
                Some(fault) => {
                    self.is_wrong = true;
                    edit.print(printed)?;
                    return writeln!(printed, ": {fault}");
                }
            }
        }
        Ok(())
    }
}

/// Two sources of a text. One stays as it was made, and an edit is made of a copy of it; of the other
/// each edit is made and taken back, one after the other, where that is wanted.
#[derive(Drop)]
struct Trial<'a, C: Classes> {
    text: &'a str,
    classes: C,
    fresh: Source<C>,
    used: Source<C>,
    is_in_a_row: bool,
    /// What sources of the text are to hold.
    wanted: Wanted,
}

impl<'a, C: Classes + Copy + Drop> Trial<'a, C> {
    fn new(
        alloc: Global,
        text: &'a str,
        classes: C,
        is_in_a_row: bool,
    ) -> Result<Trial<'a, C>, AllocError> {
        let wanted = Wanted::of(alloc, text, &classes)?;
        let fresh = source_of(alloc, text, classes)?;
        let used = fresh.try_clone()?;
        Ok(Trial {
            text,
            classes,
            fresh,
            used,
            is_in_a_row,
            wanted,
        })
    }

    /// What isn't as it has to be after an edit of either source, or once it is taken back.
    fn fault(
        &mut self,
        alloc: Global,
        edit: Edit<'static>,
    ) -> Result<Option<&'static str>, AllocError> {
        let Some(wanted) = Wanted::after(alloc, self.text, edit, &self.classes)? else {
            return Ok(Some("bad range"));
        };
        match self.fault_of_fresh(alloc, edit, &wanted)? {
            None if self.is_in_a_row => {
                fault_of_turn(
                    alloc,
                    &mut self.used,
                    self.text,
                    edit,
                    &wanted,
                    &self.wanted,
                )
            }
            fault => Ok(fault),
        }
    }

    /// What isn't as it has to be after an edit of a copy.
    fn fault_of_fresh(
        &self,
        alloc: Global,
        edit: Edit<'static>,
        wanted: &Wanted,
    ) -> Result<Option<&'static str>, AllocError> {
        let mut fresh = self.fresh.try_clone()?;
        fault_of_edit(alloc, &mut fresh, edit, wanted)
    }
}

/// What isn't as it has to be after an edit of a source of a text, or once it is taken back: what sources are to
/// hold then, and what they are to hold now.
pub fn fault_of_turn<'a, C: Classes>(
    alloc: Global,
    source: &mut Source<C>,
    text: &'a str,
    edit: Edit<'a>,
    then: &Wanted,
    now: &Wanted,
) -> Result<Option<&'static str>, AllocError> {
    match fault_of_edit(alloc, source, edit, then)? {
        None => fault_of_edit(alloc, source, edit.undone(text), now),
        fault => Ok(fault),
    }
}

/// What isn't as it has to be after an edit.
fn fault_of_edit<C: Classes>(
    alloc: Global,
    source: &mut Source<C>,
    edit: Edit<'_>,
    wanted: &Wanted,
) -> Result<Option<&'static str>, AllocError> {
    match edit.make(source)? {
        Made::Read(_) => fault(alloc, source, wanted, source.text().len() <= SHORT),
        Made::Fault(fault) => Ok(Some(fault)),
    }
}
