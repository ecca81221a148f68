//! Edits of a source: a text in the place of a range of bytes.

use std::alloc::{AllocError, Global};
use std::ops::Range;
use typst_cli::{Classes, Lines, Source, SourceError};

/// A text to be put in the place of a range of bytes.
#[derive(Clone, Copy)]
pub struct Edit<'a> {
    start: usize,
    end: usize,
    with: &'a str,
}

/// What came of an edit.
#[derive(PartialEq, Eq, Drop)]
pub enum Made {
    /// It was made, and these bytes of the new text were read.
    Read(Range<usize>),
    /// Why it wasn't made.
    Fault(&'static str),
}

impl Edit<'_> {
    /// An edit that no source makes, as its range is none.
    pub const REFUSED: Edit<'static> = Edit {
        start: 1,
        end: 0,
        with: "",
    };
}

impl<'a> Edit<'a> {
    /// The edit that puts a text in the place of these bytes.
    pub fn new(start: usize, end: usize, with: &'a str) -> Edit<'a> {
        Edit { start, end, with }
    }

    /// The edit that three words name.
    pub fn from_words(start: &str, end: &str, with: &'a str) -> Option<Edit<'a>> {
        Some(Edit {
            start: start.parse().ok()?,
            end: end.parse().ok()?,
            with,
        })
    }

    /// Whether nothing past ASCII is put in.
    pub fn is_ascii(self) -> bool {
        self.with.is_ascii()
    }

    /// The text after the edit; `None` where the range isn't one of the text.
    pub fn applied(self, alloc: Global, text: &str) -> Result<Option<String>, AllocError> {
        let (Some(front), Some(rear)) = (text.get(..self.start), text.get(self.end..)) else {
            return Ok(None);
        };
        let mut all = String::from_str(alloc, front)?;
        all.push_str(self.with)?;
        all.push_str(rear)?;
        Ok(Some(all))
    }

    /// The edit that makes the text of the text after this edit.
    pub fn undone(self, text: &'a str) -> Edit<'a> {
        Edit {
            start: self.start,
            end: self.start.saturating_add(self.with.len()),
            with: text.get(self.start..self.end).unwrap_or(""),
        }
    }

    /// Edits a source; leaves it where the range isn't one of its text.
    pub fn make<C: Classes>(self, source: &mut Source<C>) -> Result<Made, AllocError> {
        let text = source.text();
        if self.start > self.end
            || !text.is_char_boundary(self.start)
            || !text.is_char_boundary(self.end)
        {
            return Ok(Made::Fault("bad range"));
        }
        Made::of(source.edit(self.start..self.end, self.with))
    }

    /// Edits lines. Gives false, and leaves them, where the range isn't one of their text.
    pub fn make_of_lines(self, lines: &mut Lines<String>) -> Result<bool, AllocError> {
        let text = lines.text();
        if self.start > self.end
            || !text.is_char_boundary(self.start)
            || !text.is_char_boundary(self.end)
        {
            return Ok(false);
        }
        lines.edit(self.start..self.end, self.with)?;
        Ok(true)
    }

    /// The edit as a line names it.
    pub fn print(self, printed: &mut String) -> Result<(), AllocError> {
        let Edit { start, end, with } = self;
        write!(printed, "{start}..{end} {with:?}")
    }

    /// A source of the text after the edit, and what came of it.
    pub fn source<C: Classes + Drop>(
        self,
        alloc: Global,
        text: &str,
        classes: C,
    ) -> Result<(Source<C>, Made), AllocError> {
        let mut source = source_of(alloc, text, classes)?;
        let made = self.make(&mut source)?;
        Ok((source, made))
    }
}

impl Made {
    /// What came of an edit that a source answers so, unless memory was refused.
    pub fn of(answer: Result<Range<usize>, SourceError>) -> Result<Made, AllocError> {
        match answer {
            Ok(read) => Ok(Made::Read(read)),
            Err(SourceError::OutOfMemory) => Err(AllocError),
            Err(SourceError::SpanNumbers) => Ok(Made::Fault("out of span numbers")),
        }
    }

    /// The line of what came of an edit.
    pub fn print(&self, printed: &mut String) -> Result<(), AllocError> {
        match self {
            Made::Read(read) => {
                let (start, end) = (read.start, read.end);
                writeln!(printed, "{start}..{end}")
            }
            Made::Fault(fault) => writeln!(printed, "{fault}"),
        }
    }
}

/// A source of a text. One with more nodes than there are numbers is refused as if memory were.
pub fn source_of<C: Classes + Drop>(
    alloc: Global,
    text: &str,
    classes: C,
) -> Result<Source<C>, AllocError> {
    let text = String::from_str(alloc, text)?;
    match Source::detached(alloc, text, classes) {
        Ok(source) => Ok(source),
        Err(_) => Err(AllocError),
    }
}

/// The edit that a line names.
pub fn edit_of(words: &str) -> Option<Edit<'_>> {
    let (start, rest) = words.split_once(' ')?;
    let (end, with) = rest.split_once(' ')?;
    Edit::from_words(start, end, with)
}
