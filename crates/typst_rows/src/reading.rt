//! Reading the rows of a file.

use crate::escapes::push_decoded;
use crate::row::Row;
use crate::row_word::RowWord;
use std::alloc::{AllocError, Global};

/// The rows of a file. What stands before the first row is passed over.
pub fn rows<W: RowWord>(alloc: Global, file: &str) -> anyhow::Result<Vec<Row<W>>> {
    let mut reader = Reader {
        alloc,
        rows: Vec::new(alloc),
        part: Part::Front,
        pending: 0,
    };
    let mut number = 0u64;
    for line in file.split('\n') {
        number = number.saturating_add(1);
        if let Some(fault) = reader.take(number, line)? {
            anyhow::bail!("line {number}: {fault}");
        }
    }
    match reader.part {
        Part::Front | Part::Wanted => Ok(reader.rows),
        Part::Title | Part::Bar | Part::Text => anyhow::bail!("the last row isn't whole"),
    }
}

/// What the next line of a file belongs to.
#[derive(Clone, Copy, Drop)]
enum Part {
    /// What stands before the first row.
    Front,
    /// A title.
    Title,
    /// The line of equals signs after a title.
    Bar,
    /// The text of a row.
    Text,
    /// What a row wants.
    Wanted,
}

/// Reads a file line by line.
#[derive(Drop)]
struct Reader<W: RowWord> {
    alloc: Global,
    rows: Vec<Row<W>>,
    part: Part,
    /// How many newline characters come before the next line of the part that isn't empty.
    pending: u64,
}

impl<W: RowWord> Reader<W> {
    /// Takes a line, and gives what is wrong with it.
    fn take(&mut self, number: u64, line: &str) -> Result<Option<&'static str>, AllocError> {
        match self.part {
            Part::Front | Part::Wanted if is_bar(line) => self.go(Part::Title),
            Part::Front => Ok(None),
            Part::Title => self.title(number, line),
            Part::Bar if is_bar(line) => self.go(Part::Text),
            Part::Bar => Ok(Some("a line of equals signs was expected")),
            Part::Text if is_bar(line) => Ok(Some("a row without a line ---")),
            Part::Text if line == "---" => self.go(Part::Wanted),
            Part::Text => self.text(line),
            Part::Wanted => self.wanted(line),
        }
    }

    /// Goes on with another part.
    fn go(&mut self, part: Part) -> Result<Option<&'static str>, AllocError> {
        self.part = part;
        self.pending = 0;
        Ok(None)
    }

    /// Takes a title, and begins its row.
    fn title(&mut self, line: u64, title: &str) -> Result<Option<&'static str>, AllocError> {
        let Some((name, _)) = title.split_once(':') else {
            return Ok(Some("a title is a word, a colon and what the row shows"));
        };
        let Some(word) = W::from_name(name) else {
            return Ok(Some("no such word"));
        };
        self.rows.push(Row {
            line,
            word,
            title: String::from_str(self.alloc, title)?,
            text: String::new(self.alloc),
            wanted: String::new(self.alloc),
        })?;
        self.go(Part::Bar)
    }

    /// Takes a line of the text.
    fn text(&mut self, line: &str) -> Result<Option<&'static str>, AllocError> {
        let Some(row) = self.rows.last_mut() else {
            return Ok(None);
        };
        push_newlines(&mut row.text, self.pending)?;
        self.pending = 1;
        push_decoded(&mut row.text, line)
    }

    /// Takes a line of what is wanted. Empty lines at the end aren't part of it.
    fn wanted(&mut self, line: &str) -> Result<Option<&'static str>, AllocError> {
        let Some(row) = self.rows.last_mut() else {
            return Ok(None);
        };
        if line.is_empty() {
            self.pending = self.pending.saturating_add(1);
            return Ok(None);
        }
        push_newlines(&mut row.wanted, self.pending)?;
        self.pending = 0;
        let fault = push_decoded(&mut row.wanted, line)?;
        row.wanted.push('\n')?;
        Ok(fault)
    }
}

fn push_newlines(out: &mut String, count: u64) -> Result<(), AllocError> {
    for _ in 0..count {
        out.push('\n')?;
    }
    Ok(())
}

/// Whether the line stands around a title: sixteen or more equals signs and nothing else.
fn is_bar(line: &str) -> bool {
    for character in line.chars() {
        if character != '=' {
            return false;
        }
    }
    line.len() >= 16
}
