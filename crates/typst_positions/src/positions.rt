//! The positions of a text.
ghost use Rattle.std.specs.Prelude.{◌≡◌, ℕ, List, length, IfOk, OnErr, OnOk};
ghost use Rattle.std.specs.Str.{IsCharBoundary};
ghost use Rattle.typst_positions.specs.Positions as spec;
ghost use Rattle.typst_positions.specs.Starts.{line_at, line_starts};

use crate::columns::{Encoding, bytes_before, column_of};
use crate::starts::{count_to, line_len, push_starts, replace, start_of, table};
use std::alloc::{AllocError, Global};
use std::marker::Model;
use std::ops::Range;

/// A place of a text as the protocol has it, both numbers counted from 0.
#[derive(Debug, Clone, Copy, PartialEq, Eq)]
pub struct Position {
    /// The line.
    pub line: usize,
    /// How far into the line, in bytes or in UTF-16 units.
    pub column: usize,
}

/// Where the lines of a text start. The text itself is handed to each call.
#[derive(Drop)]
pub struct Positions {
    starts: Vec<usize>,
}

impl Model for Positions {
    ghost Value = { List ℕ };

    ghost view = { λ a. a.starts.items };
}

impl Positions {
    /// Where the lines of a text start.
    pub fn new(alloc: Global, text: &str) -> Result<Positions, AllocError>
        ensures { IfOk result (λ positions. positions ≡ line_starts text.now) }
    {
        let starts = table(alloc, text.as_bytes())?;
        Ok(Positions { starts })
    }

    /// How many lines there are: of a text at least one.
    pub fn len_lines(&self) -> usize
        ensures { result ≡ length self.now }
    {
        self.starts.len()
    }

    /// The byte at a position of the text. A column past its line's end is that end, before the CR or LF; one
    /// inside a character is where the character starts; a line past the last one is the text's end. Goes through
    /// the line.
    pub fn to_byte(&self, text: &str, encoding: Encoding, position: Position) -> usize
        requires { self.now ≡ line_starts text.now }
        ensures value { result ≡ spec.byte_at encoding text.now position }
        ensures boundary { IsCharBoundary text.now result }
    {
        match start_of(self.starts.as_slice(), position.line) {
            Some(start) => start + bytes_before(line(text, start), encoding, position.column),
            None => text.len(),
        }
    }

    /// The position of a byte of the text. Inside a character it is that of the character, inside a CR LF
    /// that of the CR, and past the text that of its end. Goes through the line.
    pub fn to_position(&self, text: &str, encoding: Encoding, byte: usize) -> Position
        requires { self.now ≡ line_starts text.now }
        ensures value { result ≡ spec.position_of encoding text.now byte }
        ensures back { IsCharBoundary text.now byte → ¬ (spec.IsInsideEnd text.now byte) → spec.byte_at encoding text.now result ≡ byte }
    {
        let number = count_to(self.starts.as_slice(), byte).saturating_sub(1);
        let start = self.starts[number];
        Position {
            line: number,
            column: column_of(line(text, start), encoding, byte - start),
        }
    }

    /// Where the lines start once a range of the text was replaced by so many bytes, which made this text.
    /// The starts before the range stay, those after it are moved, and what was put between is read.
    /// After an error nothing has changed.
    pub fn edit(&mut self, text: &str, range: Range<usize>, len: usize) -> Result<(), AllocError>
        requires { spec.IsEdited self.old text.now range len }
        ensures ok { OnOk result (self.new ≡ line_starts text.now) }
        ensures err { OnErr result (self.new ≡ self.old) }
    {
        let Range { start, end } = range;
        let before = start.saturating_sub(1);
        let to = start + len;
        let mut between = Vec::new(*self.starts.allocator());
        push_starts(&mut between, text.as_bytes(), before, to)?;
        replace(&mut self.starts, before, end, between, to)
    }
}

/// The line that starts at a byte, without its end.
fn line(text: &str, start: usize) -> &str
    requires { IsCharBoundary text.now start }
    ensures { result.now ≡ line_at text.now start }
{
    &text[start..start + line_len(text.as_bytes(), start)]
}
