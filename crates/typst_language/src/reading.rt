//! How tokens are read, and what a parser goes on from.

use typst_kinds::SyntaxMode;

/// How to go on at a newline.
#[derive(Debug, Clone, Copy, PartialEq, Eq)]
pub enum AtNewline {
    /// Newlines are like other whitespace.
    Continue,
    /// A newline stops.
    Stop,
    /// A newline stops, unless `else` or `.` comes after it.
    ContextualContinue,
    /// Two newlines in one piece of whitespace stop.
    StopParBreak,
    /// A newline stops, unless the token after it is in a greater column.
    RequireColumn(usize),
}

/// In which language a token is read, and how to go on at a newline before it.
#[derive(Debug, Clone, Copy, PartialEq, Eq)]
pub struct Reading {
    pub mode: SyntaxMode,
    pub at_newline: AtNewline,
}

/// Which newlines were passed.
#[derive(Debug, Clone, Copy, PartialEq, Eq)]
pub struct Newlines {
    /// Whether there was any.
    pub any: bool,
    /// Whether two were in one piece of whitespace.
    pub parbreak: bool,
}

/// What a parser goes on from, except its place.
#[derive(Debug, Clone, Copy, PartialEq, Eq)]
pub struct State {
    /// How the tokens to come are read.
    pub reading: Reading,
    /// How the current token is read.
    pub held: Reading,
    /// How many empty errors are directly before the pending trivia.
    pub empties: usize,
    /// Whether the node before the pending trivia is an error.
    pub is_after_error: bool,
}
