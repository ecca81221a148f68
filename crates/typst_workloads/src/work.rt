//! The kinds of work.
ghost use Rattle.std.specs.Prelude.{◌≡◌};
ghost use Rattle.typst_workloads.specs.Words.{work_named};

use crate::edited::Edited;
use std::alloc::{AllocError, Global};
use typst_parser::{
    Lines, SyntaxNode, UnicodeClasses, highlight_html, parse, parse_code, parse_math,
};

/// A kind of work on a text.
#[derive(Clone, Copy)]
pub enum Work {
    /// Finds where the lines start.
    Lines,
    /// Makes the syntax tree.
    Parse,
    /// Makes the syntax tree of code.
    ParseCode,
    /// Makes the syntax tree of a formula.
    ParseMath,
    /// Writes the syntax tree as HTML.
    Html,
    /// Puts a letter into the middle of a source, or takes it out.
    Edit,
}

/// What a kind of work is done on.
#[derive(Drop)]
pub enum Subject {
    /// A text, whose lines are found.
    Lines(String),
    /// A text, whose tree is made.
    Text(String),
    /// A text of code, whose tree is made.
    Code(String),
    /// The text of a formula, whose tree is made.
    Math(String),
    /// A syntax tree, which is written as HTML.
    Tree(SyntaxNode),
    /// A source, which is edited.
    Source(Edited),
}

impl Work {
    /// The work of that name.
    pub fn from_word(word: &str) -> Option<Work>
        ensures { result ≡ work_named word.now }
    {
        match word {
            "lines" => Some(Work::Lines),
            "parse" => Some(Work::Parse),
            "parse-code" => Some(Work::ParseCode),
            "parse-math" => Some(Work::ParseMath),
            "html" => Some(Work::Html),
            "edit" => Some(Work::Edit),
            _ => None,
        }
    }

    /// What it is done on, made from a text.
    pub fn subject(self, alloc: Global, text: String) -> anyhow::Result<Subject> {
        match self {
            Work::Lines => Ok(Subject::Lines(text)),
            Work::Parse => Ok(Subject::Text(text)),
            Work::ParseCode => Ok(Subject::Code(text)),
            Work::ParseMath => Ok(Subject::Math(text)),
            Work::Html => Ok(Subject::Tree(parse(alloc, text.as_str(), &UnicodeClasses)?)),
            Work::Edit => Ok(Subject::Source(Edited::new(alloc, text)?)),
        }
    }
}

impl Subject {
    /// Does the work once, and sums up what came out.
    pub fn round(&mut self, alloc: Global) -> anyhow::Result<u64> {
        match self {
            Subject::Lines(text) => Ok(lines(alloc, text.as_str())?),
            Subject::Text(text) => sized(parse(alloc, text.as_str(), &UnicodeClasses)),
            Subject::Code(text) => sized(parse_code(alloc, text.as_str(), &UnicodeClasses)),
            Subject::Math(text) => sized(parse_math(alloc, text.as_str(), &UnicodeClasses)),
            Subject::Tree(root) => Ok(highlight_html(alloc, root)?.len() as u64),
            Subject::Source(edited) => edited.round(),
        }
    }
}

/// The starts of all lines of the text, in bytes and UTF-16 units, added up.
fn lines(alloc: Global, text: &str) -> Result<u64, AllocError> {
    let lines = Lines::new(alloc, text)?;
    let mut sum = lines.len_utf16() as u64;
    for i in 0..lines.len_lines() {
        if let Some(line) = lines.line(i) {
            sum = sum
                .wrapping_add(line.byte_idx() as u64)
                .wrapping_add(line.utf16_idx() as u64);
        }
    }
    Ok(sum)
}

/// The length of a tree's text and the number of its nodes, added up.
fn sized(parsed: Result<SyntaxNode, AllocError>) -> anyhow::Result<u64> {
    let root = parsed?;
    Ok((root.len() as u64).wrapping_add(root.descendants() as u64))
}
