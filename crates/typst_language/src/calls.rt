//! What the grammar adds to the language: what its calls take, what is noted, and how else a token is read.

use crate::reading::State;
use typst_kinds::SyntaxMode;

/// What the names of a pattern are.
#[derive(Debug, Clone, Copy, PartialEq, Eq)]
pub enum Role {
    /// What is assigned to: any expression may be there.
    Target,
    /// New names.
    Binding,
    /// New names of what a closure is called with.
    Parameter,
}

/// What comes after a name, after an underscore or after parens, which a closure or an assignment may begin with.
#[derive(Debug, Clone, Copy, PartialEq, Eq)]
pub enum AfterName {
    /// `=>`, which makes a closure of it.
    Arrow,
    /// `=`, which makes an assignment of it.
    Eq,
    /// Neither.
    Nothing,
}

/// Which signs of attachments end an expression of a formula.
#[derive(Debug, Clone, Copy, PartialEq, Eq)]
pub struct ChainSet {
    /// Whether `^` is one of them.
    pub hat: bool,
    /// Whether `_` is one of them.
    pub underscore: bool,
}

/// What is carried from an expression of markup to what comes next: whether a line begins there, and in
/// how many brackets it is.
pub type Carried = (bool, usize);

/// What is noted as one block.
#[derive(Debug, Clone, Copy, PartialEq, Eq)]
pub enum Block {
    /// `{ .. }`
    Code,
    /// `[ .. ]`
    Content,
}

/// In which other way the current token may be read from its start.
#[derive(Debug, Clone, Copy, PartialEq, Eq)]
pub enum Way {
    /// As a token of this mode.
    InMode(SyntaxMode),
    /// As the name of an argument of a call in a formula, directly before its colon.
    NamedArgument,
    /// As the dots before an argument of a call in a formula that is spread.
    SpreadArgument,
}

/// What begins or ends at a [`Note`].
#[derive(Debug, Clone, Copy, PartialEq, Eq)]
pub enum Mark {
    /// A piece of a run begins: an expression of markup, whether at the start of a line, and in how
    /// many brackets. After the last expression of a run is one more, which no expression
    /// follows: there the run ends.
    Piece(bool, usize),
    /// A block begins.
    Opens(Block),
    /// A block ends.
    Closes,
}

/// What a parser notes where a unit, a piece of a run or a block, begins or ends. Places are bytes from the
/// text's start, except `least`; records of a text keep notes as entries, which have distances instead.
/// Before the text's first and after its last character is a mark, each as long as a byte, at which a look
/// may begin or end.
#[derive(Debug, Clone, Copy, PartialEq, Eq)]
pub struct Note {
    /// What begins or ends.
    pub mark: Mark,
    /// Where the trivia before its token begin, as far as they were looked at already.
    pub before: usize,
    /// Where the trivia before its token end, and the token begins.
    pub start: usize,
    /// How many levels are left for calls: 256 at the text's start, one less within each call.
    pub levels: usize,
    /// What the parser goes on from.
    pub state: State,
    /// Where all looks since the note before it end; one more than the text's length where one saw the
    /// mark after the text, and 0 where nothing was looked at.
    pub reach: usize,
    /// Where the looks since the note before it begin, counted from the mark before the text, which is 0; the
    /// largest number if nothing was looked at.
    pub least: usize,
}
