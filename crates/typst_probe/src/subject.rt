//! What calls of the library are made of.

use crate::library_call::{Call, Change, LinesCall, Query, Reading, SourceCall, TreeCall};
use crate::{compared, query, written};
use std::alloc::{AllocError, Global};
use std::ops::Range;
use typst_edited::{
    Draws, Edit, Made, Wanted, are_alike, are_same, are_same_lines, boundary, fault, source_of,
};
use typst_lexer::raw_node;
use typst_lines::split_newlines;
use typst_parser::{
    Lines, Source, SourceError, SubRange, SyntaxKind, SyntaxNode, UnicodeClasses, highlight_html,
    parse, parse_code, parse_math, parse_noted, tag_stretches,
};

/// What is edited before a call is made.
const TEXT: &str =
    "= A <b>\n*c* _d_ `e` @b é\n- f\n#let g(h) = { h + 1 }\n#g(2)[i $j^2/k$]\n/* l */ m\n";

/// What edits before a call put in.
const PIECES: [&str; 8] = ["a", "*", "#b", "[", "]", "\n", "é ", ""];

/// How many edits there are.
const EDITS: usize = 50;

/// A text that is too long to stand in a node.
const LONG: &str = "a text that is too long to stand in a node or in what it says";

/// What a call answers: two numbers.
type Answer = Result<Range<usize>, AllocError>;

/// What a call answers where a value isn't as it has to be.
pub const WRONG: Range<usize> = 1..0;

/// What calls are made of.
#[derive(Drop)]
pub struct Subject {
    /// A source after edits.
    source: Source<UnicodeClasses>,
    /// Its lines.
    lines: Lines<String>,
    /// Its tree, with a warning.
    tree: SyntaxNode,
    /// What no call changes.
    kept: Kept,
    /// What was made of the tree.
    made: String,
}

/// What calls read and don't change.
#[derive(Drop)]
struct Kept {
    /// Another text than that of the source.
    other: String,
    /// Its lines.
    lines: Lines<String>,
    /// The tree of a heading, of which it is written what comes of it.
    heading: SyntaxNode,
}

impl Kept {
    /// What is kept beside a source of a text.
    fn new(alloc: Global, text: &str) -> Result<Kept, AllocError> {
        let other = edited_text(alloc, text)?;
        let lines = lines_of(alloc, other.as_str())?;
        let heading = parse(alloc, written::HEADING, &UnicodeClasses)?;
        Ok(Kept {
            other,
            lines,
            heading,
        })
    }
}

/// The tree of a source, with a warning.
fn warned_tree(source: &Source<UnicodeClasses>) -> Result<SyntaxNode, AllocError> {
    let mut tree = source.root().try_clone()?;
    tree.warn("first")?;
    Ok(tree)
}

/// The text that an edit of its middle makes of a text.
fn edited_text(alloc: Global, text: &str) -> Result<String, AllocError> {
    let edited = middle_edit(text).applied(alloc, text)?;
    Ok(edited.unwrap_or(String::new(alloc)))
}

/// The lines of a text.
fn lines_of(alloc: Global, text: &str) -> Result<Lines<String>, AllocError> {
    Lines::new(alloc, String::from_str(alloc, text)?)
}

/// The answer of a call that gives so much, where that is as it has to be.
fn if_right(is_right: bool, count: usize) -> Range<usize> {
    if is_right { 0..count } else { WRONG }
}

/// What came of a call of a source, whose numbers don't run out.
fn unless_refused<T>(answer: Result<T, SourceError>) -> Result<T, AllocError> {
    match answer {
        Ok(made) => Ok(made),
        Err(_) => Err(AllocError),
    }
}

/// A source after edits that are drawn from a number.
fn edited_source(alloc: Global, first: u32) -> Result<Source<UnicodeClasses>, AllocError> {
    let mut source = source_of(alloc, TEXT, UnicodeClasses)?;
    let mut draws = Draws::new(first);
    for _ in 0..EDITS {
        edit_drawn(&mut source, &mut draws)?;
    }
    Ok(source)
}

/// Makes the next edit that is drawn.
fn edit_drawn(source: &mut Source<UnicodeClasses>, draws: &mut Draws) -> Result<Made, AllocError> {
    let text = source.text();
    let (start, end) = draws.range(text, 0, text.len(), 3);
    let piece = draws.below(PIECES.len());
    let with = PIECES.get(piece).copied().unwrap_or("");
    Edit::new(start, end, with).make(source)
}

/// The edit that puts something in in the middle of a text.
fn middle_edit(text: &str) -> Edit<'static> {
    let at = boundary(text, text.len() / 2);
    Edit::new(at, at, "_x*")
}

/// The tree of a text, beside which its notes were made.
fn noted_tree(alloc: Global, text: &str) -> Result<SyntaxNode, AllocError> {
    let noted = parse_noted(alloc, text, &UnicodeClasses)?;
    Ok(noted.tree)
}

/// The first child of a tree that has children.
fn first_inner(tree: &SyntaxNode) -> usize {
    for (at, child) in tree.children().iter().enumerate() {
        if !child.children().is_empty() {
            return at;
        }
    }
    0
}

/// Replaces the first child of a child of a tree by a leaf.
fn replace_below(alloc: Global, tree: &mut SyntaxNode) -> Result<(), AllocError> {
    let mut nodes = Vec::new(alloc);
    nodes.push(SyntaxNode::leaf(alloc, SyntaxKind::Text, LONG)?)?;
    let inner = first_inner(tree);
    replace_first(tree, &[inner], nodes)
}

/// Replaces the first child of the node at a path, where there is one.
fn replace_first(
    tree: &mut SyntaxNode,
    path: &[usize],
    nodes: Vec<SyntaxNode>,
) -> Result<(), AllocError> {
    if tree.reaches(path, 0, 1) {
        unless_refused(tree.replace_at(path, 0..1, nodes))
    } else {
        Ok(())
    }
}

/// Changes a tree.
fn changed(alloc: Global, tree: &mut SyntaxNode, change: Change) -> Result<(), AllocError> {
    match change {
        Change::ConvertToError => tree.convert_to_error(LONG),
        Change::Expected => tree.expected(LONG),
        Change::Unexpected => tree.unexpected(),
        Change::Warn => tree.warn(LONG),
        Change::Hint => tree.hint(LONG),
        Change::WarnAt => match SubRange::new(0, 1) {
            Some(range) => tree.warn_at(range, LONG),
            None => Ok(()),
        },
        Change::HintAt => match SubRange::new(0, 1) {
            Some(range) => tree.hint_at(range, LONG),
            None => Ok(()),
        },
        Change::ReplaceAt => replace_below(alloc, tree),
    }
}

impl Subject {
    /// What stands after edits that are drawn from a number.
    pub fn new(alloc: Global, first: u32) -> Result<Subject, AllocError> {
        let source = edited_source(alloc, first)?;
        let lines = source.lines().try_clone()?;
        let tree = warned_tree(&source)?;
        let kept = Kept::new(alloc, source.text())?;
        Ok(Subject {
            source,
            lines,
            tree,
            kept,
            made: String::new(alloc),
        })
    }

    /// Makes a call.
    pub fn take(&mut self, alloc: Global, call: Call) -> Answer {
        match call {
            Call::Start | Call::Nothing => Ok(0..0),
            Call::Source(call) => self.call_of_source(alloc, call),
            Call::Lines(call) => self.call_of_lines(alloc, call),
            Call::Tree(call) => {
                self.tree = self.made_tree(alloc, call)?;
                Ok(0..self.tree.descendants())
            }
            Call::Change(change) => {
                changed(alloc, &mut self.tree, change)?;
                Ok(0..self.tree.descendants())
            }
            Call::Html => {
                self.made = highlight_html(alloc, &self.tree)?;
                Ok(0..self.made.len())
            }
            Call::Read(reading) => self.call_of_reading(alloc, reading),
            Call::Query(query) => Ok(self.answered(alloc, query)),
        }
    }

    /// Edits the source.
    pub fn edit(&mut self) -> Result<Made, AllocError> {
        let edit = middle_edit(self.source.text());
        edit.make(&mut self.source)
    }

    /// A call that makes or changes a source.
    fn call_of_source(&mut self, alloc: Global, call: SourceCall) -> Answer {
        match call {
            SourceCall::Edit => match self.edit()? {
                Made::Read(read) => return Ok(read),
                Made::Fault(_) => {}
            },
            SourceCall::Replace => {
                let read = self.source.replace(self.kept.other.as_str());
                return unless_refused(read);
            }
            SourceCall::TryClone => self.source = self.source.try_clone()?,
            SourceCall::New => self.source = self.made_source(alloc)?,
            SourceCall::Detached => {
                self.source = source_of(alloc, self.kept.other.as_str(), UnicodeClasses)?;
            }
            SourceCall::WithRoot => self.source = self.source_with_root(alloc)?,
        }
        Ok(0..self.source.text().len())
    }

    /// A source of the other text, in the same file.
    fn made_source(&self, alloc: Global) -> Result<Source<UnicodeClasses>, AllocError> {
        let text = String::from_str(alloc, self.kept.other.as_str())?;
        unless_refused(Source::new(alloc, self.source.id(), text, UnicodeClasses))
    }

    /// A source of the other text with the tree.
    fn source_with_root(&self, alloc: Global) -> Result<Source<UnicodeClasses>, AllocError> {
        let root = self.tree.try_clone()?;
        let text = String::from_str(alloc, self.kept.other.as_str())?;
        Source::with_root(alloc, self.source.id(), text, root, UnicodeClasses)
    }

    /// A call that makes or changes lines.
    fn call_of_lines(&mut self, alloc: Global, call: LinesCall) -> Answer {
        match call {
            LinesCall::New => self.lines = lines_of(alloc, self.kept.other.as_str())?,
            LinesCall::TryClone => self.lines = self.lines.try_clone()?,
            LinesCall::Edit => {
                let edit = middle_edit(self.lines.text());
                edit.make_of_lines(&mut self.lines)?;
            }
            LinesCall::Replace => {
                self.lines.replace(self.kept.other.as_str())?;
            }
        }
        Ok(0..self.lines.len_lines())
    }

    /// A tree of the other text, or another one.
    fn made_tree(&self, alloc: Global, call: TreeCall) -> Result<SyntaxNode, AllocError> {
        let text = self.kept.other.as_str();
        match call {
            TreeCall::Parse => parse(alloc, text, &UnicodeClasses),
            TreeCall::ParseCode => parse_code(alloc, text, &UnicodeClasses),
            TreeCall::ParseMath => parse_math(alloc, text, &UnicodeClasses),
            TreeCall::ParseNoted => noted_tree(alloc, text),
            TreeCall::RawNode => raw_node(alloc, "```a\n  b\n   c\n  ```"),
            TreeCall::Leaf => SyntaxNode::leaf(alloc, SyntaxKind::Text, LONG),
            TreeCall::Error => SyntaxNode::error(alloc, LONG, LONG),
            TreeCall::TryClone => self.tree.try_clone(),
        }
    }

    /// A call that makes something of the tree, or of a text, and makes it of a small one, too, for which it is
    /// written what has to come.
    fn call_of_reading(&self, alloc: Global, reading: Reading) -> Answer {
        let (kept, tree) = (&self.kept, &self.tree);
        match reading {
            Reading::Walk(walk) => {
                let is_right = written::has_visits(alloc, walk, &kept.heading)?;
                Ok(if_right(is_right, walk.count(alloc, tree)?))
            }
            Reading::Stretches => {
                let is_right = written::has_stretches(alloc, &kept.heading)?;
                Ok(if_right(is_right, tag_stretches(alloc, tree)?.len()))
            }
            Reading::Newlines => {
                let is_right = written::has_lines(alloc)?;
                let lines = split_newlines(alloc, kept.other.as_str())?;
                Ok(if_right(is_right, lines.len()))
            }
            Reading::Link => Ok(if_right(written::has_link(alloc)?, 0)),
        }
    }

    /// What calls answer that take no memory: whether they are right, or the sum of what they answer.
    fn answered(&mut self, alloc: Global, query: Query) -> Range<usize> {
        match query {
            Query::EqualText => if_right(self.keeps_equal_text(), 0),
            Query::LinesCompare => {
                let is_right = compared::compare(
                    &self.lines,
                    self.source.lines(),
                    &self.kept.lines,
                );
                if_right(is_right, 0)
            }
            Query::LinesFrom => if_right(compared::are_found(&self.lines), 0),
            Query::Lines => 0..query::of_lines(&self.lines, self.kept.other.as_str()),
            Query::Source => 0..query::of_source(&self.source),
            Query::Leaves => 0..query::of_leaves(&self.tree),
            Query::Nodes => 0..query::of_nodes(&self.tree, self.source.root()),
            Query::Changes => 0..query::of_changes(alloc, &mut self.tree),
            Query::Remarks => 0..query::of_remarks(&self.tree),
            Query::Kinds => 0..query::of_kinds(),
            Query::Tags => 0..query::of_tags(),
            Query::Spans => 0..query::of_spans(),
            Query::Characters => 0..query::of_characters(self.kept.other.as_str()),
            Query::Classes => 0..query::of_classes(self.kept.other.as_str()),
        }
    }

    /// Whether neither the source nor the lines say that the text that they have changes them.
    fn keeps_equal_text(&mut self) -> bool {
        let keeps_source =
            matches!(self.source.replace(self.lines.text()), Ok(read) if read == (0..0));
        let keeps_lines = matches!(self.lines.replace(self.source.text()), Ok(false));
        keeps_source && keeps_lines
    }

    /// Whether another one has the same text, lines and trees, spans too, and what was made is the same.
    pub fn is_same(&self, alloc: Global, other: &Subject) -> Result<bool, AllocError> {
        let is_made = self.made.as_str() == other.made.as_str()
            && self.lines.text() == other.lines.text()
            && are_same_lines(&self.lines, &other.lines)
            && self.tree.spanless_eq(&other.tree);
        Ok(
            is_made
                && are_alike(alloc, &self.tree, &other.tree)?
                && are_same(alloc, &self.source, &other.source)?,
        )
    }

    /// What of the source isn't as its text asks for.
    pub fn fault(&self, alloc: Global) -> Result<Option<&'static str>, AllocError> {
        let wanted = Wanted::of(alloc, self.source.text(), &UnicodeClasses)?;
        fault(alloc, &self.source, &wanted, true)
    }
}
