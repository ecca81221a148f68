//! What of a document can be folded.

ghost use Rattle.std.specs.Prelude.{◌≡◌, vec_len};

use crate::sections::{Sections, heading_level, is_space};
use std::alloc::{AllocError, Global};
use std::ops::Range;
use typst_kinds::SyntaxKind;
use typst_tree::SyntaxNode;

/// What is folded.
#[derive(Debug, Clone, Copy, PartialEq, Eq)]
pub enum FoldKind {
    /// A section, a block, a list, an item of a list, a raw text, an equation, or what stands in parens.
    Region,
    /// A block comment, or line comments on lines one below the other.
    Comment,
}

/// A stretch of a text that holds a line end and can be folded.
#[derive(Debug, PartialEq, Eq, Drop)]
pub struct Fold {
    pub kind: FoldKind,
    pub range: Range<usize>,
    /// Whether it ends with a closing delimiter. What folds whole lines leaves the line of that one.
    pub is_closed: bool,
}

/// What of a tree's text can be folded, in the order of the ends, what is within other things first:
/// - the section of a heading, up to the next heading of the same or a smaller level in its row, without the
///   space at its end;
/// - a code block, a content block, a raw text, an equation, a block comment;
/// - the arguments of a call, an array, a dictionary, the parameters of a function and the items of an import,
///   from the opening paren to the closing one;
/// - an item of a list, an enumeration or a term list, and the whole of items of one kind that only space
///   and comments part;
/// - line comments that one line end parts.
///
/// Only what holds a line end, LF or CR, is given. It goes through each byte of the text once.
pub fn foldings(alloc: Global, root: &SyntaxNode) -> Result<Vec<Fold>, AllocError> {
    let mut folder = Folder {
        folds: Vec::new(alloc),
        levels: Vec::new(alloc),
        sections: Sections::new(alloc),
        items: Runs::new(alloc),
        comments: Runs::new(alloc),
        here: Place { byte: 0, line: 0 },
    };
    let mut walk = root.preorder(alloc);
    while let Some(visit) = walk.next()? {
        folder.leave_to(visit.depth)?;
        folder.enter(visit.node)?;
    }
    folder.leave_to(1)?;
    folder.end_row()?;
    Ok(folder.folds)
}

/// A place in a text: a byte, and how many bytes before it are LF or CR.
#[derive(Clone, Copy)]
struct Place {
    byte: usize,
    line: usize,
}

impl Place {
    /// The place after a text that begins here.
    fn behind(self, text: &str) -> Place {
        let mut line = self.line;
        for byte in text.as_bytes() {
            if *byte == b'\n' || *byte == b'\r' {
                line = line.saturating_add(1);
            }
        }
        Place {
            byte: self.byte.saturating_add(text.len()),
            line,
        }
    }
}

/// Siblings of one kind, from where the first begins to where the last ends, and how many nodes they are below.
#[derive(Clone, Copy)]
struct Run {
    depth: usize,
    kind: SyntaxKind,
    start: Place,
    end: Place,
}

/// Runs of siblings to which more may come, at most one among the children of a node.
#[derive(Drop)]
struct Runs {
    open: Vec<Run>,
}

impl Runs {
    /// There are none yet.
    fn new(alloc: Global) -> Runs {
        Runs {
            open: Vec::new(alloc),
        }
    }

    /// Whether the run at a depth, if there is one, is of this kind.
    fn go_on(&self, depth: usize, kind: SyntaxKind) -> bool {
        match self.open.last() {
            Some(run) => run.depth != depth || run.kind == kind,
            None => true,
        }
    }

    /// Adds a sibling to the run at a depth, or begins one with it.
    fn add(
        &mut self,
        depth: usize,
        kind: SyntaxKind,
        start: Place,
        end: Place,
    ) -> Result<(), AllocError> {
        if let Some(run) = self.open.last_mut()
            && run.depth == depth
        {
            run.end = end;
            return Ok(());
        }
        self.open.push(Run {
            depth,
            kind,
            start,
            end,
        })?;
        Ok(())
    }

    /// Takes the run at a depth, to which no more come.
    fn take(&mut self, depth: usize) -> Option<Run> {
        match self.open.last() {
            Some(run) if run.depth == depth => self.open.pop(),
            _ => None,
        }
    }
}

/// A node that was come to and not yet left: where it began, how many sections went on there, where
/// the last of its children ends that isn't space, and where the last opening paren among them stands.
#[derive(Clone, Copy)]
struct Level<'a> {
    node: &'a SyntaxNode,
    start: Place,
    base: usize,
    end: Place,
    paren: Option<Place>,
}

/// The foldings that are being found.
#[derive(Drop)]
struct Folder<'a> {
    folds: Vec<Fold>,
    /// The nodes around what comes next, the outermost first.
    levels: Vec<Level<'a>>,
    /// Where each section that goes on began.
    sections: Sections<Place>,
    /// The items of lists, and the line comments, to which more may come.
    items: Runs,
    comments: Runs,
    /// How far the text was gone through.
    here: Place,
}

impl<'a> Folder<'a> {
    /// Adds a fold without a closing delimiter up to a place, where it holds a line end.
    fn add(&mut self, kind: FoldKind, start: Place, end: Place) -> Result<(), AllocError>
        ensures { vec_len self.new.sections.open ≡ vec_len self.old.sections.open }
    {
        self.add_fold(kind, start, end, false)
    }

    /// Adds a fold up to a place, where it holds a line end.
    fn add_fold(
        &mut self,
        kind: FoldKind,
        start: Place,
        end: Place,
        is_closed: bool,
    ) -> Result<(), AllocError>
        ensures { vec_len self.new.sections.open ≡ vec_len self.old.sections.open }
    {
        if start.line < end.line {
            self.folds.push(Fold {
                kind,
                range: start.byte..end.byte,
                is_closed,
            })?;
        }
        Ok(())
    }

    /// Goes into a node that begins here.
    fn enter(&mut self, node: &'a SyntaxNode) -> Result<(), AllocError> {
        self.end_parts(node)?;
        let start = self.here;
        self.here = start.behind(node.leaf_text());
        self.levels.push(Level {
            node,
            start,
            base: self.sections.len(),
            end: self.here,
            paren: None,
        })?;
        Ok(())
    }

    /// Leaves the nodes that are below so many others.
    fn leave_to(&mut self, depth: usize) -> Result<(), AllocError> {
        for _ in depth..self.levels.len() {
            self.end_row()?;
            if let Some(level) = self.levels.pop() {
                self.add_node(level)?;
            }
        }
        Ok(())
    }

    /// Ends what of the children so far doesn't go on with the next one.
    fn end_parts(&mut self, kid: &SyntaxNode) -> Result<(), AllocError> {
        let (depth, kind) = (self.levels.len(), kid.kind());
        if let Some(level) = heading_level(kid) {
            self.end_sections(level)?;
        }
        if !kind.is_trivia() && !self.items.go_on(depth, kind) {
            self.end_items()?;
        }
        if !self.comments.go_on(depth, kind) && !is_one_line_end(kid) {
            self.end_comments()?;
        }
        Ok(())
    }

    /// Adds what a node itself is that ends here.
    fn add_node(&mut self, level: Level<'a>) -> Result<(), AllocError> {
        let (depth, start, end) = (self.levels.len(), level.start, self.here);
        let kind = level.node.kind();
        match kind {
            SyntaxKind::Heading => {
                let level = heading_level(level.node).unwrap_or(1);
                self.sections.push(level, start)?;
            }
            SyntaxKind::ListItem | SyntaxKind::EnumItem | SyntaxKind::TermItem => {
                self.items.add(depth, kind, start, end)?;
                self.add(FoldKind::Region, start, end)?;
            }
            SyntaxKind::LineComment => self.comments.add(depth, kind, start, end)?,
            SyntaxKind::BlockComment => self.add(FoldKind::Comment, start, end)?,
            SyntaxKind::CodeBlock
            | SyntaxKind::ContentBlock
            | SyntaxKind::Raw
            | SyntaxKind::Equation => {
                self.add_fold(FoldKind::Region, start, end, is_closed(level.node))?;
            }
            SyntaxKind::LeftParen => self.open_paren(start),
            SyntaxKind::RightParen => self.close_paren(end)?,
            _ => {}
        }
        if !is_space(kind)
            && let Some(parent) = self.levels.last_mut()
        {
            parent.end = end;
        }
        Ok(())
    }

    /// An opening paren stands here among the children of the innermost node.
    fn open_paren(&mut self, start: Place) {
        if let Some(parent) = self.levels.last_mut() {
            parent.paren = Some(start);
        }
    }

    /// Adds what stands in the parens of the innermost node, the closing one of which ends here.
    fn close_paren(&mut self, end: Place) -> Result<(), AllocError> {
        match self.levels.last().copied() {
            Some(
                Level {
                    node,
                    paren: Some(start),
                    ..
                },
            ) if holds_list(node.kind()) => self.add_fold(FoldKind::Region, start, end, true),
            _ => Ok(()),
        }
    }

    /// Ends what of the children of the innermost node goes on.
    fn end_row(&mut self) -> Result<(), AllocError> {
        self.end_items()?;
        self.end_comments()?;
        self.end_sections(0)
    }

    /// Ends the sections among the children that a heading of this level ends.
    fn end_sections(&mut self, level: usize) -> Result<(), AllocError> {
        let Some(Level { base, end, .. }) = self.levels.last().copied() else {
            return Ok(());
        };
        while let Some(start) = self.sections.pop_at(base, level) {
            self.add(FoldKind::Region, start, end)?;
        }
        Ok(())
    }

    /// Adds the items of a list to which no more come.
    fn end_items(&mut self) -> Result<(), AllocError> {
        match self.items.take(self.levels.len()) {
            Some(run) => self.add(FoldKind::Region, run.start, run.end),
            None => Ok(()),
        }
    }

    /// Adds the line comments to which no more come.
    fn end_comments(&mut self) -> Result<(), AllocError> {
        match self.comments.take(self.levels.len()) {
            Some(run) => self.add(FoldKind::Comment, run.start, run.end),
            None => Ok(()),
        }
    }
}

/// Whether the parens of a node of this kind stand around a list that is folded.
fn holds_list(kind: SyntaxKind) -> bool {
    matches!(
        kind,
        SyntaxKind::Args
            | SyntaxKind::Array
            | SyntaxKind::Dict
            | SyntaxKind::Params
            | SyntaxKind::ModuleImport
    )
}

/// Whether the last child of a node is a closing delimiter.
fn is_closed(node: &SyntaxNode) -> bool {
    match node.children().last() {
        Some(last) => matches!(
            last.kind(),
            SyntaxKind::RightBrace
                | SyntaxKind::RightBracket
                | SyntaxKind::RightParen
                | SyntaxKind::Dollar
                | SyntaxKind::RawDelim
        ),
        None => false,
    }
}

/// Whether a node is space with at most one line end: LF, CR LF or CR.
fn is_one_line_end(node: &SyntaxNode) -> bool {
    if node.kind() != SyntaxKind::Space {
        return false;
    }
    let (mut ends, mut before) = (0_usize, 0);
    for byte in node.leaf_text().as_bytes() {
        let is_end = *byte == b'\r' || (*byte == b'\n' && before != b'\r');
        if is_end {
            ends = ends.saturating_add(1);
        }
        before = *byte;
    }
    ends <= 1
}
