//! The outline of a document.

use crate::parents::{Parents, is_markup};
use crate::sections::{Sections, heading_level, is_space};
use std::alloc::{AllocError, Global};
use std::ops::Range;
use typst_kinds::SyntaxKind;
use typst_names::Placed;
use typst_tree::{Preorder, SyntaxNode, Visit};

/// What an outline shows.
#[derive(Debug, Clone, Copy, PartialEq, Eq)]
pub enum SymbolKind {
    /// A heading, with its section.
    Heading,
    /// What a `let` binds.
    Variable,
    /// A function that a `let` binds.
    Function,
    /// A label in markup.
    Label,
}

/// An entry of an outline.
#[derive(Debug, PartialEq, Eq, Drop)]
pub struct Symbol {
    pub kind: SymbolKind,
    /// The bytes of its name: of a heading its text, of a label what stands between its marks.
    pub name: Range<usize>,
    /// The bytes of all of it: of a heading its section, of a name the whole `let`.
    pub range: Range<usize>,
    /// How many entries it is below.
    pub depth: usize,
}

/// The outline of a tree in preorder: an entry stands before those below it, which are as many levels deeper
/// as `depth` says. A heading holds what follows it in its row, up to the next heading of the same or a
/// smaller level, without the space at its end; a `let` what its value holds. It goes through each node once.
pub fn symbols(alloc: Global, root: &SyntaxNode) -> Result<Vec<Symbol>, AllocError> {
    let mut outline = Outline {
        alloc,
        symbols: Vec::new(alloc),
        rows: Vec::new(alloc),
        sections: Sections::new(alloc),
    };
    let mut around = Parents::new(alloc);
    let mut walk = root.preorder(alloc);
    while let Some(visit) = walk.next()? {
        let in_markup = is_markup(around.enter(visit)?);
        outline.leave_to(visit.depth);
        outline.enter(visit, in_markup)?;
    }
    outline.leave_to(0);
    Ok(outline.symbols)
}

/// What is known of the children of a node that was come to: how many sections go on in the rows around
/// them, below how many entries they are, and where the last one ends that isn't space.
#[derive(Clone, Copy)]
struct Row {
    base: usize,
    depth: usize,
    end: usize,
}

/// An outline that is being made.
#[derive(Drop)]
struct Outline {
    alloc: Global,
    symbols: Vec<Symbol>,
    /// The rows of children on the way to the node at hand, the outermost first.
    rows: Vec<Row>,
    /// Of each heading whose section goes on, the number of its entry.
    sections: Sections<usize>,
}

/// What the names that one `let` binds have in common.
#[derive(Clone, Copy)]
struct Binding<'a> {
    kind: SymbolKind,
    whole: Placed<'a>,
    depth: usize,
}

impl Outline {
    /// Adds a node, after which its children come.
    fn enter(&mut self, visit: Visit<'_>, in_markup: bool) -> Result<(), AllocError> {
        let node = Placed::of(visit);
        let depth = match self.rows.last().copied() {
            Some(row) => self.add_to_row(row, node, in_markup)?,
            None => 0,
        };
        self.rows.push(Row {
            base: self.sections.len(),
            depth,
            end: node.inner_start(),
        })?;
        Ok(())
    }

    /// Ends the rows after the first ones.
    fn leave_to(&mut self, depth: usize) {
        for _ in depth..self.rows.len() {
            if let Some(row) = self.rows.pop() {
                self.close(row, 0);
            }
        }
    }

    /// Adds a node to the innermost row, and answers below how many entries its children are.
    fn add_to_row(
        &mut self,
        row: Row,
        node: Placed<'_>,
        in_markup: bool,
    ) -> Result<usize, AllocError> {
        if let Some(level) = heading_level(node.node) {
            self.close(row, level);
        }
        if !is_space(node.node.kind())
            && let Some(row) = self.rows.last_mut()
        {
            row.end = node.end();
        }
        let open = self.sections.len().saturating_sub(row.base);
        let depth = row.depth.saturating_add(open);
        if node.node.kind() == SyntaxKind::Label && !in_markup {
            return Ok(depth);
        }
        self.add_own(node, depth)
    }

    /// Ends the sections of a row that a heading of this level ends.
    fn close(&mut self, row: Row, level: usize) {
        while let Some(index) = self.sections.pop_at(row.base, level) {
            if let Some(symbol) = self.symbols.get_mut(index) {
                symbol.range.end = row.end;
            }
        }
    }

    /// Adds what a node itself is, and answers below how many entries its children are.
    fn add_own(&mut self, placed: Placed<'_>, depth: usize) -> Result<usize, AllocError> {
        match placed.node.kind() {
            SyntaxKind::Heading => self.add_heading(placed, depth),
            SyntaxKind::LetBinding => self.add_binding(placed, depth),
            SyntaxKind::Label => self.add_label(placed, depth),
            _ => Ok(depth),
        }
    }

    /// Adds a heading, whose section goes on from here.
    fn add_heading(&mut self, placed: Placed<'_>, depth: usize) -> Result<usize, AllocError> {
        let level = heading_level(placed.node).unwrap_or(1);
        self.sections.push(level, self.symbols.len())?;
        self.symbols.push(Symbol {
            kind: SymbolKind::Heading,
            name: heading_text(placed),
            range: placed.range(),
            depth,
        })?;
        Ok(depth.saturating_add(1))
    }

    /// Adds a label.
    fn add_label(&mut self, placed: Placed<'_>, depth: usize) -> Result<usize, AllocError> {
        self.symbols.push(Symbol {
            kind: SymbolKind::Label,
            name: placed.start.saturating_add(1)..placed.end().saturating_sub(1),
            range: placed.range(),
            depth,
        })?;
        Ok(depth.saturating_add(1))
    }

    /// Adds the names that a `let` binds. What its value holds is below the last of them.
    fn add_binding(&mut self, whole: Placed<'_>, depth: usize) -> Result<usize, AllocError> {
        let Some(bound) = bound_in(whole) else {
            return Ok(depth);
        };
        let before = self.symbols.len();
        let kind = kind_of(whole.node);
        self.add_names(bound, Binding { kind, whole, depth })?;
        if self.symbols.len() == before {
            return Ok(depth);
        }
        Ok(depth.saturating_add(1))
    }

    /// Adds the names of a pattern of a `let`.
    fn add_names(&mut self, pattern: Placed<'_>, binding: Binding<'_>) -> Result<(), AllocError> {
        let mut names = Names {
            passed: usize::MAX,
            is_key: false,
        };
        let mut walk = Preorder::new(self.alloc, pattern.node, pattern.start);
        while let Some(visit) = walk.next()? {
            if names.binds(visit) {
                self.symbols.push(Symbol {
                    kind: binding.kind,
                    name: Placed::of(visit).range(),
                    range: binding.whole.range(),
                    depth: binding.depth,
                })?;
            }
        }
        Ok(())
    }
}

/// What of a pattern binds no names: from a depth on all, where that is a key up to its colon.
#[derive(Drop)]
struct Names {
    passed: usize,
    is_key: bool,
}

impl Names {
    /// Whether a node is a name that the pattern binds. All nodes of the pattern are asked about, in preorder.
    fn binds(&mut self, visit: Visit<'_>) -> bool {
        let (kind, depth) = (visit.node.kind(), visit.depth);
        if depth >= self.passed {
            if self.is_key && depth == self.passed && kind == SyntaxKind::Colon {
                self.passed = usize::MAX;
            }
            return false;
        }
        self.is_key = kind == SyntaxKind::Named;
        self.passed = if holds_patterns(kind) {
            usize::MAX
        } else {
            depth.saturating_add(1)
        };
        kind == SyntaxKind::Ident
    }
}

/// The bytes of what a heading says.
fn heading_text(heading: Placed<'_>) -> Range<usize> {
    let end = heading.end();
    match heading.node.children().last() {
        Some(body) if body.kind() == SyntaxKind::Markup => end.saturating_sub(body.len())..end,
        _ => end..end,
    }
}

/// What a `let` binds: a pattern, or the name of a function.
fn bound_in(binding: Placed<'_>) -> Option<Placed<'_>> {
    let mut start = binding.inner_start();
    for node in binding.node.children() {
        let kind = node.kind();
        if kind == SyntaxKind::Closure {
            let name = node.children().first()?;
            let closure = Placed { node, start };
            return Some(Placed {
                node: name,
                start: closure.inner_start(),
            });
        }
        if kind != SyntaxKind::Let && !kind.is_trivia() {
            return Some(Placed { node, start });
        }
        start = start.saturating_add(node.len());
    }
    None
}

/// Whether a `let` binds a function: one with parameters of its own, or by a value that has them.
fn kind_of(binding: &SyntaxNode) -> SymbolKind {
    let mut parts = binding.children().iter();
    if parts.any(|part| part.kind() == SyntaxKind::Closure) {
        SymbolKind::Function
    } else {
        SymbolKind::Variable
    }
}

/// Whether the children of a pattern of this kind are patterns themselves.
fn holds_patterns(kind: SyntaxKind) -> bool {
    matches!(
        kind,
        SyntaxKind::Destructuring | SyntaxKind::Parenthesized | SyntaxKind::Spread
    )
}
