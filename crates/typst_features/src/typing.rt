//! The errors that are worth showing while someone types.

ghost use Rattle.std.specs.Prelude.{◌≡◌, ◌∷◌, ◌++◌, [], ◌+◌, ◌<◌, ◌≤◌, IfOk, OnOk, if◌then◌else◌, length, map, max};
ghost use Rattle.typst_tree.specs.Tree.{forest, more, none, text_of};
ghost use Rattle.typst_names.specs.Bytes as bytes;
ghost use Rattle.typst_features.specs.Problems.{reported};
ghost use Rattle.typst_features.specs.Shown as spec;
ghost use Rattle.typst_features.specs.ShownRows.{Takes, left, left_all, steps, steps_all, steps_left, told, unless_before};

use crate::report::{Problem, range_of};
use std::alloc::{AllocError, Global};
use std::ops::Range;
use std::slice;
use typst_kinds::{Diagnostic, Severity, SyntaxKind};
use typst_names::Placed;
use typst_tree::SyntaxNode;

/// What an error says about a delimiter that nothing closes.
pub const UNCLOSED: &str = "unclosed delimiter";

/// Nodes side by side from a byte on, in a node that ends at another byte.
#[derive(Clone, Copy)]
struct Row<'a> {
    trees: &'a [SyntaxNode],
    start: usize,
    end: usize,
}

/// What is shown so far, and what isn't from now on.
#[derive(Drop)]
struct Shown<'a> {
    problems: Vec<Problem<'a>>,
    /// The byte up to which no error is shown.
    hidden_to: usize,
    /// The byte up to which none is shown either after the next error.
    next: usize,
}

/// The errors and warnings of a tree. Of the errors after an unclosed delimiter, in the node around it, only the
/// first is given. It looks at the nodes that have some, at them or below them, and at their children.
pub fn shown_problems<'a>(
    alloc: Global,
    root: &'a SyntaxNode,
) -> Result<Vec<Problem<'a>>, AllocError>
    ensures { IfOk result (λ found. map reported found.items ≡ spec.shown root.now) }
{
    let mut shown = Shown::new(alloc);
    let mut rows = Vec::new(alloc);
    push_row(&mut rows, Row::whole(root))?;
    while let Some(row) = rows.pop() {
        take_next(&mut shown, &mut rows, row)?;
    }
    Ok(shown.problems)
}

/// Takes the first node of a row: its own problems, and the rows below and after it.
fn take_next<'a>(
    shown: &mut Shown<'a>,
    rows: &mut Vec<Row<'a>>,
    row: Row<'a>,
) -> Result<(), AllocError>
    ensures taken { OnOk result (told shown.new (left_all rows.new.items) ≡ told shown.old (left row.entry ++ left_all rows.old.items)) }
    ensures fewer { OnOk result (steps_all rows.new.items < steps_left row.entry + steps_all rows.old.items) }
{
    let Some((node, rest)) = row.trees.split_first() else {
        return Ok(());
    };
    let node = Placed {
        node,
        start: row.start,
    };
    shown.add_own(node.node, node.start, row.end)?;
    push_row(rows, row.behind(node, rest))?;
    push_row(rows, Row::below(node))?;
    Ok(())
}

/// Puts a row on the others, from its first node on that has errors or warnings, unless none has.
fn push_row<'a>(rows: &mut Vec<Row<'a>>, row: Row<'a>) -> Result<(), AllocError>
    ensures left { OnOk result (left_all rows.new.items ≡ left row.entry ++ left_all rows.old.items) }
    ensures steps { OnOk result (steps_all rows.new.items ≤ steps_left row.entry + steps_all rows.old.items) }
{
    let marked = row.past_unmarked();
    if marked.trees.is_empty() {
        return Ok(());
    }
    rows.push(marked)?;
    Ok(())
}

impl<'a> Row<'a> {
    /// The row of a whole tree.
    fn whole(root: &'a SyntaxNode) -> Row<'a>
        ensures { left result ≡ spec.row_in 0 0 (more root.now.head root.now.kids none) }
    {
        Row {
            trees: slice::from_ref(root),
            start: 0,
            end: 0,
        }
    }

    /// The row from its first node on that has errors or warnings, at it or below it.
    fn past_unmarked(self) -> Row<'a>
        ensures left { left result ≡ left self.entry }
        ensures steps { steps_left result ≤ steps_left self.entry }
    {
        let mut row = self;
        while let Some((node, rest)) = row.trees.split_first() {
            if node.has_diagnostics() {
                return row;
            }
            let node = Placed {
                node,
                start: row.start,
            };
            row = row.behind(node, rest);
        }
        row
    }

    /// The row of what follows the first node.
    fn behind(self, node: Placed<'a>, rest: &'a [SyntaxNode]) -> Row<'a>
        ensures left { left result ≡ spec.row_in self.entry.end (bytes.behind node.entry.start node.entry.node.now.head node.entry.node.now.kids) (forest rest.now) }
        ensures steps { steps_left result ≡ 1 + steps (forest rest.now) }
    {
        Row {
            trees: rest,
            start: node.end(),
            end: self.end,
        }
    }

    /// The row of the children of a node.
    fn below(node: Placed<'a>) -> Row<'a>
        ensures left { left result ≡ spec.row_in (bytes.behind node.entry.start node.entry.node.now.head node.entry.node.now.kids) (bytes.inner node.entry.start node.entry.node.now.head) node.entry.node.now.kids }
        ensures steps { steps_left result ≡ 1 + steps node.entry.node.now.kids }
    {
        Row {
            trees: node.node.children(),
            start: node.inner_start(),
            end: node.end(),
        }
    }
}

impl<'a> Shown<'a> {
    /// Nothing so far.
    fn new(alloc: Global) -> Shown<'a>
        ensures problems { result.problems.items ≡ [] }
        ensures bytes { (result.hidden_to ≡ 0) × (result.next ≡ 0) }
    {
        Shown {
            problems: Vec::new(alloc),
            hidden_to: 0,
            next: 0,
        }
    }

    /// Takes the problems of a node itself that begins at a byte, in one that ends at another byte.
    fn add_own(&mut self, node: &'a SyntaxNode, start: usize, end: usize) -> Result<(), AllocError>
        ensures { OnOk result (Takes self.old self.new (spec.own_in end start (length (text_of node.now)) node.now.head.diagnostics)) }
    {
        for diagnostic in node.diagnostics() {
            let range = range_of(diagnostic, start, node.len());
            self.add(Problem { range, diagnostic }, end)?;
        }
        Ok(())
    }

    /// Takes a problem, in a node that ends at a byte.
    fn add(&mut self, problem: Problem<'a>, end: usize) -> Result<(), AllocError>
        ensures { OnOk result (Takes self.old self.new (record { problem = reported problem.entry; end = end } ∷ [])) }
    {
        if is_error(problem.diagnostic) {
            return self.add_error(problem, end);
        }
        self.problems.push(problem)?;
        Ok(())
    }

    /// Takes an error, which is shown unless it is hidden.
    fn add_error(&mut self, problem: Problem<'a>, end: usize) -> Result<(), AllocError>
        ensures problems { OnOk result (map reported self.new.problems.items ≡ map reported self.old.problems.items ++ unless_before self.old.hidden_to (reported problem.entry)) }
        ensures hidden { OnOk result (self.new.hidden_to ≡ max self.old.hidden_to self.old.next) }
        ensures next { OnOk result (self.new.next ≡ spec.swallows_to (record { problem = reported problem.entry; end = end })) }
    {
        let is_hidden = is_swallowed(&problem.range, self.hidden_to);
        self.hidden_to = self.hidden_to.max(self.next);
        self.next = swallows_to(problem.diagnostic, end);
        if !is_hidden {
            self.problems.push(problem)?;
        }
        Ok(())
    }
}

/// Whether an error of these bytes is in what is swallowed up to a byte, if anything is.
fn is_swallowed(range: &Range<usize>, byte: usize) -> bool
    ensures { result ≡ spec.is_swallowed byte range.now }
{
    0 < byte && range.end <= byte
}

/// Up to which byte a problem swallows what follows, in a node that ends at a byte.
fn swallows_to(diagnostic: &Diagnostic, end: usize) -> usize
    ensures { result ≡ (if spec.is_unclosed diagnostic.now then end else 0) }
{
    if is_unclosed(diagnostic) { end } else { 0 }
}

/// Whether an error is about a delimiter that nothing closes.
pub fn is_unclosed(diagnostic: &Diagnostic) -> bool
    ensures { result ≡ spec.is_unclosed diagnostic.now }
{
    is_error(diagnostic) && diagnostic.message() == UNCLOSED
}

fn is_error(diagnostic: &Diagnostic) -> bool
    ensures { result ≡ spec.is_error diagnostic.now }
{
    match diagnostic.severity() {
        Severity::Error => true,
        Severity::Warning => false,
    }
}

/// Whether a node is an error that begins as a text in quotes or a raw text does, as one that nothing closes.
pub fn is_open_text(node: &SyntaxNode) -> bool {
    let text = node.leaf_text();
    node.kind() == SyntaxKind::Error && (text.starts_with('"') || text.starts_with('`'))
}
