//! Edits that take an error or a warning away.

ghost use Rattle.std.specs.Prelude.{◌≡◌, ℕ, ◌++◌, ◌∷◌, ◌+◌, ◌<◌, ◌≤◌, [], IfOk, OnOk, option_map};
ghost use Rattle.std.specs.List.{flat_map};
ghost use Rattle.std.specs.declared.ops.Range.{Range};
ghost use Rattle.typst_tree.specs.Tree.{forest};
ghost use Rattle.typst_names.specs.Around.{standing};
ghost use Rattle.typst_names.specs.Bytes as bytes;
ghost use Rattle.typst_fixes.specs.Closers as closers;
ghost use Rattle.typst_fixes.specs.FixRows.{around, left, left_all, steps, steps_all, steps_left};
ghost use Rattle.typst_fixes.specs.Fixes as spec;

use crate::gaps::{Gap, LineEnds, gap_before, is_kept};
use crate::hints::{backslash_at, proposed_by, space_before_bracket, touch, wants_block};
use crate::wrapping::labelled;
use std::alloc::{AllocError, Global};
use std::ops::Range;
use std::slice;
use typst_features::{is_unclosed, range_of};
use typst_kinds::{Diagnostic, Hint, SyntaxKind};
use typst_names::Placed;
use typst_tree::SyntaxNode;

/// A row with more nodes isn't searched for each fault in it: that would take time by the square.
const LONG_ROW: usize = 1024;

/// What a fix does.
#[derive(Debug, Clone, Copy, PartialEq, Eq)]
pub enum FixKind {
    /// It closes a delimiter at the end of a line, while the next fix does so at the end of its node.
    LineEnd,
    /// It closes a delimiter at the end of its node.
    NodeEnd,
    /// It puts a backslash before what is no syntax.
    Escape,
    /// It makes a content block of code and the label after it.
    Wrap,
    /// It does what another hint says.
    Rewrite,
}

/// A text in the place of some bytes.
#[derive(Debug, PartialEq, Eq, Drop)]
pub struct Edit<'a> {
    /// The bytes that give way.
    pub range: Range<usize>,
    /// What is put in their place: this, and a space on a side where it would touch a word.
    pub text: &'a str,
    pub space_before: bool,
    pub space_behind: bool,
}

/// One or two edits that together take an error or a warning away.
#[derive(Debug, PartialEq, Eq, Drop)]
pub struct Fix<'a> {
    pub kind: FixKind,
    /// The bytes of the error or the warning.
    pub problem: Range<usize>,
    pub edit: Edit<'a>,
    /// An edit after the bytes of the first one.
    pub further: Option<Edit<'a>>,
}

/// A node with what is around it: its parent, if it has one, and in its row the node before it and all after it.
#[derive(Clone, Copy)]
struct Site<'a> {
    node: Placed<'a>,
    parent: Option<Placed<'a>>,
    before: Option<Placed<'a>>,
    behind: &'a [SyntaxNode],
}

/// An error or a warning of a node.
#[derive(Drop)]
struct Fault<'a> {
    site: Site<'a>,
    problem: Range<usize>,
}

/// Nodes side by side from a byte on, their parent, and the node before them in it.
#[derive(Clone, Copy)]
struct Row<'a> {
    trees: &'a [SyntaxNode],
    start: usize,
    parent: Option<Placed<'a>>,
    before: Option<Placed<'a>>,
}

/// The fixes so far, and the lines of the text.
#[derive(Drop)]
struct Found<'a, 't> {
    fixes: Vec<Fix<'a>>,
    lines: LineEnds<'t>,
}

/// The edits that remove errors and warnings which touch a range of bytes, those of a node before those of its
/// children: they add a missing closing delimiter, or do what a hint says. It looks at the nodes that have errors
/// and warnings, at them or below them, and at their children; for a closing delimiter also at those around its
/// place, and at their children; for a label after code at the first and the last nodes within the two.
pub fn quick_fixes<'a>(
    alloc: Global,
    root: &'a SyntaxNode,
    text: &str,
    within: &Range<usize>,
) -> Result<Vec<Fix<'a>>, AllocError>
    ensures { IfOk result (λ found. spec.stated found.items ≡ spec.fixes within.now root.now) }
{
    let mut found = Found::new(alloc, text);
    let mut rows = Vec::new(alloc);
    push_row(&mut rows, Row::whole(root))?;
    while let Some(row) = rows.pop() {
        take_next(&mut found, &mut rows, row, within)?;
    }
    Ok(found.fixes)
}

/// Takes the first node of a row: its own faults, and the rows below and after it.
fn take_next<'a>(
    found: &mut Found<'a, '_>,
    rows: &mut Vec<Row<'a>>,
    row: Row<'a>,
    within: &Range<usize>,
) -> Result<(), AllocError>
    ensures taken { OnOk result (spec.stated found.new.fixes.items ++ left_all within.now rows.new.items ≡ spec.stated found.old.fixes.items ++ (left within.now row.entry ++ left_all within.now rows.old.items)) }
    ensures fewer { OnOk result (steps_all rows.new.items < steps_left row.entry + steps_all rows.old.items) }
{
    let Some((node, rest)) = row.trees.split_first() else {
        return Ok(());
    };
    let node = Placed {
        node,
        start: row.start,
    };
    found.add_own(row.site(node, rest), within)?;
    push_row(rows, row.behind(node, rest))?;
    push_row(rows, Row::below(node))?;
    Ok(())
}

/// Puts a row on the others, from its first node on that has errors or warnings, unless none has.
fn push_row<'a>(rows: &mut Vec<Row<'a>>, row: Row<'a>) -> Result<(), AllocError>
    ensures left { OnOk result ((w : Range ℕ) → left_all w rows.new.items ≡ left w row.entry ++ left_all w rows.old.items) }
    ensures steps { OnOk result (steps_all rows.new.items ≤ steps_left row.entry + steps_all rows.old.items) }
{
    let marked = row.past_unmarked();
    if marked.trees.is_empty() {
        return Ok(());
    }
    rows.push(marked)?;
    Ok(())
}

impl<'a> Row<'a> {
    /// The row of a whole tree.
    fn whole(root: &'a SyntaxNode) -> Row<'a>
        ensures { (w : Range ℕ) → left w result ≡ spec.fixes w root.now }
    {
        Row {
            trees: slice::from_ref(root),
            start: 0,
            parent: None,
            before: None,
        }
    }

    /// The row from its first node on that has errors or warnings, at it or below it.
    fn past_unmarked(self) -> Row<'a>
        ensures left { (w : Range ℕ) → left w result ≡ left w self.entry }
        ensures steps { steps_left result ≤ steps_left self.entry }
    {
        let mut row = self;
        while let Some((node, rest)) = row.trees.split_first() {
            if node.has_diagnostics() {
                return row;
            }
            let node = Placed {
                node,
                start: row.start,
            };
            row = row.behind(node, rest);
        }
        row
    }

    /// The first node of the row with what is around it.
    fn site(self, node: Placed<'a>, rest: &'a [SyntaxNode]) -> Site<'a>
        ensures { around result ≡ record { node = standing node.entry; parent = option_map standing self.entry.parent; before = option_map standing self.entry.before; behind = forest rest.now } }
    {
        Site {
            node,
            parent: self.parent,
            before: self.before,
            behind: rest,
        }
    }

    /// The row of what follows the first node.
    fn behind(self, node: Placed<'a>, rest: &'a [SyntaxNode]) -> Row<'a>
        ensures left { (w : Range ℕ) → left w result ≡ spec.row w (option_map standing self.entry.parent) (Some (standing node.entry)) (bytes.behind node.entry.start node.entry.node.now.head node.entry.node.now.kids) (forest rest.now) }
        ensures steps { steps_left result ≡ 1 + steps (forest rest.now) }
    {
        Row {
            trees: rest,
            start: node.end(),
            parent: self.parent,
            before: Some(node),
        }
    }

    /// The row of the children of a node.
    fn below(node: Placed<'a>) -> Row<'a>
        ensures left { (w : Range ℕ) → left w result ≡ spec.row w (Some (standing node.entry)) None (bytes.inner node.entry.start node.entry.node.now.head) node.entry.node.now.kids }
        ensures steps { steps_left result ≡ 1 + steps node.entry.node.now.kids }
    {
        Row {
            trees: node.node.children(),
            start: node.inner_start(),
            parent: Some(node),
            before: None,
        }
    }
}

impl<'a, 't> Found<'a, 't> {
    /// Nothing so far, of a text.
    fn new(alloc: Global, text: &'t str) -> Found<'a, 't>
        ensures { result.fixes.items ≡ [] }
    {
        Found {
            fixes: Vec::new(alloc),
            lines: LineEnds::new(text),
        }
    }

    /// Adds what can be done about the faults of a node itself which touch a range.
    fn add_own(&mut self, site: Site<'a>, within: &Range<usize>) -> Result<(), AllocError>
        ensures { OnOk result (spec.stated self.new.fixes.items ≡ spec.stated self.old.fixes.items ++ flat_map (spec.of_diagnostic within.now (around site.entry)) site.entry.node.node.now.head.diagnostics) }
    {
        for diagnostic in site.node.node.diagnostics() {
            let problem = range_of(diagnostic, site.node.start, site.node.node.len());
            self.add(&Fault { site, problem }, diagnostic, within)?;
        }
        Ok(())
    }

    /// Adds all that can be done about a fault, if it touches a range.
    fn add(
        &mut self,
        fault: &Fault<'a>,
        diagnostic: &'a Diagnostic,
        within: &Range<usize>,
    ) -> Result<(), AllocError>
        ensures { OnOk result (spec.stated self.new.fixes.items ≡ spec.stated self.old.fixes.items ++ spec.of_fault within.now (around fault.now.site) fault.now.problem diagnostic.now) }
    {
        if !touches(&fault.problem, within) {
            return Ok(());
        }
        self.add_closers(fault, diagnostic)?;
        self.add_told(fault, diagnostic.hints())?;
        Ok(())
    }

    /// Adds what hints say.
    fn add_told(&mut self, fault: &Fault<'a>, hints: &'a [Hint]) -> Result<(), AllocError>
        ensures { OnOk result (spec.stated self.new.fixes.items ≡ spec.stated self.old.fixes.items ++ flat_map (spec.of_hint (around fault.now.site) fault.now.problem) hints.now) }
    {
        for hint in hints {
            self.push(fault.told_by(hint, self.lines.text))?;
        }
        Ok(())
    }

    /// Adds the closing delimiter that is missing, if one is: at the end of the line, if the node goes on after that,
    /// and at the node's end, each time before space and comments.
    fn add_closers(&mut self, fault: &Fault<'a>, diagnostic: &Diagnostic) -> Result<(), AllocError>
        ensures { OnOk result (spec.stated self.new.fixes.items ≡ spec.stated self.old.fixes.items) }
    {
        if !is_unclosed(diagnostic) {
            return Ok(());
        }
        let Some((closer, around)) = fault.closer_within() else {
            return Ok(());
        };
        let line_end = self.lines.end_from(fault.problem.end);
        self.push(fault.close_line(closer, around, line_end, self.lines.text))?;
        self.push(fault.close_node(closer, around, self.lines.text))?;
        Ok(())
    }

    /// Adds a fix, if there is one.
    fn push(&mut self, fix: Option<Fix<'a>>) -> Result<(), AllocError>
        ensures { OnOk result (spec.stated self.new.fixes.items ≡ spec.stated self.old.fixes.items ++ spec.stated_of fix.entry) }
    {
        let Some(fix) = fix else {
            return Ok(());
        };
        self.fixes.push(fix)?;
        Ok(())
    }
}

/// Whether two ranges of bytes have a byte or an end in common.
fn touches(problem: &Range<usize>, within: &Range<usize>) -> bool
    ensures { result ≡ spec.touch problem.now within.now }
{
    problem.start <= within.end && within.start <= problem.end
}

impl<'a> Fault<'a> {
    /// What a hint says, where that is an edit.
    fn told_by(&self, hint: &'a Hint, text: &str) -> Option<Fix<'a>>
        ensures { spec.stated_of result ≡ spec.of_hint (around self.now.site) self.now.problem hint.now }
    {
        if wants_block(hint.message()) {
            return self.wrap();
        }
        match backslash_at(hint.message(), &self.problem) {
            Some(byte) => self.escape(byte),
            None => self.rewrite(hint, text),
        }
    }

    /// A fix that puts a backslash at a byte, where it would stand in markup.
    fn escape(&self, byte: usize) -> Option<Fix<'a>>
        ensures { spec.stated_of result ≡ spec.escapes (around self.now.site) self.now.problem (Some byte) }
    {
        if self.takes_backslash() {
            Some(self.put(FixKind::Escape, byte..byte, "\\"))
        } else {
            None
        }
    }

    /// Whether a backslash put before the fault would stand in markup. In a long row it isn't asked whether a node
    /// before the fault would keep it.
    fn takes_backslash(&self) -> bool
        ensures { result ≡ spec.takes_backslash (option_map standing self.now.site.parent) self.now.problem.start }
    {
        let Some(parent) = self.site.parent else {
            return false;
        };
        if !parent.node.kind().same(SyntaxKind::Markup) {
            return false;
        }
        if LONG_ROW < parent.node.children().len() {
            return true;
        }
        !is_kept(parent, self.problem.start, "\\")
    }

    /// A fix that makes a content block of the code before a missing end of a statement, and of the label after
    /// it.
    fn wrap(&self) -> Option<Fix<'a>>
        ensures { spec.stated_of result ≡ spec.wraps (around self.now.site) self.now.problem }
    {
        if self.problem.start < self.problem.end {
            return None;
        }
        let bytes = labelled(self.site.before?, self.site.behind, self.problem.end)?;
        Some(self.around(bytes))
    }

    /// A fix that puts a content block around some bytes. After a hash code is read as code.
    fn around(&self, bytes: Range<usize>) -> Fix<'a>
        ensures kind { result.kind ≡ FixKind.Wrap }
        ensures made { spec.made result ≡ record { problem = self.now.problem; changes = spec.around bytes } }
    {
        let Range { start, end } = bytes;
        Fix {
            further: Some(edit_of(end..end, "]")),
            ..self.put(FixKind::Wrap, start..start, "[#")
        }
    }

    /// What other hints say.
    fn rewrite(&self, hint: &'a Hint, text: &str) -> Option<Fix<'a>>
        ensures { spec.stated_of result ≡ [] }
    {
        let Range { start, end } = self.problem;
        match hint.message() {
            "try removing the `#`" => Some(self.put(FixKind::Rewrite, start..end, "")),
            "there may not be any spaces before the argument list" => {
                let space = space_before_bracket(text.get(end..)?)?;
                Some(self.put(FixKind::Rewrite, end..end.saturating_add(space), ""))
            }
            "to treat this as text, add a space after the initial backticks" => {
                let inner = hint.sub_range()?.start();
                let at = self.site.node.start.saturating_add(inner);
                Some(self.put(FixKind::Rewrite, at..at, " "))
            }
            message => {
                let word = proposed_by(message)?;
                Some(self.put_word(word, text))
            }
        }
    }

    /// A text in the place of the whole fault. Where a letter would touch a word, a space parts them.
    fn put_word(&self, word: &'a str, text: &str) -> Fix<'a>
        ensures { result.kind ≡ FixKind.Rewrite }
    {
        let Range { start, end } = self.problem;
        let before = text
            .get(..start)
            .and_then(|front| front.chars().next_back());
        let behind = text.get(end..).and_then(|rest| rest.chars().next());
        let (first, last) = (word.chars().next(), word.chars().next_back());
        let edit = Edit {
            space_before: touch(before, first),
            space_behind: touch(last, behind),
            ..edit_of(start..end, word)
        };
        self.fix(FixKind::Rewrite, edit)
    }

    /// What closes the delimiter that the fault is about, and the node around it.
    fn closer_within(&self) -> Option<(&'static str, Placed<'a>)> {
        let closer = closer_of(self.site.node.node.leaf_text())?;
        Some((closer, self.site.parent?))
    }

    /// The closing delimiter at the end of the line, if that isn't at the end of the node.
    fn close_line(
        &self,
        closer: &'static str,
        around: Placed<'a>,
        line_end: usize,
        text: &str,
    ) -> Option<Fix<'a>>
        ensures { spec.stated_of result ≡ [] }
    {
        let gap = gap_before(around, line_end, closer)?;
        let last = gap_before(around, around.end(), closer);
        if gap.byte < last.map_or(around.end(), |last| last.byte) {
            Some(self.close(FixKind::LineEnd, closer, gap, text))
        } else {
            None
        }
    }

    /// The closing delimiter at the end of the node around it.
    fn close_node(&self, closer: &'static str, around: Placed<'a>, text: &str) -> Option<Fix<'a>>
        ensures { spec.stated_of result ≡ [] }
    {
        let gap = gap_before(around, around.end(), closer)?;
        Some(self.close(FixKind::NodeEnd, closer, gap, text))
    }

    /// A fix that puts a closing delimiter into a gap. A star and a slash after it would be one sign.
    fn close(&self, kind: FixKind, closer: &'static str, gap: Gap, text: &str) -> Fix<'a>
        ensures { result.kind ≡ kind }
    {
        let is_before_slash = text
            .get(gap.byte..)
            .is_some_and(|rest| rest.starts_with('/'));
        let edit = Edit {
            space_before: gap.space_before,
            space_behind: closer == "*" && is_before_slash,
            ..edit_of(gap.byte..gap.byte, closer)
        };
        self.fix(kind, edit)
    }

    /// A fix that puts a text in the place of some bytes.
    fn put(&self, kind: FixKind, range: Range<usize>, text: &'static str) -> Fix<'a>
        ensures kind { result.kind ≡ kind }
        ensures made { spec.made result ≡ record { problem = self.now.problem; changes = record { range = range; text = text.now } ∷ [] } }
    {
        self.fix(kind, edit_of(range, text))
    }

    /// A fix by one edit.
    fn fix(&self, kind: FixKind, edit: Edit<'a>) -> Fix<'a>
        ensures kind { result.kind ≡ kind }
        ensures made { spec.made result ≡ record { problem = self.now.problem; changes = spec.change edit.entry ∷ [] } }
    {
        Fix {
            kind,
            problem: self.problem.start..self.problem.end,
            edit,
            further: None,
        }
    }
}

/// A text in the place of some bytes, without space.
fn edit_of<'t>(range: Range<usize>, text: &'t str) -> Edit<'t>
    ensures { spec.change result ≡ record { range = range; text = text.now } }
{
    Edit {
        range,
        text,
        space_before: false,
        space_behind: false,
    }
}

/// The delimiter that closes another one.
fn closer_of(opener: &str) -> Option<&'static str>
    ensures { option_map (λ closer. closer.now) result ≡ closers.closer_of opener.now }
{
    match opener {
        "(" => Some(")"),
        "[" => Some("]"),
        "{" => Some("}"),
        "$" => Some("$"),
        "*" => Some("*"),
        "_" => Some("_"),
        _ => None,
    }
}
