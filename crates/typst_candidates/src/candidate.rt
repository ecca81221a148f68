//! The first candidates of an edit, in order.

ghost use Rattle.std.specs.Prelude.{◌≡◌, ℕ, List, ◌+◌, ◌-◌, ◌<◌, ◌≤◌, ◌^◌, ◌++◌, ◌∷◌, [], IfOk, IfSome, OnOk, drop, length, map, option_and_then, suc, take};
ghost use Rattle.typst_language.specs.declared.calls.Note.{Note};
ghost use Rattle.typst_tree.specs.Tree.{forest, text_of};
ghost use Rattle.typst_candidates.specs.declared.entry.Entry.{Entry};
ghost use Rattle.typst_candidates.specs.Candidates.{laid, child_ranges, of_block, of_child_ranges, candidates, candidates_at};
ghost use Rattle.typst_candidates.specs.Entries.{end_of};
ghost use Rattle.typst_candidates.specs.Nested.{Written};
ghost use Rattle.typst_candidates.specs.Edges.{IsEdge, IsNear, IsRootEdge, IsRun, IsWhole, LeadsBy, Fits, below, bytes_of, pieces_at, spelled, within};
ghost use Rattle.typst_candidates.specs.Stops.{block_of, covering, found_in, found_in_all, inside, kids, run_of};
ghost use Rattle.typst_candidates.specs.Units.{top_cuts};

use crate::enclosing::{Enclosing, RunAt, Stop, run_of_child};
use crate::{ChildRange, Children, Cuts, Edge, Near, Records, Window};
use std::alloc::{AllocError, Global};
use typst_kinds::SyntaxKind;
use typst_tree::SyntaxNode;

/// Children of a node that an edit may read again: one block, or pieces of a run.
#[derive(Debug, Clone, Copy, PartialEq, Eq)]
pub struct Candidate {
    /// Whether it is a block.
    pub is_block: bool,
    /// How many steps from the root lead to the node.
    pub depth: usize,
    /// The first of the children.
    pub from: usize,
    /// The child after the last of them.
    pub to: usize,
    /// The byte at which the first begins.
    pub start: usize,
    /// The byte at which the last ends.
    pub end: usize,
}

/// The first candidates of an edit.
#[derive(Drop)]
pub struct Candidates {
    /// The index of the child at each step down. A candidate's own path is as much of it, from the front, as its
    /// depth says.
    pub path: Vec<usize>,
    /// The place before the first of the root's children near the replaced bytes. The path leads to this child, if
    /// it has steps.
    pub first: Edge,
    /// The candidates, in order.
    pub items: Vec<Candidate>,
    /// How many of the first were asked for in the end. If there are fewer, these are all.
    pub most: usize,
}

/// The units of the text, the known place between the root's children, the replaced bytes, how many candidates are
/// asked for, and where pieces of runs are looked up.
#[derive(Clone, Copy)]
struct CandidateSearch<'a> {
    records: &'a Records,
    known: Edge,
    start: usize,
    end: usize,
    most: usize,
    window: Window,
}

/// Candidates in order, and how many of the first were asked for in the end.
#[derive(Drop)]
struct Found {
    items: Vec<Candidate>,
    most: usize,
}

/// The children of a range as a candidate.
fn of_child_range(is_block: bool, depth: usize, range: ChildRange) -> Candidate
    ensures { result ≡ record { is_block = is_block; depth = depth; from = range.from.index; to = range.to.index; start = range.from.byte; end = range.to.byte } }
{
    Candidate {
        is_block,
        depth,
        from: range.from.index,
        to: range.to.index,
        start: range.from.byte,
        end: range.to.byte,
    }
}

/// The children of a stop near the replaced bytes as a block.
fn block_of(stop: Stop<'_>) -> Candidate
    ensures { (path : List ℕ) → spelled path result ≡ block_of path stop.entry }
{
    let alone = ChildRange {
        from: stop.near.first,
        to: stop.near.end,
    };
    of_child_range(true, stop.depth, alone)
}

/// Adds the one child near the replaced bytes, of this kind, if it is a block.
fn push_block<'t>(
    around: &mut Vec<Enclosing<'t>>,
    stop: Stop<'t>,
    child: SyntaxKind,
) -> Result<(), AllocError>
    requires { stop.near.end.index ≡ suc stop.near.first.index }
    ensures { OnOk result ((es : List Entry) (path : List ℕ) → found_in_all es path around.new.items ≡ of_block (take stop.entry.depth path) (inside stop.entry) (kids stop.entry) stop.entry.near.first.index child ++ found_in_all es path around.old.items) }
{
    if !child.is_block() {
        return Ok(());
    }
    around.push(Enclosing::Block(stop))?;
    Ok(())
}

/// Adds the children of a stop, if they are a run.
fn push_run<'t>(
    around: &mut Vec<Enclosing<'t>>,
    stop: Stop<'t>,
    run: Option<RunAt>,
) -> Result<(), AllocError>
    ensures { OnOk result ((es : List Entry) (path : List ℕ) → found_in_all es path around.new.items ≡ run_of path stop.entry (option_and_then (pieces_at es) run) ++ found_in_all es path around.old.items) }
{
    let Some(run) = run else {
        return Ok(());
    };
    around.push(Enclosing::Run(stop, run))?;
    Ok(())
}

/// Adds the first `room` candidates of a run: the pieces with 1, 2, 4, .. more children on each side, until all
/// are taken, or up to the first that reach out of the window in which the run's pieces were looked up. Answers
/// how many were asked for in the end.
fn add_pieces(
    found: &mut Vec<Candidate>,
    children: &Children<'_>,
    cuts: &Cuts,
    near: Near,
    depth: usize,
    room: usize,
) -> Result<usize, AllocError>
    requires fits { Fits children.now.at children.now.kids.now }
    requires first { IsEdge children.now.at children.now.kids.now near.first }
    requires end { IsEdge children.now.at children.now.kids.now near.end }
    requires order { near.first.index ≤ near.end.index }
    ensures added { IfOk result (λ most. (bs : List ℕ) → bytes_of cuts.now ≡ within cuts.now.window bs → (path : List ℕ) → map (spelled path) found.new.items ≡ map (spelled path) found.old.items ++ take most (of_child_ranges (take depth path) children.now.at children.now.kids.now (child_ranges bs (laid children.now.at children.now.kids.now) near.first.index near.end.index (suc (length children.now.kids.now)) 1))) }
    ensures most { IfOk result (λ most. most ≤ room) }
    ensures whole { IsWhole cuts.now.window → IfOk result (λ most. most ≡ room) }
{
    let mut more: usize = 1;
    for added in 0..room.min(children.len() + 1) {
        let range = children.around(cuts, near, more);
        if !range.lies_in(cuts.window) {
            return Ok(added);
        }
        found.push(of_child_range(false, depth, range))?;
        if children.is_all(range) {
            return Ok(room);
        }
        more *= 2;
    }
    Ok(room)
}

impl CandidateSearch<'_> {
    /// The stop at the root, whose children near the replaced bytes are looked for from the known place.
    fn top<'t>(&self, root: &'t SyntaxNode) -> Stop<'t>
        requires order { self.now.start ≤ self.now.end }
        requires fits { length (text_of root.now) < 2 ^ 64 }
        requires edge { IsRootEdge root.now self.now.known }
        ensures node { result.node.now ≡ root.now }
        ensures at { result.at ≡ 0 }
        ensures depth { result.depth ≡ 0 }
        ensures near { IsNear (inside result) (kids result) self.now.start self.now.end result.near }
    {
        let children = Children::of(root, 0);
        let near = children.near_from(self.known, self.start, self.end);
        Stop {
            node: root,
            at: 0,
            near,
            depth: 0,
        }
    }

    /// The stop at a node that begins at byte `at`, `depth` steps below the root.
    fn stop<'t>(&self, node: &'t SyntaxNode, at: usize, depth: usize) -> Stop<'t>
        requires order { self.now.start ≤ self.now.end }
        requires fits { at + length (text_of node.now) < 2 ^ 64 }
        ensures node { result.node.now ≡ node.now }
        ensures at { result.at ≡ at }
        ensures depth { result.depth ≡ depth }
        ensures near { IsNear (inside result) (kids result) self.now.start self.now.end result.near }
    {
        let children = Children::of(node, at);
        let near = children.near(self.start, self.end);
        Stop {
            node,
            at,
            near,
            depth,
        }
    }

    /// The child of a stop that covers the replaced bytes.
    fn covering<'t>(&self, stop: Stop<'t>) -> Option<&'t SyntaxNode>
        ensures none { result ≡ None → covering self.now.start self.now.end stop.entry ≡ None }
        ensures some { IfSome result (λ child. covering self.now.start self.now.end stop.entry ≡ Some child.now) }
    {
        let child = stop.node.children().get(stop.near.first.index)?;
        if !stop.near.covers(self.start, self.end, child) {
            return None;
        }
        Some(child)
    }

    /// The runs and blocks around the replaced bytes below a stop, each before those in it. The steps down to the
    /// deepest node are added to the stop's path. Any other node on the way, as a link of a chain, takes only its
    /// step.
    fn below<'t>(
        &self,
        alloc: Global,
        top: Stop<'t>,
        path: &mut Vec<usize>,
    ) -> Result<Vec<Enclosing<'t>>, AllocError>
        requires order { self.now.start ≤ self.now.end }
        requires near { IsNear (inside top) (kids top) self.now.start self.now.end top.near }
        requires depth { top.depth ≡ length path.old.items }
        ensures path { OnOk result (take (length path.old.items) path.new.items ≡ path.old.items) }
        ensures way { OnOk result (LeadsBy top.entry.near.first.index (drop (length path.old.items) path.new.items)) }
        ensures found { IfOk result (λ around. (ns : List Note) → Written self.now.records.now.units.entries ns → found_in_all self.now.records.now.units.entries path.new.items around.items ≡ below ns self.now.start self.now.end path.old.items top.entry.at top.entry.node.now) }
    {
        let mut around = Vec::new(alloc);
        let mut stop = top;
        while let Some(child) = self.covering(stop) {
            path.push(stop.near.first.index)?;
            push_block(&mut around, stop, child.kind())?;
            let run = run_of_child(stop.node.kind(), child.kind(), stop.at);
            stop = self.stop(child, stop.near.first.byte, path.len());
            push_run(&mut around, stop, run)?;
        }
        Ok(around)
    }

    /// Where the pieces of a run begin within the window, if it has any. Goes through the entries up to the window's
    /// end.
    fn cuts(&self, alloc: Global, run: RunAt) -> Result<Option<Cuts>, AllocError>
        requires { end_of 0 self.now.records.now.units.entries < 2 ^ 64 }
        ensures { IfOk result (λ cuts. IsRun self.now.window (pieces_at self.now.records.now.units.entries run) cuts) }
    {
        match run {
            RunAt::Text => self.records.top_run(alloc, self.window),
            RunAt::Block(at) => self.records.run_in(alloc, at, self.window),
        }
    }

    /// No candidates, where as many are asked for as at first.
    fn nothing(&self, alloc: Global) -> Found
        ensures items { result.items.items ≡ [] }
        ensures most { result.most ≡ self.now.most }
    {
        Found {
            items: Vec::new(alloc),
            most: self.most,
        }
    }

    /// Adds the candidates of a run, as many as there is room for, which is one at least.
    fn add_run(
        &self,
        alloc: Global,
        stop: Stop<'_>,
        run: RunAt,
        found: &mut Found,
    ) -> Result<(), AllocError>
        requires places { end_of 0 self.now.records.now.units.entries < 2 ^ 64 }
        requires room { length found.old.items.items < found.old.most }
        ensures found { OnOk result ((path : List ℕ) → map (spelled path) found.new.items.items ≡ take found.new.most (map (spelled path) found.old.items.items ++ run_of path stop.entry (pieces_at self.now.records.now.units.entries run))) }
        ensures most { OnOk result (found.new.most ≤ found.old.most) }
        ensures whole { IsWhole self.now.window → OnOk result (found.new.most ≡ found.old.most) }
    {
        let Some(cuts) = self.cuts(alloc, run)? else {
            return Ok(());
        };
        let children = Children::of(stop.node, stop.at);
        let before = found.items.len();
        let room = found.most - before;
        let added = add_pieces(
            &mut found.items,
            &children,
            &cuts,
            stop.near,
            stop.depth,
            room,
        )?;
        found.most = before + added;
        Ok(())
    }

    /// Adds the candidates of a block or a run, as many as there is room for. A run's pieces are looked up only if
    /// there is room.
    fn add(&self, alloc: Global, around: Enclosing<'_>, found: &mut Found) -> Result<(), AllocError>
        requires places { end_of 0 self.now.records.now.units.entries < 2 ^ 64 }
        requires room { length found.old.items.items ≤ found.old.most }
        ensures found { OnOk result ((path : List ℕ) → map (spelled path) found.new.items.items ≡ take found.new.most (map (spelled path) found.old.items.items ++ found_in self.now.records.now.units.entries path around.entry)) }
        ensures most { OnOk result (found.new.most ≤ found.old.most) }
        ensures whole { IsWhole self.now.window → OnOk result (found.new.most ≡ found.old.most) }
    {
        if found.items.len() >= found.most {
            return Ok(());
        }
        match around {
            Enclosing::Block(stop) => {
                found.items.push(block_of(stop))?;
                Ok(())
            }
            Enclosing::Run(stop, run) => self.add_run(alloc, stop, run, found),
        }
    }

    /// The first candidates of several runs and blocks, each of which is before those in it.
    fn found_in_all(
        &self,
        alloc: Global,
        mut around: Vec<Enclosing<'_>>,
    ) -> Result<Found, AllocError>
        requires { end_of 0 self.now.records.now.units.entries < 2 ^ 64 }
        ensures found { IfOk result (λ found. (path : List ℕ) → map (spelled path) found.items.items ≡ take found.most (found_in_all self.now.records.now.units.entries path around.entry.items)) }
        ensures most { IfOk result (λ found. found.most ≤ self.now.most) }
        ensures whole { IsWhole self.now.window → IfOk result (λ found. found.most ≡ self.now.most) }
    {
        let mut found = self.nothing(alloc);
        while let Some(innermost) = around.pop() {
            self.add(alloc, innermost, &mut found)?;
        }
        Ok(found)
    }

    /// The first candidates of a text, by the stop at its root. The steps down to the deepest node that covers the
    /// replaced bytes are added to the path.
    fn candidates(
        &self,
        alloc: Global,
        top: Stop<'_>,
        path: &mut Vec<usize>,
    ) -> Result<Found, AllocError>
        requires order { self.now.start ≤ self.now.end }
        requires near { IsNear (inside top) (kids top) self.now.start self.now.end top.near }
        requires depth { top.depth ≡ length path.old.items }
        requires places { end_of 0 self.now.records.now.units.entries < 2 ^ 64 }
        ensures found { IfOk result (λ found. (ns : List Note) → Written self.now.records.now.units.entries ns → map (spelled path.new.items) found.items.items ≡ take found.most (candidates_at ns self.now.start self.now.end path.old.items (top_cuts ns) 0 top.entry.at (forest (top.entry.node.now ∷ [])))) }
        ensures way { OnOk result (LeadsBy top.entry.near.first.index (drop (length path.old.items) path.new.items)) }
        ensures most { IfOk result (λ found. found.most ≤ self.now.most) }
        ensures whole { IsWhole self.now.window → IfOk result (λ found. found.most ≡ self.now.most) }
    {
        let around = self.below(alloc, top, path)?;
        let mut found = self.found_in_all(alloc, around)?;
        self.add(alloc, Enclosing::Run(top, RunAt::Text), &mut found)?;
        Ok(found)
    }
}

/// The first `most` candidates of replacing the bytes `start..end` of a text, by its tree and the units of
/// its reading, in order; all with `usize::MAX`. The root's children near these bytes are looked for from the
/// place `known` between them, or from an end that is nearer. The pieces of a run are looked up only where what comes
/// before them leaves room, and only up to `reach` bytes on each side of the replaced ones: the candidates before
/// the first that reaches farther are all that are given, and `most` says how many these are. With `usize::MAX`
/// none reaches farther.
pub fn find_candidates_from(
    alloc: Global,
    root: &SyntaxNode,
    known: Edge,
    records: &Records,
    start: usize,
    end: usize,
    most: usize,
    reach: usize,
) -> Result<Candidates, AllocError>
    requires order { start ≤ end }
    requires fits { length (text_of root.now) < 2 ^ 64 }
    requires edge { IsRootEdge root.now known }
    requires places { end_of 0 records.now.units.entries < 2 ^ 64 }
    ensures found { IfOk result (λ found. (ns : List Note) → Written records.now.units.entries ns → map (spelled found.path.items) found.items.items ≡ take found.most (candidates ns start end root.now)) }
    ensures first { IfOk result (λ found. IsRootEdge root.now found.first) }
    ensures way { IfOk result (λ found. LeadsBy found.first.index found.path.items) }
    ensures most { IfOk result (λ found. found.most ≤ most) }
    ensures whole { reach ≡ 2 ^ 64 - 1 → IfOk result (λ found. found.most ≡ most) }
{
    let window = Window {
        from: start.saturating_sub(reach),
        to: end.saturating_add(reach),
    };
    let search = CandidateSearch {
        records,
        known,
        start,
        end,
        most,
        window,
    };
    let top = search.top(root);
    let mut path = Vec::new(alloc);
    let found = search.candidates(alloc, top, &mut path)?;
    let Found { items, most } = found;
    Ok(Candidates {
        path,
        first: top.near.first,
        items,
        most,
    })
}

/// The first `most` candidates of replacing the bytes `start..end` of a text, as `find_candidates_from` gives them;
/// the root's children near these bytes are looked for from the nearer end.
pub fn find_candidates(
    alloc: Global,
    root: &SyntaxNode,
    records: &Records,
    start: usize,
    end: usize,
    most: usize,
    reach: usize,
) -> Result<Candidates, AllocError>
    requires order { start ≤ end }
    requires fits { length (text_of root.now) < 2 ^ 64 }
    requires places { end_of 0 records.now.units.entries < 2 ^ 64 }
    ensures found { IfOk result (λ found. (ns : List Note) → Written records.now.units.entries ns → map (spelled found.path.items) found.items.items ≡ take found.most (candidates ns start end root.now)) }
    ensures most { IfOk result (λ found. found.most ≤ most) }
    ensures whole { reach ≡ 2 ^ 64 - 1 → IfOk result (λ found. found.most ≡ most) }
{
    let front = Edge::front_of(root);
    find_candidates_from(alloc, root, front, records, start, end, most, reach)
}
