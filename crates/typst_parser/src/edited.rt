//! Reads again what an edit of a text may have changed.

ghost use Rattle.std.specs.Prelude.{◌≡◌, ℕ, ◌<◌, ◌≤◌, ◌^◌, Some, None, IfOk, IfSome, OnOk, OnErr, List, length, take, true};
ghost use Rattle.typst_tree.specs.Tree.{Tree, text_of, trees};
ghost use Rattle.typst_tree.specs.Boundaries.{IsBoundary};
ghost use Rattle.typst_tree.specs.Order.{AreInOrder, IsNumbered, numbers_of};
ghost use Rattle.typst_tree.specs.Replace.{Reaches};
ghost use Rattle.typst_candidates.specs.Edges.{IsRootEdge};
ghost use Rattle.typst_edits.specs.Edit.{Among};
ghost use Rattle.typst_parser.specs.Attempt.{Speaks, at_path};
ghost use Rattle.typst_parser.specs.TextReplacement.{TextReplacement, Makes, Holds, candidates};
ghost use Rattle.typst_parser.specs.Steps.{GoesOn, ServesFor, ServesOr};
ghost use Rattle.typst_parser.specs.Reparse.{AreFirst, CanTake, CanTakeFirst, NonePasses, NonePassesOf, Puts, Takes, TakesFirst, TakesPlace, first_changed};

use crate::attempt::{Asked, Attempt, ReparsedPart, Serving};
use crate::replacement::Replacement;
use std::alloc::{AllocError, Global};
use std::ops::Range;
use typst_candidates::{Candidate, Candidates, Edge, Records, find_candidates_from};
use typst_kinds::SourceError;
use typst_lines::Classes;
use typst_tree::{Boundary, SyntaxNode};

/// How many candidates are looked up at first. The first one nearly always passes, and these few are found around the
/// edit; finding all goes on from there to the ends of each run around the edit.
const FEW: usize = 4;

/// Within how many bytes of an edit pieces of runs are looked up at first. Those around an edit lie within a few
/// hundred bytes; the further pieces of a long run cost more than all else that an edit does.
const REACH: usize = 1000;

/// What was read again of an edited text.
#[derive(Drop)]
pub struct Reread {
    /// Its range in the new text, in bytes.
    pub range: Range<usize>,
    /// A place between the root's children, before those that were read again, at least in part.
    pub boundary: Boundary,
}

/// Reads the first candidate of an edited text that passes and whose nodes find numbers, and puts its nodes and units
/// in place. Answers what was read, or `None` if there is none: then the tree and the units stay as they were. The
/// root's children near the edit are looked for from the place `boundary` between them, or from an end that is nearer.
pub fn reparse<C: Classes>(
    alloc: Global,
    root: &mut SyntaxNode,
    records: &mut Records,
    boundary: Boundary,
    new: &str,
    edit: Replacement,
    classes: &C,
) -> Result<Option<Reread>, AllocError>
    requires edits { (c : TextReplacement) × (Makes c new.now edit × Holds (C.classes classes.now) c root.old records.old.units) }
    requires boundary { IsBoundary root.old boundary }
    ensures part { (c : TextReplacement) → Makes c new.now edit → Holds (C.classes classes.now) c root.old records.old.units → IfOk result (λ r. IfSome r (λ read. Takes (C.classes classes.now) c root.old root.new records.new.units read.range)) }
    ensures none { (c : TextReplacement) → Makes c new.now edit → Holds (C.classes classes.now) c root.old records.old.units → result ≡ Ok None → NonePasses (C.classes classes.now) c root.old }
    ensures undone { result ≡ Ok None → (root.new ≡ root.old) × (records.new.units ≡ records.old.units) }
    ensures err { OnErr result ((root.new ≡ root.old) × (records.new.units ≡ records.old.units)) }
    ensures boundary { IfOk result (λ r. IfSome r (λ read. IsBoundary root.new read.boundary)) }
    ensures ordered { IfOk result (λ r. IfSome r (λ _. IsNumbered root.old → IsNumbered root.new × AreInOrder (numbers_of root.new))) }
{
    records.go_near(edit.start);
    reparse_near(alloc, root, records, boundary, new, edit, classes)
}

/// Does what `reparse` does, from where the records have their anchor.
fn reparse_near<C: Classes>(
    alloc: Global,
    root: &mut SyntaxNode,
    records: &mut Records,
    boundary: Boundary,
    new: &str,
    edit: Replacement,
    classes: &C,
) -> Result<Option<Reread>, AllocError>
    requires edits { (c : TextReplacement) × (Makes c new.now edit × Holds (C.classes classes.now) c root.old records.old.units) }
    requires boundary { IsBoundary root.old boundary }
    ensures part { (c : TextReplacement) → Makes c new.now edit → Holds (C.classes classes.now) c root.old records.old.units → IfOk result (λ r. IfSome r (λ read. Takes (C.classes classes.now) c root.old root.new records.new.units read.range)) }
    ensures none { (c : TextReplacement) → Makes c new.now edit → Holds (C.classes classes.now) c root.old records.old.units → result ≡ Ok None → NonePasses (C.classes classes.now) c root.old }
    ensures undone { result ≡ Ok None → (root.new ≡ root.old) × (records.new.units ≡ records.old.units) }
    ensures err { OnErr result ((root.new ≡ root.old) × (records.new.units ≡ records.old.units)) }
    ensures boundary { IfOk result (λ r. IfSome r (λ read. IsBoundary root.new read.boundary)) }
    ensures ordered { IfOk result (λ r. IfSome r (λ _. IsNumbered root.old → IsNumbered root.new × AreInOrder (numbers_of root.new))) }
{
    let last = records.last_token();
    let asked = Asked {
        new,
        edit,
        front: records.front(edit.start),
        rear: records.rear(edit.old_end, last),
        classes,
    };
    let edge = edge_of(boundary);
    let few = find_candidates_from(
        alloc,
        root,
        edge,
        records,
        edit.start,
        edit.old_end,
        FEW,
        REACH,
    )?;
    if let Some(read) = take_first(alloc, root, records, boundary, &asked, &few, 0)? {
        return Ok(Some(read));
    }
    let tried = few.items.len();
    if tried < few.most {
        return Ok(None);
    }
    let all = find_candidates_from(
        alloc,
        root,
        edge,
        records,
        edit.start,
        edit.old_end,
        usize::MAX,
        usize::MAX,
    )?;
    take_first(alloc, root, records, boundary, &asked, &all, tried)
}

/// The place by its index and its byte.
fn edge_of(boundary: Boundary) -> Edge
    ensures { (root : Tree) → IsBoundary root boundary → IsRootEdge root result }
{
    Edge {
        index: boundary.index,
        byte: boundary.bytes,
    }
}

/// Replaces the first candidate that passes and whose nodes find numbers, among those from the one numbered `from` on;
/// answers what was read, or `None` if there is none. In that case, and if memory is refused, nothing changes. Before
/// each attempt, while the tree is the old one, it goes from the known place to the one before the children that the
/// attempt would change.
fn take_first<C: Classes>(
    alloc: Global,
    root: &mut SyntaxNode,
    records: &mut Records,
    known: Boundary,
    asked: &Asked<'_, C>,
    found: &Candidates,
    from: usize,
) -> Result<Option<Reread>, AllocError>
    requires some { CanTakeFirst (C.classes asked.now.classes.now) asked.now root.old records.old.units found.now }
    requires within { from ≤ length found.now.items.items }
    requires known { IsBoundary root.old known }
    ensures first { (c : TextReplacement) → Speaks (C.classes asked.now.classes.now) c asked.now root.old records.old.units → AreFirst (C.classes asked.now.classes.now) c root.old found.now → NonePassesOf (C.classes asked.now.classes.now) c root.old from → IfOk result (λ read. TakesFirst (C.classes asked.now.classes.now) c root.old root.new records.new.units (length found.now.items.items) read) }
    ensures undone { result ≡ Ok None → (root.new ≡ root.old) × (records.new.units ≡ records.old.units) }
    ensures err { OnErr result ((root.new ≡ root.old) × (records.new.units ≡ records.old.units)) }
    ensures boundary { IfOk result (λ r. IfSome r (λ read. IsBoundary root.new read.boundary)) }
    ensures ordered { IfOk result (λ r. IfSome r (λ _. IsNumbered root.old → IsNumbered root.new × AreInOrder (numbers_of root.new))) }
{
    let steps = &found.path;
    let mut serving = None;
    let mut boundary = known;
    for candidate in &found.items[from..] {
        let path = front_of(steps, candidate.depth);
        serving = serving_of(serving, *candidate);
        let index = first_changed(path, *candidate, found.first.index);
        boundary = place_before(root, boundary, index);
        let end = take_place(alloc, root, records, asked, *candidate, path, &mut serving)?;
        if let Some(end) = end {
            let range = candidate.start..end;
            return Ok(Some(Reread { range, boundary }));
        }
    }
    Ok(None)
}

/// The index of the first of the root's children that a candidate changes, by the path to its parent and the index of
/// the child to which this path leads.
fn first_changed(path: &[usize], candidate: Candidate, step: usize) -> usize
    ensures { result ≡ first_changed path.now candidate step }
{
    if path.is_empty() {
        return candidate.from;
    }
    step
}

/// The place before the root's child of an index, or before all if the tree's nodes can't be counted. Goes there from a
/// known place, or from an end that is nearer.
fn place_before(root: &SyntaxNode, known: Boundary, index: usize) -> Boundary
    requires fits { length (text_of root.now) < 2 ^ 64 }
    requires known { IsBoundary root.now known }
    requires within { index ≤ length (trees root.now.kids) }
    ensures index { result.index ≤ index }
    ensures boundary { IsBoundary root.now result }
{
    if root.descendants() == usize::MAX {
        return Boundary::front_of(root);
    }
    known.nearest(root, index).moved_to(root, index)
}

/// The reading, if it can go on for a candidate.
fn serving_of<'s>(serving: Option<Serving<'s>>, candidate: Candidate) -> Option<Serving<'s>>
    ensures { IfSome result (λ s. (serving.entry ≡ Some s) × GoesOn candidate s) }
{
    let current = serving?;
    if current.goes_on(candidate) {
        return Some(current);
    }
    None
}

/// The first `depth` steps of a path, or all.
fn front_of(path: &[usize], depth: usize) -> &[usize]
    ensures { result.now ≡ take depth path.now }
{
    if depth < path.len() {
        &path[..depth]
    } else {
        path
    }
}

/// Replaces the candidate, if it passes and its nodes find numbers; answers where it ends in the new text. Otherwise
/// nothing changes.
fn take_place<'s, C: Classes>(
    alloc: Global,
    root: &mut SyntaxNode,
    records: &mut Records,
    asked: &Asked<'s, C>,
    candidate: Candidate,
    path: &[usize],
    serving: &mut Option<Serving<'s>>,
) -> Result<Option<usize>, AllocError>
    requires { CanTake (C.classes asked.now.classes.now) asked.now root.old records.old.units path.now candidate serving.old }
    ensures taken { (c : TextReplacement) → Speaks (C.classes asked.now.classes.now) c asked.now root.old records.old.units → Among (at_path path.now candidate) (candidates (C.classes asked.now.classes.now) c root.old) → ServesFor (C.classes asked.now.classes.now) c root.old path.now candidate serving.old → IfOk result (λ end. TakesPlace (C.classes asked.now.classes.now) c (at_path path.now candidate) root.old root.new records.new.units end × ServesOr (C.classes asked.now.classes.now) c root.old path.now candidate.depth serving.new) }
    ensures undone { result ≡ Ok None → (root.new ≡ root.old) × (records.new.units ≡ records.old.units) }
    ensures err { OnErr result ((root.new ≡ root.old) × (records.new.units ≡ records.old.units)) }
    ensures ordered { IfOk result (λ r. IfSome r (λ _. IsNumbered root.old → IsNumbered root.new × AreInOrder (numbers_of root.new))) }
{
    let attempt = Attempt {
        root,
        records,
        asked,
    };
    let Some(part) = attempt.read(alloc, candidate, path, serving)? else {
        return Ok(None);
    };
    let end = part.end;
    if put(root, records, path, candidate.to, part)? {
        return Ok(Some(end));
    }
    Ok(None)
}

/// Puts a part in a candidate's place; answers false if its nodes find no numbers. In that case, and if memory is
/// refused, nothing changes.
fn put(
    root: &mut SyntaxNode,
    records: &mut Records,
    path: &[usize],
    to: usize,
    part: ReparsedPart,
) -> Result<bool, AllocError>
    requires reaches { Reaches path.now part.first_child to root.old }
    requires order { part.from_entry ≤ part.to_entry }
    requires within { part.to_entry < length records.old.units.entries }
    ensures puts { IfOk result (λ done. Puts path.now part.first_child to part root.old root.new records.old.units records.new.units done) }
    ensures err { OnErr result ((root.new ≡ root.old) × (records.new.units ≡ records.old.units)) }
    ensures ordered { IfOk result (λ done. done ≡ true → IsNumbered root.old → IsNumbered root.new × AreInOrder (numbers_of root.new)) }
{
    records.reserve(&part.entries)?;
    match root.replace_at(path, part.first_child..to, part.nodes) {
        Ok(()) => {
            records.put(&part.entries, part.from_entry, part.to_entry);
            Ok(true)
        }
        Err(SourceError::SpanNumbers) => Ok(false),
        Err(SourceError::OutOfMemory) => Err(AllocError),
    }
}
