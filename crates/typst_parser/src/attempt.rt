//! A candidate of an edit, read on the new text.

ghost use Rattle.std.specs.Prelude.{◌≡◌, ◌↔◌, ◌⊎◌, IsTrue, ℕ, Bool, true, false, ◌+◌, ◌<◌, ◌≤◌, ◌^◌, ◌-◌, ◌++◌, ◌∷◌, [], suc, Some, None, IfOk, IfSome, MatchOption, List, length, take, drop, slice_get};
ghost use Rattle.std.specs.Str.{IsCharBoundary, IsUtf8};
ghost use Rattle.typst_kinds.specs.declared.mode.SyntaxMode.{SyntaxMode};
ghost use Rattle.typst_edits.specs.Block.{Block};
ghost use Rattle.typst_lines.specs.Classes.{CharClasses};
ghost use Rattle.typst_lines.specs.Place.{Place, place_at};
ghost use Rattle.typst_tree.specs.Laws.{AtPath, start_at, start_in};
ghost use Rattle.typst_tree.specs.Replace.{kids_of};
ghost use Rattle.typst_tree.specs.Tree.{text_of};
ghost use Rattle.typst_candidates.specs.declared.entry.Entry.{Entry};
ghost use Rattle.typst_candidates.specs.Cursors.{closing_of};
ghost use Rattle.typst_candidates.specs.Entries.{end_of, entries_by};
ghost use Rattle.typst_candidates.specs.Records.{AllFit, opening_of};
ghost use Rattle.typst_edits.specs.RunKind.{RunKind};
ghost use Rattle.typst_edits.specs.Part.{ArePieces, HasRead};
ghost use Rattle.typst_edits.specs.BlockTest.{SaysBlock};
ghost use Rattle.typst_edits.specs.Edit.{Among};
ghost use Rattle.typst_edits.specs.RunTest.{Ends, IsLast, LooksFrom, Reading, SaysPiece, reading_on};
ghost use Rattle.typst_edits.specs.Served.{MeetsOn};
ghost use Rattle.typst_parser.specs.TextReplacement.{TextReplacement, candidates};
ghost use Rattle.typst_parser.specs.Attempt.{CanTry, Decides, IsReady, at_path};
ghost use Rattle.typst_parser.specs.Steps.{AreBounds, Begins, BeginsThere, CanServe, GoesOn, HasBlock, HasReadSome, HasReadTo, IsReadBlock, Reads, ReadsInner, ServesFor, ServesNow, ServesOr, Settles, entries_of};

use crate::replacement::Replacement;
use std::alloc::{AllocError, Global};
use typst_candidates::{Candidate, EntryCursor, EntryKind, Records};
use typst_edits::{Carried, MAX_DEPTH, PieceReader, ReadPart, RunKind, parse_block, resume_pieces};
use typst_lines::Classes;
use typst_tree::SyntaxNode;

/// What replaces a candidate: nodes in the tree, and entries in its records.
#[derive(Drop)]
pub(crate) struct ReparsedPart {
    /// The nodes, with detached spans.
    pub nodes: Vec<SyntaxNode>,
    /// The index of the first of the children that they replace.
    pub first_child: usize,
    /// Where the nodes end in the new text, in bytes.
    pub end: usize,
    /// The entries that replace those after the one numbered `from_entry`, up to the one
    /// numbered `to_entry`.
    pub entries: Records,
    pub from_entry: usize,
    pub to_entry: usize,
}

/// A run whose pieces a candidate is.
#[derive(Clone, Copy)]
struct Run {
    kind: RunKind,
    /// Where the run's text or block begins, in bytes.
    at: usize,
    /// How many levels are left for what is called in it.
    levels: usize,
    /// The number of the run's first entry.
    first_entry: usize,
}

/// Where among the entries pieces of a run begin and end.
#[derive(Drop)]
struct Bounds<'a> {
    /// The place before the entry at which the pieces begin.
    from: EntryCursor<'a>,
    /// The place before the entry at which they end.
    to: EntryCursor<'a>,
    /// The number of the entry from which on all looks have to begin after the stretch.
    looks: usize,
}

/// A reading of a run on the new text, which serves the candidates of the run one after the other: it goes on
/// from the end of one to that of the next.
#[derive(Drop)]
pub(crate) struct Serving<'s> {
    reader: PieceReader<'s>,
    /// Whether it has read a piece.
    any: bool,
    /// The candidate with which it began.
    first_candidate: Candidate,
    /// The number of the entry at which it began.
    first_entry: usize,
    /// Where the last candidate that it went on for ends in the old text, in bytes.
    last: usize,
}

/// Pieces that pass for a candidate.
#[derive(Drop)]
struct Passing<'a> {
    bounds: Bounds<'a>,
    pieces: ReadPart,
    /// Whether there are any, read or left in place before them.
    any: bool,
    /// The candidate with which their reading began.
    first_candidate: Candidate,
    /// The number of the entry at which their reading began.
    first_entry: usize,
}

/// What is asked of each candidate of an edit.
#[derive(Drop)]
pub(crate) struct Asked<'a, C> {
    /// The new text.
    pub new: &'a str,
    /// What was replaced.
    pub edit: Replacement,
    /// How many of the first entries are before the stretch, with all looks up to them.
    pub front: usize,
    /// The number of the entry from which on all looks begin after the stretch.
    pub rear: usize,
    pub classes: &'a C,
}

/// An edit of a text, which is asked of its candidates whether they pass.
#[derive(Drop)]
pub(crate) struct Attempt<'a, 's, C> {
    /// The tree of the old text.
    pub root: &'a SyntaxNode,
    /// The units of the old text.
    pub records: &'a Records,
    /// What is asked of the candidates.
    pub asked: &'a Asked<'s, C>,
}

impl<'a, 's, C: Classes> Attempt<'a, 's, C> {
    /// What replaces the candidate, or `None` if it doesn't pass.
    pub(crate) fn read(
        &self,
        alloc: Global,
        candidate: Candidate,
        path: &[usize],
        serving: &mut Option<Serving<'s>>,
    ) -> Result<Option<ReparsedPart>, AllocError>
        requires { CanServe (C.classes self.now.asked.now.classes.now) self.now path.now candidate serving.old }
        ensures { (c : TextReplacement) → IsReady (C.classes self.now.asked.now.classes.now) c self.now → Among (at_path path.now candidate) (candidates (C.classes self.now.asked.now.classes.now) c self.now.root.now) → ServesFor (C.classes self.now.asked.now.classes.now) c self.now.root.now path.now candidate serving.old → IfOk result (λ part. Decides (C.classes self.now.asked.now.classes.now) c self.now.root.now (at_path path.now candidate) part × ServesOr (C.classes self.now.asked.now.classes.now) c self.now.root.now path.now candidate.depth serving.new) }
    {
        if candidate.is_block {
            return self.read_block(alloc, candidate);
        }
        let Some(block) = above(path) else {
            return self.read_top(alloc, candidate, serving);
        };
        let Some(run) = self.run_in(block) else {
            return Ok(None);
        };
        self.read_inner(alloc, candidate, run, serving)
    }

    /// Where a candidate ends in the new text, in bytes, if that can be counted.
    fn new_end(&self, candidate: Candidate) -> Option<usize>
        ensures some { IfSome result (λ end. end + self.now.asked.now.edit.old_end ≡ candidate.end + self.now.asked.now.edit.new_end) }
        ensures none { result ≡ None → (end : ℕ) → end < 2 ^ 64 → end + self.now.asked.now.edit.old_end ≡ candidate.end + self.now.asked.now.edit.new_end → ⊥ }
    {
        let Replacement {
            old_end,
            new_end,
            ..
        } = self.asked.edit;
        if old_end <= new_end {
            candidate.end.checked_add(new_end - old_end)
        } else {
            candidate.end.checked_sub(old_end - new_end)
        }
    }

    /// Whether all looks before one entry end before the stretch, and those after another begin
    /// after it.
    fn looks_pass(&self, from_entry: usize, to_entry: usize) -> bool
        ensures { IsTrue result ↔ ((from_entry < self.now.asked.now.front) × (self.now.asked.now.rear ≤ to_entry)) }
    {
        from_entry < self.asked.front && self.asked.rear <= to_entry
    }

    /// The number of the next entry; after the last, the count of all entries.
    fn after(&self, number: usize) -> usize
        requires { number < length self.now.records.now.units.entries }
        ensures { result ≡ suc number }
    {
        let count = self.records.count();
        prove!(number < count);
        number + 1
    }

    // ---- blocks

    /// What replaces a candidate that is a block, or `None` if it doesn't pass.
    fn read_block(
        &self,
        alloc: Global,
        candidate: Candidate,
    ) -> Result<Option<ReparsedPart>, AllocError>
        requires block { candidate.is_block ≡ true }
        requires tries { (path : List ℕ) × CanTry (C.classes self.now.asked.now.classes.now) self.now (at_path path candidate) }
        ensures { (path : List ℕ) (c : TextReplacement) → IsReady (C.classes self.now.asked.now.classes.now) c self.now → Among (at_path path candidate) (candidates (C.classes self.now.asked.now.classes.now) c self.now.root.now) → IfOk result (λ part. Decides (C.classes self.now.asked.now.classes.now) c self.now.root.now (at_path path candidate) part) }
    {
        let Some(from_entry) = self.records.opening(candidate.start) else {
            return Ok(None);
        };
        let Some(to_entry) = self.records.closing(self.after(from_entry)) else {
            return Ok(None);
        };
        if !self.looks_pass(from_entry, to_entry) {
            return Ok(None);
        }
        let Some(read) = self.block_at(alloc, from_entry, candidate.start)? else {
            return Ok(None);
        };
        let Some(end) = self.new_end(candidate) else {
            return Ok(None);
        };
        if read.end != end {
            return Ok(None);
        }
        let entries = entries_of_block(alloc, candidate.start, &read)?;
        Ok(Some(ReparsedPart {
            nodes: read.nodes,
            first_child: candidate.from,
            end,
            entries,
            from_entry,
            to_entry,
        }))
    }

    /// The block that begins at the entry of a number, read by itself from a byte of the new text on.
    fn block_at(
        &self,
        alloc: Global,
        number: usize,
        at: usize,
    ) -> Result<Option<ReadPart>, AllocError>
        requires { IsCharBoundary self.now.asked.now.new.now at }
        ensures { (to levels : ℕ) (b : Block) (mode : SyntaxMode) → SaysBlock self.now.records.now.units.entries number to levels b mode → IfOk result (λ read. IsReadBlock (C.classes self.now.asked.now.classes.now) levels b mode (place_at self.now.asked.now.new.now at) read) }
    {
        let Some(entry) = self.records.entry(number) else {
            return Ok(None);
        };
        let EntryKind::Opens(block, mode) = entry.kind else {
            return Ok(None);
        };
        let Asked { new, classes, .. } = *self.asked;
        let read = parse_block(alloc, new, at, block, mode, entry.count, classes)?;
        Ok(Some(read))
    }

    // ---- pieces of a run

    /// The run of the content block at the end of a path.
    fn run_in(&self, block: &[usize]) -> Option<Run>
        requires leads { AtPath (λ _. Unit {0}) block.now self.now.root.now }
        requires fits { length (text_of self.now.root.now) < 2 ^ 64 }
        ensures { (opens : ℕ) (e : Entry) → opening_of (start_at block.now 0 self.now.root.now) 0 0 self.now.records.now.units.entries ≡ Some opens → slice_get self.now.records.now.units.entries opens ≡ Some e → result ≡ Some (record { kind = RunKind.Block; at = start_at block.now 0 self.now.root.now; levels = e.count; first_entry = suc opens }) }
    {
        let at = byte_at(self.root, block);
        let opens = self.records.opening(at)?;
        let entry = self.records.entry(opens)?;
        Some(Run {
            kind: RunKind::Block,
            at,
            levels: entry.count,
            first_entry: self.after(opens),
        })
    }

    /// What replaces a candidate that is pieces of the text's own run, or `None` if it doesn't pass.
    fn read_top(
        &self,
        alloc: Global,
        candidate: Candidate,
        serving: &mut Option<Serving<'s>>,
    ) -> Result<Option<ReparsedPart>, AllocError>
        requires tries { CanServe (C.classes self.now.asked.now.classes.now) self.now [] candidate serving.old }
        requires pieces { candidate.is_block ≡ false }
        ensures { (c : TextReplacement) → IsReady (C.classes self.now.asked.now.classes.now) c self.now → Among (at_path [] candidate) (candidates (C.classes self.now.asked.now.classes.now) c self.now.root.now) → ServesFor (C.classes self.now.asked.now.classes.now) c self.now.root.now [] candidate serving.old → IfOk result (λ part. Decides (C.classes self.now.asked.now.classes.now) c self.now.root.now (at_path [] candidate) part × ServesOr (C.classes self.now.asked.now.classes.now) c self.now.root.now [] candidate.depth serving.new) }
    {
        let run = Run {
            kind: RunKind::Text,
            at: 0,
            levels: MAX_DEPTH,
            first_entry: 0,
        };
        let Some(passing) = self.passing(alloc, candidate, run, serving)? else {
            return Ok(None);
        };
        let part = part_of_pieces(alloc, passing)?;
        Ok(Some(part))
    }

    /// What replaces a candidate that is pieces of a content block's run, or `None` if it doesn't pass.
    fn read_inner(
        &self,
        alloc: Global,
        candidate: Candidate,
        run: Run,
        serving: &mut Option<Serving<'s>>,
    ) -> Result<Option<ReparsedPart>, AllocError>
        requires { (c : TextReplacement) × (path : List ℕ) × ReadsInner (C.classes self.now.asked.now.classes.now) c self.now path candidate run serving.old }
        ensures { (c : TextReplacement) (path : List ℕ) → ReadsInner (C.classes self.now.asked.now.classes.now) c self.now path candidate run serving.old → IfOk result (λ part. Decides (C.classes self.now.asked.now.classes.now) c self.now.root.now (at_path path candidate) part × ServesOr (C.classes self.now.asked.now.classes.now) c self.now.root.now path candidate.depth serving.new) }
    {
        let Some(passing) = self.passing(alloc, candidate, run, serving)? else {
            return Ok(None);
        };
        if has_both(passing.any, &passing.bounds.from) {
            let part = part_of_pieces(alloc, passing)?;
            return Ok(Some(part));
        }
        self.with_block(alloc, run, passing)
    }

    /// The pieces of a run that replace a candidate, or `None` if it doesn't pass.
    fn passing(
        &self,
        alloc: Global,
        candidate: Candidate,
        run: Run,
        serving: &mut Option<Serving<'s>>,
    ) -> Result<Option<Passing<'a>>, AllocError>
        requires { (c : TextReplacement) × (path : List ℕ) × Reads (C.classes self.now.asked.now.classes.now) c self.now path candidate run serving.old }
        ensures { (c : TextReplacement) (path : List ℕ) (h : Reads (C.classes self.now.asked.now.classes.now) c self.now path candidate run serving.old) → IfOk result (λ o. Settles (C.classes self.now.asked.now.classes.now) c self.now.root.now path candidate run h.found o × ServesOr (C.classes self.now.asked.now.classes.now) c self.now.root.now path candidate.depth serving.new) }
    {
        let Some(bounds) = self.bounds(run, candidate) else {
            return Ok(None);
        };
        if !self.looks_pass(bounds.from.number(), bounds.looks) {
            return Ok(None);
        }
        let Some(target) = self.new_end(candidate) else {
            return Ok(None);
        };
        let Some(mut current) = self.serving(alloc, candidate, run, &bounds.from, serving)? else {
            return Ok(None);
        };
        current.read_to(candidate, target, self.asked.classes)?;
        if current.fits(candidate, run.kind, &bounds.to, target) {
            let passing = current.pass(candidate, bounds)?;
            return Ok(Some(passing));
        }
        *serving = Some(current);
        Ok(None)
    }

    /// The reading that serves the run, or else one that begins with the candidate, at a place.
    fn serving(
        &self,
        alloc: Global,
        candidate: Candidate,
        run: Run,
        from: &EntryCursor<'_>,
        serving: &mut Option<Serving<'s>>,
    ) -> Result<Option<Serving<'s>>, AllocError>
        requires { (c : TextReplacement) × (path : List ℕ) × (h : Reads (C.classes self.now.asked.now.classes.now) c self.now path candidate run serving.old) × BeginsThere (C.classes self.now.asked.now.classes.now) c path candidate run h.found from.now }
        ensures begun { (c : TextReplacement) (path : List ℕ) (h : Reads (C.classes self.now.asked.now.classes.now) c self.now path candidate run serving.old) → BeginsThere (C.classes self.now.asked.now.classes.now) c path candidate run h.found from.now → IfOk result (λ o. ServesNow (C.classes self.now.asked.now.classes.now) c self.now.root.now path candidate run o) }
        ensures taken { IfOk result (λ _. serving.new ≡ None) }
    {
        if let Some(current) = serving.take() {
            return Ok(Some(current));
        }
        self.begin(alloc, candidate, run, from)
    }

    /// A reading that begins with a candidate, at a place.
    fn begin(
        &self,
        alloc: Global,
        candidate: Candidate,
        run: Run,
        from: &EntryCursor<'_>,
    ) -> Result<Option<Serving<'s>>, AllocError>
        requires boundary { IsCharBoundary self.now.asked.now.new.now candidate.start }
        requires some { 0 < run.levels }
        ensures { (x : Bool × ℕ) → SaysPiece from.now.entries from.now.number x → IfOk result (λ o. Begins (C.classes self.now.asked.now.classes.now) (reading_on run.kind run.levels x (place_at self.now.asked.now.new.now candidate.start)) candidate from.now.number o) }
    {
        let Some(carried) = carried_at(from) else {
            return Ok(None);
        };
        let reader = resume_pieces(
            alloc,
            self.asked.new,
            candidate.start,
            carried,
            run.kind,
            run.levels,
            self.asked.classes,
        )?;
        Ok(Some(Serving {
            reader,
            any: false,
            first_candidate: candidate,
            first_entry: from.number(),
            last: candidate.end,
        }))
    }

    /// Where among the entries the candidate begins and ends.
    fn bounds(&self, run: Run, candidate: Candidate) -> Option<Bounds<'a>>
        requires first { run.first_entry ≤ length self.now.records.now.units.entries }
        requires fits { end_of 0 self.now.records.now.units.entries < 2 ^ 64 }
        ensures { (path : List ℕ) (from to looks : ℕ) → Ends self.now.records.now.units.entries run.first_entry (at_path path candidate) from to → LooksFrom self.now.records.now.units.entries run.kind from to looks → AreBounds self.now.records.now.units.entries from to looks result }
    {
        let from = self
            .records
            .run_place(run.first_entry, candidate.start)
            .piece_from(candidate.start)?;
        if is_last(&from) {
            let looks = self.looks_at_end(run.kind, from.number())?;
            return Some(Bounds {
                to: from.copy(),
                from,
                looks,
            });
        }
        let to = from.piece_from(candidate.end)?;
        let looks = to.number();
        Some(Bounds { from, to, looks })
    }

    /// The number of the entry from which on all looks have to begin after the stretch, if no piece of the run comes
    /// after the entry of this number: from the one where its block ends, or from none, at a text's end.
    fn looks_at_end(&self, kind: RunKind, number: usize) -> Option<usize>
        requires within { number < length self.now.records.now.units.entries }
        requires fits { end_of 0 self.now.records.now.units.entries < 2 ^ 64 }
        ensures text { kind ≡ RunKind.Text → result ≡ Some (length self.now.records.now.units.entries) }
        ensures block { kind ≡ RunKind.Block → result ≡ closing_of 0 (suc number) (drop (suc number) self.now.records.now.units.entries) }
    {
        match kind {
            RunKind::Text => Some(self.records.count()),
            RunKind::Block => self.records.closing(self.after(number)),
        }
    }

    /// The nodes of pieces of a content block's run, with the entries of the whole block.
    fn with_block(
        &self,
        alloc: Global,
        run: Run,
        passing: Passing<'_>,
    ) -> Result<Option<ReparsedPart>, AllocError>
        requires text { IsUtf8 self.now.asked.now.new.now }
        requires fits { length self.now.asked.now.new.now < 2 ^ 64 - 1 }
        requires places { end_of 0 self.now.records.now.units.entries < 2 ^ 64 }
        requires boundary { IsCharBoundary self.now.asked.now.new.now run.at }
        requires first { (0 < run.first_entry) × (run.first_entry ≤ length self.now.records.now.units.entries) }
        requires block { (to : ℕ) × (levels : ℕ) × (mode : SyntaxMode) × SaysBlock self.now.records.now.units.entries (run.first_entry - 1) to levels Block.Content mode }
        ensures { (to levels : ℕ) (mode : SyntaxMode) → SaysBlock self.now.records.now.units.entries (run.first_entry - 1) to levels Block.Content mode → IfOk result (λ part. HasBlock (C.classes self.now.asked.now.classes.now) (place_at self.now.asked.now.new.now run.at) run.at levels mode (run.first_entry - 1) to passing.entry.first_candidate.from passing.entry.pieces part) }
    {
        let from_entry = run.first_entry - 1;
        let Some(to_entry) = self.records.closing(run.first_entry) else {
            return Ok(None);
        };
        let Some(read) = self.block_at(alloc, from_entry, run.at)? else {
            return Ok(None);
        };
        let entries = entries_of_block(alloc, run.at, &read)?;
        let Passing {
            pieces,
            first_candidate,
            ..
        } = passing;
        let end = pieces.end;
        Ok(Some(ReparsedPart {
            nodes: pieces.nodes,
            first_child: first_candidate.from,
            end,
            entries,
            from_entry,
            to_entry,
        }))
    }
}

impl Serving<'_> {
    /// Whether the reading can go on for a candidate: it is of the same run, begins where the reading did or
    /// earlier, and ends where the last one did or later.
    pub(crate) fn goes_on(&self, candidate: Candidate) -> bool
        ensures { result ≡ true → GoesOn candidate self.now }
    {
        if candidate.is_block || candidate.depth != self.first_candidate.depth {
            return false;
        }
        candidate.start <= self.first_candidate.start && self.last <= candidate.end
    }

    /// Whether there are pieces for a candidate: some that were read, or old ones before them.
    fn has_pieces(&self, candidate: Candidate) -> bool
        ensures { (m : ℕ) → (self.now.any ≡ true ↔ 0 < m) → (result ≡ true ↔ ((candidate.start < self.now.first_candidate.start) ⊎ (0 < m))) }
    {
        self.any || candidate.start < self.first_candidate.start
    }

    /// Reads on for a candidate until the pieces end at a byte or after it, or their run ends.
    fn read_to<C: Classes>(
        &mut self,
        candidate: Candidate,
        end: usize,
        classes: &C,
    ) -> Result<(), AllocError>
        requires { (r : Reading) × HasReadSome (C.classes classes.now) r end self.old.any self.old.reader }
        ensures read { (r : Reading) → HasReadSome (C.classes classes.now) r end self.old.any self.old.reader → IfOk result (λ _. HasReadTo (C.classes classes.now) r end self.new.any self.new.reader) }
        ensures kept { IfOk result (λ _. (self.new.first_candidate ≡ self.old.first_candidate) × (self.new.first_entry ≡ self.old.first_entry) × (self.new.last ≡ candidate.end)) }
    {
        self.last = candidate.end;
        'pieces: while self.reader.end() < end {
            if !self.reader.next(classes)? {
                return Ok(());
            }
            self.any = true;
        }
        Ok(())
    }

    /// Whether the pieces read end at the byte where the candidate ends now, and may be there before the entry
    /// that follows a place.
    fn fits(&self, candidate: Candidate, kind: RunKind, to: &EntryCursor<'_>, target: usize) -> bool
        requires { to.now.number < length to.now.entries }
        ensures { (y : Bool × ℕ) (m : ℕ) → SaysPiece to.now.entries to.now.number y → (self.now.any ≡ true ↔ 0 < m) → (result ≡ true ↔ ((self.now.reader.end ≡ target) × MeetsOn to.now.entries kind to.now.number (candidate.start < self.now.first_candidate.start) m y self.now.reader.carried)) }
    {
        if self.reader.end() != target {
            return false;
        }
        let carried = self.reader.carried();
        meets(kind, to, self.has_pieces(candidate), carried)
    }

    /// What was read, for a candidate that it passes for.
    fn pass<'a>(self, candidate: Candidate, bounds: Bounds<'a>) -> Result<Passing<'a>, AllocError>
        ensures pieces { (k : CharClasses) (levels : ℕ) (kind : RunKind) (x : Bool × ℕ) (z : Place) (m : ℕ) → HasRead k levels kind x z m self.entry.reader → IfOk result (λ p. ArePieces k levels kind x z m p.pieces) }
        ensures any { (m : ℕ) → (self.entry.any ≡ true ↔ 0 < m) → IfOk result (λ p. p.any ≡ true ↔ ((candidate.start < self.entry.first_candidate.start) ⊎ (0 < m))) }
        ensures rest { IfOk result (λ p. (p.bounds ≡ bounds.entry) × (p.first_candidate ≡ self.entry.first_candidate) × (p.first_entry ≡ self.entry.first_entry)) }
    {
        let any = self.has_pieces(candidate);
        let Serving {
            reader,
            first_candidate,
            first_entry,
            ..
        } = self;
        let pieces = reader.finish()?;
        Ok(Passing {
            bounds,
            pieces,
            any,
            first_candidate,
            first_entry,
        })
    }
}

/// The path to the node above the one at the end of a path.
fn above(path: &[usize]) -> Option<&[usize]>
    ensures none { result ≡ None → path.now ≡ [] }
    ensures some { IfSome result (λ p. (p.now ≡ take (length path.now - 1) path.now) × (0 < length path.now)) }
{
    if path.is_empty() {
        return None;
    }
    Some(&path[..path.len() - 1])
}

/// Whether no piece of the run comes after the entry that follows a place.
fn is_last(place: &EntryCursor<'_>) -> bool
    requires { place.now.number < length place.now.entries }
    ensures { IsTrue result ↔ IsLast place.now.entries place.now.number }
{
    let mut after = place.copy();
    after.next();
    after.piece_after().is_none()
}

/// What is carried at a place, if a piece begins or ends there.
fn carried_at(place: &EntryCursor<'_>) -> Option<Carried>
    ensures { (x : Bool × ℕ) → SaysPiece place.now.entries place.now.number x → result ≡ Some x }
{
    let entry = place.copy().next()?;
    match entry.kind {
        EntryKind::Piece(at_start) => Some((at_start, entry.count)),
        _ => None,
    }
}

/// Whether there are pieces in both texts, where those of the old one begin at a place.
fn has_both(any: bool, from: &EntryCursor<'_>) -> bool
    requires { from.now.number < length from.now.entries }
    ensures { result ≡ true ↔ ((any ≡ true) × (IsLast from.now.entries from.now.number → ⊥)) }
{
    if any {
        return !is_last(from);
    }
    false
}

/// Whether pieces that carry this at their end may be before the entry that follows a place.
fn meets(kind: RunKind, to: &EntryCursor<'_>, any: bool, carried: Carried) -> bool
    requires { to.now.number < length to.now.entries }
    ensures { (y : Bool × ℕ) (a b m : ℕ) → SaysPiece to.now.entries to.now.number y → (any ≡ true ↔ ((a < b) ⊎ (0 < m))) → (result ≡ true ↔ MeetsOn to.now.entries kind to.now.number (a < b) m y carried) }
{
    let Some(was) = carried_at(to) else {
        return false;
    };
    if is_last(to) {
        return ends_alike(kind, was, carried);
    }
    goes_alike(any, was, carried)
}

/// Whether pieces at the end of a run carry what the old ones did there, as far as it matters.
fn ends_alike(kind: RunKind, was: Carried, carried: Carried) -> bool
    ensures { result ≡ true ↔ (kind ≡ RunKind.Block → carried.1 ≡ was.1) }
{
    match kind {
        RunKind::Text => true,
        RunKind::Block => carried.1 == was.1,
    }
}

/// Whether there are pieces, and they carry what the old ones did.
fn goes_alike(any: bool, was: Carried, carried: Carried) -> bool
    ensures { result ≡ true ↔ ((any ≡ true) × (carried ≡ was)) }
{
    any && (carried.0 == was.0 && carried.1 == was.1)
}

/// The part of pieces with their own entries.
fn part_of_pieces(alloc: Global, passing: Passing<'_>) -> Result<ReparsedPart, AllocError>
    requires start { passing.first_candidate.start < 2 ^ 64 - 1 }
    requires fits { AllFit passing.pieces.notes.items }
    ensures nodes { IfOk result (λ p. p.nodes ≡ passing.entry.pieces.nodes) }
    ensures first { IfOk result (λ p. p.first_child ≡ passing.entry.first_candidate.from) }
    ensures end { IfOk result (λ p. p.end ≡ passing.entry.pieces.end) }
    ensures entries { IfOk result (λ p. p.entries.units.entries ≡ entries_by passing.entry.first_candidate.start passing.entry.pieces.notes.items) }
    ensures bounds { IfOk result (λ p. (p.from_entry ≡ passing.entry.first_entry) × (p.to_entry ≡ passing.entry.bounds.to.number)) }
{
    let Passing {
        bounds,
        pieces,
        first_candidate,
        first_entry,
        ..
    } = passing;
    let mut entries = Records::new(alloc);
    entries.add_all(first_candidate.start, &pieces.notes)?;
    let end = pieces.end;
    Ok(ReparsedPart {
        nodes: pieces.nodes,
        first_child: first_candidate.from,
        end,
        entries,
        from_entry: first_entry,
        to_entry: bounds.to.number(),
    })
}

/// The entries of a block that was read by itself, without the one where it begins, which is at the byte `start`.
fn entries_of_block(alloc: Global, start: usize, read: &ReadPart) -> Result<Records, AllocError>
    requires start { start < 2 ^ 64 - 1 }
    requires fits { AllFit read.now.notes.items }
    ensures { IfOk result (λ r. r.units.entries ≡ entries_of start read.now) }
{
    let mut entries = Records::new(alloc);
    let last = entries.add_all(start, &read.notes)?;
    entries.add_end(last, read.end, read.hull.reach, read.hull.least)?;
    Ok(entries)
}

/// The byte at which the node at the end of a path begins.
fn byte_at(root: &SyntaxNode, path: &[usize]) -> usize
    requires leads { AtPath (λ _. Unit {0}) path.now root.now }
    requires fits { length (text_of root.now) < 2 ^ 64 }
    ensures start { result ≡ start_at path.now 0 root.now }
    ensures within { result ≤ length (text_of root.now) }
{
    let mut node = root;
    let mut at = 0;
    for step in path {
        at += byte_before(node, *step);
        node = &node.children()[*step];
    }
    at + byte_before(node, 0)
}

/// The byte at which the child of an index begins, counted from where the node does.
fn byte_before(node: &SyntaxNode, index: usize) -> usize
    requires within { index ≤ length (kids_of node.now) }
    requires fits { length (text_of node.now) < 2 ^ 64 }
    ensures start { result ≡ start_in index node.now }
{
    let mut at = node.leaf_text().len();
    for kid in &node.children()[..index] {
        at += kid.len();
    }
    at
}
