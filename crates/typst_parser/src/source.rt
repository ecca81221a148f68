//! Sources: what an editor holds of a file.
ghost use Rattle.std.specs.Prelude.{◌≡◌, ◌+◌, ◌-◌, ◌^◌, ◌<◌, ◌≤◌, ◌++◌, [], length, take, drop, true, false, Some, None, IfOk, IfErr, IfSome, OnOk, OnErr, MatchResult, MatchOption, nat_eq, not, IsTrue};
ghost use Rattle.std.specs.Str.{IsCharBoundary, chars};
ghost use Rattle.std.specs.String.{string_bytes};
ghost use Rattle.typst_tree.specs.Tree.{text_of, bare, nodes};
ghost use Rattle.typst_tree.specs.Boundaries.{IsBoundary};
ghost use Rattle.typst_edits.specs.Grammar.{tree};
ghost use Rattle.typst_parser.specs.Headline.{Headline, edited, file_of, AreNumbered, AreOrdered, numbered_in};
ghost use Rattle.typst_parser.specs.Tried.{AnswersEdit, Tries};
ghost use Rattle.typst_parser.specs.Records.{AreUnits, Edits, IsPlaced, IsPlacedBy, ReadsWhole};
ghost use Rattle.typst_parser.specs.Answers.{Answers, AnswersText, change_of};

use crate::edited::reparse;
use crate::read::parse_recorded;
use crate::replacement::Replacement;
use std::alloc::{AllocError, Global};
use std::fmt;
use std::marker::Model;
use std::ops::Range;
use typst_candidates::Records;
use typst_kinds::{FileId, SourceError, Span, SpanNumber, SubRange};
use typst_lines::{Classes, Lines};
use typst_tree::{Boundary, LinkedNode, SyntaxNode};

/// The numbers that nodes can have.
const NUMBERS: Range<u64> = 2..1 << 47;

/// The text of a file with its lines and its syntax tree, whose nodes are numbered.
///
/// Edits keep the three together: the tree is always the one of the present text. Positions are in
/// bytes. After an error nothing has changed.
#[derive(Drop)]
pub struct Source<C: Classes> {
    alloc: Global,
    id: FileId,
    lines: Lines<String>,
    root: SyntaxNode,
    classes: C,
    has_records: bool,
    /// The units of the text's reading.
    records: Records,
    /// A place between the root's children, from which the next edit looks for those near it: before those that the
    /// last edit read again, as edits are mostly close together.
    boundary: Boundary,
}

impl<C: Classes> Model for Source<C> {
    ghost use Rattle.typst_parser.specs.Held.{Held, held_code};
    ghost use Rattle.typst_parser.specs.Records.{Keeps};

    ghost Value = { Held C };

    ghost coded = { held_code C.code };

    ghost view = { λ a. record { id = a.id; text = a.lines; root = a.root; classes = a.classes; has_records = a.has_records } };

    ghost invariant = { λ a. Keeps (C.classes a.classes) (record { id = a.id; text = a.lines; root = a.root; classes = a.classes; has_records = a.has_records }) a.records.units a.boundary };
}

/// Numbers a tree over all numbers of a file, or takes its numbers away if there is no file.
fn number(root: &mut SyntaxNode, file: Option<FileId>) -> Result<(), SourceError>
    ensures numbers { MatchResult result (λ _. numbered_in file root.old ≡ Some root.new) (λ e. (e ≡ SourceError.SpanNumbers) × (numbered_in file root.old ≡ None)) }
    ensures order { OnOk result (AreOrdered file root.new) }
    ensures numbered { OnOk result (IsPlacedBy file root.new) }
{
    match file {
        Some(id) => root.numberize(id, NUMBERS)?,
        None => root.synthesize(Span::detached()),
    }
    Ok(())
}

/// The tree of a text, numbered in a file, or without numbers if there is none, and its units.
#[derive(Drop)]
struct Parsed {
    root: SyntaxNode,
    records: Records,
}

/// The tree of a text, numbered in a file, or without numbers if there is none, and the text's units.
fn parse_whole<C: Classes>(
    alloc: Global,
    text: &str,
    file: Option<FileId>,
    classes: &C,
) -> Result<Parsed, SourceError>
    ensures tree { IfOk result (λ made. numbered_in file (tree (C.classes classes.now) (chars text.now)) ≡ Some made.root) }
    ensures leaves { IfOk result (λ made. text_of made.root ≡ text.now) }
    ensures numbers { IfOk result (λ made. AreNumbered file made.root) }
    ensures placed { IfOk result (λ made. IsPlaced file made.root) }
    ensures units { IfOk result (λ made. AreUnits (C.classes classes.now) text.now made.records.units) }
    ensures refused { result ≡ Err SourceError.SpanNumbers → numbered_in file (tree (C.classes classes.now) (chars text.now)) ≡ None }
{
    let Ok(whole) = parse_recorded(alloc, text, classes) else {
        return Err(SourceError::OutOfMemory);
    };
    let mut root = whole.tree;
    number(&mut root, file)?;
    Ok(Parsed {
        root,
        records: whole.records,
    })
}

impl<C: Classes + Drop> Source<C> {
    /// The source of a text of a file. It fails for lack of memory, or if the tree has more nodes than there are
    /// numbers.
    pub fn new(
        alloc: Global,
        id: FileId,
        text: String,
        classes: C,
    ) -> Result<Source<C>, SourceError>
        ensures made { IfOk result (λ s. (s.id ≡ id) × (s.text ≡ string_bytes text) × (s.classes ≡ classes) × (s.has_records ≡ true)) }
        ensures headline { IfOk result (λ s. Headline (C.classes s.classes) s) }
        ensures root { IfOk result (λ s. numbered_in (Some id) (tree (C.classes classes) (chars s.text)) ≡ Some s.root) }
        ensures refused { result ≡ Err SourceError.SpanNumbers → numbered_in (Some id) (tree (C.classes classes) (chars (string_bytes text))) ≡ None }
    {
        let Ok(lines) = Lines::new(alloc, text) else {
            return Err(SourceError::OutOfMemory);
        };
        let made = parse_whole(alloc, lines.text(), Some(id), &classes)?;
        let boundary = Boundary::front_of(&made.root);
        Ok(Source {
            alloc,
            id,
            lines,
            root: made.root,
            classes,
            has_records: true,
            records: made.records,
            boundary,
        })
    }

    /// The source of a text without a file: it gets file 1. It fails where `new` does.
    pub fn detached(alloc: Global, text: String, classes: C) -> Result<Source<C>, SourceError>
        ensures made { IfOk result (λ s. (s.id ≡ 1) × (s.text ≡ string_bytes text) × (s.classes ≡ classes) × (s.has_records ≡ true)) }
        ensures headline { IfOk result (λ s. Headline (C.classes s.classes) s) }
        ensures root { IfOk result (λ s. numbered_in (Some 1) (tree (C.classes classes) (chars s.text)) ≡ Some s.root) }
        ensures refused { result ≡ Err SourceError.SpanNumbers → numbered_in (Some 1) (tree (C.classes classes) (chars (string_bytes text))) ≡ None }
    {
        match FileId::new(1) {
            Some(id) => Ok(Source::new(alloc, id, text, classes)?),
            None => unreachable!(),
        }
    }

    /// The source of a text with a tree that the caller made. Nothing is required of the tree until the first
    /// edit, which parses the whole text and numbers the new tree in the file that the span of this root names, or
    /// not at all if it names none.
    pub fn with_root(
        alloc: Global,
        id: FileId,
        text: String,
        root: SyntaxNode,
        classes: C,
    ) -> Result<Source<C>, AllocError>
        ensures { IfOk result (λ s. (s.id ≡ id) × (s.text ≡ string_bytes text) × (s.root ≡ root) × (s.classes ≡ classes) × (s.has_records ≡ false)) }
    {
        let lines = Lines::new(alloc, text)?;
        let boundary = Boundary::front_of(&root);
        Ok(Source {
            alloc,
            id,
            lines,
            root,
            classes,
            has_records: false,
            records: Records::new(alloc),
            boundary,
        })
    }
}

impl<C: Classes> Source<C> {
    ghost use Rattle.typst_parser.specs.Find.{top, found, range_of, FindsOwn, GivesOwn};
    ghost use Rattle.typst_parser.specs.Found.{linked_in};

    /// The root of the syntax tree.
    pub fn root(&self) -> &SyntaxNode
        ensures value { result.now ≡ self.now.root }
        ensures headline { self.now.has_records ≡ true → Headline (C.classes self.now.classes) self.now }
    {
        &self.root
    }

    /// A place between the root's children: before those that the last edit read again, or before all.
    pub fn boundary(&self) -> Boundary
        ensures { IsBoundary self.now.root result }
    {
        self.boundary
    }

    /// The file that the text is of.
    pub fn id(&self) -> FileId
        ensures { result ≡ self.now.id }
    {
        self.id
    }

    /// The text.
    pub fn text(&self) -> &str
        ensures { result.now ≡ self.now.text }
    {
        self.lines.text()
    }

    /// The lines of the text.
    pub fn lines(&self) -> &Lines<String>
        ensures { result.now ≡ self.now.text }
    {
        &self.lines
    }

    /// For proofs: the headline holds of each source with records.
    fn keeps_headline(&self)
        ensures { self.now.has_records ≡ true → Headline (C.classes self.now.classes) self.now }
    {
        let _ = &self.root;
    }

    /// The root as a linked node, if its nodes can be counted.
    fn top(&self) -> Option<LinkedNode<'_>>
        ensures { linked_in result ≡ top self.now.root }
    {
        if self.root.descendants() == usize::MAX {
            return None;
        }
        if self.has_records && self.root.span().id().is_some() {
            Some(LinkedNode::ordered(&self.root))
        } else {
            Some(LinkedNode::new(&self.root))
        }
    }

    /// The first node with a span; none for a detached span and one of another file. Costs what `LinkedNode::find`
    /// costs from the root.
    pub fn find(&self, span: Span) -> Option<LinkedNode<'_>>
        ensures first { linked_in result ≡ found self.now.id span self.now.root }
        ensures own { self.now.has_records ≡ true → file_of self.now.root ≡ Some self.now.id → FindsOwn span self.now.root (linked_in result) }
    {
        self.keeps_headline();
        self.first_with(span)
    }

    /// The first node with a span, if that is of the source's file.
    fn first_with(&self, span: Span) -> Option<LinkedNode<'_>>
        ensures { linked_in result ≡ found self.now.id span self.now.root }
    {
        if span.id() != Some(self.id) {
            return None;
        }
        self.top()?.find(span)
    }

    /// The bytes of the node with a number, or a range within them; none if no node has the number, or if the
    /// range passes the node's end.
    pub fn range(&self, number: SpanNumber, sub_range: Option<SubRange>) -> Option<Range<usize>>
        ensures first { result ≡ range_of number sub_range self.now.root }
        ensures own { self.now.has_records ≡ true → file_of self.now.root ≡ Some self.now.id → GivesOwn number sub_range self.now.root result }
    {
        self.keeps_headline();
        self.bytes_with(number, sub_range)
    }

    /// The bytes of the first node with a number, or a range within them.
    fn bytes_with(&self, number: SpanNumber, sub_range: Option<SubRange>) -> Option<Range<usize>>
        ensures { result ≡ range_of number sub_range self.now.root }
    {
        let range = self.top()?.find_number(number)?.range();
        let Some(sub) = sub_range else {
            return Some(range);
        };
        if sub.end() > range.end - range.start {
            return None;
        }
        Some(range.start + sub.start()..range.start + sub.end())
    }

    /// Puts a text in the place of a range of bytes, whose ends are on character boundaries. It answers the range
    /// of the new text that was parsed again, and fails for lack of memory, or if the new tree has more nodes than
    /// there are numbers.
    pub fn edit(&mut self, replace: Range<usize>, with: &str) -> Result<Range<usize>, SourceError>
        requires start { IsCharBoundary self.old.text replace.start }
        requires end { IsCharBoundary self.old.text replace.end }
        requires ordered { replace.start ≤ replace.end }
        ensures text { OnOk result (self.new.text ≡ edited self.old.text replace with.now) }
        ensures headline { OnOk result (Headline (C.classes self.new.classes) self.new) }
        ensures kept { OnOk result ((self.new.id ≡ self.old.id) × (self.new.classes ≡ self.old.classes) × (file_of self.new.root ≡ file_of self.old.root)) }
        ensures records { OnOk result (self.new.has_records ≡ true) }
        ensures answer { IfOk result (λ range. Answers (C.classes self.old.classes) self.old self.new replace with.now range) }
        ensures within { IfOk result (λ range. (range.start ≤ range.end) × (range.end ≤ length self.new.text)) }
        ensures err { OnErr result (self.new ≡ self.old) }
        ensures refused { result ≡ Err SourceError.SpanNumbers → numbered_in (file_of self.old.root) (tree (C.classes self.old.classes) (chars (edited self.old.text replace with.now))) ≡ None }
    {
        let Range { start, end } = replace;
        let _text = self.text();
        if let Some(range) = self.read_part(start..end, with)? {
            return Ok(range);
        }
        Ok(self.read_whole(start..end, with)?)
    }

    /// Makes the edit by reading the first candidate that passes and whose nodes find numbers. If there is none,
    /// or there are no records, nothing changes.
    fn read_part(
        &mut self,
        replace: Range<usize>,
        with: &str,
    ) -> Result<Option<Range<usize>>, SourceError>
        requires start { IsCharBoundary self.old.text replace.start }
        requires end { IsCharBoundary self.old.text replace.end }
        requires ordered { replace.start ≤ replace.end }
        ensures tried { IfOk result (λ t. Tries (C.classes self.old.classes) self.old self.new (edited self.old.text replace with.now) t) }
        ensures decided { IfOk result (λ t. AnswersEdit (C.classes self.old.classes) self.old self.new (edited self.old.text replace with.now) (change_of self.old.text replace with.now) t) }
        ensures err { OnErr result (self.new ≡ self.old) }
        ensures memory { IfErr result (λ e. e ≡ SourceError.OutOfMemory) }
    {
        if !self.has_records {
            return Ok(None);
        }
        let Range { start, end } = replace;
        let after = self.text().len().saturating_sub(end);
        let Ok(edited) = self.lines.start_edit(start..end, with) else {
            return Err(SourceError::OutOfMemory);
        };
        let text = edited.text();
        if text.len() == usize::MAX {
            self.lines = edited.take_back();
            return Ok(None);
        }
        let edit = Replacement {
            start,
            old_end: end,
            new_end: text.len().saturating_sub(after),
        };
        match reparse(
            self.alloc,
            &mut self.root,
            &mut self.records,
            self.boundary,
            text,
            edit,
            &self.classes,
        ) {
            Ok(Some(read)) => {
                self.lines = edited.keep();
                self.boundary = read.boundary;
                Ok(Some(read.range))
            }
            Ok(None) => {
                self.lines = edited.take_back();
                Ok(None)
            }
            Err(AllocError) => {
                self.lines = edited.take_back();
                Err(SourceError::OutOfMemory)
            }
        }
    }

    /// Makes the edit by reading the whole new text.
    fn read_whole(&mut self, replace: Range<usize>, with: &str) -> Result<Range<usize>, SourceError>
        requires start { IsCharBoundary self.old.text replace.start }
        requires end { IsCharBoundary self.old.text replace.end }
        requires ordered { replace.start ≤ replace.end }
        ensures edits { IfOk result (λ range. Edits (C.classes self.old.classes) self.old self.new (edited self.old.text replace with.now) range) }
        ensures whole { IfOk result (λ range. ReadsWhole (C.classes self.old.classes) self.old self.new (edited self.old.text replace with.now) range) }
        ensures err { OnErr result (self.new ≡ self.old) }
        ensures refused { result ≡ Err SourceError.SpanNumbers → numbered_in (file_of self.old.root) (tree (C.classes self.old.classes) (chars (edited self.old.text replace with.now))) ≡ None }
    {
        let file = self.root.span().id();
        let Ok(edited) = self.lines.start_edit(replace, with) else {
            return Err(SourceError::OutOfMemory);
        };
        let made = match parse_whole(self.alloc, edited.text(), file, &self.classes) {
            Ok(made) => made,
            Err(error) => {
                self.lines = edited.take_back();
                return Err(error);
            }
        };
        let end = edited.text().len();
        self.lines = edited.keep();
        self.boundary = Boundary::front_of(&made.root);
        self.root = made.root;
        self.records = made.records;
        self.has_records = true;
        Ok(0..end)
    }

    /// Replaces the text by another, by an edit of what lies between their common front and their common end. If the
    /// texts are equal it answers `0..0` and changes nothing.
    pub fn replace(&mut self, new: &str) -> Result<Range<usize>, SourceError>
        ensures text { OnOk result (self.new.text ≡ new.now) }
        ensures same { self.old.text ≡ new.now → (result ≡ Ok (record { start = 0; end = 0 })) × (self.new ≡ self.old) }
        ensures headline { OnOk result (self.new.has_records ≡ true → Headline (C.classes self.new.classes) self.new) }
        ensures kept { OnOk result ((self.new.id ≡ self.old.id) × (self.new.classes ≡ self.old.classes) × (file_of self.new.root ≡ file_of self.old.root)) }
        ensures records { OnOk result ((self.old.text ≡ new.now → ⊥) → self.new.has_records ≡ true) }
        ensures answer { IfOk result (λ range. (self.old.text ≡ new.now → ⊥) → AnswersText (C.classes self.old.classes) self.old self.new new.now range) }
        ensures within { IfOk result (λ range. (range.start ≤ range.end) × (range.end ≤ length self.new.text)) }
        ensures err { OnErr result (self.new ≡ self.old) }
        ensures refused { result ≡ Err SourceError.SpanNumbers → numbered_in (file_of self.old.root) (tree (C.classes self.old.classes) (chars new.now)) ≡ None }
    {
        let Some((front, end)) = self.lines.replacement_range(new) else {
            self.keeps_headline();
            return Ok(0..0);
        };
        let replaced = front..self.lines.len_bytes() - end;
        let with = &new[front..new.len() - end];
        self.edit(replaced, with)
    }
}

impl<C: Classes + Copy> Source<C> {
    /// A copy: it answers any call as this one does, except for lack of memory.
    pub fn try_clone(&self) -> Result<Source<C>, AllocError>
        ensures { IfOk result (λ s. s ≡ self.now) }
    {
        Ok(Source {
            alloc: self.alloc,
            id: self.id,
            lines: self.lines.try_clone()?,
            root: self.root.try_clone()?,
            classes: self.classes,
            has_records: self.has_records,
            records: self.records.try_clone(self.alloc)?,
            boundary: self.boundary,
        })
    }
}

impl<C: Classes> fmt::Debug for Source<C> {
    fn fmt<W: fmt::Write>(&self, f: &mut fmt::Formatter<W>) -> fmt::Result {
        write!(f, "Source({})", self.id.get())
    }
}
