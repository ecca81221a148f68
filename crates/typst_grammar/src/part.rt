//! Parts of a text that are read by themselves: a block, or some pieces of a run.

ghost use Rattle.std.specs.Prelude.{◌≡◌, ◌<◌, ℕ, Bool, true, IfOk};
ghost use Rattle.std.specs.Str.{IsCharBoundary};
ghost use Rattle.typst_lines.specs.Classes.{CharClasses};
ghost use Rattle.typst_lines.specs.Place.{Place, place_at};
ghost use Rattle.typst_language.specs.Point.{state_of};
ghost use Rattle.typst_language.specs.Bytes.{bytes_left};
ghost use Rattle.typst_code.specs.Markup as spec;
ghost use Rattle.typst_language.specs.View.{Means};
ghost use Rattle.typst_grammar.specs.declared.part.RunKind.{RunKind};
ghost use Rattle.typst_grammar.specs.Part.{ArePieces, HasRead, HasReadOn, IsBlock, IsGiven, IsResumed};
ghost use Rattle.typst_grammar.specs.Pieces.{stops_of};

use crate::grammar::{call_code_expr, call_markup_expr, call_math_expr, call_pattern, grammar};
use std::alloc::{AllocError, Global};
use typst_code::{Stop, code_block, content_block, markup_turn};
use typst_kinds::SyntaxMode;
use typst_language::{
    AtNewline, Block, Carried, Grammar, Levels, Log, Note, Parser, Reading, State,
};
use typst_lines::{Classes, Scanner};
use typst_tokens::Hull;
use typst_tree::SyntaxNode;

/// What was read of a part of a text.
#[derive(Drop)]
pub struct ReadPart {
    /// The nodes at the top of it, with detached spans.
    pub nodes: Vec<SyntaxNode>,
    /// Where the part ends, in bytes from the text's start.
    pub end: usize,
    /// What was noted in it, in order, with places in bytes from the text's start.
    pub notes: Vec<Note>,
    /// Where the looks since the last note end, and where they begin, in bytes.
    pub hull: Hull,
}

/// Reads a block of a text by itself: its node, and what was looked at and noted for it, without the notes at
/// its two ends. It begins at a byte between two characters, with a token that is read in this mode and isn't
/// trivia; a given number of levels are left for what is called in it, as the note says where it opens. Of
/// what is before it nothing else is known. It goes through the block and no further, and fails only for lack
/// of memory.
pub fn parse_block<C: Classes>(
    alloc: Global,
    text: &str,
    at: usize,
    block: Block,
    mode: SyntaxMode,
    levels: usize,
    classes: &C,
) -> Result<ReadPart, AllocError>
    requires { IsCharBoundary text.now at }
    ensures { IfOk result (λ p. IsBlock (C.classes classes.now) levels block mode (place_at text.now at) p) }
{
    let reading = Reading {
        mode,
        at_newline: AtNewline::Continue,
    };
    let mut p = resume(alloc, text, at, reading);
    let g = grammar!(classes, levels);
    p.look(&g)?;
    match block {
        Block::Content => content_block(&g, &mut p)?,
        Block::Code => code_block(&g, &mut p)?,
    }
    Ok(finish(p))
}

/// Whose run pieces are of.
#[derive(Debug, Clone, Copy, PartialEq, Eq)]
pub enum RunKind {
    /// A text's own run: it ends with the text.
    Text,
    /// A content block's run: it ends at a bracket that nothing in it has opened, or with the text.
    Block,
}

/// Reads pieces of a run of markup, one after the other.
///
/// After an error of memory it is somewhere between: it can only be dropped.
#[derive(Drop)]
pub struct PieceReader<'s> {
    parser: Parser<'s>,
    /// What is carried after the pieces.
    carried: Carried,
    /// How many levels are left for what is called in the run.
    levels: usize,
    /// Whose run it is.
    kind: RunKind,
    /// Where the current token begins.
    end: usize,
}

/// A reader of the pieces of a run from a byte between two characters on, where the token of a piece begins,
/// with what is carried there, as the note after the piece before it says. The run ends at such tokens: that
/// of a text at [`Stop::End`], that of a content block at [`Stop::Block`]; a given number of levels are left
/// for what is called in it, as its notes say. Of what is before it nothing else is known. It looks at the
/// token there and no further, and fails only for lack of memory.
pub fn resume_pieces<'s, C: Classes>(
    alloc: Global,
    text: &'s str,
    at: usize,
    carried: Carried,
    kind: RunKind,
    levels: usize,
    classes: &C,
) -> Result<PieceReader<'s>, AllocError>
    requires boundary { IsCharBoundary text.now at }
    requires some { 0 < levels }
    ensures { IfOk result (λ p. HasRead (C.classes classes.now) levels kind carried (place_at text.now at) 0 p) }
{
    let reading = Reading {
        mode: SyntaxMode::Markup,
        at_newline: AtNewline::Continue,
    };
    let mut parser = resume(alloc, text, at, reading);
    let g = grammar!(classes, levels);
    parser.look(&g)?;
    let end = parser.token_start();
    Ok(PieceReader {
        parser,
        carried,
        levels,
        kind,
        end,
    })
}

impl<'s> PieceReader<'s> {
    /// Reads one more piece, with the look at the token after it; answers false if the run ends here: then nothing
    /// was read. It fails only for lack of memory.
    pub fn next<C: Classes>(&mut self, classes: &C) -> Result<bool, AllocError>
        ensures read { (levels : ℕ) (kind : RunKind) (x : Bool × ℕ) (z : Place) (m : ℕ) → HasRead (C.classes classes.now) levels kind x z m self.old → IfOk result (λ more. HasReadOn (C.classes classes.now) levels kind x z m more self.new) }
        ensures shorter { (levels : ℕ) (kind : RunKind) (x : Bool × ℕ) (z : Place) (m : ℕ) → HasRead (C.classes classes.now) levels kind x z m self.old → IfOk result (λ more. more ≡ true → bytes_left self.new.parser.place < bytes_left self.old.parser.place) }
    {
        let g = grammar!(classes, self.levels);
        let (more, carried) = read_piece(&g, &mut self.parser, self.kind, self.carried)?;
        if !more {
            return Ok(false);
        }
        self.carried = carried;
        self.end = self.parser.token_start();
        Ok(true)
    }

    /// Where the pieces read so far end, with the trivia after them: where the current token begins,
    /// in bytes from the text's start.
    pub fn end(&self) -> usize
        ensures { result ≡ self.now.end }
    {
        self.end
    }

    /// What is carried after the pieces read so far.
    pub fn carried(&self) -> Carried
        ensures { result ≡ self.now.carried }
    {
        self.carried
    }

    /// How the reader goes on after the pieces read so far, except the place.
    pub fn state(&self) -> State
        ensures { result ≡ state_of self.now.parser.state }
    {
        self.parser.state()
    }

    /// The pieces read so far, with the trivia after them. It fails only for lack of memory.
    pub fn finish(self) -> Result<ReadPart, AllocError>
        ensures { (k : CharClasses) (levels : ℕ) (kind : RunKind) (x : Bool × ℕ) (z : Place) (m : ℕ) → HasRead k levels kind x z m self.entry → IfOk result (λ p. ArePieces k levels kind x z m p) }
    {
        let mut parser = self.parser;
        parser.flush_trivia()?;
        Ok(finish(parser))
    }
}

/// Reads a piece of a run; answers whether there is one, and what is carried after it.
fn read_piece<L: Levels>(
    g: &L,
    p: &mut Parser<'_>,
    kind: RunKind,
    carried: Carried,
) -> Result<(bool, Carried), AllocError>
    requires { L.may_call g.now }
    ensures { Means (L.frame g.now) (spec.markup_turn true (stops_of kind) carried) p.old result p.new }
{
    match kind {
        RunKind::Text => markup_turn(g, p, true, Stop::End, carried),
        RunKind::Block => markup_turn(g, p, true, Stop::Block, carried),
    }
}

/// A parser at a byte of a text, where nothing is known but how it is read there; it keeps notes.
fn resume<'s>(alloc: Global, text: &'s str, at: usize, reading: Reading) -> Parser<'s>
    requires { IsCharBoundary text.now at }
    ensures { IsResumed (place_at text.now at) reading result }
{
    let mut start = Scanner::new(text);
    start.jump(at);
    let state = State {
        reading,
        held: reading,
        empties: 0,
        is_after_error: false,
    };
    Parser::resume(alloc, start, Vec::new(alloc), state, Log::new(alloc, true))
}

/// What a parser gave, up to where it is.
fn finish(p: Parser<'_>) -> ReadPart
    ensures { IsGiven p.entry result }
{
    let end = p.cursor();
    let (nodes, notes, hull) = p.finish();
    ReadPart {
        nodes,
        end,
        notes,
        hull,
    }
}
