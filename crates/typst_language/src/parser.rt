//! A parser that has read one token ahead.

ghost use Rattle.std.specs.Prelude.{◌≡◌, ◌+◌, ◌≤◌, ◌<◌, [], length, OnOk, IfOk, false, not, true};
ghost use Rattle.typst_lines.specs.Place.{moved};
ghost use Rattle.typst_lines.specs.Scanner.{place};
ghost use Rattle.typst_tokens.specs.Sight.{position};
ghost use Rattle.typst_language.specs.Meaning.{Level, entered, left as outside, same_mode, same_rule};
ghost use Rattle.typst_language.specs.Point.{is_nil, point_of, state_of};
ghost use Rattle.typst_language.specs.Steps as spec;
ghost use Rattle.typst_language.specs.Syntax.Op.{column};
ghost use Rattle.typst_language.specs.Syntax.Parser.{does};
ghost use Rattle.typst_language.specs.Bytes.{bytes_left};
ghost use Rattle.typst_language.specs.Cursor.{IsStart};
ghost use Rattle.typst_language.specs.View.{Closed, Does, Fills, Left, Looked, Means, Opened, noted_here, unasked};
ghost use Rattle.typst_language.specs.Noted.{hull_in, listed};

use crate::depth::Levels;
use crate::memo::Guessed;
use crate::nodes::is_none;
use crate::{AtNewline, Block, Log, Mark, Note, ReadAhead, Reading, State, judged, left};
use std::alloc::{AllocError, Global};
use std::marker::Model;
use typst_kinds::{SyntaxKind, SyntaxMode};
use typst_lines::{Classes, Scanner};
use typst_tokens::Hull;
use typst_tokens::column::column;
use typst_tree::SyntaxNode;

/// For how many bytes of the text room for a node is taken at once: nodes that are children of inner nodes already
/// need none.
const BYTES_PER_NODE: usize = 8;

/// For how many nodes room is taken at most: it takes addresses, and pages only once nodes are written to it.
const MOST_ROOM: usize = 100_000;

/// A parser of a text: the nodes so far, the current token, and how to go on.
///
/// After an error of memory it is somewhere between: it can only be dropped.
#[derive(Drop)]
pub struct Parser<'s> {
    pub(crate) alloc: Global,
    /// The nodes so far, without the trivia before the current token.
    pub(crate) nodes: Vec<SyntaxNode>,
    pub(crate) ahead: ReadAhead<'s>,
    /// The nodes of the trivia before the current token.
    pub(crate) trivia: Vec<SyntaxNode>,
    pub(crate) state: State,
    pub(crate) log: Log,
    /// First readings that turned out wrong, those first that have more bytes left.
    pub(crate) memo: Vec<Guessed>,
    /// How many first readings have not ended.
    pub(crate) guesses: usize,
}

impl<'s> Model for Parser<'s> {
    ghost use Rattle.typst_language.specs.View.{View};
    ghost use Rattle.typst_language.specs.Codes.{view_code};

    ghost Value = { View };

    ghost coded = { view_code };

    ghost use Rattle.typst_language.specs.Cursor.{view_of, IsReady};

    ghost view = { view_of };

    ghost invariant = { IsReady };
}

impl<'s> Parser<'s> {
    /// A parser at the start of a text, before anything was asked, which keeps notes or doesn't.
    pub fn new(
        alloc: Global,
        text: &'s str,
        reading: Reading,
        keeps_notes: bool,
    ) -> Result<Self, AllocError>
        ensures { IfOk result (λ p. IsStart text.now reading keeps_notes p) }
    {
        let state = State {
            reading,
            held: reading,
            empties: 0,
            is_after_error: false,
        };
        Ok(Parser {
            alloc,
            nodes: Vec::with_capacity(alloc, (text.len() / BYTES_PER_NODE).min(MOST_ROOM))?,
            ahead: ReadAhead::none(Scanner::new(text)),
            trivia: Vec::new(alloc),
            state,
            log: Log::new(alloc, keeps_notes),
            memo: Vec::new(alloc),
            guesses: 0,
        })
    }

    /// A parser at a place of a text, before anything was asked there: with these nodes before it, this state, and
    /// this log of what was looked at and noted.
    pub fn resume(
        alloc: Global,
        at: Scanner<'s>,
        nodes: Vec<SyntaxNode>,
        state: State,
        log: Log,
    ) -> Self
        requires few { state.empties ≤ length nodes.items }
        ensures nodes { result.nodes ≡ nodes.items }
        ensures place { result.place ≡ place at.entry }
        ensures state { result.state ≡ point_of state }
        ensures log { result.log ≡ log }
        ensures memo { result.memo ≡ [] }
    {
        Parser {
            alloc,
            nodes,
            ahead: ReadAhead::none(at),
            trivia: Vec::new(alloc),
            state,
            log,
            memo: Vec::new(alloc),
            guesses: 0,
        }
    }

    /// Where the pending trivia begin, in bytes from the text's start.
    pub fn cursor(&self) -> usize
        ensures { result ≡ position self.now.place }
    {
        self.ahead.before.cursor()
    }

    /// Where the pending trivia end and the current token begins, in bytes from the text's start.
    pub fn token_start(&self) -> usize
        ensures { result ≡ position (moved self.now.hand.gap self.now.place) }
    {
        self.ahead.start.cursor()
    }

    /// How the parser goes on, except the place.
    pub fn state(&self) -> State
        ensures { result ≡ state_of self.now.state }
    {
        self.state
    }

    /// What was looked at since the last note: where the looks end, and where they begin; all looks, if no notes
    /// are kept.
    pub fn looked(&self) -> Hull
        ensures { result ≡ hull_in self.now.log }
    {
        self.log.hull()
    }

    /// The allocator that it takes its memory from.
    pub fn alloc(&self) -> Global {
        self.alloc
    }

    /// The nodes that were read; what was noted, nothing if no notes are kept; and where the looks since the last
    /// note end, and where they begin, all looks if no notes are kept.
    pub fn finish(self) -> (Vec<SyntaxNode>, Vec<Note>, Hull)
        ensures nodes { result.0.items ≡ self.entry.nodes }
        ensures notes { result.1.items ≡ listed self.entry.log.notes }
        ensures hull { result.2 ≡ record { reach = self.entry.log.reach; least = self.entry.log.least } }
    {
        let (notes, hull) = self.log.finish(self.alloc);
        (self.nodes, notes, hull)
    }

    /// The kind of the current token.
    pub fn current(&self) -> SyntaxKind
        ensures { result ≡ self.now.hand.kind }
    {
        self.ahead.kind
    }

    /// Whether a newline was passed before the current token.
    pub fn had_newline(&self) -> bool
        ensures { result ≡ self.now.hand.newlines.any }
    {
        self.ahead.newlines.any
    }

    /// Whether trivia were passed before the current token that aren't nodes yet.
    pub fn had_trivia(&self) -> bool
        ensures { result ≡ not (is_nil self.now.hand.trivia) }
    {
        !is_none(self.trivia.as_slice())
    }

    /// How many bytes there are from the pending trivia on.
    pub fn left(&self) -> usize
        ensures { result ≡ bytes_left self.now.place }
    {
        left(&self.ahead.before)
    }

    /// Whether another turn comes: the one that was made asks for it, and has read something since so many
    /// bytes were left. So each loop of productions ends.
    pub fn goes_on(&self, more: bool, before: usize) -> bool
        ensures goes { result ≡ true → (more ≡ true) × (bytes_left self.now.place < before) }
        ensures stops { result ≡ false → more ≡ true → before ≤ bytes_left self.now.place }
    {
        more && self.left() < before
    }

    /// How many characters the current token is after its line's start.
    pub fn current_column(&mut self) -> usize
        ensures { (l : Level) → Does l (does column) result self.old self.new }
    {
        let (column, hull) = column(&self.ahead.start);
        self.log.look(hull);
        column
    }

    /// Asks for the token to come, with the trivia before it.
    #[inline(always)]
    pub fn look<L: Levels>(&mut self, g: &L) -> Result<(), AllocError>
        ensures { (l : Level) → Fills l (L.frame g.now) → OnOk result (Looked l (unasked self.old) self.new) }
    {
        self.read(g)?;
        Ok(())
    }

    /// Asks for the token to come, with the trivia before it, by these classes.
    #[inline(always)]
    pub(crate) fn read<C: Classes>(&mut self, classes: &C) -> Result<(), AllocError>
        ensures { (l : Level) → l.classes ≡ C.classes classes.now → OnOk result (Looked l (unasked self.old) self.new) }
    {
        let hull = self
            .ahead
            .read(&mut self.trivia, self.alloc, self.state.held, classes)?;
        self.log.look(hull);
        Ok(())
    }

    /// Notes what begins or ends at the current token.
    pub fn note<L: Levels>(&mut self, mark: Mark, g: &L) -> Result<(), AllocError>
        ensures { Means (L.frame g.now) (spec.note mark) self.old result self.new }
    {
        let before = self.ahead.before.cursor();
        let start = self.ahead.start.cursor();
        self.log.note(mark, before, start, g.levels(), self.state)?;
        self.log.look(self.ahead.here);
        Ok(())
    }

    /// Notes what begins or ends here, where no token was asked for.
    pub fn note_here<L: Levels>(&mut self, mark: Mark, g: &L) -> Result<(), AllocError>
        ensures { OnOk result (self.new ≡ noted_here (L.frame g.now).levels mark self.old) }
    {
        let here = self.ahead.before.cursor();
        self.log.note(mark, here, here, g.levels(), self.state)?;
        Ok(())
    }

    /// The number that the node of the current token will have.
    pub fn marker(&self) -> usize
        ensures marker { result ≡ length self.now.nodes + length self.now.hand.trivia }
        ensures few { self.now.state.empties ≤ length self.now.nodes }
    {
        self.nodes.len().saturating_add(self.trivia.len())
    }

    /// The number that the first node of the pending trivia will have.
    pub fn before_trivia(&self) -> usize
        ensures marker { result ≡ length self.now.nodes + 0 }
        ensures few { self.now.state.empties ≤ length self.now.nodes }
    {
        self.nodes.len()
    }

    /// Reads the tokens to come in this way, and answers how they were to be read.
    pub fn enter(&mut self, reading: Reading) -> Reading
        ensures view { self.new ≡ record self.old { state = entered reading self.old.state } }
        ensures outer { result ≡ self.old.state.reading }
    {
        let outer = self.state.reading;
        self.state.reading = reading;
        outer
    }

    /// Reads the tokens to come by another newline rule, and answers how they were to be read.
    pub fn enter_rule(&mut self, rule: AtNewline) -> Reading
        ensures view { self.new ≡ record self.old { state = entered (record self.old.state.reading { at_newline = rule }) self.old.state } }
        ensures outer { result ≡ self.old.state.reading }
    {
        let outer = self.state.reading;
        self.state.reading.at_newline = rule;
        outer
    }

    /// Reads the tokens to come in the outer way again. After another mode the current token is
    /// read again, after another rule it is judged again.
    pub fn leave<L: Levels>(&mut self, outer: Reading, g: &L) -> Result<(), AllocError>
        ensures { (l : Level) → Fills l (L.frame g.now) → OnOk result (Left l outer self.old self.new) }
    {
        let inner = self.state.reading;
        self.state.reading = outer;
        if !same_mode(inner.mode, outer.mode) {
            self.state.held = outer;
            self.read(g)?;
            return Ok(());
        }
        if same_rule(inner.at_newline, outer.at_newline) {
            return Ok(());
        }
        self.state.held.at_newline = outer.at_newline;
        let (kind, here) = judged(
            self.state.held,
            self.ahead.newlines,
            self.ahead.token.kind,
            &self.ahead.start,
            self.ahead.own,
        );
        self.ahead.kind = kind;
        self.ahead.here = here;
        self.log.look(here);
        Ok(())
    }

    /// Reads the tokens to come in the outer way again, where no token is asked for.
    pub fn leave_unasked(&mut self, outer: Reading)
        ensures { self.new ≡ record self.old { state = outside outer self.old.state } }
    {
        let inner = self.state.reading;
        self.state.reading = outer;
        if !same_mode(inner.mode, outer.mode) {
            self.state.held = outer;
            self.ahead.is_read = false;
            return;
        }
        if !same_rule(inner.at_newline, outer.at_newline) {
            self.state.held.at_newline = outer.at_newline;
        }
    }

    /// Makes nodes of the pending trivia, notes that a block begins, and asks for its first token.
    pub fn open_block<L: Levels>(&mut self, block: Block, g: &L) -> Result<(), AllocError>
        ensures { (l : Level) → Fills l (L.frame g.now) → OnOk result (Opened l block self.old self.new) }
    {
        self.flush()?;
        self.note_here(Mark::Opens(block), g)?;
        self.read(g)?;
        Ok(())
    }

    /// Notes where a block ends, and asks for the token after it.
    pub fn close_block<L: Levels>(&mut self, g: &L) -> Result<(), AllocError>
        ensures { (l : Level) → Fills l (L.frame g.now) → OnOk result (Closed l self.old self.new) }
    {
        self.note_here(Mark::Closes, g)?;
        self.read(g)?;
        Ok(())
    }
}

/// Whether two modes are the same.
pub(crate) fn same_mode(a: SyntaxMode, b: SyntaxMode) -> bool
    ensures { result ≡ same_mode a b }
{
    matches!(
        (a, b),
        (SyntaxMode::Markup, SyntaxMode::Markup)
            | (SyntaxMode::Math, SyntaxMode::Math)
            | (SyntaxMode::Code, SyntaxMode::Code)
    )
}

/// Whether two newline rules are the same.
pub(crate) fn same_rule(a: AtNewline, b: AtNewline) -> bool
    ensures { result ≡ same_rule a b }
{
    match (a, b) {
        (AtNewline::Continue, AtNewline::Continue) => true,
        (AtNewline::Stop, AtNewline::Stop) => true,
        (AtNewline::ContextualContinue, AtNewline::ContextualContinue) => true,
        (AtNewline::StopParBreak, AtNewline::StopParBreak) => true,
        (AtNewline::RequireColumn(a), AtNewline::RequireColumn(b)) => a == b,
        _ => false,
    }
}
