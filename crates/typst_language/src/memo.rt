//! What is remembered of first readings that turned out wrong.

ghost use Rattle.std.specs.Prelude.{◌≡◌, ◌-◌, ◌≤◌, ◌^◌, OnOk, IfSome, length, true};
ghost use Rattle.typst_language.specs.Noted.{hull_in};
ghost use Rattle.typst_language.specs.Bytes.{bytes_left};
ghost use Rattle.typst_language.specs.Meaning.{Level};
ghost use Rattle.typst_language.specs.View.{begun, looked_too, Dropped, Fits, Found, IsThis, Remembers};

use crate::depth::Levels;
use crate::parser::{Parser, same_mode, same_rule};
use crate::{AfterName, Reading, left};
use std::alloc::AllocError;
use typst_lexer::is_leaf;
use typst_tokens::Hull;

/// A first reading that turned out wrong: where it went on after its paren, by how many bytes there
/// were from there on; how many levels were left; how it was read outside; what came after it; what
/// was looked at for the paren; and what for it and by the reading. What had been looked at before it
/// is in neither, since a second reading of what is around it may have noted something in between.
#[derive(Debug, Clone, Copy)]
pub struct Guessed {
    pub left: usize,
    pub levels: usize,
    pub outer: Reading,
    pub after: AfterName,
    pub paren: Hull,
    pub hull: Hull,
}

impl<'s> Parser<'s> {
    /// Begins a first reading with the current token. Until it ends, what turns out wrong within it is remembered.
    /// What was looked at since the last note is set aside, except what was for that token, so that all looks from
    /// here on are the reading's own; answers what was set aside.
    pub fn begin_guess(&mut self) -> Hull
        ensures aside { result ≡ hull_in self.old.log }
        ensures least { self.old.log.least ≤ 2 ^ 64 - 1 }
        ensures begun { self.new ≡ begun self.old }
    {
        self.guesses = self.guesses.saturating_add(1);
        self.log.set_aside(self.ahead.here)
    }

    /// Ends a first reading, with the second one that it may have asked for. With the outermost one all that is
    /// remembered is dropped.
    pub fn end_guess(&mut self)
        ensures { Dropped self.old self.new }
    {
        self.guesses = self.guesses.saturating_sub(1);
        if self.guesses == 0 {
            self.memo.clear();
        }
    }

    /// Says that this was looked at.
    pub fn look_too(&mut self, hull: Hull)
        ensures { self.new ≡ looked_too hull self.old }
    {
        self.log.look(hull);
    }

    /// What comes after the parens that begin with the current token, and what a first reading of them would look
    /// at beyond what was looked at, if that is remembered.
    pub fn guessed<L: Levels>(&self, g: &L) -> Option<(AfterName, Hull)>
        ensures { (l : Level) → l.levels ≡ (L.frame g.now).levels → Fits l self.now → IfSome result (λ found. Found l self.now found.0 found.1) }
    {
        if !is_leaf(self.ahead.token) {
            return None;
        }
        let left = left(&self.ahead.after);
        let mut at = self.first_at(left);
        'entries: loop {
            let Some(entry) = self.memo.get(at) else {
                return None;
            };
            if entry.left != left {
                return None;
            }
            if self.is_this(entry, g.levels()) {
                return Some((entry.after, entry.hull));
            }
            at = at.saturating_add(1);
        }
    }

    /// Whether what is remembered is of this reading, and all that was looked at for its paren counts as looked
    /// at.
    fn is_this(&self, entry: &Guessed, levels: usize) -> bool
        ensures { result ≡ true → IsThis levels self.now entry.now }
    {
        entry.levels == levels
            && same_mode(entry.outer.mode, self.state.reading.mode)
            && same_rule(entry.outer.at_newline, self.state.reading.at_newline)
            && self.log.holds(entry.paren)
    }

    /// Remembers what came after the parens that begin with the current token, if another first reading could ask
    /// for it; what was looked at before them is set aside still.
    pub fn remember<L: Levels>(&mut self, after: AfterName, g: &L) -> Result<(), AllocError>
        ensures { OnOk result (Remembers (L.frame g.now).levels after self.old self.new) }
    {
        if self.guesses < 2 || !is_leaf(self.ahead.token) {
            return Ok(());
        }
        let entry = Guessed {
            left: left(&self.ahead.after),
            levels: g.levels(),
            outer: self.state.reading,
            after,
            paren: self.ahead.here,
            hull: self.log.hull(),
        };
        let at = self.first_at(entry.left);
        self.memo.insert(at, entry)?;
        Ok(())
    }

    /// The place among what is remembered of the first entry that has at most `left` bytes left, or the end.
    fn first_at(&self, left: usize) -> usize
        ensures { result ≤ length self.now.memo }
    {
        self.memo
            .as_slice()
            .partition_point(|entry: &Guessed| entry.left > left)
    }
}
