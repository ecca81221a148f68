//! A place to go back to.

ghost use Rattle.std.specs.Prelude.{◌≡◌, ◌≤◌, ◌-◌, ◌^◌, OnOk, length};
ghost use Rattle.typst_language.specs.AheadCursor.{Stands};
ghost use Rattle.typst_language.specs.Checkpoint.{first_of, forgot_notes, looked_since, saved, went_back};

use crate::parser::Parser;
use crate::{ReadAhead, State};
use std::alloc::AllocError;
use typst_tokens::Hull;
use typst_tree::SyntaxNode;

/// Where a parser was: how many nodes and notes there were, and the current token. It keeps no node and no text.
#[derive(Clone, Copy)]
pub struct Checkpoint<'s> {
    /// How many nodes were before the pending trivia.
    nodes: usize,
    /// How many nodes the pending trivia were.
    trivia: usize,
    /// How many notes there were.
    notes: usize,
    state: State,
    ahead: ReadAhead<'s>,
    ghost stands: { Stands ahead },
}

impl<'s> Parser<'s> {
    ghost use Rattle.typst_language.specs.Saved.{saved_by};

    /// A checkpoint of where the parser is.
    pub fn checkpoint(&self) -> Checkpoint<'s>
        ensures saved { saved_by result ≡ saved self.now }
        ensures few { self.now.state.empties ≤ length self.now.nodes }
        ensures least { self.now.log.least ≤ 2 ^ 64 - 1 }
    {
        Checkpoint {
            nodes: self.nodes.len(),
            trivia: self.trivia.len(),
            notes: self.log.count(),
            state: self.state,
            ahead: self.ahead,
        }
    }

    /// Goes back to where the parser was. The nodes that were given since are gone, except the trivia that were
    /// pending, which are pending again; what was noted since is gone, and what was looked at stays.
    pub fn restore(&mut self, to: Checkpoint<'s>) -> Result<(), AllocError>
        ensures { OnOk result (self.new ≡ went_back (saved_by to.entry) self.old) }
    {
        self.state.empties = 0;
        let at = to.nodes.min(self.nodes.len());
        let given = self.nodes.split_off(at)?;
        put_back(&mut self.trivia, given, to.trivia);
        self.ahead = to.ahead;
        self.state = to.state;
        self.state.empties = to.state.empties.min(self.nodes.len());
        self.log.drop_notes(to.notes);
        Ok(())
    }

    /// Says that this was looked at before the checkpoint: it counts at what was noted first since.
    pub fn look_before(&mut self, since: Checkpoint<'s>, hull: Hull)
        ensures { self.new ≡ looked_since (saved_by since.entry) hull self.old }
    {
        self.log.look_before(since.notes, hull);
    }

    /// Drops what was noted since the checkpoint, after a second reading of the same place. What was looked at
    /// stays.
    pub fn drop_notes(&mut self, since: Checkpoint<'s>)
        ensures { self.new ≡ forgot_notes (saved_by since.entry) self.old }
    {
        self.log.drop_notes(since.notes);
    }
}

/// Makes the first `count` given nodes pending again, if that many were given.
fn put_back(held: &mut Vec<SyntaxNode>, mut given: Vec<SyntaxNode>, count: usize)
    ensures { held.new.items ≡ first_of count given.items held.old.items }
{
    given.truncate(count);
    if given.len() == count {
        *held = given;
    }
}
