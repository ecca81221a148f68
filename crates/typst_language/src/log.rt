//! What was looked at and noted.

ghost use Rattle.std.specs.Prelude.{◌≡◌, ◌≤◌, ◌-◌, ◌^◌, OnOk, length, true};
ghost use Rattle.typst_language.specs.Log.{blank_log, with_hull};
ghost use Rattle.typst_language.specs.Bytes.{LiesIn, joined_hull};
ghost use Rattle.typst_language.specs.Noted as spec;
ghost use Rattle.typst_language.specs.Noted.{hull_in, listed, looked_alone, looked_before, unnoted, with_noted};

use crate::{Mark, Note, State};
use std::alloc::{AllocError, Global};
use std::marker::Model;
use typst_tokens::Hull;

/// No look at all.
const NOTHING: Hull = Hull {
    reach: 0,
    least: usize::MAX,
};

/// What was looked at and noted so far.
#[derive(Drop)]
pub struct Log {
    /// Where the looks since the last note end, and where they begin; all looks, if no notes are kept.
    hull: Hull,
    /// What was noted, in order, if notes are kept.
    notes: Option<Vec<Note>>,
}

impl Model for Log {
    ghost use Rattle.std.specs.Prelude.{option_map};
    ghost use Rattle.typst_language.specs.Log.{Log as Logged};
    ghost use Rattle.typst_language.specs.AheadCodes.{log_code};

    ghost Value = { Logged };

    ghost coded = { log_code };

    ghost view = { λ l. record { reach = l.hull.reach; least = l.hull.least; notes = option_map (λ ns. ns.items) l.notes } };
}

impl Log {
    /// A log in which nothing was looked at or noted.
    pub fn new(alloc: Global, keeps_notes: bool) -> Log
        ensures { result ≡ blank_log keeps_notes }
    {
        let hull = NOTHING;
        let notes = if keeps_notes {
            Some(Vec::new(alloc))
        } else {
            None
        };
        Log { hull, notes }
    }

    /// Says that this was looked at.
    #[inline(always)]
    pub fn look(&mut self, hull: Hull)
        ensures { self.new ≡ with_hull hull self.old }
    {
        self.hull = joined(self.hull, hull);
    }

    /// Sets all looks since the last note aside, except this one; answers what was set aside.
    pub fn set_aside(&mut self, hull: Hull) -> Hull
        ensures aside { result ≡ hull_in self.old }
        ensures least { self.old.least ≤ 2 ^ 64 - 1 }
        ensures alone { self.new ≡ looked_alone hull self.old }
    {
        let _least = self.hull.least;
        let aside = self.hull;
        self.hull = hull;
        aside
    }

    /// Says that this was looked at before the note of a number, or if there is no such note, since the last one.
    pub fn look_before(&mut self, count: usize, hull: Hull)
        ensures { self.new ≡ looked_before count hull self.old }
    {
        if let Some(notes) = &mut self.notes {
            if count < notes.len() {
                let note = &mut notes[count];
                note.reach = note.reach.max(hull.reach);
                note.least = note.least.min(hull.least);
                return;
            }
        }
        self.look(hull);
    }

    /// Notes that something begins or ends: its trivia begin at `before`, and its token at `start`, in bytes from
    /// the text's start.
    pub fn note(
        &mut self,
        mark: Mark,
        before: usize,
        start: usize,
        levels: usize,
        state: State,
    ) -> Result<(), AllocError>
        ensures { OnOk result (self.new ≡ with_noted mark before start levels state self.old) }
    {
        let note = Note {
            mark,
            before,
            start,
            levels,
            state,
            reach: self.hull.reach,
            least: self.hull.least,
        };
        if let Some(notes) = &mut self.notes {
            notes.push(note)?;
            self.hull = NOTHING;
        }
        Ok(())
    }

    /// Where the looks since the last note end, and where they begin; all looks, if no notes are kept.
    pub fn hull(&self) -> Hull
        ensures { result ≡ hull_in self.now }
    {
        self.hull
    }

    /// Whether all of this was looked at since the last note, or ever, if no notes are kept.
    pub fn holds(&self, hull: Hull) -> bool
        ensures { result ≡ true → LiesIn hull (hull_in self.now) }
    {
        hull.reach <= self.hull.reach && self.hull.least <= hull.least
    }

    /// How many notes are kept.
    pub fn count(&self) -> usize
        ensures count { result ≡ length (listed self.now.notes) }
        ensures least { self.now.least ≤ 2 ^ 64 - 1 }
    {
        let _least = self.hull.least;
        match &self.notes {
            Some(notes) => notes.len(),
            None => 0,
        }
    }

    /// Keeps only the first `count` notes. What was looked at before the others counts as looked at
    /// since the last of these.
    pub fn drop_notes(&mut self, count: usize)
        ensures { self.new ≡ unnoted count self.old }
    {
        if let Some(notes) = &mut self.notes {
            let at = count.min(notes.len());
            self.hull = hull_of(self.hull, &notes[at..]);
            notes.truncate(at);
        }
    }

    /// What was noted, none if no notes are kept; where the looks since the last note end, and where
    /// they begin.
    pub fn finish(self, alloc: Global) -> (Vec<Note>, Hull)
        ensures notes { result.0.items ≡ listed self.notes }
        ensures hull { result.1 ≡ record { reach = self.reach; least = self.least } }
    {
        let Log { hull, notes } = self;
        match notes {
            Some(notes) => (notes, hull),
            None => (Vec::new(alloc), hull),
        }
    }
}

/// The looks before these notes, and those since the last of them.
fn hull_of(since: Hull, notes: &[Note]) -> Hull
    ensures { result ≡ record { reach = spec.reach_of since.reach notes.now; least = spec.least_of since.least notes.now } }
{
    let mut hull = since;
    for note in notes {
        hull.reach = hull.reach.max(note.reach);
        hull.least = hull.least.min(note.least);
    }
    hull
}

/// Two stretches of bytes, and what lies between them.
pub(crate) fn joined(a: Hull, b: Hull) -> Hull
    ensures { result ≡ joined_hull a b }
{
    Hull {
        reach: a.reach.max(b.reach),
        least: a.least.min(b.least),
    }
}
