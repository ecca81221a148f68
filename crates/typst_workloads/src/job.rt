//! The jobs.

use crate::broken::broken;
use crate::digest::Outcome;
use crate::opening::opening;
use crate::outside::outside;
use crate::positions::positions;
use crate::random::Random;
use crate::sums::sums;
use crate::typing::{blocks, typing};
use crate::walking::walking;
use std::alloc::Global;
use std::slice;

/// A job that users wait for.
#[derive(Clone, Copy)]
pub enum Job {
    /// Typing into documents.
    Typing,
    /// Typing into texts that are one block as a whole.
    Blocks,
    /// Typing after something that is open.
    Broken,
    /// Walking through trees and highlighting what is shown.
    Walking,
    /// Opening the files of a project and showing them as pages.
    Opening,
    /// Taking over what changed outside, and keeping what was.
    Outside,
    /// Finding positions in lines.
    Positions,
    /// Summing up short texts, against sums that were computed separately. It is no job of users and isn't timed.
    Sums,
}

/// All jobs, with their names.
static ALL: [(&str, Job); 8] = [
    ("typing", Job::Typing),
    ("blocks", Job::Blocks),
    ("broken", Job::Broken),
    ("walking", Job::Walking),
    ("opening", Job::Opening),
    ("outside", Job::Outside),
    ("positions", Job::Positions),
    ("sums", Job::Sums),
];

/// The jobs that a word names, with their names: one, or all by `all`, and none by another word.
pub fn jobs_named(word: &str) -> &'static [(&'static str, Job)] {
    if word == "all" {
        return &ALL;
    }
    for named in &ALL {
        if named.0 == word {
            return slice::from_ref(named);
        }
    }
    &[]
}

impl Job {
    /// Does the job on so many rounds of inputs, of which each seed gives others.
    pub fn run(self, alloc: Global, seed: u64, rounds: usize) -> anyhow::Result<Outcome> {
        let mut outcome = Outcome::new();
        for round in 0..rounds {
            let random = &mut Random::new(seed, round as u64);
            match self {
                Job::Typing => typing(alloc, random, round, &mut outcome)?,
                Job::Blocks => blocks(alloc, random, round, &mut outcome)?,
                Job::Broken => broken(alloc, random, &mut outcome)?,
                Job::Walking => walking(alloc, random, &mut outcome)?,
                Job::Opening => opening(alloc, random, round, &mut outcome)?,
                Job::Outside => outside(alloc, random, &mut outcome)?,
                Job::Positions => positions(alloc, random, &mut outcome)?,
                Job::Sums => sums(alloc, &mut outcome)?,
            }
        }
        Ok(outcome)
    }
}
