//! The parser as a static library that C calls.
//!
//! The exported functions stand in `exports`. Each takes what C passes, has the work done by a function of `work`,
//! `answers`, `names` or `positions`, whose contract speaks of sources and texts, and turns its answer into a code.
#![tactic(auto)]

mod answers;
mod exports;
mod handle;
mod kept;
mod names;
mod opened;
mod positions;
mod refusal;
mod work;
