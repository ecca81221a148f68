//! Lines and positions as the Language Server Protocol has them.
#![tactic(auto)]

pub mod columns;
pub mod positions;
mod starts;

pub use columns::Encoding;
pub use positions::{Position, Positions};
