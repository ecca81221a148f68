//! What takes errors and warnings away, as edits that a language server offers.
//!
//! Positions are in bytes of the tree's text. What makes a list takes the allocator and answers `AllocError` where
//! memory is refused.
#![tactic(auto)]

mod fixes;
mod gaps;
mod hints;
mod wrapping;

pub use fixes::{Edit, Fix, FixKind, quick_fixes};
