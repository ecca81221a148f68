//! Patterns, parameters, closures and bindings, and what they have in common with the rest of code.
#![tactic(auto)]

mod bindings;
mod closures;
mod parameters;
mod parts;
mod parts_listing;
mod patterns;

pub use bindings::{Bound, let_binding};
pub use closures::{named, placeholder, wrap_closure};
pub use parameters::params;
pub use parts::{code_expression, expression_if, separator};
pub use parts_listing::Parts;
pub use patterns::{destructuring, pattern};
