//! The names of a syntax tree: what binds and uses them, up to where that holds, and what each means.
//!
//! [`names`] gives the names of a tree by the table of scopes (specs/Scopes.antt, and specs/Modules.antt for
//! modules), [`binding_of`] the binding that one of them means, [`uses_of`] the uses that mean a binding,
//! [`name_roles`] what each is by where it stands (specs/Contexts.antt). [`Placed`] is a node with the byte at which
//! it begins. Positions are in bytes of the tree's text.
#![tactic(auto)]

mod bindings;
mod contexts;
mod modules;
mod parts;
mod places;
mod roles;
mod scopes;

pub use bindings::{Occurrence, OccurrenceKind, binding_of, name_at, uses_of, word_of};
pub use contexts::{Context, Role};
pub use parts::NameKind;
pub use places::Placed;
pub use roles::name_roles;
pub use scopes::{Name, names};
