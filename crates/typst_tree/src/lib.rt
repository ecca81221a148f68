//! The nodes of Typst's syntax tree, and nodes that know what is around them.
//!
//! Contracts see a node as plain data, a `Tree` of `specs/Tree.antt`: a head (kind, text, span, diagnostics) and
//! the children.
#![tactic(auto)]

mod back;
mod boundary;
mod items;
mod known;
pub mod laws;
mod linked;
mod node;
mod numbers;
mod order;
mod preorder;
mod replace;
mod search;

pub use boundary::Boundary;
pub use linked::{LinkedChildren, LinkedNode};
pub use node::SyntaxNode;
pub use order::is_ordered;
pub use preorder::{Preorder, Visit};
