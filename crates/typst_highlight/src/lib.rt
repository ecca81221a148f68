//! Highlighting: tags of the nodes of a syntax tree, and the tree's text as HTML or as stretches with tags.
//!
//! A walk of another crate finds the tags of the nodes that it comes to by [`Progress`] and [`tag_next`].
#![tactic(auto)]

mod context;
mod edges;
mod entities;
mod highlighter;
mod html;
mod listed;
mod page;
mod progress;
mod rules;
mod sink;
mod spans;
mod stretches;
mod tags;
mod walk;

pub use context::is_childless;
pub use edges::is_edge;
pub use highlighter::highlight;
pub use html::highlight_html;
pub use listed::node_spans;
pub use progress::Progress;
pub use rules::{is_dot, is_name, is_skipped};
pub use spans::{NextTag, tag_next};
pub use stretches::{Tagged, tag_stretches};
pub use tags::{Tag, list_law};
