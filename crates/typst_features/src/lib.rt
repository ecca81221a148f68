//! What a language server shows of a document, as functions on its syntax tree: an outline, foldings,
//! selections, names with their bindings and uses, labels with their references, completions, links, problems.
//!
//! Positions are in bytes of the tree's text. Where nothing else is said each function goes through a tree at
//! most once, and what makes a list takes the allocator and answers `AllocError` where memory is refused.
#![tactic(auto)]

mod completion;
mod expansion;
mod folding;
mod hovering;
mod items;
mod links;
mod naming;
mod outline;
mod parents;
mod renaming;
mod report;
mod sections;
mod selection;
mod typing;

pub use completion::{CompletionKind, Completions, completions_at};
pub use expansion::expansions;
pub use folding::{Fold, FoldKind, foldings};
pub use hovering::{Hover, HoverKind, hover_at};
pub use items::{LineEdit, next_item};
pub use links::{DocumentLink, LinkKind, document_links};
pub use naming::{Mention, MentionKind, definitions, highlights, mention_at, mentions, references};
pub use outline::{Symbol, SymbolKind, symbols};
pub use renaming::{Named, Renamed, named_at};
pub use report::{Problem, problems, range_of};
pub use selection::{MOST_SELECTIONS, selections};
pub use typing::{is_open_text, is_unclosed, shown_problems};
pub use typst_names::{
    Name, NameKind, Occurrence, OccurrenceKind, Role, binding_of, name_at, name_roles, names,
    uses_of,
};
