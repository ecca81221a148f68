//! What is printed of the tree of a text, or of a part of the text, and the names that trees use.

ghost use Rattle.std.specs.Prelude.{◌≡◌};
ghost use Rattle.typst_probe.specs.Words.{tree_word_named};

use crate::{candidates, links, modes, names, notes, ranges, spans, stretches, tagged, tags};
use std::alloc::{AllocError, Global};

/// What is printed of a tree.
#[derive(Clone, Copy)]
pub enum TreeWord {
    /// The link that the text begins with.
    Link,
    /// Which part of the raw text its warnings are about.
    Stretches,
    /// What is noted in reading the text as markup.
    Notes,
    /// The tags of the nodes of the text's tree.
    Tags,
    /// The stretches of the text with their tags.
    Tagged,
    /// What of a text may be read again in an edit.
    Candidates,
    /// The syntax tree of the text as markup, with the number of each node.
    Spans,
    /// Which bytes are those within nodes.
    Ranges,
    /// How deep the tree of a text in a mode goes.
    Depths,
    /// How many nodes the tree of a text in a mode has.
    Size,
    /// How often classes are asked in reading a text in a mode.
    Asked,
    /// Whether a text in a mode is read alike each time.
    Again,
    /// The leaves of the tree of a text in a mode.
    Leaves,
    /// The names of all kinds of nodes.
    Kinds,
    /// All tags, with their names elsewhere.
    TagList,
}

impl TreeWord {
    /// The word of that name.
    pub fn from_name(name: &str) -> Option<TreeWord>
        ensures { result ≡ tree_word_named name.now }
    {
        match name {
            "link" => Some(TreeWord::Link),
            "stretches" => Some(TreeWord::Stretches),
            "notes" => Some(TreeWord::Notes),
            "tags" => Some(TreeWord::Tags),
            "tagged" => Some(TreeWord::Tagged),
            "candidates" => Some(TreeWord::Candidates),
            "spans" => Some(TreeWord::Spans),
            "ranges" => Some(TreeWord::Ranges),
            "depths" => Some(TreeWord::Depths),
            "size" => Some(TreeWord::Size),
            "asked" => Some(TreeWord::Asked),
            "again" => Some(TreeWord::Again),
            "leaves" => Some(TreeWord::Leaves),
            "kinds" => Some(TreeWord::Kinds),
            "tag-list" => Some(TreeWord::TagList),
            _ => None,
        }
    }

    /// Prints the whole answer about a text.
    pub fn print(self, alloc: Global, printed: &mut String, text: &str) -> Result<(), AllocError> {
        match self {
            TreeWord::Link => links::print(alloc, printed, text),
            TreeWord::Stretches => stretches::print(alloc, printed, text),
            TreeWord::Notes => notes::print(alloc, printed, text),
            TreeWord::Tags => tags::print(alloc, printed, text),
            TreeWord::Tagged => tagged::print(alloc, printed, text),
            TreeWord::Candidates => candidates::print(alloc, printed, text),
            TreeWord::Spans => spans::print(alloc, printed, text),
            TreeWord::Ranges => ranges::print(alloc, printed, text),
            TreeWord::Depths => modes::print_depths(alloc, printed, text),
            TreeWord::Size => modes::print_size(alloc, printed, text),
            TreeWord::Asked => modes::print_asked(alloc, printed, text),
            TreeWord::Again => modes::print_again(alloc, printed, text),
            TreeWord::Leaves => modes::print_leaves(alloc, printed, text),
            TreeWord::Kinds => names::print_kinds(printed),
            TreeWord::TagList => names::print_tags(printed),
        }
    }
}
