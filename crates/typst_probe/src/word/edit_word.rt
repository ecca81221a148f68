//! What edits of a text answer.

ghost use Rattle.std.specs.Prelude.{◌≡◌};
ghost use Rattle.typst_probe.specs.Words.{edit_word_named};

use crate::edits::After;
use crate::{answers, calls, chain, edits, everywhere, example, handed, in_a_row};
use std::alloc::{AllocError, Global};

/// What edits of a text answer.
#[derive(Clone, Copy)]
pub enum EditWord {
    /// The syntax tree of a text after an edit.
    Edit,
    /// The syntax tree of a text after an edit, where nearly all characters past ASCII are letters.
    EditWide,
    /// The syntax tree of a text after an edit, where no character past ASCII has a class.
    EditNarrow,
    /// The syntax tree of a text after an edit, with the number of each node.
    EditSpans,
    /// What edits of a text answer that are made one after the other.
    Edits,
    /// Edits of a text that are drawn, one after the other.
    InARow,
    /// What edits answer of a source that was handed a tree.
    Handed,
    /// What an editor does with a text that it holds.
    Example,
    /// How often classes are asked for an edit.
    Calls,
    /// Edits of a text at each of its places.
    Everywhere,
    /// Edits of a text, at each of its places another one.
    EverywhereInTurn,
    /// Edits of a text at some of its places.
    EverywhereAt,
    /// The lines of a text after an edit.
    EditLines,
    /// A chain of links, and edits of it.
    Chain,
}

impl EditWord {
    /// The word of that name.
    pub fn from_name(name: &str) -> Option<EditWord>
        ensures { result ≡ edit_word_named name.now }
    {
        match name {
            "edit" => Some(EditWord::Edit),
            "edit-wide" => Some(EditWord::EditWide),
            "edit-narrow" => Some(EditWord::EditNarrow),
            "edit-spans" => Some(EditWord::EditSpans),
            "edits" => Some(EditWord::Edits),
            "in-a-row" => Some(EditWord::InARow),
            "handed" => Some(EditWord::Handed),
            "example" => Some(EditWord::Example),
            "calls" => Some(EditWord::Calls),
            "everywhere" => Some(EditWord::Everywhere),
            "everywhere-in-turn" => Some(EditWord::EverywhereInTurn),
            "everywhere-at" => Some(EditWord::EverywhereAt),
            "edit-lines" => Some(EditWord::EditLines),
            "chain" => Some(EditWord::Chain),
            _ => None,
        }
    }

    /// Prints the whole answer about a text.
    pub fn print(self, alloc: Global, printed: &mut String, text: &str) -> Result<(), AllocError> {
        match self {
            EditWord::Edit => edits::print(alloc, printed, text, After::Tree),
            EditWord::EditWide => edits::print(alloc, printed, text, After::TreeWide),
            EditWord::EditNarrow => edits::print(alloc, printed, text, After::TreeNarrow),
            EditWord::EditSpans => edits::print(alloc, printed, text, After::Spans),
            EditWord::Edits => answers::print(alloc, printed, text),
            EditWord::InARow => in_a_row::print(alloc, printed, text),
            EditWord::Handed => handed::print(alloc, printed, text),
            EditWord::Example => example::print(alloc, printed, text),
            EditWord::Calls => calls::print(alloc, printed, text),
            EditWord::Everywhere => everywhere::print(alloc, printed, text, false),
            EditWord::EverywhereInTurn => everywhere::print(alloc, printed, text, true),
            EditWord::EverywhereAt => everywhere::print_at(alloc, printed, text),
            EditWord::EditLines => edits::print(alloc, printed, text, After::Lines),
            EditWord::Chain => chain::print(alloc, printed, text),
        }
    }
}
