//! What a language server offers at places of a text.

ghost use Rattle.std.specs.Prelude.{◌≡◌};
ghost use Rattle.typst_probe_server.specs.Words.{offered_word_named};

use crate::{bound, offered, tokens};
use std::alloc::{AllocError, Global};
use typst_features::{expansions, selections};
use typst_grammar::parse;
use typst_lines::UnicodeClasses;
use typst_tree::SyntaxNode;

/// What is offered. The first line of the text names the places, with a space between two.
#[derive(Clone, Copy)]
pub enum OfferedWord {
    /// What is selected around bytes of the text.
    Selections,
    /// What selections at bytes of the text grow to.
    Expansions,
    /// Where the names at bytes of the text are mentioned.
    Mentions,
    /// Where the names at bytes of the text are defined and used.
    Occurrences,
    /// What is shown for bytes of the text.
    Hover,
    /// What the words before bytes of the text may become.
    Completions,
    /// The semantic tokens of ranges of the text.
    TokensIn,
    /// What a line that was begun needs after an item of a list.
    NextItem,
}

impl OfferedWord {
    /// The word of that name.
    pub fn from_name(name: &str) -> Option<OfferedWord>
        ensures { result ≡ offered_word_named name.now }
    {
        match name {
            "selections" => Some(OfferedWord::Selections),
            "expansions" => Some(OfferedWord::Expansions),
            "mentions" => Some(OfferedWord::Mentions),
            "occurrences" => Some(OfferedWord::Occurrences),
            "hover" => Some(OfferedWord::Hover),
            "completions" => Some(OfferedWord::Completions),
            "tokens-in" => Some(OfferedWord::TokensIn),
            "next-item" => Some(OfferedWord::NextItem),
            _ => None,
        }
    }

    /// The whole answer about a text.
    pub fn answer(self, alloc: Global, text: &str) -> Result<String, AllocError> {
        let (places, text) = text.split_once('\n').unwrap_or((text, ""));
        let root = parse(alloc, text, &UnicodeClasses)?;
        let mut answer = String::new(alloc);
        for place in places.split(' ') {
            self.show(alloc, &mut answer, &root, text, place)?;
        }
        Ok(answer)
    }

    /// Shows what is offered at a place of a text, whose tree this is: mostly in a line that begins with the place.
    fn show(
        self,
        alloc: Global,
        answer: &mut String,
        root: &SyntaxNode,
        text: &str,
        place: &str,
    ) -> Result<(), AllocError> {
        let byte = place.parse::<usize>().unwrap_or(0);
        let has_own_lines = matches!(
            self,
            OfferedWord::Mentions | OfferedWord::TokensIn | OfferedWord::NextItem
        );
        if !has_own_lines {
            write!(answer, "{place}:")?;
        }
        match self {
            OfferedWord::Selections => {
                offered::ranges(answer, selections(alloc, root, byte)?.as_slice())
            }
            OfferedWord::Expansions => {
                offered::ranges(answer, expansions(alloc, root, byte)?.as_slice())
            }
            OfferedWord::Mentions => offered::mentions(alloc, answer, root, place),
            OfferedWord::Occurrences => bound::occurrences(alloc, answer, root, text, byte),
            OfferedWord::Hover => offered::hover(alloc, answer, root, text, byte),
            OfferedWord::Completions => offered::completions(alloc, answer, root, text, byte),
            OfferedWord::TokensIn => tokens::tokens_in(alloc, answer, root, text, place),
            OfferedWord::NextItem => offered::continued(alloc, answer, root, text, byte),
        }
    }
}
