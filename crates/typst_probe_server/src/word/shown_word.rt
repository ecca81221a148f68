//! What a language server shows of a text.

ghost use Rattle.std.specs.Prelude.{◌≡◌};
ghost use Rattle.typst_probe_server.specs.Words.{shown_word_named};

use crate::{bound, shown, tokens};
use std::alloc::{AllocError, Global};
use typst_features::{problems, shown_problems};
use typst_grammar::parse;
use typst_lines::UnicodeClasses;
use typst_tree::SyntaxNode;

/// What is shown.
#[derive(Clone, Copy)]
pub enum ShownWord {
    /// The outline of the text.
    Outline,
    /// What of the text can be folded.
    Foldings,
    /// The errors and warnings of the text.
    Problems,
    /// The errors and warnings that are shown while someone types.
    ShownProblems,
    /// The semantic tokens of the text.
    SemanticTokens,
    /// The names of the text, and what they mean.
    Names,
    /// What takes the errors and warnings of the text away.
    QuickFixes,
    /// The links of the text.
    DocumentLinks,
}

impl ShownWord {
    /// The word of that name.
    pub fn from_name(name: &str) -> Option<ShownWord>
        ensures { result ≡ shown_word_named name.now }
    {
        match name {
            "outline" => Some(ShownWord::Outline),
            "foldings" => Some(ShownWord::Foldings),
            "problems" => Some(ShownWord::Problems),
            "shown-problems" => Some(ShownWord::ShownProblems),
            "semantic-tokens" => Some(ShownWord::SemanticTokens),
            "names" => Some(ShownWord::Names),
            "quick-fixes" => Some(ShownWord::QuickFixes),
            "document-links" => Some(ShownWord::DocumentLinks),
            _ => None,
        }
    }

    /// The whole answer about a text.
    pub fn answer(self, alloc: Global, text: &str) -> Result<String, AllocError> {
        let root = parse(alloc, text, &UnicodeClasses)?;
        let mut answer = String::new(alloc);
        self.show(alloc, &mut answer, &root, text)?;
        Ok(answer)
    }

    /// Shows the whole answer about a text, whose tree this is.
    fn show(
        self,
        alloc: Global,
        answer: &mut String,
        root: &SyntaxNode,
        text: &str,
    ) -> Result<(), AllocError> {
        match self {
            ShownWord::Outline => shown::outline(alloc, answer, root, text),
            ShownWord::Foldings => shown::folds(alloc, answer, root),
            ShownWord::Problems => shown::report(answer, problems(alloc, root)?.as_slice(), true),
            ShownWord::ShownProblems => {
                shown::report(answer, shown_problems(alloc, root)?.as_slice(), false)
            }
            ShownWord::SemanticTokens => {
                tokens::tokens(alloc, answer, root, text, &(0..text.len()))
            }
            ShownWord::Names => bound::meanings(alloc, answer, root, text),
            ShownWord::QuickFixes => shown::fixes(alloc, answer, root, text),
            ShownWord::DocumentLinks => shown::links(alloc, answer, root),
        }
    }
}
