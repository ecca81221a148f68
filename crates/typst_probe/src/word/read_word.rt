//! How a text is read: as tokens, and with other class values.

ghost use Rattle.std.specs.Prelude.{◌≡◌};
ghost use Rattle.typst_probe.specs.Words.{read_word_named};

use crate::{looks, tokens};
use std::alloc::{AllocError, Global};
use typst_edited::cli::{SyntaxMode, UnicodeClasses, tree};
use typst_fakes::{Narrow, Wide};

/// How a text is read.
#[derive(Clone, Copy)]
pub enum ReadWord {
    /// The syntax tree, where nearly all characters past ASCII are letters.
    TreeWide,
    /// The syntax tree, where no character past ASCII has a class.
    TreeNarrow,
    /// The syntax tree of the text as a formula, where nearly all characters past ASCII are letters.
    TreeMathWide,
    /// The syntax tree of the text as a formula, where no character past ASCII has a class.
    TreeMathNarrow,
    /// The tokens of the text as markup.
    Tokens,
    /// The tokens, where nearly all characters past ASCII are letters.
    TokensWide,
    /// The tokens, where no character past ASCII has a class.
    TokensNarrow,
    /// The tokens of the text as code.
    TokensCode,
    /// The tokens of the text as a formula.
    TokensMath,
    /// What is looked at for each token of the text as markup.
    Look,
}

impl ReadWord {
    /// The word of that name.
    pub fn from_name(name: &str) -> Option<ReadWord>
        ensures { result ≡ read_word_named name.now }
    {
        match name {
            "tree-wide" => Some(ReadWord::TreeWide),
            "tree-narrow" => Some(ReadWord::TreeNarrow),
            "tree-math-wide" => Some(ReadWord::TreeMathWide),
            "tree-math-narrow" => Some(ReadWord::TreeMathNarrow),
            "tokens" => Some(ReadWord::Tokens),
            "tokens-wide" => Some(ReadWord::TokensWide),
            "tokens-narrow" => Some(ReadWord::TokensNarrow),
            "tokens-code" => Some(ReadWord::TokensCode),
            "tokens-math" => Some(ReadWord::TokensMath),
            "look" => Some(ReadWord::Look),
            _ => None,
        }
    }

    /// Prints the whole answer about a text.
    pub fn print(self, alloc: Global, printed: &mut String, text: &str) -> Result<(), AllocError> {
        let (mode, classes) = (SyntaxMode::Markup, UnicodeClasses);
        match self {
            ReadWord::TreeWide => push_tree(printed, tree::answer(alloc, text, &Wide)),
            ReadWord::TreeNarrow => push_tree(printed, tree::answer(alloc, text, &Narrow)),
            ReadWord::TreeMathWide => push_tree(printed, tree::answer_math(alloc, text, &Wide)),
            ReadWord::TreeMathNarrow => push_tree(printed, tree::answer_math(alloc, text, &Narrow)),
            ReadWord::Tokens => tokens::print(alloc, printed, text, mode, &classes),
            ReadWord::TokensWide => tokens::print(alloc, printed, text, mode, &Wide),
            ReadWord::TokensNarrow => tokens::print(alloc, printed, text, mode, &Narrow),
            ReadWord::TokensCode => tokens::print(alloc, printed, text, SyntaxMode::Code, &classes),
            ReadWord::TokensMath => tokens::print(alloc, printed, text, SyntaxMode::Math, &classes),
            ReadWord::Look => looks::print(alloc, printed, text),
        }
    }
}

/// Adds a tree that was printed by itself.
fn push_tree(printed: &mut String, tree: Result<String, AllocError>) -> Result<(), AllocError> {
    printed.push_str(tree?.as_str())
}
