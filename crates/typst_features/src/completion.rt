//! What a word that is being typed may become.

use crate::naming::label_name;
use crate::parents::{Parents, is_markup};
use crate::typing::is_open_text;
use std::alloc::{AllocError, Global};
use std::ops::Range;
use typst_kinds::SyntaxKind;
use typst_names::{Name, NameKind, Placed, names, word_of};
use typst_tree::SyntaxNode;

/// What a word is completed to.
#[derive(Debug, Clone, Copy, PartialEq, Eq)]
pub enum CompletionKind {
    /// The name of a label of the text.
    Label,
    /// A name that is bound where the word stands.
    Name,
}

/// What a word may become.
#[derive(Debug, PartialEq, Eq, Drop)]
pub struct Completions<'a> {
    pub kind: CompletionKind,
    /// The bytes of the word so far, up to the cursor.
    pub range: Range<usize>,
    /// What it may become, each once, in the order of their bytes.
    pub words: Vec<&'a str>,
}

/// What is written at a place of a text.
#[derive(Clone, Copy, PartialEq, Eq)]
enum Mode {
    Markup,
    Code,
    /// Raw text, a comment, a text in quotes, or names of another module.
    Plain,
}

/// What the word before a byte may become: after `@` and `<` a label of the text, after a hash and in code a
/// name that is bound there, if it begins with the word. There is nothing in raw texts, comments and texts in
/// quotes, after the dot of a field, and among the items of an import.
pub fn completions_at<'a>(
    alloc: Global,
    root: &'a SyntaxNode,
    text: &'a str,
    byte: usize,
) -> Result<Option<Completions<'a>>, AllocError> {
    let front = text.get(..byte).unwrap_or("");
    let mode = mode_at(root, byte.saturating_sub(1));
    if mode == Mode::Plain {
        return Ok(None);
    }
    if let Some(word) = label_before(front) {
        return Ok(Some(Completions {
            kind: CompletionKind::Label,
            range: byte.saturating_sub(word.len())..byte,
            words: label_words(alloc, root, word)?,
        }));
    }
    match name_before(front, mode) {
        Some(word) => Ok(Some(Completions {
            kind: CompletionKind::Name,
            range: byte.saturating_sub(word.len())..byte,
            words: name_words(alloc, root, text, word, byte)?,
        })),
        None => Ok(None),
    }
}

/// What is written at a byte, by the innermost node that decides it.
fn mode_at(root: &SyntaxNode, byte: usize) -> Mode {
    let mut mode = Mode::Markup;
    let mut around = Placed::top(root).if_holds(byte);
    while let Some(placed) = around {
        mode = mode_of(placed.node, mode);
        around = placed.child_at(byte);
    }
    mode
}

/// What is written in a node that stands where this is written.
fn mode_of(node: &SyntaxNode, around: Mode) -> Mode {
    match node.kind() {
        SyntaxKind::Raw | SyntaxKind::LineComment | SyntaxKind::BlockComment | SyntaxKind::Str => {
            Mode::Plain
        }
        SyntaxKind::ImportItems => Mode::Plain,
        SyntaxKind::Error if is_open_text(node) => Mode::Plain,
        SyntaxKind::Markup | SyntaxKind::Equation | SyntaxKind::Math => Mode::Markup,
        SyntaxKind::Code | SyntaxKind::CodeBlock | SyntaxKind::Args | SyntaxKind::Array => {
            Mode::Code
        }
        SyntaxKind::Dict
        | SyntaxKind::Parenthesized
        | SyntaxKind::LetBinding
        | SyntaxKind::SetRule
        | SyntaxKind::ShowRule
        | SyntaxKind::Conditional
        | SyntaxKind::WhileLoop
        | SyntaxKind::ForLoop
        | SyntaxKind::Closure
        | SyntaxKind::Binary
        | SyntaxKind::Unary
        | SyntaxKind::Contextual
        | SyntaxKind::FuncReturn
        | SyntaxKind::ModuleImport
        | SyntaxKind::ModuleInclude => Mode::Code,
        _ => around,
    }
}

/// The word at the end of a text that stands after `@` or `<`.
fn label_before(front: &str) -> Option<&str> {
    let before = front.trim_end_matches(|c: char| is_of_name(c) || c == ':' || c == '.');
    if before.ends_with('@') || before.ends_with('<') {
        front.get(before.len()..)
    } else {
        None
    }
}

/// The word at the end of a text, where it stands after a hash, or in code and not after the dot of a field.
fn name_before(front: &str, mode: Mode) -> Option<&str> {
    let before = front.trim_end_matches(|c: char| is_of_name(c));
    let is_field = before.ends_with('.') && !before.ends_with("..");
    if before.ends_with('#') || (mode == Mode::Code && !is_field) {
        front.get(before.len()..)
    } else {
        None
    }
}

fn is_of_name(c: char) -> bool {
    c.is_alphanumeric() || c == '_' || c == '-'
}

/// The names of the labels in markup that begin with a word, each once.
fn label_words<'a>(
    alloc: Global,
    root: &'a SyntaxNode,
    word: &str,
) -> Result<Vec<&'a str>, AllocError> {
    let mut words = Vec::new(alloc);
    let mut around = Parents::new(alloc);
    let mut walk = root.preorder(alloc);
    while let Some(visit) = walk.next()? {
        let in_markup = is_markup(around.enter(visit)?);
        match label_name(visit.node) {
            Some(name) if in_markup && name.starts_with(word) => words.push(name)?,
            _ => {}
        }
    }
    words.sort()?;
    words.dedup();
    Ok(words)
}

/// The names bound at a byte that begin with a word, each once.
fn name_words<'a>(
    alloc: Global,
    root: &SyntaxNode,
    text: &'a str,
    word: &str,
    byte: usize,
) -> Result<Vec<&'a str>, AllocError> {
    let mut words = Vec::new(alloc);
    for name in &names(alloc, root)? {
        if name.kind == NameKind::Use && byte <= name.range.end {
            break;
        }
        if is_bound(name, byte) {
            let bound = word_of(text, name);
            if bound.starts_with(word) {
                words.push(bound)?;
            }
        }
    }
    words.sort()?;
    words.dedup();
    Ok(words)
}

/// Whether a name is bound before a byte at which it holds.
fn is_bound(name: &Name, byte: usize) -> bool {
    let is_binding = !matches!(name.kind, NameKind::Use | NameKind::Any);
    is_binding && name.range.end < byte && byte <= name.until
}
