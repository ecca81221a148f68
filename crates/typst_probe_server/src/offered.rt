//! What a language server offers at a place of a text: the words `selections`, `expansions`, `mentions`, `hover`,
//! `completions` and `next-item`.

use std::alloc::{AllocError, Global};
use std::ops::Range;
use typst_features::{
    CompletionKind, HoverKind, Mention, MentionKind, completions_at, definitions, highlights,
    hover_at, next_item, references,
};
use typst_tree::SyntaxNode;

/// Shows the rest of a line with ranges.
pub fn ranges(shown: &mut String, ranges: &[Range<usize>]) -> Result<(), AllocError> {
    for range in ranges {
        let (start, end) = (range.start, range.end);
        write!(shown, " {start}..{end}")?;
    }
    shown.push_str("\n")
}

/// Shows what is mentioned at a byte that a word names: three lines, with the mentions everywhere, by labels and by references.
pub fn mentions(
    alloc: Global,
    shown: &mut String,
    root: &SyntaxNode,
    word: &str,
) -> Result<(), AllocError> {
    let byte: usize = word.parse().unwrap_or(0);
    write!(shown, "{word} highlights:")?;
    show_mentions(shown, highlights(alloc, root, byte)?.as_slice())?;
    write!(shown, "{word} definitions:")?;
    show_mentions(shown, definitions(alloc, root, byte)?.as_slice())?;
    write!(shown, "{word} references:")?;
    show_mentions(shown, references(alloc, root, byte)?.as_slice())
}

/// Shows the rest of a line with mentions.
fn show_mentions(shown: &mut String, found: &[Mention<'_>]) -> Result<(), AllocError> {
    for mention in found {
        let mark = match mention.kind {
            MentionKind::Label => "<",
            MentionKind::Reference => "@",
        };
        let (name, start, end) = (mention.name, mention.range.start, mention.range.end);
        write!(shown, " {mark}{name} {start}..{end}")?;
    }
    shown.push_str("\n")
}

/// Shows the rest of a line with what is shown for a byte.
pub fn hover(
    alloc: Global,
    shown: &mut String,
    root: &SyntaxNode,
    text: &str,
    byte: usize,
) -> Result<(), AllocError> {
    let Some(hover) = hover_at(alloc, root, text, byte)? else {
        return shown.push_str(" nothing\n");
    };
    let kind = match hover.kind {
        HoverKind::Labelled => "labelled",
        HoverKind::Binding => "binding",
        HoverKind::Language => "language",
    };
    let Range { start, end } = hover.range;
    let told = text.get(hover.shown.start..hover.shown.end).unwrap_or("?");
    writeln!(shown, " {start}..{end} {kind} {told}")
}

/// Shows the rest of a line with what the word before a byte may become.
pub fn completions(
    alloc: Global,
    shown: &mut String,
    root: &SyntaxNode,
    text: &str,
    byte: usize,
) -> Result<(), AllocError> {
    let Some(found) = completions_at(alloc, root, text, byte)? else {
        return shown.push_str(" nothing\n");
    };
    let kind = match found.kind {
        CompletionKind::Label => "labels",
        CompletionKind::Name => "names",
    };
    let Range { start, end } = found.range;
    write!(shown, " {start}..{end} {kind}")?;
    for word in &found.words {
        write!(shown, " {word}")?;
    }
    shown.push_str("\n")
}

/// Shows what becomes of a text where a line was begun before a byte: the new text, if a line needs an edit.
pub fn continued(
    alloc: Global,
    shown: &mut String,
    root: &SyntaxNode,
    text: &str,
    byte: usize,
) -> Result<(), AllocError> {
    let Some(edit) = next_item(alloc, root, text, byte)? else {
        return shown.push_str("no edit\n");
    };
    let before = text.get(..edit.range.start).unwrap_or("?");
    let after = text.get(edit.range.end..).unwrap_or("?");
    let put = edit.text.as_str();
    writeln!(shown, "{before}{put}{after}")
}
