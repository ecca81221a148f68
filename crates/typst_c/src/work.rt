//! What is done with sources.

ghost use Rattle.std.specs.Prelude.{◌≡◌, ◌^◌, ◌-◌, ◌<◌, ◌≤◌, IfErr, IfOk, IsTrue, ◌↔◌, OnErr, OnOk, length, string_bytes, true, Some};
ghost use Rattle.typst_parser.specs.UnicodeTables.{unicode_classes};
ghost use Rattle.typst_parser.specs.Headline.{Headline, edited};
ghost use Rattle.std.specs.Str.{chars};
ghost use Rattle.typst_parser.specs.Grammar.{tree};
ghost use Rattle.typst_parser.specs.Answers.{Answers, AnswersText};
ghost use Rattle.typst_c.specs.Refusals as spec;
ghost use Rattle.typst_c.specs.Refusals.{IsRange, RefusesBytes, RefusesEdit, RefusesPage, RefusesParse, RefusesReplace, RefusesText};
ghost use Rattle.typst_c.specs.Trees.{range_with, tree_as};
ghost use Rattle.typst_parser.specs.Html.{html_of};

use crate::kept::Kept;
use crate::refusal::{Refusal, no_memory};
use std::alloc::Global;
use std::ops::Range;
use typst_flat::span_of;
use typst_parser::{
    FileId, Source, SourceError, SyntaxNode, UnicodeClasses, highlight_html, parse, parse_code,
    parse_math,
};

/// How many bytes a text may not have: as many as a record can count.
const LARGE: usize = 4_294_967_295;

/// The source of a text of a file.
pub fn make(alloc: Global, file: u16, text: &[u8]) -> Result<Kept, Refusal>
    ensures made { IfOk result (λ kept. (kept.source.id ≡ file) × (kept.source.text ≡ text.now) × (kept.source.has_records ≡ true)) }
    ensures headline { IfOk result (λ kept. Headline unicode_classes kept.source) }
    ensures small { OnOk result (length text.now < 2 ^ 32 - 1) }
    ensures refused { IfErr result (λ refusal. RefusesText file text.now refusal) }
{
    let Some(id) = FileId::new(file) else {
        return Err(Refusal::BadArgument);
    };
    let text = read(text)?;
    let Ok(text) = String::from_str(alloc, text) else {
        return Err(Refusal::NoMemory);
    };
    match Source::new(alloc, id, text, UnicodeClasses) {
        Ok(source) => Ok(Kept { source }),
        Err(SourceError::OutOfMemory) => Err(Refusal::NoMemory),
        Err(SourceError::SpanNumbers) => Err(Refusal::SpanNumbers),
    }
}

/// The text that bytes are, if they are one that isn't too large.
fn read(bytes: &[u8]) -> Result<&str, Refusal>
    ensures text { IfOk result (λ text. text.now ≡ bytes.now) }
    ensures small { OnOk result (length bytes.now < 2 ^ 32 - 1) }
    ensures refused { IfErr result (λ refusal. RefusesBytes bytes.now refusal) }
{
    if bytes.len() >= LARGE {
        return Err(Refusal::TooLarge);
    }
    match std::str::from_utf8(bytes) {
        Ok(text) => Ok(text),
        Err(_) => Err(Refusal::NotUtf8),
    }
}

/// Whether a range is one of a text.
fn is_range(text: &str, start: usize, end: usize) -> bool
    ensures { IsTrue result ↔ IsRange text.now start end }
{
    start <= end && text.is_char_boundary(start) && text.is_char_boundary(end)
}

/// Puts a text in the place of a range of bytes of a source, and answers which bytes were read again.
pub fn edit(
    source: &mut Source<UnicodeClasses>,
    replace: Range<usize>,
    with: &[u8],
) -> Result<Range<usize>, Refusal>
    ensures text { OnOk result (source.new.text ≡ edited source.old.text replace with.now) }
    ensures headline { OnOk result (Headline unicode_classes source.new) }
    ensures kept { OnOk result (source.new.id ≡ source.old.id) }
    ensures answer { IfOk result (λ range. Answers unicode_classes source.old source.new replace with.now range) }
    ensures within { IfOk result (λ range. (range.start ≤ range.end) × (range.end ≤ length source.new.text)) }
    ensures err { OnErr result (source.new ≡ source.old) }
    ensures refused { IfErr result (λ refusal. RefusesEdit source.old replace with.now refusal) }
{
    let Range { start, end } = replace;
    if !is_range(source.text(), start, end) {
        return Err(Refusal::BadRange);
    }
    let kept = source.text().len().saturating_sub(end - start);
    if kept.saturating_add(with.len()) >= LARGE {
        return Err(Refusal::TooLarge);
    }
    let Ok(with) = std::str::from_utf8(with) else {
        return Err(Refusal::NotUtf8);
    };
    match source.edit(start..end, with) {
        Ok(range) => Ok(range),
        Err(SourceError::OutOfMemory) => Err(Refusal::NoMemory),
        Err(SourceError::SpanNumbers) => Err(Refusal::SpanNumbers),
    }
}

/// Makes another text the text of a source, and answers which bytes were read again.
pub fn replace(source: &mut Source<UnicodeClasses>, new: &[u8]) -> Result<Range<usize>, Refusal>
    ensures text { OnOk result (source.new.text ≡ new.now) }
    ensures headline { OnOk result (source.new.has_records ≡ true → Headline unicode_classes source.new) }
    ensures kept { OnOk result (source.new.id ≡ source.old.id) }
    ensures answer { IfOk result (λ range. (source.old.text ≡ new.now → ⊥) → AnswersText unicode_classes source.old source.new new.now range) }
    ensures within { IfOk result (λ range. (range.start ≤ range.end) × (range.end ≤ length source.new.text)) }
    ensures err { OnErr result (source.new ≡ source.old) }
    ensures refused { IfErr result (λ refusal. RefusesReplace source.old new.now refusal) }
{
    if new.len() >= LARGE {
        return Err(Refusal::TooLarge);
    }
    let Ok(new) = std::str::from_utf8(new) else {
        return Err(Refusal::NotUtf8);
    };
    match source.replace(new) {
        Ok(range) => Ok(range),
        Err(SourceError::OutOfMemory) => Err(Refusal::NoMemory),
        Err(SourceError::SpanNumbers) => Err(Refusal::SpanNumbers),
    }
}

/// A copy of the source.
pub fn copy(kept: &Kept) -> Result<Kept, Refusal>
    ensures copied { IfOk result (λ copy. copy.source ≡ kept.now.source) }
    ensures refused { IfErr result (λ refusal. refusal ≡ spec.no_memory) }
{
    match kept.source.try_clone() {
        Ok(source) => Ok(Kept { source }),
        Err(_) => Err(Refusal::NoMemory),
    }
}

/// The tree of a text that is read as markup (0), code (1) or a formula (2).
pub fn parse_as(alloc: Global, mode: u32, text: &[u8]) -> Result<SyntaxNode, Refusal>
    ensures tree { IfOk result (λ root. tree_as mode text.now ≡ Some root) }
    ensures refused { IfErr result (λ refusal. RefusesParse mode text.now refusal) }
{
    let text = read(text)?;
    let made = match mode {
        0 => parse(alloc, text, &UnicodeClasses),
        1 => parse_code(alloc, text, &UnicodeClasses),
        2 => parse_math(alloc, text, &UnicodeClasses),
        _ => return Err(Refusal::BadArgument),
    };
    made.map_err(no_memory)
}

/// A text of markup as HTML.
pub fn page(alloc: Global, text: &[u8]) -> Result<String, Refusal>
    ensures page { IfOk result (λ page. string_bytes page ≡ html_of (tree unicode_classes (chars text.now))) }
    ensures refused { IfErr result (λ refusal. RefusesPage text.now refusal) }
{
    let text = read(text)?;
    let Ok(root) = parse(alloc, text, &UnicodeClasses) else {
        return Err(Refusal::NoMemory);
    };
    match highlight_html(alloc, &root) {
        Ok(page) => Ok(page),
        Err(_) => Err(Refusal::NoMemory),
    }
}

/// The bytes of the first node with a span, which is packed in one number.
pub fn range_with(source: &Source<UnicodeClasses>, span: u64) -> Option<Range<usize>>
    ensures { result ≡ range_with source.now span }
{
    let node = source.find(span_of(span))?;
    Some(node.range())
}
