//! What the names of a text mean.

ghost use Rattle.std.specs.Prelude.{◌≡◌, ◌++◌, ◌<◌, ◌≤◌, [], IfOk, IfSome, OnOk, length, slice_get, true};
ghost use Rattle.typst_names.specs.declared.bindings.OccurrenceKind.TheVariants as stands;
ghost use Rattle.std.specs.Option.{option_or};
ghost use Rattle.typst_names.specs.Meanings as spec;
ghost use Rattle.typst_names.specs.Selections as selections;

use crate::modules::stretch_of;
use crate::parts::NameKind;
use crate::scopes::Name;
use std::alloc::{AllocError, Global};
use std::ops::Range;

/// How a name occurs.
#[derive(Debug, Clone, Copy, PartialEq, Eq)]
pub enum OccurrenceKind {
    /// The name is defined, or bound.
    Definition,
    /// The name is bound as an item of an import, by its name in the other file.
    Item,
    /// The module of a bare import is bound by its name there. After this byte `as` could give it another one.
    Module(usize),
    /// The name is used.
    Use,
}

/// A name, and how it occurs there.
#[derive(Debug, Clone, PartialEq, Eq, Drop)]
pub struct Occurrence {
    pub kind: OccurrenceKind,
    /// The bytes of the name alone.
    pub range: Range<usize>,
}

/// The place, among the names of a text, of the first that holds a byte, or else of the last that ends there. Goes
/// through the names up to the first.
pub fn name_at(names: &[Name], byte: usize) -> Option<usize>
    ensures { result ≡ spec.name_at names.now byte }
{
    let mut ending = None;
    for index in 0..names.len() {
        let name = &names[index];
        if holds(name, byte) {
            return Some(index);
        }
        ending = last_ending(name, byte, index, ending);
    }
    ending
}

/// Whether a name holds a byte.
fn holds(name: &Name, byte: usize) -> bool
    ensures { result ≡ selections.holds byte name.now.range }
{
    name.range.start <= byte && byte < name.range.end
}

/// The place of a name if it ends at a byte, or else one before it.
fn last_ending(name: &Name, byte: usize, index: usize, before: Option<usize>) -> Option<usize>
    ensures { result ≡ option_or (spec.if_ends byte index name.now) before }
{
    if name.range.end == byte {
        Some(index)
    } else {
        before
    }
}

/// The place of the binding that a name means: a binding itself, and of a use the last name before it that binds
/// its text and whose scope goes beyond it. There is none if a name comes from elsewhere, or may come from an
/// import of everything.
pub fn binding_of(text: &str, names: &[Name], index: usize) -> Option<usize>
    ensures { result ≡ spec.binding_of text.now names.now index }
{
    if index >= names.len() {
        return None;
    }
    let name = &names[index];
    if !is_use(name.kind) {
        return unless_any(names, index);
    }
    let text = text.as_bytes();
    match last_hiding(text, bytes_of(text, name), name.range.start, names, index) {
        Some(last) => unless_any(names, last),
        None => None,
    }
}

/// The place of a name, unless it is the star of an import.
fn unless_any(names: &[Name], index: usize) -> Option<usize>
    requires { index < length names.now }
    ensures { result ≡ spec.unless_any (slice_get names.now index) index }
{
    if is_any(names[index].kind) {
        None
    } else {
        Some(index)
    }
}

/// Whether a name is the star of an import.
fn is_any(kind: NameKind) -> bool
    ensures { result ≡ spec.is_any kind }
{
    match kind {
        NameKind::Any => true,
        _ => false,
    }
}

/// The place of the last of so many names that binds a word, or may do so, and whose scope goes beyond a byte.
fn last_hiding(text: &[u8], word: &[u8], byte: usize, names: &[Name], count: usize) -> Option<usize>
    requires { count ≤ length names.now }
    ensures last { result ≡ spec.last_hiding text.now word.now byte names.now count }
    ensures within { IfSome result (λ last. last < count) }
{
    let mut last = count;
    while last > 0 {
        last -= 1;
        if byte < hides_up_to(text, word, &names[last]) {
            return Some(last);
        }
    }
    None
}

/// The text of a name.
pub fn word_of<'a>(text: &'a str, name: &Name) -> &'a str {
    text.get(name.range.start..name.range.end).unwrap_or("")
}

/// A binding, by its place among the names of a text, and then the uses that mean it, in order: those of its text
/// after it that no name between them hides. It goes through the names once.
pub fn uses_of(
    alloc: Global,
    text: &str,
    names: &[Name],
    binding: usize,
) -> Result<Vec<Occurrence>, AllocError>
    ensures { IfOk result (λ found. found.items ≡ spec.uses_of text.now names.now binding) }
{
    let mut found = Vec::new(alloc);
    if binding >= names.len() {
        return Ok(found);
    }
    let bound = &names[binding];
    add(&mut found, kind_of(bound.kind), bound)?;
    let text = text.as_bytes();
    add_uses(
        &mut found,
        text,
        bytes_of(text, bound),
        bound.until,
        &names[binding + 1..],
    )?;
    Ok(found)
}

/// Adds the uses, among names, that mean what binds a word before them up to a byte.
fn add_uses(
    found: &mut Vec<Occurrence>,
    text: &[u8],
    word: &[u8],
    until: usize,
    names: &[Name],
) -> Result<(), AllocError>
    ensures { OnOk result (found.new.items ≡ found.old.items ++ spec.uses text.now word.now until [] names.now) }
{
    // Up to where the names so far hide it.
    let mut hidden = 0;
    for name in names {
        add_if(found, means(text, word, until, hidden, name), name)?;
        hidden = hidden.max(hides_up_to(text, word, name));
    }
    Ok(())
}

/// Adds a name as a use, if it is one.
fn add_if(found: &mut Vec<Occurrence>, holds: bool, name: &Name) -> Result<(), AllocError>
    ensures { OnOk result (found.new.items ≡ found.old.items ++ spec.stands_if holds stands.Use name.now) }
{
    if holds {
        add(found, OccurrenceKind::Use, name)?;
    }
    Ok(())
}

/// Adds a name, and how it occurs.
fn add(found: &mut Vec<Occurrence>, kind: OccurrenceKind, name: &Name) -> Result<(), AllocError>
    ensures { OnOk result (found.new.items ≡ found.old.items ++ spec.stands_if true kind name.now) }
{
    let range = name.range.start..name.range.end;
    found.push(Occurrence { kind, range })?;
    Ok(())
}

/// How a name that is bound occurs.
fn kind_of(kind: NameKind) -> OccurrenceKind
    ensures { result ≡ spec.stands_as kind }
{
    match kind {
        NameKind::Item => OccurrenceKind::Item,
        NameKind::Module(end) => OccurrenceKind::Module(end),
        _ => OccurrenceKind::Definition,
    }
}

/// Whether a name uses a word before the byte `until`, and not before the byte `hidden`, up to which the word is
/// hidden.
fn means(text: &[u8], word: &[u8], until: usize, hidden: usize, name: &Name) -> bool
    ensures { result ≡ spec.means text.now word.now until hidden name.now }
{
    is_use(name.kind)
        && is_word(text, word, name)
        && hidden <= name.range.start
        && name.range.start < until
}

/// Whether a name is used.
fn is_use(kind: NameKind) -> bool
    ensures { result ≡ spec.is_use kind }
{
    match kind {
        NameKind::Use => true,
        _ => false,
    }
}

/// Up to which byte a name hides what binds a word before it.
fn hides_up_to(text: &[u8], word: &[u8], name: &Name) -> usize
    ensures { result ≡ spec.hides_up_to text.now word.now name.now }
{
    if binds(name.kind, is_word(text, word, name)) {
        name.until
    } else {
        0
    }
}

/// Whether a name binds a word, or may do so, by whether it is that word.
fn binds(kind: NameKind, is_word: bool) -> bool
    ensures { result ≡ spec.binds kind is_word }
{
    match kind {
        NameKind::Use => false,
        NameKind::Any => true,
        NameKind::Binding => is_word,
        NameKind::Item => is_word,
        NameKind::Module(_) => is_word,
    }
}

/// Whether a name is a word.
fn is_word(text: &[u8], word: &[u8], name: &Name) -> bool
    ensures { result ≡ spec.is_word text.now word.now name.now }
{
    bytes_of(text, name) == word
}

/// The bytes of a name, as far as the text has them.
fn bytes_of<'a>(text: &'a [u8], name: &Name) -> &'a [u8]
    ensures { result.now ≡ spec.word text.now name.now }
{
    stretch_of(text, name.range.start, name.range.end)
}
