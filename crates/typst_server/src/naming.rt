//! Requests about the label or the name at a position.
ghost use Rattle.std.specs.Prelude.{◌≡◌, ◌||◌, IfOk, map, not};
ghost use Rattle.std.specs.String.{string_bytes};
ghost use Rattle.typst_features.specs.Labels as labels;
ghost use Rattle.typst_features.specs.Meanings as meanings;
ghost use Rattle.typst_features.specs.Names as bound;
ghost use Rattle.typst_features.specs.Renames.{is_bound, stands_as};
ghost use Rattle.typst_protocol.specs.Parameters as parameters;
ghost use Rattle.typst_server.specs.Located.{AreAt, IsHighlightOf, IsLocationOf, TellsHighlights, TellsLocations};
ghost use Rattle.typst_server.specs.Occurrences as spec;
ghost use Rattle.typst_server.specs.Occurrences.{AtPosition};

use std::alloc::{AllocError, Global};
use typst_document::{
    Document, Extents, SyntaxKind, UnicodeClasses, is_id_continue, is_valid_label_literal_id,
    parse_code, ref_name,
};
use typst_features::{
    Mention, MentionKind, Name, Named, Occurrence, OccurrenceKind, Renamed, binding_of, mention_at,
    name_at, named_at, names, uses_of,
};
use typst_protocol::values::{Changes, Highlight, Location, Renamable, TextEdit, WorkspaceEdit};
use typst_protocol::{Params, Refusal, json_of};

/// Where the label or the name at the cursor is defined.
pub fn definition(
    alloc: Global,
    document: &Document,
    uri: &str,
    params: Params<'_>,
) -> Result<String, Refusal>
    ensures { IfOk result (λ text. AtPosition (parameters.seen params.entry) document.now (λ b. TellsLocations document.now uri.now (spec.defined (spec.occurrences document.now b)) (string_bytes text))) }
{
    let mut found = occurrences(alloc, document, params)?;
    found.retain(|occurrence| is_defined(occurrence.kind));
    locations(alloc, document, uri, found.as_slice())
}

/// Where the label or the name at the cursor is used, and also where it is defined if that is asked for.
pub fn references(
    alloc: Global,
    document: &Document,
    uri: &str,
    params: Params<'_>,
) -> Result<String, Refusal>
    ensures { IfOk result (λ text. AtPosition (parameters.seen params.entry) document.now (λ b. TellsLocations document.now uri.now (spec.used (parameters.includes_label (parameters.seen params.entry)) (spec.occurrences document.now b)) (string_bytes text))) }
{
    let with_definitions = params.includes_label();
    let mut found = occurrences(alloc, document, params)?;
    found.retain(|occurrence| is_wanted(occurrence.kind, with_definitions));
    locations(alloc, document, uri, found.as_slice())
}

/// Where the label or the name at the cursor stands.
pub fn highlights(alloc: Global, document: &Document, params: Params<'_>) -> Result<String, Refusal>
    ensures { IfOk result (λ text. AtPosition (parameters.seen params.entry) document.now (λ b. TellsHighlights document.now (spec.stretches (spec.occurrences document.now b)) (string_bytes text))) }
{
    let found = occurrences(alloc, document, params)?;
    shown(alloc, document, found.as_slice())
}

/// The definitions and uses of the label or the name at the cursor: labels and references with their marks.
fn occurrences(
    alloc: Global,
    document: &Document,
    params: Params<'_>,
) -> Result<Vec<Occurrence>, Refusal>
    ensures { IfOk result (λ found. AtPosition (parameters.seen params.entry) document.now (λ b. found.items ≡ spec.occurrences document.now b)) }
{
    let position = params.position()?;
    let found = occurrences_at(alloc, document, document.byte_of(position))?;
    Ok(found)
}

/// The definitions and uses of the label or the name at a byte: labels and references with their marks.
fn occurrences_at(
    alloc: Global,
    document: &Document,
    byte: usize,
) -> Result<Vec<Occurrence>, AllocError>
    ensures { IfOk result (λ found. found.items ≡ spec.occurrences document.now byte) }
{
    let found = typst_features::highlights(alloc, document.root(), byte)?;
    let mentions = found.as_slice();
    if mentions.is_empty() {
        return bound_at(alloc, document, byte);
    }
    mentioned(alloc, mentions)
}

/// Labels as definitions, and references as uses.
fn mentioned(alloc: Global, mentions: &[Mention<'_>]) -> Result<Vec<Occurrence>, AllocError>
    ensures { IfOk result (λ found. found.items ≡ map (λ m. spec.occurred (labels.mentioned m)) mentions.now) }
{
    let mut found = Vec::new(alloc);
    for mention in mentions {
        found.push(occurrence_of(mention))?;
    }
    Ok(found)
}

/// A label or a reference with its marks.
fn occurrence_of(mention: &Mention<'_>) -> Occurrence
    ensures { result ≡ spec.occurred (labels.mentioned mention.now) }
{
    Occurrence {
        kind: kind_of(mention.kind),
        range: mention.range.start..mention.range.end,
    }
}

/// What a label or a reference is to its name.
fn kind_of(kind: MentionKind) -> OccurrenceKind
    ensures { result ≡ stands_as kind }
{
    match kind {
        MentionKind::Label => OccurrenceKind::Definition,
        MentionKind::Reference => OccurrenceKind::Use,
    }
}

/// The binding that the name at a byte means, and the uses that mean it.
fn bound_at(alloc: Global, document: &Document, byte: usize) -> Result<Vec<Occurrence>, AllocError>
    ensures { IfOk result (λ found. found.items ≡ spec.bound_at document.now.source.text (bound.names document.now.source.root) (meanings.name_at (bound.names document.now.source.root) byte)) }
{
    let found = names(alloc, document.root())?;
    let names = found.as_slice();
    match name_at(names, byte) {
        Some(index) => bound_by(alloc, document.text(), names, index),
        None => Ok(Vec::new(alloc)),
    }
}

/// The binding that the name with this index in the list means, and the uses that mean it.
fn bound_by(
    alloc: Global,
    text: &str,
    names: &[Name],
    index: usize,
) -> Result<Vec<Occurrence>, AllocError>
    ensures { IfOk result (λ found. found.items ≡ spec.with_uses text.now names.now (meanings.binding_of text.now names.now index)) }
{
    match binding_of(text, names, index) {
        Some(binding) => uses_of(alloc, text, names, binding),
        None => Ok(Vec::new(alloc)),
    }
}

/// Whether a name is defined or bound there.
fn is_defined(kind: OccurrenceKind) -> bool
    ensures { result ≡ is_bound kind }
{
    match kind {
        OccurrenceKind::Use => false,
        _ => true,
    }
}

/// Whether it counts as a reference, by whether definitions do.
fn is_wanted(kind: OccurrenceKind, with_definitions: bool) -> bool
    ensures { result ≡ (with_definitions || not (is_bound kind)) }
{
    with_definitions || !is_defined(kind)
}

/// Where some occurrences stand, as locations.
fn locations(
    alloc: Global,
    document: &Document,
    uri: &str,
    occurrences: &[Occurrence],
) -> Result<String, Refusal>
    ensures { IfOk result (λ text. TellsLocations document.now uri.now (map (λ o. o.range) occurrences.now) (string_bytes text)) }
{
    let located = located(alloc, document, uri, occurrences)?;
    json_of(alloc, &located)
}

#[tactic(auto, using(crate::proofs::Locating::located_more, crate::proofs::Locating::located_all))]
fn located<'a>(
    alloc: Global,
    document: &Document,
    uri: &'a str,
    occurrences: &[Occurrence],
) -> Result<Vec<Location<'a>>, AllocError>
    ensures { IfOk result (λ located. AreAt (IsLocationOf document.now uri.now) (map (λ o. o.range) occurrences.now) located.items) }
{
    let mut extents = Extents::new(document);
    let mut located = Vec::new(alloc);
    for occurrence in occurrences {
        let range = extents.of(&occurrence.range);
        located.push(Location { uri, range })?;
    }
    Ok(located)
}

/// Where some occurrences stand, as highlights.
fn shown(alloc: Global, document: &Document, occurrences: &[Occurrence]) -> Result<String, Refusal>
    ensures { IfOk result (λ text. TellsHighlights document.now (map (λ o. o.range) occurrences.now) (string_bytes text)) }
{
    let highlighted = highlighted(alloc, document, occurrences)?;
    json_of(alloc, &highlighted)
}

#[tactic(auto, using(crate::proofs::Locating::located_more, crate::proofs::Locating::located_all))]
fn highlighted(
    alloc: Global,
    document: &Document,
    occurrences: &[Occurrence],
) -> Result<Vec<Highlight>, AllocError>
    ensures { IfOk result (λ highlighted. AreAt (IsHighlightOf document.now) (map (λ o. o.range) occurrences.now) highlighted.items) }
{
    let mut extents = Extents::new(document);
    let mut highlighted = Vec::new(alloc);
    for occurrence in occurrences {
        let range = extents.of(&occurrence.range);
        highlighted.push(Highlight { range })?;
    }
    Ok(highlighted)
}

/// The name at the cursor, if a rename could give it another one, and `null` otherwise.
pub fn prepare_rename(
    alloc: Global,
    document: &Document,
    params: Params<'_>,
) -> Result<String, Refusal> {
    let byte = document.byte_of(params.position()?);
    match renamable(alloc, document, byte)? {
        Some(named) => {
            let renamable = Renamable {
                range: Extents::new(document).of(&named.range),
                placeholder: document.text_at(&named.range),
            };
            json_of(alloc, &renamable)
        }
        None => Ok(String::from_str(alloc, "null")?),
    }
}

/// The edits that give the name at the cursor another one. It refuses what can't be renamed, and a new name
/// that is none.
pub fn rename(
    alloc: Global,
    document: &Document,
    uri: &str,
    params: Params<'_>,
) -> Result<String, Refusal> {
    let new_name = params.new_name()?;
    let byte = document.byte_of(params.position()?);
    let Some(named) = renamable(alloc, document, byte)? else {
        return Err(Refusal::NotRenamable);
    };
    check_name(alloc, mention_at(document.root(), byte).is_some(), new_name)?;
    let renamed = named.renamed(alloc)?;
    let behind_as = format!(in alloc; " as {new_name}")?;
    let edits = edits_of(alloc, document, &renamed, new_name, behind_as.as_str())?;
    let edit = WorkspaceEdit {
        changes: Changes { uri, edits },
    };
    json_of(alloc, &edit)
}

/// The label or the name at a byte, if it can be renamed.
fn renamable(alloc: Global, document: &Document, byte: usize) -> Result<Option<Named>, AllocError> {
    match named_at(alloc, document.root(), document.text(), byte)? {
        Some(named) if named.is_renamable() => Ok(Some(named)),
        _ => Ok(None),
    }
}

/// Refuses a new name that a label can't have, or else a name.
fn check_name(alloc: Global, of_label: bool, new_name: &str) -> Result<(), Refusal> {
    if of_label {
        if is_label(new_name) {
            Ok(())
        } else {
            Err(Refusal::NotALabel)
        }
    } else if is_name(alloc, new_name)? {
        Ok(())
    } else {
        Err(Refusal::NotAnIdentifier)
    }
}

/// Whether a text is read as a whole as the name of a label, and of a reference.
fn is_label(text: &str) -> bool {
    let begins = text
        .chars()
        .next()
        .is_some_and(|first| is_id_continue(first, &UnicodeClasses));
    begins && is_valid_label_literal_id(text, &UnicodeClasses) && ref_name(text).len() == text.len()
}

/// Whether a text is one name in code: an identifier that is no keyword.
fn is_name(alloc: Global, text: &str) -> Result<bool, AllocError> {
    let code = parse_code(alloc, text, &UnicodeClasses)?;
    Ok(match code.children() {
        [node] => node.kind() == SyntaxKind::Ident,
        _ => false,
    })
}

/// The edits of a rename: of an item of an import, which keeps its name, another text than of all others.
fn edits_of<'a>(
    alloc: Global,
    document: &Document,
    renamed: &[Renamed],
    new_name: &'a str,
    behind_as: &'a str,
) -> Result<Vec<TextEdit<'a>>, AllocError> {
    let mut extents = Extents::new(document);
    let mut edits = Vec::new(alloc);
    for place in renamed {
        edits.push(TextEdit {
            range: extents.of(&place.range),
            new_text: if place.before.is_empty() {
                new_name
            } else {
                behind_as
            },
        })?;
    }
    Ok(edits)
}
