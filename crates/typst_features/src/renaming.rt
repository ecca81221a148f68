//! Definitions, uses and renames of labels and of names that are bound.

ghost use Rattle.std.specs.Prelude.{◌≡◌, ◌++◌, IfOk, OnOk, Some, map, option_map, slice_get};
ghost use Rattle.typst_names.specs.Meanings as meanings;
ghost use Rattle.typst_names.specs.Names as bound;
ghost use Rattle.typst_features.specs.Labels as labels;
ghost use Rattle.typst_features.specs.Renames as spec;

use crate::naming::{Mention, MentionKind, mention_at, mentions};
use std::alloc::{AllocError, Global};
use std::ops::Range;
use typst_names::{Name, Occurrence, OccurrenceKind, binding_of, name_at, names, uses_of};
use typst_tree::SyntaxNode;

/// A label or a name that stands at a byte, and where it is defined and used.
#[derive(Debug, PartialEq, Eq, Drop)]
pub struct Named {
    /// The bytes of the name alone.
    pub range: Range<usize>,
    /// Where it is defined and used: of a label its labels in markup, and the references to it and its labels in
    /// code, in order; of a name its binding, and after it the uses that mean it, in order.
    pub occurrences: Vec<Occurrence>,
}

/// Where a rename puts the new name.
#[derive(Debug, PartialEq, Eq, Drop)]
pub struct Renamed {
    /// The bytes that give way.
    pub range: Range<usize>,
    /// What is put before the new name: `as` where an item of an import, or its module, gets a name of its own.
    pub before: &'static str,
}

/// The label or the name that holds a byte, or else the one that ends there. There is none where it isn't known
/// in this text what a name means.
pub fn named_at(
    alloc: Global,
    root: &SyntaxNode,
    text: &str,
    byte: usize,
) -> Result<Option<Named>, AllocError>
    ensures { IfOk result (λ named. option_map spec.known named ≡ spec.named_at root.now text.now byte) }
{
    match mention_at(root, byte) {
        Some(mention) => label_named(alloc, root, &mention),
        None => name_named(alloc, root, text, byte),
    }
}

/// A label or a reference with all of its name.
fn label_named(
    alloc: Global,
    root: &SyntaxNode,
    mention: &Mention<'_>,
) -> Result<Option<Named>, AllocError>
    ensures { IfOk result (λ named. option_map spec.known named ≡ Some (spec.label_known (labels.mentions root.now) (labels.mentioned mention.now))) }
{
    let found = mentions(alloc, root, mention.name)?;
    let mut occurrences = Vec::new(alloc);
    add_mentions(&mut occurrences, found.as_slice())?;
    Ok(Some(Named {
        range: mention.name_range(),
        occurrences,
    }))
}

/// Adds labels and references, by their names alone.
fn add_mentions(occurrences: &mut Vec<Occurrence>, found: &[Mention<'_>]) -> Result<(), AllocError>
    ensures { OnOk result (occurrences.new.items ≡ occurrences.old.items ++ map (λ m. spec.occurrence (labels.mentioned m)) found.now) }
{
    for mention in found {
        occurrences.push(occurrence_of(mention))?;
    }
    Ok(())
}

/// A label or a reference, by its name alone.
fn occurrence_of(mention: &Mention<'_>) -> Occurrence
    ensures { result ≡ spec.occurrence (labels.mentioned mention.now) }
{
    Occurrence {
        kind: kind_of(mention.kind),
        range: mention.name_range(),
    }
}

fn kind_of(kind: MentionKind) -> OccurrenceKind
    ensures { result ≡ spec.stands_as kind }
{
    match kind {
        MentionKind::Label => OccurrenceKind::Definition,
        MentionKind::Reference => OccurrenceKind::Use,
    }
}

/// A name that is bound, with its uses.
fn name_named(
    alloc: Global,
    root: &SyntaxNode,
    text: &str,
    byte: usize,
) -> Result<Option<Named>, AllocError>
    ensures { IfOk result (λ named. option_map spec.known named ≡ spec.name_known text.now (bound.names root.now) (meanings.name_at (bound.names root.now) byte)) }
{
    let found = names(alloc, root)?;
    let names = found.as_slice();
    match name_at(names, byte) {
        Some(index) => bound_named(alloc, text, names, index),
        None => Ok(None),
    }
}

/// The name with this index in the list, with what binds it and its uses, if the list has such a name.
fn bound_named(
    alloc: Global,
    text: &str,
    names: &[Name],
    index: usize,
) -> Result<Option<Named>, AllocError>
    ensures { IfOk result (λ named. option_map spec.known named ≡ spec.bound_known text.now names.now (slice_get names.now index) (meanings.binding_of text.now names.now index)) }
{
    match names.get(index) {
        Some(name) => with_uses(alloc, text, names, name, binding_of(text, names, index)),
        None => Ok(None),
    }
}

/// A name with what binds it, if something does, and the uses that mean that.
fn with_uses(
    alloc: Global,
    text: &str,
    names: &[Name],
    name: &Name,
    binding: Option<usize>,
) -> Result<Option<Named>, AllocError>
    ensures { IfOk result (λ named. option_map spec.known named ≡ spec.bound_known text.now names.now (Some name.now) binding) }
{
    let Some(binding) = binding else {
        return Ok(None);
    };
    let occurrences = uses_of(alloc, text, names, binding)?;
    Ok(Some(Named {
        range: name.range.start..name.range.end,
        occurrences,
    }))
}

impl Named {
    ghost use Rattle.std.specs.Prelude.{◌≡◌, IfOk, map};
    ghost use Rattle.typst_features.specs.Renames as spec;

    /// Whether it can be renamed: it is defined in this text.
    pub fn is_renamable(&self) -> bool
        ensures { result ≡ spec.any_bound self.now.occurrences.items }
    {
        for occurrence in &self.occurrences {
            if is_bound(occurrence.kind) {
                return true;
            }
        }
        false
    }

    /// Where a rename puts the new name, and nowhere where it can't be renamed.
    pub fn renamed(&self, alloc: Global) -> Result<Vec<Renamed>, AllocError>
        ensures { IfOk result (λ renamed. map spec.put renamed.items ≡ spec.renames self.now.occurrences.items) }
    {
        let mut renamed = Vec::new(alloc);
        if self.is_renamable() {
            add_all(&mut renamed, &self.occurrences)?;
        }
        Ok(renamed)
    }
}

/// Adds where the new name is put for each of some names.
fn add_all(renamed: &mut Vec<Renamed>, occurrences: &[Occurrence]) -> Result<(), AllocError>
    ensures { OnOk result (map spec.put renamed.new.items ≡ map spec.put renamed.old.items ++ map spec.put_for occurrences.now) }
{
    for occurrence in occurrences {
        renamed.push(renamed_at(occurrence))?;
    }
    Ok(())
}

/// Whether a name is defined or bound there.
fn is_bound(kind: OccurrenceKind) -> bool
    ensures { result ≡ spec.is_bound kind }
{
    match kind {
        OccurrenceKind::Use => false,
        _ => true,
    }
}

/// Where the new name is put for a name. An item of an import keeps its name in the other file, and a module its own.
fn renamed_at(occurrence: &Occurrence) -> Renamed
    ensures { spec.put result ≡ spec.put_for occurrence.now }
{
    let Range { start, end } = occurrence.range;
    match occurrence.kind {
        OccurrenceKind::Item => renamed_after(end),
        OccurrenceKind::Module(end) => renamed_after(end),
        _ => Renamed {
            range: start..end,
            before: "",
        },
    }
}

/// A new name that comes after `as` at a byte.
fn renamed_after(byte: usize) -> Renamed
    ensures { spec.put result ≡ spec.put_after byte }
{
    Renamed {
        range: byte..byte,
        before: " as ",
    }
}
