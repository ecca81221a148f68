//! Names of kinds and tags.

ghost use Rattle.std.specs.Prelude.{◌≡◌, ◌^◌, ◌-◌, ◌<◌, ◌≤◌, []};
ghost use Rattle.typst_kinds.specs.Members.{place_of};
ghost use Rattle.typst_kinds.specs.Names.{name_of};
ghost use Rattle.typst_kinds.specs.declared.kind.SyntaxKind.{SyntaxKind};
ghost use Rattle.typst_highlight.specs.Tags.{class_of};
ghost use Rattle.typst_highlight.specs.declared.tags.Tag.{Tag};
ghost use Rattle.typst_flat.specs.Codes.{tag_code};
ghost use Rattle.typst_c.specs.Names.{IsPut};

use typst_flat::{fill_text, kind_code, kind_named, kind_of_code, tag_of_code};

/// Puts the name of the kind of a number into an array, and tells how many bytes it has: none where there
/// is no such kind.
pub fn put_kind(code: u32, room: &mut [u8]) -> usize
    ensures named { (kind : SyntaxKind) → place_of kind ≡ code → IsPut (name_of kind) result room.old room.new }
    ensures none { ((kind : SyntaxKind) → place_of kind ≡ code → ⊥) → IsPut [] result room.old room.new }
{
    match kind_of_code(code) {
        Some(kind) => fill_text(kind.name(), room),
        None => 0,
    }
}

/// The number of the kind of a name, and the largest `u32` where there is none.
pub fn number_of_kind(name: &[u8]) -> u32
    ensures named { result < 2 ^ 32 - 1 → ((kind : SyntaxKind) × ((place_of kind ≡ result) × (name_of kind ≡ name.now))) }
    ensures none { 2 ^ 32 - 1 ≤ result → (kind : SyntaxKind) → name_of kind ≡ name.now → ⊥ }
{
    match kind_named(name) {
        Some(kind) => u32::from(kind_code(kind)),
        None => u32::MAX,
    }
}

/// Puts the class in HTML of the tag of a number into an array, and tells how many bytes it has: none where
/// there is no such tag.
pub fn put_tag(code: u32, room: &mut [u8]) -> usize
    ensures named { (tag : Tag) → tag_code (Some tag) ≡ code → IsPut (class_of tag) result room.old room.new }
    ensures none { ((tag : Tag) → tag_code (Some tag) ≡ code → ⊥) → IsPut [] result room.old room.new }
{
    match tag_of_code(code) {
        Some(tag) => fill_text(tag.css_class(), room),
        None => 0,
    }
}
