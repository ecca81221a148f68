//! Kinds and tags by their numbers and names.

ghost use Rattle.std.specs.Prelude.{◌≡◌, ◌<◌, ◌↔◌, IfNone, IfSome, ℕ};
ghost use Rattle.typst_kinds.specs.Members.{place_of};
ghost use Rattle.typst_kinds.specs.Names.{name_of};
ghost use Rattle.typst_kinds.specs.declared.kind.SyntaxKind.{SyntaxKind};
ghost use Rattle.typst_highlight.specs.declared.tags.Tag.{Tag};
ghost use Rattle.typst_flat.specs.Codes.{tag_code};

use typst_highlight::{Tag, list_law};
use typst_kinds::SyntaxKind;

/// How many kinds there are: the numbers below are theirs.
pub fn kind_count() -> usize
    ensures { (code : ℕ) → (code < result) ↔ ((kind : SyntaxKind) × (place_of kind ≡ code)) }
{
    SyntaxKind::count()
}

/// The kind of a number, by `kind_code`.
pub fn kind_of_code(code: u32) -> Option<SyntaxKind>
    ensures { (kind : SyntaxKind) → (result ≡ Some kind) ↔ (place_of kind ≡ code) }
{
    SyntaxKind::at(code as usize)
}

/// The kind of a name, by `SyntaxKind::name`.
pub fn kind_named(name: &[u8]) -> Option<SyntaxKind>
    ensures named { IfSome result (λ kind. name_of kind ≡ name.now) }
    ensures none { IfNone result ((kind : SyntaxKind) → name_of kind ≡ name.now → ⊥) }
{
    SyntaxKind::named(name)
}

/// The tag of a number, by `tag_code`.
pub fn tag_of_code(code: u32) -> Option<Tag>
    ensures { (tag : Tag) → (result ≡ Some tag) ↔ (tag_code (Some tag) ≡ code) }
{
    list_law();
    let place = code.checked_sub(1)?;
    Tag::LIST.get(place as usize).copied()
}
