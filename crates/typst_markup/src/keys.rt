//! Keys of pairs.

ghost use Rattle.std.specs.Prelude.{◌≡◌, IfOk, map};
ghost use Rattle.typst_language.specs.Shape.{seen};
ghost use Rattle.typst_markup.specs.Keys as spec;

use crate::escapes::string_key;
use std::alloc::{AllocError, Global};
use typst_kinds::{SyntaxKind, Text};
use typst_language::SyntaxNode;

/// What is before the colon of a pair.
#[derive(Drop)]
pub enum Key {
    /// An identifier of this name.
    Name(Text),
    /// A string of this key.
    Str(Text),
    /// Anything else, which is not a key.
    Other,
}

/// What the first of some nodes is as a key.
pub fn key_of(alloc: Global, nodes: &[SyntaxNode]) -> Result<Key, AllocError>
    ensures { IfOk result (λ key. key ≡ spec.key_of (map seen nodes.now)) }
{
    if nodes.is_empty() {
        return Ok(Key::Other);
    }
    Ok(key_of_one(alloc, &nodes[0])?)
}

fn key_of_one(alloc: Global, node: &SyntaxNode) -> Result<Key, AllocError>
    ensures { IfOk result (λ key. key ≡ spec.key_of_one (seen node.now)) }
{
    if node.is_inner() {
        return Ok(Key::Other);
    }
    if node.kind() == SyntaxKind::Ident {
        return Ok(Key::Name(Text::new(alloc, node.leaf_text())?));
    }
    if node.kind() == SyntaxKind::Str {
        return Ok(Key::Str(string_key(alloc, node.leaf_text())?));
    }
    Ok(Key::Other)
}
