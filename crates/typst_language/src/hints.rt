//! Hints for an error that was given.

ghost use Rattle.std.specs.Prelude.{◌≡◌, ◌∷◌, [], length, OnOk};
ghost use Rattle.typst_language.specs.Shape.{hinted_last};

use std::alloc::AllocError;
use typst_lexer::SyntaxNode;

/// Adds a hint to the last of several nodes, if it is an error.
pub fn hint_last(nodes: &mut Vec<SyntaxNode>, hint: &str) -> Result<(), AllocError>
    ensures hinted { OnOk result (nodes.new.items ≡ hinted_last (hint.now ∷ []) nodes.old.items) }
    ensures as_many { length nodes.new.items ≡ length nodes.old.items }
{
    if nodes.is_empty() {
        return Ok(());
    }
    let at = nodes.len() - 1;
    let last = &mut nodes[at];
    if last.kind().is_error() {
        last.hint(hint)?;
    }
    Ok(())
}
