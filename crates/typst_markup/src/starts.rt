//! What begins a statement or an expression of code.

ghost use Rattle.std.specs.Prelude.{◌≡◌};
ghost use Rattle.typst_markup.specs.Starts as spec;

use typst_kinds::{SyntaxKind, set};

/// Whether an expression of code begins at this token.
pub fn begins_code(kind: SyntaxKind) -> bool
    ensures { result ≡ spec.begins_code kind }
{
    set::named_sets();
    set::CODE_EXPR.contains(kind)
}

/// Whether a statement begins at this token.
pub fn begins_statement(kind: SyntaxKind) -> bool
    ensures { result ≡ spec.begins_statement kind }
{
    set::named_sets();
    set::STMT.contains(kind)
}
