//! Where sequences of code stop.

ghost use Rattle.std.specs.Prelude.{◌≡◌};
ghost use Rattle.typst_code.specs.Sequences as spec;
ghost use Rattle.typst_code.specs.Stops.{stops_at};

use typst_kinds::SyntaxKind;
use typst_language::{Stops, is_end};

/// At which tokens a sequence of code stops.
#[derive(Debug, Clone, Copy, PartialEq, Eq)]
pub enum CodeStop {
    /// At the end of what may be read.
    End,
    /// At the end, and at any closing delimiter, as a code block does.
    Block,
}

impl Stops for CodeStop {
    ghost at = { stops_at };

    fn has(&self, kind: SyntaxKind) -> bool {
        match self {
            CodeStop::End => is_end(kind),
            CodeStop::Block => ends_code(kind),
        }
    }
}

/// Whether a code block ends at this token.
fn ends_code(kind: SyntaxKind) -> bool
    ensures { result ≡ spec.ends_code kind }
{
    kind == SyntaxKind::RightBrace
        || kind == SyntaxKind::RightBracket
        || kind == SyntaxKind::RightParen
        || is_end(kind)
}
