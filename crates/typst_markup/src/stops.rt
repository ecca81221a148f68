//! Where sequences of markup and of formulas stop.

ghost use Rattle.std.specs.Prelude.{◌≡◌};
ghost use Rattle.typst_markup.specs.Markup as spec;
ghost use Rattle.typst_markup.specs.Equations as math;
ghost use Rattle.typst_markup.specs.Stops.{math_stops_at, stops_at};

use typst_kinds::SyntaxKind;
use typst_language::{Stops, is_end};

/// At which tokens a sequence stops.
#[derive(Debug, Clone, Copy, PartialEq, Eq)]
pub enum Stop {
    /// At the end of what may be read.
    End,
    /// At the end, and at the bracket that closes a content block or ends an item.
    Block,
    /// Where `Block` stops, and at a colon, which ends a term.
    Term,
    /// Where `Block` stops, and at a label, which ends a heading.
    Heading,
    /// Where `Block` stops, and at a star.
    Strong,
    /// Where `Block` stops, and at an underscore.
    Emph,
}

impl Stops for Stop {
    ghost at = { stops_at };

    fn has(&self, kind: SyntaxKind) -> bool {
        match self {
            Stop::End => is_end(kind),
            Stop::Block => ends_block(kind),
            Stop::Term => kind == SyntaxKind::Colon || ends_block(kind),
            Stop::Heading => kind == SyntaxKind::Label || ends_block(kind),
            Stop::Strong => kind == SyntaxKind::Star || ends_block(kind),
            Stop::Emph => kind == SyntaxKind::Underscore || ends_block(kind),
        }
    }
}

/// Whether a content block or an item ends at this token.
fn ends_block(kind: SyntaxKind) -> bool
    ensures { result ≡ spec.ends_block kind }
{
    kind == SyntaxKind::RightBracket || is_end(kind)
}

/// At which tokens a sequence of formulas stops.
#[derive(Debug, Clone, Copy, PartialEq, Eq)]
pub enum MathStop {
    /// At the end of what may be read.
    End,
    /// At the end, and at the dollar that closes a formula.
    Equation,
    /// Where a formula stops, and at what closes a delimited part.
    Delimited,
    /// Where a formula stops, and at what ends an argument of a call.
    Argument,
}

impl Stops for MathStop {
    ghost at = { math_stops_at };

    fn has(&self, kind: SyntaxKind) -> bool {
        match self {
            MathStop::End => is_end(kind),
            MathStop::Equation => ends_equation(kind),
            MathStop::Delimited => is_closer(kind) || ends_equation(kind),
            MathStop::Argument => separates(kind) || ends_list(kind),
        }
    }
}

/// Whether a formula ends at this token.
fn ends_equation(kind: SyntaxKind) -> bool
    ensures { result ≡ math.ends_equation kind }
{
    kind == SyntaxKind::Dollar || is_end(kind)
}

/// Whether this token closes a delimited part.
pub fn is_closer(kind: SyntaxKind) -> bool
    ensures { result ≡ math.is_closer kind }
{
    kind == SyntaxKind::RightBrace || kind == SyntaxKind::RightParen
}

/// Whether the arguments of a call end at this token.
pub fn ends_list(kind: SyntaxKind) -> bool
    ensures { result ≡ math.ends_list kind }
{
    kind == SyntaxKind::RightParen || ends_equation(kind)
}

/// Whether this token separates two arguments.
pub fn separates(kind: SyntaxKind) -> bool
    ensures { result ≡ math.separates kind }
{
    kind == SyntaxKind::Comma || kind == SyntaxKind::Semicolon
}
