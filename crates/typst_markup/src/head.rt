//! What a token of markup begins.

ghost use Rattle.std.specs.Prelude.{◌≡◌};
ghost use Rattle.typst_markup.specs.Markup as spec;

use typst_kinds::SyntaxKind;

/// What a token begins where an expression of markup is read.
#[derive(Debug, Clone, Copy, PartialEq, Eq)]
pub enum MarkupHead {
    /// A token that is an expression by itself.
    Itself,
    /// A bracket that is text, and one more to close.
    Opening,
    /// A bracket that is text, and closes one.
    Closing,
    /// A bracket that closes none.
    Stray,
    /// `*..*`
    Strong,
    /// `_.._`
    Emph,
    /// `= ..`
    Heading,
    /// `- ..`
    ListItem,
    /// `+ ..`
    EnumItem,
    /// `/ Term: ..`
    TermItem,
    /// `@name`, and a content block directly after it.
    Reference,
    /// `#` and an expression of code.
    Embedded,
    /// `$ .. $`
    Equation,
    /// Text, since a marker means nothing here.
    Plain,
    /// A token that may not be here.
    Unexpected,
}

/// What the token begins, at the start of a line or not, and in so many brackets.
pub(crate) fn markup_head(at_start: bool, nesting: usize, kind: SyntaxKind) -> MarkupHead
    ensures { result ≡ spec.markup_head at_start nesting kind }
{
    match kind {
        SyntaxKind::LeftBracket => MarkupHead::Opening,
        SyntaxKind::RightBracket if nesting > 0 => MarkupHead::Closing,
        SyntaxKind::RightBracket => MarkupHead::Stray,
        SyntaxKind::Shebang
        | SyntaxKind::Text
        | SyntaxKind::Linebreak
        | SyntaxKind::Escape
        | SyntaxKind::Shorthand
        | SyntaxKind::SmartQuote
        | SyntaxKind::Link
        | SyntaxKind::Label
        | SyntaxKind::Raw => MarkupHead::Itself,
        SyntaxKind::RefMarker => MarkupHead::Reference,
        SyntaxKind::Hash => MarkupHead::Embedded,
        SyntaxKind::Dollar => MarkupHead::Equation,
        SyntaxKind::Star => MarkupHead::Strong,
        SyntaxKind::Underscore => MarkupHead::Emph,
        SyntaxKind::HeadingMarker if at_start => MarkupHead::Heading,
        SyntaxKind::ListMarker if at_start => MarkupHead::ListItem,
        SyntaxKind::EnumMarker if at_start => MarkupHead::EnumItem,
        SyntaxKind::TermMarker if at_start => MarkupHead::TermItem,
        SyntaxKind::HeadingMarker
        | SyntaxKind::ListMarker
        | SyntaxKind::EnumMarker
        | SyntaxKind::TermMarker
        | SyntaxKind::Colon => MarkupHead::Plain,
        _ => MarkupHead::Unexpected,
    }
}
