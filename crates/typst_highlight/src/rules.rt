//! What the tags of nodes depend on.

ghost use Rattle.std.specs.Prelude.{◌≡◌, ◌<◌, ◌||◌};
ghost use Rattle.typst_kinds.specs.Kinds.{is_trivia, is_error};
ghost use Rattle.typst_kinds.specs.Members.{place_of};
ghost use Rattle.typst_highlight.specs.Rules as spec;

use crate::tags::Tag;
use typst_kinds::SyntaxKind;

/// What the tag of a node depends on beside its kind.
#[derive(Clone, Copy)]
pub enum Rule {
    /// Nothing: it is this one, or there is none.
    Fixed(Option<Tag>),
    /// The parent's kind, for a parenthesis.
    Paren,
    /// The parent's kind, for a star.
    Star,
    /// The parent's kind, for an underscore.
    Underscore,
    /// The parent's kind, for a slash.
    Slash,
    /// The parent's kind, for an equals sign.
    Equals,
    /// The kinds of the parent and of the next sibling, for markup.
    Term,
    /// What is around a name.
    Name,
    /// The expression after a hash.
    Expression,
}

/// What the tag of a node of each kind depends on, in the order of the kinds.
const RULES: &[Rule] = &[
    Rule::Fixed(None), // End
    Rule::Fixed(Some(Tag::Error)), // Error
    Rule::Fixed(Some(Tag::Comment)), // Shebang
    Rule::Fixed(Some(Tag::Comment)), // LineComment
    Rule::Fixed(Some(Tag::Comment)), // BlockComment
    Rule::Term, // Markup
    Rule::Fixed(None), // Text
    Rule::Fixed(None), // Space
    Rule::Fixed(Some(Tag::Escape)), // Linebreak
    Rule::Fixed(None), // Parbreak
    Rule::Fixed(Some(Tag::Escape)), // Escape
    Rule::Fixed(Some(Tag::Escape)), // Shorthand
    Rule::Fixed(None), // SmartQuote
    Rule::Fixed(Some(Tag::Strong)), // Strong
    Rule::Fixed(Some(Tag::Emph)), // Emph
    Rule::Fixed(Some(Tag::Raw)), // Raw
    Rule::Fixed(None), // RawLang
    Rule::Fixed(None), // RawDelim
    Rule::Fixed(None), // RawTrimmed
    Rule::Fixed(Some(Tag::Link)), // Link
    Rule::Fixed(Some(Tag::Label)), // Label
    Rule::Fixed(Some(Tag::Ref)), // Ref
    Rule::Fixed(None), // RefMarker
    Rule::Fixed(Some(Tag::Heading)), // Heading
    Rule::Fixed(None), // HeadingMarker
    Rule::Fixed(None), // ListItem
    Rule::Fixed(Some(Tag::ListMarker)), // ListMarker
    Rule::Fixed(None), // EnumItem
    Rule::Fixed(Some(Tag::ListMarker)), // EnumMarker
    Rule::Fixed(None), // TermItem
    Rule::Fixed(Some(Tag::ListMarker)), // TermMarker
    Rule::Fixed(None), // Equation
    Rule::Fixed(None), // Math
    Rule::Fixed(None), // MathText
    Rule::Name, // MathIdent
    Rule::Fixed(None), // MathFieldAccess
    Rule::Fixed(Some(Tag::Escape)), // MathShorthand
    Rule::Fixed(Some(Tag::MathOperator)), // MathAlignPoint
    Rule::Fixed(None), // MathCall
    Rule::Fixed(None), // MathArgs
    Rule::Fixed(None), // MathDelimited
    Rule::Fixed(None), // MathAttach
    Rule::Fixed(Some(Tag::MathOperator)), // MathPrimes
    Rule::Fixed(None), // MathFrac
    Rule::Fixed(None), // MathRoot
    Rule::Expression, // Hash
    Rule::Fixed(Some(Tag::Punctuation)), // LeftBrace
    Rule::Fixed(Some(Tag::Punctuation)), // RightBrace
    Rule::Fixed(Some(Tag::Punctuation)), // LeftBracket
    Rule::Fixed(Some(Tag::Punctuation)), // RightBracket
    Rule::Paren, // LeftParen
    Rule::Paren, // RightParen
    Rule::Fixed(Some(Tag::Punctuation)), // Comma
    Rule::Fixed(Some(Tag::Punctuation)), // Semicolon
    Rule::Fixed(Some(Tag::Punctuation)), // Colon
    Rule::Star, // Star
    Rule::Underscore, // Underscore
    Rule::Fixed(Some(Tag::MathDelimiter)), // Dollar
    Rule::Fixed(Some(Tag::Operator)), // Plus
    Rule::Fixed(Some(Tag::Operator)), // Minus
    Rule::Slash, // Slash
    Rule::Fixed(Some(Tag::MathOperator)), // Hat
    Rule::Fixed(Some(Tag::Punctuation)), // Dot
    Rule::Fixed(None), // Bang
    Rule::Equals, // Eq
    Rule::Fixed(Some(Tag::Operator)), // EqEq
    Rule::Fixed(Some(Tag::Operator)), // ExclEq
    Rule::Fixed(Some(Tag::Operator)), // Lt
    Rule::Fixed(Some(Tag::Operator)), // LtEq
    Rule::Fixed(Some(Tag::Operator)), // Gt
    Rule::Fixed(Some(Tag::Operator)), // GtEq
    Rule::Fixed(Some(Tag::Operator)), // PlusEq
    Rule::Fixed(Some(Tag::Operator)), // HyphEq
    Rule::Fixed(Some(Tag::Operator)), // StarEq
    Rule::Fixed(Some(Tag::Operator)), // SlashEq
    Rule::Fixed(Some(Tag::Operator)), // Dots
    Rule::Fixed(Some(Tag::Operator)), // Arrow
    Rule::Fixed(Some(Tag::MathOperator)), // Root
    Rule::Fixed(Some(Tag::Keyword)), // Not
    Rule::Fixed(Some(Tag::Keyword)), // And
    Rule::Fixed(Some(Tag::Keyword)), // Or
    Rule::Fixed(Some(Tag::Keyword)), // None
    Rule::Fixed(Some(Tag::Keyword)), // Auto
    Rule::Fixed(Some(Tag::Keyword)), // Let
    Rule::Fixed(Some(Tag::Keyword)), // Set
    Rule::Fixed(Some(Tag::Keyword)), // Show
    Rule::Fixed(Some(Tag::Keyword)), // Context
    Rule::Fixed(Some(Tag::Keyword)), // If
    Rule::Fixed(Some(Tag::Keyword)), // Else
    Rule::Fixed(Some(Tag::Keyword)), // For
    Rule::Fixed(Some(Tag::Keyword)), // In
    Rule::Fixed(Some(Tag::Keyword)), // While
    Rule::Fixed(Some(Tag::Keyword)), // Break
    Rule::Fixed(Some(Tag::Keyword)), // Continue
    Rule::Fixed(Some(Tag::Keyword)), // Return
    Rule::Fixed(Some(Tag::Keyword)), // Import
    Rule::Fixed(Some(Tag::Keyword)), // Include
    Rule::Fixed(Some(Tag::Keyword)), // As
    Rule::Fixed(None), // Code
    Rule::Name, // Ident
    Rule::Fixed(Some(Tag::Keyword)), // Bool
    Rule::Fixed(Some(Tag::Number)), // Int
    Rule::Fixed(Some(Tag::Number)), // Float
    Rule::Fixed(Some(Tag::Number)), // Numeric
    Rule::Fixed(Some(Tag::String)), // Str
    Rule::Fixed(None), // CodeBlock
    Rule::Fixed(None), // ContentBlock
    Rule::Fixed(None), // Parenthesized
    Rule::Fixed(None), // Array
    Rule::Fixed(None), // Dict
    Rule::Fixed(None), // Named
    Rule::Fixed(None), // Keyed
    Rule::Fixed(None), // Unary
    Rule::Fixed(None), // Binary
    Rule::Fixed(None), // FieldAccess
    Rule::Fixed(None), // FuncCall
    Rule::Fixed(None), // Args
    Rule::Fixed(None), // Spread
    Rule::Fixed(None), // Closure
    Rule::Fixed(None), // Params
    Rule::Fixed(None), // LetBinding
    Rule::Fixed(None), // SetRule
    Rule::Fixed(None), // ShowRule
    Rule::Fixed(None), // Contextual
    Rule::Fixed(None), // Conditional
    Rule::Fixed(None), // WhileLoop
    Rule::Fixed(None), // ForLoop
    Rule::Fixed(None), // ModuleImport
    Rule::Fixed(None), // ImportItems
    Rule::Fixed(None), // ImportItemPath
    Rule::Fixed(None), // RenamedImportItem
    Rule::Fixed(None), // ModuleInclude
    Rule::Fixed(None), // LoopBreak
    Rule::Fixed(None), // LoopContinue
    Rule::Fixed(None), // FuncReturn
    Rule::Fixed(None), // Destructuring
    Rule::Fixed(None), // DestructAssignment
];

/// Where a kind stands among all kinds.
#[inline(always)]
fn place(kind: SyntaxKind) -> usize
    ensures place { result ≡ place_of kind }
    ensures small { result < 137 }
{
    kind as usize
}

/// What the tag of a node of the kind depends on.
#[inline(always)]
pub fn rule_of(kind: SyntaxKind) -> Rule
    ensures { result ≡ spec.rule_of kind }
{
    RULES[place(kind)]
}

/// The tag of a parenthesis, by its parent's kind.
pub fn paren_tag(parent: Option<SyntaxKind>) -> Option<Tag>
    ensures { result ≡ spec.paren_tag parent }
{
    match parent {
        Some(SyntaxKind::Math) => Some(Tag::MathGroupingParens),
        _ => Some(Tag::Punctuation),
    }
}

/// The tag of a star, by its parent's kind.
pub fn star_tag(parent: Option<SyntaxKind>) -> Option<Tag>
    ensures { result ≡ spec.star_tag parent }
{
    match parent {
        Some(SyntaxKind::Strong) => None,
        _ => Some(Tag::Operator),
    }
}

/// The tag of an underscore, by its parent's kind.
pub fn underscore_tag(parent: Option<SyntaxKind>) -> Option<Tag>
    ensures { result ≡ spec.underscore_tag parent }
{
    match parent {
        Some(SyntaxKind::MathAttach) => Some(Tag::MathOperator),
        _ => None,
    }
}

/// The tag of a slash, by its parent's kind.
pub fn slash_tag(parent: Option<SyntaxKind>) -> Option<Tag>
    ensures { result ≡ spec.slash_tag parent }
{
    match parent {
        Some(SyntaxKind::MathFrac) => Some(Tag::MathOperator),
        _ => Some(Tag::Operator),
    }
}

/// The tag of an equals sign, by its parent's kind.
pub fn equals_tag(parent: Option<SyntaxKind>) -> Option<Tag>
    ensures { result ≡ spec.equals_tag parent }
{
    match parent {
        Some(SyntaxKind::Heading) => None,
        _ => Some(Tag::Operator),
    }
}

/// The tag of markup, by the kinds of its parent and of its next sibling.
pub fn term_tag(parent: Option<SyntaxKind>, next: Option<SyntaxKind>) -> Option<Tag>
    ensures { result ≡ spec.term_tag parent next }
{
    match parent {
        Some(SyntaxKind::TermItem) => colon_tag(next),
        _ => None,
    }
}

/// The tag of a term, by the kind of its next sibling.
fn colon_tag(next: Option<SyntaxKind>) -> Option<Tag>
    ensures { result ≡ spec.colon_tag next }
{
    match next {
        Some(SyntaxKind::Colon) => Some(Tag::ListTerm),
        _ => None,
    }
}

/// Whether the kind is that of a name.
#[inline(always)]
pub fn is_name(kind: SyntaxKind) -> bool
    ensures { result ≡ spec.is_name kind }
{
    kind == SyntaxKind::Ident || kind == SyntaxKind::MathIdent
}

/// Whether the kind is that of trivia or of an error.
#[inline(always)]
pub fn is_skipped(kind: SyntaxKind) -> bool
    ensures { result ≡ (is_trivia kind || is_error kind) }
{
    matches!(
        kind,
        SyntaxKind::Space
            | SyntaxKind::Parbreak
            | SyntaxKind::LineComment
            | SyntaxKind::BlockComment
            | SyntaxKind::Error
    )
}

/// Whether the kind is that of a field access.
#[inline(always)]
pub fn is_field_access(kind: SyntaxKind) -> bool
    ensures { result ≡ spec.is_field_access kind }
{
    matches!(kind, SyntaxKind::FieldAccess)
}

/// Whether the kind is that of a dot.
#[inline(always)]
pub fn is_dot(kind: SyntaxKind) -> bool
    ensures { result ≡ spec.is_dot kind }
{
    matches!(kind, SyntaxKind::Dot)
}

/// Whether the kind is that of a name in an equation.
#[inline(always)]
pub fn is_math_name(kind: SyntaxKind) -> bool
    ensures { result ≡ spec.is_math_name kind }
{
    matches!(kind, SyntaxKind::MathIdent)
}

/// Whether there is a kind, and it is that of a show rule.
#[inline(always)]
pub fn is_show_rule(kind: Option<SyntaxKind>) -> bool
    ensures { result ≡ spec.is_show_rule kind }
{
    matches!(kind, Some(SyntaxKind::ShowRule))
}

/// Whether there is a kind, and it is that of a colon.
#[inline(always)]
pub fn is_colon(kind: Option<SyntaxKind>) -> bool
    ensures { result ≡ spec.is_colon kind }
{
    matches!(kind, Some(SyntaxKind::Colon))
}

/// Whether there is a kind, and it is that of a hash.
#[inline(always)]
pub fn is_hash(kind: Option<SyntaxKind>) -> bool
    ensures { result ≡ spec.is_hash kind }
{
    matches!(kind, Some(SyntaxKind::Hash))
}

/// Whether a parenthesis under a parent of the kind begins what a function is called with.
#[inline(always)]
pub fn is_arguments(parent: Option<SyntaxKind>) -> bool
    ensures { result ≡ spec.is_arguments parent }
{
    matches!(
        parent,
        Some(SyntaxKind::Args | SyntaxKind::MathArgs | SyntaxKind::Params)
    )
}

/// Whether a bracket under a parent of the kind begins what a function is called with.
#[inline(always)]
pub fn is_content(parent: Option<SyntaxKind>) -> bool
    ensures { result ≡ spec.is_content parent }
{
    matches!(parent, Some(SyntaxKind::ContentBlock))
}

/// Whether a leaf begins what a function is called with, by its kind and its parent's.
#[inline(always)]
pub fn begins_arguments(kind: SyntaxKind, parent: Option<SyntaxKind>) -> bool
    ensures { result ≡ spec.begins_arguments kind parent }
{
    match kind {
        SyntaxKind::LeftParen => is_arguments(parent),
        SyntaxKind::LeftBracket => is_content(parent),
        _ => false,
    }
}
