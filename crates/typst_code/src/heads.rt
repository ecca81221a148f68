//! What a token of code begins, and what it takes into its node.

ghost use Rattle.std.specs.Prelude.{◌≡◌};
ghost use Rattle.typst_code.specs.Arguments as arguments;
ghost use Rattle.typst_code.specs.Expressions as spec;

use typst_kinds::{BinOp, SyntaxKind, UnOp};

/// What a token begins where an expression of code is read.
#[derive(Debug, Clone, Copy, PartialEq, Eq)]
pub enum CodeHead {
    /// An operator and its operand.
    Unary(UnOp),
    /// An operator, which an atomic expression can't begin with.
    StrayOperator,
    /// A token that is an expression by itself.
    Itself,
    /// A name, or a closure.
    Named,
    /// An underscore, which alone isn't an expression.
    Placeholder,
    /// `{ .. }`
    CodeBlock,
    /// `[ .. ]`
    ContentBlock,
    /// `$ .. $`
    Equation,
    /// `( .. )`
    Group,
    /// `( .. )` that may also be the parameters of a closure, or what is assigned to.
    Parens,
    /// `let ..`
    Let,
    /// `set ..`
    Set,
    /// `show ..`
    Show,
    /// `context ..`
    Context,
    /// `if ..`
    If,
    /// `while ..`
    While,
    /// `for ..`
    For,
    /// `import ..`
    Import,
    /// `include ..`
    Include,
    /// `break`
    Break,
    /// `continue`
    Continue,
    /// `return ..`
    Return,
    /// Nothing that begins an expression, and it is taken as an error.
    Unexpected,
    /// Nothing that begins an expression, and it stays.
    Missing,
}

/// What a token makes of the expression before it.
#[derive(Debug, Clone, Copy, PartialEq, Eq)]
pub enum CodeTail {
    /// A call, with arguments directly after it.
    Call,
    /// A field access.
    Field,
    /// A field access, if an identifier comes directly after the dot.
    DirectField,
    /// An operator of two words, if `in` comes after `not`.
    NotIn,
    /// An operator.
    Binary(BinOp),
    /// Nothing: the expression ends before the token.
    Nothing,
}

/// What the token begins, in an atomic expression or in another.
pub(crate) fn code_head(atomic: bool, kind: SyntaxKind) -> CodeHead
    ensures { result ≡ spec.code_head atomic kind }
{
    match kind {
        SyntaxKind::Plus if !atomic => CodeHead::Unary(UnOp::Pos),
        SyntaxKind::Minus if !atomic => CodeHead::Unary(UnOp::Neg),
        SyntaxKind::Not if !atomic => CodeHead::Unary(UnOp::Not),
        SyntaxKind::Plus | SyntaxKind::Minus | SyntaxKind::Not => CodeHead::StrayOperator,
        SyntaxKind::Ident if !atomic => CodeHead::Named,
        SyntaxKind::Ident
        | SyntaxKind::Raw
        | SyntaxKind::None
        | SyntaxKind::Auto
        | SyntaxKind::Int
        | SyntaxKind::Float
        | SyntaxKind::Bool
        | SyntaxKind::Numeric
        | SyntaxKind::Str
        | SyntaxKind::Label => CodeHead::Itself,
        SyntaxKind::LeftBrace => CodeHead::CodeBlock,
        SyntaxKind::LeftBracket => CodeHead::ContentBlock,
        SyntaxKind::Dollar => CodeHead::Equation,
        SyntaxKind::LeftParen if !atomic => CodeHead::Parens,
        SyntaxKind::LeftParen => CodeHead::Group,
        SyntaxKind::Let => CodeHead::Let,
        SyntaxKind::Set => CodeHead::Set,
        SyntaxKind::Show => CodeHead::Show,
        SyntaxKind::Context => CodeHead::Context,
        SyntaxKind::If => CodeHead::If,
        SyntaxKind::While => CodeHead::While,
        SyntaxKind::For => CodeHead::For,
        SyntaxKind::Import => CodeHead::Import,
        SyntaxKind::Include => CodeHead::Include,
        SyntaxKind::Break => CodeHead::Break,
        SyntaxKind::Continue => CodeHead::Continue,
        SyntaxKind::Return => CodeHead::Return,
        SyntaxKind::Underscore if !atomic => CodeHead::Placeholder,
        _ if atomic => CodeHead::Unexpected,
        _ => CodeHead::Missing,
    }
}

/// Whether arguments begin at this token.
pub(crate) fn opens_arguments(kind: SyntaxKind) -> bool
    ensures { result ≡ arguments.opens_arguments kind }
{
    kind == SyntaxKind::LeftParen || kind == SyntaxKind::LeftBracket
}

/// What a token, directly after an expression or after trivia, makes of the expression, which is atomic or whose
/// operators bind at least so tightly.
pub(crate) fn code_tail(atomic: bool, least: u8, kind: SyntaxKind, has_trivia: bool) -> CodeTail
    ensures { result ≡ spec.code_tail atomic least kind has_trivia }
{
    if calls_directly(kind, has_trivia) {
        return CodeTail::Call;
    }
    if !atomic {
        return operator_tail(least, kind);
    }
    if dots_directly(kind, has_trivia) {
        return CodeTail::DirectField;
    }
    CodeTail::Nothing
}

/// Whether arguments begin directly after an expression.
pub(crate) fn calls_directly(kind: SyntaxKind, has_trivia: bool) -> bool
    ensures { result ≡ arguments.calls_directly kind has_trivia }
{
    opens_arguments(kind) && !has_trivia
}

/// Whether a dot comes directly after an expression.
fn dots_directly(kind: SyntaxKind, has_trivia: bool) -> bool
    ensures { result ≡ spec.dots_directly kind has_trivia }
{
    kind == SyntaxKind::Dot && !has_trivia
}

/// What a token makes of an expression before it that isn't atomic.
fn operator_tail(least: u8, kind: SyntaxKind) -> CodeTail
    ensures { result ≡ spec.operator_tail least kind }
{
    if kind == SyntaxKind::Dot {
        return CodeTail::Field;
    }
    if kind != SyntaxKind::Not {
        return binary_tail(least, BinOp::from_kind(kind));
    }
    if BinOp::NotIn.precedence() < least {
        return CodeTail::Nothing;
    }
    CodeTail::NotIn
}

/// The operator, if there is one and it binds at least so tightly.
fn binary_tail(least: u8, op: Option<BinOp>) -> CodeTail
    ensures { result ≡ spec.binary_tail least op }
{
    match op {
        Some(op) if op.precedence() < least => CodeTail::Nothing,
        Some(op) => CodeTail::Binary(op),
        None => CodeTail::Nothing,
    }
}
