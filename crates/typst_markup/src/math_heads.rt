//! What a token of a formula begins, and what it takes into its node.

ghost use Rattle.std.specs.Prelude.{◌≡◌};
ghost use Rattle.typst_markup.specs.MathExpressions as spec;

use crate::attachments::is_in;
use typst_kinds::SyntaxKind;
use typst_language::ChainSet;

/// What a token begins where an expression of a formula is read.
#[derive(Debug, Clone, Copy, PartialEq, Eq)]
pub enum MathHead {
    /// `#` and an expression of code.
    Embedded,
    /// A name.
    Name,
    /// A delimiter with what follows up to one that closes it.
    Delimited,
    /// A delimiter that closes nothing.
    Closer,
    /// A sign that is text.
    Plain,
    /// Text.
    Text,
    /// A token that is an expression by itself.
    Itself,
    /// A token that is an expression by itself and may be called.
    Symbol,
    /// A root.
    Root,
    /// Nothing that begins an expression, and it stays.
    Missing,
}

/// What the beginning of an expression is to a delimiter directly after it.
#[derive(Debug, Clone, Copy, PartialEq, Eq)]
pub enum Callee {
    /// A name, which takes arguments in parens and what other delimiters hold.
    Name,
    /// Something that takes what delimiters hold.
    Symbol,
    /// Something that takes neither.
    Other,
}

/// What a token makes of the expression before it.
#[derive(Debug, Clone, Copy, PartialEq, Eq)]
pub enum MathTail {
    /// A call, with arguments in parens.
    Call,
    /// Math, with what delimiters hold.
    Delimited,
    /// A fraction.
    Fraction,
    /// Attachments.
    Attachments,
    /// Primes, and attachments after them.
    Primes,
    /// Math, with an exclamation mark.
    Factorial,
    /// Nothing: the expression ends before the token.
    Nothing,
}

/// Which node an expression becomes with what was read after it.
#[derive(Debug, Clone, Copy, PartialEq, Eq)]
pub enum Grown {
    /// A call.
    Call,
    /// Math.
    Math,
    /// A fraction. Parens around what is above the slash aren't delimiters.
    Fraction,
    /// An expression with attachments.
    Attach,
}

/// What the token begins.
pub(crate) fn math_head(kind: SyntaxKind) -> MathHead
    ensures { result ≡ spec.math_head kind }
{
    match kind {
        SyntaxKind::Hash => MathHead::Embedded,
        SyntaxKind::MathIdent | SyntaxKind::MathFieldAccess => MathHead::Name,
        SyntaxKind::LeftBrace | SyntaxKind::LeftParen => MathHead::Delimited,
        SyntaxKind::RightBrace | SyntaxKind::RightParen => MathHead::Closer,
        SyntaxKind::Dot | SyntaxKind::Bang | SyntaxKind::Comma | SyntaxKind::Semicolon => {
            MathHead::Plain
        }
        SyntaxKind::MathText => MathHead::Text,
        SyntaxKind::Linebreak | SyntaxKind::MathAlignPoint | SyntaxKind::MathShorthand => {
            MathHead::Itself
        }
        SyntaxKind::MathPrimes | SyntaxKind::Escape | SyntaxKind::Str => MathHead::Symbol,
        SyntaxKind::Root => MathHead::Root,
        _ => MathHead::Missing,
    }
}

/// What a token, directly after an expression or after trivia, makes of the expression, which ends at some signs
/// and whose operators bind at least so tightly.
pub(crate) fn math_tail(
    callee: Callee,
    least: u8,
    stops: ChainSet,
    kind: SyntaxKind,
    has_trivia: bool,
) -> MathTail
    ensures { result ≡ spec.math_tail callee least stops kind has_trivia }
{
    if is_in(stops, kind) {
        return MathTail::Nothing;
    }
    bound_tail(least, tail_at(callee, kind, has_trivia))
}

/// The tail, if it binds at least so tightly.
fn bound_tail(least: u8, tail: MathTail) -> MathTail
    ensures { result ≡ spec.bound_tail least tail }
{
    if least <= precedence(tail) {
        return tail;
    }
    MathTail::Nothing
}

/// How tightly an operator or a call binds, by the tail that it begins.
fn precedence(tail: MathTail) -> u8
    ensures { result ≡ spec.precedence tail }
{
    match tail {
        MathTail::Fraction => 1,
        MathTail::Attachments | MathTail::Primes | MathTail::Call | MathTail::Delimited => 2,
        MathTail::Factorial => 3,
        MathTail::Nothing => 0,
    }
}

/// What a token makes of the expression before it.
fn tail_at(callee: Callee, kind: SyntaxKind, has_trivia: bool) -> MathTail
    ensures { result ≡ spec.tail_at callee kind has_trivia }
{
    match kind {
        SyntaxKind::Slash => MathTail::Fraction,
        SyntaxKind::Underscore | SyntaxKind::Hat => MathTail::Attachments,
        SyntaxKind::MathPrimes => directly(has_trivia, MathTail::Primes),
        SyntaxKind::Bang => directly(has_trivia, MathTail::Factorial),
        SyntaxKind::LeftParen => directly(has_trivia, paren_tail(callee)),
        SyntaxKind::LeftBrace => directly(has_trivia, brace_tail(callee)),
        _ => MathTail::Nothing,
    }
}

/// A tail that has to come directly after its expression.
fn directly(has_trivia: bool, tail: MathTail) -> MathTail
    ensures { result ≡ spec.directly has_trivia tail }
{
    if has_trivia { MathTail::Nothing } else { tail }
}

/// What a paren directly after an expression begins.
fn paren_tail(callee: Callee) -> MathTail
    ensures { result ≡ spec.paren_tail callee }
{
    match callee {
        Callee::Name => MathTail::Call,
        Callee::Symbol => MathTail::Delimited,
        Callee::Other => MathTail::Nothing,
    }
}

/// What another delimiter directly after an expression begins.
fn brace_tail(callee: Callee) -> MathTail
    ensures { result ≡ spec.brace_tail callee }
{
    match callee {
        Callee::Name | Callee::Symbol => MathTail::Delimited,
        Callee::Other => MathTail::Nothing,
    }
}
