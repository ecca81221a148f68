//! Tokens: what is read in one piece.
ghost use Rattle.std.specs.Prelude.{◌≡◌, ◌≤◌};
ghost use Rattle.typst_tokens.specs.Token.{radix_of};

use typst_kinds::SyntaxKind;

/// The base of a number that isn't decimal.
#[derive(Debug, Clone, Copy, PartialEq, Eq)]
pub enum Base {
    /// `0b`
    Binary,
    /// `0o`
    Octal,
    /// `0x`
    Hexadecimal,
}

impl Base {
    /// How many digits the base has.
    pub fn radix(self) -> u32
        ensures value { result ≡ radix_of self }
        ensures least { 2 ≤ result }
        ensures most { result ≤ 36 }
    {
        match self {
            Base::Binary => 2,
            Base::Octal => 8,
            Base::Hexadecimal => 16,
        }
    }
}

/// What is wrong with a number.
#[derive(Debug, Clone, Copy, PartialEq, Eq)]
pub enum NumberFault {
    /// A suffix that no number has.
    UnknownSuffix,
    /// An exponent without digits.
    Exponent,
    /// A base without digits.
    NoDigits(Base),
    /// Digits that the base doesn't have, or a number that isn't below 2^63.
    WrongDigits(Base),
    /// A suffix after a number of the base.
    Suffix(Base),
}

/// What is wrong with an error token.
#[derive(Debug, Clone, Copy, PartialEq, Eq)]
pub enum Fault {
    /// `*/` without a comment that is open.
    CommentEnd,
    /// A raw text without its closing backticks.
    UnclosedRaw,
    /// `\u{..` without a closing brace.
    UnclosedEscape,
    /// `\u{..}` around something that names no character.
    InvalidEscape,
    /// A link with a bracket that isn't closed.
    UnbalancedLink,
    /// A label without `>`.
    UnclosedLabel,
    /// A string without its closing quotation mark.
    UnclosedString,
    /// A number with this fault.
    Number(NumberFault),
    /// A character that no token of code begins with.
    InvalidCharacter,
    /// A character that no token of code begins with, directly after a hash.
    HashedCharacter,
    /// An operator of other languages: `&&`, `||` or `~=`.
    InvalidOperator,
}

/// A token, aside from its text.
#[derive(Debug, Clone, Copy, PartialEq, Eq)]
pub struct Token {
    /// What is wrong with it, if it is an error.
    pub fault: Option<Fault>,
    /// What the token is.
    pub kind: SyntaxKind,
    /// Whether a line ends in it; only in whitespace one can.
    pub newline: bool,
}

impl Token {
    ghost use Rattle.typst_tokens.specs.Token.{plain, faulty};

    /// A token without a fault, in which no line ends.
    #[inline]
    pub fn plain(kind: SyntaxKind) -> Token
        ensures { result ≡ plain kind }
    {
        Token {
            fault: None,
            kind,
            newline: false,
        }
    }

    /// An error token with this fault.
    #[inline]
    pub fn faulty(fault: Fault) -> Token
        ensures { result ≡ faulty fault }
    {
        Token {
            fault: Some(fault),
            kind: SyntaxKind::Error,
            newline: false,
        }
    }
}
