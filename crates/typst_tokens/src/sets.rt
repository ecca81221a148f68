//! Sets of characters, and what digits write.
ghost use Rattle.std.specs.Prelude.{◌≡◌, ◌≤◌};
ghost use Rattle.std.specs.Str.{chars};
ghost use Rattle.typst_tokens.specs.Characters as spec;

use typst_kinds::SyntaxMode;
use typst_lines::{CharSet, Scanner, is_newline};

/// The set of a mode's whitespace.
#[derive(Clone, Copy)]
pub struct Whitespace(pub SyntaxMode);

impl CharSet for Whitespace {
    ghost members = { λ s. spec.is_space s.0 };

    #[inline(always)]
    fn has(&self, c: char) -> bool {
        is_space(c, self.0)
    }
}

/// The set of the ASCII letters and digits.
#[derive(Clone, Copy)]
pub struct AsciiAlphanumeric;

impl CharSet for AsciiAlphanumeric {
    ghost use Rattle.std.specs.Char.{is_ascii_alphanumeric};

    ghost members = { λ _. is_ascii_alphanumeric };

    #[inline]
    fn has(&self, c: char) -> bool {
        c.is_ascii_alphanumeric()
    }
}

/// The set of the ASCII digits.
#[derive(Clone, Copy)]
pub struct AsciiDigits;

impl CharSet for AsciiDigits {
    ghost use Rattle.std.specs.Char.{is_ascii_digit};

    ghost members = { λ _. is_ascii_digit };

    #[inline]
    fn has(&self, c: char) -> bool {
        c.is_ascii_digit()
    }
}

/// Whether the character is whitespace for the lexer.
#[inline]
pub fn is_space(c: char, mode: SyntaxMode) -> bool
    ensures { result ≡ spec.is_space mode c }
{
    if c.is_ascii() {
        return matches!(c, ' ' | '\t'..='\r');
    }
    match mode {
        SyntaxMode::Markup => is_newline(c),
        SyntaxMode::Math => c.is_whitespace(),
        SyntaxMode::Code => c.is_whitespace(),
    }
}

/// The number that digits of the base write, if it fits.
pub fn number(digits: &str, base: u32) -> Option<u64>
    requires least { 2 ≤ base }
    requires most { base ≤ 36 }
    ensures { result ≡ spec.number base (chars digits.now) }
{
    let mut value = 0u64;
    let mut s = Scanner::new(digits);
    while let Some(c) = s.eat() {
        match with_digit(value, base, c) {
            Some(longer) => value = longer,
            None => return None,
        }
    }
    Some(value)
}

/// The number that is written with one digit more, if it fits.
#[inline]
fn with_digit(value: u64, base: u32, c: char) -> Option<u64>
    requires least { 2 ≤ base }
    requires most { base ≤ 36 }
    ensures { result ≡ spec.with_digit base value c }
{
    let Some(digit) = c.to_digit(base) else {
        return None;
    };
    let Some(shifted) = value.checked_mul(u64::from(base)) else {
        return None;
    };
    shifted.checked_add(u64::from(digit))
}

/// Whether the number is a Unicode scalar value.
fn is_scalar(n: u64) -> bool
    ensures { result ≡ spec.is_scalar n }
{
    (n < 0xD800) | ((0xDFFF < n) & (n < 0x11_0000))
}

/// Whether hexadecimal digits name a character.
pub fn is_code_point(digits: &str) -> bool
    ensures { result ≡ spec.is_code_point (chars digits.now) }
{
    match number(digits, 16) {
        Some(n) => !digits.is_empty() && is_scalar(n),
        None => false,
    }
}

/// Whether decimal digits write a number of 64 bits.
pub fn is_u64(digits: &str) -> bool
    ensures { result ≡ spec.is_u64 (chars digits.now) }
{
    number(digits, 10).is_some()
}

/// Whether a number can have the suffix.
pub fn is_unit(suffix: &str) -> bool
    ensures { result ≡ spec.is_unit suffix.now }
{
    matches!(
        suffix,
        "pt" | "mm" | "cm" | "in" | "deg" | "rad" | "em" | "fr" | "%"
    )
}
