//! Numbers.
ghost use Rattle.std.specs.Prelude.{◌≡◌, ◌≤◌, if◌then◌else◌, codes};
ghost use Rattle.std.specs.Str.{chars};
ghost use Rattle.typst_lines.specs.Identifiers.{is_id_start};
ghost use Rattle.typst_tokens.specs.Numbers as spec;
ghost use Rattle.typst_tokens.specs.declared.numbers.Numeral.TheVariants as numeral;
ghost use Rattle.typst_lines.specs.Place.{passes};
ghost use Rattle.typst_tokens.specs.Reader.{Reader, at_word};
ghost use Rattle.typst_tokens.specs.Reads.{Reads};
ghost use Rattle.typst_tokens.specs.Sight.{sight};
ghost use Rattle.typst_tokens.specs.Memory.{Memory};
ghost use Rattle.typst_tokens.specs.declared.token.Token.{Token};

use crate::sets::{AsciiDigits, is_unit, number};
use crate::{Base, Cursor, Fault, NumberFault, Token};
use typst_kinds::SyntaxKind;
use typst_lines::CharSet;
use typst_lines::classes::{Classes, is_id_start};

/// What is before the suffix of a number.
#[derive(Debug, Clone, Copy, PartialEq, Eq)]
pub enum Numeral {
    /// A number of the kind.
    Valid(SyntaxKind),
    /// A number of the base, which takes no suffix.
    Based(Base),
    /// Not a number.
    Invalid(NumberFault),
}

/// The set of the characters of suffixes.
#[derive(Clone, Copy)]
struct InSuffix;

impl CharSet for InSuffix {
    ghost members = { λ _. spec.in_suffix };

    #[inline]
    fn has(&self, c: char) -> bool {
        c.is_ascii_alphanumeric() || c == '%'
    }
}

/// A number that begins with the digit, which comes next.
#[tactic(auto, unfolding(crate::specs::Numbers::number_token))]
pub(crate) fn number_token<C: Classes>(s: &mut Cursor<'_>, c: char, classes: &C) -> Token
    ensures { Reads (spec.number_token (C.classes classes.now) c) s.old result s.new }
{
    if c == '0' {
        return zero_first(s, classes);
    }
    decimal(s, classes)
}

#[tactic(auto, unfolding(crate::specs::Numbers::zero_first))]
fn zero_first<C: Classes>(s: &mut Cursor<'_>, classes: &C) -> Token
    ensures { Reads (spec.zero_first (C.classes classes.now)) s.old result s.new }
{
    match s.second() {
        Some('b') => in_base(s, Base::Binary),
        Some('o') => in_base(s, Base::Octal),
        Some('x') => in_base(s, Base::Hexadecimal),
        _ => decimal(s, classes),
    }
}

/// A number after `0b`, `0o` or `0x`.
#[tactic(auto, unfolding(crate::specs::Numbers::in_base))]
fn in_base(s: &mut Cursor<'_>, base: Base) -> Token
    ensures { Reads (spec.in_base base) s.old result s.new }
{
    s.eat_two();
    let digits = s.eat_while(&DigitsOf(base));
    suffixed(s, based(base, digits))
}

/// The set of what is taken for digits of a base.
#[derive(Clone, Copy)]
pub struct DigitsOf(pub Base);

impl CharSet for DigitsOf {
    ghost members = { λ s. spec.is_digit_of s.0 };

    #[inline]
    fn has(&self, c: char) -> bool {
        match self.0 {
            Base::Binary | Base::Octal => c.is_ascii_digit(),
            Base::Hexadecimal => c.is_ascii_alphanumeric(),
        }
    }
}

fn based(base: Base, digits: &str) -> Numeral
    ensures { result ≡ spec.based base (chars digits.now) }
{
    if digits.is_empty() {
        return Numeral::Invalid(NumberFault::NoDigits(base));
    }
    if is_i64(base.radix(), digits) {
        return Numeral::Based(base);
    }
    Numeral::Invalid(NumberFault::WrongDigits(base))
}

/// Whether the digits write a number below 2^63.
fn is_i64(radix: u32, digits: &str) -> bool
    requires least { 2 ≤ radix }
    requires most { radix ≤ 36 }
    ensures { result ≡ spec.is_i64 radix (chars digits.now) }
{
    match number(digits, radix) {
        Some(n) => n < 1 << 63,
        None => false,
    }
}

#[tactic(auto, unfolding(crate::specs::Numbers::decimal))]
fn decimal<C: Classes>(s: &mut Cursor<'_>, classes: &C) -> Token
    ensures { Reads (spec.decimal (C.classes classes.now)) s.old result s.new }
{
    let digits = s.eat_while(&AsciiDigits);
    fraction(s, whole(digits), classes)
}

fn whole(digits: &str) -> Numeral
    ensures { result ≡ spec.whole (chars digits.now) }
{
    if is_i64(10, digits) {
        return Numeral::Valid(SyntaxKind::Int);
    }
    Numeral::Valid(SyntaxKind::Float)
}

/// A number that begins with a dot.
#[tactic(auto, unfolding(crate::specs::Numbers::dotted))]
pub(crate) fn dotted(s: &mut Cursor<'_>) -> Token
    ensures { Reads spec.dotted s.old result s.new }
{
    s.eat();
    s.eat_while(&AsciiDigits);
    exponent(s, Numeral::Valid(SyntaxKind::Float))
}

/// What is left of a decimal number after its first digits.
#[tactic(auto, unfolding(crate::specs::Numbers::fraction))]
fn fraction<C: Classes>(s: &mut Cursor<'_>, first: Numeral, classes: &C) -> Token
    ensures { Reads (spec.fraction (C.classes classes.now) first) s.old result s.new }
{
    if range_follows(s) {
        return exponent(s, first);
    }
    if starts_name(s.second(), classes) {
        return exponent(s, first);
    }
    if s.eat_if('.') {
        s.eat_while(&AsciiDigits);
        return exponent(s, Numeral::Valid(SyntaxKind::Float));
    }
    exponent(s, first)
}

/// Whether two dots come next, so that the first isn't the number's.
fn range_follows(s: &mut Cursor<'_>) -> bool
    ensures { (found other : Reader Memory Token) → sight (at_word 0 (codes "..") found other) s.old ≡ sight (if result then found else other) s.new }
{
    s.peek() == Some('.') && s.second() == Some('.')
}

fn starts_name<C: Classes>(c: Option<char>, classes: &C) -> bool
    ensures { result ≡ passes (is_id_start (C.classes classes.now)) c }
{
    match c {
        Some(c) => is_id_start(c, classes),
        None => false,
    }
}

/// An exponent, if one comes next, and a suffix. `em` is a suffix.
#[tactic(auto, unfolding(crate::specs::Numbers::exponent))]
fn exponent(s: &mut Cursor<'_>, before: Numeral) -> Token
    ensures { Reads (spec.exponent before) s.old result s.new }
{
    if em_follows(s) {
        return suffixed(s, before);
    }
    if s.eat_if('e') {
        return signed_digits(s);
    }
    if s.eat_if('E') {
        return signed_digits(s);
    }
    suffixed(s, before)
}

/// Whether the suffix `em` comes next, or one that begins with it.
fn em_follows(s: &mut Cursor<'_>) -> bool
    ensures { (found other : Reader Memory Token) → sight (at_word 0 (codes "em") found other) s.old ≡ sight (if result then found else other) s.new }
{
    s.peek() == Some('e') && s.second() == Some('m')
}

#[tactic(auto, unfolding(crate::specs::Numbers::signed_digits))]
fn signed_digits(s: &mut Cursor<'_>) -> Token
    ensures { Reads spec.signed_digits s.old result s.new }
{
    if s.eat_if('+') {
        return exponent_digits(s);
    }
    if s.eat_if('-') {
        return exponent_digits(s);
    }
    exponent_digits(s)
}

#[tactic(auto, unfolding(crate::specs::Numbers::exponent_digits))]
fn exponent_digits(s: &mut Cursor<'_>) -> Token
    ensures { Reads spec.exponent_digits s.old result s.new }
{
    let digits = s.eat_while(&AsciiDigits);
    suffixed(s, with_exponent(digits))
}

fn with_exponent(digits: &str) -> Numeral
    ensures { result ≡ spec.with_exponent (chars digits.now) }
{
    if digits.is_empty() {
        return Numeral::Invalid(NumberFault::Exponent);
    }
    Numeral::Valid(SyntaxKind::Float)
}

/// A number, by what is before its suffix, with the suffix that comes next.
#[tactic(auto, unfolding(crate::specs::Numbers::suffixed))]
fn suffixed(s: &mut Cursor<'_>, before: Numeral) -> Token
    ensures { Reads (spec.suffixed before) s.old result s.new }
{
    let suffix = s.eat_while(&InSuffix);
    numbered(before, suffix)
}

fn numbered(before: Numeral, suffix: &str) -> Token
    ensures { result ≡ spec.numbered before suffix.now }
{
    match before {
        Numeral::Valid(kind) => with_suffix(kind, suffix),
        Numeral::Based(base) => without_suffix(base, suffix),
        Numeral::Invalid(fault) => Token::faulty(Fault::Number(fault)),
    }
}

/// A number of a kind, with a suffix.
fn with_suffix(kind: SyntaxKind, suffix: &str) -> Token
    ensures { result ≡ spec.with_suffix kind suffix.now }
{
    if suffix.is_empty() {
        return Token::plain(kind);
    }
    if is_unit(suffix) {
        return Token::plain(SyntaxKind::Numeric);
    }
    Token::faulty(Fault::Number(NumberFault::UnknownSuffix))
}

/// An integer of a base, which takes no suffix.
fn without_suffix(base: Base, suffix: &str) -> Token
    ensures { result ≡ spec.numbered (numeral.Based base) suffix.now }
{
    if suffix.is_empty() {
        return Token::plain(SyntaxKind::Int);
    }
    Token::faulty(Fault::Number(NumberFault::Suffix(base)))
}
