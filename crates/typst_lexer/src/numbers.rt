//! What is said of numbers.
ghost use Rattle.std.specs.Prelude.{◌≡◌, IfOk, OnOk, drop, string_bytes};
ghost use Rattle.typst_tokens.specs.Numbers.{is_digit_of};
ghost use Rattle.typst_lines.specs.Place.{moved, past, place_at};
ghost use Rattle.typst_lines.specs.Scanner.{place};
ghost use Rattle.std.specs.Str.{chars};
ghost use Rattle.typst_lexer.specs.Faults as spec;
ghost use Rattle.typst_tree.specs.Tree.{all_advised};
ghost use Rattle.typst_lexer.specs.Nodes.{fault_node};
ghost use Rattle.typst_tokens.specs.declared.token.Fault.TheVariants as fault;
ghost use Rattle.typst_tokens.specs.declared.token.NumberFault.TheVariants as number_fault;

use std::alloc::{AllocError, Global};
use typst_lines::{CharSet, Scanner};
use typst_tokens::numbers::DigitsOf;
use typst_tokens::sets::{AsciiDigits, is_unit, number};
use typst_tokens::{Base, NumberFault};
use typst_tree::SyntaxNode;

/// The node of a number with a fault.
pub(crate) fn number_node(
    alloc: Global,
    found: NumberFault,
    text: &str,
) -> Result<SyntaxNode, AllocError>
    ensures { IfOk result (λ node. node ≡ fault_node (fault.Number found) (chars text.now)) }
{
    let split = suffix_start(found, text);
    let (before, suffix) = (split.before(), split.after());
    let message = number_message(alloc, found, before, suffix)?;
    let mut node = SyntaxNode::error_saying(alloc, message, text)?;
    add_hint(alloc, &mut node, found, before, suffix)?;
    Ok(node)
}

/// Where the suffix of a number begins.
fn suffix_start(found: NumberFault, text: &str) -> Scanner<'_>
    ensures { place result ≡ spec.at_suffix found (place_at text.now 0) }
{
    let mut s = Scanner::new(text);
    match found {
        NumberFault::UnknownSuffix | NumberFault::Exponent => pass_decimal(&mut s),
        NumberFault::NoDigits(base) => pass_based(&mut s, base),
        NumberFault::WrongDigits(base) => pass_based(&mut s, base),
        NumberFault::Suffix(base) => pass_based(&mut s, base),
    }
    s
}

/// Goes past the digits of a base, after the two characters that name it.
fn pass_based(s: &mut Scanner<'_>, base: Base)
    ensures { place s.new ≡ past (is_digit_of base) (moved 2 (place s.old)) }
{
    s.eat();
    s.eat();
    s.eat_while(&DigitsOf(base));
}

/// Goes past a decimal number and its exponent.
fn pass_decimal(s: &mut Scanner<'_>)
    ensures { place s.new ≡ spec.after_exponent (past spec.is_decimal (place s.old)) }
{
    s.eat_while(&Decimal);
    if s.at_word(b"em") {
        return;
    }
    if s.eat_set(&ExponentSign) {
        s.eat_set(&Sign);
        s.eat_while(&AsciiDigits);
    }
}

/// The set of the characters of a decimal number before its exponent.
#[derive(Clone, Copy)]
struct Decimal;

impl CharSet for Decimal {
    ghost members = { λ _. spec.is_decimal };

    fn has(&self, c: char) -> bool {
        c.is_ascii_digit() || c == '.'
    }
}

/// The set of the characters that an exponent begins with.
#[derive(Clone, Copy)]
struct ExponentSign;

impl CharSet for ExponentSign {
    ghost members = { λ _. spec.is_exponent };

    fn has(&self, c: char) -> bool {
        c == 'e' || c == 'E'
    }
}

/// The set of the signs.
#[derive(Clone, Copy)]
struct Sign;

impl CharSet for Sign {
    ghost members = { λ _. spec.is_sign };

    fn has(&self, c: char) -> bool {
        c == '+' || c == '-'
    }
}

fn number_message(
    alloc: Global,
    found: NumberFault,
    before: &str,
    suffix: &str,
) -> Result<String, AllocError>
    ensures { IfOk result (λ message. string_bytes message ≡ spec.number_message found before.now suffix.now) }
{
    match found {
        NumberFault::UnknownSuffix => unknown_suffix(alloc, suffix),
        NumberFault::Exponent => format!(in alloc; "invalid floating point number: `{before}`"),
        NumberFault::NoDigits(base) => wanted(alloc, base),
        NumberFault::WrongDigits(base) => {
            let name = name_of(base);
            format!(in alloc; "invalid {name} number: `{before}`")
        }
        NumberFault::Suffix(base) => {
            let name = name_of(base);
            format!(in alloc; "{name} numbers cannot have a suffix")
        }
    }
}

fn unknown_suffix(alloc: Global, suffix: &str) -> Result<String, AllocError>
    ensures { IfOk result (λ message. string_bytes message ≡ spec.unknown_suffix suffix.now) }
{
    format!(in alloc; "invalid number suffix: `{suffix}`")
}

fn wanted(alloc: Global, base: Base) -> Result<String, AllocError>
    ensures { IfOk result (λ message. string_bytes message ≡ spec.wanted base) }
{
    match base {
        Base::Binary => format!(in alloc; "expected a binary number"),
        Base::Octal => format!(in alloc; "expected an octal number"),
        Base::Hexadecimal => format!(in alloc; "expected a hexadecimal number"),
    }
}

fn name_of(base: Base) -> &'static str
    ensures { result.now ≡ spec.name_of base }
{
    match base {
        Base::Binary => "binary",
        Base::Octal => "octal",
        Base::Hexadecimal => "hexadecimal",
    }
}

/// Adds the hint for a number's fault, if there is one.
fn add_hint(
    alloc: Global,
    node: &mut SyntaxNode,
    found: NumberFault,
    before: &str,
    suffix: &str,
) -> Result<(), AllocError>
    ensures { OnOk result (node.new ≡ all_advised (spec.number_hints found (chars before.now) suffix.now) node.old) }
{
    match found {
        NumberFault::UnknownSuffix => Ok(()),
        NumberFault::Exponent => add_suffix(alloc, node, suffix),
        NumberFault::NoDigits(_) => add_suffix(alloc, node, suffix),
        NumberFault::WrongDigits(_) => add_suffix(alloc, node, suffix),
        NumberFault::Suffix(base) => add_decimal(alloc, node, base, before, suffix),
    }
}

/// Adds the hint for a suffix that no number has, if this is one.
fn add_suffix(alloc: Global, node: &mut SyntaxNode, suffix: &str) -> Result<(), AllocError>
    ensures { OnOk result (node.new ≡ all_advised (spec.suffix_hints suffix.now) node.old) }
{
    if suffix.is_empty() || is_unit(suffix) {
        return Ok(());
    }
    let hint = unknown_suffix(alloc, suffix)?;
    node.hint(hint.as_str())
}

/// Adds the hint to write decimal digits, or the one for a suffix that no number has.
fn add_decimal(
    alloc: Global,
    node: &mut SyntaxNode,
    base: Base,
    before: &str,
    suffix: &str,
) -> Result<(), AllocError>
    ensures { OnOk result (node.new ≡ all_advised (spec.number_hints (number_fault.Suffix base) (chars before.now) suffix.now) node.old) }
{
    let hint = if is_unit(suffix) {
        in_decimal(alloc, base, before, suffix)?
    } else {
        unknown_suffix(alloc, suffix)?
    };
    node.hint(hint.as_str())
}

fn in_decimal(alloc: Global, base: Base, before: &str, suffix: &str) -> Result<String, AllocError>
    ensures { IfOk result (λ hint. string_bytes hint ≡ spec.in_decimal base (chars before.now) suffix.now) }
{
    let value = value_of(base, before);
    format!(in alloc; "try using a decimal number: `{value}{suffix}`")
}

/// The number that the digits after the first two characters write.
fn value_of(base: Base, before: &str) -> u64
    ensures { result ≡ spec.value_of base (drop 2 (chars before.now)) }
{
    let mut s = Scanner::new(before);
    s.eat();
    s.eat();
    match number(s.after(), base.radix()) {
        Some(n) => n,
        None => 0,
    }
}
