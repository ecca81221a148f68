//! The keys of strings.

ghost use Rattle.std.specs.Prelude.{◌≡◌, ◌++◌, IfOk, OnOk, drop, string_bytes};
ghost use Rattle.std.specs.Str.{chars};
ghost use Rattle.typst_lines.specs.Place.{moved};
ghost use Rattle.typst_lines.specs.Scanner.{place};
ghost use Rattle.typst_markup.specs.Keys as spec;

use std::alloc::{AllocError, Global};
use typst_kinds::Text;
use typst_language::number;
use typst_lines::{CharSet, Scanner};

/// The key of a string: its text without the quotes, with its escapes read.
///
/// An escape that stands for nothing stays as it is written.
pub fn string_key(alloc: Global, text: &str) -> Result<Text, AllocError>
    ensures { IfOk result (λ key. key ≡ spec.string_key text.now) }
{
    let mut key = String::new(alloc);
    let mut s = Scanner::new(unquoted(text));
    while let Some(c) = s.eat() {
        if c != '\\' {
            key.push(c)?;
            continue;
        }
        read_escape(&mut key, &mut s)?;
    }
    Ok(Text::from_string(key))
}

/// The text without its first and its last character.
fn unquoted(text: &str) -> &str
    ensures { chars result.now ≡ spec.without_last (drop 1 (chars text.now)) }
{
    let mut first = Scanner::new(text);
    first.eat();
    let mut last = Scanner::new(first.after());
    last.jump(first.after().len());
    last.uneat();
    last.before()
}

/// Reads the escape after a backslash, and writes what it stands for.
fn read_escape(key: &mut String, s: &mut Scanner<'_>) -> Result<(), AllocError>
    ensures key { OnOk result (string_bytes key.new ≡ string_bytes key.old ++ spec.escaped (place s.old).ahead (spec.escape (place s.old).ahead)) }
    ensures moved { place s.new ≡ moved (spec.escape (place s.old).ahead).len (place s.old) }
{
    let start = *s;
    if let Some(c) = escape(s) {
        key.push(c)?;
        return Ok(());
    }
    key.push('\\')?;
    key.push_str(s.since(&start))?;
    Ok(())
}

/// Reads the escape after a backslash; answers the character that it stands for.
fn escape(s: &mut Scanner<'_>) -> Option<char>
    ensures stands_for { result ≡ (spec.escape (place s.old).ahead).stands_for }
    ensures moved { place s.new ≡ moved (spec.escape (place s.old).ahead).len (place s.old) }
    ensures same_text { s.new.text.now ≡ s.old.text.now }
{
    let c = s.eat()?;
    if c == 'u' {
        return code_escape(s);
    }
    letter_escape(c)
}

/// What a character stands for after a backslash.
fn letter_escape(c: char) -> Option<char>
    ensures { result ≡ spec.letter_escape c }
{
    match c {
        '\\' => Some('\\'),
        '"' => Some('"'),
        'n' => Some('\n'),
        'r' => Some('\r'),
        't' => Some('\t'),
        _ => None,
    }
}

/// The set of the hexadecimal digits.
#[derive(Clone, Copy)]
struct HexDigits;

impl CharSet for HexDigits {
    ghost use Rattle.std.specs.Char.{is_ascii_hexdigit};

    ghost members = { λ _. is_ascii_hexdigit };

    fn has(&self, c: char) -> bool {
        c.is_ascii_hexdigit()
    }
}

/// Reads the escape after a backslash and `u`; answers the character that it stands for.
fn code_escape(s: &mut Scanner<'_>) -> Option<char>
    ensures stands_for { result ≡ (spec.code_escape (place s.old).ahead).stands_for }
    ensures moved { place s.new ≡ moved (spec.code_escape (place s.old).ahead).len (place s.old) }
    ensures same_text { s.new.text.now ≡ s.old.text.now }
{
    if !s.eat_if('{') {
        return None;
    }
    let digits = s.eat_while(&HexDigits);
    s.eat_if('}');
    character(digits)
}

/// The character that hexadecimal digits name.
fn character(digits: &str) -> Option<char>
    ensures { result ≡ spec.character (chars digits.now) }
{
    if digits.is_empty() {
        return None;
    }
    let number = number(digits, 16)?;
    if number > 0x10_ffff {
        return None;
    }
    char::from_u32(number as u32)
}
