//! Escapes in rows, between `‹` and `›`: characters that don't show, by their names, and texts that stand many
//! times.

ghost use Rattle.std.specs.Prelude.{◌≡◌, IfSome, Some};
ghost use Rattle.typst_rows.specs.Escapes.{character_named};

use std::alloc::{AllocError, Global};

/// What is wrong with a line that has an escape that names nothing or isn't closed.
const UNNAMED: &str = "an escape that names no character";

/// Writes a line of a row with each escape replaced by what it names, and gives what is wrong with it.
pub fn push_decoded(out: &mut String, line: &str) -> Result<Option<&'static str>, AllocError> {
    let mut pieces = line.split('‹');
    if let Some(front) = pieces.next() {
        out.push_str(front)?;
    }
    for piece in pieces {
        let Some((name, rest)) = piece.split_once('›') else {
            return Ok(Some(UNNAMED));
        };
        if !push_named(out, name)? {
            return Ok(Some(UNNAMED));
        }
        out.push_str(rest)?;
    }
    Ok(None)
}

/// Writes what an escape names: a character, or a text so many times, as `3×ab` for `ababab`, with a line feed in
/// the place of each sign `␊`. Gives false where it names none.
fn push_named(out: &mut String, name: &str) -> Result<bool, AllocError> {
    if let Some((count, text)) = name.split_once('×') {
        let Ok(count) = count.parse::<u32>() else {
            return Ok(false);
        };
        for _ in 0..count {
            for character in text.chars() {
                out.push(unsigned(character))?;
            }
        }
        return Ok(true);
    }
    let Some(character) = named(name) else {
        return Ok(false);
    };
    out.push(character)?;
    Ok(true)
}

/// The character that one stands for: a line feed for the sign `␊`.
fn unsigned(character: char) -> char {
    if character == '␊' { '\n' } else { character }
}

/// The character that an escape names, by its name or by `U+` and its number in hexadecimal digits.
fn named(name: &str) -> Option<char>
    ensures { IfSome (character_named name.now) (λ c. result ≡ Some c) }
{
    match name {
        "LF" => Some('\n'),
        "CR" => Some('\r'),
        "TAB" => Some('\t'),
        "SP" => Some(' '),
        "NUL" => Some('\0'),
        _ => {
            let digits = name.strip_prefix("U+")?;
            char::from_u32(u32::from_str_radix(digits, 16).ok()?)
        }
    }
}

/// The text with a line feed in the place of each sign `␊`.
pub fn with_line_feeds(alloc: Global, text: &str) -> Result<String, AllocError> {
    let mut all = String::new(alloc);
    for character in text.chars() {
        all.push(unsigned(character))?;
    }
    Ok(all)
}
