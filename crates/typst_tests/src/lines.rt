//! Positions in a text, its edits, its line ends, and the cursor.
use crate::refusals::is_confirmed;
use std::alloc::{AllocError, Global};
use typst_lines::{Lines, Scanner, ScannerExt, is_newline, split_newlines};

const TEXT: &str = "ä\tcde\nf💛g\r\nhi\rjkl";

/// Bytes of `TEXT` with their lines and columns.
static PLACES: [(usize, usize, usize); 7] = [
    (0, 0, 0),
    (2, 0, 1),
    (6, 0, 5),
    (7, 1, 0),
    (8, 1, 1),
    (12, 1, 2),
    (21, 3, 3),
];

/// Bytes of `TEXT` with the UTF-16 units before them.
static UNITS: [(usize, usize); 6] = [(0, 0), (2, 1), (3, 2), (8, 7), (12, 9), (21, 18)];

/// Whether one UTF-16 unit stands before this byte of a text.
fn has_after_one(alloc: Global, text: &str, byte: Option<usize>) -> Option<bool> {
    Some(Lines::new(alloc, text).ok()?.utf16_to_byte(1) == byte)
}

/// Bytes stand at their lines and columns, so many UTF-16 units stand before them, and these lead back to them. A line
/// ends where it does, and nothing lies past the text or within a character.
#[test]
fn places(rt: HostRuntime) {
    let lines = Lines::new(rt.alloc(), TEXT).expect(&rt, "memory");
    for (byte, line, column) in &PLACES {
        assert!(rt; lines.byte_to_line_column(*byte) == Some((*line, *column)));
        assert!(rt; lines.line_column_to_byte(*line, *column) == Some(*byte));
    }
    for (byte, utf16) in &UNITS {
        assert!(rt; lines.byte_to_utf16(*byte) == Some(*utf16));
        assert!(rt; lines.utf16_to_byte(*utf16) == Some(*byte));
    }
    assert!(rt; lines.line_to_range(1) == Some(7..15));
    assert!(rt; lines.line_column_to_byte(1, 5) == Some(15));
    let nowhere = [
        lines.line_column_to_byte(1, 6),
        lines.byte_to_line(22),
        lines.byte_to_column(1),
        lines.byte_to_utf16(22),
        lines.utf16_to_byte(19),
    ];
    assert!(rt; nowhere == [None; 5]);
    assert!(rt; has_after_one(rt.alloc(), "💛a", Some(4)) == Some(true));
    assert!(rt; has_after_one(rt.alloc(), "💛", None) == Some(true));
}

pub(crate) fn lines_of(alloc: Global, text: &str) -> Option<Lines<String>> {
    Lines::new(alloc, String::from_str(alloc, text).ok()?).ok()
}

/// Whether the text is this one, with its table newly made.
pub(crate) fn is_fresh(alloc: Global, lines: &Lines<String>, text: &str) -> Option<bool> {
    let fresh = Lines::new(alloc, text).ok()?;
    for i in 0..fresh.len_lines() {
        if lines.line(i) != fresh.line(i) {
            return Some(false);
        }
    }
    Some(lines.text() == text && lines.len_lines() == fresh.len_lines())
}

/// A text, the range of it that an edit replaces, what is put there, and the text then.
type Edit = (&'static str, (usize, usize), &'static str, &'static str);

static EDITS: [Edit; 9] = [
    ("abc\n", (0, 0), "hi\n", "hi\nabc\n"),
    ("\nabc", (0, 0), "hi\r", "hi\r\nabc"),
    (TEXT, (4, 16), "❌", "ä\tc❌i\rjkl"),
    ("abc\ndef", (7, 7), "hi", "abc\ndefhi"),
    ("abc\ndef\n", (8, 8), "hi", "abc\ndef\nhi"),
    ("abc\ndef\r", (8, 8), "\nghi", "abc\ndef\r\nghi"),
    (TEXT, (0, 21), "", ""),
    ("a\rb\nc", (2, 3), "", "a\r\nc"),
    ("a\r\nb", (2, 2), "x", "a\rx\nb"),
];

/// Edits lines, where the range is one of their text.
pub(crate) fn edit_within(
    lines: &mut Lines<String>,
    (start, end): (usize, usize),
    with: &str,
) -> Result<(), AllocError> {
    if start <= end && lines.text().is_char_boundary(start) && lines.text().is_char_boundary(end) {
        lines.edit(start..end, with)?;
    }
    Ok(())
}

/// An edit gives the table of the new text, and so does the replacement by what it makes.
#[test]
fn edits(rt: HostRuntime) {
    for (old, range, with, new) in &EDITS {
        let mut lines = lines_of(rt.alloc(), old).expect(&rt, "memory");
        assert!(rt; edit_within(&mut lines, *range, with).is_ok());
        assert!(rt; is_fresh(rt.alloc(), &lines, new) == Some(true));
        let mut others = lines_of(rt.alloc(), old).expect(&rt, "memory");
        assert!(rt; others.replace(new) == Ok(true));
        assert!(rt; is_fresh(rt.alloc(), &others, new) == Some(true));
    }
}

/// A text is replaced by another one, and by itself not.
#[test]
fn replacements(rt: HostRuntime) {
    let mut lines = lines_of(rt.alloc(), "é").expect(&rt, "memory");
    assert!(rt; lines.replacement_range("ĩ") == Some((0, 0)));
    assert!(rt; lines.replacement_range("xé") == Some((0, 2)));
    assert!(rt; lines.replace("ĩ") == Ok(true) && lines.replace("ĩ") == Ok(false));
    let copy = lines.try_clone().expect(&rt, "memory");
    assert!(rt; copy == lines);
}

const STRETCHES: [&str; 3] = ["a", "b", ""];

/// Whether a line with two ends of different kinds is split at them.
fn splits(alloc: Global) -> Option<bool> {
    Some(split_newlines(alloc, "a\r\nb\r").ok()?.as_slice() == STRETCHES.as_slice())
}

/// A text is split at its line ends, and a cursor says what it passes.
#[test]
fn line_ends_and_a_cursor(rt: HostRuntime) {
    assert!(rt; is_newline('\u{2029}') && !is_newline('\t'));
    assert!(rt; is_confirmed(splits(rt.alloc()), splits(rt.alloc())));
    let mut cursor = Scanner::new("ab\r\nc\u{85}");
    assert!(rt; cursor.eat() == Some('a') && cursor.scout(1) == Some('\r'));
    assert!(rt; cursor.eat_until(&'\r') == "b" && cursor.scout(-2) == Some('a'));
    assert!(rt; cursor.eat_newline() && cursor.after() == "c\u{85}");
}
