//! Positions of some texts.

use typst_positions::{Encoding, Position, Positions};

/// A text, what columns are counted in, a line and a column, and the byte there.
type Row<'a> = (&'a str, Encoding, usize, usize, usize);

static ROWS: [Row<'static>; 22] = [
    ("", Encoding::Utf16, 0, 0, 0),
    ("", Encoding::Utf16, 0, 7, 0),
    ("", Encoding::Utf16, 1, 0, 0),
    ("abc", Encoding::Utf8, 0, 2, 2),
    ("abc", Encoding::Utf8, 0, 9, 3),
    ("abc\n", Encoding::Utf8, 0, 9, 3),
    ("abc\n", Encoding::Utf8, 1, 0, 4),
    ("abc\n", Encoding::Utf8, 2, 0, 4),
    ("a\r\nb\rc\nd", Encoding::Utf8, 0, 9, 1),
    ("a\r\nb\rc\nd", Encoding::Utf8, 1, 0, 3),
    ("a\r\nb\rc\nd", Encoding::Utf8, 1, 9, 4),
    ("a\r\nb\rc\nd", Encoding::Utf8, 2, 0, 5),
    ("a\r\nb\rc\nd", Encoding::Utf8, 3, 1, 8),
    ("a\n\rb", Encoding::Utf8, 2, 0, 3),
    (
        "a\u{b}b\u{c}c\u{85}d\u{2028}e\u{2029}f",
        Encoding::Utf16,
        0,
        9,
        12,
    ),
    (
        "a\u{b}b\u{c}c\u{85}d\u{2028}e\u{2029}f",
        Encoding::Utf16,
        1,
        0,
        16,
    ),
    ("\u{e4}\u{1f49b}b", Encoding::Utf16, 0, 1, 2),
    ("\u{e4}\u{1f49b}b", Encoding::Utf16, 0, 2, 2),
    ("\u{e4}\u{1f49b}b", Encoding::Utf16, 0, 3, 6),
    ("\u{e4}\u{1f49b}b", Encoding::Utf16, 0, 4, 7),
    ("\u{e4}\u{1f49b}b", Encoding::Utf8, 0, 3, 2),
    ("\u{e4}\u{1f49b}b", Encoding::Utf8, 0, 6, 6),
];

/// A text, what columns are counted in, a byte, and the line and the column there.
type Back<'a> = (&'a str, Encoding, usize, usize, usize);

static BACKS: [Back<'static>; 15] = [
    ("", Encoding::Utf16, 0, 0, 0),
    ("", Encoding::Utf16, 5, 0, 0),
    ("abc", Encoding::Utf16, 2, 0, 2),
    ("abc", Encoding::Utf16, 9, 0, 3),
    ("abc\n", Encoding::Utf16, 3, 0, 3),
    ("abc\n", Encoding::Utf16, 4, 1, 0),
    ("abc\n", Encoding::Utf16, 9, 1, 0),
    ("a\r\nb", Encoding::Utf8, 1, 0, 1),
    ("a\r\nb", Encoding::Utf8, 2, 0, 1),
    ("a\r\nb", Encoding::Utf8, 3, 1, 0),
    ("a\rb", Encoding::Utf8, 2, 1, 0),
    ("a\n\rb", Encoding::Utf8, 2, 1, 0),
    ("\u{e4}\u{1f49b}b", Encoding::Utf16, 6, 0, 3),
    ("\u{e4}\u{1f49b}b", Encoding::Utf16, 5, 0, 1),
    ("\u{e4}\u{1f49b}b", Encoding::Utf8, 5, 0, 2),
];

/// To the byte that each position is at, and to the position of each byte.
#[test]
fn rows_there_and_back(rt: HostRuntime) {
    for row in &ROWS {
        let (text, encoding, line, column, byte) = *row;
        let positions = Positions::new(rt.alloc(), text).expect(&rt, "memory");
        assert!(rt; positions.to_byte(text, encoding, Position { line, column }) == byte);
    }
    for row in &BACKS {
        let (text, encoding, byte, line, column) = *row;
        let positions = Positions::new(rt.alloc(), text).expect(&rt, "memory");
        assert!(rt; positions.to_position(text, encoding, byte) == Position { line, column });
    }
}
