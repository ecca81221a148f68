//! Places in a text.

ghost use Rattle.std.specs.Prelude.{◌≡◌, length};
ghost use Rattle.std.specs.Str.{chars};
ghost use Rattle.typst_lines.specs.Lines.{units};

use typst_lines::Lines;

/// A place in a text by its line and its column, each counted from 1.
#[derive(Debug, Clone, Copy, PartialEq, Eq)]
pub struct LineColumn {
    /// The bytes before it.
    pub byte: usize,
    pub line: usize,
    /// The column in characters.
    pub column: usize,
    /// The column in UTF-16 units.
    pub utf16_column: usize,
}

impl LineColumn {
    ghost use Rattle.std.specs.Prelude.{◌≡◌, IfSome};
    ghost use Rattle.std.specs.Str.{IsCharBoundary};
    ghost use Rattle.typst_lines.specs.Lines.{line_of};
    ghost use Rattle.typst_report.specs.Places.{IsBase, IsPlace, IsPlaceOf};

    /// The place of a byte, or of the character that holds it. If it is in the line of the last place and after
    /// that, only what is between them is looked at, and else the line up to there.
    pub fn of_byte(lines: &Lines<&str>, byte: usize, last: Option<LineColumn>) -> LineColumn
        requires { IfSome last (IsPlace lines.now) }
        ensures { IsPlaceOf lines.now byte result }
    {
        let text = lines.text();
        let byte = text.floor_char_boundary(byte);
        let number = lines.byte_to_line(byte).unwrap_or(0);
        let base = LineColumn::base(lines, number, byte, last);
        let (characters, units) = count(&text[base.byte..byte]);
        LineColumn {
            byte,
            line: base.line,
            column: base.column + characters,
            utf16_column: base.utf16_column + units,
        }
    }

    /// The last place, if it is in the line of that number and not after the byte, or else the line's start.
    fn base(lines: &Lines<&str>, number: usize, byte: usize, last: Option<LineColumn>) -> LineColumn
        requires known { IfSome last (IsPlace lines.now) }
        requires boundary { IsCharBoundary lines.now byte }
        requires number { number ≡ line_of lines.now byte }
        ensures { IsBase lines.now byte result }
    {
        let _text = lines.text();
        match last {
            Some(place) if place.line - 1 == number && place.byte <= byte => place,
            _ => LineColumn::line_start(lines, number, byte),
        }
    }

    /// Where the line of that number starts.
    fn line_start(lines: &Lines<&str>, number: usize, byte: usize) -> LineColumn
        requires boundary { IsCharBoundary lines.now byte }
        requires number { number ≡ line_of lines.now byte }
        ensures { IsBase lines.now byte result }
    {
        let _text = lines.text();
        let (byte, line) = match lines.line(number) {
            Some(line) => (line.byte_idx(), number + 1),
            None => (0, 1),
        };
        LineColumn {
            byte,
            line,
            column: 1,
            utf16_column: 1,
        }
    }
}

/// How many characters a text has, and how many UTF-16 units.
fn count(text: &str) -> (usize, usize)
    ensures characters { result.0 ≡ length (chars text.now) }
    ensures units { result.1 ≡ units (chars text.now) }
{
    let (mut characters, mut units) = (0, 0);
    for c in text.chars() {
        characters += 1;
        units += c.len_utf16();
    }
    (characters, units)
}
