//! Columns of a line.
ghost use Rattle.std.specs.Prelude.{◌≡◌, ◌≤◌, length};
ghost use Rattle.typst_positions.specs.Columns as spec;
ghost use Rattle.typst_positions.specs.Plain.{IsPlainFront};

/// What columns are counted in.
#[derive(Debug, Clone, Copy, PartialEq, Eq)]
pub enum Encoding {
    /// Bytes.
    Utf8,
    /// UTF-16 units.
    Utf16,
}

impl Encoding {
    /// How wide a character is.
    fn width(self, c: char) -> usize
        ensures { result ≡ spec.width self c }
    {
        match self {
            Encoding::Utf8 => c.len_utf8(),
            Encoding::Utf16 => c.len_utf16(),
        }
    }
}

/// How many bytes of a line are before a column: those of whole characters, and no more than the line
/// has.
pub(crate) fn bytes_before(line: &str, encoding: Encoding, column: usize) -> usize
    ensures { result ≡ spec.bytes_before encoding line.now column }
{
    let plain = plain_front(line, column);
    plain + bytes_within(&line[plain..], encoding, column - plain)
}

/// How wide the whole characters among the first bytes of a line are.
pub(crate) fn column_of(line: &str, encoding: Encoding, bytes: usize) -> usize
    ensures { result ≡ spec.column_of encoding line.now bytes }
{
    let plain = plain_front(line, bytes);
    plain + width_within(&line[plain..], encoding, bytes - plain)
}

/// How many bytes of a line are before a column, as `bytes_before` says, character by character.
fn bytes_within(line: &str, encoding: Encoding, column: usize) -> usize
    ensures value { result ≡ spec.bytes_before encoding line.now column }
    ensures within { result ≤ length line.now }
{
    let mut left = column;
    let mut bytes = 0;
    for c in line.chars() {
        let width = encoding.width(c);
        if width > left {
            return bytes;
        }
        left -= width;
        bytes += c.len_utf8();
    }
    bytes
}

/// How wide the whole characters among the first bytes of a line are, as `column_of` says, character by character.
fn width_within(line: &str, encoding: Encoding, bytes: usize) -> usize
    ensures value { result ≡ spec.column_of encoding line.now bytes }
    ensures within { result ≤ length line.now }
{
    let mut left = bytes;
    let mut width = 0;
    for c in line.chars() {
        let bytes = c.len_utf8();
        if bytes > left {
            return width;
        }
        left -= bytes;
        width += encoding.width(c);
    }
    width
}

/// As many of the first bytes as are asked for, if these are ASCII, which is tested many bytes at a time, and none
/// if they aren't.
fn plain_front(line: &str, most: usize) -> usize
    ensures { IsPlainFront line.now most result }
{
    let count = most.min(line.len());
    if line.as_bytes()[..count].is_ascii() {
        count
    } else {
        0
    }
}
