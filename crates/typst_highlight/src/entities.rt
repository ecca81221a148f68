//! The bytes of a text that HTML has entities for.

ghost use Rattle.std.specs.Prelude.{◌≡◌, ◌<◌, [], ◌∷◌, MatchOption, IsTrue, false};
ghost use Rattle.typst_highlight.specs.Html as spec;

/// How many bytes are looked at one by one.
pub const FEW: usize = 16;

/// 1 for each byte that has an entity, and 0 for any other.
const MARKS: [u8; 256] = [
    0, 0, 0, 0, 0, 0, 0, 0, 0, 0, 0, 0, 0, 0, 0, 0, 0, 0, 0, 0, 0, 0, 0, 0, 0, 0, 0, 0, 0, 0, 0, 0,
    0, 0, 1, 0, 0, 0, 1, 1, 0, 0, 0, 0, 0, 0, 0, 0, 0, 0, 0, 0, 0, 0, 0, 0, 0, 0, 0, 0, 1, 0, 1, 0,
    0, 0, 0, 0, 0, 0, 0, 0, 0, 0, 0, 0, 0, 0, 0, 0, 0, 0, 0, 0, 0, 0, 0, 0, 0, 0, 0, 0, 0, 0, 0, 0,
    0, 0, 0, 0, 0, 0, 0, 0, 0, 0, 0, 0, 0, 0, 0, 0, 0, 0, 0, 0, 0, 0, 0, 0, 0, 0, 0, 0, 0, 0, 0, 0,
    0, 0, 0, 0, 0, 0, 0, 0, 0, 0, 0, 0, 0, 0, 0, 0, 0, 0, 0, 0, 0, 0, 0, 0, 0, 0, 0, 0, 0, 0, 0, 0,
    0, 0, 0, 0, 0, 0, 0, 0, 0, 0, 0, 0, 0, 0, 0, 0, 0, 0, 0, 0, 0, 0, 0, 0, 0, 0, 0, 0, 0, 0, 0, 0,
    0, 0, 0, 0, 0, 0, 0, 0, 0, 0, 0, 0, 0, 0, 0, 0, 0, 0, 0, 0, 0, 0, 0, 0, 0, 0, 0, 0, 0, 0, 0, 0,
    0, 0, 0, 0, 0, 0, 0, 0, 0, 0, 0, 0, 0, 0, 0, 0, 0, 0, 0, 0, 0, 0, 0, 0, 0, 0, 0, 0, 0, 0, 0, 0,
];

/// Whether no byte has an entity.
#[inline(always)]
pub fn is_plain(bytes: &[u8]) -> bool
    ensures { IsTrue result → spec.escaped bytes.now ≡ bytes.now }
{
    if bytes.len() <= FEW {
        are_itself(bytes)
    } else {
        are_unmarked(bytes)
    }
}

/// Whether none of few bytes has an entity.
#[inline(always)]
fn are_itself(bytes: &[u8]) -> bool
    ensures { IsTrue result → spec.escaped bytes.now ≡ bytes.now }
{
    for at in 0..bytes.len() {
        if has_entity(bytes[at]) {
            return false;
        }
    }
    true
}

/// Whether none of many bytes has an entity; it looks at all of them.
#[inline(never)]
fn are_unmarked(bytes: &[u8]) -> bool
    ensures { IsTrue result → spec.escaped bytes.now ≡ bytes.now }
{
    let mut marks = 0;
    for at in 0..bytes.len() {
        marks = marks | mark(bytes[at]);
    }
    marks == 0
}

/// Whether the byte is a character without an entity.
#[inline(always)]
pub fn is_itself(byte: u8) -> bool
    ensures small { IsTrue result → byte < 128 }
    ensures same { IsTrue result → spec.escaped_byte byte ≡ byte ∷ [] }
{
    byte < 128 && !has_entity(byte)
}

/// Whether the byte is one of `& < > ' "`.
#[inline(always)]
pub fn has_entity(byte: u8) -> bool
    ensures { result ≡ false → spec.escaped_byte byte ≡ byte ∷ [] }
{
    MARKS[byte as usize] == 1
}

/// Not 0 for the bytes `& < > ' "`.
#[inline(always)]
fn mark(byte: u8) -> u8
    ensures { result ≡ 0 → spec.escaped_byte byte ≡ byte ∷ [] }
{
    u8::from((byte == b'&') | (byte == b'<') | (byte == b'>') | (byte == b'\'') | (byte == b'"'))
}

/// The entity of a byte, which `& < > ' "` have.
pub fn entity(byte: u8) -> Option<&'static str>
    ensures { MatchOption result (spec.escaped_byte byte ≡ byte ∷ []) (λ entity. (entity.now ≡ spec.escaped_byte byte) × byte < 128) }
{
    match byte {
        b'&' => Some("&amp;"),
        b'<' => Some("&lt;"),
        b'>' => Some("&gt;"),
        b'\'' => Some("&#39;"),
        b'"' => Some("&quot;"),
        _ => None,
    }
}
