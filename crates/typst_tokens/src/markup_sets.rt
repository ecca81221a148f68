//! What is text in any case.
ghost use Rattle.std.specs.Prelude.{◌≡◌, not, codes};
ghost use Rattle.typst_tokens.specs.Flow.{flows_in_ascii};
ghost use Rattle.typst_tokens.specs.Text.{may_stop};
ghost use Rattle.typst_tokens.specs.Pairs.{bytes_pass};
ghost use Rattle.typst_lines.specs.Sets.{among};

/// What each byte is in a text, in bits: 1 for what is text in any case, 2 for a space, 4 for an `h`. Bytes past
/// ASCII are none of these.
const ROLES: [u8; 256] = [
    1, 1, 1, 1, 1, 1, 1, 1, 1, 0, 0, 0, 0, 0, 1, 1, 1, 1, 1, 1, 1, 1, 1, 1, 1, 1, 1, 1, 1, 1, 1, 1,
    2, 1, 0, 0, 0, 1, 1, 0, 1, 1, 0, 1, 1, 0, 0, 0, 1, 1, 1, 1, 1, 1, 1, 1, 1, 1, 0, 1, 0, 1, 0, 1,
    0, 1, 1, 1, 1, 1, 1, 1, 1, 1, 1, 1, 1, 1, 1, 1, 1, 1, 1, 1, 1, 1, 1, 1, 1, 1, 1, 0, 0, 0, 1, 0,
    0, 1, 1, 1, 1, 1, 1, 1, 4, 1, 1, 1, 1, 1, 1, 1, 1, 1, 1, 1, 1, 1, 1, 1, 1, 1, 1, 1, 1, 1, 0, 1,
    0, 0, 0, 0, 0, 0, 0, 0, 0, 0, 0, 0, 0, 0, 0, 0, 0, 0, 0, 0, 0, 0, 0, 0, 0, 0, 0, 0, 0, 0, 0, 0,
    0, 0, 0, 0, 0, 0, 0, 0, 0, 0, 0, 0, 0, 0, 0, 0, 0, 0, 0, 0, 0, 0, 0, 0, 0, 0, 0, 0, 0, 0, 0, 0,
    0, 0, 0, 0, 0, 0, 0, 0, 0, 0, 0, 0, 0, 0, 0, 0, 0, 0, 0, 0, 0, 0, 0, 0, 0, 0, 0, 0, 0, 0, 0, 0,
    0, 0, 0, 0, 0, 0, 0, 0, 0, 0, 0, 0, 0, 0, 0, 0, 0, 0, 0, 0, 0, 0, 0, 0, 0, 0, 0, 0, 0, 0, 0, 0,
];

/// What is text before each byte, in the bits of `ROLES`: a space before a letter or a digit, an `h` before all
/// but a `t`.
const FOLLOWED: [u8; 256] = [
    5, 5, 5, 5, 5, 5, 5, 5, 5, 5, 5, 5, 5, 5, 5, 5, 5, 5, 5, 5, 5, 5, 5, 5, 5, 5, 5, 5, 5, 5, 5, 5,
    5, 5, 5, 5, 5, 5, 5, 5, 5, 5, 5, 5, 5, 5, 5, 5, 7, 7, 7, 7, 7, 7, 7, 7, 7, 7, 5, 5, 5, 5, 5, 5,
    5, 7, 7, 7, 7, 7, 7, 7, 7, 7, 7, 7, 7, 7, 7, 7, 7, 7, 7, 7, 7, 7, 7, 7, 7, 7, 7, 5, 5, 5, 5, 5,
    5, 7, 7, 7, 7, 7, 7, 7, 7, 7, 7, 7, 7, 7, 7, 7, 7, 7, 7, 7, 3, 7, 7, 7, 7, 7, 7, 5, 5, 5, 5, 5,
    0, 0, 0, 0, 0, 0, 0, 0, 0, 0, 0, 0, 0, 0, 0, 0, 0, 0, 0, 0, 0, 0, 0, 0, 0, 0, 0, 0, 0, 0, 0, 0,
    0, 0, 0, 0, 0, 0, 0, 0, 0, 0, 0, 0, 0, 0, 0, 0, 0, 0, 0, 0, 0, 0, 0, 0, 0, 0, 0, 0, 0, 0, 0, 0,
    0, 0, 0, 0, 0, 0, 0, 0, 0, 0, 0, 0, 0, 0, 0, 0, 0, 0, 0, 0, 0, 0, 0, 0, 0, 0, 0, 0, 0, 0, 0, 0,
    0, 0, 0, 0, 0, 0, 0, 0, 0, 0, 0, 0, 0, 0, 0, 0, 0, 0, 0, 0, 0, 0, 0, 0, 0, 0, 0, 0, 0, 0, 0, 0,
];

/// Whether both bytes are of ASCII, and the first is text in any case or before the second.
#[inline(always)]
pub(crate) fn passes_before(c: u8, next: u8) -> bool
    ensures { result ≡ bytes_pass flows_in_ascii c next }
{
    ROLES[c as usize] & FOLLOWED[next as usize] != 0
}

/// Whether the character is text in any case.
#[inline]
pub(crate) fn is_plain(c: char) -> bool
    ensures { result ≡ not (may_stop c) }
{
    if c.is_ascii() {
        ROLES[c as usize] & 1 != 0
    } else {
        !may_stop(c)
    }
}

/// Whether another token may begin with the character.
#[inline]
pub(crate) fn may_stop(c: char) -> bool
    ensures { result ≡ may_stop c }
{
    c.is_whitespace() | is_bracket(c) | is_punctuation(c) | is_sign(c)
}

#[inline]
fn is_bracket(c: char) -> bool
    ensures { result ≡ among (codes "\\/[]~<>") c }
{
    (c == '\\') | (c == '/') | (c == '[') | (c == ']') | (c == '~') | (c == '<') | (c == '>')
}

#[inline]
fn is_punctuation(c: char) -> bool
    ensures { result ≡ among (codes "-.'\":`") c }
{
    (c == '-') | (c == '.') | (c == '\'') | (c == '"') | (c == ':') | (c == '`')
}

#[inline]
fn is_sign(c: char) -> bool
    ensures { result ≡ among (codes "*_h$@#") c }
{
    (c == '*') | (c == '_') | (c == 'h') | (c == '$') | (c == '@') | (c == '#')
}
