//! The lines of a frame's head.
ghost use Rattle.std.specs.Prelude.{◌≡◌, ◌==◌, option_map, position, reverse};
ghost use Rattle.typst_protocol.specs.Header as spec;

/// What a header line makes of the length that the lines before it gave, if one did; `None` where the line
/// is malformed, or gives another length.
pub(crate) fn length_after(line: &[u8], before: Option<usize>) -> Option<Option<usize>>
    ensures { result ≡ spec.length_after line.now before }
{
    let (name, value) = at_colon(line)?;
    if !name.eq_ignore_ascii_case(b"content-length") {
        return Some(before);
    }
    agreed(before, number(trimmed(value))?)
}

/// What stands before the first colon, and what after it.
fn at_colon(line: &[u8]) -> Option<(&[u8], &[u8])>
    ensures { option_map (λ parts. (parts.0.now, parts.1.now)) result ≡ spec.at_colon line.now }
{
    let colon = colon(line)?;
    Some((&line[..colon], &line[colon + 1..]))
}

fn colon(line: &[u8]) -> Option<usize>
    ensures { result ≡ position (λ c. c == 58) line.now }
{
    line.iter().position(|c| *c == b':')
}

/// A length, which may have been given before, if no other one was.
fn agreed(before: Option<usize>, length: usize) -> Option<Option<usize>>
    ensures { result ≡ spec.agreed before length }
{
    match before {
        Some(other) if other != length => None,
        _ => Some(Some(length)),
    }
}

/// A value without the spaces and tabs around it.
fn trimmed(value: &[u8]) -> &[u8]
    ensures { result.now ≡ spec.trimmed value.now }
{
    unfollowed(unled(value))
}

/// A value without the spaces and tabs before it.
fn unled(value: &[u8]) -> &[u8]
    ensures { result.now ≡ spec.unled value.now }
{
    let mut rest = value;
    while let [b' ' | b'\t', behind @ ..] = rest {
        rest = behind;
    }
    rest
}

/// A value without the spaces and tabs after it.
fn unfollowed(value: &[u8]) -> &[u8]
    ensures { result.now ≡ reverse (spec.unled (reverse value.now)) }
{
    let mut rest = value;
    while let [before @ .., b' ' | b'\t'] = rest {
        rest = before;
    }
    rest
}

/// The number that decimal digits write.
fn number(digits: &[u8]) -> Option<usize>
    ensures { result ≡ spec.number digits.now }
{
    match str::from_utf8(digits) {
        Ok(digits) => number_in(digits),
        Err(_) => None,
    }
}

/// The number that decimal digits write.
fn number_in(digits: &str) -> Option<usize>
    ensures { result ≡ spec.number digits.now }
{
    if digits.as_bytes().first() == Some(&b'+') {
        return None;
    }
    match digits.parse() {
        Ok(number) => Some(number),
        Err(_) => None,
    }
}
