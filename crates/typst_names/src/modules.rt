//! The names of modules in the texts of imports.

ghost use Rattle.std.specs.Prelude.{◌≡◌, ◌<◌, IfSome, drop, length, slice_range};
ghost use Rattle.typst_names.specs.Modules as spec;

use std::ops::Range;

/// Where a text in quotes has the name that a bare import of it binds: that of its file without the extension, or of
/// its package before the version. There is none in a text with an escape, and where what stands there is no
/// identifier; any character past ASCII counts as one of an identifier.
pub(crate) fn name_in(text: &str) -> Option<Range<usize>>
    ensures { result ≡ spec.name_in text.now }
{
    let text = text.as_bytes();
    if last_from(b'\\', text, 0).is_some() {
        return None;
    }
    let start = start_in(text);
    if_identifier(text, start, end_in(text, start)?)
}

/// Where the name begins: after the last slash, or else after the quote.
fn start_in(text: &[u8]) -> usize
    ensures { result ≡ spec.start_in text.now }
{
    match last_from(b'/', text, 0) {
        Some(slash) => slash + 1,
        None => 1,
    }
}

/// Where the name ends that begins at a place: before the extension or the quote, or before a package's version.
fn end_in(text: &[u8], start: usize) -> Option<usize>
    ensures { result ≡ spec.end_in text.now start }
{
    if is_package(text) {
        return last_from(b':', text, start);
    }
    match last_from(b'.', text, start) {
        Some(dot) => Some(dot),
        None => Some(text.len().saturating_sub(1)),
    }
}

/// Whether a text in quotes is that of a package.
fn is_package(text: &[u8]) -> bool
    ensures { result ≡ spec.is_package text.now }
{
    match text {
        [_, first, ..] => *first == b'@',
        _ => false,
    }
}

/// The last place of a byte in a text, from a place on.
fn last_from(mark: u8, text: &[u8], from: usize) -> Option<usize>
    ensures last { result ≡ spec.last_from mark from text.now }
    ensures within { IfSome result (λ place. place < length text.now) }
{
    let mut last = None;
    for place in from..text.len() {
        if text[place] == mark {
            last = Some(place);
        }
    }
    last
}

/// A stretch of a text, if it is an identifier.
fn if_identifier(text: &[u8], start: usize, end: usize) -> Option<Range<usize>>
    ensures { result ≡ spec.if_identifier text.now start end }
{
    if is_identifier(stretch_of(text, start, end)) {
        Some(start..end)
    } else {
        None
    }
}

/// The bytes of a stretch, as far as a text has them.
pub(crate) fn stretch_of(text: &[u8], start: usize, end: usize) -> &[u8]
    ensures { result.now ≡ slice_range text.now start end }
{
    let end = end.min(text.len());
    let start = start.min(end);
    &text[start..end]
}

/// Whether bytes are an identifier.
fn is_identifier(word: &[u8]) -> bool
    ensures { result ≡ spec.is_identifier word.now }
{
    match word {
        [first, rest @ ..] => begins(*first) && all_go_on(rest),
        [] => false,
    }
}

/// Whether an identifier may go on with some bytes.
fn all_go_on(rest: &[u8]) -> bool
    ensures { result ≡ spec.all_go_on rest.now }
{
    for byte in rest {
        if !goes_on(*byte) {
            return false;
        }
    }
    true
}

/// Whether an identifier may begin with a byte.
fn begins(byte: u8) -> bool
    ensures { result ≡ spec.begins byte }
{
    byte.is_ascii_alphabetic() || byte == b'_' || !byte.is_ascii()
}

/// Whether an identifier may go on with a byte.
fn goes_on(byte: u8) -> bool
    ensures { result ≡ spec.goes_on byte }
{
    begins(byte) || byte.is_ascii_digit() || byte == b'-'
}
