//! Places in a document, each reached from the one before it.
ghost use Rattle.std.specs.Prelude.{◌≡◌, ◌≤◌, IfSome, false, length};
ghost use Rattle.std.specs.Str.{chars};
ghost use Rattle.typst_positions.specs.Columns.{width};
ghost use Rattle.typst_positions.specs.Starts as starts;
ghost use Rattle.typst_document.specs.Places.{IsOneLine, IsPlaceOf, IsWay, wide};

use crate::document::Document;
use std::marker::Model;
use std::ops::Range;
use typst_positions::Encoding;
use typst_protocol::values::{Extent, Place};

/// A byte of a document, with its place. It goes to another byte of the same line by what stands between the
/// two: if each column were counted from the start of its line, many places in a long line would take time by
/// the square of its length.
#[derive(Drop)]
pub struct Walk<'a> {
    document: &'a Document,
    byte: usize,
    place: Place,
}

impl<'a> Model for Walk<'a> {
    ghost use Rattle.typst_document.specs.Document.{Opened, opened_code};
    ghost use Rattle.typst_document.specs.Places.{IsPlaceOf};

    ghost Value = { Opened };

    ghost coded = { opened_code };

    ghost view = { λ walk. walk.document.now };

    ghost invariant = { λ walk. IsPlaceOf walk.document.now walk.byte walk.place };
}

impl<'a> Walk<'a> {
    /// At the start of a document.
    pub fn new(document: &'a Document) -> Walk<'a>
        ensures { result ≡ document.now }
    {
        Walk {
            document,
            byte: 0,
            place: document.place_of(0),
        }
    }

    /// Goes to a byte, and tells its place.
    pub fn go_to(&mut self, byte: usize) -> Place
        ensures place { IsPlaceOf self.old byte result }
        ensures document { self.new ≡ self.old }
    {
        self.place = place_from(self.document, self.byte, self.place, byte);
        self.byte = byte;
        self.place
    }
}

/// The place of a byte, from that of another one.
fn place_from(document: &Document, from: usize, place: Place, to: usize) -> Place
    requires { IsPlaceOf document.now from place }
    ensures { IsPlaceOf document.now to result }
{
    let Place { line, character } = place;
    let character = match width_between(document, from.min(to), from.max(to)) {
        Some(width) if from <= to => character.saturating_add(width),
        Some(width) => character.saturating_sub(width),
        None => return document.place_of(to),
    };
    Place { line, character }
}

/// How wide the text between two bytes is, if they are on one line, and between characters.
fn width_between(document: &Document, from: usize, to: usize) -> Option<usize>
    requires { from ≤ to }
    ensures { IfSome result (λ count. IsWay document.now.encoding document.now.source.text from to count) }
{
    let text = document.text();
    if !text.is_char_boundary(from) || !text.is_char_boundary(to) {
        return None;
    }
    let between = &text[from..to];
    if holds_end(between.as_bytes()) {
        return None;
    }
    Some(width_of(between, document.encoding()))
}

/// Whether a line ends in a text.
fn holds_end(text: &[u8]) -> bool
    ensures { result ≡ false → IsOneLine text.now 0 (length text.now) }
{
    for byte in text {
        if ends_line(*byte) {
            return true;
        }
    }
    false
}

/// Whether a byte ends a line of the protocol.
fn ends_line(byte: u8) -> bool
    ensures { result ≡ starts.is_line_end byte }
{
    byte == b'\n' || byte == b'\r'
}

/// How wide a text is in the units of an encoding.
fn width_of(text: &str, encoding: Encoding) -> usize
    ensures { result ≡ wide encoding (chars text.now) }
{
    let mut count: usize = 0;
    for c in text.chars() {
        count = count.saturating_add(unit_count(c, encoding));
    }
    count
}

/// How wide a character is.
fn unit_count(c: char, encoding: Encoding) -> usize
    ensures { result ≡ width encoding c }
{
    match encoding {
        Encoding::Utf8 => c.len_utf8(),
        Encoding::Utf16 => c.len_utf16(),
    }
}

/// The extents of stretches of a document. Those that follow one another are best asked in order.
#[derive(Drop)]
pub struct Extents<'a> {
    starts: Walk<'a>,
    ends: Walk<'a>,
}

impl<'a> Model for Extents<'a> {
    ghost use Rattle.std.specs.Prelude.{◌≡◌};
    ghost use Rattle.typst_document.specs.Document.{Opened, opened_code};

    ghost Value = { Opened };

    ghost coded = { opened_code };

    ghost view = { λ extents. extents.starts };

    ghost invariant = { λ extents. extents.ends ≡ extents.starts };
}

impl<'a> Extents<'a> {
    /// The extents of a document.
    pub fn new(document: &'a Document) -> Extents<'a>
        ensures { result ≡ document.now }
    {
        Extents {
            starts: Walk::new(document),
            ends: Walk::new(document),
        }
    }

    /// The places between which some bytes stand.
    pub fn of(&mut self, bytes: &Range<usize>) -> Extent
        ensures start { IsPlaceOf self.old bytes.now.start result.start }
        ensures end { IsPlaceOf self.old bytes.now.end result.end }
        ensures document { self.new ≡ self.old }
    {
        Extent {
            start: self.starts.go_to(bytes.start),
            end: self.ends.go_to(bytes.end),
        }
    }
}

/// Whether a character ends a line of the protocol.
pub fn is_line_end(c: char) -> bool
    ensures { result ≡ starts.is_line_end c }
{
    c == '\n' || c == '\r'
}
