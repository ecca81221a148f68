//! HTML as it is being written.

ghost use Rattle.std.specs.Prelude.{◌≡◌, ◌+◌, ◌≤◌, [], ◌∷◌, ◌++◌, IfOk, IsTrue, OnOk, codes, length, take, string_bytes};
ghost use Rattle.typst_highlight.specs.Html as spec;

use crate::entities::{FEW, entity, has_entity, is_itself, is_plain};
use crate::tags::Tag;
use std::alloc::{AllocError, Global};
use std::marker::Model;
use std::str;

/// How long a page is.
const PAGE: usize = 2048;

/// How much of a page is left where a short text with its span is written.
const ROOM: usize = 128;

/// How long a short text is at most.
const SHORT: usize = 64;

/// What is written, and the page after it, to which short pieces are added without taking memory.
#[derive(Drop)]
pub struct Writer {
    done: String,
    page: [u8; 2048],
    len: usize,
}

impl Model for Writer {
    ghost use Rattle.std.specs.Prelude.{List, ℕ, ◌≤◌, ◌++◌, take, string_bytes};
    ghost use Rattle.std.specs.Str.{IsUtf8};

    ghost Value = { List ℕ };

    ghost view = { λ w. string_bytes w.done ++ take w.len w.page };

    ghost invariant = { λ w. (w.len ≤ 2048) × IsUtf8 (take w.len w.page) };
}

impl Writer {
    /// Nothing is written yet, and there is room for so many bytes.
    pub fn with_capacity(alloc: Global, capacity: usize) -> Result<Writer, AllocError>
        ensures { IfOk result (λ w. w ≡ []) }
    {
        Ok(Writer {
            done: String::with_capacity(alloc, capacity)?,
            page: [0; 2048],
            len: 0,
        })
    }

    /// All that is written.
    pub fn finish(self) -> Result<String, AllocError>
        ensures { IfOk result (λ html. string_bytes html ≡ self) }
    {
        let mut html = self.done;
        let page = &self.page[..self.len];
        html.push_str(unsafe { str::from_utf8_unchecked(page) })?;
        Ok(html)
    }

    /// Begins a new page.
    #[inline(never)]
    fn turn(&mut self) -> Result<(), AllocError>
        ensures { OnOk result (self.new ≡ self.old) }
    {
        let page = &self.page[..self.len];
        self.done
            .push_str(unsafe { str::from_utf8_unchecked(page) })?;
        self.len = 0;
        Ok(())
    }

    /// Writes a text as it is.
    pub fn push(&mut self, text: &str) -> Result<(), AllocError>
        ensures { OnOk result (self.new ≡ self.old ++ text.now) }
    {
        if text.len() > PAGE - self.len {
            return self.push_behind(text);
        }
        self.len = put(&mut self.page, self.len, text);
        Ok(())
    }

    /// Writes a text for which the page has no room.
    #[inline(never)]
    fn push_behind(&mut self, text: &str) -> Result<(), AllocError>
        ensures { OnOk result (self.new ≡ self.old ++ text.now) }
    {
        let page = &self.page[..self.len];
        self.done
            .push_str(unsafe { str::from_utf8_unchecked(page) })?;
        self.len = 0;
        self.done.push_str(text)?;
        Ok(())
    }

    /// Writes a text in the span of a tag, with an entity for each of `& < > ' "`.
    #[inline(always)]
    pub fn write(&mut self, tag: Option<Tag>, text: &str) -> Result<(), AllocError>
        ensures { OnOk result (self.new ≡ self.old ++ (spec.span_start tag ++ (spec.escaped text.now ++ spec.span_end tag))) }
    {
        match text.as_bytes() {
            [byte] if self.len <= PAGE - ROOM && is_itself(*byte) => {
                self.len = put_byte(&mut self.page, self.len, tag, *byte);
                Ok(())
            }
            _ => self.write_text(tag, text),
        }
    }

    /// Writes the text of a node with children, which is empty where the parser made the node.
    #[inline(always)]
    pub fn write_own(&mut self, text: &str) -> Result<(), AllocError>
        ensures { OnOk result (self.new ≡ self.old ++ spec.escaped text.now) }
    {
        if text.is_empty() {
            return Ok(());
        }
        self.write_escaped(text)
    }

    /// Writes a text of any length in the span of a tag.
    #[inline(never)]
    fn write_text(&mut self, tag: Option<Tag>, text: &str) -> Result<(), AllocError>
        ensures { OnOk result (self.new ≡ self.old ++ (spec.span_start tag ++ (spec.escaped text.now ++ spec.span_end tag))) }
    {
        if self.len > PAGE - ROOM {
            return self.write_parts(tag, text);
        }
        if tag.is_none() && text.len() <= FEW {
            if !put_few(&mut self.page, self.len, text.as_bytes()) {
                return self.write_parts(tag, text);
            }
            self.len += text.len();
            return Ok(());
        }
        if text.len() > SHORT || !is_plain(text.as_bytes()) {
            return self.write_parts(tag, text);
        }
        self.len = put_span(&mut self.page, self.len, tag, text);
        Ok(())
    }

    /// Writes a text in the span of a tag piece by piece.
    #[inline(never)]
    fn write_parts(&mut self, tag: Option<Tag>, text: &str) -> Result<(), AllocError>
        ensures { OnOk result (self.new ≡ self.old ++ (spec.span_start tag ++ (spec.escaped text.now ++ spec.span_end tag))) }
    {
        if self.len > PAGE - ROOM {
            self.turn()?;
        }
        self.start(tag)?;
        self.write_escaped(text)?;
        self.end(tag)?;
        Ok(())
    }

    /// Writes a text with an entity for each of `& < > ' "`.
    #[inline(never)]
    fn write_escaped(&mut self, text: &str) -> Result<(), AllocError>
        ensures { OnOk result (self.new ≡ self.old ++ spec.escaped text.now) }
    {
        if is_plain(text.as_bytes()) {
            self.push(text)
        } else {
            self.write_entities(text)
        }
    }

    /// Writes the beginning of the span of a tag.
    pub fn start(&mut self, tag: Option<Tag>) -> Result<(), AllocError>
        ensures { OnOk result (self.new ≡ self.old ++ spec.span_start tag) }
    {
        if let Some(tag) = tag {
            self.push(tag.opening())?;
        }
        Ok(())
    }

    /// Writes the end of the span of a tag.
    pub fn end(&mut self, tag: Option<Tag>) -> Result<(), AllocError>
        ensures { OnOk result (self.new ≡ self.old ++ spec.span_end tag) }
    {
        if tag.is_some() {
            self.push("</span>")?;
        }
        Ok(())
    }

    /// Writes a text with an entity for each of `& < > ' "`, and what stands between them whole.
    fn write_entities(&mut self, text: &str) -> Result<(), AllocError>
        ensures { OnOk result (self.new ≡ self.old ++ spec.escaped text.now) }
    {
        let bytes = text.as_bytes();
        let mut done = 0;
        for at in 0..bytes.len() {
            if let Some(entity) = entity(bytes[at]) {
                self.push(&text[done..at])?;
                self.push(entity)?;
                done = at + 1;
            }
        }
        self.push(&text[done..])?;
        Ok(())
    }
}

/// Puts a text on a page from `at` on, and answers where it ends.
#[inline(always)]
fn put(page: &mut [u8; 2048], at: usize, text: &str) -> usize
    requires { at + length text.now ≤ 2048 }
    ensures end { result ≡ at + length text.now }
    ensures written { take result page.new ≡ take at page.old ++ text.now }
{
    let end = at + text.len();
    page[at..end].copy_from_slice(text.as_bytes());
    end
}

/// Puts the beginning of a span on a page from `at` on, and answers where it ends.
#[inline(always)]
fn put_opening(page: &mut [u8; 2048], at: usize, tag: Tag) -> usize
    requires { at + 32 ≤ 2048 }
    ensures end { result ≤ at + 32 }
    ensures from { at ≤ result }
    ensures written { take result page.new ≡ take at page.old ++ spec.opening tag }
{
    let (block, len) = tag.opening_block();
    put(page, at, block);
    at + len
}

/// Puts a byte in the span of a tag on a page from `at` on, and answers where it ends.
#[inline(always)]
fn put_byte(page: &mut [u8; 2048], at: usize, tag: Option<Tag>, byte: u8) -> usize
    requires { at + 64 ≤ 2048 }
    ensures end { result ≤ at + 64 }
    ensures written { take result page.new ≡ take at page.old ++ (spec.span_start tag ++ (byte ∷ spec.span_end tag)) }
{
    match tag {
        None => {
            page[at] = byte;
            at + 1
        }
        Some(tag) => {
            let start = put_opening(page, at, tag);
            page[start] = byte;
            put(page, start + 1, "</span>")
        }
    }
}

/// Puts few bytes on a page from `at` on, and answers whether none has an entity. Where one has, what
/// then stands after `at` means nothing.
#[inline(always)]
fn put_few(page: &mut [u8; 2048], at: usize, bytes: &[u8]) -> bool
    requires { at + length bytes.now ≤ 2048 }
    ensures kept { take at page.new ≡ take at page.old }
    ensures written { IsTrue result → take (at + length bytes.now) page.new ≡ take at page.old ++ bytes.now }
    ensures plain { IsTrue result → spec.escaped bytes.now ≡ bytes.now }
{
    for index in 0..bytes.len() {
        let byte = bytes[index];
        if has_entity(byte) {
            return false;
        }
        page[at + index] = byte;
    }
    true
}

/// Puts a text in the span of a tag on a page from `at` on, and answers where it ends.
#[inline(always)]
fn put_span(page: &mut [u8; 2048], at: usize, tag: Option<Tag>, text: &str) -> usize
    requires { at + length text.now + 64 ≤ 2048 }
    ensures end { result ≤ at + length text.now + 64 }
    ensures written { take result page.new ≡ take at page.old ++ (spec.span_start tag ++ (text.now ++ spec.span_end tag)) }
{
    match tag {
        None => put(page, at, text),
        Some(tag) => {
            let start = put_opening(page, at, tag);
            let end = put(page, start, text);
            put(page, end, "</span>")
        }
    }
}
