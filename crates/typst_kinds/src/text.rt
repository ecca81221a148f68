ghost use Rattle.std.specs.Prelude.{◌≡◌, ◌≤◌, ◌<◌, ◌^◌, [], ◌++◌, ◌↔◌, IfOk, OnOk, OnErr, IsTrue, MatchOption, length, take, string_bytes};

use std::alloc::{AllocError, Global};
use std::marker::Model;
use std::str;

/// A text that contracts see as its bytes.
#[derive(Drop)]
pub struct Text {
    text: String,
}

impl Model for Text {
    ghost use Rattle.std.specs.Prelude.{List, ℕ, string_bytes};

    ghost Value = { List ℕ };

    ghost view = { λ t. string_bytes t.text };
}

impl Text {
    /// The empty text, for which no memory is taken.
    pub fn empty(alloc: Global) -> Text
        ensures { result ≡ [] }
    {
        Text {
            text: String::new(alloc),
        }
    }

    /// The text of a string, which is moved.
    pub fn from_string(text: String) -> Text
        ensures { result ≡ string_bytes text }
    {
        Text { text }
    }

    /// A copy of `text`.
    pub fn new(alloc: Global, text: &str) -> Result<Text, AllocError>
        ensures { IfOk result (λ t. t ≡ text.now) }
    {
        Ok(Text {
            text: String::from_str(alloc, text)?,
        })
    }

    /// A text of the same bytes.
    pub fn try_clone(&self, alloc: Global) -> Result<Text, AllocError>
        ensures { IfOk result (λ t. t ≡ self.now) }
    {
        Text::new(alloc, self.as_str())
    }

    /// Adds `more` at the end.
    pub fn push(&mut self, more: &str) -> Result<(), AllocError>
        ensures ok { OnOk result (self.new ≡ self.old ++ more.now) }
        ensures err { OnErr result (self.new ≡ self.old) }
    {
        self.text.push_str(more)?;
        Ok(())
    }

    /// Whether the bytes are the same.
    pub fn same(&self, other: &Text) -> bool
        ensures { IsTrue result ↔ (self.now ≡ other.now) }
    {
        self.as_str() == other.as_str()
    }

    /// The text.
    pub fn as_str(&self) -> &str
        ensures { result.now ≡ self.now }
    {
        self.text.as_str()
    }

    /// The length in bytes.
    pub fn len(&self) -> usize
        ensures { result ≡ length self.now }
    {
        self.text.len()
    }
}

/// A text of at most `N` bytes, which it holds in place.
#[derive(Drop)]
pub struct ShortText<const N: usize> {
    len: u16,
    bytes: [u8; N],
}

impl<const N: usize> Model for ShortText<N> {
    ghost use Rattle.std.specs.Prelude.{List, ℕ, ◌≤◌, take};
    ghost use Rattle.std.specs.Str.{IsUtf8};

    ghost Value = { List ℕ };

    ghost view = { λ t. take t.len t.bytes };

    ghost invariant = { λ t. (t.len ≤ N) × IsUtf8 (take t.len t.bytes) };
}

impl ShortText<12> {
    /// A copy of `text`, or `None` if it is longer than 12 bytes. A text of one byte takes no loop.
    #[inline(always)]
    pub fn new(text: &str) -> Option<ShortText<12>>
        ensures { MatchOption result (12 < length text.now) (λ t. t ≡ text.now) }
    {
        if let [byte] = text.as_bytes() {
            return Some(ShortText {
                len: 1,
                bytes: [*byte, 0, 0, 0, 0, 0, 0, 0, 0, 0, 0, 0],
            });
        }
        if text.len() > 12 {
            return None;
        }
        let mut short = ShortText::empty();
        short.set(text);
        Some(short)
    }

    /// A copy of `text`, which `rest` begins with, or `None` if it is longer than 12 bytes. If `rest` has twelve
    /// bytes all of them are copied, whatever the text's length is, which takes no loop.
    #[inline(always)]
    pub fn front(text: &str, rest: &str) -> Option<ShortText<12>>
        requires { take (length text.now) rest.now ≡ text.now }
        ensures { MatchOption result (12 < length text.now) (λ t. t ≡ text.now) }
    {
        let len = text.len();
        if len > 12 {
            return None;
        }
        let from = rest.as_bytes();
        if from.len() < 12 {
            return Some(ShortText::apart(text));
        }
        let mut bytes = [0u8; 12];
        bytes.copy_from_slice(&from[..12]);
        Some(ShortText {
            len: len as u16,
            bytes,
        })
    }

    /// A copy of `text`, which has at most 12 bytes.
    #[inline(never)]
    fn apart(text: &str) -> ShortText<12>
        requires { length text.now ≤ 12 }
        ensures { result ≡ text.now }
    {
        let mut short = ShortText::empty();
        short.set(text);
        short
    }
}

impl<const N: usize> ShortText<N> {
    /// The empty text.
    #[inline(always)]
    pub fn empty() -> ShortText<N>
        ensures { result ≡ [] }
    {
        ShortText {
            len: 0,
            bytes: [0; N],
        }
    }

    /// Becomes a copy of `text`.
    #[inline(always)]
    pub fn set(&mut self, text: &str)
        requires short { length text.now ≤ N }
        requires few { N < 2 ^ 16 }
        ensures { self.new ≡ text.now }
    {
        let bytes = text.as_bytes();
        self.bytes[..bytes.len()].copy_from_slice(bytes);
        self.len = bytes.len() as u16;
    }

    /// A copy of the text.
    pub fn copy(&self) -> ShortText<N>
        ensures { result ≡ self.now }
    {
        ShortText {
            len: self.len,
            bytes: self.bytes,
        }
    }

    /// The text.
    pub fn as_str(&self) -> &str
        ensures { result.now ≡ self.now }
    {
        let bytes = &self.bytes[..self.len as usize];
        unsafe { str::from_utf8_unchecked(bytes) }
    }

    /// The length in bytes.
    pub fn len(&self) -> usize
        ensures value { result ≡ length self.now }
        ensures short { result ≤ N }
    {
        self.len as usize
    }
}
