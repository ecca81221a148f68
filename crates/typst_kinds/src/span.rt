ghost use Rattle.std.specs.Prelude.{◌≡◌, ◌≤◌, ◌<◌, ◌^◌, None, Some};
ghost use Rattle.std.specs.Option.{SomeIff, option_map};
ghost use Rattle.typst_kinds.specs.Span.{IsFile, IsSpanNumber, number_of};

use std::marker::Model;

/// The number of a file, from 1 to 65535.
#[derive(Debug, Clone, Copy, PartialEq, Eq)]
pub struct FileId {
    id: u16,
}

impl Model for FileId {
    ghost use Rattle.std.specs.Prelude.{ℕ};
    ghost use Rattle.typst_kinds.specs.Span.{IsFile};

    ghost Value = { ℕ };

    ghost view = { λ file. file.id };

    ghost invariant = { λ file. IsFile file.id };

    ghost inverse = { λ n. record { id = n } };
}

impl FileId {
    /// The file with this number, or `None` for 0.
    pub fn new(id: u16) -> Option<FileId>
        ensures { SomeIff result (IsFile id) id }
    {
        if id == 0 { None } else { Some(FileId { id }) }
    }

    /// The file's number.
    pub fn get(self) -> u16
        ensures number { result ≡ self }
        ensures within { IsFile result }
    {
        self.id
    }
}

/// The number of a node within its file, from 2 to 2^47 - 1.
#[derive(Debug, Clone, Copy, PartialEq, Eq)]
pub struct SpanNumber {
    value: u64,
}

impl Model for SpanNumber {
    ghost use Rattle.std.specs.Prelude.{ℕ};
    ghost use Rattle.typst_kinds.specs.Span.{IsSpanNumber};

    ghost Value = { ℕ };

    ghost view = { λ number. number.value };

    ghost invariant = { λ number. IsSpanNumber number.value };

    ghost inverse = { λ n. record { value = n } };
}

impl SpanNumber {
    /// This number, or `None` if no node may have it.
    pub fn new(value: u64) -> Option<SpanNumber>
        ensures { SomeIff result (IsSpanNumber value) value }
    {
        if value < 2 || value >= 1 << 47 {
            None
        } else {
            Some(SpanNumber { value })
        }
    }

    /// The number itself.
    pub fn get(self) -> u64
        ensures number { result ≡ self }
        ensures within { IsSpanNumber result }
    {
        self.value
    }
}

/// What names a node: a file and the node's number in it, or neither ("detached").
///
/// Contracts see an `Option` of the pair. It takes 8 bytes.
#[derive(Debug, Clone, Copy, PartialEq, Eq)]
pub struct Span {
    bits: u64,
}

impl Model for Span {
    ghost use Rattle.std.proofs.Common.{ap};
    ghost use Rattle.typst_kinds.specs.Span.{SpanValue, packed, unpacked, IsPacked, packed-unpacked};

    ghost Value = { SpanValue };

    ghost view = { λ span. unpacked span.bits };

    ghost invariant = { λ span. IsPacked span.bits };

    ghost inverse = { λ place. record { bits = packed place } };

    ghost inverse_ok = { λ a h. ap (λ n. record { bits = n }) (packed-unpacked a.bits) };
}

impl Span {
    /// How many bits of a span the node's number takes.
    const NUMBER_BITS: u32 = 48;

    /// The span without file and number.
    pub fn detached() -> Span
        ensures { result ≡ None }
    {
        Span { bits: 0 }
    }

    /// The span of a node of a file.
    pub fn new(id: FileId, number: SpanNumber) -> Span
        ensures { result ≡ Some (id, number) }
    {
        let (file, node) = (u64::from(id.get()), number.get());
        Span {
            bits: (file << Span::NUMBER_BITS) + node,
        }
    }

    /// The file, or `None` if the span is detached.
    pub fn id(self) -> Option<FileId>
        ensures { result ≡ option_map (λ place. place.0) self }
    {
        match self.get() {
            None => None,
            Some((id, _)) => Some(id),
        }
    }

    /// The node's number, or `None` if the span is detached.
    pub fn number(self) -> Option<SpanNumber>
        ensures { result ≡ option_map (λ place. place.1) self }
    {
        match self.get() {
            None => None,
            Some((_, number)) => Some(number),
        }
    }

    /// The node's number, or 0 where the span is detached: detached nodes come first in an order of
    /// numbers.
    pub fn number_or_zero(self) -> u64
        ensures value { result ≡ number_of self }
        ensures small { result < 2 ^ 47 }
    {
        match self.number() {
            None => 0,
            Some(number) => number.get(),
        }
    }

    /// The file and the node's number, or `None` if the span is detached.
    pub fn get(self) -> Option<(FileId, SpanNumber)>
        ensures { result ≡ self }
    {
        if self.bits == 0 {
            return None;
        }
        let file = FileId {
            id: (self.bits >> Span::NUMBER_BITS) as u16,
        };
        let number = SpanNumber {
            value: self.bits % (1 << Span::NUMBER_BITS),
        };
        Some((file, number))
    }
}

/// A range of bytes within a node, whose start doesn't pass its end.
#[derive(Debug, Clone, Copy, PartialEq, Eq)]
pub struct SubRange {
    from: usize,
    to: usize,
}

impl Model for SubRange {
    ghost use Rattle.std.specs.Prelude.{◌≤◌};
    ghost use Rattle.typst_kinds.specs.Span.{Bytes};

    ghost Value = { Bytes };

    ghost view = { λ range. record { start = range.from; end = range.to } };

    ghost invariant = { λ range. range.from ≤ range.to };

    ghost inverse = { λ bytes. record { from = bytes.start; to = bytes.end } };
}

impl SubRange {
    /// The range from `start` up to `end`, or `None` if `start` passes `end`.
    pub fn new(start: usize, end: usize) -> Option<SubRange>
        ensures { SomeIff result (start ≤ end) (record { start = start; end = end }) }
    {
        if start <= end {
            Some(SubRange {
                from: start,
                to: end,
            })
        } else {
            None
        }
    }

    /// Where the range begins.
    pub fn start(self) -> usize
        ensures { result ≡ self.start }
    {
        self.from
    }

    /// Where the range ends.
    pub fn end(self) -> usize
        ensures { result ≡ self.end }
    {
        self.to
    }
}
