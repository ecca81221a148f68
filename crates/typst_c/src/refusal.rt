//! Why a call is refused, and the codes that C sees.

ghost use Rattle.std.specs.Prelude.{◌≡◌, ◌<◌};
ghost use Rattle.typst_c.specs.Refusals as spec;

use std::alloc::AllocError;

/// Why a call is refused. Nothing has changed then.
#[derive(Debug, Clone, Copy, PartialEq, Eq)]
pub enum Refusal {
    /// A request for memory was refused.
    NoMemory,
    /// A text isn't UTF-8.
    NotUtf8,
    /// A range isn't one of the text, or an end of it lies within a character.
    BadRange,
    /// An argument is none of those that there are.
    BadArgument,
    /// There are fewer span numbers than nodes.
    SpanNumbers,
    /// The text, or the tree, is too large for records.
    TooLarge,
}

/// The code of a call that was made.
pub const OK: u32 = 0;

/// The code of a refusal.
pub fn code_of(refusal: Refusal) -> u32
    ensures code { result ≡ spec.code_of refusal }
    ensures refused { 0 < result }
    ensures known { spec.IsCode result }
{
    match refusal {
        Refusal::NoMemory => 1,
        Refusal::NotUtf8 => 2,
        Refusal::BadRange => 3,
        Refusal::BadArgument => 4,
        Refusal::SpanNumbers => 5,
        Refusal::TooLarge => 6,
    }
}

/// Lack of memory.
pub fn no_memory(_error: AllocError) -> Refusal
    ensures { result ≡ spec.no_memory }
{
    Refusal::NoMemory
}
