//! What a handle stands for.

ghost use Rattle.std.specs.Prelude.{◌≡◌};

use typst_parser::{Source, UnicodeClasses};

/// What C holds: a source.
#[derive(Drop)]
pub struct Kept {
    pub source: Source<UnicodeClasses>,
}

/// A value as it is, of a type whose values may move between threads.
pub fn movable<T: Send>(value: T) -> T
    ensures { result ≡ value }
{
    value
}
