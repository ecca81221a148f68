//! The words of a program.

use std::alloc::{AllocError, Global};

/// What can be asked about a text.
pub trait RowWord: Copy + Drop {
    /// The word of that name.
    fn from_name(name: &str) -> Option<Self>;

    /// The whole answer about a text.
    fn answer(self, alloc: Global, text: &str) -> Result<String, AllocError>;
}
