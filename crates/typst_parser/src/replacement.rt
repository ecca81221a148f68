//! Which stretch of a text an edit replaces.

/// Which stretch of a text was replaced, in bytes.
#[derive(Debug, Clone, Copy)]
pub struct Replacement {
    /// Where the stretch begins.
    pub start: usize,
    /// Where the stretch ended.
    pub old_end: usize,
    /// Where the stretch ends now.
    pub new_end: usize,
}
