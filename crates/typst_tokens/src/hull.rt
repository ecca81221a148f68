//! How far is looked in a text.

/// The bytes from the first to the last place that were looked at. Before the text's first and
/// after its last character is a mark, each as long as a byte.
#[derive(Debug, Clone, Copy, PartialEq, Eq)]
pub struct Hull {
    /// Where the hull ends, in bytes from the text's start.
    pub reach: usize,
    /// Where the hull begins, in bytes from the mark before the text.
    pub least: usize,
}
