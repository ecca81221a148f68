/// Why a source file or a tree can't be made or edited.
#[derive(Debug, Clone, Copy, PartialEq, Eq)]
pub enum SourceError {
    /// A request for memory was refused.
    OutOfMemory,
    /// There are fewer span numbers than nodes that need one.
    SpanNumbers,
}
