//! Where the pieces of runs begin.

ghost use Rattle.std.specs.Prelude.{◌≡◌};
ghost use Rattle.std.specs.List.Sorted.{IsNonDecreasing};

/// The bytes of a text from one to another, both among them.
#[derive(Debug, Clone, Copy, PartialEq, Eq)]
pub struct Window {
    pub from: usize,
    pub to: usize,
}

/// Where the pieces of a run begin within a window, in bytes, except the run's first. At the last of these bytes
/// the run ends.
#[derive(Drop)]
pub struct Cuts {
    pub(crate) starts: Vec<usize>,
    pub window: Window,
    ghost rise: { IsNonDecreasing starts.items },
}

impl Cuts {
    ghost use Rattle.typst_candidates.specs.Candidates.{is_among};
    ghost use Rattle.typst_candidates.specs.Edges.{bytes_of};

    /// Whether a piece that isn't the run's first begins at the byte, which is one of the window's. A binary
    /// search, since each child near an edit asks.
    pub fn has(&self, byte: usize) -> bool
        ensures { result ≡ is_among byte (bytes_of self.now) }
    {
        self.starts.binary_search(&byte).is_ok()
    }
}
