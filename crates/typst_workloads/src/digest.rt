//! What is kept of results.

use typst_parser::{SyntaxKind, SyntaxNode, Tag};

/// A digest of numbers and texts in the order in which they came. What an edit reads and which numbers it
/// gives isn't taken in, since states of this library that agree in every text and tree may differ in it.
#[derive(Clone, Copy)]
pub struct Digest {
    /// What it is now.
    pub value: u64,
}

/// The digest of nothing.
const EMPTY: Digest = Digest {
    value: 0xcbf2_9ce4_8422_2325,
};

impl Digest {
    /// Takes in a number.
    pub fn add(&mut self, number: u64) {
        let mixed = (self.value ^ number).wrapping_mul(0x0000_0100_0000_01b3);
        self.value = mixed ^ (mixed >> 29);
    }

    /// Takes in a place or a length.
    pub fn add_size(&mut self, size: usize) {
        self.add(size as u64);
    }

    /// Takes in a place that may be none.
    pub fn add_place(&mut self, place: Option<usize>) {
        match place {
            None => self.add(u64::MAX),
            Some(place) => self.add_size(place),
        }
    }

    /// Takes in a line and a column that may be none.
    pub fn add_line_column(&mut self, place: Option<(usize, usize)>) {
        match place {
            None => self.add(u64::MAX),
            Some((line, column)) => {
                self.add_size(line);
                self.add_size(column);
            }
        }
    }

    /// Takes in a text's length and some of its bytes: each 61st, and those at its ends.
    pub fn add_text(&mut self, text: &str) {
        let bytes = text.as_bytes();
        self.add_size(bytes.len());
        for at in (0..bytes.len()).step_by(61) {
            if let Some(byte) = bytes.get(at) {
                self.add(u64::from(*byte));
            }
        }
        if let Some(byte) = bytes.last() {
            self.add(u64::from(*byte));
        }
    }

    /// Takes in a short text as a whole.
    fn add_name(&mut self, name: &str) {
        for byte in name.bytes() {
            self.add(u64::from(byte));
        }
    }

    /// Takes in a kind that may be none by its name.
    pub fn add_kind(&mut self, kind: Option<SyntaxKind>) {
        match kind {
            None => self.add(0),
            Some(kind) => self.add_name(kind.name()),
        }
    }

    /// Takes in the length of a tree's text, the number of its nodes, and of each node at its top the
    /// kind and the length of its text.
    pub fn add_tree(&mut self, root: &SyntaxNode) {
        self.add_size(root.len());
        self.add_size(root.descendants());
        for child in root.children() {
            self.add_kind(Some(child.kind()));
            self.add_size(child.len());
        }
    }

    /// Takes in a tag that may be none by its name.
    pub fn add_tag(&mut self, tag: Option<Tag>) {
        match tag {
            None => self.add(0),
            Some(tag) => self.add_name(tag.css_class()),
        }
    }
}

/// What came of a job.
#[derive(Clone, Copy)]
pub struct Outcome {
    /// The digest of all results.
    pub digest: Digest,
    /// How many results were held against others that were made in another way.
    pub held: u64,
    /// How many of them agreed.
    pub agreed: u64,
    /// What the first that differed was.
    pub differing: Option<&'static str>,
}

impl Outcome {
    /// That of no work.
    pub fn new() -> Outcome {
        Outcome {
            digest: EMPTY,
            held: 0,
            agreed: 0,
            differing: None,
        }
    }

    /// Notes whether a result, which `what` names, is what was made in another way.
    pub fn hold(&mut self, what: &'static str, agrees: bool) {
        self.held = self.held.saturating_add(1);
        self.agreed = self.agreed.saturating_add(u64::from(agrees));
        if !agrees && self.differing.is_none() {
            self.differing = Some(what);
        }
    }
}
