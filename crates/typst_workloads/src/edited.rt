//! The work of editing a source.

use crate::typing::{as_anyhow, boundary};
use std::alloc::Global;
use typst_parser::{Source, UnicodeClasses};

/// A source into whose middle a letter is put, and out of which it is taken again, in turn.
#[derive(Drop)]
pub struct Edited {
    source: Source<UnicodeClasses>,
    /// The last boundary of a character up to the middle of the text.
    middle: usize,
    has_letter: bool,
}

impl Edited {
    /// A source of the text.
    pub fn new(alloc: Global, text: String) -> anyhow::Result<Edited> {
        let middle = boundary(text.as_str(), text.len() / 2);
        let source = Source::detached(alloc, text, UnicodeClasses).map_err(as_anyhow)?;
        Ok(Edited {
            source,
            middle,
            has_letter: false,
        })
    }

    /// Puts the letter in or takes it out, and adds up the length of the tree, the number of its
    /// nodes, and the ends of the range that was answered.
    pub fn round(&mut self) -> anyhow::Result<u64> {
        let start = self.middle;
        let end = start.saturating_add(usize::from(self.has_letter));
        let text = self.source.text();
        if !text.is_char_boundary(start) || !text.is_char_boundary(end) {
            anyhow::bail!("the letter is gone");
        }
        let with = if self.has_letter { "" } else { "a" };
        let parsed = self.source.edit(start..end, with).map_err(as_anyhow)?;
        self.has_letter = !self.has_letter;
        let root = self.source.root();
        Ok(
            (root.len() as u64)
                .wrapping_add(root.descendants() as u64)
                .wrapping_add(parsed.start as u64)
                .wrapping_add(parsed.end as u64),
        )
    }
}
