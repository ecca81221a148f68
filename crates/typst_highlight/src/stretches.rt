//! The stretches of a tree's text with their tags.

ghost use Rattle.std.specs.Prelude.{◌≡◌, ◌+◌, ◌++◌, IfOk, OnOk, length};
ghost use Rattle.typst_tree.specs.Tree.{saturated, text_of};
ghost use Rattle.typst_highlight.specs.Names.{first_tag};
ghost use Rattle.typst_highlight.specs.Stretches as spec;
ghost use Rattle.typst_highlight.specs.Walk as walk;

use crate::sink::{Sink, give_tree};
use crate::tags::Tag;
use std::alloc::{AllocError, Global};
use std::marker::Model;
use std::ops::Range;
use typst_tree::SyntaxNode;

/// A stretch of a text, with the tag that it is shown by.
#[derive(Debug, Clone, PartialEq, Eq, Hash, Drop)]
pub struct Tagged {
    /// Its bytes.
    pub range: Range<usize>,
    /// The tag of the innermost node around it that has one, errors aside.
    pub tag: Option<Tag>,
}

/// The stretches of a walk so far.
#[derive(Drop)]
struct Tagger {
    stretches: Vec<Tagged>,
    /// Where the next one begins, in bytes.
    end: usize,
    /// The tag of the innermost span.
    around: Option<Tag>,
}

/// The text of a tree as stretches with tags: one for each node that has a text of its own, in order.
///
/// A stretch has the tag of the innermost span that it stands in as `highlight_html` writes it: the
/// node's own, or that of the nearest node above that has one, where an error has none. It goes
/// through the tree once, and takes memory for the stretches and for a list as long as the tree is
/// deep. Bytes are counted up to the largest `usize`.
pub fn tag_stretches(alloc: Global, root: &SyntaxNode) -> Result<Vec<Tagged>, AllocError>
    ensures stretches { IfOk result (λ stretches. stretches.items ≡ spec.stretches root.now) }
    ensures joined { IfOk result (λ stretches. spec.AreJoined 0 stretches.items (saturated (length (text_of root.now)))) }
{
    let mut tagger = Tagger {
        stretches: Vec::new(alloc),
        end: 0,
        around: None,
    };
    give_tree(alloc, &mut tagger, root)?;
    Ok(tagger.stretches)
}

impl Model for Tagger {
    ghost use Rattle.typst_highlight.specs.Walk as walk;

    ghost Value = { walk.Marks };

    ghost view = { λ t. record { stretches = t.stretches.items; end = t.end; around = t.around } };
}

/// The tag of a span in another one.
#[inline(always)]
fn innermost(span: Option<Tag>, around: Option<Tag>) -> Option<Tag>
    ensures { result ≡ first_tag span around }
{
    match span {
        None => around,
        found => found,
    }
}

impl Sink for Tagger {
    ghost outlet = { walk.tagger };

    #[inline(always)]
    fn begin(&mut self, span: Option<Tag>) -> Result<Option<Tag>, AllocError> {
        let around = self.around;
        self.around = innermost(span, around);
        Ok(around)
    }

    #[inline(always)]
    fn own(&mut self, text: &str) -> Result<(), AllocError> {
        self.add(text, self.around)
    }

    #[inline(always)]
    fn leaf(&mut self, span: Option<Tag>, text: &str) -> Result<(), AllocError> {
        self.add(text, innermost(span, self.around))
    }

    #[inline(always)]
    fn close(&mut self, kept: Option<Tag>) -> Result<(), AllocError> {
        self.around = kept;
        Ok(())
    }
}

impl Tagger {
    ghost use Rattle.std.specs.Prelude.{◌≡◌, ◌+◌, ◌++◌, OnOk, length};
    ghost use Rattle.typst_tree.specs.Tree.{saturated};
    ghost use Rattle.typst_highlight.specs.Stretches as spec;

    /// Adds a text as a stretch of its own, unless it is empty.
    fn add(&mut self, text: &str, tag: Option<Tag>) -> Result<(), AllocError>
        ensures { OnOk result (self.new ≡ record { stretches = self.old.stretches ++ spec.stretch self.old.end text.now tag; end = saturated (self.old.end + length text.now); around = self.old.around }) }
    {
        let start = self.end;
        self.end = start.saturating_add(text.len());
        if text.is_empty() {
            return Ok(());
        }
        self.stretches.push(Tagged {
            range: start..self.end,
            tag,
        })?;
        Ok(())
    }
}
