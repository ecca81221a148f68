//! The tags of a tree's nodes as a list.

ghost use Rattle.std.specs.Prelude.{◌≡◌, IfOk};
ghost use Rattle.typst_highlight.specs.Spans as spec;
ghost use Rattle.typst_highlight.specs.Walk as walk;

use crate::sink::{Sink, give_tree};
use crate::tags::Tag;
use std::alloc::{AllocError, Global};
use std::marker::Model;
use typst_tree::SyntaxNode;

/// The tags of a walk's nodes so far.
#[derive(Drop)]
struct Lister {
    tags: Vec<Option<Tag>>,
}

/// The tag of each node of a tree in preorder, where an error has none: the tag of the span that the
/// node stands in as `highlight_html` writes it.
///
/// It goes through the tree once, and takes memory for the tags and for a list as long as the tree is
/// deep.
pub fn node_spans(alloc: Global, root: &SyntaxNode) -> Result<Vec<Option<Tag>>, AllocError>
    ensures { IfOk result (λ tags. tags.items ≡ spec.spans root.now) }
{
    let mut lister = Lister {
        tags: Vec::with_capacity(alloc, root.descendants())?,
    };
    give_tree(alloc, &mut lister, root)?;
    Ok(lister.tags)
}

impl Model for Lister {
    ghost use Rattle.std.specs.Prelude.{List, Option};
    ghost use Rattle.typst_highlight.specs.declared.tags.Tag.{Tag};

    ghost Value = { List (Option Tag) };

    ghost view = { λ l. l.tags.items };
}

impl Sink for Lister {
    ghost outlet = { walk.lister };

    #[inline(always)]
    fn begin(&mut self, span: Option<Tag>) -> Result<Option<Tag>, AllocError> {
        self.tags.push(span)?;
        Ok(None)
    }

    #[inline(always)]
    fn own(&mut self, _text: &str) -> Result<(), AllocError> {
        Ok(())
    }

    #[inline(always)]
    fn leaf(&mut self, span: Option<Tag>, _text: &str) -> Result<(), AllocError> {
        self.tags.push(span)?;
        Ok(())
    }

    #[inline(always)]
    fn close(&mut self, _kept: Option<Tag>) -> Result<(), AllocError> {
        Ok(())
    }
}
