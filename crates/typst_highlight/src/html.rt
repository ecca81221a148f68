//! A tree's text as HTML.

ghost use Rattle.std.specs.Prelude.{◌≡◌, IfOk, string_bytes};
ghost use Rattle.typst_tree.specs.Tree.{text_of};
ghost use Rattle.typst_highlight.specs.Html as spec;
ghost use Rattle.typst_highlight.specs.Walk as walk;

use crate::page::Writer;
use crate::sink::{Sink, give_tree};
use crate::tags::Tag;
use std::alloc::{AllocError, Global};
use typst_tree::SyntaxNode;

/// The text of a tree as HTML: an element `code`, in which each node that has a tag, unless it is
/// an error, stands in a `span` of the tag's class.
///
/// The characters `& < > ' "` of the text are written as entities. It goes through the tree once.
pub fn highlight_html(alloc: Global, root: &SyntaxNode) -> Result<String, AllocError>
    ensures html { IfOk result (λ html. string_bytes html ≡ spec.html_of root.now) }
    ensures shown { IfOk result (λ html. spec.read spec.plain (string_bytes html) ≡ text_of root.now) }
{
    let mut writer = Writer::with_capacity(alloc, likely_len(root))?;
    writer.push("<code>")?;
    give_tree(alloc, &mut writer, root)?;
    writer.push("</code>")?;
    let html = writer.finish()?;
    Ok(html)
}

/// How long the HTML of a tree mostly is at most: its text, and a third of a span for each node.
fn likely_len(root: &SyntaxNode) -> usize {
    let spans = root.descendants().saturating_mul(12);
    root.len().saturating_add(spans).saturating_add(13)
}

impl Sink for Writer {
    ghost outlet = { walk.html };

    #[inline(always)]
    fn begin(&mut self, span: Option<Tag>) -> Result<Option<Tag>, AllocError> {
        self.start(span)?;
        Ok(span)
    }

    #[inline(always)]
    fn own(&mut self, text: &str) -> Result<(), AllocError> {
        self.write_own(text)
    }

    #[inline(always)]
    fn leaf(&mut self, span: Option<Tag>, text: &str) -> Result<(), AllocError> {
        self.write(span, text)
    }

    #[inline(always)]
    fn close(&mut self, kept: Option<Tag>) -> Result<(), AllocError> {
        self.end(kept)
    }
}
