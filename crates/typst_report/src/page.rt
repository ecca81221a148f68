//! A text as an HTML page: highlighted, with the numbers of its lines, and its errors underlined.

ghost use Rattle.std.specs.Prelude.{◌<◌, ◌≤◌};

use crate::escape::{Target, push_escaped};
use crate::finding::Finding;
use crate::style::STYLE;
use std::alloc::{AllocError, Global};
use typst_highlight::{Tag, Tagged, tag_stretches};
use typst_lines::Lines;
use typst_tree::SyntaxNode;

/// The page of a text of that name. It takes a time in proportion to the text, as long as few findings
/// are about the same bytes.
pub fn page_of<'p, 'l, 't>(
    alloc: Global,
    name: &str,
    root: &SyntaxNode,
    lines: &'p Lines<&'l str>,
    found: &'p [Finding<'t>],
) -> Result<Vec<u8>, AllocError> {
    let mut page = Page {
        html: String::new(alloc),
        lines,
        begun: 0,
        found,
        order: in_order(alloc, found)?,
        opened: 0,
        open: Vec::new(alloc),
    };
    page.push_head(name)?;
    for stretch in &tag_stretches(alloc, root)? {
        page.push_stretch(stretch)?;
    }
    page.reach(lines.len_bytes())?;
    page.html.push_str("</code></pre>\n</body>\n</html>\n")?;
    Ok(page.html.into_bytes())
}

/// The findings by where they begin, each by its place among them.
fn in_order(alloc: Global, found: &[Finding]) -> Result<Vec<(usize, usize)>, AllocError> {
    let mut order = Vec::new(alloc);
    for index in 0..found.len() {
        order.push((found[index].start, index))?;
    }
    order.sort()?;
    Ok(order)
}

/// A page that is being written.
#[derive(Drop)]
struct Page<'p, 'l, 't> {
    html: String,
    lines: &'p Lines<&'l str>,
    /// How many lines have begun.
    begun: usize,
    found: &'p [Finding<'t>],
    /// The findings by where they begin.
    order: Vec<(usize, usize)>,
    /// How many of the findings have begun.
    opened: usize,
    /// The findings that have begun and not ended.
    open: Vec<Finding<'t>>,
}

impl<'p, 'l, 't> Page<'p, 'l, 't> {
    ghost use Rattle.std.specs.Prelude.{◌<◌, ◌≤◌};

    /// Writes all that is before the text.
    fn push_head(&mut self, name: &str) -> Result<(), AllocError> {
        self.html.push_str(
            "<!doctype html>\n<html lang=\"en\">\n<head>\n<meta charset=\"utf-8\">\n<meta name=\"viewport\" content=\"width=device-width\">\n<title>",
        )?;
        push_escaped(&mut self.html, name, Target::Html)?;
        self.html.push_str("</title>\n<style>\n")?;
        self.html.push_str(STYLE)?;
        self.html
            .push_str("</style>\n</head>\n<body>\n<pre><code>")?;
        Ok(())
    }

    /// Writes a stretch of the text in pieces, which lines and findings divide.
    fn push_stretch(&mut self, stretch: &Tagged) -> Result<(), AllocError> {
        let (mut at, end) = (stretch.range.start, stretch.range.end);
        'pieces: while at < end {
            self.reach(at)?;
            let cut = self.next_cut(at, end);
            self.push_piece(stretch.tag, at, cut)?;
            at = cut;
        }
        Ok(())
    }

    /// Begins the lines and findings that begin up to a byte, and ends the findings that end there.
    fn reach(&mut self, at: usize) -> Result<(), AllocError> {
        for number in self.begun..self.lines.len_lines() {
            if self.lines.line_to_byte(number).unwrap_or(0) > at {
                break;
            }
            self.begun = number + 1;
            let line = self.begun;
            write!(
                self.html,
                "<a class=\"line\" id=\"L{line}\" href=\"#L{line}\" data-line=\"{line}\" aria-label=\"line {line}\"></a>"
            )?;
        }
        self.open.retain(|finding| finding.end > at);
        for index in self.opened..self.order.len() {
            let Some((start, place)) = self.order.get(index).copied() else {
                break;
            };
            if start > at {
                break;
            }
            self.opened = index + 1;
            self.open_finding(place, at)?;
        }
        Ok(())
    }

    /// Begins a finding. One that is about no text has a mark of its own.
    fn open_finding(&mut self, place: usize, at: usize) -> Result<(), AllocError> {
        let Some(finding) = self.found.get(place) else {
            return Ok(());
        };
        if finding.end > at {
            self.open.push(*finding)?;
            return Ok(());
        }
        self.html.push_str("<span class=\"point\" title=\"")?;
        push_said(&mut self.html, finding)?;
        self.html.push_str("\"></span>")?;
        Ok(())
    }

    /// Where the piece that begins at a byte of a stretch ends: where the stretch does, or a line or
    /// finding begins, or an open finding ends.
    fn next_cut(&self, at: usize, end: usize) -> usize
        requires { at < end }
        ensures after { at < result }
        ensures within { result ≤ end }
    {
        let mut cut = end;
        if let Some(start) = self.lines.line_to_byte(self.begun) {
            cut = earlier(at, cut, start);
        }
        if let Some((start, _)) = self.order.get(self.opened) {
            cut = earlier(at, cut, *start);
        }
        for finding in &self.open {
            cut = earlier(at, cut, finding.end);
        }
        cut
    }

    /// Writes a piece of the text.
    fn push_piece(&mut self, tag: Option<Tag>, start: usize, end: usize) -> Result<(), AllocError> {
        let text = self.lines.text().get(start..end).unwrap_or("");
        if tag.is_none() && self.open.is_empty() {
            return push_escaped(&mut self.html, text, Target::Html);
        }
        self.html.push_str("<span class=\"")?;
        self.push_classes(tag)?;
        self.html.push_str("\"")?;
        self.push_title()?;
        self.html.push_str(">")?;
        push_escaped(&mut self.html, text, Target::Html)?;
        self.html.push_str("</span>")?;
        Ok(())
    }

    fn push_classes(&mut self, tag: Option<Tag>) -> Result<(), AllocError> {
        if let Some(tag) = tag {
            self.html.push_str(tag.css_class())?;
        }
        if self.open.is_empty() {
            return Ok(());
        }
        if tag.is_some() {
            self.html.push_str(" ")?;
        }
        let grave = self.open.iter().any(|finding| finding.is_error());
        self.html.push_str(if grave { "error" } else { "warning" })?;
        Ok(())
    }

    /// Writes what the open findings say.
    fn push_title(&mut self) -> Result<(), AllocError> {
        if self.open.is_empty() {
            return Ok(());
        }
        self.html.push_str(" title=\"")?;
        let mut first = true;
        for finding in &self.open {
            if !first {
                self.html.push_str("&#10;")?;
            }
            first = false;
            push_said(&mut self.html, finding)?;
        }
        self.html.push_str("\"")?;
        Ok(())
    }
}

/// The earlier of two places after a byte, of which the second may not be after it.
fn earlier(at: usize, cut: usize, other: usize) -> usize
    requires { at < cut }
    ensures after { at < result }
    ensures within { result ≤ cut }
{
    if at < other && other < cut {
        other
    } else {
        cut
    }
}

/// Writes what a finding says, and its hints.
fn push_said(html: &mut String, finding: &Finding) -> Result<(), AllocError> {
    html.push_str(finding.severity())?;
    html.push_str(": ")?;
    push_escaped(html, finding.message(), Target::Html)?;
    for hint in finding.hints() {
        html.push_str("&#10;hint: ")?;
        push_escaped(html, hint.message(), Target::Html)?;
    }
    Ok(())
}
