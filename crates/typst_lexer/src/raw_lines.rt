//! The lines of a raw text, and what of them is text and what is trimmed.
ghost use Rattle.std.specs.Prelude.{◌≡◌, ℕ, List, ◌∷◌, ◌++◌, [], false, min, reverse, OnOk};
ghost use Rattle.std.specs.List.{prefix_len};
ghost use Rattle.std.specs.Str.{chars};
ghost use Rattle.typst_lines.specs.Classes.{in_line};
ghost use Rattle.typst_kinds.specs.Kinds.{is_error};
ghost use Rattle.typst_lines.specs.Place.{IsAfter, moved};
ghost use Rattle.typst_lines.specs.Scanner.{place};
ghost use Rattle.typst_lexer.specs.LastLine.{IsLastLine};
ghost use Rattle.typst_lexer.specs.RawLines as spec;

use crate::raw_sets::Whitespace;
use std::alloc::AllocError;
use typst_kinds::SyntaxKind;
use typst_lines::sets::InLine;
use typst_lines::{Scanner, ScannerExt};
use typst_tree::SyntaxNode;

/// Adds a leaf with a copy of the text.
pub(crate) fn push_leaf(
    leaves: &mut Vec<SyntaxNode>,
    kind: SyntaxKind,
    text: &str,
) -> Result<(), AllocError>
    requires { is_error kind ≡ false }
    ensures { OnOk result (leaves.new.items ≡ leaves.old.items ++ spec.leaf kind (chars text.now) ∷ []) }
{
    let leaf = SyntaxNode::leaf(*leaves.allocator(), kind, text)?;
    leaves.push(leaf)?;
    Ok(())
}

/// Adds a leaf of what is trimmed, if that is anything.
fn push_trimmed(leaves: &mut Vec<SyntaxNode>, text: &str) -> Result<(), AllocError>
    ensures { OnOk result (leaves.new.items ≡ leaves.old.items ++ spec.trimmed (chars text.now)) }
{
    if !text.is_empty() {
        push_leaf(leaves, SyntaxKind::RawTrimmed, text)?;
    }
    Ok(())
}

/// Adds the leaves of what is between single backticks.
pub(crate) fn push_inline(leaves: &mut Vec<SyntaxNode>, text: &str) -> Result<(), AllocError>
    ensures { OnOk result (leaves.new.items ≡ leaves.old.items ++ spec.inline_leaves (chars text.now)) }
{
    let mut s = Scanner::new(text);
    push_leaf(leaves, SyntaxKind::Text, s.eat_while(&InLine))?;
    push_lines(leaves, &s, &s, 0)?;
    Ok(())
}

/// Adds the leaves of what is between three or more backticks, after the tag.
pub(crate) fn push_block(leaves: &mut Vec<SyntaxNode>, text: &str) -> Result<(), AllocError>
    ensures { OnOk result (leaves.new.items ≡ leaves.old.items ++ spec.block_leaves (chars text.now)) }
{
    let last = last_line(text);
    let end = last.trimmed_from();
    let dedent = dedent(text, last.line);
    let start = Scanner::new(end.before());
    let mut s = start;
    let first = s.eat_while(&InLine);
    if !is_blank(first) {
        push_first(leaves, first)?;
        push_lines(leaves, &s, &s, dedent)?;
        push_trimmed(leaves, end.after())?;
        return Ok(());
    }
    if s.done() {
        push_trimmed(leaves, text)?;
        return Ok(());
    }
    push_lines(leaves, &start, &s, dedent)?;
    push_trimmed(leaves, end.after())?;
    Ok(())
}

/// Adds the leaves of a first line that isn't blank.
fn push_first(leaves: &mut Vec<SyntaxNode>, line: &str) -> Result<(), AllocError>
    ensures { OnOk result (leaves.new.items ≡ leaves.old.items ++ spec.first_leaves (chars line.now)) }
{
    let mut s = Scanner::new(line);
    if !s.eat_if(' ') {
        push_leaf(leaves, SyntaxKind::Text, line)?;
        return Ok(());
    }
    push_leaf(leaves, SyntaxKind::RawTrimmed, s.before())?;
    push_leaf(leaves, SyntaxKind::Text, s.after())?;
    Ok(())
}

/// Adds the leaves of the lines from a line end on: of each the line end and up to `dedent`
/// characters are trimmed. What is between `from` and the first line end is trimmed with it.
fn push_lines<'a>(
    leaves: &mut Vec<SyntaxNode>,
    from: &Scanner<'a>,
    s: &Scanner<'a>,
    dedent: usize,
) -> Result<(), AllocError>
    requires text { s.now.text.now ≡ from.now.text.now }
    requires after { IsAfter (place from.now) (place s.now) }
    requires at_end { prefix_len in_line (place s.now).ahead ≡ 0 }
    requires held { (place s.now).ahead ≡ [] → spec.between (place from.now) (place s.now) ≡ [] }
    ensures { OnOk result (leaves.new.items ≡ leaves.old.items ++ spec.line_leaves dedent (spec.between (place from.now) (place s.now)) (spec.later_lines (place s.now).ahead) []) }
{
    let mut s = *s;
    let mut from = *from;
    while s.eat_newline() {
        skip_in_line(&mut s, dedent);
        push_leaf(leaves, SyntaxKind::RawTrimmed, s.since(&from))?;
        push_leaf(leaves, SyntaxKind::Text, s.eat_while(&InLine))?;
        from = s;
    }
    Ok(())
}

/// Goes on by a given number of characters, or to the line's end.
fn skip_in_line(s: &mut Scanner<'_>, count: usize)
    ensures moved { place s.new ≡ moved (min count (prefix_len in_line (place s.old).ahead)) (place s.old) }
    ensures same_text { s.new.text.now ≡ s.old.text.now }
{
    for i in 0..count {
        if !s.eat_set(&InLine) {
            return;
        }
    }
}

/// The least indent of the last line and of the lines after the first that aren't blank.
fn dedent(text: &str, last: &str) -> usize
    ensures { result ≡ spec.least_indent (spec.indent (chars last.now)) (spec.later_lines (chars text.now)) }
{
    let mut s = Scanner::new(text);
    s.eat_while(&InLine);
    let mut least = indent(last);
    while s.eat_newline() {
        let line = s.eat_while(&InLine);
        if !is_blank(line) {
            least = least.min(indent(line));
        }
    }
    least
}

/// How many whitespace characters the line begins with.
fn indent(line: &str) -> usize
    ensures { result ≡ spec.indent (chars line.now) }
{
    let mut s = Scanner::new(line);
    let mut count = 0usize;
    while s.eat_set(&Whitespace) {
        count += 1;
    }
    count
}

/// Whether the line is only whitespace.
fn is_blank(line: &str) -> bool
    ensures { result ≡ spec.is_blank (chars line.now) }
{
    let mut s = Scanner::new(line);
    s.eat_while(&Whitespace);
    s.done()
}

/// The last line of a text: the place before its line end, its characters, and the text's end.
#[derive(Clone, Copy)]
struct LastLine<'a> {
    start: Scanner<'a>,
    line: &'a str,
    end: Scanner<'a>,
}

fn last_line(text: &str) -> LastLine<'_>
    ensures { IsLastLine (chars text.now) result }
{
    let mut s = Scanner::new(text);
    let mut start = s;
    let mut line = s.eat_while(&InLine);
    while !s.done() {
        start = s;
        s.eat_newline();
        line = s.eat_while(&InLine);
    }
    LastLine {
        start,
        line,
        end: s,
    }
}

impl<'a> LastLine<'a> {
    /// The place from which on all is trimmed.
    fn trimmed_from(&self) -> Scanner<'a>
        ensures front { (cs : List ℕ) → IsLastLine cs self.now → reverse (place result).before ≡ spec.front cs }
        ensures closing { (cs : List ℕ) → IsLastLine cs self.now → (place result).ahead ≡ spec.closing cs }
    {
        if is_blank(self.line) {
            return self.start;
        }
        let mut end = self.end;
        if has_spare_space(self.line) {
            end.uneat();
        }
        end
    }
}

/// Whether the line ends in a space, and its last character that isn't whitespace is a backtick.
fn has_spare_space(line: &str) -> bool
    ensures { result ≡ spec.has_spare_space (chars line.now) }
{
    let mut s = Scanner::new(line);
    s.jump(line.len());
    if !s.is_after(' ') {
        return false;
    }
    while let Some(c) = s.uneat() {
        if !c.is_whitespace() {
            return c == '`';
        }
    }
    false
}
