//! Places between tokens where a delimiter can be put, and whether a node would keep it there.

ghost use Rattle.std.specs.Prelude.{◌≡◌};
ghost use Rattle.typst_tree.specs.Tree.{forest};
ghost use Rattle.typst_names.specs.Around.{standing};
ghost use Rattle.typst_fixes.specs.Gaps as spec;

use crate::hints::is_of_word;
use typst_features::is_open_text;
use typst_kinds::SyntaxKind;
use typst_names::Placed;
use typst_tree::SyntaxNode;

/// How many spaces and comments are passed at most to find a place for a closing delimiter: each is sought from the
/// front of its row.
const MOST_TRIVIA: usize = 16;

/// A place between tokens for a closing delimiter.
#[derive(Clone, Copy)]
pub struct Gap {
    pub byte: usize,
    /// Whether a space has to part it from the token before it.
    pub space_before: bool,
}

/// The last gap in a node before a byte, with only space and a few comments between, in which a delimiter closes the
/// node. There is none within a token, nor after a text that nothing closes, nor in what would keep the delimiter.
pub fn gap_before(node: Placed<'_>, byte: usize, closer: &str) -> Option<Gap> {
    let mut end = byte;
    for _turn in 0..MOST_TRIVIA {
        let token = token_before(node, end)?;
        if !token.node.kind().is_trivia() {
            return if is_kept(node, end, closer) {
                None
            } else {
                gap_after(token, end, closer)
            };
        }
        end = token.start;
    }
    None
}

/// The gap at a byte, after the token that holds the byte before that one.
fn gap_after(token: Placed<'_>, byte: usize, closer: &str) -> Option<Gap> {
    if byte < token.end() || is_open_text(token.node) {
        return None;
    }
    Some(Gap {
        byte,
        space_before: takes_in(token.node, closer),
    })
}

/// The token of a node that holds the byte before another one.
fn token_before(node: Placed<'_>, byte: usize) -> Option<Placed<'_>> {
    let last = byte.checked_sub(1)?;
    let mut around = node.if_holds(last);
    while let Some(placed) = around {
        if is_token(placed.node) {
            return Some(placed);
        }
        around = placed.child_at(last);
    }
    None
}

/// Whether nothing can be put into a node so that it stays what it is.
fn is_token(node: &SyntaxNode) -> bool {
    node.kind() == SyntaxKind::Raw || node.children().is_empty()
}

/// Whether a node within another one would keep a closing delimiter that is put at a byte.
pub fn is_kept(node: Placed<'_>, byte: usize, closer: &str) -> bool
    ensures { result ≡ spec.is_kept closer.now byte (standing node.entry) }
{
    let last = byte.saturating_sub(1);
    let mut within = node.child_at(last);
    while let Some(placed) = within {
        if keeps(placed, byte, closer) {
            return true;
        }
        within = placed.child_at(last);
    }
    false
}

/// Whether a node that holds the byte before another one would keep a closing delimiter that is put there: it has
/// delimiters of its own, and the place is between them, or it goes on to the end of its line.
fn keeps(node: Placed<'_>, byte: usize, closer: &str) -> bool
    ensures { result ≡ spec.keeps closer.now byte (standing node.entry) }
{
    let kind = node.node.kind();
    if is_line(kind) {
        return !is_of_bracket(closer);
    }
    if !has_delimiters(kind) {
        return false;
    }
    if is_open(node.node.children()) {
        !ends_by(kind, closer)
    } else {
        byte < node.end()
    }
}

/// Whether a node of this kind goes on to the end of its line.
fn is_line(kind: SyntaxKind) -> bool
    ensures { result ≡ spec.is_line kind }
{
    match kind {
        SyntaxKind::ListItem | SyntaxKind::EnumItem | SyntaxKind::TermItem | SyntaxKind::Heading =>
            true,
        _ => false,
    }
}

/// Whether a node of this kind has delimiters of its own.
fn has_delimiters(kind: SyntaxKind) -> bool
    ensures { result ≡ spec.has_delimiters kind }
{
    match kind {
        SyntaxKind::ContentBlock
        | SyntaxKind::CodeBlock
        | SyntaxKind::Equation
        | SyntaxKind::Strong
        | SyntaxKind::Emph => true,
        SyntaxKind::Args
        | SyntaxKind::MathArgs
        | SyntaxKind::Params
        | SyntaxKind::Parenthesized
        | SyntaxKind::Array
        | SyntaxKind::Dict
        | SyntaxKind::Destructuring => true,
        _ => false,
    }
}

/// Whether nothing closes a node with delimiters that has these children: its first one is an error then.
fn is_open(kids: &[SyntaxNode]) -> bool
    ensures { result ≡ spec.is_open (forest kids.now) }
{
    match kids.split_first() {
        Some((first, _)) => first.kind().same(SyntaxKind::Error),
        None => false,
    }
}

/// Whether a node of this kind that nothing closes ends where a node around it is closed.
fn ends_by(kind: SyntaxKind, closer: &str) -> bool
    ensures { result ≡ spec.ends_by kind closer.now }
{
    match kind {
        SyntaxKind::ContentBlock | SyntaxKind::Equation => false,
        SyntaxKind::Strong | SyntaxKind::Emph => is_of_bracket(closer),
        SyntaxKind::CodeBlock => closer == "]" || closer == ")",
        SyntaxKind::MathArgs => closer == "$",
        _ => closer == "]" || closer == "}",
    }
}

/// Whether it is a bracket, or the backslash before one that closes nothing.
fn is_of_bracket(closer: &str) -> bool
    ensures { result ≡ spec.is_of_bracket closer.now }
{
    closer == "]" || closer == "\\"
}

/// Whether a closing delimiter directly after a token would be read otherwise: after a line break as an escape, after
/// a hash as code, as the end of an address, of a name or of what is no token, or as the beginning of a comment.
fn takes_in(token: &SyntaxNode, closer: &str) -> bool {
    let Some(last) = token.leaf_text().chars().next_back() else {
        return false;
    };
    match token.kind() {
        SyntaxKind::Linebreak | SyntaxKind::Link | SyntaxKind::Hash => true,
        SyntaxKind::Error => token.leaf_text().len() > 1 || closer == "*" || closer == "_",
        SyntaxKind::Text => closer == "*" && last == '/',
        _ => closer == "_" && is_of_word(last),
    }
}

/// Where the texts of lines end, asked for in order.
#[derive(Drop)]
pub struct LineEnds<'t> {
    pub text: &'t str,
    /// The byte up to which the last line goes, and where its text ends.
    upto: usize,
    end: usize,
}

impl<'t> LineEnds<'t> {
    /// None is asked for yet.
    pub fn new(text: &'t str) -> LineEnds<'t> {
        LineEnds {
            text,
            upto: 0,
            end: 0,
        }
    }

    /// Where the text of the line ends, space aside, from a byte on.
    pub fn end_from(&mut self, from: usize) -> usize {
        if self.upto <= from {
            let line = line_from(self.text, from);
            self.upto = from.saturating_add(line.len()).saturating_add(1);
            self.end = from.saturating_add(line.trim_end().len());
        }
        self.end.max(from)
    }
}

/// The rest of the line from a byte on.
fn line_from(text: &str, from: usize) -> &str {
    let rest = text.get(from..).unwrap_or("");
    match rest.split_once('\n') {
        Some((line, _)) => line,
        None => rest,
    }
}
