//! Semantic tokens: what of a text is shown how, line by line.

ghost use Rattle.std.specs.Prelude.{◌≡◌, ◌-◌, ◌++◌, IfOk, OnOk, [], ◌∷◌, drop, true};
ghost use Rattle.typst_tree.specs.Boundaries.{AreCounted, IsBoundary};
ghost use Rattle.typst_styles.specs.Styles as styles;
ghost use Rattle.typst_styles.specs.Tokens as spec;

use crate::boundaries::is_counted;
use crate::seeking::{Wanted, tokens_near};
use crate::styles::{Style, style_of};
use std::alloc::{AllocError, Global};
use std::ops::Range;
use typst_highlight::{Tagged, tag_stretches};
use typst_names::{Role, name_roles};
use typst_tree::{Boundary, SyntaxNode};

/// A part of one line that is shown in one way.
#[derive(Debug, Clone, Copy, PartialEq, Eq)]
pub struct Token {
    /// The byte at which it begins.
    pub start: usize,
    /// How many bytes it has, at least one.
    pub len: usize,
    pub style: Style,
}

impl Token {
    ghost use Rattle.std.specs.Prelude.{◌≡◌};
    ghost use Rattle.typst_styles.specs.Tokens as spec;

    /// Where it ends.
    pub fn end(&self) -> usize
        ensures { result ≡ spec.end_of self.now }
    {
        self.start.saturating_add(self.len)
    }

    /// Whether it has a byte of a range.
    fn touches(&self, range: &Range<usize>) -> bool
        ensures { result ≡ spec.touches range.now self.now }
    {
        self.start < range.end && range.start < self.end()
    }

    /// Whether the next token begins where this one ends, and is shown like it.
    fn continues_with(&self, next: &Token) -> bool
        ensures { result ≡ spec.continues self.now next.now }
    {
        self.end() == next.start
            && self.style.kind.same(next.style.kind)
            && is_same(self.style.is_declaration, next.style.is_declaration)
    }

    /// This token and the next one as one.
    fn with(&self, next: &Token) -> Token
        ensures { result ≡ spec.both self.now next.now }
    {
        Token {
            start: self.start,
            len: self.len.saturating_add(next.len),
            style: self.style,
        }
    }
}

/// A range of less than this part of a text is sought in the tree, and not picked from all tokens.
const PART: usize = 8;

/// What of a text with a byte of a range is shown how: its stretches with their tags, and its names by what they
/// are, cut where a line ends, by LF, CR LF or CR. No token holds a line end, none is empty, and neighbours that
/// are shown alike are one.
///
/// For a range of less than an eighth of the text it goes into the nodes that touch the range, and over the
/// children before them of the nodes on the way there, of the root over those between the range and `near`, a
/// place among them, or an end that is nearer: see `tokens_near`. Otherwise, and where that would take longer, it
/// goes through the tree twice.
pub fn semantic_tokens(
    alloc: Global,
    root: &SyntaxNode,
    text: &str,
    within: &Range<usize>,
    near: Boundary,
) -> Result<Vec<Token>, AllocError>
    requires { IsBoundary root.now near }
    ensures tokens { IfOk result (λ tokens. tokens.items ≡ spec.tokens_in within.now text.now root.now) }
    ensures ordered { IfOk result (λ tokens. spec.AreOrdered 0 tokens.items) }
{
    let tokens = tokens_for(alloc, root, text, within, near)?;
    merge(alloc, tokens.as_slice(), within)
}

/// The tokens of a text with a byte of a range, neighbours apart, and maybe others.
fn tokens_for(
    alloc: Global,
    root: &SyntaxNode,
    text: &str,
    within: &Range<usize>,
    near: Boundary,
) -> Result<Vec<Token>, AllocError>
    requires { IsBoundary root.now near }
    ensures { IfOk result (λ tokens. spec.touching within.now tokens.items ≡ spec.touching within.now (spec.all_tokens text.now root.now)) }
{
    if is_part(root, within) {
        let wanted = Wanted {
            root,
            text,
            within,
            near,
        };
        if let Some(tokens) = tokens_near(alloc, &wanted)? {
            return Ok(tokens);
        }
    }
    let tokens = all_tokens(alloc, root, text)?;
    Ok(tokens)
}

/// Whether a range is a small part of a tree's text, and the tree's nodes and bytes can be counted.
fn is_part(root: &SyntaxNode, within: &Range<usize>) -> bool
    ensures { result ≡ true → AreCounted root.now }
{
    if !is_counted(root) {
        return false;
    }
    let bytes = within.end.saturating_sub(within.start);
    bytes < root.len() / PART
}

/// All tokens of a text, neighbours apart.
fn all_tokens(alloc: Global, root: &SyntaxNode, text: &str) -> Result<Vec<Token>, AllocError>
    ensures { IfOk result (λ tokens. tokens.items ≡ spec.all_tokens text.now root.now) }
{
    let tagged = tag_stretches(alloc, root)?;
    let roles = name_roles(alloc, root)?;
    let tokens = line_tokens(alloc, text, tagged.as_slice(), roles.as_slice())?;
    Ok(tokens)
}

/// The tokens of stretches, by their tags and their roles.
fn line_tokens(
    alloc: Global,
    text: &str,
    tagged: &[Tagged],
    roles: &[Option<Role>],
) -> Result<Vec<Token>, AllocError>
    ensures { IfOk result (λ tokens. tokens.items ≡ spec.stretches text.now tagged.now roles.now) }
{
    let mut tokens = Vec::new(alloc);
    for index in 0..tagged.len() {
        add_stretch(&mut tokens, text, &tagged[index], role_at(roles, index))?;
    }
    Ok(tokens)
}

/// The role of the stretch with this number.
fn role_at(roles: &[Option<Role>], index: usize) -> Option<Role>
    ensures { result ≡ spec.first_role (drop index roles.now) }
{
    match roles.get(index) {
        Some(role) => *role,
        None => None,
    }
}

/// Adds the tokens of a stretch.
pub fn add_stretch(
    tokens: &mut Vec<Token>,
    text: &str,
    stretch: &Tagged,
    role: Option<Role>,
) -> Result<(), AllocError>
    ensures { OnOk result (tokens.new.items ≡ tokens.old.items ++ spec.stretch text.now stretch.now.range.start stretch.now.range.end (styles.style_of stretch.now.tag role)) }
{
    if let Some(style) = style_of(stretch.tag, role) {
        add_lines(tokens, text.as_bytes(), &stretch.range, style)?;
    }
    Ok(())
}

/// Adds what stands between the line ends of a stretch.
fn add_lines(
    tokens: &mut Vec<Token>,
    text: &[u8],
    range: &Range<usize>,
    style: Style,
) -> Result<(), AllocError>
    ensures { OnOk result (tokens.new.items ≡ tokens.old.items ++ spec.stretch text.now range.now.start range.now.end (Some style)) }
{
    let end = range.end.min(text.len());
    let mut start = range.start;
    for at in range.start..end {
        if ends_line(text[at]) {
            add_token(tokens, start, at, style)?;
            start = at + 1;
        }
    }
    add_token(tokens, start, end, style)?;
    Ok(())
}

/// Whether a byte is LF or CR.
fn ends_line(byte: u8) -> bool
    ensures { result ≡ spec.ends_line byte }
{
    byte == b'\n' || byte == b'\r'
}

/// Adds a token, unless it is empty.
fn add_token(
    tokens: &mut Vec<Token>,
    start: usize,
    end: usize,
    style: Style,
) -> Result<(), AllocError>
    ensures { OnOk result (tokens.new.items ≡ tokens.old.items ++ spec.token style start (end - start)) }
{
    if start < end {
        let len = end - start;
        tokens.push(Token { start, len, style })?;
    }
    Ok(())
}

/// The tokens with a byte of a range, where neighbours that are shown alike are one.
fn merge(alloc: Global, tokens: &[Token], within: &Range<usize>) -> Result<Vec<Token>, AllocError>
    ensures { IfOk result (λ merged. merged.items ≡ spec.merged (spec.touching within.now tokens.now)) }
{
    let mut merged = Vec::new(alloc);
    let mut last = None;
    for token in tokens {
        last = take_token(&mut merged, last, token, within)?;
    }
    if let Some(token) = last {
        merged.push(token)?;
    }
    Ok(merged)
}

/// Takes a token after the last one, which another may continue. Gives what is last then.
fn take_token(
    merged: &mut Vec<Token>,
    last: Option<Token>,
    token: &Token,
    within: &Range<usize>,
) -> Result<Option<Token>, AllocError>
    ensures { IfOk result (λ now. spec.IsTaken within.now merged.old.items merged.new.items last now token.now) }
{
    if !token.touches(within) {
        return Ok(last);
    }
    let Some(before) = last else {
        return Ok(Some(*token));
    };
    if before.continues_with(token) {
        return Ok(Some(before.with(token)));
    }
    merged.push(before)?;
    Ok(Some(*token))
}

/// Whether both hold, or neither.
fn is_same(first: bool, second: bool) -> bool
    ensures { result ≡ spec.same_bool first second }
{
    if first { second } else { !second }
}
