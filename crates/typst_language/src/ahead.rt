//! The token that is read ahead.

ghost use Rattle.std.specs.Prelude.{◌≡◌, ◌++◌, ◌∷◌, [], IfOk, OnOk, OnErr, length, take};
ghost use Rattle.std.specs.Str.{chars};
ghost use Rattle.typst_lexer.specs.Nodes.{token_node};
ghost use Rattle.typst_kinds.specs.Kinds.{is_error};
ghost use Rattle.typst_lines.specs.Scanner.{place};
ghost use Rattle.typst_language.specs.Hand as spec;
ghost use Rattle.typst_language.specs.Point as point;
ghost use Rattle.typst_language.specs.Bytes as bytes;
ghost use Rattle.typst_language.specs.Bytes.{bytes_left};
ghost use Rattle.typst_language.specs.AheadCursor.{IsAhead, Stands};

use crate::log::joined;
use crate::nodes::clear;
use crate::{AtNewline, Newlines, Reading};
use std::alloc::{AllocError, Global};
use typst_kinds::{SyntaxKind, SyntaxMode};
use typst_lexer::lexer::{lone_space, token};
use typst_lexer::{is_leaf, leaf_node, make_node};
use typst_lines::{Classes, Scanner};
use typst_tokens::column::column;
use typst_tokens::{Hull, LineEnd, Token};
use typst_tree::SyntaxNode;

/// The current token, without the nodes of the trivia before it.
#[derive(Clone, Copy)]
pub struct ReadAhead<'s> {
    /// Whether the token was asked for. If not, it stands for nothing.
    pub is_read: bool,
    /// Where the trivia begin.
    pub before: Scanner<'s>,
    /// Where the token begins.
    pub start: Scanner<'s>,
    /// Where the token ends.
    pub after: Scanner<'s>,
    /// The newlines before the token, also those that became nodes already.
    pub newlines: Newlines,
    pub token: Token,
    /// The token's kind, or End if the newline rule stops.
    pub kind: SyntaxKind,
    /// What was looked at for the token.
    pub own: Hull,
    /// What was looked at for the token, and for its column if the newline rule asks for it.
    pub here: Hull,
    /// The end of a line of the text that is known.
    pub line: LineEnd<'s>,
}

impl<'s> ReadAhead<'s> {
    ghost use Rattle.std.specs.Prelude.{false};

    /// No token, at a place.
    pub fn none(at: Scanner<'s>) -> ReadAhead<'s>
        ensures stands { Stands result }
        ensures before { result.before ≡ at.entry }
        ensures unread { result.is_read ≡ false }
    {
        let nothing = Hull { reach: 0, least: 0 };
        ReadAhead {
            is_read: false,
            before: at,
            start: at,
            after: at,
            newlines: no_newlines(),
            token: Token {
                kind: SyntaxKind::End,
                newline: false,
                fault: None,
            },
            kind: SyntaxKind::End,
            own: nothing,
            here: nothing,
            line: LineEnd::of_text(at.string()),
        }
    }

    /// Passes the token. What comes after it wasn't asked for.
    #[inline(always)]
    pub fn pass(&mut self)
        ensures { self.new ≡ record self.old { is_read = false; before = self.old.after; start = self.old.after } }
    {
        let after = self.after;
        self.is_read = false;
        self.before = after;
        self.start = after;
    }

    /// Reads trivia, of which these become the nodes, and a token, and answers all that was looked at for them. A
    /// single space, as most trivia are, becomes its node at once.
    pub fn read<C: Classes>(
        &mut self,
        trivia: &mut Vec<SyntaxNode>,
        alloc: Global,
        held: Reading,
        classes: &C,
    ) -> Result<Hull, AllocError>
        requires { self.old.line.text.now ≡ self.old.before.text.now }
        ensures read { OnOk result (IsAhead (C.classes classes.now) held self.old.before trivia.new.items self.new) }
        ensures hull { IfOk result (λ u. u ≡ bytes.whole_at (C.classes classes.now) held (place self.old.before)) }
        ensures refused { OnErr result (Stands self.old → Stands self.new) }
    {
        clear(trivia);
        let mut newlines = no_newlines();
        let mut start = self.before;
        let mut tokens = Hull {
            reach: 0,
            least: usize::MAX,
        };
        'tokens: loop {
            if let Some(space) = lone_space(start, self.line) {
                tokens = joined(tokens, space.hull);
                let node = SyntaxNode::leaf(alloc, SyntaxKind::Space, " ")?;
                trivia.push(node)?;
                start = space.after;
                continue;
            }
            let next = token(alloc, start, &mut self.line, held.mode, classes)?;
            tokens = joined(tokens, next.hull);
            if !next.token.kind.is_trivia() || left(&start) <= left(&next.after) {
                let (kind, here) = judged(held, newlines, next.token.kind, &start, next.hull);
                self.is_read = true;
                self.start = start;
                self.after = next.after;
                self.newlines = newlines;
                self.token = next.token;
                self.kind = kind;
                self.own = next.hull;
                self.here = here;
                return Ok(joined(tokens, here));
            }
            let text = next.after.since(&start);
            push_node(trivia, alloc, next.token, text, start.after(), classes)?;
            newlines = with_token(newlines, next.token);
            start = next.after;
        }
    }
}

/// Adds the node of a token that took the text, which `rest` begins with, after the others.
#[inline(always)]
fn push_node<C: Classes>(
    nodes: &mut Vec<SyntaxNode>,
    alloc: Global,
    token: Token,
    text: &str,
    rest: &str,
    classes: &C,
) -> Result<(), AllocError>
    requires { take (length (chars text.now)) (chars rest.now) ≡ chars text.now }
    ensures { OnOk result (nodes.new.items ≡ nodes.old.items ++ token_node (C.classes classes.now) token (chars text.now) ∷ []) }
{
    if is_leaf(token) {
        let node = leaf_node(alloc, token, text, rest)?;
        nodes.push(node)?;
        return Ok(());
    }
    let node = make_node(alloc, token, text, classes)?;
    nodes.push(node)?;
    Ok(())
}

/// How many bytes are ahead.
pub fn left(s: &Scanner<'_>) -> usize
    ensures { result ≡ bytes_left (place s.now) }
{
    s.after().len()
}

/// No newlines were passed.
pub fn no_newlines() -> Newlines
    ensures { result ≡ point.no_newlines }
{
    Newlines {
        any: false,
        parbreak: false,
    }
}

/// Newlines, with those of a trivia token.
fn with_token(newlines: Newlines, token: Token) -> Newlines
    ensures { result ≡ spec.both_newlines newlines (spec.newlines_of token) }
{
    Newlines {
        any: newlines.any | token.newline,
        parbreak: newlines.parbreak | is_parbreak(token.kind),
    }
}

fn is_parbreak(kind: SyntaxKind) -> bool
    ensures { result ≡ spec.is_parbreak kind }
{
    matches!(kind, SyntaxKind::Parbreak)
}

/// The kind of a token, or End if the newline rule stops; and what was looked at for the token, with its column if
/// the rule asks for it.
#[inline(always)]
pub fn judged(
    held: Reading,
    newlines: Newlines,
    kind: SyntaxKind,
    start: &Scanner<'_>,
    own: Hull,
) -> (SyntaxKind, Hull)
    ensures kind { result.0 ≡ spec.judged held newlines kind (spec.column_at (place start.now)) }
    ensures here { result.1 ≡ bytes.column_hull held newlines (place start.now) own }
{
    let (stops, here) = stops(held, newlines, kind, start, own);
    if stops {
        (SyntaxKind::End, here)
    } else {
        (kind, here)
    }
}

#[inline(always)]
fn stops(
    held: Reading,
    newlines: Newlines,
    kind: SyntaxKind,
    start: &Scanner<'_>,
    own: Hull,
) -> (bool, Hull)
    ensures stops { result.0 ≡ spec.stops held newlines kind (spec.column_at (place start.now)) }
    ensures here { result.1 ≡ bytes.column_hull held newlines (place start.now) own }
{
    if !newlines.any {
        return (false, own);
    }
    match held.at_newline {
        AtNewline::Continue => (false, own),
        AtNewline::Stop => (true, own),
        AtNewline::ContextualContinue => (!goes_on(kind), own),
        AtNewline::StopParBreak => (newlines.parbreak, own),
        AtNewline::RequireColumn(least) => {
            if !is_markup(held.mode) {
                return (false, own);
            }
            let (column, line) = column(start);
            (column <= least, joined(own, line))
        }
    }
}

fn goes_on(kind: SyntaxKind) -> bool
    ensures { result ≡ spec.goes_on kind }
{
    matches!(kind, SyntaxKind::Else | SyntaxKind::Dot)
}

fn is_markup(mode: SyntaxMode) -> bool
    ensures { result ≡ spec.is_markup mode }
{
    matches!(mode, SyntaxMode::Markup)
}
