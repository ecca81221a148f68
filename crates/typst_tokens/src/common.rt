//! The tokens that all modes share.
ghost use Rattle.std.specs.Prelude.{◌≡◌, false};
ghost use Rattle.std.specs.Str.{chars};
ghost use Rattle.typst_tokens.specs.Common as spec;
ghost use Rattle.typst_tokens.specs.Reads.{Reads};
ghost use Rattle.typst_tokens.specs.declared.token.Token.{Token};

use crate::Cursor;
use crate::sets::Whitespace;
use crate::token::{Fault, Token};
use typst_kinds::{SyntaxKind, SyntaxMode};
use typst_lines::sets::InLine;
use typst_lines::{Scanner, is_newline};

/// A token of one character.
#[inline]
#[tactic(auto, unfolding(crate::specs::Common::sign))]
pub fn sign(s: &mut Cursor<'_>, kind: SyntaxKind) -> Token
    ensures { Reads (spec.sign kind) s.old result s.new }
{
    s.eat();
    Token::plain(kind)
}

/// How many lines end in the text, of which most are one space.
#[inline(always)]
fn line_ends(text: &str) -> usize
    ensures { result ≡ spec.line_ends false (chars text.now) }
{
    if let [byte] = text.as_bytes() {
        if *byte == b' ' {
            return 0;
        }
    }
    count_newlines(text)
}

/// How many lines end in the text, counted character by character.
fn count_newlines(text: &str) -> usize
    ensures { result ≡ spec.line_ends false (chars text.now) }
{
    let mut s = Scanner::new(text);
    let mut ends = 0usize;
    let mut after_cr = false;
    while let Some(c) = s.eat() {
        if is_newline(c) & !(after_cr & (c == '\n')) {
            ends += 1;
        }
        after_cr = c == '\r';
    }
    ends
}

fn is_parbreak(mode: SyntaxMode, ends: usize) -> bool
    ensures { result ≡ spec.is_parbreak mode ends }
{
    match mode {
        SyntaxMode::Markup => ends > 1,
        SyntaxMode::Math => false,
        SyntaxMode::Code => false,
    }
}

/// Whitespace: the whole run that comes next.
#[inline(always)]
#[tactic(auto, unfolding(crate::specs::Common::whitespace))]
pub fn whitespace(s: &mut Cursor<'_>, mode: SyntaxMode) -> Token
    ensures { Reads (spec.whitespace mode) s.old result s.new }
{
    let ends = line_ends(s.eat_while(&Whitespace(mode)));
    Token {
        kind: if is_parbreak(mode, ends) {
            SyntaxKind::Parbreak
        } else {
            SyntaxKind::Space
        },
        newline: ends > 0,
        fault: None,
    }
}

/// A shebang: `#!` and the rest of its line.
#[tactic(auto, unfolding(crate::specs::Common::shebang))]
pub fn shebang(s: &mut Cursor<'_>) -> Token
    ensures { Reads spec.shebang s.old result s.new }
{
    s.eat_while(&InLine);
    Token::plain(SyntaxKind::Shebang)
}

/// A line comment: `//` and the rest of its line.
#[tactic(auto, unfolding(crate::specs::Common::line_comment))]
pub fn line_comment(s: &mut Cursor<'_>) -> Token
    ensures { Reads spec.line_comment s.old result s.new }
{
    s.eat_while(&InLine);
    Token::plain(SyntaxKind::LineComment)
}

/// A block comment: `/*` and all up to its `*/`, or to the end. Comments nest.
#[tactic(auto, unfolding(crate::specs::Common::block_comment))]
pub fn block_comment(s: &mut Cursor<'_>) -> Token
    ensures { Reads spec.block_comment s.old result s.new }
{
    s.eat_two();
    let mut before = '\0';
    let mut depth = 0usize;
    // The first `*/` without a `/*` of its own ends the comment.
    while let Some(c) = s.eat() {
        if before == '*' && c == '/' {
            if depth == 0 {
                return Token::plain(SyntaxKind::BlockComment);
            }
            depth -= 1;
            before = '\0';
        } else if before == '/' && c == '*' {
            depth += 1;
            before = '\0';
        } else {
            before = c;
        }
    }
    Token::plain(SyntaxKind::BlockComment)
}

/// `*/` where no comment is open, an error.
#[tactic(auto, unfolding(crate::specs::Common::comment_end))]
pub fn comment_end(s: &mut Cursor<'_>) -> Token
    ensures { Reads spec.comment_end s.old result s.new }
{
    s.eat_two();
    Token::faulty(Fault::CommentEnd)
}
