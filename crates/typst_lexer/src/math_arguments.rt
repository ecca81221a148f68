//! What is looked for where an argument of a call begins.
ghost use Rattle.std.specs.Prelude.{◌≡◌, ◌==◌, length};
ghost use Rattle.std.specs.Str.{chars};
ghost use Rattle.typst_lexer.specs.ArgumentTokens as spec;
ghost use Rattle.typst_tokens.specs.Reads.{Reads};
ghost use Rattle.typst_tokens.specs.declared.token.Token.{Token};

use typst_kinds::SyntaxKind;
use typst_lines::classes::{Classes, is_id_start};
use typst_lines::sets::IdContinue;
use typst_tokens::{Cursor, Token};

/// The name of a named argument: an Ident, an Underscore, which isn't a name, or End where no named
/// argument begins.
#[tactic(auto, unfolding(crate::specs::ArgumentTokens::named_argument))]
pub fn named_argument<C: Classes>(s: &mut Cursor<'_>, classes: &C) -> Token
    ensures { Reads (spec.named_argument (C.classes classes.now)) s.old result s.new }
{
    match s.peek() {
        Some(c) if is_id_start(c, classes) => {
            s.eat();
            let rest = s.eat_while(&IdContinue(classes));
            before_colon(s, name_token(c, rest))
        }
        _ => Token::plain(SyntaxKind::End),
    }
}

/// The token of a name's first character and the others.
fn name_token(first: char, rest: &str) -> Token
    ensures { result ≡ spec.name_token first (chars rest.now) }
{
    if first == '_' && has_nothing(rest) {
        return Token::plain(SyntaxKind::Underscore);
    }
    Token::plain(SyntaxKind::Ident)
}

fn has_nothing(text: &str) -> bool
    ensures { result ≡ (length (chars text.now) == 0) }
{
    text.is_empty()
}

/// The token, if a colon comes next that begins neither `:=` nor `::=`, or else End.
#[tactic(auto, unfolding(crate::specs::ArgumentTokens::before_colon))]
fn before_colon(s: &mut Cursor<'_>, name: Token) -> Token
    ensures { Reads (spec.before_colon name) s.old result s.new }
{
    if s.eat_word(b":=") {
        return Token::plain(SyntaxKind::End);
    }
    if s.eat_word(b"::=") {
        return Token::plain(SyntaxKind::End);
    }
    match s.peek() {
        Some(':') => name,
        _ => Token::plain(SyntaxKind::End),
    }
}

/// The Dots of an argument that is spread, or End if none begins.
#[tactic(auto, unfolding(crate::specs::ArgumentTokens::spread_argument))]
pub fn spread_argument(s: &mut Cursor<'_>) -> Token
    ensures { Reads spec.spread_argument s.old result s.new }
{
    if s.eat_word(b"..") {
        return before_spread(s);
    }
    Token::plain(SyntaxKind::End)
}

/// Dots, if something comes next that can be spread, or else End.
#[tactic(auto, unfolding(crate::specs::ArgumentTokens::before_spread))]
fn before_spread(s: &mut Cursor<'_>) -> Token
    ensures { Reads spec.before_spread s.old result s.new }
{
    match s.peek() {
        None => Token::plain(SyntaxKind::End),
        Some(c) if ends_spread(c) => Token::plain(SyntaxKind::End),
        Some('/') => match s.second() {
            Some('/' | '*') => Token::plain(SyntaxKind::End),
            _ => Token::plain(SyntaxKind::Dots),
        },
        Some(_) => Token::plain(SyntaxKind::Dots),
    }
}

fn ends_spread(c: char) -> bool
    ensures { result ≡ spec.ends_spread c }
{
    c.is_whitespace() || matches!(c, '.' | ',' | ';' | ')' | '$')
}
