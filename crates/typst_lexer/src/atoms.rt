//! Numbers, and clusters, which stand for one character.
ghost use Rattle.std.specs.Prelude.{◌≡◌, if◌then◌else◌};
ghost use Rattle.typst_lines.specs.Place.{passes};
ghost use Rattle.typst_lexer.specs.Atoms as spec;
ghost use Rattle.typst_tokens.specs.Reader.{Reader};
ghost use Rattle.typst_tokens.specs.Reads.{Reads};
ghost use Rattle.typst_tokens.specs.Sight.{sight};
ghost use Rattle.typst_tokens.specs.Memory.{Memory};
ghost use Rattle.typst_tokens.specs.declared.token.Token.{Token};

use typst_kinds::SyntaxKind;
use typst_lines::classes::Classes;
use typst_lines::{CharSet, ScannerExt};
use typst_tokens::{Cursor, Token};

/// The set of the numeric characters.
#[derive(Clone, Copy)]
struct Numeric<'a, C: Classes>(&'a C);

impl<C: Classes> CharSet for Numeric<'_, C> {
    ghost members = { λ s. (C.classes s.0.now).numeric };

    #[inline]
    fn has(&self, c: char) -> bool {
        self.0.is_numeric(c)
    }
}

/// A number or a cluster that begins with the character, which comes next.
#[inline(always)]
#[tactic(auto, unfolding(crate::specs::Atoms::text))]
pub(crate) fn text<C: Classes>(s: &mut Cursor<'_>, c: char, classes: &C) -> Token
    ensures { Reads (spec.text (C.classes classes.now) c) s.old result s.new }
{
    if classes.is_numeric(c) {
        return number(s, classes);
    }
    cluster(s, classes)
}

/// Numeric characters, and a dot with more of them.
#[inline(always)]
#[tactic(auto, unfolding(crate::specs::Atoms::number))]
fn number<C: Classes>(s: &mut Cursor<'_>, classes: &C) -> Token
    ensures { Reads (spec.number (C.classes classes.now)) s.old result s.new }
{
    s.eat_while(&Numeric(classes));
    if fraction_follows(s, classes) {
        s.eat();
        s.eat_while(&Numeric(classes));
        return Token::plain(SyntaxKind::MathText);
    }
    Token::plain(SyntaxKind::MathText)
}

/// Whether a dot before a numeric character comes next.
fn fraction_follows<C: Classes>(s: &mut Cursor<'_>, classes: &C) -> bool
    ensures { (found other : Reader Memory Token) → sight (spec.before_fraction (C.classes classes.now) found other) s.old ≡ sight (if result then found else other) s.new }
{
    s.peek() == Some('.') && is_numeric(s.second(), classes)
}

fn is_numeric<C: Classes>(c: Option<char>, classes: &C) -> bool
    ensures { result ≡ passes (C.classes classes.now).numeric c }
{
    match c {
        Some(c) => classes.is_numeric(c),
        None => false,
    }
}

/// A cluster of the rest of the line.
#[inline(always)]
pub(crate) fn cluster<C: Classes>(s: &mut Cursor<'_>, classes: &C) -> Token
    ensures { Reads (spec.cluster (C.classes classes.now)) s.old result s.new }
{
    let start = s.ahead();
    let line = s.see_line();
    if line.is_empty() {
        s.eat();
        return Token::plain(SyntaxKind::MathText);
    }
    let mut end = start;
    end.advance(classes.cluster(line));
    s.skip(end.since(&start));
    Token::plain(SyntaxKind::MathText)
}
