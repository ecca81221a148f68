//! Plain text of markup.
ghost use Rattle.std.specs.Prelude.{◌≡◌, not, if◌then◌else◌};
ghost use Rattle.typst_kinds.specs.declared.kind.SyntaxKind.TheVariants.{Text};
ghost use Rattle.typst_tokens.specs.Memory.Memory.{blank};
ghost use Rattle.typst_tokens.specs.Token.{plain};
ghost use Rattle.typst_tokens.specs.Reader.Turn.{leave, go};
ghost use Rattle.typst_tokens.specs.Reads.{Reads};
ghost use Rattle.typst_tokens.specs.Sight.{regard};
ghost use Rattle.typst_tokens.specs.Text as spec;
ghost use Rattle.typst_tokens.specs.Text.{may_stop};

use crate::markup_sets::{is_plain, passes_before};
use crate::{Cursor, PairSet, Token};
use typst_kinds::SyntaxKind;
use typst_lines::CharSet;
use typst_lines::classes::Classes;
use typst_lines::labels::is_valid_in_label_literal;

/// What is text in any case, and what flows on in a text by the character that follows.
#[derive(Clone, Copy)]
struct Flow<'a, C: Classes> {
    classes: &'a C,
}

impl<C: Classes> CharSet for Flow<'_, C> {
    ghost members = { λ _ c. not (may_stop c) };

    #[inline]
    fn has(&self, c: char) -> bool {
        is_plain(c)
    }
}

impl<C: Classes> PairSet for Flow<'_, C> {
    ghost use Rattle.typst_tokens.specs.Flow.{flows};

    ghost before = { λ f c next. flows (C.classes f.classes.now).alphanumeric c next };

    #[inline]
    fn has_before(&self, c: char, next: Option<char>) -> bool {
        match (c, next) {
            (' ', Some(next)) => self.classes.is_alphanumeric(next),
            ('h', next) => !matches!(next, Some('t')),
            _ => false,
        }
    }

    #[inline(always)]
    fn has_bytes(&self, c: u8, next: u8) -> bool {
        passes_before(c, next)
    }
}

/// What is left of a plain text, as its token.
#[inline(always)]
pub(crate) fn text<C: Classes>(s: &mut Cursor<'_>, classes: &C) -> Token
    ensures { Reads (spec.text (C.classes classes.now)) s.old result s.new }
{
    pass(s, classes);
    Token::plain(SyntaxKind::Text)
}

/// A text that the next character begins.
#[inline(always)]
pub fn text_from<C: Classes>(s: &mut Cursor<'_>, classes: &C) -> Token
    ensures { Reads (spec.text_from (C.classes classes.now)) s.old result s.new }
{
    pass_from(s, classes);
    Token::plain(SyntaxKind::Text)
}

/// Goes past a text that the next character begins.
#[inline(never)]
#[tactic(auto, unfolding(crate::specs::Text::text_from))]
fn pass_from<C: Classes>(s: &mut Cursor<'_>, classes: &C)
    ensures { Reads (spec.text_from (C.classes classes.now)) s.old (plain Text) s.new }
{
    s.eat();
    pass(s, classes);
}

/// Goes past what is left of a text.
#[inline(always)]
#[tactic(auto, unfolding(crate::specs::Text::text))]
fn pass<C: Classes>(s: &mut Cursor<'_>, classes: &C)
    ensures { Reads (spec.text (C.classes classes.now)) s.old (plain Text) s.new }
{
    let flow = Flow { classes };
    let mut next = s.go_past(&flow);
    while let Some(c) = next {
        if !goes_on(c, s, classes) {
            return;
        }
        s.eat();
        next = s.go_past(&flow);
    }
}

/// Whether a text goes on through the character, which comes next.
#[inline]
fn goes_on<C: Classes>(c: char, s: &mut Cursor<'_>, classes: &C) -> bool
    ensures { regard (spec.text_step (C.classes classes.now) c) s.old ≡ (if result then go blank else leave, s.new) }
{
    match c {
        ' ' => match s.second() {
            Some(next) => classes.is_alphanumeric(next),
            None => false,
        },
        '/' => !matches!(s.second(), Some('/' | '*')),
        '-' => !matches!(s.second(), Some('-' | '?')),
        '.' => !s.word_after(b".."),
        'h' => !s.word_after(b"ttp://") && !s.word_after(b"ttps://"),
        '@' => match s.second() {
            Some(next) => !is_valid_in_label_literal(next, classes),
            None => true,
        },
        _ => !crate::markup_sets::may_stop(c),
    }
}
