//! The expressions of markup.

ghost use Rattle.std.specs.Prelude.{◌≡◌, ◌<◌, OnOk, false};
ghost use Rattle.typst_kinds.specs.Kinds.{is_error};
ghost use Rattle.typst_language.specs.View.{Means, Rewrapped};
ghost use Rattle.typst_markup.specs.Markup as spec;
ghost use Rattle.typst_markup.specs.Outside.{MeansOutside};
ghost use Rattle.typst_markup.specs.Stops.{stops_at};

use crate::embedding::embedded;
use crate::equations::equation;
use crate::head::{MarkupHead, markup_head};
use crate::references::reference;
use crate::sequences::{markup, markup_with_trivia};
use crate::stops::Stop;
use std::alloc::AllocError;
use typst_kinds::SyntaxKind;
use typst_language::{AtNewline, Levels, Parser};

/// `*..*`
pub fn strong<L: Levels>(g: &L, p: &mut Parser<'_>) -> Result<(), AllocError>
    requires { L.may_call g.now }
    ensures { Means (L.frame g.now) spec.strong p.old result p.new }
{
    delimited(
        g,
        p,
        SyntaxKind::Strong,
        Stop::Strong,
        SyntaxKind::Star,
        "no text within stars",
        "using multiple consecutive stars (e.g. **) has no additional effect",
    )?;
    Ok(())
}

/// `_.._`
pub fn emph<L: Levels>(g: &L, p: &mut Parser<'_>) -> Result<(), AllocError>
    requires { L.may_call g.now }
    ensures { Means (L.frame g.now) spec.emph p.old result p.new }
{
    delimited(
        g,
        p,
        SyntaxKind::Emph,
        Stop::Emph,
        SyntaxKind::Underscore,
        "no text within underscores",
        "using multiple consecutive underscores (e.g. __) has no additional effect",
    )?;
    Ok(())
}

/// Reads what is between two tokens of a kind, with these.
fn delimited<L: Levels>(
    g: &L,
    p: &mut Parser<'_>,
    kind: SyntaxKind,
    stop: Stop,
    delimiter: SyntaxKind,
    warning: &str,
    hint: &str,
) -> Result<(), AllocError>
    requires may { L.may_call g.now }
    requires fine { is_error kind ≡ false }
    ensures { Means (L.frame g.now) (spec.delimited kind (stops_at stop) delimiter warning.now hint.now) p.old result p.new }
{
    let outer = p.enter_rule(AtNewline::StopParBreak);
    let from = p.marker();
    p.eat(g)?;
    let is_empty = markup_with_trivia(g, p, false, stop)?;
    let closed = p.eat_if(p.current() == delimiter, g)?;
    wrap_emphasized(p, from, kind, closed, is_empty, warning, hint)?;
    p.leave(outer, g)?;
    Ok(())
}

/// Makes one node of two delimiters and what is between them. If the second one is missing the first becomes an
/// error, and if nothing is between them there is a warning.
fn wrap_emphasized(
    p: &mut Parser<'_>,
    from: usize,
    kind: SyntaxKind,
    closed: bool,
    is_empty: bool,
    warning: &str,
    hint: &str,
) -> Result<(), AllocError>
    requires { is_error kind ≡ false }
    ensures { OnOk result (Rewrapped from (spec.emphasized kind warning.now hint.now (closed, is_empty)) p.old p.new) }
{
    if closed && is_empty {
        p.wrap_with_warning(from, kind, warning, hint)?;
        return Ok(());
    }
    p.wrap_enclosed(from, kind, closed)?;
    Ok(())
}

/// `= ..`
pub fn heading<L: Levels>(g: &L, p: &mut Parser<'_>) -> Result<(), AllocError>
    requires { L.may_call g.now }
    ensures { Means (L.frame g.now) spec.heading p.old result p.new }
{
    let outer = p.enter_rule(AtNewline::Stop);
    let from = p.marker();
    p.eat(g)?;
    markup(g, p, false, Stop::Heading)?;
    p.wrap(from, SyntaxKind::Heading)?;
    p.leave(outer, g)?;
    Ok(())
}

/// `- ..`, `+ ..` or `1. ..`
pub fn item<L: Levels>(g: &L, p: &mut Parser<'_>, kind: SyntaxKind) -> Result<(), AllocError>
    requires may { L.may_call g.now }
    requires fine { is_error kind ≡ false }
    ensures { Means (L.frame g.now) (spec.item kind) p.old result p.new }
{
    let column = p.current_column();
    let outer = p.enter_rule(AtNewline::RequireColumn(column));
    let from = p.marker();
    p.eat(g)?;
    markup(g, p, true, Stop::Block)?;
    p.wrap(from, kind)?;
    p.leave(outer, g)?;
    Ok(())
}

/// `/ Term: ..`
pub fn term_item<L: Levels>(g: &L, p: &mut Parser<'_>) -> Result<(), AllocError>
    requires { L.may_call g.now }
    ensures { Means (L.frame g.now) spec.term_item p.old result p.new }
{
    let column = p.current_column();
    let outer = p.enter_rule(AtNewline::RequireColumn(column));
    let from = p.marker();
    let item = p.enter_rule(AtNewline::Stop);
    p.eat(g)?;
    markup(g, p, false, Stop::Term)?;
    p.leave(item, g)?;
    p.expect(p.current() == SyntaxKind::Colon, "colon", g)?;
    markup(g, p, true, Stop::Block)?;
    p.wrap(from, SyntaxKind::TermItem)?;
    p.leave(outer, g)?;
    Ok(())
}

/// Reads one expression of markup, at the start of a line or not, and in so many brackets; answers in how many
/// brackets what comes next is.
pub fn markup_expr<L: Levels>(
    g: &L,
    p: &mut Parser<'_>,
    at_start: bool,
    nesting: usize,
) -> Result<usize, AllocError>
    requires { L.may_call g.now }
    ensures { MeansOutside (L.frame g.now) (spec.markup_expr at_start nesting) p.old result p.new }
{
    match markup_head(at_start, nesting, p.current()) {
        MarkupHead::Itself => p.eat(g)?,
        MarkupHead::Opening => {
            p.convert_and_eat(SyntaxKind::Text, g)?;
            return Ok(nesting.saturating_add(1));
        }
        MarkupHead::Closing => {
            p.convert_and_eat(SyntaxKind::Text, g)?;
            return Ok(nesting.saturating_sub(1));
        }
        MarkupHead::Stray => {
            p.unexpected_with_hint("try using a backslash escape: \\]", g)?;
        }
        MarkupHead::Strong => strong(g, p)?,
        MarkupHead::Emph => emph(g, p)?,
        MarkupHead::Heading => heading(g, p)?,
        MarkupHead::ListItem => item(g, p, SyntaxKind::ListItem)?,
        MarkupHead::EnumItem => item(g, p, SyntaxKind::EnumItem)?,
        MarkupHead::TermItem => term_item(g, p)?,
        MarkupHead::Reference => reference(g, p)?,
        MarkupHead::Embedded => embedded(g, p)?,
        MarkupHead::Equation => equation(g, p)?,
        MarkupHead::Plain => p.convert_and_eat(SyntaxKind::Text, g)?,
        MarkupHead::Unexpected => p.unexpected(g)?,
    }
    Ok(nesting)
}
