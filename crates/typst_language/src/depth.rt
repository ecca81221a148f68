//! The limit of depth, and what is in place of what lies deeper.

ghost use Rattle.std.specs.Prelude.{◌≡◌, ◌<◌, Bool, refl};
ghost use Rattle.typst_kinds.specs.declared.kind.SyntaxKind.{SyntaxKind as Kind};
ghost use Rattle.typst_language.specs.Calls.Call.{MarkupExpr, CodeExpr, MathExpr, Pattern};
ghost use Rattle.typst_language.specs.Depth as spec;
ghost use Rattle.typst_language.specs.Syntax.Parser.{repeat};
ghost use Rattle.typst_language.specs.View.{MayNest, Means, given_by};

use crate::parser::Parser;
use crate::{AtNewline, ChainSet, Role};
use std::alloc::AllocError;
use typst_kinds::{Names, SyntaxKind};
use typst_lines::{Classes, MathClass};

/// How calls are made: by which classes of characters, how deep they may still nest, and by which
/// functions. Each takes the classes, the parser and how many levels are left, and then what is read.
#[derive(Clone, Copy)]
pub struct Grammar<'g, C, M, D, F, P> {
    pub classes: &'g C,
    pub levels: usize,
    /// Reads an expression of markup.
    pub markup_expr: M,
    /// Reads an expression of code.
    pub code_expr: D,
    /// Reads an expression of a formula.
    pub math_expr: F,
    /// Reads a pattern.
    pub pattern: P,
}

/// What calls are made with: by which classes of characters, how deep they may still nest, and by what. A call
/// reads one level deeper, if one is left.
pub trait Levels: Classes {
    ghost use Rattle.typst_language.specs.View.{Frame};

    // what the calls give
    ghost frame: { Self → Frame };

    // calls may be made above the limit
    ghost may_call: { Self → Type 0 };

    /// How many levels are left.
    fn levels(&self) -> usize
        ensures { result ≡ (frame self.now).levels };

    /// Reads an expression of markup, whether at the start of a line, and in how many brackets; answers
    /// in how many brackets what comes after it is.
    fn markup_expr(
        &self,
        p: &mut Parser<'_>,
        at_start: bool,
        nesting: usize,
    ) -> Result<usize, AllocError>
        requires may { may_call self.now }
        requires above { 0 < (frame self.now).levels }
        ensures { (frame self.now).gives (MarkupExpr at_start nesting) p.old result p.new };

    /// Reads an expression of code, whether atomic; its operators bind at least so tightly.
    fn code_expr(&self, p: &mut Parser<'_>, atomic: bool, least: u8) -> Result<(), AllocError>
        requires may { may_call self.now }
        requires above { 0 < (frame self.now).levels }
        ensures { (frame self.now).gives (CodeExpr atomic least) p.old result p.new };

    /// Reads an expression of a formula, up to one of some signs of attachments; its operators bind at
    /// least so tightly.
    fn math_expr(&self, p: &mut Parser<'_>, least: u8, signs: ChainSet) -> Result<(), AllocError>
        requires may { may_call self.now }
        requires above { 0 < (frame self.now).levels }
        ensures { (frame self.now).gives (MathExpr least signs) p.old result p.new };

    /// Reads a pattern, before which these names were seen; answers which were seen after it.
    fn pattern(&self, p: &mut Parser<'_>, role: Role, names: Names) -> Result<Names, AllocError>
        requires may { may_call self.now }
        requires above { 0 < (frame self.now).levels }
        ensures { (frame self.now).gives (Pattern role names) p.old result p.new };

    // the calls are made by the same classes
    ghost same: { (s : Self) → (frame s).classes ≡ Self.Classes.classes s };
}

impl<'g, C, M, D, F, P> Levels for Grammar<'g, C, M, D, F, P>
where
    C: Classes,
    M: Fn(&C, &mut Parser<'_>, usize, bool, usize) -> Result<usize, AllocError>,
    D: Fn(&C, &mut Parser<'_>, usize, bool, u8) -> Result<(), AllocError>,
    F: Fn(&C, &mut Parser<'_>, usize, u8, ChainSet) -> Result<(), AllocError>,
    P: Fn(&C, &mut Parser<'_>, usize, Role, Names) -> Result<Names, AllocError>,
{
    ghost frame = { λ g. record { classes = C.classes g.classes.now; levels = g.levels; gives = given_by (M.post g.markup_expr g.classes) (D.post g.code_expr g.classes) (F.post g.math_expr g.classes) (P.post g.pattern g.classes) g.levels } };

    ghost same = { λ g. refl };

    ghost may_call = { λ g. MayNest g.levels (M.pre g.markup_expr g.classes) × MayNest g.levels (D.pre g.code_expr g.classes) × MayNest g.levels (F.pre g.math_expr g.classes) × MayNest g.levels (P.pre g.pattern g.classes) };

    fn levels(&self) -> usize {
        self.levels
    }

    #[inline(always)]
    fn markup_expr(
        &self,
        p: &mut Parser<'_>,
        at_start: bool,
        nesting: usize,
    ) -> Result<usize, AllocError> {
        (self.markup_expr)(self.classes, p, self.levels, at_start, nesting)
    }

    #[inline(always)]
    fn code_expr(&self, p: &mut Parser<'_>, atomic: bool, least: u8) -> Result<(), AllocError> {
        (self.code_expr)(self.classes, p, self.levels, atomic, least)
    }

    #[inline(always)]
    fn math_expr(&self, p: &mut Parser<'_>, least: u8, signs: ChainSet) -> Result<(), AllocError> {
        (self.math_expr)(self.classes, p, self.levels, least, signs)
    }

    #[inline(always)]
    fn pattern(&self, p: &mut Parser<'_>, role: Role, names: Names) -> Result<Names, AllocError> {
        (self.pattern)(self.classes, p, self.levels, role, names)
    }
}

impl<'g, C: Classes, M, D, F, P> Classes for Grammar<'g, C, M, D, F, P> {
    ghost classes = { λ g. C.classes g.classes.now };

    ghost lawful = { λ g. C.lawful g.classes.now };

    fn is_xid_start(&self, c: char) -> bool {
        self.classes.is_xid_start(c)
    }

    fn is_xid_continue(&self, c: char) -> bool {
        self.classes.is_xid_continue(c)
    }

    fn is_alphabetic(&self, c: char) -> bool {
        self.classes.is_alphabetic(c)
    }

    fn is_alphanumeric(&self, c: char) -> bool {
        self.classes.is_alphanumeric(c)
    }

    fn is_numeric(&self, c: char) -> bool {
        self.classes.is_numeric(c)
    }

    fn is_word(&self, c: char) -> bool {
        self.classes.is_word(c)
    }

    fn math_class(&self, c: char) -> Option<MathClass> {
        self.classes.math_class(c)
    }

    fn cluster(&self, line: &str) -> usize {
        self.classes.cluster(line)
    }
}

/// At which tokens a sequence stops.
pub trait Stops {
    // the kinds of tokens at which it does
    ghost at: { Self → Kind → Bool };

    /// Whether it stops at a token of this kind.
    fn has(&self, kind: SyntaxKind) -> bool
        ensures { result ≡ at self.now kind };
}

/// A sequence that stops at every token.
#[derive(Clone, Copy)]
pub struct Anywhere;

impl Stops for Anywhere {
    ghost at = { λ s. spec.anywhere };

    fn has(&self, _kind: SyntaxKind) -> bool {
        true
    }
}

/// Reads an expression of markup one level deeper, as [`Levels::markup_expr`]. What lies too deep is
/// skipped, and is in no more brackets.
#[inline(always)]
pub fn deeper_markup_expr<L: Levels>(
    g: &L,
    p: &mut Parser<'_>,
    at_start: bool,
    nesting: usize,
) -> Result<usize, AllocError>
    requires { L.may_call g.now }
    ensures { Means (L.frame g.now) (spec.deeper (MarkupExpr at_start nesting) nesting) p.old result p.new }
{
    if g.levels() == 0 {
        too_deep(g, p, &Anywhere)?;
        return Ok(nesting);
    }
    Ok(g.markup_expr(p, at_start, nesting)?)
}

/// Reads an expression of code one level deeper, as [`Levels::code_expr`]. What lies too deep is skipped.
#[inline(always)]
pub fn deeper_code_expr<L: Levels>(
    g: &L,
    p: &mut Parser<'_>,
    atomic: bool,
    least: u8,
) -> Result<(), AllocError>
    requires { L.may_call g.now }
    ensures { Means (L.frame g.now) (spec.deeper (CodeExpr atomic least) tt) p.old result p.new }
{
    if g.levels() == 0 {
        too_deep(g, p, &Anywhere)?;
        return Ok(());
    }
    Ok(g.code_expr(p, atomic, least)?)
}

/// Reads an expression of a formula one level deeper, as [`Levels::math_expr`]. What lies too deep is
/// skipped.
#[inline(always)]
pub fn deeper_math_expr<L: Levels>(
    g: &L,
    p: &mut Parser<'_>,
    least: u8,
    signs: ChainSet,
) -> Result<(), AllocError>
    requires { L.may_call g.now }
    ensures { Means (L.frame g.now) (spec.deeper (MathExpr least signs) tt) p.old result p.new }
{
    if g.levels() == 0 {
        too_deep(g, p, &Anywhere)?;
        return Ok(());
    }
    Ok(g.math_expr(p, least, signs)?)
}

/// Reads a pattern one level deeper, as [`Levels::pattern`]. What lies too deep is skipped, and no name
/// is seen in it.
#[inline(always)]
pub fn deeper_pattern<L: Levels>(
    g: &L,
    p: &mut Parser<'_>,
    role: Role,
    names: Names,
) -> Result<Names, AllocError>
    requires { L.may_call g.now }
    ensures { Means (L.frame g.now) (spec.deeper (Pattern role names) names) p.old result p.new }
{
    if g.levels() == 0 {
        too_deep(g, p, &Anywhere)?;
        return Ok(names);
    }
    Ok(g.pattern(p, role, names)?)
}

/// Makes one error of what lies too deep.
pub fn too_deep<L: Levels, S: Stops>(g: &L, p: &mut Parser<'_>, stops: &S) -> Result<(), AllocError>
    ensures { Means (L.frame g.now) (spec.too_deep (S.at stops.now)) p.old result p.new }
{
    let from = p.marker();
    let outer = p.enter_rule(AtNewline::Continue);
    skip(g, p, stops)?;
    p.leave(outer, g)?;
    p.wrap_error(from, "maximum parsing depth exceeded")?;
    Ok(())
}

fn skip<L: Levels, S: Stops>(g: &L, p: &mut Parser<'_>, stops: &S) -> Result<usize, AllocError>
    ensures { Means (L.frame g.now) (repeat (spec.skip_one (S.at stops.now)) 0) p.old result p.new }
{
    let mut count = 0;
    'turns: loop {
        let before = p.left();
        let (more, next) = skip_one(g, p, stops, count)?;
        count = next;
        if !p.goes_on(more, before) {
            return Ok(next);
        }
    }
}

fn skip_one<L: Levels, S: Stops>(
    g: &L,
    p: &mut Parser<'_>,
    stops: &S,
    count: usize,
) -> Result<(bool, usize), AllocError>
    ensures { Means (L.frame g.now) (spec.skip_one (S.at stops.now) count) p.old result p.new }
{
    let count = balance(p.current(), count);
    p.eat(g)?;
    Ok((skips(stops, count, p.current()), count))
}

/// How many delimiters are open after a token.
fn balance(kind: SyntaxKind, count: usize) -> usize
    ensures { result ≡ spec.balance kind count }
{
    match kind {
        SyntaxKind::LeftBracket | SyntaxKind::LeftBrace | SyntaxKind::LeftParen => {
            count.saturating_add(1)
        }
        SyntaxKind::RightBracket | SyntaxKind::RightBrace | SyntaxKind::RightParen => {
            count.saturating_sub(1)
        }
        _ => count,
    }
}

fn skips<S: Stops>(stops: &S, count: usize, kind: SyntaxKind) -> bool
    ensures { result ≡ spec.skips (S.at stops.now) count kind }
{
    !((count == 0 && stops.has(kind)) || is_end(kind))
}

/// Whether the kind is End, the end of what may be read.
pub fn is_end(kind: SyntaxKind) -> bool
    ensures { result ≡ spec.is_end kind }
{
    matches!(kind, SyntaxKind::End)
}
