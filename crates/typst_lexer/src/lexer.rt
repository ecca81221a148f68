//! The lexer: what comes next in a text, token by token.
ghost use Rattle.std.specs.Prelude.{◌≡◌, ◌≤◌, ◌<◌, ◌^◌, IfOk, IfSome, OnOk, OnErr, IsSome, Some, true, false, take};
ghost use Rattle.std.specs.Str.{chars, IsCharBoundary};
ghost use Rattle.typst_tokens.specs.Column.{column_at};
ghost use Rattle.typst_tokens.specs.Reader.{Reader, exec, eaten};
ghost use Rattle.typst_tokens.specs.Reads.{Reads, Scans};
ghost use Rattle.typst_lexer.specs.Tokens as spec;
ghost use Rattle.typst_lexer.specs.ArgumentTokens.{named_argument as named, spread_argument as spread};
ghost use Rattle.typst_lines.specs.Place.{place_at, scout};
ghost use Rattle.typst_lines.specs.Scanner.{place as place_of};
ghost use Rattle.typst_lines.specs.declared.scanner.Scanner.{Scanner as Start};
ghost use Rattle.typst_tokens.specs.Sight.{fresh};
ghost use Rattle.typst_tokens.specs.Memory.{Memory};
ghost use Rattle.typst_tokens.specs.Token.{plain};
ghost use Rattle.typst_tokens.specs.declared.token.Token.{Token};
ghost use Rattle.typst_lines.specs.Classes.{CharClasses};
ghost use Rattle.typst_lines.specs.Place.{moved, scout};
ghost use Rattle.typst_kinds.specs.declared.kind.SyntaxKind.TheVariants as kind;
ghost use Rattle.typst_kinds.specs.declared.mode.SyntaxMode.{SyntaxMode};

use crate::math::math;
use crate::math_arguments;
use std::alloc::{AllocError, Global};
use typst_kinds::{SyntaxKind, SyntaxMode};
use typst_lines::Scanner;
use typst_lines::classes::Classes;
use typst_tokens::code::code;
use typst_tokens::column::column;
use typst_tokens::common::{block_comment, comment_end, line_comment, shebang, whitespace};
use typst_tokens::markup::markup;
use typst_tokens::raw::raw;
use typst_tokens::sets::is_space;
use typst_tokens::{Cursor, Hull, LineEnd, Token};

/// Where a lexer is in a text, with the end of a line that is known already.
#[derive(Clone, Copy)]
struct LexerPosition<'a> {
    s: Scanner<'a>,
    line: LineEnd<'a>,
    ghost same_text: { line.text.now ≡ s.text.now },
}

/// Reads a text token by token, in one mode or another.
#[derive_where(Clone, Copy)]
pub struct Lexer<'a, C: Classes> {
    at: LexerPosition<'a>,
    mode: SyntaxMode,
    newline: bool,
    classes: &'a C,
}

impl<'a, C: Classes> Lexer<'a, C> {
    ghost use Rattle.typst_lexer.specs.Lexer.{text_of, place, cursor_of, mode_of, newline_of};

    /// A lexer at the text's start.
    pub fn new(text: &'a str, mode: SyntaxMode, classes: &'a C) -> Self
        ensures place { place result ≡ place_at text.now 0 }
        ensures text { text_of result ≡ text.now }
        ensures mode { mode_of result ≡ mode }
        ensures newline { newline_of result ≡ false }
        ensures classes { result.classes.now ≡ classes.now }
    {
        let at = LexerPosition {
            s: Scanner::new(text),
            line: LineEnd::of_text(text),
        };
        Lexer {
            at,
            mode,
            newline: false,
            classes,
        }
    }

    /// The mode in which the lexer reads.
    pub fn mode(&self) -> SyntaxMode
        ensures { result ≡ mode_of self.now }
    {
        self.mode
    }

    /// Reads on in the mode.
    pub fn set_mode(&mut self, mode: SyntaxMode)
        ensures mode { mode_of self.new ≡ mode }
        ensures place { place self.new ≡ place self.old }
        ensures text { text_of self.new ≡ text_of self.old }
        ensures newline { newline_of self.new ≡ newline_of self.old }
        ensures classes { self.new.classes.now ≡ self.old.classes.now }
    {
        self.mode = mode;
    }

    /// The cursor, in bytes from the text's start.
    pub fn cursor(&self) -> usize
        ensures cursor { result ≡ cursor_of self.now }
        ensures boundary { IsCharBoundary (text_of self.now) result }
        ensures place { place self.now ≡ place_at (text_of self.now) result }
    {
        self.at.s.cursor()
    }

    /// Goes to a byte offset of the text, on a character boundary.
    pub fn jump(&mut self, index: usize)
        requires { IsCharBoundary (text_of self.old) index }
        ensures place { place self.new ≡ place_at (text_of self.old) index }
        ensures cursor { cursor_of self.new ≡ index }
        ensures mode { mode_of self.new ≡ mode_of self.old }
        ensures text { text_of self.new ≡ text_of self.old }
        ensures newline { newline_of self.new ≡ newline_of self.old }
        ensures classes { self.new.classes.now ≡ self.old.classes.now }
    {
        let mut s = self.at.s;
        s.jump(index);
        let line = self.at.line;
        self.at = LexerPosition { s, line };
    }

    /// The class value by which it reads.
    pub fn classes(&self) -> &'a C
        ensures { result.now ≡ self.now.classes.now }
    {
        self.classes
    }

    /// Whether a line ended in the token that was read last.
    pub fn newline(&self) -> bool
        ensures { result ≡ newline_of self.now }
    {
        self.newline
    }

    /// How many characters are between the last newline character before an index, or the
    /// text's start, and the index, which is a byte offset on a character boundary.
    pub fn column(&self, index: usize) -> usize
        requires { IsCharBoundary (text_of self.now) index }
        ensures { result ≡ column_at (place_at (text_of self.now) index) }
    {
        let mut s = self.at.s;
        s.jump(index);
        column(&s).0
    }

    /// Reads a token, and gives it with its text. This takes no memory except for the brackets of a link. If
    /// memory is refused, nothing changes.
    pub fn scan(&mut self, alloc: Global) -> Result<(Token, &'a str), AllocError>
        ensures reads { IfOk result (λ r. exec (spec.token (C.classes self.old.classes.now) (mode_of self.old)) (place self.old) ≡ (r.0, place self.new)) }
        ensures characters { IfOk result (λ r. chars r.1.now ≡ take (eaten (spec.token (C.classes self.old.classes.now) (mode_of self.old)) (place self.old)) (place self.old).ahead) }
        ensures goes_on { IsSome (scout 0 (place self.old)) → 1 ≤ eaten (spec.token (C.classes self.old.classes.now) (mode_of self.old)) (place self.old) }
        ensures newline { IfOk result (λ r. newline_of self.new ≡ r.0.newline) }
        ensures mode { mode_of self.new ≡ mode_of self.old }
        ensures text { text_of self.new ≡ text_of self.old }
        ensures classes { self.new.classes.now ≡ self.old.classes.now }
        ensures refused { OnErr result (self.new ≡ self.old) }
    {
        let mut line = self.at.line;
        let read = token(alloc, self.at.s, &mut line, self.mode, self.classes)?;
        let text = read.after.since(&self.at.s);
        self.at = LexerPosition {
            s: read.after,
            line,
        };
        self.newline = read.token.newline;
        Ok((read.token, text))
    }
}

/// A token that was read, where it ends, and the bytes that were looked at for it.
#[derive(Clone, Copy)]
pub struct Read<'a> {
    pub token: Token,
    pub after: Scanner<'a>,
    pub hull: Hull,
}

/// The token of the mode that comes next. This takes no memory except for the brackets of a link. What is known of
/// the end of a line goes from token to token, so that each line is gone through once for it.
#[inline(always)]
pub fn token<'a, C: Classes>(
    alloc: Global,
    start: Scanner<'a>,
    line: &mut LineEnd<'a>,
    mode: SyntaxMode,
    classes: &C,
) -> Result<Read<'a>, AllocError>
    requires { line.old.text.now ≡ start.text.now }
    ensures scans { IfOk result (λ r. Scans (spec.token (C.classes classes.now) mode) start.entry r.token r.hull r.after) }
    ensures fits { IfOk result (λ r. r.hull.least < 2 ^ 64) }
    ensures line_text { line.new.text.now ≡ line.old.text.now }
{
    let mut cursor = Cursor::on_line(start, *line);
    let token = next_token(alloc, &mut cursor, mode, classes)?;
    *line = cursor.line();
    Ok(read_up_to(cursor, token))
}

/// A token that was read up to a cursor's place.
#[inline(always)]
fn read_up_to(cursor: Cursor<'_>, token: Token) -> Read<'_>
    ensures scans { (r : Reader Memory Token) (start : Start) → Reads r (fresh (place_of start)) token cursor.entry → Scans r start result.token result.hull result.after }
    ensures fits { result.hull.least < 2 ^ 64 }
    ensures token { result.token ≡ token }
    ensures place { place_of result.after ≡ cursor.entry.place }
{
    let (after, hull) = cursor.finish();
    Read { token, after, hull }
}

/// The space at a place, if it is one before a printable character of ASCII, as most spaces are: such a space is a
/// token in each mode, so that it is found before the mode is asked for.
#[inline(always)]
pub fn lone_space<'a>(start: Scanner<'a>, line: LineEnd<'a>) -> Option<Read<'a>>
    requires { line.text.now ≡ start.text.now }
    ensures scans { IfSome result (λ r. (k : CharClasses) (mode : SyntaxMode) → Scans (spec.token k mode) start.entry r.token r.hull r.after) }
    ensures space { IfSome result (λ r. (scout 0 (place_of start.entry) ≡ Some 32) × (r.token ≡ plain kind.Space) × (place_of r.after ≡ moved 1 (place_of start.entry))) }
    ensures fits { IfSome result (λ r. r.hull.least < 2 ^ 64) }
{
    let mut cursor = Cursor::on_line(start, line);
    if !eat_lone_space(&mut cursor) {
        return None;
    }
    Some(read_up_to(cursor, Token::plain(SyntaxKind::Space)))
}

/// Eats a space that is before a printable character of ASCII: it is a token in each mode. If there is none,
/// nothing changes.
#[inline(always)]
fn eat_lone_space(s: &mut Cursor<'_>) -> bool
    ensures eaten { result ≡ true → (k : CharClasses) (mode : SyntaxMode) → Reads (spec.token k mode) s.old (plain kind.Space) s.new }
    ensures space { result ≡ true → (scout 0 s.old.place ≡ Some 32) × (s.new.place ≡ moved 1 s.old.place) }
    ensures none { result ≡ false → s.new ≡ s.old }
{
    let mut ahead = s.ahead();
    if !ahead.eat_if(' ') {
        return false;
    }
    let Some('!'..='~') = ahead.peek() else {
        return false;
    };
    s.eat();
    s.peek();
    true
}

/// The token of the mode that comes next.
#[inline(always)]
#[tactic(auto, unfolding(crate::specs::Tokens::token))]
fn next_token<C: Classes>(
    alloc: Global,
    s: &mut Cursor<'_>,
    mode: SyntaxMode,
    classes: &C,
) -> Result<Token, AllocError>
    ensures { IfOk result (λ token. Reads (spec.token (C.classes classes.now) mode) s.old token s.new) }
{
    match s.peek() {
        None => Ok(Token::plain(SyntaxKind::End)),
        Some(c) if is_space(c, mode) => Ok(whitespace(s, mode)),
        Some('#') => Ok(hash(alloc, s, mode, classes)?),
        Some('/') => Ok(slash(alloc, s, mode, classes)?),
        Some('*') => Ok(star(alloc, s, mode, classes)?),
        Some('`') => Ok(backtick(alloc, s, mode, classes)?),
        Some(c) => of_mode(alloc, s, c, mode, classes),
    }
}

/// A token that only the mode has.
#[inline(always)]
#[tactic(auto, unfolding(crate::specs::Tokens::of_mode))]
fn of_mode<C: Classes>(
    alloc: Global,
    s: &mut Cursor<'_>,
    c: char,
    mode: SyntaxMode,
    classes: &C,
) -> Result<Token, AllocError>
    ensures { IfOk result (λ token. Reads (spec.of_mode (C.classes classes.now) mode c) s.old token s.new) }
{
    match mode {
        SyntaxMode::Markup => markup(alloc, s, c, classes),
        SyntaxMode::Math => Ok(math(s, classes)),
        SyntaxMode::Code => Ok(code(s, c, classes)),
    }
}

/// A token that only the mode has, apart from the common way.
#[inline(never)]
fn of_mode_apart<C: Classes>(
    alloc: Global,
    s: &mut Cursor<'_>,
    c: char,
    mode: SyntaxMode,
    classes: &C,
) -> Result<Token, AllocError>
    ensures { IfOk result (λ token. Reads (spec.of_mode (C.classes classes.now) mode c) s.old token s.new) }
{
    of_mode(alloc, s, c, mode, classes)
}

#[tactic(auto, unfolding(crate::specs::Tokens::hash))]
fn hash<C: Classes>(
    alloc: Global,
    s: &mut Cursor<'_>,
    mode: SyntaxMode,
    classes: &C,
) -> Result<Token, AllocError>
    ensures { IfOk result (λ token. Reads (spec.hash (C.classes classes.now) mode) s.old token s.new) }
{
    if s.last().is_none() && s.second() == Some('!') {
        return Ok(shebang(s));
    }
    of_mode_apart(alloc, s, '#', mode, classes)
}

#[tactic(auto, unfolding(crate::specs::Tokens::slash))]
fn slash<C: Classes>(
    alloc: Global,
    s: &mut Cursor<'_>,
    mode: SyntaxMode,
    classes: &C,
) -> Result<Token, AllocError>
    ensures { IfOk result (λ token. Reads (spec.slash (C.classes classes.now) mode) s.old token s.new) }
{
    match s.second() {
        Some('/') => Ok(line_comment(s)),
        Some('*') => Ok(block_comment(s)),
        _ => of_mode_apart(alloc, s, '/', mode, classes),
    }
}

#[tactic(auto, unfolding(crate::specs::Tokens::star))]
fn star<C: Classes>(
    alloc: Global,
    s: &mut Cursor<'_>,
    mode: SyntaxMode,
    classes: &C,
) -> Result<Token, AllocError>
    ensures { IfOk result (λ token. Reads (spec.star (C.classes classes.now) mode) s.old token s.new) }
{
    if s.second() == Some('/') {
        return Ok(comment_end(s));
    }
    of_mode_apart(alloc, s, '*', mode, classes)
}

#[tactic(auto, unfolding(crate::specs::Tokens::backtick))]
fn backtick<C: Classes>(
    alloc: Global,
    s: &mut Cursor<'_>,
    mode: SyntaxMode,
    classes: &C,
) -> Result<Token, AllocError>
    ensures { IfOk result (λ token. Reads (spec.backtick (C.classes classes.now) mode) s.old token s.new) }
{
    match mode {
        SyntaxMode::Markup => Ok(raw(s)),
        SyntaxMode::Math => of_mode_apart(alloc, s, '`', mode, classes),
        SyntaxMode::Code => Ok(raw(s)),
    }
}

/// The name of a named argument of a formula that begins here, or End if none does.
pub fn named_argument<'a, C: Classes>(start: Scanner<'a>, classes: &C) -> Read<'a>
    ensures { Scans (named (C.classes classes.now)) start.entry result.token result.hull result.after }
{
    let mut cursor = Cursor::new(start);
    let token = math_arguments::named_argument(&mut cursor, classes);
    read_up_to(cursor, token)
}

/// The dots of an argument of a formula that is spread, or End if none begins here.
pub fn spread_argument(start: Scanner<'_>) -> Read<'_>
    ensures { Scans spread start.entry result.token result.hull result.after }
{
    let mut cursor = Cursor::new(start);
    let token = math_arguments::spread_argument(&mut cursor);
    read_up_to(cursor, token)
}
