//! How far a link goes.
ghost use Rattle.std.specs.Prelude.{◌≡◌, ◌==◌, ◌∷◌, [], List, ℕ, Some, None, if◌then◌else◌, length, reverse, IfOk, OnOk};
ghost use Rattle.typst_lines.specs.Place.{moved};
ghost use Rattle.std.specs.Bool.{OnFalse};
ghost use Rattle.std.specs.Str.{chars};
ghost use Rattle.typst_lines.specs.Scanner.{place};
ghost use Rattle.typst_lines.specs.Sets.{among};
ghost use Rattle.typst_lines.specs.Links as spec;

use crate::ends::without_last;
use crate::{CharSet, Scanner};
use std::alloc::{AllocError, Global};
use std::marker::Model;

/// The closing brackets that are still to come in a link.
#[derive(Drop)]
struct Brackets {
    stack: Vec<char>,
}

impl Model for Brackets {
    ghost Value = { List ℕ };

    ghost view = { λ b. reverse b.stack.items };
}

impl Brackets {
    fn new(alloc: Global) -> Brackets
        ensures { result ≡ [] }
    {
        Brackets {
            stack: Vec::new(alloc),
        }
    }

    fn push(&mut self, closing: char) -> Result<(), AllocError>
        ensures { OnOk result (self.new ≡ closing ∷ self.old) }
    {
        self.stack.push(closing)?;
        Ok(())
    }

    /// Takes the innermost of the awaited brackets away if it is this one, and says whether it is.
    fn close(&mut self, closing: char) -> bool
        ensures turn { spec.closed self.old closing ≡ (if result then Some self.new else None) }
        ensures same { OnFalse result (self.new ≡ self.old) }
    {
        match self.stack.last() {
            Some(c) if *c == closing => {
                self.stack.pop();
                true
            }
            _ => false,
        }
    }

    /// Takes a character into the link if the link goes on with it, and says whether it does.
    fn pass(&mut self, c: char) -> Result<bool, AllocError>
        ensures turn { IfOk result (λ goes_on. spec.after self.old c ≡ (if goes_on then Some self.new else None)) }
        ensures same { IfOk result (λ goes_on. OnFalse goes_on (self.new ≡ self.old)) }
    {
        if c == '(' {
            self.push(')')?;
            return Ok(true);
        }
        if c == '[' {
            self.push(']')?;
            return Ok(true);
        }
        if c == ')' || c == ']' {
            return Ok(self.close(c));
        }
        Ok(is_plain(c))
    }

    fn is_empty(&self) -> bool
        ensures { result ≡ (length self.now == 0) }
    {
        self.stack.is_empty()
    }
}

/// The link that the text begins with, and whether each of its brackets is closed. A closing
/// bracket ends it unless it closes the innermost open one, and marks of a sentence at its end
/// aren't part of it.
pub fn link_prefix(alloc: Global, text: &str) -> Result<(&str, bool), AllocError>
    ensures { IfOk result (λ r. (chars r.0.now, r.1) ≡ spec.link_prefix (chars text.now)) }
{
    let mut s = Scanner::new(text);
    let balanced = eat_front(alloc, &mut s)?;
    Ok((without_last_signs(s.before()), balanced))
}

/// Eats the longest front of a link, and says whether each of its brackets is closed.
pub fn eat_front(alloc: Global, s: &mut Scanner<'_>) -> Result<bool, AllocError>
    ensures same_text { OnOk result (s.new.text.now ≡ s.old.text.now) }
    ensures front { OnOk result (place s.new ≡ moved (length (spec.front [] (place s.old).ahead).0) (place s.old)) }
    ensures balanced { IfOk result (λ b. b ≡ (length (spec.front [] (place s.old).ahead).1 == 0)) }
{
    let mut brackets = Brackets::new(alloc);
    while let Some(c) = s.peek() {
        if !brackets.pass(c)? {
            return Ok(brackets.is_empty());
        }
        s.eat();
    }
    Ok(brackets.is_empty())
}

/// The text without the marks of a sentence that no link ends in, at its end.
pub fn without_last_signs(text: &str) -> &str
    ensures { chars result.now ≡ spec.without_last_signs (chars text.now) }
{
    without_last(text, &LastSigns)
}

/// Whether links can have the character, which isn't a bracket.
fn is_plain(c: char) -> bool
    ensures { result ≡ spec.is_plain c }
{
    c.is_ascii_alphanumeric()
        || matches!(
            c,
            '!' | '#'
                | '$'
                | '%'
                | '&'
                | '*'
                | '+'
                | ','
                | '-'
                | '.'
                | '/'
                | ':'
                | ';'
                | '='
                | '?'
                | '@'
                | '_'
                | '~'
                | '\''
        )
}

/// The set of the marks of a sentence that no link ends in.
#[derive(Clone, Copy)]
struct LastSigns;

impl CharSet for LastSigns {
    ghost members = { λ _. among spec.last_signs };

    #[inline]
    fn has(&self, c: char) -> bool {
        matches!(c, '!' | ',' | '.' | ':' | ';' | '?' | '\'')
    }
}
