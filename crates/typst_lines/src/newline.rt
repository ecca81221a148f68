//! The characters that end lines.
ghost use Rattle.std.specs.Prelude.{◌≡◌, IfOk, IsTrue, map};
ghost use Rattle.std.specs.Str.{chars};
ghost use Rattle.typst_lines.specs.Newline.{is_newline, stretches, line_ends, woven, all_lack_newlines};

use crate::scanner::{CharSet, Scanner, ScannerExt};
use std::alloc::{AllocError, Global};

/// Whether a character is a newline character: LF, VT, FF, CR, U+0085, U+2028 or U+2029.
#[inline]
pub fn is_newline(c: char) -> bool
    ensures { result ≡ is_newline c }
{
    matches!(c, '\n'..='\r' | '\u{85}' | '\u{2028}' | '\u{2029}')
}

/// The set of the newline characters.
#[derive(Clone, Copy)]
pub struct NewlineSet;

impl CharSet for NewlineSet {
    ghost members = { λ _. is_newline };

    #[inline]
    fn has(&self, c: char) -> bool {
        is_newline(c)
    }
}

/// The stretches of a text between its line ends; CR LF is one line end.
pub fn split_newlines<'a>(alloc: Global, text: &'a str) -> Result<Vec<&'a str>, AllocError>
    ensures stretches { IfOk result (λ items. map (λ item. chars item.now) items.items ≡ stretches (chars text.now)) }
    ensures put_back { IfOk result (λ items. woven (map (λ item. chars item.now) items.items) (line_ends (chars text.now)) ≡ chars text.now) }
    ensures none_inside { IfOk result (λ items. IsTrue (all_lack_newlines (map (λ item. chars item.now) items.items))) }
{
    let mut stretches = Vec::new(alloc);
    let mut scanner = Scanner::new(text);
    let mut start = scanner;
    while let Some(c) = scanner.peek() {
        if is_newline(c) {
            stretches.push(scanner.since(&start))?;
            scanner.eat_newline();
            start = scanner;
        } else {
            scanner.eat();
        }
    }
    stretches.push(scanner.since(&start))?;
    Ok(stretches)
}
