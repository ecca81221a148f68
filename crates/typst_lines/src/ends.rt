//! Ends of texts.
ghost use Rattle.std.specs.Prelude.{◌≡◌};
ghost use Rattle.std.specs.Str.{chars};
ghost use Rattle.typst_lines.specs.Ends as spec;

use crate::{CharSet, Scanner};

/// The text without the longest run of characters of the set at its end.
pub fn without_last<'a, S: CharSet>(text: &'a str, set: &S) -> &'a str
    ensures { chars result.now ≡ spec.without_last (S.members set.now) (chars text.now) }
{
    let mut s = Scanner::new(text);
    s.jump(text.len());
    while let Some(c) = s.last() {
        if !set.has(c) {
            return s.before();
        }
        s.uneat();
    }
    s.before()
}
