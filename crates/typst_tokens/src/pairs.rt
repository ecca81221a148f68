//! Runs of characters that pass by the one that follows them.
ghost use Rattle.std.specs.Prelude.{◌≡◌, ◌≤◌, ◌<◌, ◌+◌, ℕ, Bool, Option, length};
ghost use Rattle.typst_lines.specs.Place.{moved, scout};
ghost use Rattle.typst_lines.specs.Scanner.{place};
ghost use Rattle.typst_tokens.specs.Pairs as spec;

use typst_lines::{CharSet, Scanner};

/// A set of characters, and one of characters by what follows them.
pub trait PairSet: CharSet {
    // which characters are in the second set before which character, or before the text's end
    ghost before: { Self → ℕ → Option ℕ → Bool };

    /// Whether the character is in the second set before that one, or before the text's end.
    fn has_before(&self, c: char, next: Option<char>) -> bool
        ensures { result ≡ before self.now c next };

    /// Whether both bytes are of ASCII, and the first is in either set before the second.
    fn has_bytes(&self, c: u8, next: u8) -> bool
        ensures { result ≡ spec.bytes_pass (spec.either (Self.members self.now) (before self.now)) c next };
}

/// Goes past the longest run of characters that are in either set. Gives the character that ends
/// it, and a scanner after that one.
#[inline(always)]
pub(crate) fn past_pairs<'a, P: PairSet>(
    s: &mut Scanner<'a>,
    set: &P,
) -> (Scanner<'a>, Option<char>)
    ensures moved { place s.new ≡ spec.past_pairs (spec.either (P.CharSet.members set.now) (P.PairSet.before set.now)) (place s.old) }
    ensures after { place result.0 ≡ moved 1 (place s.new) }
    ensures next { result.1 ≡ scout 0 (place s.new) }
    ensures same_text { s.new.text.now ≡ s.old.text.now }
{
    let mut at = *s;
    'runs: loop {
        past_ascii(&mut at, set);
        at.eat_while(set);
        let mut after = at;
        let next = after.eat();
        let mut further = after;
        if !passes(set, next, further.eat()) {
            *s = at;
            return (after, next);
        }
        at = after;
    }
}

/// Goes past characters of ASCII as long as their bytes show that each is in either set: first by fours, so that
/// the text's end is looked for once in four bytes.
#[inline(always)]
fn past_ascii<P: PairSet>(s: &mut Scanner<'_>, set: &P)
    ensures past { spec.past_pairs (spec.either (P.CharSet.members set.now) (P.PairSet.before set.now)) (place s.new)
        ≡ spec.past_pairs (spec.either (P.CharSet.members set.now) (P.PairSet.before set.now)) (place s.old) }
    ensures shorter { length (place s.new).ahead ≤ length (place s.old).ahead }
    ensures same_text { s.new.text.now ≡ s.old.text.now }
{
    let bytes = s.string().as_bytes();
    let mut at = s.cursor();
    'fours: while at + 4 < bytes.len() && four_pass(bytes, at, set) {
        at += 4;
    }
    'ones: while at + 1 < bytes.len() && set.has_bytes(bytes[at], bytes[at + 1]) {
        at += 1;
    }
    s.jump(at);
}

/// Whether four bytes show that each is in either set before the one after it.
#[inline(always)]
fn four_pass<P: PairSet>(bytes: &[u8], at: usize, set: &P) -> bool
    requires { at + 4 < length bytes.now }
    ensures { result ≡ spec.four_pass (spec.either (P.CharSet.members set.now) (P.PairSet.before set.now)) bytes.now at }
{
    set.has_bytes(bytes[at], bytes[at + 1])
        && set.has_bytes(bytes[at + 1], bytes[at + 2])
        && set.has_bytes(bytes[at + 2], bytes[at + 3])
        && set.has_bytes(bytes[at + 3], bytes[at + 4])
}

/// Whether there is a character, and it is in the second set before that one or before the text's end.
#[inline(always)]
fn passes<P: PairSet>(set: &P, c: Option<char>, next: Option<char>) -> bool
    ensures { result ≡ spec.pair_passes (P.PairSet.before set.now) c next }
{
    match c {
        Some(c) => set.has_before(c, next),
        None => false,
    }
}
