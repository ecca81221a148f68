//! Escapes of surrogates in JSON texts.
ghost use Rattle.std.specs.Prelude.{◌≡◌, ◌+◌, ◌<◌, ◌≤◌, ◌++◌, ◌==◌, if◌then◌else◌, IfSome, drop, length, take};
ghost use Rattle.json.specs.Ascii.{backslash};
ghost use Rattle.json.specs.Text as json_text;
ghost use Rattle.typst_protocol.specs.Escapes as spec;

/// How many bytes the escape of a code unit has.
const ESCAPE: usize = 6;

/// Makes a body one that JSON allows: in the place of each lone surrogate, a high one with no low one after
/// it or a low one with no high one before it, it writes U+FFFD. It takes no memory.
pub fn mend(body: &mut [u8])
    ensures { body.new ≡ spec.mended body.old }
{
    let mut at = 0;
    let mut is_behind_high = false;
    while at < body.len() {
        match unit(&body[at..]) {
            Some(unit) => {
                mend_unit(body, at, is_behind_high, unit);
                is_behind_high = is_high(unit);
                at += ESCAPE;
            }
            None => {
                is_behind_high = false;
                at += piece_len(body[at]);
            }
        }
    }
}

/// Writes U+FFFD in the place of the code unit whose escape stands at a byte, if that is a lone surrogate.
fn mend_unit(body: &mut [u8], at: usize, is_behind_high: bool, unit: u32)
    requires { at + 6 ≤ length body.old }
    ensures { let lone = spec.is_lone is_behind_high unit (spec.begins_low (drop (at + 6) body.old)) in
        body.new ≡ take at body.old ++ spec.read_as lone (take 6 (drop at body.old)) ++ drop (at + 6) body.old }
{
    if is_lone(is_behind_high, unit, begins_low(&body[at + ESCAPE..])) {
        replace_escape(body, at);
    }
}

/// Writes U+FFFD in the place of the escape at a byte.
fn replace_escape(body: &mut [u8], at: usize)
    requires { at + 6 ≤ length body.old }
    ensures { body.new ≡ take at body.old ++ spec.replacement ++ drop (at + 6) body.old }
{
    body[at..at + ESCAPE].copy_from_slice(b"\\ufffd");
}

/// How many bytes go together where no escape of a code unit begins: two from a backslash on.
fn piece_len(first: u8) -> usize
    ensures value { result ≡ (if first == backslash then 2 else 1) }
    ensures most { result ≤ 2 }
{
    if first == b'\\' { 2 } else { 1 }
}

/// Whether a surrogate has no other half. What is no surrogate isn't lone.
fn is_lone(is_behind_high: bool, unit: u32, is_before_low: bool) -> bool
    ensures { result ≡ spec.is_lone is_behind_high unit is_before_low }
{
    (is_high(unit) && !is_before_low) || (is_low(unit) && !is_behind_high)
}

fn is_high(unit: u32) -> bool
    ensures { result ≡ json_text.is_high_surrogate unit }
{
    0xd800 <= unit && unit < 0xdc00
}

fn is_low(unit: u32) -> bool
    ensures { result ≡ json_text.is_low_surrogate unit }
{
    0xdc00 <= unit && unit < 0xe000
}

/// Whether a text begins with the escape of a low surrogate.
fn begins_low(text: &[u8]) -> bool
    ensures { result ≡ spec.begins_low text.now }
{
    match unit(text) {
        Some(unit) => is_low(unit),
        None => false,
    }
}

/// The code unit whose escape a text begins with.
#[tactic(auto, unfolding(crate::specs::Escapes::unit))]
fn unit(text: &[u8]) -> Option<u32>
    ensures value { result ≡ spec.unit text.now }
    ensures room { IfSome result (λ _. 6 ≤ length text.now) }
{
    match text {
        [b'\\', b'u', a, b, c, d, ..] => code_unit(*a, *b, *c, *d),
        _ => None,
    }
}

/// The number that four hexadecimal digits write.
fn code_unit(a: u8, b: u8, c: u8, d: u8) -> Option<u32>
    ensures { result ≡ json_text.code_unit a b c d }
{
    let a = digit(a)?;
    let b = digit(b)?;
    let c = digit(c)?;
    let d = digit(d)?;
    Some(a * 4096 + b * 256 + c * 16 + d)
}

/// The number that a hexadecimal digit writes.
fn digit(digit: u8) -> Option<u32>
    ensures value { result ≡ spec.hexadecimal digit }
    ensures small { IfSome result (λ number. number < 16) }
{
    char::from(digit).to_digit(16)
}
