//! The program over any reader and writers.
ghost use Rattle.std.specs.Prelude.{◌≡◌, ◌≢◌, ◌↔◌, IfErr, None, OnOk, map};
ghost use Rattle.std.specs.Io.KnownBytes.{Keeps};
ghost use Rattle.typst_report.specs.Streams.{Begins};
ghost use Rattle.typst_cli.specs.Faults.{IsAnswered, IsFault, Leaves, line_of, status_of};
ghost use Rattle.typst_cli.specs.Asked.{asked_by};
ghost use Rattle.typst_cli.specs.declared.failure.Failure.{Failure};

use crate::failure::Failure;
use crate::input::read_text;
use crate::request::Request;
use std::alloc::Global;
use std::io::{Read, Write};
use typst_report::streams::{Delivered, deliver};

/// Reads a text from `input` and prints what `words` ask of it to `output`, which stays empty unless
/// the whole answer was made. Gives the exit status: 0, or 1 or 2 with one line on `errors`.
pub fn run<R: Read, W: Write, E: Write>(
    alloc: Global,
    words: &[&str],
    input: &mut R,
    output: &mut W,
    errors: &mut E,
) -> u8
    ensures usage { result ≡ 2 ↔ asked_by (map (λ word. word.now) words.now) ≡ None }
    ensures answered { result ≡ 0 → IsAnswered (asked_by (map (λ word. word.now) words.now)) (R.remaining input.old) (W.contents output.old) (W.contents output.new)
        × Keeps (E.contents errors.old) (E.contents errors.new) }
    ensures failed { result ≢ 0 → (failure : Failure) × (result ≡ status_of failure) × Begins (E.contents errors.old) (E.contents errors.new) (line_of failure)
        × IsFault failure (asked_by (map (λ word. word.now) words.now)) (R.remaining input.old) (W.contents output.old) (W.contents output.new) }
    ensures begins { Leaves (asked_by (map (λ word. word.now) words.now)) (R.remaining input.old) (W.contents output.old) (W.contents output.new) }
{
    match answer(alloc, words, input, output) {
        Ok(_delivered) => 0,
        Err(failure) => failure.report(errors),
    }
}

#[tactic(auto, using(crate::proofs::FaultLemmas::tells_of))]
fn answer<R: Read, W: Write>(
    alloc: Global,
    words: &[&str],
    input: &mut R,
    output: &mut W,
) -> Result<Delivered, Failure>
    ensures answered { OnOk result (IsAnswered (asked_by (map (λ word. word.now) words.now)) (R.remaining input.old) (W.contents output.old) (W.contents output.new)) }
    ensures failed { IfErr result (λ failure. IsFault failure (asked_by (map (λ word. word.now) words.now)) (R.remaining input.old) (W.contents output.old) (W.contents output.new)) }
    ensures begins { Leaves (asked_by (map (λ word. word.now) words.now)) (R.remaining input.old) (W.contents output.old) (W.contents output.new) }
{
    let request = Request::from_words(words).ok_or(Failure::Usage)?;
    let text = read_text(alloc, input)?;
    let printed = request.answer(alloc, text)?;
    match deliver(output, printed.as_bytes()) {
        Ok(delivered) => Ok(delivered),
        Err(_) => Err(Failure::NotWritten),
    }
}
