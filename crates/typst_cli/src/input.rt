//! Reading all of the input as text.
ghost use Rattle.std.specs.Prelude.{◌≡◌, IfErr, IfOk, IfSome};
ghost use Rattle.std.specs.Str.{IsUtf8};
ghost use Rattle.std.specs.String.{string_bytes};
ghost use Rattle.typst_cli.specs.Faults.{IsReadFault};
ghost use Rattle.typst_cli.specs.declared.failure.Failure.TheVariants as failure;

use crate::failure::Failure;
use std::alloc::Global;
use std::io::Read;
use typst_report::streams::read_all;

/// All that the reader gives, as text.
pub fn read_text<R: Read>(alloc: Global, input: &mut R) -> Result<String, Failure>
    ensures text { IfOk result (λ text. IfSome (R.remaining input.old) (λ bytes. string_bytes text ≡ bytes)) }
    ensures fault { IfErr result (λ fault. IsReadFault fault (R.remaining input.old)) }
{
    decode(read_all(alloc, input)?)
}

/// The text that the bytes are.
fn decode(bytes: Vec<u8>) -> Result<String, Failure>
    ensures text { IfOk result (λ text. string_bytes text ≡ bytes.items) }
    ensures fault { IfErr result (λ fault. (fault ≡ failure.NotUtf8) × ¬ (IsUtf8 bytes.items)) }
{
    match String::from_utf8(bytes) {
        Ok(text) => Ok(text),
        Err(_) => Err(Failure::NotUtf8),
    }
}
