//! Reading some bytes of a reader.
ghost use Rattle.std.specs.Prelude.{◌≡◌, ◌↔◌, ℕ, ◌+◌, ◌-◌, ◌<◌, ◌≤◌, ◌==◌, List, length, take, IfErr, IfNone, IfOk, IfSome, IsTrue, OnOk, option_to_list, slice_index};
ghost use Rattle.std.specs.Io.KnownBytes.{Consumes, IsAtEnd, Keeps};
ghost use Rattle.typst_protocol.specs.Stream.{IsShort, ReadsLine};
ghost use Rattle.typst_protocol.specs.declared.frames.reader.End.TheVariants as end;

use crate::frames::reader::End;
use std::io::{self, BufRead, ErrorKind, Read};

/// Reads some bytes, and says how many: none at the end. A read that was interrupted is made again.
fn read<R: Read>(reader: &mut R, bytes: &mut [u8]) -> Result<usize, End>
    ensures bound { IfOk result (λ count. count ≤ length bytes.new) }
    ensures taken { IfOk result (λ count. Consumes (R.remaining reader.old) (R.remaining reader.new) (take count bytes.new)) }
    ensures at_end { IfOk result (λ count. count ≡ 0 → 0 < length bytes.old → IsAtEnd (R.remaining reader.new)) }
    ensures failed { IfErr result (λ e. e ≡ end.NotRead) }
{
    for _turn in 0..u64::MAX {
        match reader.read(bytes) {
            Ok(count) => return Ok(count),
            Err(error) if is_interrupted(&error) => {}
            Err(_) => return Err(End::NotRead),
        }
    }
    Err(End::NotRead)
}

/// Reads a byte, if one is left.
fn read_byte<R: Read>(reader: &mut R) -> Result<Option<u8>, End>
    ensures taken { IfOk result (λ byte. Consumes (R.remaining reader.old) (R.remaining reader.new) (option_to_list byte)) }
    ensures at_end { IfOk result (λ byte. IfNone byte (IsAtEnd (R.remaining reader.new))) }
    ensures failed { IfErr result (λ e. e ≡ end.NotRead) }
{
    let mut bytes = [0u8; 1];
    match read(reader, &mut bytes)? {
        0 => Ok(None),
        _ => Ok(Some(bytes[0])),
    }
}

/// Reads bytes till the slice is full.
pub(crate) fn fill<R: Read>(reader: &mut R, bytes: &mut [u8]) -> Result<(), End>
    ensures taken { OnOk result (Consumes (R.remaining reader.old) (R.remaining reader.new) bytes.new) }
    ensures short { IfErr result (λ e. IsShort e (R.remaining reader.old) (length bytes.old)) }
{
    let mut at = 0;
    while at < bytes.len() {
        let count = read(reader, &mut bytes[at..])?;
        if count == 0 {
            return Err(End::CutOff);
        }
        at += count;
    }
    Ok(())
}

/// Passes bytes.
pub(crate) fn skip<R: Read>(reader: &mut R, count: usize) -> Result<(), End>
    ensures taken { OnOk result ((bytes : List ℕ) × (length bytes ≡ count) × Consumes (R.remaining reader.old) (R.remaining reader.new) bytes) }
    ensures short { IfErr result (λ e. IsShort e (R.remaining reader.old) count) }
{
    let mut chunk = [0u8; 4096];
    let mut left = count;
    while left > 0 {
        let most = left.min(chunk.len());
        let passed = read(reader, &mut chunk[..most])?;
        if passed == 0 {
            return Err(End::CutOff);
        }
        left -= passed;
    }
    Ok(())
}

/// Reads a line into a slice, which is as long as the longest one may be, and says how many bytes stand
/// before the CR LF.
pub(crate) fn read_line<R: Read>(reader: &mut R, line: &mut [u8]) -> Result<usize, End>
    requires { length line.old ≡ 1024 }
    ensures within { IfOk result (λ n. n + 2 ≤ length line.new) }
    ensures line { IfSome (R.remaining reader.old) (λ bytes. ReadsLine bytes result line.new (R.remaining reader.new)) }
{
    for at in 0..line.len() {
        match read_byte(reader)? {
            Some(byte) => line[at] = byte,
            None => return Err(End::CutOff),
        }
        if ends_line(line, at) {
            return Ok(at - 1);
        }
    }
    Err(End::Malformed)
}

/// Whether a CR LF ends with the byte at an index.
fn ends_line(line: &[u8], at: usize) -> bool
    requires { at < length line.now }
    ensures { IsTrue result ↔ ((0 < at) × (slice_index line.now (at - 1) ≡ 13) × (slice_index line.now at ≡ 10)) }
{
    at > 0 && line[at - 1] == b'\r' && line[at] == b'\n'
}

/// Whether nothing is left. A read that was interrupted is made again.
pub(crate) fn is_at_end<R: BufRead>(reader: &mut R) -> Result<bool, End>
    ensures kept { Keeps (R.remaining reader.old) (R.remaining reader.new) }
    ensures value { IfOk result (λ at_end. IfSome (R.remaining reader.old) (λ bytes. at_end ≡ (length bytes == 0))) }
    ensures failed { IfErr result (λ e. e ≡ end.NotRead) }
{
    for _turn in 0..u64::MAX {
        match looks_at_end(reader) {
            Ok(at_end) => return Ok(at_end),
            Err(error) if is_interrupted(&error) => {}
            Err(_) => return Err(End::NotRead),
        }
    }
    Err(End::NotRead)
}

fn looks_at_end<R: BufRead>(reader: &mut R) -> io::Result<bool>
    ensures kept { Keeps (R.remaining reader.old) (R.remaining reader.new) }
    ensures value { IfOk result (λ at_end. IfSome (R.remaining reader.old) (λ bytes. at_end ≡ (length bytes == 0))) }
{
    Ok(reader.fill_buf()?.is_empty())
}

/// Whether the call that failed so is to be made again.
pub(crate) fn is_interrupted(error: &io::Error) -> bool {
    error.kind() == ErrorKind::Interrupted
}
