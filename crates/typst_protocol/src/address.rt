//! The addresses of documents.
ghost use Rattle.std.specs.Prelude.{◌≡◌};
ghost use Rattle.typst_protocol.specs.Addresses as spec;

use percent_encoding::{AsciiSet, NON_ALPHANUMERIC, percent_decode_str, utf8_percent_encode};
use std::alloc::{AllocError, Global};

/// Whether two addresses name the same document: they are compared decoded, byte by byte, so
/// `file:///c%3A/x` and `file:///c:/x` are the same. It takes no memory.
pub fn is_same(a: &str, b: &str) -> bool
    ensures { result ≡ spec.is_same a.now b.now }
{
    let mut other = percent_decode_str(b);
    for byte in percent_decode_str(a) {
        if other.next() != Some(byte) {
            return false;
        }
    }
    other.next().is_none()
}

/// How addresses of files begin.
const SCHEME: &str = "file://";

/// What is escaped of a step of a path.
fn escaped() -> AsciiSet {
    NON_ALPHANUMERIC
        .remove(b'-')
        .remove(b'.')
        .remove(b'_')
        .remove(b'~')
}

/// The address of a file, by its path from the folder of a document. There is none where the document is no
/// file, or the path begins with a slash. A step `..` leads to the folder above, but never beyond the root.
pub fn neighbour(alloc: Global, uri: &str, path: &str) -> Result<Option<String>, AllocError> {
    let Some(rest) = uri.strip_prefix(SCHEME) else {
        return Ok(None);
    };
    let (Some(root), Some((folder, _))) = (rest.find('/'), uri.rsplit_once('/')) else {
        return Ok(None);
    };
    if path.starts_with('/') {
        return Ok(None);
    }
    let root = root.saturating_add(SCHEME.len());
    let mut address = String::from_str(alloc, folder)?;
    for step in path.split('/') {
        match step {
            "" | "." => {}
            ".." => leave_folder(&mut address, root),
            _ => {
                address.push_str("/")?;
                utf8_percent_encode(step, escaped()).append_to(&mut address)?;
            }
        }
    }
    Ok(Some(address))
}

/// Takes the last step off an address whose root ends at a byte.
fn leave_folder(address: &mut String, root: usize) {
    if let Some(end) = address.rfind('/')
        && root <= end
    {
        address.truncate(end);
    }
}
