//! Names of files as addresses.

use percent_encoding::{AsciiSet, NON_ALPHANUMERIC, ascii_set, utf8_percent_encode};
use std::alloc::{AllocError, Global};

/// What is escaped in a path: all but letters, digits, slashes and `-`, `.`, `_` and `~`.
const ESCAPED: AsciiSet = ascii_set!(
    NON_ALPHANUMERIC
        .remove(b'/')
        .remove(b'-')
        .remove(b'.')
        .remove(b'_')
        .remove(b'~')
);

/// The address of a file: of an absolute path one of the scheme `file`, of any other a relative one.
pub fn uri_of(alloc: Global, name: &str) -> Result<String, AllocError> {
    let mut uri = String::new(alloc);
    if name.starts_with('/') {
        uri.push_str("file://")?;
    }
    utf8_percent_encode(name, ESCAPED).append_to(&mut uri)?;
    Ok(uri)
}
