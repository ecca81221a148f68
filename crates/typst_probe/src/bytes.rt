//! Bytes that need not be UTF-8, as characters that are their numbers.

use std::alloc::{AllocError, Global};

/// The bytes that the characters of a text are the numbers of; a question mark for one past `ÿ`.
pub fn bytes_of(alloc: Global, text: &str) -> Result<Vec<u8>, AllocError> {
    let mut bytes = Vec::new(alloc);
    for character in text.chars() {
        bytes.push(u8::try_from(u32::from(character)).unwrap_or(b'?'))?;
    }
    Ok(bytes)
}

/// The text whose characters are the numbers of bytes.
pub fn text_of(alloc: Global, bytes: &[u8]) -> Result<String, AllocError> {
    let mut text = String::new(alloc);
    for byte in bytes {
        text.push(char::from(*byte))?;
    }
    Ok(text)
}
