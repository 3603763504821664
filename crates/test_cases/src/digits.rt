//! Reads and writes bytes as hexadecimal digits.

use hex::{FromHexError, decode};
use std::alloc::{AllocError, Global};

/// The bytes of pairs of the digits 0 to 9 and a to f. None if there is another character, or the number of digits is odd.
pub fn bytes_of(alloc: Global, word: &str) -> Result<Option<Vec<u8>>, AllocError> {
    if word.as_bytes().iter().any(|byte| byte.is_ascii_uppercase()) {
        return Ok(None);
    }
    match decode(alloc, word.as_bytes()) {
        Ok(bytes) => Ok(Some(bytes)),
        Err(FromHexError::OutOfMemory) => Err(AllocError),
        Err(_) => Ok(None),
    }
}

/// Adds bytes to a text as hexadecimal digits.
pub fn write_hex(text: &mut String, bytes: &[u8]) -> Result<(), AllocError> {
    for byte in bytes {
        write!(text, "{byte:02x}")?;
    }
    Ok(())
}
