//! Reads the words of a line. Each function returns None if the word isn't of its form.

use hex::{FromHexError, decode, decode_to_slice};
use std::alloc::{AllocError, Global};
use wire::Author;

/// The greatest number that a member or a worker may have in a script.
const MAX_MEMBER: u64 = 254;

/// How many characters a label may have after its first one.
const LABEL_REST: usize = 15;

// Reads a label: a lower-case letter, and then lower-case letters or digits.
pub fn label(word: &str) -> Option<&str> {
    match word.as_bytes() {
        [b'a'..=b'z', rest @ ..] if rest.len() <= LABEL_REST && rest.iter().all(is_label_byte) => {
            Some(word)
        }
        _ => None,
    }
}

fn is_label_byte(byte: &u8) -> bool {
    byte.is_ascii_lowercase() || byte.is_ascii_digit()
}

// Reads a number of 64 bits in decimal digits. Leading zeros are allowed.
pub fn number(word: &str) -> Option<u64> {
    if !word.as_bytes().iter().all(|byte| byte.is_ascii_digit()) {
        return None;
    }
    word.parse().ok()
}

pub fn worker(word: &str) -> Option<u16> {
    let number = number(word)?;
    if number > MAX_MEMBER {
        return None;
    }
    Some(number as u16)
}

pub fn member(word: &str) -> Option<Author> {
    Some(Author(worker(word)?))
}

// Reads a byte: two hexadecimal digits, 0 to 9 or a to f.
pub fn hex_byte(word: &str) -> Option<u8> {
    let mut byte = [0];
    if has_capitals(word) {
        return None;
    }
    match decode_to_slice(word.as_bytes(), &mut byte) {
        Ok(()) => Some(byte[0]),
        Err(_) => None,
    }
}

// Reads bytes: one or more pairs of hexadecimal digits.
pub fn hex_bytes(alloc: Global, word: &str) -> Result<Option<Vec<u8>>, AllocError> {
    if word.is_empty() || has_capitals(word) {
        return Ok(None);
    }
    match decode(alloc, word.as_bytes()) {
        Ok(bytes) => Ok(Some(bytes)),
        Err(FromHexError::OutOfMemory) => Err(AllocError),
        Err(_) => Ok(None),
    }
}

// Whether a word has upper-case letters, which the hexadecimal digits of a script may not have.
fn has_capitals(word: &str) -> bool {
    word.as_bytes().iter().any(|byte| byte.is_ascii_uppercase())
}
