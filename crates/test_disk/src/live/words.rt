//! The words of a command of a test case, and the parts of its answer.

pub use crate::words::{Reported, bad, call_of, parted, put, put_count, put_shown, report_fault};
use std::alloc::{AllocError, Global};
use std::str;
use test_cases::{bytes_of, write_hex};

/// The bytes of these words, one word's after the other's.
pub fn joined(alloc: Global, words: &str) -> Result<Option<Vec<u8>>, AllocError> {
    let mut bytes = Vec::new(alloc);
    for word in words.split_whitespace() {
        if !add_word(alloc, word, &mut bytes)? {
            return Ok(None);
        }
    }
    Ok(Some(bytes))
}

/// Adds the bytes of a word: hexadecimal digits, after which a star and a number may say how often they occur, as `00*100`. Returns whether
/// the word has such digits.
pub fn add_word(alloc: Global, word: &str, bytes: &mut Vec<u8>) -> Result<bool, AllocError> {
    let (digits, times) = word.split_once('*').unwrap_or((word, "1"));
    let Some(part) = bytes_of(alloc, digits)? else {
        return Ok(false);
    };
    add_times(&part, times.parse().unwrap_or(0), bytes)?;
    Ok(true)
}

fn add_times(part: &[u8], times: u32, bytes: &mut Vec<u8>) -> Reported {
    for _ in 0..times {
        bytes.extend_from_slice(part)?;
    }
    Ok(())
}

/// Adds bytes as hexadecimal digits.
pub fn put_hex(answer: &mut String, bytes: &[u8]) {
    let _ = write_hex(answer, bytes);
}

/// Adds bytes as text.
pub fn put_text(answer: &mut String, bytes: &[u8]) {
    put(answer, str::from_utf8(bytes).unwrap_or("no text\n"));
}

/// Adds a line with a word and a number.
pub fn put_number(answer: &mut String, word: &str, number: u64) {
    let _ = writeln!(answer, "{word} {number}");
}

/// Adds a checksum over bytes: FNV-1a of 64 bits.
pub fn put_sum(answer: &mut String, bytes: &[u8]) {
    let mut sum = 14_695_981_039_346_656_037_u64;
    for byte in bytes {
        sum = (sum ^ u64::from(*byte)).wrapping_mul(1_099_511_628_211);
    }
    let _ = write!(answer, "sum {sum:016x}");
}

/// Adds a line that says how many bytes there are.
pub fn put_len(answer: &mut String, bytes: &[u8]) {
    put_count(answer, "", bytes.len() as u64, " bytes\n");
}
