//! The words of a command of a test case, and the parts of its answer.

use crate::words::call_of;
pub use crate::words::{Reported, bad, parted, put, put_count, put_shown, report_fault};
use diskmodel::CallKind;
use std::alloc::{AllocError, Global};
use test_cases::{bytes_of, write_hex};

/// A word that follows a command's name.
#[derive(Drop)]
pub enum Word {
    Number(u64),
    /// Bytes, written as an `x` and then hexadecimal digits.
    Bytes(Vec<u8>),
    Call(CallKind),
    Flush,
    Checkpoint,
    Stop,
    Bad,
}

/// The words of a text, which are separated by blanks.
pub fn words_of(alloc: Global, text: &str) -> Result<Vec<Word>, AllocError> {
    let mut words = Vec::new(alloc);
    for word in text.split_whitespace() {
        words.push(word_of(alloc, word)?)?;
    }
    Ok(words)
}

fn word_of(alloc: Global, word: &str) -> Result<Word, AllocError> {
    match word.strip_prefix('x') {
        Some(digits) => Ok(match bytes_of(alloc, digits)? {
            Some(bytes) => Word::Bytes(bytes),
            None => Word::Bad,
        }),
        None => Ok(named(word)),
    }
}

/// Reads a word that isn't bytes: `flush`, `checkpoint`, `stop`, a kind of device call, or a number.
fn named(word: &str) -> Word {
    match word {
        "flush" => Word::Flush,
        "checkpoint" => Word::Checkpoint,
        "stop" => Word::Stop,
        _ => match call_of(word) {
            Some(call) => Word::Call(call),
            None => number_of(word),
        },
    }
}

fn number_of(word: &str) -> Word {
    match word.parse() {
        Ok(number) => Word::Number(number),
        Err(_) => Word::Bad,
    }
}

/// The numbers among these words.
pub fn numbers(alloc: Global, words: &[Word]) -> Result<Vec<u64>, AllocError> {
    let mut numbers = Vec::new(alloc);
    for word in words {
        if let Word::Number(number) = word {
            numbers.push(*number)?;
        }
    }
    Ok(numbers)
}

/// Adds a line to the text, unless the text has the same line already.
pub fn put_once(text: &mut String, line: &str) {
    if !text.as_str().contains(line) {
        put(text, line);
    }
}

/// Adds a line with a number and a text, if the text differs from the last one that was added, and keeps the text as the last one.
pub fn put_other(answer: &mut String, number: u64, text: String, before: &mut String) {
    if text.as_str() != before.as_str() {
        put_count(answer, "", number, ": ");
        put(answer, text.as_str());
        put(answer, "\n");
    }
    *before = text;
}

/// Adds a number after a space.
pub fn put_number(text: &mut String, number: u64) {
    put_count(text, " ", number, "");
}

/// Adds a space, an `x`, and bytes as hexadecimal digits.
pub fn put_bytes(text: &mut String, bytes: &[u8]) {
    put(text, " x");
    let _ = write_hex(text, bytes);
}

/// Adds the answer to a line that isn't a command.
pub fn reported_bad(answer: &mut String) -> Reported {
    bad(answer);
    Ok(())
}
