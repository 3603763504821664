//! Reads the words of commands, and writes the parts of answers.

use diskmodel::{Call, MemDisk};
use journal::{Journal, JournalError, Record};
use std::alloc::{AllocError, Global};
pub use test_cases::{Reported, bad, put};
use test_cases::{bytes_of, write_hex};

/// A word that follows a command's name.
#[derive(Drop)]
pub enum Word {
    Number(u64),
    /// A word of hex digits after an `x`, such as `x00ff`, as bytes.
    Bytes(Vec<u8>),
    Bad,
}

/// Splits a text at its first blank. Without a blank the first part is the whole text and the second one is empty.
pub fn parted(text: &str) -> (&str, &str) {
    text.split_once(' ').unwrap_or((text, ""))
}

/// The words of a text.
pub fn words_of(alloc: Global, text: &str) -> Result<Vec<Word>, AllocError> {
    let mut words = Vec::new(alloc);
    for word in text.split_whitespace() {
        words.push(word_of(alloc, word)?)?;
    }
    Ok(words)
}

fn word_of(alloc: Global, word: &str) -> Result<Word, AllocError> {
    match word.strip_prefix('x') {
        Some(digits) => Ok(match bytes_of(alloc, digits)? {
            Some(bytes) => Word::Bytes(bytes),
            None => Word::Bad,
        }),
        None => Ok(match word.parse() {
            Ok(number) => Word::Number(number),
            Err(_) => Word::Bad,
        }),
    }
}

/// The records that these words give as bytes. None if there is no word, or a word isn't bytes.
pub fn listed(alloc: Global, words: &[Word]) -> Result<Option<Vec<Vec<u8>>>, AllocError> {
    let mut records = Vec::new(alloc);
    for word in words {
        if let Word::Bytes(bytes) = word {
            records.push(bytes.to_vec(alloc)?)?;
        }
    }
    let is_whole = !words.is_empty() && records.len() == words.len();
    Ok(is_whole.then_some(records))
}

/// Adds the answer that a line gets which is no command.
pub fn reported_bad(answer: &mut String) -> Reported {
    bad(answer);
    Ok(())
}

/// Adds a text, a number in decimal and another text to the answer.
pub fn put_count(answer: &mut String, before: &str, count: u64, after: &str) {
    let _ = write!(answer, "{before}{count}{after}");
}

/// Adds bytes as digits, after a space and an `x`.
pub fn put_bytes(text: &mut String, bytes: &[u8]) {
    put(text, " x");
    let _ = write_hex(text, bytes);
}

/// Adds the error of a call; if bytes of the journal are damaged, also their place.
pub fn put_error(text: &mut String, error: JournalError) {
    let _ = write!(text, "{error}");
    if let JournalError::Damaged(place) = error {
        put_count(text, " at ", place, "");
    }
}

/// Adds what an opening found: the journal's generation, the number of its records, and each record with the place of its group's gate.
pub fn put_opened(text: &mut String, journal: &Journal<MemDisk>, records: &[Record]) {
    put_count(text, "opened ", journal.generation(), "");
    put_count(text, ", records ", records.len() as u64, "");
    for record in records {
        put_count(text, ", ", record.gate, "");
        put_bytes(text, record.bytes.as_slice());
    }
}

/// Adds these calls of a disk, separated by commas. A write shows its byte if it wrote one, and otherwise how many bytes it wrote.
pub fn put_calls(text: &mut String, calls: &[Call]) {
    if calls.is_empty() {
        put(text, " none");
    }
    for (number, call) in calls.iter().enumerate() {
        put(text, if number == 0 { " " } else { ", " });
        put_call(text, call);
    }
}

fn put_call(text: &mut String, call: &Call) {
    match call {
        Call::Wrote { place, bytes } => {
            put_count(text, "wrote ", *place, "");
            put_written(text, bytes.as_slice());
        }
        Call::Cut(len) => put_count(text, "cut ", *len, ""),
        Call::Synced => put(text, "synced"),
        Call::Stopped(_) => put(text, "stopped"),
    }
}

fn put_written(text: &mut String, bytes: &[u8]) {
    if bytes.len() == 1 {
        put_bytes(text, bytes);
    } else {
        put_count(text, " bytes ", bytes.len() as u64, "");
    }
}
