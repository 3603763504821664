//! The words of a command of a test case, and the parts of its answer.

use committee::{MAX_MEMBERS, MemberSet};
use std::alloc::{AllocError, Global};
use std::collections::BTreeMap;
use std::fmt::Display;
pub use test_cases::Reported;
use test_cases::{bytes_of, write_hex};
use wire::{Author, Digest, Round};

/// The greatest number of bytes that are shown.
const SHOWN_BYTES: usize = 80;

/// Bytes that have been given names.
pub type Names = BTreeMap<String, Vec<u8>>;

/// The texts before and after the first of these marks; without a mark, the whole text and an empty one.
pub fn parted(text: &str, mark: char) -> (&str, &str) {
    text.split_once(mark).unwrap_or((text, ""))
}

/// The member with this number, which may have blanks around it; member 0 if there is no number.
pub fn member_in(word: &str) -> Author {
    Author(word.trim().parse::<u16>().unwrap_or(0))
}

/// The numbers in these words; None if a word isn't a number.
pub fn numbers_of(alloc: Global, words: &str) -> Result<Option<Vec<u64>>, AllocError> {
    let mut numbers = Vec::new(alloc);
    for word in words.split_whitespace() {
        match word.parse::<u64>() {
            Ok(number) => numbers.push(number)?,
            Err(_) => return Ok(None),
        }
    }
    Ok(Some(numbers))
}

/// The numbers in a text: each run of digits is one.
pub fn numbers_in(alloc: Global, text: &str) -> Result<Vec<u64>, AllocError> {
    let mut numbers = Vec::new(alloc);
    let mut number = None;
    for byte in text.as_bytes() {
        match byte {
            b'0'..=b'9' => number = Some(longer(number.unwrap_or(0), *byte)),
            _ => put(&mut numbers, number.take())?,
        }
    }
    put(&mut numbers, number)?;
    Ok(numbers)
}

// A number with one more digit.
fn longer(number: u64, digit: u8) -> u64 {
    let digit = u64::from(digit.saturating_sub(b'0'));
    number.saturating_mul(10).saturating_add(digit)
}

fn put(numbers: &mut Vec<u64>, number: Option<u64>) -> Reported {
    if let Some(number) = number {
        numbers.push(number)?;
    }
    Ok(())
}

/// The bytes that these words stand for, one word's after the other's.
pub fn joined(alloc: Global, names: &Names, words: &str) -> Result<Option<Vec<u8>>, AllocError> {
    let mut bytes = Vec::new(alloc);
    for word in words.split_whitespace() {
        let (word, times) = word.split_once('*').unwrap_or((word, "1"));
        let Some(part) = part_of(alloc, names, word)? else {
            return Ok(None);
        };
        for _ in 0..times.parse::<u32>().unwrap_or(0) {
            bytes.extend_from_slice(&part)?;
        }
    }
    Ok(Some(bytes))
}

/// The bytes that a name or hexadecimal digits stand for.
fn part_of(alloc: Global, names: &Names, word: &str) -> Result<Option<Vec<u8>>, AllocError> {
    match names.get(word) {
        Some(named) => Ok(Some(named.clone()?)),
        None => bytes_of(alloc, word),
    }
}

/// The author with this number, or the one with the greatest number if this one is too great.
pub fn author_of(number: u64) -> Author {
    Author(number.min(65_535) as u16)
}

/// The round with this number, or round 0 (the genesis) if the number is too great.
pub fn round_of(number: u64) -> Round {
    Round::new(number).unwrap_or(Round::genesis())
}

/// The digest of the first 32 of these bytes, or of all zeros if there are fewer.
pub fn digest_of(bytes: &[u8]) -> Digest {
    Digest(bytes.first_chunk::<32>().copied().unwrap_or([0; 32]))
}

/// Adds a line: how many bytes there are, and the first ones.
pub fn show(bytes: &[u8], answer: &mut String) -> Reported {
    let len = bytes.len();
    write!(answer, "{len} [")?;
    write_hex(answer, bytes.get(..SHOWN_BYTES).unwrap_or(bytes))?;
    answer.push_str("]\n")
}

/// Adds a line of a name and numbers; true is shown as 1 and false as 0.
pub fn list(name: &str, numbers: &[u64], answer: &mut String) -> Reported {
    answer.push_str(name)?;
    for number in numbers {
        write!(answer, " {number}")?;
    }
    answer.push_str("\n")
}

/// Adds a line of a name, and `true` or `false`.
pub fn whether(name: &str, is_so: bool, answer: &mut String) -> Reported {
    writeln!(answer, "{name} {is_so}")
}

/// Adds a line with the result or the refusal.
pub fn report<T: Display + Drop, E: Display + Drop>(
    out: Result<T, E>,
    answer: &mut String,
) -> Reported {
    match out {
        Ok(value) => writeln!(answer, "{value}"),
        Err(error) => writeln!(answer, "{error}"),
    }
}

/// The set of those of these authors whose numbers members can have.
pub fn set_of(authors: &[u64]) -> MemberSet {
    let mut set = MemberSet::none();
    for author in authors {
        let author = author_of(*author);
        if author.0 < MAX_MEMBERS {
            set.insert(author);
        }
    }
    set
}

/// Adds a name and the members of a set.
pub fn write_set(answer: &mut String, name: &str, set: &MemberSet) -> Reported {
    answer.push_str(name)?;
    for member in 0..MAX_MEMBERS {
        if set.contains(Author(member)) {
            write!(answer, " {member}")?;
        }
    }
    answer.push_str("\n")
}

/// Adds a slot as its round and its author: `3.1`.
pub fn write_slot(answer: &mut String, slot: &(Round, Author)) -> Reported {
    write!(answer, " {}.{}", slot.0.number(), slot.1.0)
}

/// Adds a line that says that the command is unknown.
pub fn bad(answer: &mut String) -> Reported {
    answer.push_str("bad case\n")
}
