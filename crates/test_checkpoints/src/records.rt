//! Reads records as files of test cases write them. The first two records of a checkpoint, the configuration and the head (which has the
//! generation), are made here from the format alone, since the reference implementation makes neither.

use committee::Committee;
use header::Node;
use sigface::HashSign;
use std::alloc::{AllocError, Global};
use test_cases::{Reported, bytes_of};
use wire::Author;

/// The first two bytes of a configuration's record: its kind, and version 2 of the format, the one with stakes.
const CONFIGURATION: [u8; 2] = [0, 2];

/// The first byte of a head's record, its kind. The head holds the generation of the journal.
const HEAD: u8 = 2;

/// The bytes of words of hex digits, one word after the other. None if a word isn't hex digits.
pub fn bytes_in(alloc: Global, words: &str) -> Result<Option<Vec<u8>>, AllocError> {
    let mut bytes = Vec::new(alloc);
    for word in words.split_whitespace() {
        if !add_word(alloc, word, &mut bytes)? {
            return Ok(None);
        }
    }
    Ok(Some(bytes))
}

/// Adds the bytes of a word such as `00*32`: hex digits, and after a star how often they are repeated. Returns whether it is such a word.
fn add_word(alloc: Global, word: &str, bytes: &mut Vec<u8>) -> Result<bool, AllocError> {
    let (digits, times) = word.split_once('*').unwrap_or((word, "1"));
    let Ok(times) = times.parse::<u32>() else {
        return Ok(false);
    };
    let Some(part) = bytes_of(alloc, digits)? else {
        return Ok(false);
    };
    add_times(&part, times, bytes)?;
    Ok(true)
}

fn add_times(part: &[u8], times: u32, bytes: &mut Vec<u8>) -> Reported {
    for _ in 0..times {
        bytes.extend_from_slice(part)?;
    }
    Ok(())
}

/// The record of a node's configuration in version 2: kind, version, own number, depth, number of workers, greatest number of batches,
/// number of members, their keys, and their stakes.
pub fn configuration_record(alloc: Global, node: &Node<HashSign>) -> Result<Vec<u8>, AllocError> {
    let committee = &node.committee;
    let mut record = Vec::new(alloc);
    record.extend_from_slice(&CONFIGURATION)?;
    record.extend_from_slice(&node.own.0.to_be_bytes())?;
    record.extend_from_slice(&(committee.depth() as u16).to_be_bytes())?;
    record.extend_from_slice(&committee.workers().to_be_bytes())?;
    record.extend_from_slice(&committee.batches().to_be_bytes())?;
    record.extend_from_slice(&committee.size().to_be_bytes())?;
    add_keys(committee, &mut record)?;
    add_stakes(committee, &mut record)?;
    Ok(record)
}

fn add_keys(committee: &Committee, record: &mut Vec<u8>) -> Reported {
    for member in 0..committee.size() {
        if let Some(key) = committee.key(Author(member)) {
            record.extend_from_slice(&key.0)?;
        }
    }
    Ok(())
}

fn add_stakes(committee: &Committee, record: &mut Vec<u8>) -> Reported {
    for member in 0..committee.size() {
        if let Some(stake) = committee.stake(Author(member)) {
            record.extend_from_slice(&(stake as u32).to_be_bytes())?;
        }
    }
    Ok(())
}

/// The record of a head with this generation; a word that is no number counts as generation 0.
pub fn head_record(alloc: Global, generation: &str) -> Result<Vec<u8>, AllocError> {
    let generation = generation.parse::<u64>().unwrap_or(0);
    let mut record = Vec::new(alloc);
    record.push(HEAD)?;
    record.extend_from_slice(&generation.to_be_bytes())?;
    Ok(record)
}
