//! Openings of a node, and how their answers are shown.

use crate::memory::disk_with;
use crate::store::disks::report_left;
use crate::store::journals::put_error;
use crate::store::words::{Reported, put, put_bytes, put_count};
use diskmodel::MemDisk;
use recovery::{reopen, reopen_pair};
use sigface::HashSign;
use std::alloc::{AllocError, Global};
use validator::{Config, Validator};
use wire::{Author, Round};

/// How many bytes of a digest are shown.
const SHOWN: usize = 4;

/// Opens a node on a file, and adds the answer and what is left of the file. Opens a node on that again, which has to give the same answer.
pub fn open(
    alloc: Global,
    config: &Config<HashSign>,
    file: &[u8],
    answer: &mut String,
) -> Reported {
    let mut text = String::new(alloc);
    let disk = opened(alloc, config, disk_with(alloc, file)?, &mut text);
    put(answer, text.as_str());
    report_left(answer, &disk, file);
    if reported(alloc, config, disk.bytes())?.as_str() != text.as_str() {
        put(answer, ", and then otherwise");
    }
    put(answer, "\n");
    Ok(())
}

/// The answer of opening a node on a file.
pub fn reported(
    alloc: Global,
    config: &Config<HashSign>,
    file: &[u8],
) -> Result<String, AllocError> {
    let mut text = String::new(alloc);
    let _ = opened(alloc, config, disk_with(alloc, file)?, &mut text);
    Ok(text)
}

/// Opens a node on a disk, and adds the answer. Returns the disk.
pub fn opened(
    alloc: Global,
    config: &Config<HashSign>,
    disk: MemDisk,
    text: &mut String,
) -> MemDisk {
    match reopen(alloc, config, disk) {
        Ok((validator, journal)) => {
            report_node(&validator, text);
            journal.into_disk()
        }
        Err(failed) => {
            put_error(text, failed.error);
            failed.disk
        }
    }
}

/// Opens a node on two disks, and adds the answer.
pub fn report_pair(
    alloc: Global,
    config: &Config<HashSign>,
    first: MemDisk,
    second: MemDisk,
    answer: &mut String,
) {
    match reopen_pair(alloc, config, first, second) {
        Ok((validator, journal)) => {
            report_node(&validator, answer);
            let _ = journal.into_store();
        }
        Err(failed) => put_error(answer, failed.error),
    }
    put(answer, "\n");
}

/// Adds what an opened node has: its round, the length of its order, and its votes in the first rounds, by author and round.
fn report_node(validator: &Validator<'_, HashSign>, text: &mut String) {
    put_count(text, "opened, round ", validator.round(), "");
    put_count(text, ", order ", validator.order().len() as u64, "");
    for author in 0..4 {
        for number in 1..=4 {
            if let Ok(round) = Round::new(number)
                && let Some(digest) = validator.voted(Author(author), round)
            {
                put_count(text, ", vote ", u64::from(author), "");
                put_count(text, ".", number, "");
                put_bytes(text, &digest.0[..SHOWN]);
            }
        }
    }
}
