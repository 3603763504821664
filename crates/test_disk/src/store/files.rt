//! Openings of a journal on a file that is cut at each of several lengths or changed at each of several places. A line is added wherever
//! the answer changes.

use crate::memory::disk_with;
use crate::store::disks::report_left;
use crate::store::journals::{attempt, put_records};
use crate::store::words::{Reported, put, put_number};
use diskmodel::MemDisk;
use journal::Record;
use std::alloc::{AllocError, Global};

/// Opens a journal on each prefix of a file, from the first of these lengths to the last.
pub fn beginnings(alloc: Global, file: &[u8], from: u64, to: u64, answer: &mut String) -> Reported {
    for len in from..=to {
        if let Some(bytes) = file.get(..len as usize) {
            note(answer, &[len], opened(alloc, bytes, true)?);
        }
    }
    Ok(())
}

/// Opens a journal on a file with each value of a byte at each of these places, and shows only how many records it has.
pub fn changes(alloc: Global, file: &[u8], from: u64, to: u64, answer: &mut String) -> Reported {
    for place in from..=to {
        for value in 0..=255 {
            let mut bytes = file.to_vec(alloc)?;
            if let Some(byte) = bytes.get_mut(place as usize) {
                *byte = value;
            }
            note(
                answer,
                &[place, value as u64],
                opened(alloc, &bytes, false)?,
            );
        }
    }
    Ok(())
}

/// Adds a line with this text, unless the last line has the same text.
fn note(answer: &mut String, places: &[u64], text: String) {
    if !answer.as_str().ends_with(text.as_str()) {
        put(answer, "at");
        for place in places {
            put_number(answer, *place);
        }
        put(answer, text.as_str());
    }
}

fn opened(alloc: Global, file: &[u8], in_full: bool) -> Result<String, AllocError> {
    let mut text = String::new(alloc);
    put(&mut text, ": ");
    report_opened(alloc, file, in_full, &mut text)?;
    put(&mut text, "\n");
    Ok(text)
}

/// Adds how a journal is opened on a file (its records, or only how many they are) and what is left of the file.
fn report_opened(alloc: Global, file: &[u8], in_full: bool, text: &mut String) -> Reported {
    let (disk, found) = attempt(alloc, disk_with(alloc, file)?, None, text)?;
    put_records(text, &found, in_full);
    report_left(text, &disk, file);
    open_again(alloc, disk, &found, text)
}

/// Opens a journal on a disk again; it has to have the same records.
fn open_again(alloc: Global, disk: MemDisk, found: &[Record], text: &mut String) -> Reported {
    let len = disk.bytes().len();
    let (disk, again) = attempt(alloc, disk, None, &mut String::new(alloc))?;
    if !are_same(&again, found) || disk.bytes().len() != len {
        put(text, ", and then otherwise");
    }
    Ok(())
}

fn are_same(records: &[Record], others: &[Record]) -> bool {
    let mut same = records.len() == others.len();
    for (place, record) in records.iter().enumerate() {
        same = same && is_at(others, place, record);
    }
    same
}

fn is_at(records: &[Record], place: usize, record: &Record) -> bool {
    match records.get(place) {
        Some(other) => {
            other.gate == record.gate && other.bytes.as_slice() == record.bytes.as_slice()
        }
        None => false,
    }
}
