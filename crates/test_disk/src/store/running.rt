//! The running code under test: a book, and a journal on a disk in memory.

ghost use Rattle.std.specs.Prelude.{◌≡◌, None, IfOk};
ghost use Rattle.journal.specs.Journal.{spare_of};
ghost use Rattle.test_disk.specs.Way.{KeepsInFlight};

use crate::store::events::{message_of, sender_of};
use crate::store::headers::event;
use book::{EVENT_RECORD, OwnBook, Receipt, Refusal};
use diskmodel::MemDisk;
use journal::{Failed, Journal, JournalError, Record};
use recovery::reopen;
use sigface::{HashSign, Sign};
use std::alloc::{AllocError, Global};
use validator::Config;
use wire::encode;

/// Opens the node on a disk. Returns its book, whose run begins with the events on the disk, and the journal.
pub fn open_book<'a>(
    alloc: Global,
    config: &'a Config<HashSign>,
    disk: MemDisk,
) -> Result<(OwnBook<'a, HashSign>, Journal<MemDisk>), Failed<JournalError, MemDisk>>
    ensures { IfOk result (λ opened. spare_of opened.1 ≡ None) }
{
    let (validator, journal) = reopen(alloc, config, disk)?;
    Ok((OwnBook::new(alloc, validator), journal))
}

/// Gives the book the event with this number, and returns the answer; None if the event doesn't pass the checks.
pub fn accept(
    own: &mut OwnBook<'_, HashSign>,
    alloc: Global,
    number: u64,
) -> Result<Option<Result<Receipt, Refusal>>, AllocError>
    ensures { KeepsInFlight ⟦<HashSign as Sign>⟧.scheme own.old own.new }
{
    let message = message_of(alloc, number)?;
    match event(own.committee(), sender_of(number), message) {
        Some(event) => Ok(Some(own.accept(event))),
        None => Ok(None),
    }
}

/// The records of the journal of a node that has accepted the events with these numbers.
pub fn records_of(alloc: Global, history: &[u64]) -> Result<Vec<Vec<u8>>, AllocError> {
    let mut records = vec![in alloc; configuration(alloc)?]?;
    for number in history {
        records.push(record_of(alloc, *number)?)?;
    }
    Ok(records)
}

/// The record of the event with this number: its kind, its sender, and its message.
fn record_of(alloc: Global, number: u64) -> Result<Vec<u8>, AllocError> {
    let [high, low] = sender_of(number).0.to_be_bytes();
    let mut record = vec![in alloc; EVENT_RECORD, high, low]?;
    let message = encode(alloc, &message_of(alloc, number)?)?;
    record.extend_from_slice(&message)?;
    Ok(record)
}

/// The bytes of the configuration's record: kind, version, own number, depth, workers, batches, members, their keys, and their stakes.
fn configuration(alloc: Global) -> Result<Vec<u8>, AllocError> {
    let mut record = vec![in alloc; 0, 2, 0, 0, 0, 50, 0, 1, 0, 16, 0, 0, 0, 7]?;
    for member in 1..=7 {
        record.extend_from_slice(&[member; 32])?;
    }
    for _ in 1..=7 {
        record.extend_from_slice(&[0, 0, 0, 1])?;
    }
    Ok(record)
}

/// Whether these are the records of the journal of a node that has accepted the events with these numbers.
pub fn are_of(alloc: Global, records: &[Record], history: &[u64]) -> Result<bool, AllocError> {
    let expected = records_of(alloc, history)?;
    let mut same = records.len() == expected.len();
    for (place, bytes) in expected.iter().enumerate() {
        same = same && is_at(records, place, bytes);
    }
    Ok(same)
}

fn is_at(records: &[Record], place: usize, bytes: &[u8]) -> bool {
    match records.get(place) {
        Some(record) => record.bytes.as_slice() == bytes,
        None => false,
    }
}
