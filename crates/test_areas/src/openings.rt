//! Openings of a journal, and their answers.

use crate::disks::{Areas, Disks};
use crate::words::{put, put_count, put_error, put_opened};
use diskmodel::MemDisk;
use journal::{Journal, Record, Store};
use std::alloc::{AllocError, Global};

/// Opens the journal on both disks, adds the answer of the opening, and returns the disks as it left them.
pub fn reopened(alloc: Global, disks: Disks, text: &mut String) -> Disks {
    let Disks {
        first,
        second,
        switch,
    } = disks;
    let (first, second) = opened(alloc, first, second, text);
    Disks {
        first,
        second,
        switch,
    }
}

fn opened(alloc: Global, first: MemDisk, second: MemDisk, text: &mut String) -> (MemDisk, MemDisk) {
    match Journal::open_pair(alloc, first, second) {
        Ok((journal, records)) => {
            put_opened(text, &journal, &records);
            journal.into_disks()
        }
        Err(failed) => {
            put_error(text, failed.error);
            failed.disk
        }
    }
}

/// The answer of an opening on disks with these bytes, all of them synced.
pub fn reported(alloc: Global, areas: &Areas) -> Result<String, AllocError> {
    let mut text = String::new(alloc);
    let _ = reopened(alloc, Disks::of(alloc, areas)?, &mut text);
    Ok(text)
}

/// Opens a journal on one disk or on two, adds the answer, and returns the disks as the opening left them.
pub fn reopened_store(alloc: Global, store: Store<MemDisk>, text: &mut String) -> Store<MemDisk> {
    let mut records = Vec::new(alloc);
    match Journal::open_store(alloc, store, &mut records) {
        Ok(journal) => {
            put_opened(text, &journal, &records);
            put(text, if journal.is_pair() { ", two" } else { ", one" });
            journal.into_store()
        }
        Err(failed) => {
            put_error(text, failed.error);
            failed.disk
        }
    }
}

/// Opens the journal, and adds how many records follow each gate: the commit byte before a group of records.
pub fn put_gates(alloc: Global, disks: Disks, text: &mut String) -> Disks {
    let Disks {
        first,
        second,
        switch,
    } = disks;
    let (first, second) = match Journal::open_pair(alloc, first, second) {
        Ok((journal, records)) => {
            put_count(text, "opened ", journal.generation(), "");
            put_each_gate(text, &records);
            journal.into_disks()
        }
        Err(failed) => {
            put_error(text, failed.error);
            failed.disk
        }
    };
    Disks {
        first,
        second,
        switch,
    }
}

// Adds how many records follow each gate. The records of one group stand next to each other in the list.
fn put_each_gate(text: &mut String, records: &[Record]) {
    let mut count = 0u64;
    for (place, record) in records.iter().enumerate() {
        count = count.saturating_add(1);
        let goes_on = match records.get(place.saturating_add(1)) {
            Some(next) => next.gate == record.gate,
            None => false,
        };
        if !goes_on {
            put_count(text, ", ", record.gate, "");
            put_count(text, ": ", count, "");
            count = 0;
        }
    }
}
