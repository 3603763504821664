//! Journals in tests: the one on the open disk, and those that runs of a node leave on disks in memory.

ghost use Rattle.std.specs.Prelude.{◌≡◌, None};
ghost use Rattle.journal.specs.Journal.{spare_of, IsAlive};

use crate::live::words::{put, put_hex, put_number, put_shown};
use book::EVENT_RECORD;
use disk_file::FileDisk;
use diskmodel::{Disk, MemDisk};
use journal::{Group, Journal, Record, Store};
use std::alloc::{AllocError, Global};
use test_cases::bytes_of;

/// The records in these words of hexadecimal digits.
pub fn records_of(alloc: Global, rest: &str) -> Result<Vec<Vec<u8>>, AllocError> {
    let mut records = Vec::new(alloc);
    for word in rest.split_whitespace() {
        if let Some(bytes) = bytes_of(alloc, word)? {
            records.push(bytes)?;
        }
    }
    Ok(records)
}

/// Opens a journal on a disk, shows its records, appends these records as a group, if there are any, and returns the disk.
pub fn report_opening(
    alloc: Global,
    disk: FileDisk,
    records: Vec<Vec<u8>>,
    answer: &mut String,
) -> FileDisk {
    match Journal::open(alloc, disk) {
        Ok((mut journal, found)) => {
            put_records(answer, &found);
            append(alloc, &mut journal, records, answer);
            journal.into_disk()
        }
        Err(failed) => {
            put_shown(answer, "", &failed.error, "\n");
            failed.disk
        }
    }
}

fn append(
    alloc: Global,
    journal: &mut Journal<FileDisk>,
    records: Vec<Vec<u8>>,
    answer: &mut String,
)
    requires alive { IsAlive ⟦<FileDisk as Disk>⟧.device journal.old }
    requires alone { spare_of journal.old ≡ None }
    ensures alone { spare_of journal.new ≡ None }
{
    let Ok(Some(group)) = Group::new(alloc, records) else {
        return;
    };
    match journal.append(group) {
        Ok(synced) => put_number(answer, "synced", synced.records()),
        Err(error) => put_shown(answer, "", &error, "\n"),
    }
}

fn put_records(answer: &mut String, records: &[Record]) {
    put(answer, "records");
    for record in records {
        put(answer, " ");
        put_hex(answer, record.bytes.as_slice());
    }
    put(answer, "\n");
}

/// What was found in a journal that was opened.
#[derive(Drop)]
pub struct Found {
    /// How often the journal was rewritten.
    pub generation: u64,
    /// The length, in bytes, of the area that an opening reads.
    pub len: u64,
    /// The records of the journal.
    pub records: Vec<Record>,
}

impl Found {
    fn new(journal: &Journal<MemDisk>, records: Vec<Record>) -> Found
        requires { IsAlive ⟦<MemDisk as Disk>⟧.device journal.now }
    {
        Found {
            generation: journal.generation(),
            len: journal.len(),
            records,
        }
    }

    /// How many of the journal's records are events, and how many bytes these records have together, with their length fields.
    pub fn events(&self) -> (u64, u64) {
        let (mut count, mut bytes) = (0_u64, 0_u64);
        for record in &self.records {
            let record = record.bytes.as_slice();
            if record.first() == Some(&EVENT_RECORD) {
                count = count.saturating_add(1);
                bytes = bytes.saturating_add(4).saturating_add(record.len() as u64);
            }
        }
        (count, bytes)
    }
}

/// What is found in the journal on one disk or on two, if the journal can be opened.
pub fn found_on(alloc: Global, store: Store<MemDisk>) -> Option<Found> {
    match store {
        Store::One(disk) => {
            let Ok((journal, records)) = Journal::open(alloc, disk) else {
                return None;
            };
            Some(Found::new(&journal, records))
        }
        Store::Two(first, second) => {
            let Ok((journal, records)) = Journal::open_pair(alloc, first, second) else {
                return None;
            };
            Some(Found::new(&journal, records))
        }
    }
}
