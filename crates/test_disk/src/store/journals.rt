//! Commands of a test case to a journal on the disk; each of them opens the journal first.

ghost use Rattle.std.specs.Prelude.{◌≡◌, None};
ghost use Rattle.journal.specs.Journal.{spare_of, IsAlive};

use crate::memory::taken;
use crate::store::encoding::group_in;
use crate::store::stores::Store;
use crate::store::words::{Reported, Word, put, put_bytes, put_number, put_shown};
use diskmodel::{Disk, MemDisk};
use journal::JournalError::{ConfigMismatch, Damaged, Device, Full, Memory};
use journal::{Group, Journal, JournalError, Record, stands};
use std::alloc::{AllocError, Global};

/// All errors that a journal can return.
const ERRORS: [JournalError; 5] = [Memory, Device, Damaged(15), ConfigMismatch, Full];

impl Store<'_> {
    /// Opens the journal, and appends the records of these words.
    pub fn append(&mut self, words: &[Word], answer: &mut String) -> Reported {
        let records = listed(self.alloc, words)?;
        self.attempt(records, answer)
    }

    /// Opens the journal, and appends `count` records of zeros, each with this length.
    pub fn append_alike(&mut self, count: u64, len: usize, answer: &mut String) -> Reported {
        let records = alike(self.alloc, count, len)?;
        self.attempt(Some(records), answer)
    }

    /// Opens the journal, and appends a group that is given as these bytes and the number of its records.
    pub fn append_written(&mut self, count: u64, bytes: &[u8], answer: &mut String) -> Reported {
        let disk = taken(self.alloc, &mut self.disk)?;
        self.disk = append_written(self.alloc, disk, count, bytes, answer)?;
        put(answer, "\n");
        Ok(())
    }

    /// Opens the journal, and appends these records, if there are any.
    pub fn attempt(&mut self, records: Option<Vec<Vec<u8>>>, answer: &mut String) -> Reported {
        let disk = taken(self.alloc, &mut self.disk)?;
        let (disk, found) = attempt(self.alloc, disk, records, answer)?;
        self.disk = disk;
        put_records(answer, &found, true);
        put(answer, "\n");
        Ok(())
    }
}

/// The records in these words; None if there are no words, or a word isn't bytes.
pub fn listed(alloc: Global, words: &[Word]) -> Result<Option<Vec<Vec<u8>>>, AllocError> {
    let mut records = Vec::new(alloc);
    for word in words {
        if let Word::Bytes(bytes) = word {
            records.push(bytes.to_vec(alloc)?)?;
        }
    }
    let is_whole = !words.is_empty() && records.len() == words.len();
    Ok(is_whole.then_some(records))
}

fn alike(alloc: Global, count: u64, len: usize) -> Result<Vec<Vec<u8>>, AllocError> {
    let mut records = Vec::new(alloc);
    for _ in 0..count {
        records.push(vec![in alloc; 0; len]?)?;
    }
    Ok(records)
}

/// Opens the journal on a disk, adds its records to the answer, and appends these records as a group, if there are any. If the journal
/// can't be opened it has no records. Returns the disk.
pub fn attempt(
    alloc: Global,
    disk: MemDisk,
    records: Option<Vec<Vec<u8>>>,
    text: &mut String,
) -> Result<(MemDisk, Vec<Record>), AllocError> {
    match Journal::open(alloc, disk) {
        Ok((mut journal, found)) => {
            put(text, "opened");
            if let Some(records) = records {
                append(alloc, &mut journal, records, text)?;
            }
            Ok((journal.into_disk(), found))
        }
        Err(failed) => {
            put_error(text, failed.error);
            Ok((failed.disk, Vec::new(alloc)))
        }
    }
}

/// Opens the journal on a disk, and appends a group that is given as these bytes and the number of its records. Returns the disk.
fn append_written(
    alloc: Global,
    disk: MemDisk,
    count: u64,
    bytes: &[u8],
    text: &mut String,
) -> Result<MemDisk, AllocError> {
    match Journal::open(alloc, disk) {
        Ok((mut journal, _)) => {
            put(text, "opened");
            let group = group_in(alloc, bytes, count)?;
            append_group(&mut journal, group, text);
            Ok(journal.into_disk())
        }
        Err(failed) => {
            put_error(text, failed.error);
            Ok(failed.disk)
        }
    }
}

fn append(
    alloc: Global,
    journal: &mut Journal<MemDisk>,
    records: Vec<Vec<u8>>,
    text: &mut String,
) -> Reported
    requires alive { IsAlive ⟦<MemDisk as Disk>⟧.device journal.old }
    requires alone { spare_of journal.old ≡ None }
    ensures alone { spare_of journal.new ≡ None }
{
    let group = Group::new(alloc, records)?;
    append_group(journal, group, text);
    Ok(())
}

fn append_group(journal: &mut Journal<MemDisk>, group: Option<Group>, text: &mut String)
    requires alive { IsAlive ⟦<MemDisk as Disk>⟧.device journal.old }
    requires alone { spare_of journal.old ≡ None }
    ensures alone { spare_of journal.new ≡ None }
{
    let Some(group) = group else {
        return put(text, ", no group");
    };
    put(text, ", a group of");
    put_number(text, group.records_count());
    match journal.append(group) {
        Ok(synced) => {
            put(text, " synced");
            put_number(text, synced.records());
        }
        Err(error) => {
            put(text, ", ");
            put_error(text, error);
        }
    }
}

/// Adds how many records there are and, if `in_full`, each record after the place of its gate.
pub fn put_records(text: &mut String, records: &[Record], in_full: bool) {
    put(text, ", records");
    put_number(text, records.len() as u64);
    if in_full {
        for record in records {
            put(text, ",");
            put_number(text, record.gate);
            put_bytes(text, record.bytes.as_slice());
        }
    }
}

/// Adds the text of each error that a journal can return.
pub fn report_errors(answer: &mut String) {
    for error in &ERRORS {
        put_error(answer, *error);
        put(answer, "\n");
    }
}

/// Adds the text of an error, with the place if it is damage.
pub fn put_error(text: &mut String, error: JournalError) {
    put_shown(text, "", &error, "");
    if let Damaged(gate) = error {
        put(text, " at");
        put_number(text, gate);
    }
}

/// Adds the records that an opening reads from a file of these bytes.
pub fn report_stands(alloc: Global, bytes: &[u8], answer: &mut String) {
    match stands(alloc, bytes) {
        Ok(records) => {
            put(answer, "stands");
            put_records(answer, &records, true);
        }
        Err(error) => put_error(answer, error),
    }
    put(answer, "\n");
}
