//! Tests of stops of the machine at a failing call of the disk: an opening on each outcome that the stop may have.

use crate::memory::{failing_disk, stop_with};
use crate::store::journals::{attempt, listed, put_records};
use crate::store::stores::Store;
use crate::store::words::{Reported, Word, put, put_number, put_once, reported_bad};
use diskmodel::{CallKind, Disk, MemDisk};
use std::alloc::{AllocError, Global};

/// A byte that occurs in no test case.
const OTHER: u8 = 0x99;

/// A file on which a journal is opened, the records that are then appended, and the device call that is set to fail; the number 0 sets
/// none.
#[derive(Clone, Copy)]
struct Trial<'a> {
    alloc: Global,
    file: &'a [u8],
    records: &'a [Word],
    kind: CallKind,
    count: u64,
}

impl Store<'_> {
    /// `stops CALL COUNT RECORD ..` opens the file and appends the records, with the count-th of these calls set to fail.
    pub fn report_stops(&mut self, words: &[Word], answer: &mut String) -> Reported {
        let [Word::Call(kind), Word::Number(count), records @ ..] = words else {
            return reported_bad(answer);
        };
        let (alloc, file, kind, count) = (self.alloc, self.disk.bytes(), *kind, *count);
        let trial = Trial {
            alloc,
            file,
            records,
            kind,
            count,
        };
        trial.write_to(answer)
    }
}

impl Trial<'_> {
    /// Adds the answers of the opening and the append, how many outcomes a stop has after them, and what an opening on each outcome gives.
    /// No answer is added twice.
    fn write_to(&self, answer: &mut String) -> Reported {
        let found = outcomes(self.alloc, &self.play(answer)?)?;
        put(answer, ", outcomes");
        put_number(answer, found.len() as u64);
        put(answer, "\n");
        for outcome in &found {
            put_once(answer, self.after_stop(outcome)?.as_str());
        }
        Ok(())
    }

    /// Opens the journal and appends the records. Returns the disk; no call of it is set to fail any more.
    fn play(&self, text: &mut String) -> Result<MemDisk, AllocError> {
        let records = listed(self.alloc, self.records)?;
        let disk = failing_disk(self.alloc, self.file, self.kind, self.count)?;
        let (mut disk, _) = attempt(self.alloc, disk, records, text)?;
        if self.count > 0 && !text.as_str().ends_with("2 Device") && !fails(&mut disk, self.kind) {
            put(text, ", and none failed");
        }
        Ok(disk)
    }

    /// What an opening gives after a stop that leaves these bytes.
    fn after_stop(&self, outcome: &[u8]) -> Result<String, AllocError> {
        let mut text = String::new(self.alloc);
        let mut disk = self.play(&mut text)?;
        text.clear();
        stop_with(self.alloc, &mut disk, outcome)?;
        if disk.bytes() != outcome {
            put(&mut text, "other bytes, ");
        }
        let (_, found) = attempt(self.alloc, disk, None, &mut text)?;
        put_records(&mut text, &found, true);
        put(&mut text, "\n");
        Ok(text)
    }
}

/// Makes a call of this kind that changes neither bytes nor length, and returns whether it fails.
pub fn fails(disk: &mut MemDisk, kind: CallKind) -> bool {
    let len = disk.bytes().len() as u64;
    let outcome = match kind {
        CallKind::Read => disk.read_at(0, &mut []),
        CallKind::Write => disk.write_at(len, &[]),
        CallKind::Cut => disk.cut(len),
        CallKind::Sync => disk.sync(),
    };
    outcome.is_err()
}

/// The byte strings of each length that a stop may leave. For each byte three values are tried: what the last sync left, what a read
/// returns, and another byte.
fn outcomes(alloc: Global, disk: &MemDisk) -> Result<Vec<Vec<u8>>, AllocError> {
    let mut found = Vec::new(alloc);
    let mut fronts = vec![in alloc; Vec::new(alloc)]?;
    for _ in 0..=disk.bytes().len().max(disk.durable().len()) {
        let next = longer(alloc, disk, &fronts)?;
        for front in fronts {
            if disk.can_leave(&front) {
                found.push(front)?;
            }
        }
        fronts = next;
    }
    Ok(found)
}

/// From these prefixes of outcomes, those that are longer by one byte.
fn longer(alloc: Global, disk: &MemDisk, fronts: &[Vec<u8>]) -> Result<Vec<Vec<u8>>, AllocError> {
    let mut found = Vec::new(alloc);
    for front in fronts {
        lengthen(alloc, disk, front, &mut found)?;
    }
    Ok(found)
}

fn lengthen(alloc: Global, disk: &MemDisk, front: &[u8], found: &mut Vec<Vec<u8>>) -> Reported {
    for value in values_at(alloc, disk, front.len())? {
        let mut longer = front.to_vec(alloc)?;
        longer.push(value)?;
        if may_begin(alloc, disk, &longer)? {
            found.push(longer)?;
        }
    }
    Ok(())
}

fn values_at(alloc: Global, disk: &MemDisk, place: usize) -> Result<Vec<u8>, AllocError> {
    let mut values = Vec::new(alloc);
    add_value(&mut values, disk.durable().get(place))?;
    add_value(&mut values, disk.bytes().get(place))?;
    add_value(&mut values, Some(&OTHER))?;
    Ok(values)
}

fn add_value(values: &mut Vec<u8>, value: Option<&u8>) -> Reported {
    match value {
        Some(value) if !values.contains(value) => Ok(values.push(*value)?),
        _ => Ok(()),
    }
}

/// Whether a stop may leave a file that begins with this prefix and goes on with the bytes that a read returns.
fn may_begin(alloc: Global, disk: &MemDisk, front: &[u8]) -> Result<bool, AllocError> {
    let mut bytes = front.to_vec(alloc)?;
    if let Some(rest) = disk.bytes().get(front.len()..) {
        bytes.extend_from_slice(rest)?;
    }
    Ok(disk.can_leave(&bytes))
}
