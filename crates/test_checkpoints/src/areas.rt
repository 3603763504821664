//! The bytes of both areas (disks) of a journal, as a test case sets and changes them.

use diskmodel::MemDisk;
use std::alloc::{AllocError, Global};
use test_cases::Reported;

/// A gate is the commit byte before a group of records: these are the values of an open gate and of a closed one.
const OPEN: u8 = 1;

const CLOSED: u8 = 0;

/// A batch of member 2 and worker 0 with one transaction of four bytes, as it stands in a group of a journal: the length of its record, the
/// kind (an event), the sender, and the message up to the transaction's bytes.
const BATCH: [u8; 20] = [0, 0, 0, 20, 1, 0, 2, 1, 0, 2, 0, 0, 0, 0, 0, 1, 0, 0, 0, 4];

/// How many bytes this batch takes in a group, with the four bytes of its transaction.
const BATCH_BYTES: u32 = 24;

/// The bytes of both areas of a journal.
#[derive(Drop)]
pub struct Areas {
    pub first: Vec<u8>,
    pub second: Vec<u8>,
}

impl Areas {
    /// Two empty areas.
    pub fn none(alloc: Global) -> Areas {
        Areas {
            first: Vec::new(alloc),
            second: Vec::new(alloc),
        }
    }

    /// The bytes of the first or the second area.
    pub fn of_area(&self, is_second: bool) -> &[u8] {
        if is_second { &self.second } else { &self.first }
    }

    /// A copy of these areas in which one area is cut to this length.
    pub fn cut(&self, alloc: Global, is_second: bool, length: usize) -> Result<Areas, AllocError> {
        let mut areas = self.copied(alloc)?;
        if is_second {
            areas.second.truncate(length);
        } else {
            areas.first.truncate(length);
        }
        Ok(areas)
    }

    /// A copy of these areas in which this number is added to one byte of one area, modulo 256.
    pub fn changed(
        &self,
        alloc: Global,
        is_second: bool,
        place: usize,
        more: u8,
    ) -> Result<Areas, AllocError> {
        let mut areas = self.copied(alloc)?;
        if is_second {
            change(&mut areas.second, place, more);
        } else {
            change(&mut areas.first, place, more);
        }
        Ok(areas)
    }

    fn copied(&self, alloc: Global) -> Result<Areas, AllocError> {
        Ok(Areas {
            first: self.first.to_vec(alloc)?,
            second: self.second.to_vec(alloc)?,
        })
    }
}

fn change(bytes: &mut [u8], place: usize, more: u8) {
    if let Some(byte) = bytes.get_mut(place) {
        *byte = byte.wrapping_add(more);
    }
}

/// Whether two disks have the same bytes. The first gate may differ in its value if it is open on both.
pub fn are_alike(left: &MemDisk, right: &MemDisk) -> bool {
    match (left.bytes().split_first(), right.bytes().split_first()) {
        (Some((gate, rest)), Some((other, others))) => {
            (*gate == CLOSED) == (*other == CLOSED) && rest == others
        }
        (None, None) => true,
        _ => false,
    }
}

/// Appends a group of `count` batches of member 2, numbered from `from` on, to an area, and opens the gate before this group.
pub fn add_batches(area: &mut Vec<u8>, from: u32, count: u32) -> Reported {
    if let Some(gate) = area.last_mut() {
        *gate = OPEN;
    }
    area.extend_from_slice(&count.saturating_mul(BATCH_BYTES).to_be_bytes())?;
    for number in from..from.saturating_add(count) {
        area.extend_from_slice(&BATCH)?;
        area.extend_from_slice(&number.to_be_bytes())?;
    }
    area.push(CLOSED)?;
    Ok(())
}
