//! Both disks of a journal in memory, and what a crash of the machine leaves of them.

use diskmodel::{CallKind, Disk, MemDisk, StopDisk, Switch};
use std::alloc::{AllocError, Global};

/// The bytes of both areas of a journal.
#[derive(Drop)]
pub struct Areas {
    pub first: Vec<u8>,
    pub second: Vec<u8>,
}

impl Areas {
    /// Two empty areas.
    pub fn none(alloc: Global) -> Areas {
        Areas {
            first: Vec::new(alloc),
            second: Vec::new(alloc),
        }
    }

    /// The areas with the bytes that both disks have now.
    pub fn on(alloc: Global, disks: &Disks) -> Result<Areas, AllocError> {
        Ok(Areas {
            first: disks.first.bytes().to_vec(alloc)?,
            second: disks.second.bytes().to_vec(alloc)?,
        })
    }

    /// Whether these areas have the same bytes as others.
    pub fn are(&self, others: &Areas) -> bool {
        self.first.as_slice() == others.first.as_slice()
            && self.second.as_slice() == others.second.as_slice()
    }
}

/// Both disks of a journal, and a switch that counts the calls of both and makes chosen ones fail.
#[derive(Drop)]
pub struct Disks {
    pub first: MemDisk,
    pub second: MemDisk,
    pub switch: Switch,
}

impl Disks {
    /// Disks that have these bytes, all of them synced.
    pub fn of(alloc: Global, areas: &Areas) -> Result<Disks, AllocError> {
        let switch = Switch::new(alloc)?;
        let first = MemDisk::with_switch(alloc, areas.first.to_vec(alloc)?, &switch)?;
        let second = MemDisk::with_switch(alloc, areas.second.to_vec(alloc)?, &switch)?;
        Ok(Disks {
            first,
            second,
            switch,
        })
    }

    /// Disks on which these bytes were written, and nothing was synced.
    pub fn loose(alloc: Global, areas: &Areas) -> Result<Disks, AllocError> {
        let mut disks = Disks::of(alloc, &Areas::none(alloc))?;
        let _ = disks.first.write_at(0, &areas.first);
        let _ = disks.second.write_at(0, &areas.second);
        Ok(disks)
    }

    /// Lets a call of this kind fail: the `count`-th one of its kind from now on, over both disks together. 0 lets none fail.
    pub fn fail(&self, kind: CallKind, count: u64) {
        let _ = self.switch.fail(kind, count);
    }

    /// Whether both disks are synced as a whole, so that a crash changes nothing.
    pub fn are_durable(&self) -> bool {
        is_durable(&self.first) && is_durable(&self.second)
    }

    /// The disk of the first or of the second area.
    pub fn of_area(&self, is_second: bool) -> &MemDisk {
        if is_second { &self.second } else { &self.first }
    }

    /// Stops both disks as a crash does, leaving these bytes of one area and all of the other. Returns whether a crash can leave them.
    pub fn stop(&mut self, is_second: bool, bytes: Vec<u8>) -> bool {
        if is_second {
            self.first.stop();
            stops_with(&mut self.second, bytes)
        } else {
            self.second.stop();
            stops_with(&mut self.first, bytes)
        }
    }
}

// Whether a disk is synced: no byte was written since the last sync, and the length is the same.
fn is_durable(disk: &MemDisk) -> bool {
    let len = disk.bytes().len() as u64;
    disk.bytes() == disk.durable() && (0..len).all(|place| !disk.is_written(place))
}

fn stops_with(disk: &mut MemDisk, bytes: Vec<u8>) -> bool {
    let can = disk.can_leave(&bytes);
    disk.choose(bytes);
    disk.stop();
    can
}

/// What a crash leaves at places that were written or cut since the last sync.
#[derive(Clone, Copy)]
pub enum Fill {
    /// The bytes that a read would have given.
    Keep,
    /// The bytes that were there at the last sync.
    Lose,
    /// This byte at each place that was written since the last sync.
    Torn(u8),
}

/// The ways that are tried of filling the places that were written since the last sync, each with the name that answers use for it.
pub const FILLS: [(Fill, &str); 6] = [
    (Fill::Keep, "keep"),
    (Fill::Lose, "lose"),
    (Fill::Torn(0), "00"),
    (Fill::Torn(1), "01"),
    (Fill::Torn(0x37), "37"),
    (Fill::Torn(0xff), "ff"),
];

/// The `length` bytes that a crash leaves of a disk if the places that were written since the last sync are filled this way. None if a
/// crash can't leave this many.
pub fn outcome(
    alloc: Global,
    disk: &MemDisk,
    fill: Fill,
    length: usize,
) -> Result<Option<Vec<u8>>, AllocError> {
    let bytes = match fill {
        Fill::Keep if length == disk.bytes().len() => disk.bytes().to_vec(alloc)?,
        Fill::Lose if length == disk.durable().len() => disk.durable().to_vec(alloc)?,
        Fill::Torn(byte) => torn(alloc, disk, byte, length)?,
        _ => return Ok(None),
    };
    Ok(disk.can_leave(&bytes).then_some(bytes))
}

// As many bytes as `length` says: those of the disk where they are durable, and this byte elsewhere.
fn torn(alloc: Global, disk: &MemDisk, byte: u8, length: usize) -> Result<Vec<u8>, AllocError> {
    let mut bytes = Vec::new(alloc);
    for place in 0..length {
        bytes.push(left_at(disk, byte, place))?;
    }
    Ok(bytes)
}

// The byte that a crash leaves at this place: the byte on the disk if it is durable, and otherwise the given byte.
fn left_at(disk: &MemDisk, byte: u8, place: usize) -> u8 {
    if place >= disk.bytes().len() || disk.is_written(place as u64) {
        return byte;
    }
    disk.durable().get(place).copied().unwrap_or(byte)
}

/// The greatest length that a crash may leave of a disk: its length now, or that of the last sync if that was greater.
pub fn longest(disk: &MemDisk) -> usize {
    disk.bytes().len().max(disk.durable().len())
}

/// The longest bytes that a crash may leave of a disk with lost places filled this way. None if it can leave nothing so.
pub fn longest_outcome(
    alloc: Global,
    disk: &MemDisk,
    fill: Fill,
) -> Result<Option<Vec<u8>>, AllocError> {
    let length = match fill {
        Fill::Keep => disk.bytes().len(),
        Fill::Lose => disk.durable().len(),
        Fill::Torn(_) => longest(disk),
    };
    outcome(alloc, disk, fill, length)
}
