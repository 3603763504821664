//! Both disks of a journal in memory, and what a crash of the machine leaves of them.

use crate::areas::Areas;
use diskmodel::{Call, CallKind, Disk, MemDisk, StopDisk, Switch};
use std::alloc::{AllocError, Global};
use test_cases::Reported;

/// The two disks of a journal.
#[derive(Drop)]
pub struct Disks {
    pub first: MemDisk,
    pub second: MemDisk,
}

impl Disks {
    /// Disks that have these bytes, all of them synced.
    pub fn of(alloc: Global, areas: &Areas) -> Result<Disks, AllocError> {
        Ok(Disks {
            first: MemDisk::new(alloc, areas.first.to_vec(alloc)?)?,
            second: MemDisk::new(alloc, areas.second.to_vec(alloc)?)?,
        })
    }

    /// Disks that have these bytes. The call of this kind and number fails; the calls of both disks are counted together, from 1.
    pub fn failing(
        alloc: Global,
        areas: &Areas,
        kind: CallKind,
        number: u64,
    ) -> Result<Disks, AllocError> {
        let switch = Switch::new(alloc)?;
        let first = MemDisk::with_switch(alloc, areas.first.to_vec(alloc)?, &switch)?;
        let second = MemDisk::with_switch(alloc, areas.second.to_vec(alloc)?, &switch)?;
        let _ = switch.fail(kind, number);
        Ok(Disks { first, second })
    }

    /// A copy of these disks, made by repeating their calls on disks that hold the bytes that these disks began with.
    pub fn again(&self, alloc: Global, areas: &Areas) -> Result<Disks, AllocError> {
        let mut disks = Disks::of(alloc, areas)?;
        repeat(&mut disks.first, self.first.calls());
        repeat(&mut disks.second, self.second.calls());
        Ok(disks)
    }

    /// The disk of the first or of the second area.
    pub fn of_area(&self, is_second: bool) -> &MemDisk {
        if is_second { &self.second } else { &self.first }
    }

    /// Stops both disks as a crash does, leaving these bytes of one area and all of the other. Returns whether a crash can leave them.
    pub fn stop(&mut self, is_second: bool, bytes: Vec<u8>) -> bool {
        if is_second {
            self.first.stop();
            stops_with(&mut self.second, bytes)
        } else {
            self.second.stop();
            stops_with(&mut self.first, bytes)
        }
    }
}

/// Repeats the calls of one disk on another disk that began with the same bytes.
fn repeat(disk: &mut MemDisk, calls: &[Call]) {
    for call in calls {
        make(disk, call);
    }
}

fn make(disk: &mut MemDisk, call: &Call) {
    match call {
        Call::Wrote { place, bytes } => write(disk, *place, bytes.as_slice()),
        Call::Cut(length) => cut(disk, *length),
        Call::Synced => {
            let _ = disk.sync();
        }
        Call::Stopped(_) => {}
    }
}

fn write(disk: &mut MemDisk, place: u64, bytes: &[u8]) {
    if place <= disk.bytes().len() as u64 {
        let _ = disk.write_at(place, bytes);
    }
}

fn cut(disk: &mut MemDisk, length: u64) {
    if length <= disk.bytes().len() as u64 {
        let _ = disk.cut(length);
    }
}

fn stops_with(disk: &mut MemDisk, bytes: Vec<u8>) -> bool {
    let can = disk.can_leave(&bytes);
    disk.choose(bytes);
    disk.stop();
    can
}

/// What a crash leaves at places that were written or cut since the last sync.
#[derive(Clone, Copy)]
pub enum Fill {
    /// The bytes that a read would have given.
    Keep,
    /// The bytes that were there at the last sync.
    Lose,
    /// This byte at each place that was written since the last sync.
    Torn(u8),
}

/// How many ways of filling such places are tried.
pub const FILL_COUNT: usize = 6;

/// Each way of filling such places that is tried, with the name that answers use for it.
pub const FILLS: [(Fill, &str); FILL_COUNT] = [
    (Fill::Keep, "keep"),
    (Fill::Lose, "lose"),
    (Fill::Torn(0), "00"),
    (Fill::Torn(1), "01"),
    (Fill::Torn(0x37), "37"),
    (Fill::Torn(0xff), "ff"),
];

/// What a crash may leave of a disk, for each length that is tried, with lost places filled this way. A synced disk loses nothing.
pub fn outcomes(alloc: Global, disk: &MemDisk, fill: Fill) -> Result<Vec<Vec<u8>>, AllocError> {
    let mut outcomes = Vec::new(alloc);
    match fill {
        Fill::Keep => outcomes.push(disk.bytes().to_vec(alloc)?)?,
        Fill::Lose if !is_durable(disk) => outcomes.push(disk.durable().to_vec(alloc)?)?,
        Fill::Torn(byte) if !is_durable(disk) => add_torn(alloc, disk, byte, &mut outcomes)?,
        _ => {}
    }
    Ok(outcomes)
}

/// Whether every byte and the length of a disk are synced, so that a crash changes nothing.
fn is_durable(disk: &MemDisk) -> bool {
    let length = disk.bytes().len() as u64;
    disk.bytes() == disk.durable() && (0..length).all(|place| !disk.is_written(place))
}

/// Adds what a crash may leave for each length that is tried, with this byte at each place that is not durable.
fn add_torn(alloc: Global, disk: &MemDisk, byte: u8, outcomes: &mut Vec<Vec<u8>>) -> Reported {
    for length in lengths(alloc, disk)? {
        let left = torn(alloc, disk, byte, length)?;
        if disk.can_leave(&left) {
            outcomes.push(left)?;
        }
    }
    Ok(())
}

/// The lengths that a crash may leave of a disk and that are tried: the length at the last sync, the current one, and half of the greater.
fn lengths(alloc: Global, disk: &MemDisk) -> Result<Vec<usize>, AllocError> {
    let (synced, read) = (disk.durable().len(), disk.bytes().len());
    let mut lengths = Vec::new(alloc);
    add_once(&mut lengths, synced)?;
    add_once(&mut lengths, read)?;
    add_once(&mut lengths, synced.max(read) / 2)?;
    Ok(lengths)
}

fn add_once(lengths: &mut Vec<usize>, length: usize) -> Reported {
    if !lengths.contains(&length) {
        lengths.push(length)?;
    }
    Ok(())
}

/// What a crash may leave of a disk: as many bytes as `length` says, with this byte at each place that is not durable.
fn torn(alloc: Global, disk: &MemDisk, byte: u8, length: usize) -> Result<Vec<u8>, AllocError> {
    let mut bytes = Vec::new(alloc);
    for place in 0..length {
        bytes.push(left_at(disk, byte, place))?;
    }
    Ok(bytes)
}

/// The byte that a crash leaves at this place: the byte on the disk if it is durable, and otherwise the given byte.
fn left_at(disk: &MemDisk, byte: u8, place: usize) -> u8 {
    if place >= disk.bytes().len() || disk.is_written(place as u64) {
        return byte;
    }
    disk.durable().get(place).copied().unwrap_or(byte)
}
