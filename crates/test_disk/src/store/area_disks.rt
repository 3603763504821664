//! Both disks of a journal on two disks, and what a stop of the machine leaves on them.

use crate::memory::stop_with;
use crate::store::area_steps::Left;
use diskmodel::{MemDisk, Switch};
use std::alloc::{AllocError, Global};

/// Both disks of a journal, with one switch that counts their calls and sets them to fail.
#[derive(Drop)]
pub struct Disks {
    pub first: MemDisk,
    pub second: MemDisk,
}

impl Disks {
    /// Two empty disks.
    pub fn new(alloc: Global, switch: &Switch) -> Result<Disks, AllocError> {
        Ok(Disks {
            first: MemDisk::with_switch(alloc, Vec::new(alloc), switch)?,
            second: MemDisk::with_switch(alloc, Vec::new(alloc), switch)?,
        })
    }

    /// Stops the machine so that it leaves what `first` and `second` say on the two disks. Returns whether a stop can leave that.
    pub fn stop(&mut self, alloc: Global, first: Left, second: Left) -> Result<bool, AllocError> {
        let can = stop(alloc, &mut self.first, first)?;
        Ok(stop(alloc, &mut self.second, second)? && can)
    }
}

fn stop(alloc: Global, disk: &mut MemDisk, left: Left) -> Result<bool, AllocError> {
    let bytes = match left {
        Left::Read => disk.bytes().to_vec(alloc)?,
        Left::Synced => disk.durable().to_vec(alloc)?,
        Left::Torn { byte, every, len } => torn(alloc, disk, byte, every, len)?,
    };
    let can = disk.can_leave(&bytes);
    stop_with(alloc, disk, &bytes)?;
    Ok(can)
}

fn torn(
    alloc: Global,
    disk: &MemDisk,
    byte: u8,
    every: u64,
    len: u64,
) -> Result<Vec<u8>, AllocError> {
    let mut bytes = Vec::new(alloc);
    for place in 0..len {
        bytes.push(left_at(disk, byte, every, place))?;
    }
    Ok(bytes)
}

/// The byte that a torn stop leaves at a place: the byte of the last sync, if a stop can't change it; otherwise `byte` at places that are a
/// multiple of `every`, and at other places what a read returns there, or else the last sync.
fn left_at(disk: &MemDisk, byte: u8, every: u64, place: u64) -> u8 {
    let (read, durable) = (
        disk.bytes().get(place as usize),
        disk.durable().get(place as usize),
    );
    if read.is_some() && !disk.is_written(place) {
        return durable.copied().unwrap_or(byte);
    }
    if every > 0 && place % every == 0 {
        return byte;
    }
    read.or(durable).copied().unwrap_or(byte)
}
