//! Disks in memory.

use crate::words::Reported;
use diskmodel::{CallKind, MemDisk, StopDisk};
use sim_run::losing;
use std::alloc::{AllocError, Global};
use std::mem;

/// A disk in memory that holds these bytes, all of them synced.
pub fn disk_with(alloc: Global, bytes: &[u8]) -> Result<MemDisk, AllocError> {
    MemDisk::new(alloc, bytes.to_vec(alloc)?)
}

/// A disk with these bytes, with the count-th call of a kind set to fail; 0 sets none.
pub fn failing_disk(
    alloc: Global,
    bytes: &[u8],
    kind: CallKind,
    count: u64,
) -> Result<MemDisk, AllocError> {
    let mut disk = disk_with(alloc, bytes)?;
    disk.fail(kind, count)?;
    Ok(disk)
}

/// Moves a disk out of its place, and leaves an empty disk there.
pub fn taken(alloc: Global, disk: &mut MemDisk) -> Result<MemDisk, AllocError> {
    Ok(mem::replace(disk, disk_with(alloc, &[])?))
}

/// Stops a disk as a crash of the machine does. What was not synced is lost.
pub fn stopped(alloc: Global, disk: MemDisk) -> Result<MemDisk, AllocError> {
    let mut disk = losing(alloc, disk)?;
    disk.stop();
    Ok(disk)
}

/// Stops a disk as a crash of the machine does, and chooses that the crash leaves these bytes.
pub fn stop_with(alloc: Global, disk: &mut MemDisk, bytes: &[u8]) -> Reported {
    disk.choose(bytes.to_vec(alloc)?);
    disk.stop();
    Ok(())
}
