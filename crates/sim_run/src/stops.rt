//! Chooses what the next stop leaves of a disk in memory.

ghost use Rattle.std.specs.Prelude.{ℕ, List, IfOk};
ghost use Rattle.diskmodel.specs.Memory.{state_of};
ghost use Rattle.sim_run.specs.Stops.{WillLeave, IsTornBy};

use diskmodel::MemDisk;
use std::alloc::{AllocError, Global};

/// Sets a disk so that its next stop leaves the bytes of the last sync: what was written later is lost. On `AllocError` an allocation
/// failed.
pub fn losing(alloc: Global, mut disk: MemDisk) -> Result<MemDisk, AllocError>
    ensures { IfOk result (λ left. WillLeave disk left (state_of disk).durable) }
{
    let durable = disk.durable().to_vec(alloc)?;
    disk.choose(durable);
    Ok(disk)
}

/// Sets a disk so that its next stop leaves this byte at each place that was written since the last sync. On `AllocError` an allocation
/// failed.
pub fn tearing(alloc: Global, mut disk: MemDisk, byte: u8) -> Result<MemDisk, AllocError>
    ensures { IfOk result (λ left. (found : List ℕ) × IsTornBy byte disk found × WillLeave disk left found) }
{
    let found = torn(alloc, &disk, byte)?;
    disk.choose(found);
    Ok(disk)
}

// What a read of the disk gives, but with this byte at each place that was written since the last sync.
fn torn(alloc: Global, disk: &MemDisk, byte: u8) -> Result<Vec<u8>, AllocError>
    ensures { IfOk result (λ torn. IsTornBy byte disk.now torn.items) }
{
    let bytes = disk.bytes();
    let mut torn = Vec::new(alloc);
    for place in 0..bytes.len() {
        let found = if disk.is_written(place as u64) {
            byte
        } else {
            bytes[place]
        };
        torn.push(found)?;
    }
    Ok(torn)
}
