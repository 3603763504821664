//! The machine of a simulated node: which calls of its disks fail, and when it stops.

use crate::ending::Ending;
use diskmodel::{CallKind, MemDisk, Switch};
use std::alloc::{AllocError, Global};
use std::cell::Cell;

/// A machine with two disks. One switch sets calls of both disks to fail.
#[derive(Drop)]
pub struct Machine {
    switch: Switch,
    // The machine stops right before the sync that comes as this one from now on; 0 means that it doesn't stop.
    syncs_left: Cell<u64>,
}

impl Machine {
    /// A machine that has set no call to fail and doesn't stop.
    pub fn new(alloc: Global) -> Result<Machine, AllocError> {
        Ok(Machine {
            switch: Switch::new(alloc)?,
            syncs_left: Cell::new(0),
        })
    }

    /// An empty disk of this machine.
    pub fn empty_disk(&self, alloc: Global) -> Result<MemDisk, AllocError> {
        MemDisk::with_switch(alloc, Vec::new(alloc), &self.switch)
    }

    /// Lets a call of this kind fail: the one that comes as the `count`-th of its kind from now on, over both disks together.
    pub fn fail(&self, call: CallKind, count: u64) -> Result<(), Ending> {
        self.switch.fail(call, count)?;
        Ok(())
    }

    /// Lets the machine stop right before the sync that comes as the `sync`-th from now on, over both disks together. 0: it doesn't stop.
    pub fn stop_before(&self, sync: u64) {
        self.syncs_left.set(sync);
    }

    /// Counts one sync, and returns whether the machine has to stop before it.
    pub fn comes_to_stop(&self) -> bool {
        let left = self.syncs_left.get();
        self.syncs_left.set(left.saturating_sub(1));
        left == 1
    }
}
