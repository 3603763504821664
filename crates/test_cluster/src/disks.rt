//! Disks in memory that belong to nodes, while the test can still make calls fail and choose what a crash leaves of the disk.

ghost use Rattle.std.specs.Prelude.{◌≡◌, [], All, IfOk};

use diskmodel::{CallKind, Disk, DiskFault, MemDisk, StopDisk, Switch};
use std::alloc::{AllocError, Global};
use std::cell::Cell;
use std::rc::Rc;

/// What a stop (a crash of the machine) leaves of a disk.
#[derive(Clone, Copy)]
pub enum Leaving {
    /// The bytes that a read would give at the moment of the stop: nothing is lost.
    Read,
    /// The bytes of the last sync: whatever was written later is lost.
    Synced,
    /// The bytes that a read would give, but with this byte at every place that was written since the last sync.
    Torn(u8),
}

/// The test's handle on a disk that a node owns: it makes calls fail and chooses what a stop leaves.
pub struct Grip {
    alloc: Global,
    switch: Switch,
    leaving: Rc<Cell<Leaving>>,
}

impl Drop for Grip {
    fn drop(self) {
        let Grip {
            alloc: _,
            switch: _,
            leaving: _,
        } = self;
    }
}

impl Grip {
    /// A new grip. No call is set to fail, and a stop loses nothing.
    pub fn new(alloc: Global) -> Result<Grip, AllocError> {
        Ok(Grip {
            alloc,
            switch: Switch::new(alloc)?,
            leaving: Rc::new(alloc, Cell::new(Leaving::Read))?,
        })
    }

    /// An empty disk on which this grip acts.
    pub fn disk(&self) -> Result<GrippedDisk, AllocError>
        ensures { IfOk result (λ gripped. ⟦<MemDisk as Disk>⟧.device.content gripped.disk ≡ []) }
    {
        let empty = Vec::new(self.alloc);
        Ok(GrippedDisk {
            alloc: self.alloc,
            disk: MemDisk::with_switch(self.alloc, empty, &self.switch)?,
            leaving: self.leaving.clone()?,
        })
    }

    /// Lets a call of this kind fail: the one that comes as the `count`-th of its kind from now on. Returns whether one more can be set.
    pub fn fail(&self, call: CallKind, count: u64) -> bool {
        self.switch.fail(call, count).is_ok()
    }

    /// Chooses what later stops leave of the disk.
    pub fn leave(&self, leaving: Leaving) {
        self.leaving.set(leaving);
    }
}

/// Makes `count` new grips, which set what stops leave and which calls fail.
pub fn new_grips(alloc: Global, count: u16) -> Result<Vec<Grip>, AllocError> {
    let mut grips = Vec::new(alloc);
    for _ in 0..count {
        grips.push(Grip::new(alloc)?)?;
    }
    Ok(grips)
}

/// An empty disk for each of the first `count` grips.
pub fn disks_of(alloc: Global, grips: &[Grip], count: usize) -> Result<Vec<GrippedDisk>, AllocError>
    ensures { IfOk result (λ disks. All (λ disk. ⟦<GrippedDisk as Disk>⟧.device.content disk ≡ []) disks.items) }
{
    let mut disks = Vec::new(alloc);
    for grip in grips.iter().take(count) {
        disks.push(grip.disk()?)?;
    }
    Ok(disks)
}

/// A disk on which a test has a grip.
pub struct GrippedDisk {
    alloc: Global,
    disk: MemDisk,
    leaving: Rc<Cell<Leaving>>,
}

impl Drop for GrippedDisk {
    fn drop(self) {
        let GrippedDisk {
            alloc: _,
            disk: _,
            leaving: _,
        } = self;
    }
}

impl GrippedDisk {
    // Chooses the bytes that the next stop leaves. If an allocation fails, the stop loses nothing.
    fn choose(&mut self)
        ensures history { self.new.disk.history ≡ self.old.disk.history }
        ensures faults { self.new.disk.faults ≡ self.old.disk.faults }
    {
        if let Ok(Some(bytes)) = self.chosen() {
            self.disk.choose(bytes);
        }
    }

    // The bytes that the next stop will leave. None if it loses nothing.
    fn chosen(&self) -> Result<Option<Vec<u8>>, AllocError> {
        match self.leaving.get() {
            Leaving::Read => Ok(None),
            Leaving::Synced => Ok(Some(self.disk.durable().to_vec(self.alloc)?)),
            Leaving::Torn(byte) => Ok(Some(self.torn(byte)?)),
        }
    }

    // The bytes that a read would give, but with this byte at every place that was written since the last sync.
    fn torn(&self, byte: u8) -> Result<Vec<u8>, AllocError> {
        let mut torn = Vec::new(self.alloc);
        for (place, read) in self.disk.bytes().iter().enumerate() {
            let found = if self.disk.is_written(place as u64) {
                byte
            } else {
                *read
            };
            torn.push(found)?;
        }
        Ok(torn)
    }
}

impl Disk for GrippedDisk {
    ghost use Rattle.diskmodel.specs.Outcomes.{counts_last, only_last};

    ghost device = { record {
      content = λ gripped. ⟦<MemDisk as Disk>⟧.device.content gripped.disk;
      outcome = λ gripped. ⟦<MemDisk as Disk>⟧.device.outcome gripped.disk;
      clock = λ gripped. ⟦<MemDisk as Disk>⟧.device.clock gripped.disk;
      outcome_since = λ gripped. ⟦<MemDisk as Disk>⟧.device.outcome_since gripped.disk;
      faults = λ gripped. ⟦<MemDisk as Disk>⟧.device.faults gripped.disk;
      calls = λ gripped. ⟦<MemDisk as Disk>⟧.device.calls gripped.disk;
    } };

    ghost content_is_outcome = { λ gripped. gripped.disk.history.kept.possible };

    ghost counts_now = { λ gripped t c. counts_last gripped.disk.history.first.items gripped.disk.history.calls.items t c };

    ghost only_now = { λ gripped c. only_last gripped.disk.history.first.items gripped.disk.history.calls.items c };

    fn len(&mut self) -> Result<u64, DiskFault> {
        self.disk.len()
    }

    fn read_at(&mut self, at: u64, buffer: &mut [u8]) -> Result<(), DiskFault> {
        self.disk.read_at(at, buffer)
    }

    fn write_at(&mut self, at: u64, bytes: &[u8]) -> Result<(), DiskFault> {
        self.disk.write_at(at, bytes)
    }

    fn cut(&mut self, len: u64) -> Result<(), DiskFault> {
        self.disk.cut(len)
    }

    fn sync(&mut self) -> Result<(), DiskFault> {
        self.disk.sync()
    }

    fn end_reading(&mut self) {
        self.disk.end_reading();
    }
}

impl StopDisk for GrippedDisk {
    fn stop(&mut self) {
        self.choose();
        self.disk.stop();
    }
}
