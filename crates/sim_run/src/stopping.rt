//! A disk in memory whose machine stops right before a sync.

ghost use Rattle.std.specs.Prelude.{◌≡◌, ◌⊎◌, OnOk};
ghost use Rattle.diskmodel.specs.Disk.{NoneNew, LeavesOnly, HasCause, Makes};
ghost use Rattle.diskmodel.specs.Memory.{content_of, made_of, CanStopAt, TimeGoesOn};
ghost use Rattle.diskmodel.specs.declared.call.Call.TheVariants.{Synced};
ghost use Rattle.sim_run.specs.Stopping.{memory_of, faults_in};

use crate::machine::Machine;
use diskmodel::{Disk, DiskFault, MemDisk};

/// A disk in memory that belongs to a machine. The sync before which the machine stops isn't made, and the disk counts no failure for it.
#[derive(Drop)]
pub struct StoppingDisk<'a> {
    disk: MemDisk,
    machine: &'a Machine,
    // Whether the machine stopped right before a sync of this disk.
    is_stopped: bool,
}

impl<'a> StoppingDisk<'a> {
    /// Makes a disk of a machine that may stop out of a disk in memory.
    pub fn new(disk: MemDisk, machine: &'a Machine) -> StoppingDisk<'a>
        ensures { memory_of result ≡ disk }
    {
        StoppingDisk {
            disk,
            machine,
            is_stopped: false,
        }
    }

    /// Takes the disk in memory out.
    pub fn into_memory(self) -> MemDisk
        ensures { result ≡ memory_of self.entry }
    {
        let StoppingDisk {
            disk,
            machine: _,
            is_stopped: _,
        } = self;
        disk
    }
}

impl Disk for StoppingDisk<'_> {
    ghost use Rattle.diskmodel.specs.Outcomes.{counts_last, only_last};
    ghost use Rattle.diskmodel.specs.Memory.{first_of, calls_of};

    ghost device = { record {
      content = λ stopping. ⟦<MemDisk as Disk>⟧.device.content stopping.disk;
      outcome = λ stopping. ⟦<MemDisk as Disk>⟧.device.outcome stopping.disk;
      clock = λ stopping. ⟦<MemDisk as Disk>⟧.device.clock stopping.disk;
      outcome_since = λ stopping. ⟦<MemDisk as Disk>⟧.device.outcome_since stopping.disk;
      faults = faults_in;
      calls = λ stopping. ⟦<MemDisk as Disk>⟧.device.calls stopping.disk;
    } };

    ghost content_is_outcome = { λ stopping. stopping.disk.history.kept.possible };

    ghost counts_now = { λ stopping t c. counts_last (first_of stopping.disk) (calls_of stopping.disk) t c };

    ghost only_now = { λ stopping c. only_last (first_of stopping.disk) (calls_of stopping.disk) c };

    fn len(&mut self) -> Result<u64, DiskFault> {
        self.disk.len()
    }

    fn read_at(&mut self, at: u64, buffer: &mut [u8]) -> Result<(), DiskFault> {
        self.disk.read_at(at, buffer)
    }

    fn write_at(&mut self, at: u64, bytes: &[u8]) -> Result<(), DiskFault> {
        self.disk.write_at(at, bytes)
    }

    fn cut(&mut self, len: u64) -> Result<(), DiskFault> {
        self.disk.cut(len)
    }

    fn sync(&mut self) -> Result<(), DiskFault>
        ensures durable { OnOk result (LeavesOnly (content_of (memory_of self.old)) (CanStopAt (memory_of self.new))) }
        ensures content { content_of (memory_of self.new) ≡ content_of (memory_of self.old) }
        ensures outcomes { NoneNew (CanStopAt (memory_of self.old)) (CanStopAt (memory_of self.new)) }
        ensures time { TimeGoesOn (memory_of self.old) (memory_of self.new) }
        ensures cause { HasCause (faults_in self.old) (faults_in self.new) result }
        ensures calls { Makes Synced result (made_of (memory_of self.old)) (made_of (memory_of self.new)) }

        // The sync before which the machine stops isn't made.
        ensures stops { (self.new.is_stopped ≡ self.old.is_stopped) ⊎ (memory_of self.new ≡ memory_of self.old) }
    {
        if !self.is_stopped && self.machine.comes_to_stop() {
            self.is_stopped = true;
            return Err(DiskFault);
        }
        self.disk.sync()
    }

    fn end_reading(&mut self) {
        self.disk.end_reading();
    }
}
