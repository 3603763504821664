//! The spare disk of a journal on two disks.

ghost use Rattle.std.specs.Prelude.{◌≡◌, ◌+◌, ◌<◌, ◌^◌, ◌++◌, ◌∷◌, IfErr, OnOk, OnErr};
ghost use Rattle.diskmodel.specs.Disk.{LeavesOnly, AtEachMoment, ReportsFault};
ghost use Rattle.journal.specs.Areas.{IsAtRest, IsOlderOrNew, rewrite_calls};
ghost use Rattle.journal.specs.Journal.{MadeSome};
ghost use Rattle.journal.specs.Snapshot.{bytes_for};
ghost use Rattle.journal.specs.Spares.{HasSwapped, HasKept, written_disk, by_area};
ghost use Rattle.journal.specs.declared.layout.TheConstants.{OPEN};

use crate::error::JournalError;
use crate::side::Side;
use crate::snapshot::Snapshot;
use diskmodel::Disk;
use std::mem;

/// The spare disk of a journal, whose area isn't read, with the side and the generation of the area that is read.
pub struct Spare<D: Disk> {
    pub(crate) disk: D,
    pub(crate) side: Side,
    pub(crate) generation: u64,
}

impl<D: Disk + Drop> Drop for Spare<D> {
    fn drop(self) {
        let Spare {
            disk: _,
            side: _,
            generation: _,
        } = self;
    }
}

impl<D: Disk> Spare<D> {
    // Writes a checkpoint of the next generation to the spare area. If that succeeds, the two disks change places: the spare one is read
    // from then on.
    pub(crate) fn rewrite(
        &mut self,
        live: &mut D,
        snapshot: &mut Snapshot,
    ) -> Result<(), JournalError>
        requires durable { LeavesOnly (D.device.content self.old.disk) (D.device.outcome self.old.disk) }
        requires generation { self.old.generation + 1 < 2 ^ 64 }
        ensures same { snapshot.new ≡ snapshot.old }
        ensures swapped { OnOk result (HasSwapped self.old self.new live.old) }
        ensures kept { OnErr result (HasKept self.old self.new live.old live.new) }
        ensures content { OnOk result (D.device.content live.new ≡ OPEN ∷ bytes_for (self.old.generation + 1) snapshot.old) }
        ensures durable { OnOk result (LeavesOnly (D.device.content live.new) (D.device.outcome live.new)) }
        ensures any_moment { IsAtRest self.old.generation (D.device.content self.old.disk) → AtEachMoment D.device self.old.disk (written_disk result self.new live.new) (IsOlderOrNew self.old.generation (bytes_for (self.old.generation + 1) snapshot.old)) }
        ensures errors { IfErr result (λ error. error ≡ JournalError.Device) }
        ensures cause { ReportsFault JournalError.Device (D.device.faults self.old.disk) (D.device.faults (written_disk result self.new live.new)) result }
        ensures calls { OnOk result (D.device.calls live.new ≡ D.device.calls self.old.disk ++ rewrite_calls (bytes_for (self.old.generation + 1) snapshot.old)) }
        ensures calls_err { OnErr result (MadeSome (rewrite_calls (bytes_for (self.old.generation + 1) snapshot.old)) (D.device.calls self.old.disk) (D.device.calls self.new.disk)) }
    {
        let generation = self.generation + 1;
        snapshot.write(generation, &mut self.disk)?;
        mem::swap(&mut self.disk, live);
        self.side = self.side.other();
        self.generation = generation;
        Ok(())
    }

    // Both disks in the order of their areas, given the one that is read.
    pub(crate) fn into_disks(self, live: D) -> (D, D)
        ensures { result ≡ by_area self.side live self.disk }
    {
        let Spare {
            disk,
            side,
            generation: _,
        } = self;
        match side {
            Side::First => (live, disk),
            Side::Second => (disk, live),
        }
    }
}
