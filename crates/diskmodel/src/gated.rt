//! A disk whose syncs pass a gate, so that a test can hold a thread right before one.
ghost use Rattle.std.specs.Prelude.{◌≡◌, ◌+◌, ◌≤◌, length, take, drop, IfOk, OnOk};
ghost use Rattle.diskmodel.specs.Disk.{written, IsTorn, IsCut, ComesBy, NoneNew, HasCause, Makes, TimePasses};
ghost use Rattle.diskmodel.specs.declared.call.Call.TheVariants.{Wrote, Cut};
ghost use Rattle.diskmodel.specs.Gated.{disk_of, gate_of};

use crate::disk::{Disk, DiskFault, StopDisk};

/// A gate that a sync has to pass before it is made.
pub trait Gate {
    /// Returns once the sync may go on.
    fn pass(&mut self);
}

/// A gate that lets each sync pass at once.
impl Gate for () {
    fn pass(&mut self) {}
}

/// A disk whose syncs wait for a gate. All its calls are those of the inner disk; before a sync the gate is passed.
#[derive(Drop)]
pub struct GatedDisk<D, G> {
    disk: D,
    gate: G,
}

impl<D, G> GatedDisk<D, G> {
    /// Makes a disk with a gate of a disk and a gate.
    pub fn new(disk: D, gate: G) -> GatedDisk<D, G>
        ensures disk { disk_of result ≡ disk }
        ensures gate { gate_of result ≡ gate }
    {
        GatedDisk { disk, gate }
    }

    /// The inner disk.
    pub fn disk(&self) -> &D
        ensures { result.now ≡ disk_of self.now }
    {
        &self.disk
    }

    /// Takes the inner disk and the gate apart again.
    pub fn into_parts(self) -> (D, G)
        ensures disk { result.0 ≡ disk_of self }
        ensures gate { result.1 ≡ gate_of self }
    {
        (self.disk, self.gate)
    }
}

impl<D: Disk, G: Gate> Disk for GatedDisk<D, G> {
    ghost device = { record {
      content = λ gated. D.device.content gated.disk;
      outcome = λ gated. D.device.outcome gated.disk;
      clock = λ gated. D.device.clock gated.disk;
      outcome_since = λ gated. D.device.outcome_since gated.disk;
      faults = λ gated. D.device.faults gated.disk;
      calls = λ gated. D.device.calls gated.disk;
    } };

    ghost content_is_outcome = { λ gated. D.content_is_outcome gated.disk };

    ghost counts_now = { λ gated. D.counts_now gated.disk };

    ghost only_now = { λ gated. D.only_now gated.disk };

    fn len(&mut self) -> Result<u64, DiskFault>
        ensures value { IfOk result (λ len. len ≡ length (D.device.content self.old.disk)) }
        ensures content { D.device.content self.new.disk ≡ D.device.content self.old.disk }
        ensures outcomes { NoneNew (D.device.outcome self.old.disk) (D.device.outcome self.new.disk) }
        ensures time { TimePasses D.device self.old.disk self.new.disk }
        ensures cause { HasCause (D.device.faults self.old.disk) (D.device.faults self.new.disk) result }
        ensures calls { D.device.calls self.new.disk ≡ D.device.calls self.old.disk }

        // The gate is untouched, since only a sync passes it.
        ensures gate { self.new.gate ≡ self.old.gate }
    {
        self.disk.len()
    }

    fn read_at(&mut self, at: u64, buffer: &mut [u8]) -> Result<(), DiskFault>
        requires { at + length buffer.old ≤ length (D.device.content self.old.disk) }
        ensures bytes { OnOk result (buffer.new ≡ take (length buffer.old) (drop at (D.device.content self.old.disk))) }
        ensures content { D.device.content self.new.disk ≡ D.device.content self.old.disk }
        ensures outcomes { NoneNew (D.device.outcome self.old.disk) (D.device.outcome self.new.disk) }
        ensures time { TimePasses D.device self.old.disk self.new.disk }
        ensures cause { HasCause (D.device.faults self.old.disk) (D.device.faults self.new.disk) result }
        ensures calls { D.device.calls self.new.disk ≡ D.device.calls self.old.disk }
        ensures gate { self.new.gate ≡ self.old.gate }
    {
        self.disk.read_at(at, buffer)
    }

    fn write_at(&mut self, at: u64, bytes: &[u8]) -> Result<(), DiskFault>
        requires { at ≤ length (D.device.content self.old.disk) }
        ensures content { OnOk result (D.device.content self.new.disk ≡ written (D.device.content self.old.disk) at bytes.now) }
        ensures outcomes { ComesBy (IsTorn at (length bytes.now)) (D.device.outcome self.old.disk) (D.device.outcome self.new.disk) }
        ensures time { TimePasses D.device self.old.disk self.new.disk }
        ensures cause { HasCause (D.device.faults self.old.disk) (D.device.faults self.new.disk) result }
        ensures calls { Makes (Wrote at bytes.now) result (D.device.calls self.old.disk) (D.device.calls self.new.disk) }
        ensures gate { self.new.gate ≡ self.old.gate }
    {
        self.disk.write_at(at, bytes)
    }

    fn cut(&mut self, len: u64) -> Result<(), DiskFault>
        requires { len ≤ length (D.device.content self.old.disk) }
        ensures content { OnOk result (D.device.content self.new.disk ≡ take len (D.device.content self.old.disk)) }
        ensures outcomes { ComesBy (IsCut len) (D.device.outcome self.old.disk) (D.device.outcome self.new.disk) }
        ensures time { TimePasses D.device self.old.disk self.new.disk }
        ensures cause { HasCause (D.device.faults self.old.disk) (D.device.faults self.new.disk) result }
        ensures calls { Makes (Cut len) result (D.device.calls self.old.disk) (D.device.calls self.new.disk) }
        ensures gate { self.new.gate ≡ self.old.gate }
    {
        self.disk.cut(len)
    }

    fn sync(&mut self) -> Result<(), DiskFault> {
        self.gate.pass();
        self.disk.sync()
    }

    fn end_reading(&mut self) {
        self.disk.end_reading();
    }
}

impl<D: StopDisk, G: Gate> StopDisk for GatedDisk<D, G> {
    fn stop(&mut self)
        ensures content { D.device.outcome self.old.disk (D.device.content self.new.disk) }
        ensures outcomes { NoneNew (D.device.outcome self.old.disk) (D.device.outcome self.new.disk) }
        ensures others { NoneNew (D.device.outcome self.new.disk) (D.device.outcome self.old.disk) }
        ensures time { TimePasses D.device self.old.disk self.new.disk }
        ensures faults { D.device.faults self.new.disk ≡ D.device.faults self.old.disk }
        ensures calls { D.device.calls self.new.disk ≡ D.device.calls self.old.disk }
        ensures gate { self.new.gate ≡ self.old.gate }
    {
        self.disk.stop();
    }
}
