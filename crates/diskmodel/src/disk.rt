//! What a disk promises, and which bytes a stop of the machine may leave of it.

ghost use Rattle.std.specs.Prelude.{◌≡◌, ◌+◌, ◌≤◌, List, ℕ, length, take, drop, IfOk, OnOk};
ghost use Rattle.diskmodel.specs.Disk.{written, IsTorn, IsCut, ComesBy, NoneNew, LeavesOnly, HasCause, Makes, Device, TimePasses};
ghost use Rattle.diskmodel.specs.declared.call.Call.{Call};
ghost use Rattle.diskmodel.specs.declared.call.Call.TheVariants.{Wrote, Cut, Synced};

use thiserror::Error;

/// A call of the disk has failed. It may have had any part of its effect.
#[derive(Clone, Copy, Debug, PartialEq, Eq, Error)]
#[error("the disk failed")]
pub struct DiskFault;

/// A disk: a list of bytes. A stop of the machine may lose what was written or cut since the last successful sync; it may also come inside
/// a call. Places and lengths are in bytes.
pub trait Disk {
    /// What contracts need to know of disks of this type: what a read gives, what a stop may leave, the clock, the failures and the calls.
    ghost device: { Device Self };

    /// The length of the disk, in bytes.
    fn len(&mut self) -> Result<u64, DiskFault>
        ensures value { IfOk result (λ len. len ≡ length (device.content self.old)) }
        ensures content { device.content self.new ≡ device.content self.old }
        ensures outcomes { NoneNew (device.outcome self.old) (device.outcome self.new) }
        ensures time { TimePasses device self.old self.new }
        ensures cause { HasCause (device.faults self.old) (device.faults self.new) result }
        ensures calls { device.calls self.new ≡ device.calls self.old };

    /// Fills the buffer with the bytes of the disk from this place on.
    fn read_at(&mut self, at: u64, buffer: &mut [u8]) -> Result<(), DiskFault>
        requires { at + length buffer.old ≤ length (device.content self.old) }
        ensures bytes { OnOk result (buffer.new ≡ take (length buffer.old) (drop at (device.content self.old))) }
        ensures content { device.content self.new ≡ device.content self.old }
        ensures outcomes { NoneNew (device.outcome self.old) (device.outcome self.new) }
        ensures time { TimePasses device self.old self.new }
        ensures cause { HasCause (device.faults self.old) (device.faults self.new) result }
        ensures calls { device.calls self.new ≡ device.calls self.old };

    /// Writes the bytes at this place, which is within the disk or at its end. The disk grows if they go past its end.
    fn write_at(&mut self, at: u64, bytes: &[u8]) -> Result<(), DiskFault>
        requires { at ≤ length (device.content self.old) }
        ensures content { OnOk result (device.content self.new ≡ written (device.content self.old) at bytes.now) }
        ensures outcomes { ComesBy (IsTorn at (length bytes.now)) (device.outcome self.old) (device.outcome self.new) }
        ensures time { TimePasses device self.old self.new }
        ensures cause { HasCause (device.faults self.old) (device.faults self.new) result }
        ensures calls { Makes (Wrote at bytes.now) result (device.calls self.old) (device.calls self.new) };

    /// Cuts the disk to this length, which is at most its own.
    fn cut(&mut self, len: u64) -> Result<(), DiskFault>
        requires { len ≤ length (device.content self.old) }
        ensures content { OnOk result (device.content self.new ≡ take len (device.content self.old)) }
        ensures outcomes { ComesBy (IsCut len) (device.outcome self.old) (device.outcome self.new) }
        ensures time { TimePasses device self.old self.new }
        ensures cause { HasCause (device.faults self.old) (device.faults self.new) result }
        ensures calls { Makes (Cut len) result (device.calls self.old) (device.calls self.new) };

    /// Makes everything durable: after success a stop leaves exactly what a read gives.
    fn sync(&mut self) -> Result<(), DiskFault>
        ensures durable { OnOk result (LeavesOnly (device.content self.old) (device.outcome self.new)) }
        ensures content { device.content self.new ≡ device.content self.old }
        ensures outcomes { NoneNew (device.outcome self.old) (device.outcome self.new) }
        ensures time { TimePasses device self.old self.new }
        ensures cause { HasCause (device.faults self.old) (device.faults self.new) result }
        ensures calls { Makes Synced result (device.calls self.old) (device.calls self.new) };

    /// Says that the disk will not be read any more, so that memory for reading it can be freed. A later read may fail.
    fn end_reading(&mut self)
        ensures content { device.content self.new ≡ device.content self.old }
        ensures outcomes { NoneNew (device.outcome self.old) (device.outcome self.new) }
        ensures time { TimePasses device self.old self.new }
        ensures faults { device.faults self.new ≡ device.faults self.old }
        ensures calls { device.calls self.new ≡ device.calls self.old };

    /// What a read gives is one of the possible outcomes of a stop.
    ghost content_is_outcome: { (disk : Self) → device.outcome disk (device.content disk) };

    /// Whatever a stop may leave now, a stop since any earlier moment may have left.
    ghost counts_now: { (disk : Self) (t : ℕ) (c : List ℕ) → t ≤ device.clock disk → device.outcome disk c → device.outcome_since disk t c };

    /// Whatever a stop since the current moment may have left, a stop may leave now.
    ghost only_now: { (disk : Self) (c : List ℕ) → device.outcome_since disk (device.clock disk) c → device.outcome disk c };
}

/// A disk on which a test can stop the machine.
pub trait StopDisk: Disk {
    /// Stops the machine: from then on a read gives one of the possible outcomes. All other outcomes stay possible until a sync.
    fn stop(&mut self)
        ensures content { Self.device.outcome self.old (Self.device.content self.new) }
        ensures outcomes { NoneNew (Self.device.outcome self.old) (Self.device.outcome self.new) }
        ensures others { NoneNew (Self.device.outcome self.new) (Self.device.outcome self.old) }
        ensures time { TimePasses Self.device self.old self.new }
        ensures faults { Self.device.faults self.new ≡ Self.device.faults self.old }
        ensures calls { Self.device.calls self.new ≡ Self.device.calls self.old };
}
