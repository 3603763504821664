//! Reads the groups of a file through a window: only the part of the file that is needed next is in memory.

ghost use Rattle.std.specs.Prelude.{◌≡◌, ◌≢◌, ◌+◌, ◌<◌, ◌≤◌, [], ℕ, List, length, Ok, IfOk, IfErr, IsTrue, false, OnOk, vec_len};
ghost use Rattle.diskmodel.specs.Disk.{ReportsFault};
ghost use Rattle.journal.specs.Format.{FailsAs, ScansTo, walk, with_front};
ghost use Rattle.journal.specs.Areas.{stands_at};
ghost use Rattle.journal.specs.Reader.{TakesAll, TakesTo};
ghost use Rattle.journal.specs.declared.layout.TheConstants.{SECOND_AREA};
ghost use Rattle.journal.specs.declared.record.Record.{Record};
ghost use Rattle.journal.specs.Window.{IsWindow, HasNext, IsOnlyRead, left_from};

use crate::error::JournalError;
use crate::layout::{CLOSED, LENGTH_BYTES, SECOND_AREA, WINDOW_BYTES};
use crate::reader::Reader;
use crate::reading::{body_at, group_of};
use crate::side::Side;
use diskmodel::Disk;
use std::alloc::{AllocError, Global};

// The part of a file that is in memory while its groups are read, front first.
#[derive(Drop)]
pub(crate) struct Window {
    // The bytes in memory. Of these the first `read` are no longer needed; the others are those of the file from the next gate on.
    bytes: Vec<u8>,
    read: usize,
    // The place of the next gate in the file, and the length of the file.
    pub(crate) gate: u64,
    pub(crate) len: u64,
}

impl Window {
    // A window at the front of a file of this length. A file that is longer than any memory gets `AllocError`.
    pub(crate) fn new(alloc: Global, len: u64) -> Result<Window, AllocError>
        requires { 0 < len }
        ensures { IfOk result (λ window. (window.gate ≡ 0) × ((file : List ℕ) → len ≡ length file → IsWindow file window)) }
    {
        if len > u64::MAX / 2 {
            return Err(AllocError);
        }
        let bytes = vec![in alloc; 0; len.min(WINDOW_BYTES) as usize]?;
        let read = bytes.len();
        Ok(Window {
            bytes,
            read,
            gate: 0,
            len,
        })
    }

    // Reads all groups from the next gate on.
    fn read_on<D: Disk, R: Reader>(
        &mut self,
        alloc: Global,
        disk: &mut D,
        base: u64,
        reader: &mut R,
    ) -> Result<(), JournalError>
        requires window { IsWindow (D.device.content disk.old) self.old }
        requires base { base ≤ SECOND_AREA }
        ensures taken { OnOk result (TakesTo (λ records. R.takes reader.old records reader.new) (left_from base self.old.gate (D.device.content disk.old)) (base + self.new.gate)) }
        ensures err { IfErr result (λ error. error ≢ JournalError.Device → FailsAs error (left_from base self.old.gate (D.device.content disk.old))) }
        ensures only_read { IsOnlyRead D.device disk.old disk.new }
        ensures cause { ReportsFault JournalError.Device (D.device.faults disk.old) (D.device.faults disk.new) result }
    {
        while self.next(alloc, disk, base, reader)? {}
        Ok(())
    }

    // Gives the records of the next group to a reader if the gate is open. Returns whether it is.
    fn next<D: Disk, R: Reader>(
        &mut self,
        alloc: Global,
        disk: &mut D,
        base: u64,
        reader: &mut R,
    ) -> Result<bool, JournalError>
        requires window { IsWindow (D.device.content disk.old) self.old }
        requires base { base ≤ SECOND_AREA }
        ensures window { OnOk result (IsWindow (D.device.content disk.old) self.new) }
        ensures later { IfOk result (λ found. IsTrue found → self.old.gate < self.new.gate) }
        ensures group { let file = D.device.content disk.old in IfOk result (λ found. IsTrue found → (group : List Record) × R.takes reader.old group reader.new
            × (left_from base self.old.gate file ≡ with_front group (left_from base self.new.gate file))) }
        ensures end { IfOk result (λ found. found ≡ false → (self.new.gate ≡ self.old.gate) × (reader.new ≡ reader.old)
            × (left_from base self.old.gate (D.device.content disk.old) ≡ Ok ([], base + self.old.gate))) }
        ensures err { IfErr result (λ error. error ≢ JournalError.Device → FailsAs error (left_from base self.old.gate (D.device.content disk.old))) }
        ensures only_read { IsOnlyRead D.device disk.old disk.new }
        ensures cause { ReportsFault JournalError.Device (D.device.faults disk.old) (D.device.faults disk.new) result }
    {
        self.reach(disk)?;
        if self.bytes[self.read] == CLOSED {
            return Ok(false);
        }
        let place = base + self.gate;
        let Some(body) = body_at(&self.bytes[self.read + 1..]) else {
            return Err(JournalError::Damaged(place));
        };
        let Some(group) = group_of(alloc, body, place)? else {
            return Err(JournalError::Damaged(place));
        };
        let size = 1 + LENGTH_BYTES + body.len();
        reader.take(alloc, group)?;
        self.read += size;
        self.gate += size as u64;
        Ok(true)
    }

    // Reads more of the file if the window doesn't have the next gate and the whole group after it.
    fn reach<D: Disk>(&mut self, disk: &mut D) -> Result<(), JournalError>
        requires { IsWindow (D.device.content disk.old) self.old }
        ensures window { OnOk result (IsWindow (D.device.content disk.old) self.new) }
        ensures has { OnOk result (HasNext (D.device.content disk.old) self.new) }
        ensures gate { self.new.gate ≡ self.old.gate }
        ensures only_read { IsOnlyRead D.device disk.old disk.new }
        ensures errors { IfErr result (λ error. error ≡ JournalError.Device) }
        ensures cause { ReportsFault JournalError.Device (D.device.faults disk.old) (D.device.faults disk.new) result }
    {
        if !self.has_next() {
            self.fill(disk)?;
        }
        Ok(())
    }

    // Whether the window has the whole next group, or all that is left of the file.
    fn has_next(&self) -> bool
        requires within { self.now.read ≤ vec_len self.now.bytes }
        requires inside { self.now.gate ≤ self.now.len }
        ensures { IsTrue result → (file : List ℕ) → IsWindow file self.now → HasNext file self.now }
    {
        let rest = &self.bytes[self.read..];
        if rest.is_empty() {
            return false;
        }
        if rest.len() as u64 == self.len - self.gate {
            return true;
        }
        let Some(_) = body_at(&rest[1..]) else {
            return false;
        };
        true
    }

    // Reads from the next gate on: as many bytes as the longest group and the gates before and after it have, or all that are left.
    fn fill<D: Disk>(&mut self, disk: &mut D) -> Result<(), JournalError>
        requires { IsWindow (D.device.content disk.old) self.old }
        ensures window { OnOk result (IsWindow (D.device.content disk.old) self.new) }
        ensures has { OnOk result (HasNext (D.device.content disk.old) self.new) }
        ensures gate { self.new.gate ≡ self.old.gate }
        ensures only_read { IsOnlyRead D.device disk.old disk.new }
        ensures errors { IfErr result (λ error. error ≡ JournalError.Device) }
        ensures cause { ReportsFault JournalError.Device (D.device.faults disk.old) (D.device.faults disk.new) result }
    {
        let count = (self.len - self.gate).min(WINDOW_BYTES) as usize;
        let start = self.bytes.len() - count;
        disk.read_at(self.gate, &mut self.bytes[start..])?;
        self.read = start;
        Ok(())
    }
}

// Reads the groups of the area on this side. Returns the place of the closed gate at which reading ends, and the length of the file.
pub(crate) fn read_area<D: Disk, R: Reader>(
    alloc: Global,
    side: Side,
    disk: &mut D,
    reader: &mut R,
) -> Result<(u64, u64), JournalError>
    ensures taken { OnOk result (TakesAll (λ records. R.takes reader.old records reader.new) (stands_at side (D.device.content disk.old))) }
    ensures gate { IfOk result (λ ends. ScansTo (D.device.content disk.old) ends.0) }
    ensures len { IfOk result (λ ends. ends.1 ≡ length (D.device.content disk.old)) }
    ensures err { IfErr result (λ error. error ≢ JournalError.Device → FailsAs error (stands_at side (D.device.content disk.old))) }
    ensures only_read { IsOnlyRead D.device disk.old disk.new }
    ensures cause { ReportsFault JournalError.Device (D.device.faults disk.old) (D.device.faults disk.new) result }
{
    let len = disk.len()?;
    if len < 2 {
        // A file of one byte has no group, whatever the byte. It is read all the same, so that every opening makes the same calls.
        let mut byte = [CLOSED; 1];
        disk.read_at(0, &mut byte[..len as usize])?;
        disk.end_reading();
        return Ok((0, len));
    }
    let gate = read_groups(alloc, side.base(), len, disk, reader)?;
    disk.end_reading();
    Ok((gate, len))
}

// Reads the groups of a file of this length. Places are counted from `base`.
fn read_groups<D: Disk, R: Reader>(
    alloc: Global,
    base: u64,
    len: u64,
    disk: &mut D,
    reader: &mut R,
) -> Result<u64, JournalError>
    requires len { len ≡ length (D.device.content disk.old) }
    requires some { 0 < len }
    requires base { base ≤ SECOND_AREA }
    ensures taken { IfOk result (λ gate. TakesTo (λ records. R.takes reader.old records reader.new) (walk base 0 (D.device.content disk.old)) (base + gate)) }
    ensures err { IfErr result (λ error. error ≢ JournalError.Device → FailsAs error (walk base 0 (D.device.content disk.old))) }
    ensures only_read { IsOnlyRead D.device disk.old disk.new }
    ensures cause { ReportsFault JournalError.Device (D.device.faults disk.old) (D.device.faults disk.new) result }
{
    let mut window = Window::new(alloc, len)?;
    window.read_on(alloc, disk, base, reader)?;
    Ok(window.gate)
}
