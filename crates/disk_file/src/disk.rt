//! A disk over a file.

ghost use Rattle.std.specs.Prelude.{◌≡◌, ◌+◌, ◌^◌, ◌<◌, ◌≤◌, ◌∷◌, ◌++◌, [], ℕ, true, false, length, min, take, drop, IfOk, IfSome, OnOk, OnErr, Ok, IsOk};
ghost use Rattle.diskmodel.specs.Disk.{written, IsTorn, IsCut, ComesBy, NoneNew, LeavesOnly, HasCause, Makes};
ghost use Rattle.diskmodel.specs.declared.call.Call.TheVariants.{Wrote, Cut, Synced};
ghost use Rattle.std.proofs.Props.{props};
ghost use Rattle.std.specs.Option.{option_map};
ghost use Rattle.disk_file.specs.Stories.{Adds, SameCalls, begun, failing, IsSound, held, TimePasses};

use crate::error::OpenError;
use crate::opening::{open_alone, read_all, read_front, read_on, sync_folder};
use crate::tape::Tape;
use diskmodel::{Disk, DiskFault};
use std::alloc::{AllocError, Global};
use std::fs::File;
use std::io;
use std::os::unix::fs::FileExt;
use std::rt::Files;

/// How many bytes are read at once of the part of a file that isn't kept in memory.
const WINDOW_BYTES: usize = 1 << 16;

/// A disk over a regular file, which it locks: nobody else can open the file as a disk until this disk is dropped.
///
/// Once a call has failed, all later ones fail too, and the file has to be opened again. The length is remembered, so the system is never
/// asked for it. The bytes are read when the file is opened and kept in memory, all of them or only the first ones; reads are served from
/// there. The first write, and `end_reading`, free this memory, and from then on a read of one byte or more fails. So memory doesn't grow
/// with what is written.
///
/// The contracts are about a record that is in no memory: the bytes that were read at the opening, and the calls since then. What a read
/// gives and what a stop may leave is what the model of a disk says for this record. That the real file behaves so is assumed; nothing here
/// proves it:
/// - Each method makes the system call that it records, which has to be checked by reading the code, and that call does what its name says:
///   a successful write has put these bytes at this place, a successful cut has set the length, and a failed call has had any part of its
///   effect.
/// - A successful sync has made the bytes and the length durable on the device. What is read at the opening, after a sync, is durable too.
///   After a failed sync some systems let the next one succeed although data was lost: restart the machine then, before the file is opened
///   again.
/// - Nobody else writes the file. Its lock keeps off other disks only.
/// - What the next opening reads, however this disk ended, is something that a stop may leave.
pub struct FileDisk {
    file: File,
    tape: Tape,
    len: u64,
    mirror: Option<Vec<u8>>,
    is_down: bool,
    ghost sound: { IsSound tape },
    ghost length_is: { len ≡ length (held tape) },
    ghost mirrors: { IfSome mirror (λ bytes. bytes.items ≡ take (length bytes.items) (held tape)) } by { Prim.hlevel props },
}

impl Drop for FileDisk {
    fn drop(self) {
        let FileDisk {
            file: _,
            tape: _,
            len: _,
            mirror: _,
            is_down: _,
        } = self;
    }
}

impl FileDisk {
    ghost use Rattle.disk_file.specs.Files.{story_of, content_of, CanStopAt, is_down, readable_in, IsReadable, StaysDown};

    /// Opens the file at this path for one owner; a file that isn't there is created empty. The file and its folder are synced before the
    /// file is read, so that it survives a power cut and everything read is durable.
    ///
    /// # Errors
    /// `NotAFile` if there is something other than a regular file, such as a folder or a link; `InUse` if another process, or another disk
    /// of this process, has the file open as a disk; `Memory` if an allocation for its bytes or its record failed; otherwise `Device`.
    pub fn open<R: Files<File = File>>(
        rt: &R,
        alloc: Global,
        path: &str,
    ) -> Result<FileDisk, OpenError>
        ensures begun { IfOk result (λ disk. story_of disk ≡ begun (content_of disk)) }
        ensures durable { IfOk result (λ disk. LeavesOnly (content_of disk) (CanStopAt disk)) }
        ensures up { IfOk result (λ disk. is_down disk ≡ false) }
        ensures readable { IfOk result IsReadable }
    {
        let file = open_alone(rt, path)?;
        file.sync_all()?;
        sync_folder(rt, path)?;
        let bytes = read_all(alloc, &file)?;
        Ok(FileDisk::begin(alloc, file, bytes)?)
    }

    /// Like `open`, but only the first `keep` of the bytes that are read are kept in memory; a read past them fails. It is for a file of
    /// which only the front is needed, such as the older one of a journal's two files.
    ///
    /// # Errors
    /// Those of `open`.
    pub fn open_front<R: Files<File = File>>(
        rt: &R,
        alloc: Global,
        path: &str,
        keep: u64,
    ) -> Result<FileDisk, OpenError>
        ensures begun { IfOk result (λ disk. story_of disk ≡ begun (content_of disk)) }
        ensures durable { IfOk result (λ disk. LeavesOnly (content_of disk) (CanStopAt disk)) }
        ensures up { IfOk result (λ disk. is_down disk ≡ false) }
        ensures front { IfOk result (λ disk. readable_in disk ≡ min keep (length (content_of disk))) }
    {
        let file = open_alone(rt, path)?;
        file.sync_all()?;
        sync_folder(rt, path)?;
        let (front, len) = read_front(alloc, &file, keep)?;
        let mut tape = Tape::new(alloc, &front)?;
        let mut window = vec![in alloc; 0; WINDOW_BYTES]?;
        read_on(&file, &mut tape, &mut window, front.len() as u64, len)?;
        Ok(FileDisk {
            file,
            tape,
            len,
            mirror: Some(front),
            is_down: false,
        })
    }

    /// The disk over a file that has been synced and has these bytes.
    fn begin(alloc: Global, file: File, bytes: Vec<u8>) -> Result<FileDisk, AllocError>
        ensures story { IfOk result (λ disk. story_of disk ≡ begun bytes.items) }
        ensures up { IfOk result (λ disk. is_down disk ≡ false) }
        ensures readable { IfOk result IsReadable }
    {
        Ok(FileDisk {
            file,
            tape: Tape::new(alloc, &bytes)?,
            len: bytes.len() as u64,
            mirror: Some(bytes),
            is_down: false,
        })
    }

    /// Counts a failed call, and returns its error.
    fn fault(&mut self) -> DiskFault
        ensures story { story_of self.new ≡ failing (story_of self.old) }
        ensures calls { SameCalls (story_of self.old) (story_of self.new) }
        ensures down { is_down self.new ≡ true }
        ensures readable { IsReadable self.old → IsReadable self.new }
    {
        self.is_down = true;
        self.tape.failed();
        DiskFault
    }

    /// Fails if an earlier call has failed.
    fn fail_if_down(&mut self) -> Result<(), DiskFault>
        ensures ok { OnOk result ((self.new ≡ self.old) × (is_down self.old ≡ false)) }
        ensures err { OnErr result (story_of self.new ≡ failing (story_of self.old)) }
        ensures down { StaysDown self.old self.new result }
        ensures is_down { OnErr result (is_down self.old ≡ true) }
        ensures calls { SameCalls (story_of self.old) (story_of self.new) }
        ensures readable { IsReadable self.old → IsReadable self.new }
    {
        if self.is_down {
            return Err(self.fault());
        }
        Ok(())
    }

    /// Turns a failure of the system into a failed call, and counts that.
    fn counted(&mut self, outcome: io::Result<()>) -> Result<(), DiskFault>
        ensures ok { OnOk result (self.new ≡ self.old) }
        ensures err { OnErr result ((is_down self.new ≡ true) × (story_of self.new ≡ failing (story_of self.old))) }
        ensures calls { SameCalls (story_of self.old) (story_of self.new) }
        ensures readable { IsReadable self.old → IsReadable self.new }
    {
        match outcome {
            Ok(()) => Ok(()),
            Err(_) => Err(self.fault()),
        }
    }
}

impl Disk for FileDisk {
    ghost use Rattle.diskmodel.specs.Outcomes.{IsOutcome, IsOutcomeSince, counts_last, only_last};
    ghost use Rattle.disk_file.specs.Stories.{held, MayLeave};
    ghost use Rattle.disk_file.specs.Files.{story_of, content_of, CanStopAt, is_down, readable_in, IsReadable, StaysDown};

    ghost device = { record {
      content = λ disk. held disk.tape;
      outcome = λ disk. IsOutcome disk.tape.first disk.tape.calls;
      clock = λ disk. length disk.tape.calls;
      outcome_since = λ disk. IsOutcomeSince disk.tape.first disk.tape.calls;
      faults = λ disk. disk.tape.faults;
      calls = λ disk. disk.tape.calls;
    } };

    ghost content_is_outcome = { λ disk. disk.sound.possible };

    ghost counts_now = { λ disk t c. counts_last disk.tape.first disk.tape.calls t c };

    ghost only_now = { λ disk c. only_last disk.tape.first disk.tape.calls c };

    fn len(&mut self) -> Result<u64, DiskFault>
        ensures value { IfOk result (λ len. len ≡ length (content_of self.old)) }
        ensures content { content_of self.new ≡ content_of self.old }
        ensures outcomes { NoneNew (CanStopAt self.old) (CanStopAt self.new) }
        ensures time { TimePasses (story_of self.old) (story_of self.new) }
        ensures cause { HasCause (story_of self.old).faults (story_of self.new).faults result }
        ensures calls { (story_of self.new).calls ≡ (story_of self.old).calls }

        // Asking for the length fails only after an earlier failure.
        ensures down { StaysDown self.old self.new result }
        ensures succeeds { is_down self.old ≡ false → result ≡ Ok (length (content_of self.old)) }
        ensures unchanged { OnOk result (self.new ≡ self.old) }
    {
        self.fail_if_down()?;
        Ok(self.len)
    }

    fn read_at(&mut self, at: u64, buffer: &mut [u8]) -> Result<(), DiskFault>
        requires { at + length buffer.old ≤ length (content_of self.old) }
        ensures bytes { OnOk result (buffer.new ≡ take (length buffer.old) (drop at (content_of self.old))) }
        ensures content { content_of self.new ≡ content_of self.old }
        ensures outcomes { NoneNew (CanStopAt self.old) (CanStopAt self.new) }
        ensures time { TimePasses (story_of self.old) (story_of self.new) }
        ensures cause { HasCause (story_of self.old).faults (story_of self.new).faults result }
        ensures calls { (story_of self.new).calls ≡ (story_of self.old).calls }

        // A read fails only after an earlier failure, after a write or the end of reading, or if not all of its bytes were kept.
        ensures down { StaysDown self.old self.new result }
        ensures succeeds { is_down self.old ≡ false → IsReadable self.old → IsOk result }
        ensures front { is_down self.old ≡ false → at + length buffer.old ≤ readable_in self.old → IsOk result }
        ensures unchanged { OnOk result (self.new ≡ self.old) }
    {
        self.fail_if_down()?;
        if buffer.is_empty() {
            return Ok(());
        }
        let at = at as usize;
        match &self.mirror {
            Some(bytes) if at + buffer.len() <= bytes.len() => {
                buffer.copy_from_slice(&bytes[at..at + buffer.len()]);
                Ok(())
            }
            _ => Err(self.fault()),
        }
    }

    fn write_at(&mut self, at: u64, bytes: &[u8]) -> Result<(), DiskFault>
        requires { at ≤ length (content_of self.old) }
        ensures content { OnOk result (content_of self.new ≡ written (content_of self.old) at bytes.now) }
        ensures outcomes { ComesBy (IsTorn at (length bytes.now)) (CanStopAt self.old) (CanStopAt self.new) }
        ensures time { TimePasses (story_of self.old) (story_of self.new) }
        ensures cause { HasCause (story_of self.old).faults (story_of self.new).faults result }
        ensures calls { Makes (Wrote at bytes.now) result (story_of self.old).calls (story_of self.new).calls }
        ensures recorded { OnOk result (Adds (Wrote at bytes.now) (story_of self.old) (story_of self.new)) }

        // A write that fails may have had any part of its effect.
        ensures noted { is_down self.old ≡ false → at + length bytes.now < 2 ^ 64 → (story_of self.new).calls ≡ (story_of self.old).calls ++ Wrote at bytes.now ∷ [] }
        ensures down { StaysDown self.old self.new result }
    {
        self.fail_if_down()?;
        let Some(end) = at.checked_add(bytes.len() as u64) else {
            return Err(self.fault());
        };
        // A write that fails may have had any part of its effect, so it is recorded too.
        self.mirror = None;
        self.len = self.len.max(end);
        self.tape.wrote(at, bytes);
        let outcome = self.file.write_all_at(bytes, at);
        self.counted(outcome)
    }

    fn cut(&mut self, len: u64) -> Result<(), DiskFault>
        requires { len ≤ length (content_of self.old) }
        ensures content { OnOk result (content_of self.new ≡ take len (content_of self.old)) }
        ensures outcomes { ComesBy (IsCut len) (CanStopAt self.old) (CanStopAt self.new) }
        ensures time { TimePasses (story_of self.old) (story_of self.new) }
        ensures cause { HasCause (story_of self.old).faults (story_of self.new).faults result }
        ensures calls { Makes (Cut len) result (story_of self.old).calls (story_of self.new).calls }
        ensures recorded { OnOk result (Adds (Cut len) (story_of self.old) (story_of self.new)) }
        ensures noted { is_down self.old ≡ false → (story_of self.new).calls ≡ (story_of self.old).calls ++ Cut len ∷ [] }
        ensures down { StaysDown self.old self.new result }
        ensures readable { IsReadable self.old → IsReadable self.new }
    {
        self.fail_if_down()?;
        cut_kept(&mut self.mirror, len);
        self.len = len;
        self.tape.cut(len);
        let outcome = self.file.set_len(len);
        self.counted(outcome)
    }

    fn sync(&mut self) -> Result<(), DiskFault>
        ensures durable { OnOk result (LeavesOnly (content_of self.old) (CanStopAt self.new)) }
        ensures content { content_of self.new ≡ content_of self.old }
        ensures outcomes { NoneNew (CanStopAt self.old) (CanStopAt self.new) }
        ensures time { TimePasses (story_of self.old) (story_of self.new) }
        ensures cause { HasCause (story_of self.old).faults (story_of self.new).faults result }
        ensures calls { Makes Synced result (story_of self.old).calls (story_of self.new).calls }
        ensures recorded { OnOk result (Adds Synced (story_of self.old) (story_of self.new)) }

        // A sync that fails is not recorded: it makes nothing durable.
        ensures err { OnErr result (SameCalls (story_of self.old) (story_of self.new)) }
        ensures down { StaysDown self.old self.new result }
        ensures readable { IsReadable self.old → IsReadable self.new }
    {
        self.fail_if_down()?;
        let outcome = self.file.sync_data();
        self.counted(outcome)?;
        self.tape.synced();
        Ok(())
    }

    fn end_reading(&mut self)
        ensures story { story_of self.new ≡ story_of self.old }
        ensures down { is_down self.new ≡ is_down self.old }
    {
        self.mirror = None;
    }
}

// Drops from this length on the bytes that are kept in memory.
fn cut_kept(kept: &mut Option<Vec<u8>>, len: u64)
    ensures { option_map (λ bytes. bytes.items) kept.new ≡ option_map (take len) (option_map (λ bytes. bytes.items) kept.old) }
{
    if let Some(bytes) = kept {
        bytes.truncate(len as usize);
    }
}
