//! A checkpoint whose records are complete, and which is ready to be written.

ghost use Rattle.std.specs.Prelude.{◌≡◌, ◌+◌, ◌≤◌, ◌++◌, ◌∷◌, ℕ, vec_len, take, drop, length, IfOk, IfErr, OnOk, OnErr, IsTrue, ◌↔◌};
ghost use Rattle.std.specs.Int.{w64, to_be_bytes};
ghost use Rattle.diskmodel.specs.Outcomes.{AreBytes};
ghost use Rattle.diskmodel.specs.Disk.{LeavesOnly, AtEachMoment, ReportsFault};
ghost use Rattle.journal.specs.Areas.{IsAtRest, IsOlderOrNew, rewrite_calls};
ghost use Rattle.journal.specs.Journal.{MadeSome};
ghost use Rattle.std.specs.List.{All};
ghost use Rattle.std.specs.Option.{SomeIff};
ghost use Rattle.journal.specs.Format.{contents};
ghost use Rattle.journal.specs.Snapshot.{bytes_for, CanPack, BeginsShaped, FitsAlone};
ghost use Rattle.journal.specs.declared.layout.TheConstants.{OPEN};

use crate::configuration::HEAD_BYTES;
use crate::draft::SnapshotDraft;
use crate::error::JournalError;
use crate::layout::{LENGTH_BYTES, MAX_GROUP_BYTES};
use crate::rewriting::rewrite_area;
use diskmodel::Disk;
use std::alloc::{AllocError, Global};
use std::marker::Model;

/// The records of a checkpoint: a configuration, and those of the state. Contracts see them without the head, the record of the generation
/// that stands between them: the journal chooses the generation. A snapshot has no `Drop`, so that it is used exactly once.
pub struct Snapshot {
    // The bytes of the checkpoint's groups, without the first gate.
    bytes: Vec<u8>,
    // The place of the generation in `bytes`.
    place: usize,
    count: u64,
}

impl Model for Snapshot {
    ghost use Rattle.std.specs.Prelude.{List, ℕ};
    ghost use Rattle.journal.specs.Snapshot.{records_in, IsSnapshot};

    ghost Value = { List (List ℕ) };

    ghost view = { λ snapshot. records_in snapshot.bytes.items };

    ghost invariant = { λ snapshot. IsSnapshot snapshot.bytes.items snapshot.place snapshot.count };
}

impl Snapshot {
    ghost use Rattle.journal.specs.Snapshot.{records_in, IsSnapshot};

    /// A checkpoint of these records, the first of which is a configuration; None if there is no record, or one doesn't fit a group.
    pub fn new(alloc: Global, records: &[Vec<u8>]) -> Result<Option<Snapshot>, AllocError>
        requires { BeginsShaped (contents records.now) }
        ensures { IfOk result (λ snapshot. SomeIff snapshot (CanPack (contents records.now)) (contents records.now)) }
    {
        if !can_pack(records) {
            return Ok(None);
        }
        let mut draft = SnapshotDraft::new(alloc, records[0].as_slice())?;
        push_all(&mut draft, &records[1..])?;
        Ok(Some(draft.close()))
    }

    // The checkpoint that has these bytes, with its generation at this place, and `count` records without the head.
    pub(crate) fn of_bytes(bytes: Vec<u8>, place: usize, count: u64) -> Snapshot
        requires { IsSnapshot bytes.items place count }
        ensures { result ≡ records_in bytes.items }
    {
        Snapshot {
            bytes,
            place,
            count,
        }
    }

    /// How many records the checkpoint has, not counting the head.
    pub fn records_count(&self) -> u64
        ensures { result ≡ length self.now }
    {
        self.count
    }

    /// A law of every snapshot: each record fits a group, and each byte of the groups is below 256, whatever the generation. The call does
    /// nothing.
    pub fn limits_hold(&self)
        ensures packs { CanPack self.now }
        ensures are_bytes { (generation : ℕ) → AreBytes (bytes_for generation self.now) }
    {
        are_bytes(&self.bytes);
    }

    // How many bytes the checkpoint takes on the disk, without its first gate.
    pub(crate) fn written_len(&self) -> u64
        ensures value { (generation : ℕ) → result ≡ length (bytes_for generation self.now) }
        ensures packs { CanPack self.now }
        ensures shaped { BeginsShaped self.now }
    {
        self.bytes.len() as u64
    }

    // Rewrites an area to this checkpoint, and gives it this generation.
    pub(crate) fn write<D: Disk>(
        &mut self,
        generation: u64,
        disk: &mut D,
    ) -> Result<(), JournalError>
        requires { LeavesOnly (D.device.content disk.old) (D.device.outcome disk.old) }
        ensures same { self.new ≡ self.old }
        ensures content { OnOk result (D.device.content disk.new ≡ OPEN ∷ bytes_for generation self.old) }
        ensures durable { OnOk result (LeavesOnly (D.device.content disk.new) (D.device.outcome disk.new)) }
        ensures any_moment { (above : ℕ) → IsAtRest above (D.device.content disk.old) → AtEachMoment D.device disk.old disk.new (IsOlderOrNew above (bytes_for generation self.old)) }
        ensures errors { IfErr result (λ error. error ≡ JournalError.Device) }
        ensures cause { ReportsFault JournalError.Device (D.device.faults disk.old) (D.device.faults disk.new) result }
        ensures calls { OnOk result (D.device.calls disk.new ≡ D.device.calls disk.old ++ rewrite_calls (bytes_for generation self.old)) }
        ensures calls_err { OnErr result (MadeSome (rewrite_calls (bytes_for generation self.old)) (D.device.calls disk.old) (D.device.calls disk.new)) }
    {
        put_eight(&mut self.bytes, self.place, generation);
        rewrite_area(disk, &self.bytes)
    }

    // Uses up a snapshot that isn't written.
    pub(crate) fn discard(self) {
        let Snapshot {
            bytes: _,
            place: _,
            count: _,
        } = self;
    }
}

// A law: the value of each of these bytes is below 256. The call does nothing.
fn are_bytes(bytes: &[u8])
    ensures { AreBytes bytes.now }
{
    let _ = bytes;
}

// Whether these records can be a checkpoint: the first one fits a group together with a head, and each other one fits a group.
fn can_pack(records: &[Vec<u8>]) -> bool
    ensures { IsTrue result ↔ CanPack (contents records.now) }
{
    if records.is_empty() || records[0].len() > MAX_GROUP_BYTES - 2 * LENGTH_BYTES - HEAD_BYTES {
        return false;
    }
    fit_alone(&records[1..])
}

// Whether each of the records fits a group.
fn fit_alone(records: &[Vec<u8>]) -> bool
    ensures { IsTrue result ↔ All FitsAlone (contents records.now) }
{
    for record in records {
        if record.len() > MAX_GROUP_BYTES - LENGTH_BYTES {
            return false;
        }
    }
    true
}

// Adds all of these records to the draft of a checkpoint.
fn push_all(draft: &mut SnapshotDraft, records: &[Vec<u8>]) -> Result<(), AllocError>
    requires { All FitsAlone (contents records.now) }
    ensures { OnOk result (draft.new ≡ draft.old ++ contents records.now) }
{
    for record in records {
        draft.push(&[record.as_slice()])?;
    }
    Ok(())
}

// Overwrites the eight bytes at this place with a number.
fn put_eight(bytes: &mut Vec<u8>, at: usize, number: u64)
    requires { at + 8 ≤ vec_len bytes.old }
    ensures { bytes.new.items ≡ take at bytes.old.items ++ (to_be_bytes w64 number ++ drop (at + 8) bytes.old.items) }
{
    bytes[at..at + 8].copy_from_slice(&number.to_be_bytes());
}
