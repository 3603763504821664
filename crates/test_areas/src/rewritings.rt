//! Writes groups of records and checkpoints to a journal on two disks.

ghost use Rattle.std.specs.Prelude.{◌≡◌, ◌≤◌, length, IsSome, Some, IfOk, IfSome};
ghost use Rattle.journal.specs.Areas.{generation_of};
ghost use Rattle.journal.specs.Journal.{disk_of, spare_of, IsAlive};

use crate::disks::Disks;
use crate::words::{put, put_count, put_error};
use diskmodel::{CallKind, Disk, MemDisk};
use journal::{
    Group, Journal, JournalError, LENGTH_BYTES, MAX_GROUP_BYTES, Snapshot, SnapshotDraft, Synced,
    shaped_version,
};
use std::alloc::{AllocError, Global};

/// A device call that is to fail: its kind, and which of the next calls of this kind it is. 0 lets none fail.
#[derive(Clone, Copy)]
pub struct Fault {
    pub kind: CallKind,
    pub count: u64,
}

impl Fault {
    /// The choice that no device call of the rewriting fails.
    pub fn none() -> Fault {
        Fault {
            kind: CallKind::Sync,
            count: 0,
        }
    }
}

/// How a checkpoint is made.
#[derive(Clone, Copy)]
pub enum Made {
    /// The checkpoint is made of all its records at once.
    Whole,
    /// The checkpoint is made as a draft, to which its records are added one after the other, each in two parts.
    Draft,
}

/// Opens a journal that has no group yet, appends the group with its configuration, and adds the answer.
pub fn begun(
    alloc: Global,
    disks: Disks,
    configuration: Vec<u8>,
    text: &mut String,
) -> Result<Disks, AllocError> {
    let Disks {
        first,
        second,
        switch,
    } = disks;
    match Journal::open_pair(alloc, first, second) {
        Ok((mut journal, _)) => {
            begin(alloc, &mut journal, configuration, text)?;
            let (first, second) = journal.into_disks();
            Ok(Disks {
                first,
                second,
                switch,
            })
        }
        Err(failed) => {
            put_error(text, failed.error);
            Ok(Disks {
                first: failed.disk.0,
                second: failed.disk.1,
                switch,
            })
        }
    }
}

// Appends a group whose only record is the configuration.
fn begin(
    alloc: Global,
    journal: &mut Journal<MemDisk>,
    configuration: Vec<u8>,
    text: &mut String,
) -> Result<(), AllocError>
    requires alive { IsAlive ⟦<MemDisk as Disk>⟧.device journal.old }
    requires pair { IsSome (spare_of journal.old) }
    ensures pair { IsSome (spare_of journal.new) }
{
    match first_group(alloc, configuration)? {
        Some(group) => put_answer(text, "a group of ", journal.append(group)),
        None => put(text, "no configuration"),
    }
    Ok(())
}

// The group whose only record is these bytes. None if they are not the bytes of a configuration.
#[tactic(auto, using(crate::proofs::Begun::alone))]
fn first_group(alloc: Global, configuration: Vec<u8>) -> Result<Option<Group>, AllocError>
    ensures { IfOk result (λ found. IfSome found (λ group. generation_of group ≡ Some 0)) }
{
    if shaped_version(&configuration).is_none() {
        return Ok(None);
    }
    let records = vec![in alloc; configuration]?;
    let Some(group) = Group::new(alloc, records)? else {
        return Ok(None);
    };
    Ok(Some(group))
}

/// Opens a journal that has a group already, appends a group of these records, and adds the answer.
pub fn appended(
    alloc: Global,
    disks: Disks,
    records: Vec<Vec<u8>>,
    text: &mut String,
) -> Result<Disks, AllocError> {
    let Disks {
        first,
        second,
        switch,
    } = disks;
    match Journal::open_pair(alloc, first, second) {
        Ok((mut journal, _)) => {
            append(alloc, &mut journal, records, text)?;
            let (first, second) = journal.into_disks();
            Ok(Disks {
                first,
                second,
                switch,
            })
        }
        Err(failed) => {
            put_error(text, failed.error);
            Ok(Disks {
                first: failed.disk.0,
                second: failed.disk.1,
                switch,
            })
        }
    }
}

fn append(
    alloc: Global,
    journal: &mut Journal<MemDisk>,
    records: Vec<Vec<u8>>,
    text: &mut String,
) -> Result<(), AllocError>
    requires alive { IsAlive ⟦<MemDisk as Disk>⟧.device journal.old }
    requires pair { IsSome (spare_of journal.old) }
    ensures pair { IsSome (spare_of journal.new) }
{
    if journal.len() < 2 {
        put(text, "no first group");
        return Ok(());
    }
    match Group::new(alloc, records)? {
        Some(group) => append_group(journal, group, text),
        None => put(text, "no group"),
    }
    Ok(())
}

fn append_group(journal: &mut Journal<MemDisk>, group: Group, text: &mut String)
    requires alive { IsAlive ⟦<MemDisk as Disk>⟧.device journal.old }
    requires pair { IsSome (spare_of journal.old) }
    requires begun { 2 ≤ length (⟦<MemDisk as Disk>⟧.device.content (disk_of journal.old)) }
    ensures pair { IsSome (spare_of journal.new) }
{
    put_answer(text, "a group of ", journal.append(group));
}

// Adds how many records an append or a rewriting wrote, or the reason for which it wrote none.
fn put_answer(text: &mut String, what: &str, answer: Result<Synced, JournalError>) {
    match answer {
        Ok(synced) => put_count(text, what, synced.records(), ""),
        Err(error) => put_error(text, error),
    }
}

/// Opens the journal, and rewrites it to a checkpoint while a device call may fail. Adds the answer.
pub fn rewritten(
    alloc: Global,
    disks: Disks,
    checkpoint: Checkpoint,
    fault: Fault,
    text: &mut String,
) -> Result<Disks, AllocError> {
    let Disks {
        first,
        second,
        switch,
    } = disks;
    match Journal::open_pair(alloc, first, second) {
        Ok((mut journal, _)) => {
            let _ = switch.fail(fault.kind, fault.count);
            rewrite(alloc, &mut journal, checkpoint, text)?;
            let (first, second) = journal.into_disks();
            Ok(Disks {
                first,
                second,
                switch,
            })
        }
        Err(failed) => {
            put_error(text, failed.error);
            Ok(Disks {
                first: failed.disk.0,
                second: failed.disk.1,
                switch,
            })
        }
    }
}

fn rewrite(
    alloc: Global,
    journal: &mut Journal<MemDisk>,
    checkpoint: Checkpoint,
    text: &mut String,
) -> Result<(), AllocError>
    requires alive { IsAlive ⟦<MemDisk as Disk>⟧.device journal.old }
    requires pair { IsSome (spare_of journal.old) }
    ensures pair { IsSome (spare_of journal.new) }
{
    if journal.len() < 2 {
        put(text, "no first group");
        return Ok(());
    }
    match checkpoint.made(alloc)? {
        Some(snapshot) => rewrite_to(journal, snapshot, text),
        None => put(text, "no checkpoint"),
    }
    Ok(())
}

#[tactic(auto, using(crate::proofs::Begun::begun))]
fn rewrite_to(journal: &mut Journal<MemDisk>, snapshot: Snapshot, text: &mut String)
    requires alive { IsAlive ⟦<MemDisk as Disk>⟧.device journal.old }
    requires pair { IsSome (spare_of journal.old) }
    requires begun { 2 ≤ length (⟦<MemDisk as Disk>⟧.device.content (disk_of journal.old)) }
    ensures pair { IsSome (spare_of journal.new) }
{
    match journal.rewrite(snapshot) {
        Ok(synced) => {
            put_count(text, "a checkpoint of ", synced.records(), "");
            put_count(text, ", generation ", journal.generation(), "");
            put_count(text, ", bytes ", journal.len(), "");
        }
        Err(error) => put_error(text, error),
    }
}

/// The records that a checkpoint is made of, a configuration first, and whether they are given at once or one after the other.
#[derive(Clone, Copy)]
pub struct Checkpoint<'a> {
    pub records: &'a [Vec<u8>],
    pub made: Made,
}

impl Checkpoint<'_> {
    /// Makes the checkpoint. None if these records can't be one.
    pub fn made(&self, alloc: Global) -> Result<Option<Snapshot>, AllocError> {
        match self.made {
            Made::Whole => whole(alloc, self.records),
            Made::Draft => drafted(alloc, self.records),
        }
    }
}

fn whole(alloc: Global, records: &[Vec<u8>]) -> Result<Option<Snapshot>, AllocError> {
    if !records.is_empty() && shaped_version(&records[0]).is_none() {
        return Ok(None);
    }
    match Snapshot::new(alloc, records) {
        Ok(snapshot) => Ok(snapshot),
        // After a failed allocation the next try succeeds.
        Err(_) => Snapshot::new(alloc, records),
    }
}

/// The longest configuration for which a checkpoint is made record by record, in bytes.
const MAX_CONFIGURATION_BYTES: usize = 65_536;

fn drafted(alloc: Global, records: &[Vec<u8>]) -> Result<Option<Snapshot>, AllocError> {
    let Some((configuration, state)) = records.split_first() else {
        return Ok(None);
    };
    if state
        .iter()
        .any(|record| record.len() > MAX_GROUP_BYTES - LENGTH_BYTES)
    {
        return Ok(None);
    }
    let Some(mut draft) = draft_of(alloc, configuration)? else {
        return Ok(None);
    };
    push_all(&mut draft, state)?;
    Ok(Some(draft.close()))
}

/// The draft of a checkpoint that holds a configuration so far. None if these bytes are no configuration.
pub fn draft_of(alloc: Global, configuration: &[u8]) -> Result<Option<SnapshotDraft>, AllocError> {
    if configuration.len() > MAX_CONFIGURATION_BYTES || shaped_version(configuration).is_none() {
        return Ok(None);
    }
    match SnapshotDraft::new(alloc, configuration) {
        Ok(draft) => Ok(Some(draft)),
        // After a failed allocation the next try succeeds.
        Err(_) => Ok(Some(SnapshotDraft::new(alloc, configuration)?)),
    }
}

fn push_all(draft: &mut SnapshotDraft, records: &[Vec<u8>]) -> Result<(), AllocError> {
    for record in records {
        push(draft, record)?;
    }
    Ok(())
}

/// Adds a record to a draft in two parts. A record that is too long for a group is left out.
pub fn push(draft: &mut SnapshotDraft, record: &[u8]) -> Result<(), AllocError> {
    if record.len() > MAX_GROUP_BYTES - LENGTH_BYTES {
        return Ok(());
    }
    let (left, right) = record.split_at(record.len() / 2);
    match draft.push(&[left, right]) {
        Ok(()) => Ok(()),
        // The failed call has left the draft as it was, so that the record is added only once.
        Err(_) => draft.push(&[left, right]),
    }
}
