//! Writes a validator's checkpoint into the second area of a journal in memory, and shows the bytes of that area.

ghost use Rattle.std.specs.Prelude.{◌≡◌, ◌≤◌, true, length, IsSome, Some, IfOk, IfSome};
ghost use Rattle.journal.specs.Areas.{generation_of};
ghost use Rattle.journal.specs.Journal.{disk_of, spare_of, IsAlive};

use crate::loading::kept_records;
use diskmodel::{Disk, MemDisk};
use journal::{Group, Journal, Snapshot, shaped_version};
use sigface::HashSign;
use std::alloc::{AllocError, Global};
use test_cases::{Reported, write_hex};
use validator::Validator;

/// Adds the bytes of an area that holds a validator's checkpoint. It is the second area of a journal in memory; the first area has one
/// record, the node's configuration.
///
/// # Errors
/// An allocation failed, or the journal couldn't be written.
pub fn report_area(
    alloc: Global,
    validator: &Validator<'_, HashSign>,
    answer: &mut String,
) -> Reported {
    let first = MemDisk::new(alloc, Vec::new(alloc))?;
    let second = MemDisk::new(alloc, Vec::new(alloc))?;
    let Ok((mut journal, _)) = Journal::open_pair(alloc, first, second) else {
        return Err(AllocError);
    };
    write(alloc, &mut journal, validator)?;
    let (_, second) = journal.into_disks();
    write!(answer, "area {} : ", second.bytes().len())?;
    write_hex(answer, second.bytes())?;
    answer.push_str("\n")
}

/// Writes the configuration to the first area, and the checkpoint to the second.
fn write(
    alloc: Global,
    journal: &mut Journal<MemDisk>,
    validator: &Validator<'_, HashSign>,
) -> Reported
    requires alive { IsAlive ⟦<MemDisk as Disk>⟧.device journal.old }
    requires pair { IsSome (spare_of journal.old) }
    ensures pair { IsSome (spare_of journal.new) }
{
    let Some(configuration) = kept_records(validator)?.into_iter().next() else {
        return Err(AllocError);
    };
    match add_first(alloc, journal, configuration)? {
        true => rewrite(journal, validator),
        false => Err(AllocError),
    }
}

/// Appends a group that has a configuration as its only record. Returns whether no device call failed.
fn add_first(
    alloc: Global,
    journal: &mut Journal<MemDisk>,
    configuration: Vec<u8>,
) -> Result<bool, AllocError>
    requires alive { IsAlive ⟦<MemDisk as Disk>⟧.device journal.old }
    requires pair { IsSome (spare_of journal.old) }
    ensures alive { IfOk result (λ goes_on. goes_on ≡ true → IsAlive ⟦<MemDisk as Disk>⟧.device journal.new) }
    ensures pair { IsSome (spare_of journal.new) }
{
    let Some(group) = first_group(alloc, configuration)? else {
        return Ok(false);
    };
    match journal.append(group) {
        Ok(synced) => Ok(synced.records() == 1),
        Err(_) => Ok(false),
    }
}

/// The group whose only record is these bytes. None if they are not the bytes of a configuration.
#[tactic(auto, using(crate::proofs::Begun::alone))]
fn first_group(alloc: Global, configuration: Vec<u8>) -> Result<Option<Group>, AllocError>
    ensures { IfOk result (λ found. IfSome found (λ group. generation_of group ≡ Some 0)) }
{
    if shaped_version(&configuration).is_none() {
        return Ok(None);
    }
    let records = vec![in alloc; configuration]?;
    let Some(group) = Group::new(alloc, records)? else {
        return Ok(None);
    };
    Ok(Some(group))
}

/// Rewrites the journal: writes the validator's checkpoint to the spare area, the one that is not read, with the next generation.
fn rewrite(journal: &mut Journal<MemDisk>, validator: &Validator<'_, HashSign>) -> Reported
    requires alive { IsAlive ⟦<MemDisk as Disk>⟧.device journal.old }
    requires pair { IsSome (spare_of journal.old) }
    ensures pair { IsSome (spare_of journal.new) }
{
    if journal.len() < 2 {
        return Err(AllocError);
    }
    rewrite_to(journal, snapshot(validator)?)
}

/// A checkpoint of the validator's state. If an allocation fails it is made once more.
fn snapshot(validator: &Validator<'_, HashSign>) -> Result<Snapshot, AllocError> {
    match validator.snapshot() {
        Ok(snapshot) => Ok(snapshot),
        Err(AllocError) => validator.snapshot(),
    }
}

#[tactic(auto, using(crate::proofs::Begun::begun))]
fn rewrite_to(journal: &mut Journal<MemDisk>, snapshot: Snapshot) -> Reported
    requires alive { IsAlive ⟦<MemDisk as Disk>⟧.device journal.old }
    requires pair { IsSome (spare_of journal.old) }
    requires begun { 2 ≤ length (⟦<MemDisk as Disk>⟧.device.content (disk_of journal.old)) }
    ensures pair { IsSome (spare_of journal.new) }
{
    match journal.rewrite(snapshot) {
        Ok(synced) => {
            let _ = synced.records();
            Ok(())
        }
        Err(_) => Err(AllocError),
    }
}
