//! The tests of failed allocations. Each call that allocates is made again if an allocation failed. The failed call may have changed
//! nothing, and the second one has to give the result that the first would have given. If the test itself can't allocate, it ends.

use crate::disks::{Areas, Disks};
use crate::openings::{reopened, reopened_store};
use crate::rewritings::{Checkpoint, Fault, Made, begun, rewritten};
use diskmodel::MemDisk;
use journal::Store;
use std::alloc::{AllocError, Global};

/// The capacity of the text for the answer of an opening, in bytes: enough that writing the answer allocates nothing.
const TOLD_BYTES: usize = 8_192;

/// The first bytes of the record of a configuration of four members, up to the members' keys.
const SETTINGS: [u8; 14] = [0, 2, 0, 0, 0, 50, 0, 1, 0, 16, 0, 0, 0, 4];

/// Whether each call gives the right result, also if an allocation failed at its first try.
pub fn is_steady(alloc: Global) -> Result<bool, AllocError> {
    let records = sample(alloc)?;
    let areas = begun_areas(alloc, &records)?;
    let left = rewritten_areas(alloc, &areas, &records, Made::Whole)?;
    let right = rewritten_areas(alloc, &areas, &records, Made::Draft)?;
    let is_opened = opens(alloc, &left)? && opens(alloc, &after_gate(alloc, &left)?)?;
    Ok(is_opened && opens_one(alloc, &left)? && left.are(&right) && drafts_all(alloc, &areas)?)
}

/// The records that the tests write: a configuration of four members, and records of several lengths.
fn sample(alloc: Global) -> Result<Vec<Vec<u8>>, AllocError> {
    let mut configuration = SETTINGS.to_vec(alloc)?;
    for member in 1..=4u8 {
        configuration.extend_from_slice(&[member; 32])?;
    }
    for _ in 1..=4 {
        configuration.extend_from_slice(&[0, 0, 0, 1])?;
    }
    let mut records = vec![in alloc; configuration]?;
    for length in [0, 1, 40, 300, 900] {
        records.push(vec![in alloc; 7; length]?)?;
    }
    Ok(records)
}

/// The areas of a new journal whose only record is its configuration.
fn begun_areas(alloc: Global, records: &[Vec<u8>]) -> Result<Areas, AllocError> {
    let mut text = String::with_capacity(alloc, TOLD_BYTES)?;
    let configuration = match records.first() {
        Some(configuration) => configuration.to_vec(alloc)?,
        None => Vec::new(alloc),
    };
    let disks = Disks::of(alloc, &Areas::none(alloc))?;
    let areas = Areas::on(alloc, &begun(alloc, disks, configuration, &mut text)?)?;
    if text.as_str().starts_with("a group of 1") {
        Ok(areas)
    } else {
        Err(AllocError)
    }
}

/// Whether a checkpoint of two records has the same bytes, made at once or record by record. The buffer is made so small that it has to
/// grow within each part of the second record in turn, so that each of these growths can fail.
fn drafts_all(alloc: Global, areas: &Areas) -> Result<bool, AllocError> {
    let mut is_right = true;
    for length in 160..=190 {
        is_right = drafts_well(alloc, areas, length)? && is_right;
    }
    Ok(is_right)
}

fn drafts_well(alloc: Global, areas: &Areas, length: usize) -> Result<bool, AllocError> {
    let mut records = sample(alloc)?;
    records.truncate(2);
    records.push(vec![in alloc; 9; length]?)?;
    let whole = rewritten_areas(alloc, areas, &records, Made::Whole)?;
    let draft = rewritten_areas(alloc, areas, &records, Made::Draft)?;
    Ok(whole.are(&draft))
}

/// The areas after the journal was rewritten to a checkpoint. None if an allocation of a disk failed.
fn rewritten_areas(
    alloc: Global,
    areas: &Areas,
    records: &[Vec<u8>],
    made: Made,
) -> Result<Areas, AllocError> {
    let mut text = String::with_capacity(alloc, TOLD_BYTES)?;
    let checkpoint = Checkpoint { records, made };
    let disks = Disks::of(alloc, areas)?;
    let disks = rewritten(alloc, disks, checkpoint, Fault::none(), &mut text)?;
    if text.as_str().starts_with("a checkpoint of ") {
        Areas::on(alloc, &disks)
    } else {
        Err(AllocError)
    }
}

/// Adds bytes after the closed gate of the first area, as a torn append leaves them: an opening has to cut them off.
fn after_gate(alloc: Global, areas: &Areas) -> Result<Areas, AllocError> {
    Ok(Areas {
        first: vec![in alloc; 0, 9, 9]?,
        second: areas.second.to_vec(alloc)?,
    })
}

/// Whether the journal opens on both areas, by each of the two functions for that, also if an allocation failed at the first try.
fn opens(alloc: Global, areas: &Areas) -> Result<bool, AllocError> {
    let mut by_pair = String::with_capacity(alloc, TOLD_BYTES)?;
    let mut by_store = String::with_capacity(alloc, TOLD_BYTES)?;
    let is_left = opens_pair(alloc, areas, &mut by_pair)?
        && opens_store(alloc, areas, &mut by_store)?;
    let is_opened = by_pair.as_str().starts_with("opened 1, records 7, ");
    let is_same = by_store.as_str().strip_suffix(", two") == Some(by_pair.as_str());
    Ok(is_left && is_opened && is_same)
}

/// Opens the journal on both areas, and again if that fails. Returns whether a failed allocation left the disks as they were.
fn opens_pair(alloc: Global, areas: &Areas, text: &mut String) -> Result<bool, AllocError> {
    let disks = reopened(alloc, Disks::of(alloc, areas)?, text);
    if text.as_str().starts_with("opened") {
        return Ok(true);
    }
    let is_left = has_left(areas, &disks.first, &disks.second, text.as_str());
    text.clear();
    let _ = reopened(alloc, disks, text);
    Ok(is_left)
}

fn opens_store(alloc: Global, areas: &Areas, text: &mut String) -> Result<bool, AllocError> {
    let disks = Disks::of(alloc, areas)?;
    let store = reopened_store(alloc, Store::Two(disks.first, disks.second), text);
    if text.as_str().starts_with("opened") {
        return Ok(true);
    }
    let is_left = match &store {
        Store::One(_) => false,
        Store::Two(first, second) => has_left(areas, first, second, text.as_str()),
    };
    text.clear();
    let _ = reopened_store(alloc, store, text);
    Ok(is_left)
}

/// Whether the journal opens on its second area alone, also if an allocation failed at the first try.
fn opens_one(alloc: Global, areas: &Areas) -> Result<bool, AllocError> {
    let mut text = String::with_capacity(alloc, TOLD_BYTES)?;
    let disks = Disks::of(alloc, areas)?;
    let store = reopened_store(alloc, Store::One(disks.second), &mut text);
    let is_left = match &store {
        _ if text.as_str().starts_with("opened") => true,
        Store::One(disk) => has_left(areas, &disks.first, disk, text.as_str()),
        Store::Two(_, _) => false,
    };
    if !text.as_str().starts_with("opened") {
        text.clear();
        let _ = reopened_store(alloc, store, &mut text);
    }
    Ok(is_left && text.as_str().starts_with("opened 0, records 7, "))
}

/// Whether an allocation failed and both disks have their former bytes. If the allocation was one of a disk itself, the call counts as a
/// failed device call instead, and the disks may have changed.
fn has_left(areas: &Areas, first: &MemDisk, second: &MemDisk, answer: &str) -> bool {
    let is_same = first.bytes() == areas.first.as_slice()
        && second.bytes() == areas.second.as_slice();
    answer == "2 Device" || (answer == "1 Memory" && is_same)
}
