//! What the bytes of a journal are read as.

ghost use Rattle.std.specs.Prelude.{◌≡◌, ◌+◌, ◌≤◌, ◌<◌, length, map, Ok, IfOk, IfErr};
ghost use Rattle.std.specs.Option.{option_map, option_copied};
ghost use Rattle.journal.specs.Format.{stands, scan, walk, records_of, group_of, body_at, length_field, kept, FailsAs, ScansTo, split_record};
ghost use Rattle.journal.specs.Areas.{stands_at, first_generation, generation_of, reports};
ghost use Rattle.journal.specs.declared.layout.TheConstants.{SECOND_AREA};

use crate::configuration::{head_in, shaped_version};
use crate::error::JournalError;
use crate::layout::{CLOSED, LENGTH_BYTES, MAX_GROUP_BYTES, MAX_GROUP_RECORDS};
use crate::reader::Reader;
use crate::record::{Record, RecordRef};
use crate::side::Side;
use std::alloc::{AllocError, Global};

/// The records that the bytes of a journal are read as: those of the groups after open gates, from the front on. `Damaged` names the place
/// of an open gate after which there is no whole group.
#[tactic(auto, unfolding(crate::specs::Format::stands))]
pub fn stands(alloc: Global, bytes: &[u8]) -> Result<Vec<Record>, JournalError>
    ensures ok { IfOk result (λ records. stands bytes.now ≡ Ok records.items) }
    ensures err { IfErr result (λ error. FailsAs error (stands bytes.now)) }
{
    let (records, _) = scan(alloc, bytes)?;
    Ok(records)
}

// The records that bytes are read as, and the place of the closed gate at which reading ends.
#[tactic(auto, unfolding(crate::specs::Format::scan))]
pub(crate) fn scan(alloc: Global, bytes: &[u8]) -> Result<(Vec<Record>, u64), JournalError>
    ensures ok { IfOk result (λ found. scan bytes.now ≡ Ok (found.0.items, found.1)) }
    ensures err { IfErr result (λ error. FailsAs error (scan bytes.now)) }
{
    if bytes.len() < 2 {
        return Ok((Vec::new(alloc), 0));
    }
    walk(alloc, bytes)
}

// The records of bytes that start with a gate, and the place of the closed gate at which reading ends.
fn walk(alloc: Global, bytes: &[u8]) -> Result<(Vec<Record>, u64), JournalError>
    requires { 0 < length bytes.now }
    ensures ok { IfOk result (λ found. walk 0 0 bytes.now ≡ Ok (found.0.items, found.1)) }
    ensures err { IfErr result (λ error. FailsAs error (walk 0 0 bytes.now)) }
{
    walk_from(alloc, bytes, 0)
}

// Like `walk`, for bytes that stand at the place `base` of a file. The places of the records are places in the file; that of the closed
// gate is counted from `base`.
fn walk_from(alloc: Global, bytes: &[u8], base: u64) -> Result<(Vec<Record>, u64), JournalError>
    requires some { 0 < length bytes.now }
    requires base { base ≤ SECOND_AREA }
    ensures ok { IfOk result (λ found. walk base 0 bytes.now ≡ Ok (found.0.items, base + found.1)) }
    ensures err { IfErr result (λ error. FailsAs error (walk base 0 bytes.now)) }
{
    let mut records = Vec::new(alloc);
    let mut gate = 0;
    while bytes[gate] != CLOSED {
        let place = base + gate as u64;
        let Some(body) = body_at(&bytes[gate + 1..]) else {
            return Err(JournalError::Damaged(place));
        };
        let Some(group) = group_of(alloc, body, place)? else {
            return Err(JournalError::Damaged(place));
        };
        records.take(alloc, group)?;
        gate += 1 + LENGTH_BYTES + body.len();
    }
    Ok((records, gate as u64))
}

/// What the first group of a file says of its generation, given the first bytes of the file: `None` if the first gate is closed,
/// `Some(None)` if the group is damaged, and otherwise the generation.
///
/// # Errors
/// `AllocError`: out of memory.
#[tactic(auto, unfolding(crate::specs::Areas::reports))]
pub fn reports(alloc: Global, bytes: &[u8]) -> Result<Option<Option<u64>>, AllocError>
    ensures { IfOk result (λ reported. reported ≡ reports bytes.now) }
{
    if bytes.len() < 2 || bytes[0] == CLOSED {
        return Ok(None);
    }
    Ok(Some(first_generation(alloc, &bytes[1..])?))
}

// The generation that the first group of an area says, given the bytes after the area's first gate.
fn first_generation(alloc: Global, bytes: &[u8]) -> Result<Option<u64>, AllocError>
    ensures { IfOk result (λ generation. generation ≡ first_generation bytes.now) }
{
    let Some(body) = body_at(bytes) else {
        return Ok(None);
    };
    let Some(records) = group_of(alloc, body, 0)? else {
        return Ok(None);
    };
    Ok(generation_of(&records))
}

// The generation that the records of an area's first group say.
#[tactic(auto, unfolding(crate::specs::Areas::generation_of))]
fn generation_of(records: &[RecordRef<'_>]) -> Option<u64>
    ensures { result ≡ generation_of (map (λ one. one.bytes) records.now) }
{
    if records.is_empty() || records.len() > 2 {
        return None;
    }
    let first = &records[0];
    shaped_version(first.bytes)?;
    if records.len() == 1 {
        Some(0)
    } else {
        let second = &records[1];
        head_in(second.bytes)
    }
}

// The number in the length field with which the bytes start.
fn length_at(bytes: &[u8]) -> u32
    requires { LENGTH_BYTES ≤ length bytes.now }
    ensures { result ≡ length_field bytes.now }
{
    let (front, _) = bytes.split_at(LENGTH_BYTES);
    u32::from_be_bytes([front[0], front[1], front[2], front[3]])
}

// The body of the group after an open gate; None if the bytes don't have the whole body and the next gate.
#[tactic(auto, unfolding(crate::specs::Format::body_at))]
pub(crate) fn body_at(bytes: &[u8]) -> Option<&[u8]>
    ensures { option_copied result ≡ body_at bytes.now }
{
    if bytes.len() < LENGTH_BYTES {
        return None;
    }
    let len = length_at(bytes) as usize;
    if len == 0 || len > MAX_GROUP_BYTES || bytes.len() - LENGTH_BYTES <= len {
        return None;
    }
    Some(&bytes[LENGTH_BYTES..LENGTH_BYTES + len])
}

// The records of a group's body, with the place of its gate; None if the last record isn't whole or there are too many.
#[tactic(auto, unfolding(crate::specs::Format::group_of))]
pub(crate) fn group_of<'b>(
    alloc: Global,
    body: &'b [u8],
    gate: u64,
) -> Result<Option<Vec<RecordRef<'b>>>, AllocError>
    ensures { IfOk result (λ found. option_map (λ records. records.items) found ≡ option_map (kept gate) (group_of body.now)) }
{
    let Some(records) = records_of(alloc, body, gate)? else {
        return Ok(None);
    };
    if records.len() > MAX_GROUP_RECORDS {
        return Ok(None);
    }
    Ok(Some(records))
}

// The records of a group's body, with the place of its gate; None if the last record isn't whole.
fn records_of<'b>(
    alloc: Global,
    body: &'b [u8],
    gate: u64,
) -> Result<Option<Vec<RecordRef<'b>>>, AllocError>
    ensures { IfOk result (λ found. option_map (λ records. records.items) found ≡ option_map (kept gate) (records_of body.now)) }
{
    let mut records = Vec::new(alloc);
    let mut rest = body;
    while !rest.is_empty() {
        let Some((bytes, after)) = split_record(rest) else {
            return Ok(None);
        };
        records.push(RecordRef { bytes, gate })?;
        rest = after;
    }
    Ok(Some(records))
}

// The first record in the bytes, and the bytes after it; None if the record isn't whole.
#[tactic(auto, unfolding(crate::specs::Format::split_record))]
fn split_record(bytes: &[u8]) -> Option<(&[u8], &[u8])>
    ensures { option_map (λ parts. (parts.0.now, parts.1.now)) result ≡ split_record bytes.now }
{
    if bytes.len() < LENGTH_BYTES {
        return None;
    }
    let len = length_at(bytes) as usize;
    let (_, rest) = bytes.split_at(LENGTH_BYTES);
    if rest.len() < len {
        return None;
    }
    Some(rest.split_at(len))
}
