//! A checkpoint that is built record by record.

ghost use Rattle.std.specs.Prelude.{◌≡◌, ◌+◌, IsSome, ◌-◌, ◌<◌, ◌≤◌, ◌^◌, ◌++◌, ◌∷◌, [], ◌&&◌, nat_lt, nat_le, vec_len, length, take, drop, IfOk, OnOk, OnErr};
ghost use Rattle.std.specs.Int.{w32, to_be_bytes};
ghost use Rattle.journal.specs.Configuration.{shaped_version};
ghost use Rattle.journal.specs.Drafts.{IsDraft, whole};
ghost use Rattle.journal.specs.Format.{record_bytes, file_with};
ghost use Rattle.journal.specs.Snapshot.{CanPack, FitsAlone, bytes_for, records_in};
ghost use Rattle.journal.specs.declared.layout.TheConstants.{CLOSED};

use crate::configuration::{HEAD, HEAD_BYTES};
use crate::layout::{CLOSED, LENGTH_BYTES, MAX_GROUP_BYTES, MAX_GROUP_RECORDS, OPEN};
use crate::snapshot::Snapshot;
use std::alloc::{AllocError, Global};
use std::marker::Model;

/// A checkpoint that is built record by record. Contracts see the records that it has so far: the configuration, and those of the state.
#[derive(Drop)]
pub struct SnapshotDraft {
    // The bytes of a checkpoint with the records so far, without the first gate.
    bytes: Vec<u8>,
    // The place of the generation in `bytes`.
    place: usize,
    count: u64,
    last: LastGroup,
}

impl Model for SnapshotDraft {
    ghost use Rattle.std.specs.Prelude.{List, ℕ};
    ghost use Rattle.journal.specs.Snapshot.{records_in};
    ghost use Rattle.journal.specs.Drafts.{IsDraftOf};

    ghost Value = { List (List ℕ) };

    ghost view = { λ draft. records_in draft.bytes.items };

    ghost invariant = { λ draft. IsDraftOf draft.bytes.items draft.place draft.count draft.last.start draft.last.records };
}

impl SnapshotDraft {
    /// A draft that has this configuration and no other record yet.
    pub fn new(alloc: Global, configuration: &[u8]) -> Result<SnapshotDraft, AllocError>
        requires shaped { IsSome (shaped_version configuration.now) }
        requires fits { CanPack (configuration.now ∷ []) }
        ensures { IfOk result (λ draft. draft ≡ configuration.now ∷ []) }
    {
        let bytes = first_group(alloc, configuration)?;
        Ok(SnapshotDraft {
            bytes,
            place: 3 * LENGTH_BYTES + 1 + configuration.len(),
            count: 1,
            // No record of the state may join the first group, so the draft notes that this group is full.
            last: LastGroup {
                start: 0,
                records: MAX_GROUP_RECORDS,
            },
        })
    }

    /// Adds a record whose bytes are given in parts. If an allocation fails, the draft is as before.
    pub fn push(&mut self, parts: &[&[u8]]) -> Result<(), AllocError>
        requires { FitsAlone (whole parts.now) }
        ensures added { OnOk result (self.new ≡ self.old ++ whole parts.now ∷ []) }
        ensures unchanged { OnErr result (self.new ≡ self.old) }
    {
        self.last = put_record(&mut self.bytes, self.last, parts)?;
        self.count += 1;
        Ok(())
    }

    /// Ends the draft, and returns the checkpoint of its records.
    pub fn close(self) -> Snapshot
        ensures { result ≡ self }
    {
        let SnapshotDraft {
            bytes,
            place,
            count,
            last: _,
        } = self;
        Snapshot::of_bytes(bytes, place, count)
    }
}

// The bytes of a checkpoint whose only record is a configuration.
fn first_group(alloc: Global, configuration: &[u8]) -> Result<Vec<u8>, AllocError>
    requires { CanPack (configuration.now ∷ []) }
    ensures { IfOk result (λ bytes. bytes.items ≡ bytes_for 0 (configuration.now ∷ [])) }
{
    let len = 2 * LENGTH_BYTES + HEAD_BYTES + configuration.len();
    let mut bytes = Vec::with_capacity(alloc, LENGTH_BYTES + len + 1)?;
    bytes.extend_from_slice(&(len as u32).to_be_bytes())?;
    bytes.extend_from_slice(&(configuration.len() as u32).to_be_bytes())?;
    bytes.extend_from_slice(configuration)?;
    bytes.extend_from_slice(&(HEAD_BYTES as u32).to_be_bytes())?;
    bytes.extend_from_slice(&[HEAD, 0, 0, 0, 0, 0, 0, 0, 0])?;
    bytes.push(CLOSED)?;
    Ok(bytes)
}

// The last group of a draft, which the next record may join: the place of the group's length field, and how many records it has.
#[derive(Clone, Copy)]
struct LastGroup {
    start: usize,
    records: usize,
}

// Whether a group of `records` records and `body` bytes has room for one more record of `len` bytes.
fn has_room(records: usize, body: usize, len: usize) -> bool
    requires { body + (LENGTH_BYTES + len) < 2 ^ 64 }
    ensures { result ≡ (nat_lt records MAX_GROUP_RECORDS && nat_le (body + (LENGTH_BYTES + len)) MAX_GROUP_BYTES) }
{
    records < MAX_GROUP_RECORDS && body + (LENGTH_BYTES + len) <= MAX_GROUP_BYTES
}

// Adds a record, given in parts, to the bytes of a checkpoint: to the last group if that has room for it, and otherwise as a new group.
fn put_record(
    bytes: &mut Vec<u8>,
    last: LastGroup,
    parts: &[&[u8]],
) -> Result<LastGroup, AllocError>
    requires draft { IsDraft bytes.old.items last.start last.records }
    requires fits { FitsAlone (whole parts.now) }
    ensures draft { IfOk result (λ last. IsDraft bytes.new.items last.start last.records) }
    ensures records { OnOk result (records_in bytes.new.items ≡ records_in bytes.old.items ++ whole parts.now ∷ []) }
    ensures longer { OnOk result (vec_len bytes.old < vec_len bytes.new) }
    ensures same { OnErr result (bytes.new.items ≡ bytes.old.items) }
{
    let len = whole_len(parts);
    let body = bytes.len() - 1 - LENGTH_BYTES - last.start;
    if has_room(last.records, body, len) {
        join(bytes, last.start, body, len, parts)?;
        let records = last.records + 1;
        let start = last.start;
        Ok(LastGroup { start, records })
    } else {
        let start = bytes.len();
        begin(bytes, len, parts)?;
        Ok(LastGroup { start, records: 1 })
    }
}

// The length of a record that is given in parts.
fn whole_len(parts: &[&[u8]]) -> usize
    requires { length (whole parts.now) ≤ MAX_GROUP_BYTES }
    ensures { result ≡ length (whole parts.now) }
{
    let mut len = 0;
    for part in parts {
        len += part.len();
    }
    len
}

// Adds a record to the last group. The group's body has this length, and its length field is at this place.
fn join(
    bytes: &mut Vec<u8>,
    start: usize,
    body: usize,
    len: usize,
    parts: &[&[u8]],
) -> Result<(), AllocError>
    requires inside { start + LENGTH_BYTES < vec_len bytes.old }
    requires len { len ≡ length (whole parts.now) }
    requires fits { body + (LENGTH_BYTES + len) ≤ MAX_GROUP_BYTES }
    ensures items { OnOk result (bytes.new.items ≡ take start bytes.old.items ++ (to_be_bytes w32 (body + (LENGTH_BYTES + length (whole parts.now))) ++ (drop (start + LENGTH_BYTES) (take (length bytes.old.items - 1) bytes.old.items) ++ (record_bytes (whole parts.now) ++ CLOSED ∷ [])))) }
    ensures same { OnErr result (bytes.new.items ≡ bytes.old.items) }
{
    // The record's length starts where the closed gate stands now.
    let number = (len as u32).to_be_bytes();
    put_after(bytes, number[0], &number[1..], parts)?;
    put_four(bytes, start, (body + (LENGTH_BYTES + len)) as u32);
    Ok(())
}

// Adds a record as the first of a new group, and opens that group's gate.
fn begin(bytes: &mut Vec<u8>, len: usize, parts: &[&[u8]]) -> Result<(), AllocError>
    requires some { 1 ≤ vec_len bytes.old }
    requires len { len ≡ length (whole parts.now) }
    requires fits { FitsAlone (whole parts.now) }
    ensures items { OnOk result (bytes.new.items ≡ file_with bytes.old.items (whole parts.now ∷ [])) }
    ensures same { OnErr result (bytes.new.items ≡ bytes.old.items) }
{
    let body = ((LENGTH_BYTES + len) as u32).to_be_bytes();
    let number = (len as u32).to_be_bytes();
    let lengths = [
        body[0], body[1], body[2], body[3], number[0], number[1], number[2], number[3],
    ];
    put_after(bytes, OPEN, &lengths, parts)
}

// Replaces the closed gate at the end of the bytes by one other byte, and adds further bytes, a record, and a closed gate. If an allocation
// fails, the bytes are as before.
fn put_after(
    bytes: &mut Vec<u8>,
    first: u8,
    lengths: &[u8],
    parts: &[&[u8]],
) -> Result<(), AllocError>
    requires { 1 ≤ vec_len bytes.old }
    ensures items { OnOk result (bytes.new.items ≡ take (length bytes.old.items - 1) bytes.old.items ++ first ∷ (lengths.now ++ (whole parts.now ++ CLOSED ∷ []))) }
    ensures same { OnErr result (bytes.new.items ≡ bytes.old.items) }
{
    let len = bytes.len();
    if let Err(error) = put_last(bytes, lengths, parts) {
        bytes.truncate(len);
        return Err(error);
    }
    bytes[len - 1] = first;
    Ok(())
}

// Adds length fields, a record and a closed gate at the end of the bytes.
fn put_last(bytes: &mut Vec<u8>, lengths: &[u8], parts: &[&[u8]]) -> Result<(), AllocError>
    ensures items { OnOk result (bytes.new.items ≡ bytes.old.items ++ (lengths.now ++ (whole parts.now ++ CLOSED ∷ []))) }
    ensures kept { take (vec_len bytes.old) bytes.new.items ≡ bytes.old.items }
{
    bytes.extend_from_slice(lengths)?;
    put_parts(bytes, parts)?;
    bytes.push(CLOSED)?;
    Ok(())
}

// Adds the parts of a record at the end.
fn put_parts(bytes: &mut Vec<u8>, parts: &[&[u8]]) -> Result<(), AllocError>
    ensures items { OnOk result (bytes.new.items ≡ bytes.old.items ++ whole parts.now) }
    ensures kept { take (vec_len bytes.old) bytes.new.items ≡ bytes.old.items }
{
    for part in parts {
        bytes.extend_from_slice(part)?;
    }
    Ok(())
}

// Overwrites the four bytes at this place with a number.
fn put_four(bytes: &mut Vec<u8>, at: usize, number: u32)
    requires { at + 4 ≤ vec_len bytes.old }
    ensures { bytes.new.items ≡ take at bytes.old.items ++ (to_be_bytes w32 number ++ drop (at + 4) bytes.old.items) }
{
    bytes[at..at + 4].copy_from_slice(&number.to_be_bytes());
}
