//! A group of records, ready to be written.

ghost use Rattle.std.specs.Prelude.{◌≡◌, ◌+◌, ◌<◌, ◌≤◌, ◌++◌, length, IfOk, OnOk};
ghost use Rattle.std.specs.Option.{SomeIff};
ghost use Rattle.journal.specs.Format.{FitsGroup, IsGroup, body_len, contents, body_bytes, group_bytes};
ghost use Rattle.journal.specs.OneGroup.{one_group};

use crate::layout::{CLOSED, LENGTH_BYTES, MAX_GROUP_BYTES, MAX_GROUP_RECORDS};
use std::alloc::{AllocError, Global};
use std::marker::Model;

/// Records that are to be appended together, within the limits of a group. A group must be used: it has no `Drop`.
pub struct Group {
    // The bytes that are written after the group's gate: the length of the body, the body, and the closed gate for the next group.
    bytes: Vec<u8>,
    count: u64,
    ghost written: { IsGroup bytes.items count } by { one_group bytes.items count },
}

impl Model for Group {
    ghost use Rattle.std.specs.Prelude.{List, ℕ};

    ghost Value = { List (List ℕ) };

    ghost view = { λ group. group.written.records };
}

impl Group {
    ghost use Rattle.std.specs.Prelude.{List, ℕ};

    /// The group of these records; None if there are no records, too many, or too many bytes.
    pub fn new(alloc: Global, records: Vec<Vec<u8>>) -> Result<Option<Group>, AllocError>
        ensures { IfOk result (λ group. SomeIff group (FitsGroup (contents records.items)) (contents records.items)) }
    {
        if records.is_empty() || records.len() > MAX_GROUP_RECORDS {
            return Ok(None);
        }
        let Some(len) = body_len_within(&records) else {
            return Ok(None);
        };
        let bytes = bytes_of(alloc, &records, len)?;
        let count = records.len() as u64;
        Ok(Some(Group { bytes, count }))
    }

    /// How many records the group has.
    pub fn records_count(&self) -> u64
        ensures value { result ≡ length self.now }
        ensures fits { FitsGroup self.now }
    {
        self.count
    }

    /// The group that has these bytes (the length of its body, the body, and the closed gate for the next group) and `count` records.
    pub fn of_bytes(bytes: Vec<u8>, count: u64) -> Group
        requires { IsGroup bytes.items count }
        ensures { (records : List (List ℕ)) → FitsGroup records → bytes.items ≡ group_bytes records → result ≡ records }
    {
        Group { bytes, count }
    }

    // The bytes that are to be written after the gate of this group.
    pub(crate) fn bytes(&self) -> &[u8]
        ensures bytes { result.now ≡ group_bytes self.now }
        ensures fits { FitsGroup self.now }
    {
        &self.bytes
    }

    // How many bytes a group takes on the disk, without its own gate.
    pub(crate) fn written_len(&self) -> u64
        ensures { result ≡ length (group_bytes self.now) }
    {
        self.bytes.len() as u64
    }

    // Uses up a group that isn't appended.
    pub(crate) fn discard(self) {
        let Group { bytes: _, count: _ } = self;
    }
}

// The length of the body of a group with these records; None if it is above a group's limit.
fn body_len_within(records: &[Vec<u8>]) -> Option<usize>
    ensures { SomeIff result (body_len (contents records.now) ≤ MAX_GROUP_BYTES) (body_len (contents records.now)) }
{
    let mut total = 0;
    for record in records {
        let room = MAX_GROUP_BYTES - total;
        if room < LENGTH_BYTES || record.len() > room - LENGTH_BYTES {
            return None;
        }
        total += LENGTH_BYTES + record.len();
    }
    Some(total)
}

// The bytes that are written of a group after its gate, with the closed gate for the next group.
fn bytes_of(alloc: Global, records: &[Vec<u8>], len: usize) -> Result<Vec<u8>, AllocError>
    requires fits { len ≤ MAX_GROUP_BYTES }
    requires len { len ≡ body_len (contents records.now) }
    ensures { IfOk result (λ bytes. bytes.items ≡ group_bytes (contents records.now)) }
{
    let mut bytes = Vec::with_capacity(alloc, LENGTH_BYTES + len + 1)?;
    bytes.extend_from_slice(&(len as u32).to_be_bytes())?;
    put_body(&mut bytes, records)?;
    bytes.push(CLOSED)?;
    Ok(bytes)
}

// Adds these records to the body, each after its length field.
fn put_body(bytes: &mut Vec<u8>, records: &[Vec<u8>]) -> Result<(), AllocError>
    requires { body_len (contents records.now) ≤ MAX_GROUP_BYTES }
    ensures { OnOk result (bytes.new.items ≡ bytes.old.items ++ body_bytes (contents records.now)) }
{
    for record in records {
        bytes.extend_from_slice(&(record.len() as u32).to_be_bytes())?;
        bytes.extend_from_slice(record)?;
    }
    Ok(())
}
