//! A draft: a group that is being filled with records.

ghost use Rattle.std.specs.Prelude.{◌≡◌, ◌+◌, ◌≤◌, ◌++◌, vec_len, vec_capacity, drop, ◌∷◌, [], List, ℕ, length, IsTrue, IfOk, IfErr, OnOk, OnErr, ◌↔◌};
ghost use Rattle.journal.specs.Format.{FitsGroup};
ghost use Rattle.std.specs.Int.{w32, to_be_bytes};
ghost use Rattle.spec_records.specs.Records.{record_of as record_bytes};
ghost use Rattle.book.specs.Pending.{IsDraft};
ghost use Rattle.book.specs.OneDraft.{one_draft};
ghost use Rattle.journal.specs.declared.layout.TheConstants.{LENGTH_BYTES, MAX_GROUP_BYTES};

use crate::record::put_record;
use header::Checked;
use journal::{CLOSED, Group, LENGTH_BYTES, MAX_GROUP_BYTES, MAX_GROUP_RECORDS};
use std::alloc::{AllocError, Global};
use std::marker::Model;

/// The records of a group that is being filled. Contracts see the records.
#[derive(Drop)]
pub(crate) struct Draft {
    // Room for the length of the group's body, and then the body so far.
    bytes: Vec<u8>,
    count: u64,
    ghost drafted: { IsDraft bytes.items count } by { one_draft bytes.items count },
}

impl Model for Draft {
    ghost use Rattle.std.specs.Prelude.{List, ℕ};

    ghost Value = { List (List ℕ) };

    ghost view = { λ draft. draft.drafted.records };
}

impl Draft {
    /// A draft without a record. On `AllocError` an allocation failed.
    pub(crate) fn new(alloc: Global) -> Result<Draft, AllocError>
        ensures { IfOk result (λ draft. draft ≡ []) }
    {
        let mut bytes = Vec::new(alloc);
        bytes.extend_from_slice(&[0; LENGTH_BYTES])?;
        Ok(Draft { bytes, count: 0 })
    }

    /// Whether the draft has no record.
    pub(crate) fn is_empty(&self) -> bool
        ensures { IsTrue result ↔ (self.now ≡ []) }
    {
        self.count == 0
    }

    /// Whether a record of this length, in bytes, still fits into the group.
    pub(crate) fn has_room(&self, len: usize) -> bool
        requires { LENGTH_BYTES + len ≤ MAX_GROUP_BYTES }
        ensures { (bytes : List ℕ) → length bytes ≡ len → (IsTrue result ↔ FitsGroup (self.now ++ bytes ∷ [])) }
    {
        if self.count == MAX_GROUP_RECORDS as u64 {
            return false;
        }
        // The room for the length of the body is as large as the length field of the record, so that the two cancel out in this sum.
        self.bytes.len() + len <= MAX_GROUP_BYTES
    }

    /// Adds the record of an event. The record has this length, and fits. On `AllocError` an allocation failed, and nothing has changed.
    pub(crate) fn put(&mut self, event: &Checked, len: usize) -> Result<(), AllocError>
        requires len { len ≡ length (record_bytes event.now) }
        requires short { LENGTH_BYTES + len ≤ MAX_GROUP_BYTES }
        requires fits { FitsGroup (self.old ++ record_bytes event.now ∷ []) }
        ensures ok { OnOk result (self.new ≡ self.old ++ record_bytes event.now ∷ []) }
        ensures err { OnErr result (self.new ≡ self.old) }
    {
        let before = self.bytes.len();
        match put_record(&mut self.bytes, event, len) {
            Ok(()) => {
                self.count += 1;
                Ok(())
            }
            Err(error) => {
                self.bytes.truncate(before);
                Err(error)
            }
        }
    }

    /// Removes the last record, which has this length.
    pub(crate) fn take_back(&mut self, len: usize)
        requires { (others : List (List ℕ)) × (last : List ℕ) × (self.old ≡ others ++ last ∷ []) × (length last ≡ len) }
        ensures { (others : List (List ℕ)) (last : List ℕ) → self.old ≡ others ++ last ∷ [] → self.new ≡ others }
    {
        self.bytes.truncate(self.bytes.len() - (LENGTH_BYTES + len));
        self.count -= 1;
    }

    /// Makes the group of the draft's records, of which there is at least one. If an allocation fails, the error gives the draft back.
    pub(crate) fn close(self) -> Result<Group, Draft>
        requires { FitsGroup self }
        ensures ok { IfOk result (λ group. group ≡ self) }
        ensures err { IfErr result (λ draft. draft ≡ self) }
    {
        let Draft { mut bytes, count } = self;
        if bytes.reserve(1).is_err() {
            return Err(Draft { bytes, count });
        }
        let len = (bytes.len() - LENGTH_BYTES) as u32;
        put_len(&mut bytes, len);
        bytes.push_reserved(CLOSED);
        Ok(Group::of_bytes(bytes, count))
    }
}

// Writes the length of a group's body into the room before the body.
fn put_len(bytes: &mut Vec<u8>, len: u32)
    requires { LENGTH_BYTES ≤ vec_len bytes.old }
    ensures items { bytes.new.items ≡ to_be_bytes w32 len ++ drop LENGTH_BYTES bytes.old.items }
    ensures len { vec_len bytes.new ≡ vec_len bytes.old }
    ensures capacity { vec_capacity bytes.new ≡ vec_capacity bytes.old }
{
    bytes[0..LENGTH_BYTES].copy_from_slice(&len.to_be_bytes());
}
