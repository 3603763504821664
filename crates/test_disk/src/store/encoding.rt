//! Groups of a journal that a test gives as bytes.

ghost use Rattle.std.specs.Prelude.{◌≡◌, ◌≤◌, ◌+◌, ◌++◌, length, map, List, ℕ, IfOk, IfSome, OnOk};
ghost use Rattle.std.specs.Option.{SomeIff};
ghost use Rattle.journal.specs.Format.{IsGroup, body_len, body_bytes};
ghost use Rattle.journal.specs.declared.layout.TheConstants.{MAX_GROUP_BYTES};

use journal::{
    CLOSED, Group, LENGTH_BYTES, MAX_GROUP_BYTES, MAX_GROUP_RECORDS, OPEN, Record, stands,
};
use std::alloc::{AllocError, Global};

/// The group whose bytes, after its open gate, are `bytes`, and which has `count` records. None if the bytes are those of no such group: if
/// writing the records again doesn't give the same bytes.
pub fn group_in(alloc: Global, bytes: &[u8], count: u64) -> Result<Option<Group>, AllocError> {
    let mut file = vec![in alloc; OPEN]?;
    file.extend_from_slice(bytes)?;
    let Ok(records) = stands(alloc, &file) else {
        return Ok(None);
    };
    match encoded(alloc, &records)? {
        Some(encoded) if encoded.as_slice() == bytes && records.len() as u64 == count => {
            Ok(Some(Group::of_bytes(encoded, count)))
        }
        _ => Ok(None),
    }
}

/// The bytes of a group of these records, without its gate: the length of the body, the records, each after its length, and the closed gate
/// before the next group. None if the records exceed a group's limits.
fn encoded(alloc: Global, records: &[Record]) -> Result<Option<Vec<u8>>, AllocError>
    ensures { IfOk result (λ found. IfSome found (λ bytes. IsGroup bytes.items (length records.now))) }
{
    if records.is_empty() || records.len() > MAX_GROUP_RECORDS {
        return Ok(None);
    }
    let Some(len) = body_len_within(records) else {
        return Ok(None);
    };
    let mut bytes = (len as u32).to_be_bytes().to_vec(alloc)?;
    put_body(&mut bytes, records)?;
    bytes.push(CLOSED)?;
    Ok(Some(bytes))
}

// The length of the records' body; None if it is above the limit of a group.
fn body_len_within(records: &[Record]) -> Option<usize>
    ensures { IfSome result (λ len. (len ≡ body_len (map (λ record_in. record_in.bytes) records.now)) × (len ≤ MAX_GROUP_BYTES)) }
{
    let mut total = 0;
    for record in records {
        let room = MAX_GROUP_BYTES - total;
        let len = record.bytes.as_slice().len();
        if room < LENGTH_BYTES || len > room - LENGTH_BYTES {
            return None;
        }
        total += LENGTH_BYTES + len;
    }
    Some(total)
}

// Adds the records to the bytes, each after its length field.
fn put_body(bytes: &mut Vec<u8>, records: &[Record]) -> Result<(), AllocError>
    requires { body_len (map (λ record_in. record_in.bytes) records.now) ≤ MAX_GROUP_BYTES }
    ensures { OnOk result (bytes.new.items ≡ bytes.old.items ++ body_bytes (map (λ record_in. record_in.bytes) records.now)) }
{
    for record in records {
        let record = record.bytes.as_slice();
        bytes.extend_from_slice(&(record.len() as u32).to_be_bytes())?;
        bytes.extend_from_slice(record)?;
    }
    Ok(())
}
