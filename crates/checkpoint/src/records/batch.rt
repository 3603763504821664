//! Writing the record of a batch.

ghost use Rattle.std.specs.Prelude.{◌≡◌, ◌≤◌, ◌++◌, ◌∷◌, [], length, flat_map, IfOk, OnOk, if◌then◌else◌};
ghost use Rattle.std.specs.Int.{w16, to_be_bytes};
ghost use Rattle.wire.specs.Batches.{batch_body};
ghost use Rattle.committee.specs.declared.members.TheConstants.{MAX_MEMBERS};
ghost use Rattle.spec_checkpoint.specs.Records as records;
ghost use Rattle.checkpoint.specs.Kept.{keep_of, members_in};

use crate::sink::RecordSink;
use batchstore::Held;
use committee::{MAX_MEMBERS, MemberSet};
use std::alloc::{AllocError, Global};
use wire::Author;
use wire::numbers::two_bytes;

/// The kind byte of a batch's record.
pub const BATCH: u8 = 4;

/// Adds the record of a batch to the sink. The batch's body is given as a part by itself, so that it is copied only once.
pub fn put_batch<S: RecordSink>(alloc: Global, sink: &mut S, held: &Held) -> Result<(), AllocError>
    requires { S.fits (records.batch_record (keep_of held.now)) }
    ensures { OnOk result (S.records sink.new ≡ S.records sink.old ++ records.batch_record (keep_of held.now) ∷ []) }
{
    let head = batch_head(alloc, held)?;
    sink.put(alloc, &[head.as_slice(), held.batch().body()])
}

/// The bytes before a batch's body: the record's kind, whether an own header names the batch, the number of other members who acknowledged
/// it, and these members' numbers.
fn batch_head(alloc: Global, held: &Held) -> Result<Vec<u8>, AllocError>
    ensures { IfOk result (λ bytes. bytes.items ++ batch_body held.now.batch ≡ records.batch_record (keep_of held.now)) }
{
    let members = held.acknowledged();
    let mut bytes = Vec::new(alloc);
    bytes.push(BATCH)?;
    bytes.push(mark_byte(held.is_named()))?;
    bytes.extend_from_slice(&two_bytes(count_of(&members)))?;
    put_members(&mut bytes, &members)?;
    Ok(bytes)
}

/// The byte that says whether an own header names a batch: 1 or 0.
fn mark_byte(named: bool) -> u8
    ensures { result ≡ (if named then 1 else 0) }
{
    if named { 1 } else { 0 }
}

/// How many members a set has.
fn count_of(members: &MemberSet) -> u16
    ensures value { result ≡ length (members_in members.now) }
    ensures few { result ≤ MAX_MEMBERS }
{
    let mut count = 0;
    for member in 0..MAX_MEMBERS {
        if members.contains(Author(member)) {
            count += 1;
        }
    }
    count
}

/// Adds the numbers of these members to the bytes.
fn put_members(bytes: &mut Vec<u8>, members: &MemberSet) -> Result<(), AllocError>
    ensures { OnOk result (bytes.new.items ≡ bytes.old.items ++ flat_map (to_be_bytes w16) (members_in members.now)) }
{
    for member in 0..MAX_MEMBERS {
        if members.contains(Author(member)) {
            bytes.extend_from_slice(&two_bytes(member))?;
        }
    }
    Ok(())
}
