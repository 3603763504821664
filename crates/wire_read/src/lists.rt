//! Reads the lists in headers and certificates. The order is tested as soon as the key of an entry is read.

ghost use Rattle.std.specs.Prelude.{◌≡◌, ◌<◌, ◌≤◌, ◌*◌, length, IfOk, IsTrue};
ghost use Rattle.wire.specs.References.{batch_follows, parent_follows, vote_follows};
ghost use Rattle.wire.specs.Reading.{Gives, batch_reference_at, batches_at, parent_reference_at, parents_at, vote_entry_at, votes_at};

use crate::reader::Reader;
use std::alloc::Global;
use wire::{
    BatchReference, BatchReferences, MAX_BATCHES, MAX_PARENTS, MAX_VOTES, ParentReference,
    ParentReferences, VoteEntries, VoteEntry, WireError,
};

/// The length of a reference to a batch or to a parent, in bytes.
const REFERENCE_BYTES: usize = 34;

/// The length of a vote in a certificate, in bytes.
const VOTE_BYTES: usize = 66;

// For how many entries to allocate: for as many as the message says there are, but for no more than the bytes that are left can hold. So a
// number alone can't cause a large allocation.
#[tactic(auto, using(crate::proofs::Rooms::has_room))]
fn room_for(reader: &Reader, count: u16, entry_bytes: usize) -> usize
    requires { 0 < entry_bytes }
    ensures counted { result ≤ count }
    ensures within { result * entry_bytes ≤ length reader.now }
{
    (reader.rest().len() / entry_bytes).min(count as usize)
}

#[tactic(auto, unfolding(wire::specs::Reading::batch_reference_at))]
fn batch_of(reader: &mut Reader, before: &BatchReferences) -> Result<BatchReference, WireError>
    ensures reads { Gives (λ x. (x, reader.new)) result (batch_reference_at before.now reader.old) }
    ensures follows { IfOk result (λ batch. IsTrue (batch_follows before.now batch.digest)) }
{
    let digest = reader.digest()?;
    if !before.may_follow(&digest) {
        return Err(WireError::NotCanonical);
    }
    let worker = reader.u16()?;
    Ok(BatchReference { digest, worker })
}

#[tactic(auto, unfolding(wire::specs::Reading::batches_at))]
pub(crate) fn batches_of(alloc: Global, reader: &mut Reader) -> Result<BatchReferences, WireError>
    ensures { Gives (λ x. (x, reader.new)) result (batches_at reader.old) }
{
    let count = reader.count_u16(MAX_BATCHES as u16)?;
    let mut batches = BatchReferences::with_room(alloc, room_for(reader, count, REFERENCE_BYTES))?;
    for _ in 0..count {
        let batch = batch_of(reader, &batches)?;
        batches.push(batch)?;
    }
    Ok(batches)
}

#[tactic(auto, unfolding(wire::specs::Reading::parent_reference_at))]
fn parent_of(reader: &mut Reader, before: &ParentReferences) -> Result<ParentReference, WireError>
    ensures reads { Gives (λ x. (x, reader.new)) result (parent_reference_at before.now reader.old) }
    ensures follows { IfOk result (λ parent. IsTrue (parent_follows before.now parent.author)) }
{
    let author = reader.author()?;
    if !before.may_follow(author) {
        return Err(WireError::NotCanonical);
    }
    let certificate = reader.digest()?;
    Ok(ParentReference {
        author,
        certificate,
    })
}

#[tactic(auto, unfolding(wire::specs::Reading::parents_at))]
pub(crate) fn parents_of(alloc: Global, reader: &mut Reader) -> Result<ParentReferences, WireError>
    ensures { Gives (λ x. (x, reader.new)) result (parents_at reader.old) }
{
    let count = reader.count_u16(MAX_PARENTS as u16)?;
    let mut parents = ParentReferences::with_room(alloc, room_for(reader, count, REFERENCE_BYTES))?;
    for _ in 0..count {
        let parent = parent_of(reader, &parents)?;
        parents.push(parent)?;
    }
    Ok(parents)
}

#[tactic(auto, unfolding(wire::specs::Reading::vote_entry_at))]
fn vote_of(reader: &mut Reader, before: &VoteEntries) -> Result<VoteEntry, WireError>
    ensures reads { Gives (λ x. (x, reader.new)) result (vote_entry_at before.now reader.old) }
    ensures follows { IfOk result (λ vote. IsTrue (vote_follows before.now vote.voter)) }
{
    let voter = reader.author()?;
    if !before.may_follow(voter) {
        return Err(WireError::NotCanonical);
    }
    let signature = reader.signature()?;
    Ok(VoteEntry { voter, signature })
}

/// Reads the votes of a certificate with their number, in two bytes, before them. Each is a voter, greater than the one before, and a
/// signature.
///
/// # Errors
/// The first fault from left to right; `Memory` if an allocation failed.
#[tactic(auto, unfolding(wire::specs::Reading::votes_at))]
pub fn votes_of(alloc: Global, reader: &mut Reader) -> Result<VoteEntries, WireError>
    ensures { Gives (λ x. (x, reader.new)) result (votes_at reader.old) }
{
    let count = reader.count_u16(MAX_VOTES as u16)?;
    let mut votes = VoteEntries::with_room(alloc, room_for(reader, count, VOTE_BYTES))?;
    for _ in 0..count {
        let vote = vote_of(reader, &votes)?;
        votes.push(vote)?;
    }
    Ok(votes)
}
