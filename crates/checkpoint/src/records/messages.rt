//! Writing the records of votes, own headers and certificates.

ghost use Rattle.std.specs.Prelude.{◌≡◌, ◌++◌, ◌∷◌, length, drop, flat_map, IfOk, OnOk};
ghost use Rattle.std.specs.Int.{w16, to_be_bytes};
ghost use Rattle.wire.specs.Encoding.{encoding, vote_entry_bytes};
ghost use Rattle.spec_checkpoint.specs.Records as records;
ghost use Rattle.checkpoint.specs.Kept.{vote_of, header_of};

use admission::VotedHeader;
use std::alloc::{AllocError, Global};
use votebook::Slot;
use wire::numbers::two_bytes;
use wire::{Certificate, Digest, Message, VoteEntry, encode};

/// The kind byte of a vote's record.
pub const VOTE: u8 = 5;

/// The kind byte of an own header's record.
pub const HEADER: u8 = 6;

/// The kind byte of a certificate's record.
pub const CERTIFICATE: u8 = 7;

/// The record of a vote for another member's header: the kind, the header's author and round, and its digest.
pub fn vote_record(alloc: Global, vote: &(Slot, Digest)) -> Result<Vec<u8>, AllocError>
    ensures { IfOk result (λ bytes. bytes.items ≡ records.vote_record (vote_of vote.now)) }
{
    let (slot, header) = vote;
    let mut bytes = Vec::new(alloc);
    bytes.push(VOTE)?;
    bytes.extend_from_slice(&two_bytes(slot.author))?;
    bytes.extend_from_slice(&slot.round.to_be_bytes())?;
    bytes.extend_from_slice(&header.0)?;
    Ok(bytes)
}

/// The record of an own header: the kind, the header's body, its signature, the number of other members' votes on it, and these votes.
pub fn header_record(alloc: Global, voted: &VotedHeader) -> Result<Vec<u8>, AllocError>
    ensures { IfOk result (λ bytes. bytes.items ≡ records.header_record (header_of voted.now)) }
{
    let mut bytes = of_kind(alloc, HEADER, &Message::Header(voted.header.try_clone()?))?;
    bytes.extend_from_slice(&count_bytes(voted.votes.len()))?;
    put_entries(&mut bytes, &voted.votes)?;
    Ok(bytes)
}

/// The record of a certificate: the kind, the header's body, the number of votes, and the votes.
pub fn certificate_record(alloc: Global, certificate: &Certificate) -> Result<Vec<u8>, AllocError>
    ensures { IfOk result (λ bytes. bytes.items ≡ records.certificate_record certificate.now) }
{
    of_kind(
        alloc,
        CERTIFICATE,
        &Message::Certificate(certificate.try_clone()?),
    )
}

/// The encoding of a message, with the kind of a record in the place of the message's tag.
fn of_kind(alloc: Global, kind: u8, message: &Message) -> Result<Vec<u8>, AllocError>
    ensures { IfOk result (λ bytes. bytes.items ≡ kind ∷ drop 1 (encoding message.now)) }
{
    let mut bytes = encode(alloc, message)?;
    if let Some(tag) = bytes.first_mut() {
        *tag = kind;
    }
    Ok(bytes)
}

/// The two lower bytes of a count, the higher of them first.
#[tactic(auto, using(crate::proofs::Counts::lower_bytes))]
fn count_bytes(count: usize) -> [u8; 2]
    ensures { result ≡ to_be_bytes w16 count }
{
    two_bytes((count % 65_536) as u16)
}

/// Adds a vote on a header to the bytes.
fn put_vote_entry(bytes: &mut Vec<u8>, entry: &VoteEntry) -> Result<(), AllocError>
    ensures { OnOk result (bytes.new.items ≡ bytes.old.items ++ vote_entry_bytes entry.now) }
{
    bytes.extend_from_slice(&two_bytes(entry.voter.0))?;
    bytes.extend_from_slice(&entry.signature.0)?;
    Ok(())
}

/// Adds votes on a header to the bytes.
fn put_entries(bytes: &mut Vec<u8>, votes: &[VoteEntry]) -> Result<(), AllocError>
    ensures { OnOk result (bytes.new.items ≡ bytes.old.items ++ flat_map vote_entry_bytes votes.now) }
{
    for entry in votes {
        put_vote_entry(bytes, entry)?;
    }
    Ok(())
}
