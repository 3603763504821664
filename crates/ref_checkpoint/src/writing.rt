//! Writes the records of a checkpoint's state.

ghost use Rattle.std.specs.Prelude.{◌≡◌, ◌<◌, ◌≤◌, ◌*◌, ◌++◌, ◌∷◌, List, ℕ, length, map, take, drop, IfOk, OnOk, flat_map, if◌then◌else◌};
ghost use Rattle.std.specs.Int.{w16, w64, to_be_bytes};
ghost use Rattle.spec_checkpoint.specs.Records as records;
ghost use Rattle.wire.specs.Encoding.{encoding, vote_entry_bytes};
ghost use Rattle.ref_checkpoint.specs.Lists.{contents};

use crate::kept::{Checkpoint, KeptBatch, KeptHeader, KeptVote};
use crate::pieces::{COINS_PIECE, ORDER_PIECE};
use std::alloc::{AllocError, Global};
use wire::numbers::two_bytes;
use wire::{Certificate, Digest, Message, VoteEntry, encode};

/// One piece of a list that is cut into pieces of this size; pieces are counted from 0.
fn piece_at<T>(list: &[T], size: usize, piece: usize) -> &[T]
    requires { size * piece < length list.now }
    ensures value { result.now ≡ take size (drop (size * piece) list.now) }
    ensures few { length result.now ≤ size }
{
    let rest = &list[size * piece..];
    &rest[..size.min(rest.len())]
}

/// The two lower bytes of a number.
#[tactic(auto, using(crate::proofs::Counts::lower_bytes))]
fn count_bytes(count: usize) -> [u8; 2]
    ensures { result ≡ to_be_bytes w16 count }
{
    two_bytes((count % 65_536) as u16)
}

/// Adds digests to the bytes.
fn put_digests(bytes: &mut Vec<u8>, digests: &[Digest]) -> Result<(), AllocError>
    ensures { OnOk result (bytes.new.items ≡ bytes.old.items ++ flat_map (λ digest. digest.0) digests.now) }
{
    for digest in digests {
        bytes.extend_from_slice(&digest.0)?;
    }
    Ok(())
}

/// The record of a piece of the order: its kind, the number of digests, the digests.
fn order_record(alloc: Global, digests: &[Digest]) -> Result<Vec<u8>, AllocError>
    requires { length digests.now ≤ ORDER_PIECE }
    ensures { IfOk result (λ bytes. bytes.items ≡ records.order_record digests.now) }
{
    let mut bytes = Vec::new(alloc);
    bytes.push(3)?;
    bytes.extend_from_slice(&(digests.len() as u32).to_be_bytes())?;
    put_digests(&mut bytes, digests)?;
    Ok(bytes)
}

/// Adds members' numbers to the bytes, two bytes each.
fn put_members(bytes: &mut Vec<u8>, members: &[u16]) -> Result<(), AllocError>
    ensures { OnOk result (bytes.new.items ≡ bytes.old.items ++ flat_map (to_be_bytes w16) members.now) }
{
    for member in members {
        bytes.extend_from_slice(&two_bytes(*member))?;
    }
    Ok(())
}

/// The byte that says whether a batch is named.
fn mark_byte(named: bool) -> u8
    ensures { result ≡ (if named then 1 else 0) }
{
    if named { 1 } else { 0 }
}

/// The record of a batch: its kind, whether an own header names it, the number of other members who acknowledged it, these members, and its
/// body.
fn batch_record(alloc: Global, kept: &KeptBatch) -> Result<Vec<u8>, AllocError>
    ensures { IfOk result (λ bytes. bytes.items ≡ records.batch_record kept.now) }
{
    let mut bytes = Vec::new(alloc);
    bytes.push(4)?;
    bytes.push(mark_byte(kept.named))?;
    bytes.extend_from_slice(&count_bytes(kept.members.len()))?;
    put_members(&mut bytes, &kept.members)?;
    bytes.extend_from_slice(kept.batch.body())?;
    Ok(bytes)
}

/// The record of a vote for another author's header: its kind, author, round, header digest.
fn vote_record(alloc: Global, vote: &KeptVote) -> Result<Vec<u8>, AllocError>
    ensures { IfOk result (λ bytes. bytes.items ≡ records.vote_record vote.now) }
{
    let mut bytes = Vec::new(alloc);
    bytes.push(5)?;
    bytes.extend_from_slice(&two_bytes(vote.author))?;
    bytes.extend_from_slice(&vote.round.number().to_be_bytes())?;
    bytes.extend_from_slice(&vote.header.0)?;
    Ok(bytes)
}

/// Adds a vote on a header to the bytes.
fn put_vote_entry(bytes: &mut Vec<u8>, entry: &VoteEntry) -> Result<(), AllocError>
    ensures { OnOk result (bytes.new.items ≡ bytes.old.items ++ vote_entry_bytes entry.now) }
{
    bytes.extend_from_slice(&two_bytes(entry.voter.0))?;
    bytes.extend_from_slice(&entry.signature.0)?;
    Ok(())
}

/// Adds votes on a header to the bytes.
fn put_entries(bytes: &mut Vec<u8>, votes: &[VoteEntry]) -> Result<(), AllocError>
    ensures { OnOk result (bytes.new.items ≡ bytes.old.items ++ flat_map vote_entry_bytes votes.now) }
{
    for entry in votes {
        put_vote_entry(bytes, entry)?;
    }
    Ok(())
}

/// The record of an own header: its kind, the header's body, its signature, the number of others' votes on it, and these votes.
fn header_record(alloc: Global, kept: &KeptHeader) -> Result<Vec<u8>, AllocError>
    ensures { IfOk result (λ bytes. bytes.items ≡ records.header_record kept.now) }
{
    let mut bytes = of_kind(alloc, 6, &Message::Header(kept.header.try_clone()?))?;
    bytes.extend_from_slice(&count_bytes(kept.votes.len()))?;
    put_entries(&mut bytes, kept.votes.as_slice())?;
    Ok(bytes)
}

/// The bytes of a message in which a record's kind takes the place of the message's tag.
fn of_kind(alloc: Global, kind: u8, message: &Message) -> Result<Vec<u8>, AllocError>
    ensures { IfOk result (λ bytes. bytes.items ≡ kind ∷ drop 1 (encoding message.now)) }
{
    let text = encode(alloc, message)?;
    let mut bytes = Vec::new(alloc);
    bytes.push(kind)?;
    if let Some((_, rest)) = text.split_first() {
        bytes.extend_from_slice(rest)?;
    }
    Ok(bytes)
}

/// The record of a certificate: its kind, the header's body, the number of votes, and the votes.
fn certificate_record(alloc: Global, certificate: &Certificate) -> Result<Vec<u8>, AllocError>
    ensures { IfOk result (λ bytes. bytes.items ≡ records.certificate_record certificate.now) }
{
    of_kind(alloc, 7, &Message::Certificate(certificate.try_clone()?))
}

/// Adds values of coins to the bytes.
fn put_values(bytes: &mut Vec<u8>, coins: &[u64]) -> Result<(), AllocError>
    ensures { OnOk result (bytes.new.items ≡ bytes.old.items ++ flat_map (to_be_bytes w64) coins.now) }
{
    for coin in coins {
        bytes.extend_from_slice(&coin.to_be_bytes())?;
    }
    Ok(())
}

/// The record of a piece of the coins: its kind, the number of values, the values.
fn coins_record(alloc: Global, coins: &[u64]) -> Result<Vec<u8>, AllocError>
    requires { length coins.now ≤ COINS_PIECE }
    ensures { IfOk result (λ bytes. bytes.items ≡ records.coins_record coins.now) }
{
    let mut bytes = Vec::new(alloc);
    bytes.push(8)?;
    bytes.extend_from_slice(&(coins.len() as u32).to_be_bytes())?;
    put_values(&mut bytes, coins)?;
    Ok(bytes)
}

/// Adds the records of the pieces of the order.
fn put_order(alloc: Global, rows: &mut Vec<Vec<u8>>, digests: &[Digest]) -> Result<(), AllocError>
    ensures { OnOk result (contents rows.new.items ≡ contents rows.old.items ++ map records.order_record (records.cut ORDER_PIECE digests.now)) }
{
    let size = ORDER_PIECE as usize;
    let count = (digests.len() + (size - 1)) / size;
    for piece in 0..count {
        rows.push(order_record(alloc, piece_at(digests, size, piece))?)?;
    }
    Ok(())
}

/// Adds the records of batches.
#[tactic(auto, using(crate::proofs::RowsMore::row_more))]
fn put_batches(
    alloc: Global,
    rows: &mut Vec<Vec<u8>>,
    batches: &[KeptBatch],
) -> Result<(), AllocError>
    ensures { OnOk result (contents rows.new.items ≡ contents rows.old.items ++ map records.batch_record batches.now) }
{
    for kept in batches {
        rows.push(batch_record(alloc, kept)?)?;
    }
    Ok(())
}

/// Adds the records of votes.
#[tactic(auto, using(crate::proofs::RowsMore::row_more))]
fn put_votes(alloc: Global, rows: &mut Vec<Vec<u8>>, votes: &[KeptVote]) -> Result<(), AllocError>
    ensures { OnOk result (contents rows.new.items ≡ contents rows.old.items ++ map records.vote_record votes.now) }
{
    for vote in votes {
        rows.push(vote_record(alloc, vote)?)?;
    }
    Ok(())
}

/// Adds the records of own headers.
#[tactic(auto, using(crate::proofs::RowsMore::row_more))]
fn put_headers(
    alloc: Global,
    rows: &mut Vec<Vec<u8>>,
    headers: &[KeptHeader],
) -> Result<(), AllocError>
    ensures { OnOk result (contents rows.new.items ≡ contents rows.old.items ++ map records.header_record headers.now) }
{
    for kept in headers {
        rows.push(header_record(alloc, kept)?)?;
    }
    Ok(())
}

/// Adds the records of certificates.
#[tactic(auto, using(crate::proofs::RowsMore::row_more))]
fn put_certificates(
    alloc: Global,
    rows: &mut Vec<Vec<u8>>,
    certificates: &[Certificate],
) -> Result<(), AllocError>
    ensures { OnOk result (contents rows.new.items ≡ contents rows.old.items ++ map records.certificate_record certificates.now) }
{
    for certificate in certificates {
        rows.push(certificate_record(alloc, certificate)?)?;
    }
    Ok(())
}

/// Adds the records of the pieces of the coins.
fn put_coins(alloc: Global, rows: &mut Vec<Vec<u8>>, coins: &[u64]) -> Result<(), AllocError>
    ensures { OnOk result (contents rows.new.items ≡ contents rows.old.items ++ map records.coins_record (records.cut COINS_PIECE coins.now)) }
{
    let size = COINS_PIECE as usize;
    let count = (coins.len() + (size - 1)) / size;
    for piece in 0..count {
        rows.push(coins_record(alloc, piece_at(coins, size, piece))?)?;
    }
    Ok(())
}

/// The records of a checkpoint's state, kind after kind.
///
/// # Errors
/// An allocation failed.
pub fn state_records(alloc: Global, checkpoint: &Checkpoint) -> Result<Vec<Vec<u8>>, AllocError>
    ensures { IfOk result (λ rows. contents rows.items ≡ records.state_records checkpoint.now) }
{
    let mut rows = Vec::new(alloc);
    put_order(alloc, &mut rows, &checkpoint.order)?;
    put_batches(alloc, &mut rows, &checkpoint.batches)?;
    put_votes(alloc, &mut rows, &checkpoint.votes)?;
    put_headers(alloc, &mut rows, &checkpoint.headers)?;
    put_certificates(alloc, &mut rows, &checkpoint.certificates)?;
    put_coins(alloc, &mut rows, &checkpoint.coins)?;
    Ok(rows)
}
