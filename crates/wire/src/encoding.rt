//! Encodes messages as bytes.

ghost use Rattle.std.specs.Prelude.{◌≡◌, ℕ, List, ◌≤◌, ◌+◌, ◌*◌, ◌++◌, ◌∷◌, length, take, IfOk, OnOk, OnErr};
ghost use Rattle.wire.specs.declared.limits.TheConstants.{MAX_BATCH_BYTES, MAX_BATCHES, MAX_FRAME_BYTES, MAX_PARENTS, MAX_VOTES};
ghost use Rattle.wire.specs.Encoding.{batch_reference_bytes, parent_reference_bytes, vote_entry_bytes, batches_bytes, parents_bytes, votes_bytes, header_body, header_body_len, encoding, length_of};
ghost use Rattle.wire.specs.Putting.{Keeps};
ghost use Rattle.wire.specs.Fields.{IsDigest, IsSignature};
ghost use Rattle.wire.specs.Batches.{IsBatch};
ghost use Rattle.wire.specs.Grammar.{IsAck, IsHeaderBody, IsHeader, IsVote, IsCertificate, IsCoin, IsMessage, Spells};
ghost use Rattle.wire.specs.References.{IsBatchReference, IsParentReference, IsVoteEntry, AreBatches, AreParents, AreVotes};

use crate::batch::Batch;
use crate::header::{Certificate, Header, HeaderBody, Vote};
use crate::keys::{Digest, Signature};
use crate::message::{BatchAck, Coin, Message};
use crate::numbers::{eight_bytes, two_bytes};
use crate::references::{BatchReference, BatchReferences, ParentReference, ParentReferences};
use crate::votes::{VoteEntries, VoteEntry};
use std::alloc::{AllocError, Global};

/// The tag of a batch message.
pub const BATCH_TAG: u8 = 1;

/// The tag of an acknowledgement.
pub const ACK_TAG: u8 = 2;

/// The tag of a header message.
pub const HEADER_TAG: u8 = 3;

/// The tag of a vote message.
pub const VOTE_TAG: u8 = 4;

/// The tag of a certificate message.
pub const CERTIFICATE_TAG: u8 = 5;

/// The tag of a coin message.
pub const COIN_TAG: u8 = 6;

/// The length of an acknowledgement with its tag, in bytes.
pub(crate) const ACK_BYTES: usize = 35;

/// The length of a vote with its tag, in bytes.
pub(crate) const VOTE_BYTES: usize = 109;

/// The length of a coin with its tag, in bytes.
const COIN_BYTES: usize = 17;

/// The length of a header's body without its references, in bytes: author, round, and the numbers of batches and parents.
const HEADER_FRONT_BYTES: usize = 14;

/// The length of a reference to a batch or to a parent, in bytes.
const REFERENCE_BYTES: usize = 34;

/// The length of a signature, in bytes.
const SIGNATURE_BYTES: usize = 64;

/// The length of the number of a list's entries, in bytes.
const COUNT_BYTES: usize = 2;

/// The length of a vote in a certificate, in bytes.
const VOTE_ENTRY_BYTES: usize = 66;

// Adds bytes to a message. What was there before stays, also if the allocation fails.
#[tactic(auto, using(crate::proofs::Joining::put_kept))]
fn put_bytes(out: &mut Vec<u8>, bytes: &[u8]) -> Result<(), AllocError>
    ensures bytes { OnOk result (out.new.items ≡ out.old.items ++ bytes.now) }
    ensures len { OnOk result (length out.new.items ≡ length out.old.items + length bytes.now) }
    ensures kept { Keeps out.old.items out.new.items }
{
    out.extend_from_slice(bytes)
}

pub(crate) fn put_digest(out: &mut Vec<u8>, digest: &Digest) -> Result<(), AllocError>
    ensures bytes { OnOk result (out.new.items ≡ out.old.items ++ digest.now.0) }
    ensures len { OnOk result (length out.new.items ≡ length out.old.items + 32) }
    ensures fits { OnOk result (IsDigest digest.now) }
    ensures kept { Keeps out.old.items out.new.items }
{
    digest.limits_hold();
    put_bytes(out, &digest.0)
}

pub(crate) fn put_batch(out: &mut Vec<u8>, batch: &Batch) -> Result<(), AllocError>
    ensures bytes { OnOk result (out.new.items ≡ out.old.items ++ encoding (Message.Batch batch.now)) }
    ensures len { OnOk result (length out.new.items ≡ length out.old.items + length_of (Message.Batch batch.now)) }
    ensures limit { OnOk result (length_of (Message.Batch batch.now) ≤ 1 + MAX_BATCH_BYTES) }
    ensures fits { OnOk result (IsBatch batch.now) }
    ensures kept { Keeps out.old.items out.new.items }
{
    put_bytes(out, &[BATCH_TAG])?;
    put_bytes(out, batch.body())
}

// Lengthens a buffer by `count` bytes, which are written afterwards, and returns where they begin. This is the only allocation for a
// message. If it fails, the buffer is as before.
fn lengthen(out: &mut Vec<u8>, count: usize) -> Result<usize, AllocError>
    requires { count ≤ MAX_FRAME_BYTES }
    ensures place { IfOk result (λ place. place ≡ length out.old.items) }
    ensures front { OnOk result (take (length out.old.items) out.new.items ≡ out.old.items) }
    ensures len { OnOk result (length out.new.items ≡ length out.old.items + count) }
    ensures err { OnErr result (out.new.items ≡ out.old.items) }
{
    let place = out.len();
    out.resize(place + count, 0)?;
    Ok(place)
}

// Writes bytes at a place of the buffer, and returns the place after them. What stands before the place stays.
#[tactic(auto, using(std::proofs::lemmas::Slice::overwrites))]
fn write_at(area: &mut [u8], place: usize, bytes: &[u8]) -> usize
    requires room { place + length bytes.now ≤ length area.old }
    ensures bytes { take result area.new ≡ take place area.old ++ bytes.now }
    ensures next { result ≡ place + length bytes.now }
    ensures len { length area.new ≡ length area.old }
{
    let next = place + bytes.len();
    area[place..next].copy_from_slice(bytes);
    next
}

fn write_digest(area: &mut [u8], place: usize, digest: &Digest) -> usize
    requires room { place + 32 ≤ length area.old }
    ensures bytes { take result area.new ≡ take place area.old ++ digest.now.0 }
    ensures next { result ≡ place + 32 }
    ensures len { length area.new ≡ length area.old }
{
    digest.limits_hold();
    write_at(area, place, &digest.0)
}

fn write_signature(area: &mut [u8], place: usize, signature: &Signature) -> usize
    requires room { place + 64 ≤ length area.old }
    ensures bytes { take result area.new ≡ take place area.old ++ signature.now.0 }
    ensures next { result ≡ place + 64 }
    ensures len { length area.new ≡ length area.old }
{
    signature.limits_hold();
    write_at(area, place, &signature.0)
}

fn write_batch_reference(area: &mut [u8], place: usize, batch: &BatchReference) -> usize
    requires room { place + 34 ≤ length area.old }
    ensures bytes { take result area.new ≡ take place area.old ++ batch_reference_bytes batch.now }
    ensures next { result ≡ place + 34 }
    ensures len { length area.new ≡ length area.old }
{
    let next = write_digest(area, place, &batch.digest);
    write_at(area, next, &two_bytes(batch.worker))
}

fn write_batches(area: &mut [u8], place: usize, batches: &BatchReferences) -> usize
    requires room { place + (2 + 34 * length batches.now) ≤ length area.old }
    ensures bytes { take result area.new ≡ take place area.old ++ batches_bytes batches.now }
    ensures next { result ≡ place + (2 + 34 * length batches.now) }
    ensures len { length area.new ≡ length area.old }
{
    let list = batches.as_slice();
    let mut next = write_at(area, place, &two_bytes(list.len() as u16));
    for batch in list {
        next = write_batch_reference(area, next, batch);
    }
    next
}

fn write_parent_reference(area: &mut [u8], place: usize, parent: &ParentReference) -> usize
    requires room { place + 34 ≤ length area.old }
    ensures bytes { take result area.new ≡ take place area.old ++ parent_reference_bytes parent.now }
    ensures next { result ≡ place + 34 }
    ensures len { length area.new ≡ length area.old }
{
    let next = write_at(area, place, &two_bytes(parent.author.0));
    write_digest(area, next, &parent.certificate)
}

fn write_parents(area: &mut [u8], place: usize, parents: &ParentReferences) -> usize
    requires room { place + (2 + 34 * length parents.now) ≤ length area.old }
    ensures bytes { take result area.new ≡ take place area.old ++ parents_bytes parents.now }
    ensures next { result ≡ place + (2 + 34 * length parents.now) }
    ensures len { length area.new ≡ length area.old }
{
    let list = parents.as_slice();
    let mut next = write_at(area, place, &two_bytes(list.len() as u16));
    for parent in list {
        next = write_parent_reference(area, next, parent);
    }
    next
}

fn write_vote_entry(area: &mut [u8], place: usize, entry: &VoteEntry) -> usize
    requires room { place + 66 ≤ length area.old }
    ensures bytes { take result area.new ≡ take place area.old ++ vote_entry_bytes entry.now }
    ensures next { result ≡ place + 66 }
    ensures len { length area.new ≡ length area.old }
{
    let next = write_at(area, place, &two_bytes(entry.voter.0));
    write_signature(area, next, &entry.signature)
}

fn write_votes(area: &mut [u8], place: usize, votes: &VoteEntries) -> usize
    requires room { place + (2 + 66 * length votes.now) ≤ length area.old }
    ensures bytes { take result area.new ≡ take place area.old ++ votes_bytes votes.now }
    ensures next { result ≡ place + (2 + 66 * length votes.now) }
    ensures len { length area.new ≡ length area.old }
{
    let list = votes.as_slice();
    let mut next = write_at(area, place, &two_bytes(list.len() as u16));
    for vote in list {
        next = write_vote_entry(area, next, vote);
    }
    next
}

// Writes a message's tag, and the body of a header after it.
fn write_header_body(area: &mut [u8], place: usize, tag: u8, header: &HeaderBody) -> usize
    requires room { place + (1 + header_body_len header.now) ≤ length area.old }
    ensures bytes { take result area.new ≡ take place area.old ++ tag ∷ header_body header.now }
    ensures next { result ≡ place + (1 + header_body_len header.now) }
    ensures len { length area.new ≡ length area.old }
{
    let author = write_at(area, place, &[tag]);
    let round = write_at(area, author, &two_bytes(header.author.0));
    let batches = write_at(area, round, &eight_bytes(header.round.number()));
    let parents = write_batches(area, batches, &header.batches);
    write_parents(area, parents, &header.parents)
}

// The bytes of an acknowledgement, with its tag.
fn ack_bytes(ack: &BatchAck) -> [u8; ACK_BYTES]
    ensures { result ≡ encoding (Message.BatchAck ack.now) }
{
    let mut bytes = [ACK_TAG; ACK_BYTES];
    bytes[1..3].copy_from_slice(&two_bytes(ack.author.0));
    bytes[3..].copy_from_slice(&ack.batch.0);
    bytes
}

pub(crate) fn put_ack(out: &mut Vec<u8>, ack: &BatchAck) -> Result<(), AllocError>
    ensures bytes { OnOk result (out.new.items ≡ out.old.items ++ encoding (Message.BatchAck ack.now)) }
    ensures len { OnOk result (length out.new.items ≡ length out.old.items + 35) }
    ensures fits { OnOk result (IsAck ack.now) }
    ensures kept { Keeps out.old.items out.new.items }
{
    ack.limits_hold();
    put_bytes(out, &ack_bytes(ack))
}

fn write_header(area: &mut [u8], place: usize, header: &Header) -> usize
    requires room { place + length_of (Message.Header header.now) ≤ length area.old }
    ensures bytes { take result area.new ≡ take place area.old ++ encoding (Message.Header header.now) }
    ensures next { result ≡ place + length_of (Message.Header header.now) }
    ensures len { length area.new ≡ length area.old }
{
    let next = write_header_body(area, place, HEADER_TAG, &header.body);
    write_signature(area, next, &header.signature)
}

pub(crate) fn put_header(out: &mut Vec<u8>, header: &Header) -> Result<(), AllocError>
    ensures bytes { OnOk result (out.new.items ≡ out.old.items ++ encoding (Message.Header header.now)) }
    ensures len { OnOk result (length out.new.items ≡ length out.old.items + length_of (Message.Header header.now)) }
    ensures limit { OnOk result (length_of (Message.Header header.now) ≤ 1 + (14 + 34 * (MAX_BATCHES + MAX_PARENTS) + 64)) }
    ensures fits { OnOk result (IsHeader header.now) }
    ensures kept { Keeps out.old.items out.new.items }
{
    header.limits_hold();
    let place = lengthen(out, header_length(header))?;
    write_header(out.as_mut_slice(), place, header);
    Ok(())
}

fn write_vote(area: &mut [u8], place: usize, vote: &Vote) -> usize
    requires room { place + 109 ≤ length area.old }
    ensures bytes { take result area.new ≡ take place area.old ++ encoding (Message.Vote vote.now) }
    ensures next { result ≡ place + 109 }
    ensures len { length area.new ≡ length area.old }
{
    let header = write_at(area, place, &[VOTE_TAG]);
    let round = write_digest(area, header, &vote.header);
    let author = write_at(area, round, &eight_bytes(vote.round.number()));
    let voter = write_at(area, author, &two_bytes(vote.author.0));
    let signature = write_at(area, voter, &two_bytes(vote.voter.0));
    write_signature(area, signature, &vote.signature)
}

pub(crate) fn put_vote(out: &mut Vec<u8>, vote: &Vote) -> Result<(), AllocError>
    ensures bytes { OnOk result (out.new.items ≡ out.old.items ++ encoding (Message.Vote vote.now)) }
    ensures len { OnOk result (length out.new.items ≡ length out.old.items + 109) }
    ensures fits { OnOk result (IsVote vote.now) }
    ensures kept { Keeps out.old.items out.new.items }
{
    vote.limits_hold();
    let place = lengthen(out, VOTE_BYTES)?;
    write_vote(out.as_mut_slice(), place, vote);
    Ok(())
}

fn write_certificate(area: &mut [u8], place: usize, certificate: &Certificate) -> usize
    requires room { place + length_of (Message.Certificate certificate.now) ≤ length area.old }
    ensures bytes { take result area.new ≡ take place area.old ++ encoding (Message.Certificate certificate.now) }
    ensures next { result ≡ place + length_of (Message.Certificate certificate.now) }
    ensures len { length area.new ≡ length area.old }
{
    let next = write_header_body(area, place, CERTIFICATE_TAG, &certificate.header);
    write_votes(area, next, &certificate.votes)
}

pub(crate) fn put_certificate(
    out: &mut Vec<u8>,
    certificate: &Certificate,
) -> Result<(), AllocError>
    ensures bytes { OnOk result (out.new.items ≡ out.old.items ++ encoding (Message.Certificate certificate.now)) }
    ensures len { OnOk result (length out.new.items ≡ length out.old.items + length_of (Message.Certificate certificate.now)) }
    ensures limit { OnOk result (length_of (Message.Certificate certificate.now) ≤ 1 + (14 + 34 * (MAX_BATCHES + MAX_PARENTS) + (2 + 66 * MAX_VOTES))) }
    ensures fits { OnOk result (IsCertificate certificate.now) }
    ensures kept { Keeps out.old.items out.new.items }
{
    certificate.limits_hold();
    let place = lengthen(out, certificate_length(certificate))?;
    write_certificate(out.as_mut_slice(), place, certificate);
    Ok(())
}

// The bytes of a coin, with its tag.
fn coin_bytes(coin: &Coin) -> [u8; COIN_BYTES]
    ensures { result ≡ encoding (Message.Coin coin.now) }
{
    let mut bytes = [COIN_TAG; COIN_BYTES];
    bytes[1..9].copy_from_slice(&eight_bytes(coin.wave.number()));
    bytes[9..].copy_from_slice(&eight_bytes(coin.value));
    bytes
}

fn put_coin(out: &mut Vec<u8>, coin: &Coin) -> Result<(), AllocError>
    ensures bytes { OnOk result (out.new.items ≡ out.old.items ++ encoding (Message.Coin coin.now)) }
    ensures len { OnOk result (length out.new.items ≡ length out.old.items + 17) }
    ensures kept { Keeps out.old.items out.new.items }
{
    put_bytes(out, &coin_bytes(coin))
}

// The length of a header's body, in bytes.
fn header_body_length(header: &HeaderBody) -> usize
    ensures len { result ≡ header_body_len header.now }
    ensures limit { result ≤ 14 + 34 * (MAX_BATCHES + MAX_PARENTS) }
{
    HEADER_FRONT_BYTES + REFERENCE_BYTES * (header.batches.len() + header.parents.len())
}

// The length of a batch message, in bytes.
pub(crate) fn batch_length(batch: &Batch) -> usize
    ensures len { result ≡ length_of (Message.Batch batch.now) }
    ensures encoded { result ≡ length (encoding (Message.Batch batch.now)) }
    ensures limit { result ≤ 1 + MAX_BATCH_BYTES }
{
    1 + batch.body().len()
}

// The length of a header message, in bytes.
pub(crate) fn header_length(header: &Header) -> usize
    ensures len { result ≡ length_of (Message.Header header.now) }
    ensures limit { result ≤ 1 + (14 + 34 * (MAX_BATCHES + MAX_PARENTS) + 64) }
{
    1 + (header_body_length(&header.body) + SIGNATURE_BYTES)
}

// The length of a certificate message, in bytes.
pub(crate) fn certificate_length(certificate: &Certificate) -> usize
    ensures len { result ≡ length_of (Message.Certificate certificate.now) }
    ensures limit { result ≤ 1 + (14 + 34 * (MAX_BATCHES + MAX_PARENTS) + (2 + 66 * MAX_VOTES)) }
{
    let votes = COUNT_BYTES + VOTE_ENTRY_BYTES * certificate.votes.len();
    1 + (header_body_length(&certificate.header) + votes)
}

/// The length of a message's encoding with its tag, in bytes.
pub fn encoded_len(message: &Message) -> usize
    ensures len { result ≡ length (encoding message.now) }
    // Each message fits a frame, together with its sender.
    ensures limit { result ≤ 1 + MAX_BATCH_BYTES }
{
    message.limits_hold();
    match message {
        Message::Batch(batch) => batch_length(batch),
        Message::BatchAck(_) => ACK_BYTES,
        Message::Header(header) => header_length(header),
        Message::Vote(_) => VOTE_BYTES,
        Message::Certificate(certificate) => certificate_length(certificate),
        Message::Coin(_) => COIN_BYTES,
    }
}

/// Adds the encoding of a message to a buffer. On `AllocError` an allocation failed, and part of the encoding may have been added.
#[tactic(auto, using(crate::proofs::Joining::rest_at_refusal))]
pub fn encode_onto(out: &mut Vec<u8>, message: &Message) -> Result<(), AllocError>
    ensures bytes { OnOk result (out.new.items ≡ out.old.items ++ encoding message.now) }
    ensures message { OnOk result (IsMessage message.now) }
    ensures len { OnOk result (length out.new.items ≡ length out.old.items + length_of message.now) }
    // Each message fits a frame, together with its sender.
    ensures limit { OnOk result (length_of message.now ≤ 1 + MAX_BATCH_BYTES) }
    ensures kept { OnErr result ((rest : List ℕ) × (out.new.items ≡ out.old.items ++ rest)) }
{
    message.limits_hold();
    match message {
        Message::Batch(batch) => put_batch(out, batch),
        Message::BatchAck(ack) => put_ack(out, ack),
        Message::Header(header) => put_header(out, header),
        Message::Vote(vote) => put_vote(out, vote),
        Message::Certificate(certificate) => put_certificate(out, certificate),
        Message::Coin(coin) => put_coin(out, coin),
    }
}

/// The encoding of a message. On `AllocError` an allocation failed.
pub fn encode(alloc: Global, message: &Message) -> Result<Vec<u8>, AllocError>
    ensures encoding { IfOk result (λ bytes. Spells message.now bytes.items) }
    ensures len { IfOk result (λ bytes. length bytes.items ≡ length_of message.now) }
    // Each message fits a frame, together with its sender.
    ensures limit { IfOk result (λ bytes. length bytes.items ≤ 1 + MAX_BATCH_BYTES) }
{
    let mut out = Vec::with_capacity(alloc, encoded_len(message))?;
    encode_onto(&mut out, message)?;
    Ok(out)
}
