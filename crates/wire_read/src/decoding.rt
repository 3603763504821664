//! Decoding whole messages.

ghost use Rattle.std.specs.Prelude.{◌≡◌, ◌≢◌, ◌<◌, ◌++◌, ◌↔◌, List, ℕ, length, IfOk, IsOk, Ok, Err};
ghost use Rattle.wire.specs.declared.error.WireError.{WireError};
ghost use Rattle.wire.specs.declared.error.WireError.TheVariants.{Short, Trailing};
ghost use Rattle.wire.specs.declared.message.Message.{Message};
ghost use Rattle.wire.specs.Grammar.{IsMessage, Spells};
ghost use Rattle.wire.specs.Encoding.{encoding};
ghost use Rattle.wire.specs.Reading.{Gives, ack_at, header_body_at, header_at, vote_at, certificate_at, coin_at, tagged_at, message_of};
ghost use Rattle.wire_read.specs.Headers.{OneBody};
ghost use Rattle.wire_read.specs.Table.{HasFault, HasNone};

use crate::lists::{batches_of, parents_of, votes_of};
use crate::reader::Reader;
use crate::transactions::batch_of;
use std::alloc::Global;
use wire::{
    ACK_TAG, BATCH_TAG, BatchAck, CERTIFICATE_TAG, COIN_TAG, Certificate, Coin, HEADER_TAG, Header,
    HeaderBody, Message, VOTE_TAG, Vote, WireError,
};

#[tactic(auto, unfolding(wire::specs::Reading::ack_at))]
fn ack_of(reader: &mut Reader) -> Result<BatchAck, WireError>
    ensures { Gives (λ x. (x, reader.new)) result (ack_at reader.old) }
{
    let author = reader.author()?;
    let batch = reader.digest()?;
    Ok(BatchAck { author, batch })
}

#[tactic(auto, unfolding(wire::specs::Reading::header_body_at))]
fn header_body_of(alloc: Global, reader: &mut Reader) -> Result<HeaderBody, WireError>
    ensures { Gives (λ x. (x, reader.new)) result (header_body_at reader.old) }
{
    let author = reader.author()?;
    let round = reader.round()?;
    let batches = batches_of(alloc, reader)?;
    let parents = parents_of(alloc, reader)?;
    Ok(HeaderBody {
        author,
        round,
        batches,
        parents,
    })
}

/// Reads a header: its body, and its signature.
///
/// # Errors
/// The first fault from left to right; `Memory` if an allocation failed.
#[tactic(auto, unfolding(wire::specs::Reading::header_at))]
pub fn header_of(alloc: Global, reader: &mut Reader) -> Result<Header, WireError>
    ensures { Gives (λ x. (x, reader.new)) result (header_at reader.old) }
{
    let body = header_body_of(alloc, reader)?;
    let signature = reader.signature()?;
    Ok(Header { body, signature })
}

#[tactic(auto, unfolding(wire::specs::Reading::vote_at))]
fn vote_of(reader: &mut Reader) -> Result<Vote, WireError>
    ensures { Gives (λ x. (x, reader.new)) result (vote_at reader.old) }
{
    let header = reader.digest()?;
    let round = reader.round()?;
    let author = reader.author()?;
    let voter = reader.author()?;
    let signature = reader.signature()?;
    Ok(Vote {
        header,
        round,
        author,
        voter,
        signature,
    })
}

/// Reads a certificate: the body of its header, and its votes with their number before them.
///
/// # Errors
/// The first fault from left to right; `Memory` if an allocation failed.
#[tactic(auto, unfolding(wire::specs::Reading::certificate_at))]
pub fn certificate_of(alloc: Global, reader: &mut Reader) -> Result<Certificate, WireError>
    ensures { Gives (λ x. (x, reader.new)) result (certificate_at reader.old) }
{
    let header = header_body_of(alloc, reader)?;
    let votes = votes_of(alloc, reader)?;
    Ok(Certificate { header, votes })
}

#[tactic(auto, unfolding(wire::specs::Reading::coin_at))]
fn coin_of(reader: &mut Reader) -> Result<Coin, WireError>
    ensures { Gives (λ x. (x, reader.new)) result (coin_at reader.old) }
{
    let wave = reader.wave()?;
    let value = reader.u64()?;
    Ok(Coin { wave, value })
}

#[tactic(auto, unfolding(wire::specs::Reading::message_of, wire::specs::Reading::tagged_at))]
fn message_in(alloc: Global, bytes: &[u8]) -> Result<Message, WireError>
    ensures { Gives (λ message. message) result (message_of bytes.now) }
{
    let Some((tag, body)) = bytes.split_first() else {
        return Err(WireError::Short);
    };
    let mut reader = Reader::new(body);
    let message = match *tag {
        BATCH_TAG => Message::Batch(batch_of(alloc, &mut reader)?),
        ACK_TAG => Message::BatchAck(ack_of(&mut reader)?),
        HEADER_TAG => Message::Header(header_of(alloc, &mut reader)?),
        VOTE_TAG => Message::Vote(vote_of(&mut reader)?),
        CERTIFICATE_TAG => Message::Certificate(certificate_of(alloc, &mut reader)?),
        COIN_TAG => Message::Coin(coin_of(&mut reader)?),
        _ => return Err(WireError::BadTag),
    };
    if !reader.rest().is_empty() {
        return Err(WireError::Trailing);
    }
    Ok(message)
}

/// The message whose encoding these bytes are. The error is the first fault from left to right, or `Memory`.
pub fn decode(alloc: Global, bytes: &[u8]) -> Result<Message, WireError>
    // After success these bytes are the encoding of the message.
    ensures found { IfOk result (λ message. Spells message bytes.now) }
    // If these bytes are the encoding of a message, that message is the result, unless an allocation fails.
    ensures only { (message : Message) → Spells message bytes.now → Gives (λ found. found) result (Ok message) }
    // If the bytes are no message's encoding, the result is the first fault that the definition of reading (`message_of`) finds, unless an
    // allocation fails.
    ensures fault { Gives (λ message. message) result (message_of bytes.now) }
{
    message_in(alloc, bytes)
}

/// A law: no encoding of a message is a prefix of another one's. If two messages, each followed by some bytes, are the same bytes, both
/// messages are equal, and so are the bytes after them.
pub fn one_encoding()
    ensures { (m n : Message) (x y : List ℕ) → IsMessage m → IsMessage n → encoding m ++ x ≡ encoding n ++ y → (m ≡ n) × (x ≡ y) }
{}

/// A law: no two different header bodies within their limits have the same encoding.
pub fn one_body()
    ensures { OneBody }
{}

/// A law: the bytes of a message with any further bytes after them are refused as `Trailing`.
pub fn what_follows_is_trailing()
    ensures { (m : Message) (rest : List ℕ) → IsMessage m → 0 < length rest → message_of (encoding m ++ rest) ≡ Err Trailing }
{}

/// A law: each proper prefix of a message's encoding is refused as `Short`.
pub fn beginnings_are_short()
    ensures { (m : Message) (bytes more : List ℕ) → IsMessage m → encoding m ≡ bytes ++ more → 0 < length more → message_of bytes ≡ Err Short }
{}

/// A law: every refusal but `Short` stays the same whatever bytes follow, since it is for the first fault from the left.
pub fn faults_stay()
    ensures { (bytes more : List ℕ) (fault : WireError) → message_of bytes ≡ Err fault → fault ≢ Short → message_of (bytes ++ more) ≡ Err fault }
{}

/// A law: decoding agrees with the table of fields, whatever the bytes. By the table, the fault is that of the first field that breaks a
/// limit, an order or a range, while every field before it passes. If no field breaks one, the bytes end within a field, go on after the
/// last one, or are a message.
pub fn faults_by_the_table()
    ensures fault { (bytes : List ℕ) (fault : WireError) → (message_of bytes ≡ Err fault) ↔ HasFault bytes fault }
    ensures none { (bytes : List ℕ) → IsOk (message_of bytes) ↔ HasNone bytes }
{}
