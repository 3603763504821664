//! Tests of messages, and of the outputs that carry them.

use crate::parts::words::{Reported, digest_of, list, report, show};
use std::alloc::{AllocError, Global};
use wire::{
    Author, Batch, Certificate, Digest, HeaderBody, MAX_TRANSACTION_BYTES, Message, OpenBatch,
    OrderDigests, Output, WireError, batch_digest, certificate_digest, encode, encode_onto,
    encode_output, encoded_len, header_digest,
};
use wire_read::decode;

/// Decodes a message. This function has no contract.
pub fn read(alloc: Global, bytes: &[u8]) -> Result<Message, WireError> {
    decode(alloc, bytes)
}

/// Encodes a message. This function has no contract.
pub fn written(alloc: Global, message: &Message) -> Result<Vec<u8>, AllocError> {
    encode(alloc, message)
}

/// Whether these bytes are the message's encoding, as long as the computed length, and the same if they are appended to other bytes.
pub fn is_encoded(alloc: Global, message: &Message, bytes: &[u8]) -> Result<bool, AllocError> {
    let mut twice = written(alloc, message)?;
    let is_encoded = twice.as_slice() == bytes && encoded_len(message) == bytes.len();
    encode_onto(&mut twice, message)?;
    Ok(is_encoded && twice.get(bytes.len()..).unwrap_or(&[]) == bytes)
}

/// Decodes a message and encodes it again; returns the word that says whether the bytes are the same.
pub fn encoded_again(alloc: Global, bytes: &[u8]) -> Result<&'static str, WireError> {
    let message = read(alloc, bytes)?;
    let is_same = is_encoded(alloc, &message, bytes)?;
    Ok(if is_same { "Ok" } else { "other bytes" })
}

/// Shows how many proper prefixes of a message are refused as `Short`, and the results of the others.
pub fn beginnings(alloc: Global, bytes: &[u8], answer: &mut String) -> Reported {
    let mut short: u64 = 0;
    for len in 0..bytes.len() {
        match encoded_again(alloc, bytes.get(..len).unwrap_or(&[])) {
            Err(WireError::Short) => short = short.saturating_add(1),
            other => report(other, answer)?,
        }
    }
    list("short", &[short], answer)
}

/// Shows the fields of a message, whether its lists could go on with this number, and the output that carries the message. An
/// acknowledgement is an output for the author with this number.
pub fn message(alloc: Global, number: u64, bytes: &[u8], answer: &mut String) -> Reported {
    match read(alloc, bytes) {
        Ok(message) => report_message(alloc, &message, number.min(255) as u8, answer),
        Err(error) => writeln!(answer, "{error}"),
    }
}

fn report_message(alloc: Global, message: &Message, number: u8, answer: &mut String) -> Reported {
    report_fields(message, number, answer)?;
    match output_of(message, Author(number as u16))? {
        None => Ok(()),
        Some(output) => report_output(alloc, &output, answer),
    }
}

fn output_of(message: &Message, to: Author) -> Result<Option<Output>, AllocError> {
    Ok(Some(match message {
        Message::Batch(batch) => Output::Batch(batch.share()?),
        Message::BatchAck(ack) => Output::Ack { to, ack: *ack },
        Message::Header(header) => Output::Header(header.try_clone()?),
        Message::Vote(vote) => Output::Vote(*vote),
        Message::Certificate(certificate) => Output::Certificate(certificate.try_clone()?),
        Message::Coin(_) => return Ok(None),
    }))
}

fn report_output(alloc: Global, output: &Output, answer: &mut String) -> Reported {
    show(&encode_output(alloc, output)?, answer)
}

fn report_fields(message: &Message, number: u8, answer: &mut String) -> Reported {
    match message {
        Message::Batch(batch) => report_batch(batch, answer),
        Message::BatchAck(ack) => list("acknowledgement", &[ack.author.0 as u64], answer),
        Message::Header(header) => report_body(&header.body.try_clone()?, number, answer),
        Message::Vote(vote) => {
            let (round, author, voter) = (vote.round.number(), vote.author.0, vote.voter.0);
            list("vote", &[round, author as u64, voter as u64], answer)
        }
        Message::Certificate(certificate) => report_certificate(certificate, number, answer),
        Message::Coin(coin) => list("coin", &[coin.wave.number(), coin.value], answer),
    }
}

fn report_batch(batch: &Batch, answer: &mut String) -> Reported {
    let (author, worker, len) = (batch.author().0, batch.worker(), batch.len());
    list("batch", &[author as u64, worker as u64, len as u64], answer)?;
    show(&batch_digest(batch).0, answer)
}

/// Shows a header's fields, its digest and its certificate's.
pub fn report_body(body: &HeaderBody, number: u8, answer: &mut String) -> Reported {
    let (author, round) = (body.author.0, body.round.number());
    list("header", &[author as u64, round], answer)?;
    report_lists(body, number, answer)?;
    let header = header_digest(body);
    show(&header.0, answer)?;
    let certificate = certificate_digest(&header, body.round, body.author);
    show(&certificate.0, answer)
}

fn report_lists(body: &HeaderBody, number: u8, answer: &mut String) -> Reported {
    let batches = &body.batches;
    let follows = batches.may_follow(&Digest([number; 32]));
    entries(
        "batches",
        batches.len(),
        batches.is_empty(),
        follows,
        answer,
    )?;
    let parents = &body.parents;
    let follows = parents.may_follow(Author(number as u16));
    entries(
        "parents",
        parents.len(),
        parents.is_empty(),
        follows,
        answer,
    )
}

fn report_certificate(certificate: &Certificate, number: u8, answer: &mut String) -> Reported {
    report_body(&certificate.header, number, answer)?;
    let votes = &certificate.votes;
    let (is_empty, follows) = (votes.is_empty(), votes.may_follow(Author(number as u16)));
    entries("votes", votes.len(), is_empty, follows, answer)
}

fn entries(name: &str, len: usize, is_empty: bool, follows: bool, answer: &mut String) -> Reported {
    list(name, &[len as u64, is_empty as u64, follows as u64], answer)
}

/// Adds a transaction of each of these lengths, as long as the batch has room; a transaction is the first of these bytes, as many as its
/// length says. Shows the batch and returns its message.
pub fn fill(
    mut open: OpenBatch,
    lens: &[u64],
    bytes: &[u8],
    answer: &mut String,
) -> Result<Message, AllocError> {
    for len in lens {
        push(&mut open, bytes.get(..*len as usize).unwrap_or(&[]), answer)?;
    }
    let batch = open.close()?;
    report_batch(&batch, answer)?;
    Ok(Message::Batch(batch))
}

fn push(open: &mut OpenBatch, bytes: &[u8], answer: &mut String) -> Reported {
    let (is_empty, has_room) = (open.is_empty(), open.has_room(bytes.len()));
    list("room", &[is_empty as u64, has_room as u64], answer)?;
    if has_room && bytes.len() <= MAX_TRANSACTION_BYTES {
        open.push(bytes)?;
    }
    Ok(())
}

/// Shows the piece of the order that has the digests in these bytes, as many as it has room for.
pub fn order(alloc: Global, start: u64, bytes: &[u8], answer: &mut String) -> Reported {
    let mut digests = OrderDigests::new(alloc);
    add_digests(&mut digests, bytes, answer)?;
    let (len, is_empty) = (digests.len(), digests.is_empty());
    list("order", &[len as u64, is_empty as u64], answer)?;
    report_output(alloc, &Output::Order { start, digests }, answer)
}

fn add_digests(digests: &mut OrderDigests, bytes: &[u8], answer: &mut String) -> Reported {
    for digest in bytes.chunks_exact(32) {
        if !digests.has_room() {
            return answer.push_str("no room\n");
        }
        digests.push(digest_of(digest))?;
    }
    Ok(())
}
