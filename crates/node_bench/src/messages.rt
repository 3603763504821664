//! Messages that are made once, and then decoded, encoded or checked over and over.

use crate::ending::Ending;
use crate::rounds::Rounds;
use crate::task::{Form, Task};
use committee::Committee;
use sim_script::OWN;
use std::alloc::Global;
use wire::{Author, Batch, BatchAck, MAX_TRANSACTION_BYTES, Message, OpenBatch, encode};

/// How many messages of one form are made; a benchmark uses them in turn.
pub const RING: u64 = 16;

/// The member whose batches are made.
pub const PEER: Author = Author(1);

/// The bytes that a transaction takes in a batch, its length field included.
const STRIDE: usize = 512;

/// The bytes of a batch's body before its first transaction.
const HEAD_BYTES: u64 = 8;

/// The bytes of the length field before each transaction.
const LENGTH_BYTES: usize = 4;

/// The bytes of the body of a batch whose only transaction is a number of eight bytes.
pub const SMALL_BYTES: u64 = 20;

/// The byte that fills a transaction.
const FILLING: u8 = 0xab;

/// A batch with one transaction, which holds the given number.
pub fn small_batch(alloc: Global, author: Author, number: u64) -> Result<Batch, Ending> {
    batch(alloc, author, number, SMALL_BYTES)
}

/// A batch whose body has this many bytes, or up to four less. The number stands in its transactions, so batches of different numbers
/// differ.
pub fn batch(alloc: Global, author: Author, number: u64, size: u64) -> Result<Batch, Ending> {
    let mut transaction = [FILLING; STRIDE - LENGTH_BYTES];
    transaction[..8].copy_from_slice(&number.to_be_bytes());
    let len = size.saturating_sub(HEAD_BYTES) as usize;
    // The body gets all of its memory at once: growing it would cost more, the more other bodies are kept.
    let mut open = OpenBatch::with_room(alloc, author, 0, len)?;
    for _ in 0..len / STRIDE {
        push(&mut open, &transaction)?;
    }
    // The last transaction fills the rest of the length, if that is long enough for a transaction.
    let rest = len % STRIDE;
    if rest > LENGTH_BYTES {
        push(&mut open, &transaction[..rest - LENGTH_BYTES])?;
    }
    Ok(open.close()?)
}

fn push(open: &mut OpenBatch, transaction: &[u8]) -> Result<(), Ending> {
    let len = transaction.len();
    if len > MAX_TRANSACTION_BYTES || !open.has_room(len) {
        return Err(Ending::Refused);
    }
    open.push(transaction)?;
    Ok(())
}

/// A message with its sender and its bytes.
#[derive(Drop)]
pub struct Made {
    /// The member who sends the message.
    pub sender: Author,
    /// The message, signed if it is of a kind that has signatures.
    pub message: Message,
    /// The message's encoding.
    pub bytes: Vec<u8>,
}

/// Messages of one form, no two alike, sent by members of this committee.
pub fn ring_of(task: Task, form: Form, committee: &Committee) -> Result<Vec<Made>, Ending> {
    let mut rounds = Rounds::new(task.alloc, committee, true)?;
    let mut ring = Vec::new(task.alloc);
    for number in 0..RING {
        ring.push(make(task, form, &rounds, number)?)?;
        rounds.raise();
    }
    Ok(ring)
}

fn make(task: Task, form: Form, rounds: &Rounds, number: u64) -> Result<Made, Ending> {
    let author = Author((number % u64::from(rounds.members.max(1))) as u16);
    let (sender, message) = match form {
        Form::Header => (author, Message::Header(rounds.header(author)?)),
        Form::Certificate => (author, Message::Certificate(rounds.certificate(author)?)),
        Form::Batch => (
            PEER,
            Message::Batch(batch(task.alloc, PEER, number, task.size)?),
        ),
        Form::Vote => (author, Message::Vote(rounds.vote(author)?)),
        Form::Ack => (
            author,
            Message::BatchAck(BatchAck {
                author,
                batch: rounds.digest(author)?,
            }),
        ),
        Form::Coin => (OWN, Message::Coin(rounds.coin_of_round()?)),
    };
    let bytes = encode(task.alloc, &message)?;
    Ok(Made {
        sender,
        message,
        bytes,
    })
}
