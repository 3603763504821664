//! Reads batches. A body is tested where it stands, before memory is allocated for it, and is copied once.

ghost use Rattle.std.specs.Prelude.{◌≡◌, ◌≤◌, ◌+◌, length, nat_le, IfOk, MatchResult};
ghost use Rattle.wire.specs.declared.limits.TheConstants.{MAX_BATCH_BYTES};
ghost use Rattle.wire.specs.Reading.{Gives, Faults, transactions_at, batch_at};
ghost use Rattle.wire_read.specs.Bodies.{transaction_after, HasTransactions, HasBody};

use crate::reader::Reader;
use std::alloc::Global;
use wire::{Author, Batch, MAX_BATCH_BYTES, MAX_TRANSACTION_BYTES, MAX_TRANSACTIONS, WireError};

/// How many bytes of a batch's body come before its transactions: author, worker and number of transactions.
const HEAD_BYTES: usize = 8;

/// The length of a transaction's length field, in bytes.
const LENGTH_BYTES: usize = 4;

// What the body of a batch says before its transactions, and how many bytes the body has.
#[derive(Clone, Copy, Debug)]
struct Body {
    author: Author,
    worker: u16,
    count: u32,
    len: usize,
}

// Whether a batch's body that has `so_far` bytes has room for one more transaction of this length.
fn has_room(so_far: usize, len: usize) -> bool
    requires { so_far ≤ MAX_BATCH_BYTES }
    ensures { result ≡ nat_le (so_far + (4 + len)) MAX_BATCH_BYTES }
{
    let room = MAX_BATCH_BYTES - so_far;
    len <= room && room - len >= LENGTH_BYTES
}

// Reads the next transaction of a body that has `so_far` bytes before it.
#[tactic(auto, unfolding(crate::specs::Bodies::transaction_after))]
fn transaction_of<'a>(reader: &mut Reader<'a>, so_far: usize) -> Result<&'a [u8], WireError>
    requires { so_far ≤ MAX_BATCH_BYTES }
    ensures reads { Gives (λ x. (x.now, reader.new)) result (transaction_after so_far reader.old) }
    ensures room { IfOk result (λ transaction. so_far + (4 + length transaction.now) ≤ MAX_BATCH_BYTES) }
{
    let len = reader.u32()? as usize;
    if len > MAX_TRANSACTION_BYTES || !has_room(so_far, len) {
        return Err(WireError::TooMany);
    }
    reader.slice(len)
}

// Reads past the transactions of a body. Returns their number, which stands before them, and the length of the body with them.
#[tactic(auto, unfolding(wire::specs::Reading::transactions_at))]
fn transactions_of(reader: &mut Reader) -> Result<(u32, usize), WireError>
    ensures { MatchResult result (λ found. HasTransactions found.0 found.1 reader.old reader.new) (λ e. Faults e (transactions_at reader.old)) }
{
    let count = reader.count_u32(MAX_TRANSACTIONS)?;
    let mut len = HEAD_BYTES;
    for _ in 0..count {
        let transaction = transaction_of(reader, len)?;
        len += LENGTH_BYTES + transaction.len();
    }
    Ok((count, len))
}

// Tests the body of a batch at the front of these bytes, where it stands.
#[tactic(auto, unfolding(wire::specs::Reading::batch_at))]
fn body_at(bytes: &[u8]) -> Result<Body, WireError>
    ensures { MatchResult result (λ body. HasBody body.author body.worker body.count body.len bytes.now) (λ e. Faults e (batch_at bytes.now)) }
{
    let mut reader = Reader::new(bytes);
    let author = reader.author()?;
    let worker = reader.u16()?;
    let (count, len) = transactions_of(&mut reader)?;
    Ok(Body {
        author,
        worker,
        count,
        len,
    })
}

/// Reads a batch: its author and worker, and its transactions with their number before them, each after its length.
///
/// # Errors
/// The first fault from left to right; `Memory` if an allocation failed.
pub fn batch_of(alloc: Global, reader: &mut Reader) -> Result<Batch, WireError>
    ensures { Gives (λ x. (x, reader.new)) result (batch_at reader.old) }
{
    let found = body_at(reader.rest())?;
    let body = reader.front(found.len);
    let batch = Batch::from_body(alloc, found.author, found.worker, found.count, body)?;
    Ok(batch)
}
