//! What the body of a frame asks of a node.

ghost use Rattle.std.specs.Prelude.{◌≡◌, ◌≢◌, Err, IsErrOf};
ghost use Rattle.std.specs.Int.{w16};
ghost use Rattle.wire.specs.Reading.{Gives, number_at};
ghost use Rattle.node_io.specs.Requests.{asked_in, transaction_in, seal_in, shown, BringsMessage};

use std::alloc::Global;
use wire::{Author, MAX_TRANSACTION_BYTES, Message, WireError};
use wire_read::decode;

/// The sender's number in frames that bring transactions of the host. No member has this number.
pub const TRANSACTIONS: u16 = 0xffff;

/// The sender's number in frames that ask to close a batch. No member has this number.
pub const SEALS: u16 = 0xfffe;

/// What the body of a frame asks of a node.
#[derive(Drop)]
pub enum Request<'f> {
    /// To add a transaction to the open batch of a worker.
    Transaction { worker: u16, bytes: &'f [u8] },
    /// To close the open batch of a worker.
    Seal { worker: u16 },
    /// To take a message from its sender.
    Message { sender: Author, message: Message },
}

// The number in the first two bytes of a body, and the bytes after it.
fn number_of(bytes: &[u8]) -> Result<(u16, &[u8]), WireError>
    ensures number { Gives (λ found. (found.0, found.1.now)) result (number_at w16 bytes.now) }
    ensures never_memory { result ≢ Err WireError.Memory }
{
    match bytes.split_first_chunk::<2>() {
        Some((number, rest)) => Ok((u16::from_be_bytes(*number), rest)),
        None => Err(WireError::Short),
    }
}

/// Reads what the body of a frame asks. `Short` if it ends within a number; `Trailing` if bytes follow the worker's number where a batch is
/// to be closed; `TooMany` if a transaction is too long; otherwise the error of decoding the message.
pub fn request_of(alloc: Global, body: &[u8]) -> Result<Request<'_>, WireError>
    ensures asked { Gives shown result (asked_in body.now) }
    ensures memory { IsErrOf result WireError.Memory → BringsMessage body.now }
{
    let (sender, rest) = number_of(body)?;
    if sender == TRANSACTIONS {
        return transaction_of(rest);
    }
    if sender == SEALS {
        return seal_of(rest);
    }
    let message = decode(alloc, rest)?;
    let sender = Author(sender);
    Ok(Request::Message { sender, message })
}

fn transaction_of(rest: &[u8]) -> Result<Request<'_>, WireError>
    ensures transaction { Gives shown result (transaction_in rest.now) }
    ensures never_memory { result ≢ Err WireError.Memory }
{
    let (worker, bytes) = number_of(rest)?;
    if bytes.len() > MAX_TRANSACTION_BYTES {
        return Err(WireError::TooMany);
    }
    Ok(Request::Transaction { worker, bytes })
}

fn seal_of(rest: &[u8]) -> Result<Request<'_>, WireError>
    ensures seal { Gives shown result (seal_in rest.now) }
    ensures never_memory { result ≢ Err WireError.Memory }
{
    let (worker, after) = number_of(rest)?;
    if !after.is_empty() {
        return Err(WireError::Trailing);
    }
    Ok(Request::Seal { worker })
}
