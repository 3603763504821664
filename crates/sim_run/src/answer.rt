//! The answers of the simulated node to the commands of a script.

use header::CheckError;
use node::{FlushError, Refusal};
use wire::{Digest, Output, WireError};

/// The answer to a command of a script.
#[derive(Drop)]
pub enum Answer {
    /// No line is printed for the command.
    Nothing,
    /// The event is new; this is its ticket: how many records have to be settled before its outputs may leave.
    New(u64),
    /// The event was accepted before; this is its ticket.
    Known(u64),
    /// The message can't be decoded.
    Unread(WireError),
    /// The message fails a check.
    Unchecked(CheckError),
    /// The node refuses the event, or a reading of the order.
    Refused(Refusal),
    /// A round settled this many records.
    Settled(u64),
    /// The journal was rewritten to a checkpoint of this generation.
    Generation(u64),
    /// A round or a checkpoint failed.
    Fault(FlushError),
    /// There is no output that may leave.
    OutNone,
    /// An output has left the node: this one.
    Out(Output),
    /// The order that the settled records lead to: the digests of its certificates.
    Order(Vec<Digest>),
    /// The node's round after all accepted records.
    Round(u64),
    /// The digest of the header that the node voted for in a round and author; None if it has not voted there.
    Voted(Option<Digest>),
    /// How many records were accepted, or how many of them are settled.
    Count(u64),
    /// The node was opened again after a stop, on a journal with this many records of events.
    Reopened(u64),
}
