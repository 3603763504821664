//! The moves of a cluster, and how they are answered.

use desk::FlushError;
use header::CheckError;
use validator::Refusal;
use wire::{Author, Coin, Message};

/// A move of a cluster: something that is done with one of its nodes.
#[derive(Debug, Drop)]
pub enum Move {
    /// A node's output, named by the number under which the node put it out, is given to another node as a message from the first one.
    Deliver {
        node: Author,
        output: u64,
        to: Author,
    },
    /// A node gets a message as if from this sender. A node's own host names the node itself as the sender.
    Give {
        to: Author,
        sender: Author,
        message: Message,
    },
    /// A node gets a coin from its host.
    Coin {
        node: Author,
        coin: Coin,
    },
    /// A node makes one round: its pending records are written as a group, and settled.
    Flush(Author),
    /// A node's machine stops, and the node is opened again on what is left of its disk.
    Stop(Author),
}

/// What a move asks of its node.
#[derive(Debug, Drop)]
pub enum Request {
    /// The node is to check and accept a message from this sender.
    Take { sender: Author, message: Message },
    /// The node is to make one round: to write its pending records and settle them.
    Round,
    /// The node's machine is to stop, and the node to be opened again.
    Stop,
}

/// The answer to a move.
#[derive(Clone, Copy, Debug, PartialEq, Eq)]
pub enum Applied {
    /// The node accepted the event, as new or as known. The ticket is how many records it had accepted in this run by then.
    Took { ticket: u64, new: bool },
    /// The node refused the event, and nothing changed.
    Refused(Refusal),
    /// The message failed a check; this is the first check that it fails.
    Unchecked(CheckError),
    /// A round wrote and settled this many records.
    Settled(u64),
    /// A round failed, for this reason.
    Fault(FlushError),
    /// The node was opened again after a stop, on a journal with this many events.
    Reopened(u64),
}
