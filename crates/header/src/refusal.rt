//! Why an event is refused.

ghost use Rattle.std.specs.Prelude.{◌≡◌};
ghost use Rattle.header.specs.declared.refusal.Refusal.TheVariants.{Memory};

use std::alloc::{AllocError, AllocFailed};
use thiserror::Error;

/// Why a node refuses an event that passed the checks. Printed as its number and its name.
#[derive(Clone, Copy, Debug, PartialEq, Eq, Error)]
pub enum Refusal {
    /// An allocation failed.
    #[error("1 Memory")]
    Memory,
    /// The node is down: a call on its disk failed, or its journal was full.
    #[error("2 Down")]
    Down,
    /// The event's round is too old: it is 0, or at or below the garbage-collection round.
    #[error("3 TooOld")]
    TooOld,
    /// The certificate of a parent isn't there, and its round is not one that was garbage-collected.
    #[error("4 MissingParents")]
    MissingParents,
    /// A batch that the header names isn't held with the worker that it names; or, in an own header, isn't available to other members yet.
    #[error("5 MissingBatch")]
    MissingBatch,
    /// The node has voted for another header of this round and author.
    #[error("6 Equivocation")]
    Equivocation,
    /// There is a certificate of another header of this round and author.
    #[error("7 CertConflict")]
    CertConflict,
    /// Another batch or certificate is held under the same digest.
    #[error("8 DigestClash")]
    DigestClash,
    /// The node already has another own header of this round.
    #[error("9 AlreadyProposed")]
    AlreadyProposed,
    /// The vote or acknowledgement isn't for a header or batch of this node, or a message that has to come from this node doesn't.
    #[error("10 NotOurs")]
    NotOurs,
    /// The coin of an earlier wave isn't known yet.
    #[error("11 CoinOutOfTurn")]
    CoinOutOfTurn,
    /// The wave's last round doesn't have certificates of a quorum yet.
    #[error("12 CoinEarly")]
    CoinEarly,
    /// The wave has a coin with another value already.
    #[error("13 CoinConflict")]
    CoinConflict,
    /// The greatest number of batches is held, or as many events were accepted in this run as can be.
    #[error("14 StoreFull")]
    StoreFull,
}
