//! The events that random lists of steps bring in, by their numbers.

use crate::committees::OWN;
use crate::store::headers::{Named, body, header, vote};
use std::alloc::{AllocError, Global};
use wire::{Author, HeaderBody, Message, Round};

/// The members who send events: 1 to 6 of seven.
pub const SENDERS: u64 = 6;

/// How many kinds of messages each sender can send.
pub const KINDS: u64 = 6;

/// The kind of a message that a member sends.
#[derive(Clone, Copy)]
pub enum Kind {
    /// A header of round 1 with the genesis certificates of members 0 to 4.
    First,
    /// Another header of round 1, with the genesis certificates of members 2 to 6. A member that sends both headers equivocates.
    Second,
    /// A header of round 2, whose parents no node has.
    Orphan,
    /// A header of round 1 that names a batch that no node has.
    Batched,
    /// A header of round 0.
    Low,
    /// A vote on a header of this node. The node has made no header, so it refuses the vote.
    Vote,
}

/// The sender of the event with this number.
pub fn sender_of(number: u64) -> Author {
    Author((number % SENDERS) as u16 + 1)
}

/// The kind of message in the event with this number.
pub fn kind_of(number: u64) -> Kind {
    match number / SENDERS {
        0 => Kind::First,
        1 => Kind::Second,
        2 => Kind::Orphan,
        3 => Kind::Batched,
        4 => Kind::Low,
        _ => Kind::Vote,
    }
}

/// The message in the event with this number.
pub fn message_of(alloc: Global, number: u64) -> Result<Message, AllocError> {
    let (author, kind) = (sender_of(number), kind_of(number));
    if matches!(kind, Kind::Vote) {
        return Ok(vote(author, OWN, round_of(kind)?));
    }
    Ok(header(body_of(alloc, author, kind)?))
}

/// The body of this member's header of this kind.
pub fn body_of(alloc: Global, author: Author, kind: Kind) -> Result<HeaderBody, AllocError> {
    let named = match kind {
        Kind::Batched => Named::Batch,
        _ => Named::Genesis,
    };
    let members = match kind {
        Kind::Second => [2, 3, 4, 5, 6],
        _ => [0, 1, 2, 3, 4],
    };
    body(alloc, named, author, round_of(kind)?, &members)
}

fn round_of(kind: Kind) -> Result<Round, AllocError> {
    let number = match kind {
        Kind::Orphan => 2,
        Kind::Low => 0,
        _ => 1,
    };
    match Round::new(number) {
        Ok(round) => Ok(round),
        Err(_) => Err(AllocError),
    }
}
