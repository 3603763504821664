//! What a vote is for: a round and an author.

/// A slot: a round and an author, of which there is at most one header that gets the vote.
#[derive(Clone, Copy, Debug, PartialEq, Eq, PartialOrd, Ord)]
pub struct Slot {
    pub round: u64,
    pub author: u16,
}
