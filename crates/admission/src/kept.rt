//! The parts from which a validator's tables are restored.

use batchstore::Held;
use sequencer::Coins;
use votebook::Slot;
use wire::{Author, Certificate, Digest, Header, Round, Vote, VoteEntry};

/// An own header, with the validator's own vote on it and the votes of other members.
#[derive(Drop)]
pub struct VotedHeader {
    /// The header.
    pub header: Header,
    /// The validator's own vote on the header.
    pub vote: Vote,
    /// The votes of other members on the header.
    pub votes: Vec<VoteEntry>,
}

/// All parts from which a validator's tables are restored, as a checkpoint has them.
#[derive(Drop)]
pub struct Kept {
    /// The batches in the order of acceptance, each with its digest.
    pub batches: Vec<(Digest, Held)>,
    /// The slots of other members' headers for which the validator voted, each with the header's digest, sorted by round and then author.
    pub votes: Vec<(Slot, Digest)>,
    /// The own headers with the votes on them, sorted by round.
    pub headers: Vec<VotedHeader>,
    /// The floor: the lowest round whose certificates are kept.
    pub floor: Round,
    /// The round and author of the last committed leader, if a leader is committed.
    pub last: Option<(Round, Author)>,
    /// The certificates above the genesis, each with its digest, sorted by round and then author.
    pub certificates: Vec<(Certificate, Digest)>,
    /// The values of the coins, by wave.
    pub coins: Coins,
    /// The order: the digests of the ordered certificates.
    pub order: Vec<Digest>,
}
