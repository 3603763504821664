//! A checkpoint as plain data, for the reference implementation.

use std::marker::Model;
use wire::{Batch, Certificate, Digest, Header, Round, VoteEntries};

/// A batch that the node holds.
#[derive(Drop)]
pub struct KeptBatch {
    /// Whether an own header names the batch.
    pub named: bool,
    /// The other members that acknowledged the batch, sorted by number.
    pub members: Vec<u16>,
    /// The batch itself.
    pub batch: Batch,
}

impl Model for KeptBatch {
    ghost use Rattle.spec_checkpoint.specs.Data as model;

    ghost Value = { model.KeptBatch };

    ghost view = { λ kept. record { named = kept.named; members = kept.members.items; batch = kept.batch } };
}

/// The node's vote for another author's header in a round.
#[derive(Drop)]
pub struct KeptVote {
    /// The author of the header.
    pub author: u16,
    /// The round of the header.
    pub round: Round,
    /// The digest of the header that the node voted for.
    pub header: Digest,
}

impl Model for KeptVote {
    ghost use Rattle.spec_checkpoint.specs.Data as model;

    ghost Value = { model.KeptVote };

    ghost view = { λ kept. record { author = kept.author; round = kept.round; header = kept.header } };
}

/// An own header, and the votes of other members on it that count.
#[derive(Drop)]
pub struct KeptHeader {
    /// The header.
    pub header: Header,
    /// The votes of other members that count, sorted by voter.
    pub votes: VoteEntries,
}

impl Model for KeptHeader {
    ghost use Rattle.spec_checkpoint.specs.Data as model;

    ghost Value = { model.KeptHeader };

    ghost view = { λ kept. record { header = kept.header; votes = kept.votes } };
}

/// The state of a node as plain data.
#[derive(Drop)]
pub struct Checkpoint {
    /// The order: the digests of the ordered certificates.
    pub order: Vec<Digest>,
    /// The batches, in the order in which they were accepted.
    pub batches: Vec<KeptBatch>,
    /// The votes for headers of other members, sorted by round and then by author.
    pub votes: Vec<KeptVote>,
    /// The own headers, sorted by round.
    pub headers: Vec<KeptHeader>,
    /// The certificates of rounds above 0, sorted by round and then by author.
    pub certificates: Vec<Certificate>,
    /// The values of the coins, that of wave 1 first.
    pub coins: Vec<u64>,
}

impl Model for Checkpoint {
    ghost use Rattle.spec_checkpoint.specs.Data as model;

    ghost Value = { model.Checkpoint };

    ghost view = { λ c. record { order = c.order.items; batches = c.batches.items; votes = c.votes.items; headers = c.headers.items; certificates = c.certificates.items; coins = c.coins.items } };
}
