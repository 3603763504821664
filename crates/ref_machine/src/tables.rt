//! What a node keeps, as plain lists.

ghost use Rattle.std.specs.Prelude.{◌≡◌, IfOk};
ghost use Rattle.ref_machine.specs.Tables.{state_of};

use crate::copying::{
    acks_again, batches_again, certificates_again, digests_again, headers_again, numbers_again,
    slot_votes_again, votes_again,
};
use crate::lookups::{first_vote, is_ack, is_batch, is_of_round, is_of_slot};
use ref_order::held::Held;
use std::alloc::{AllocError, Global};
use wire::{Author, Batch, BatchAck, Certificate, Digest, Header, Round, Vote};

/// A vote of the node: the digest of the header of this round and author that it voted for.
#[derive(Clone, Copy, PartialEq, Eq)]
pub struct SlotVote {
    /// The round of the header.
    pub round: Round,
    /// The author of the header.
    pub author: Author,
    /// The digest of the header.
    pub digest: Digest,
}

/// The tables of a node, as lists. If several entries of a list fit a look-up, the first one counts.
#[derive(Drop)]
pub struct Tables {
    /// The batches, in the order in which they were accepted.
    pub batches: Vec<Batch>,
    /// The acknowledgements: who holds which own batch.
    pub acks: Vec<BatchAck>,
    /// The digests of the batches that own headers have named.
    pub named: Vec<Digest>,
    /// The votes of the node, those for own headers included.
    pub votes: Vec<SlotVote>,
    /// The own headers.
    pub own_headers: Vec<Header>,
    /// The votes on own headers that count.
    pub counted: Vec<Vote>,
    /// The certificates.
    pub certificates: Vec<Certificate>,
    /// The greatest round of any certificate so far.
    pub highest: Round,
    /// The values of the coins, that of wave 1 first.
    pub coins: Vec<u64>,
    /// The order: the digests of the ordered certificates.
    pub order: Vec<Digest>,
}

impl Tables {
    /// A copy of the tables.
    ///
    /// # Errors
    /// An allocation failed.
    pub fn try_clone(&self, alloc: Global) -> Result<Tables, AllocError>
        ensures { IfOk result (λ tables. state_of tables ≡ state_of self.now) }
    {
        Ok(Tables {
            batches: batches_again(alloc, &self.batches)?,
            acks: acks_again(alloc, &self.acks)?,
            named: digests_again(alloc, &self.named)?,
            votes: slot_votes_again(alloc, &self.votes)?,
            own_headers: headers_again(alloc, &self.own_headers)?,
            counted: votes_again(alloc, &self.counted)?,
            certificates: certificates_again(alloc, &self.certificates)?,
            highest: self.highest,
            coins: numbers_again(alloc, &self.coins)?,
            order: digests_again(alloc, &self.order)?,
        })
    }
}

impl Held for Tables {
    ghost state = { state_of };

    fn batch(&self, digest: &Digest) -> Option<&Batch> {
        self.batches.iter().find(|batch| is_batch(batch, digest))
    }

    fn batches(&self, alloc: Global) -> Result<Vec<Batch>, AllocError> {
        batches_again(alloc, &self.batches)
    }

    fn has_acked(&self, digest: &Digest, member: u16) -> bool {
        self.acks.iter().any(|ack| is_ack(ack, digest, member))
    }

    fn was_named(&self, digest: &Digest) -> bool {
        self.named.iter().any(|named| *named == *digest)
    }

    fn voted_digest(&self, round: u64, author: u16) -> Option<Digest> {
        match self
            .votes
            .iter()
            .find(|vote| is_of_slot(vote, round, author))
        {
            None => None,
            Some(vote) => Some(vote.digest),
        }
    }

    fn own_header(&self, round: u64) -> Option<&Header> {
        self.own_headers
            .iter()
            .find(|header| is_of_round(header, round))
    }

    fn counted(&self, round: u64, voter: u16) -> Option<Vote> {
        first_vote(&self.counted, round, voter)
    }

    fn certificates(&self, alloc: Global) -> Result<Vec<Certificate>, AllocError> {
        certificates_again(alloc, &self.certificates)
    }

    fn highest(&self, _alloc: Global) -> Result<u64, AllocError> {
        Ok(self.highest.number())
    }

    fn coins(&self, alloc: Global) -> Result<Vec<u64>, AllocError> {
        numbers_again(alloc, &self.coins)
    }

    fn order(&self, alloc: Global) -> Result<Vec<Digest>, AllocError> {
        digests_again(alloc, &self.order)
    }
}
