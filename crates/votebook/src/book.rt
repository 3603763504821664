//! The votes of a validator, by round and author.

ghost use Rattle.std.specs.Prelude.{◌≡◌, ℕ, ◌≤◌, ◌<◌, IfOk, OnErr, slice_get};
ghost use Rattle.std.specs.FinMap as map;
ghost use Rattle.std.specs.List.Sorted.{IsStrictlySortedBy};
ghost use Rattle.std.specs.Map.{keys_of};
ghost use Rattle.votebook.specs.Slot.{slot_cmp, slot_of as spec_slot};
ghost use Rattle.votebook.specs.Votes.{Answers, voted_in, votes_after, ForgetsTo};

use crate::slot::Slot;
use std::alloc::{AllocError, Global};
use std::collections::BTreeMap;
use std::marker::Model;
use wire::{Author, Digest, Round};

/// The answer to a header that asks for the validator's vote.
#[derive(Clone, Copy, Debug, PartialEq, Eq)]
pub enum Voted {
    /// There was no vote for this round and author; now this header has it.
    New,
    /// The node has voted for this header before.
    Again,
    /// Another header of this round and author has the vote.
    Equivocation,
}

/// The votes of a validator. Contracts see a finite map from slots (a round and an author) to the digests of headers.
pub struct VoteBook {
    votes: BTreeMap<Slot, Digest>,
}

impl Drop for VoteBook {
    fn drop(self) {
        let VoteBook { votes: _ } = self;
    }
}

impl Model for VoteBook {
    ghost use Rattle.std.specs.FinMap as map;
    ghost use Rattle.wire.specs.declared.keys.Digest.{Digest};
    ghost use Rattle.votebook.specs.Slot.{slot_cmp, coded_slot, coded_digest};

    ghost Value = { map.FinMap slot_cmp Digest };

    ghost coded = { map.code coded_slot coded_digest };

    ghost view = { λ b. map.from_entries b.votes.entries };
}

impl VoteBook {
    /// A book with no votes.
    pub fn new(alloc: Global) -> VoteBook
        ensures { result ≡ map.empty }
    {
        VoteBook {
            votes: BTreeMap::new(alloc),
        }
    }

    /// The book with these votes, which are strictly ascending by round and then by author. On `AllocError` an allocation failed.
    pub fn restore(alloc: Global, votes: Vec<(Slot, Digest)>) -> Result<VoteBook, AllocError>
        requires rising { IsStrictlySortedBy slot_cmp (keys_of votes.items) }
        ensures { IfOk result (λ book. map.entries book ≡ votes.items) }
    {
        let votes = votes.into_iter().collect(alloc)?;
        Ok(VoteBook { votes })
    }

    /// The vote at this place, counted from 0 in the order of rounds and then authors. None if there are fewer votes. The call takes time
    /// in proportion to the place.
    pub fn nth(&self, place: usize) -> Option<(Slot, Digest)>
        ensures { result ≡ slice_get (map.entries self.now) place }
    {
        let (slot, header) = self.votes.iter().nth(place)?;
        Some((*slot, *header))
    }

    /// The digest of the header of this round and author that was voted for, if any was.
    pub fn voted(&self, author: Author, round: Round) -> Option<Digest>
        ensures { result ≡ voted_in self.now author round }
    {
        self.votes.get(&slot_of(author, round)).copied()
    }

    /// Asks for the vote for this round and author, for a header. The book changes only if the answer is `New`: it has this vote then.
    pub fn vote(
        &mut self,
        author: Author,
        round: Round,
        header: Digest,
    ) -> Result<Voted, AllocError>
        ensures answer { IfOk result (Answers (voted_in self.old author round) header) }
        ensures votes { IfOk result (λ voted. self.new ≡ votes_after voted self.old author round header) }
        ensures err { OnErr result (self.new ≡ self.old) }
    {
        match self.voted(author, round) {
            None => {
                self.votes.insert(slot_of(author, round), header)?;
                Ok(Voted::New)
            }
            Some(other) if other == header => Ok(Voted::Again),
            Some(_) => Ok(Voted::Equivocation),
        }
    }

    /// Drops the votes of this round and of lower rounds.
    pub fn forget_to(&mut self, round: Round)
        ensures { ForgetsTo round self.old self.new }
    {
        let last = round.number();
        while let Some((slot, _)) = self.votes.first_key_value() {
            if slot.round > last {
                return;
            }
            self.votes.pop_first();
        }
    }
}

fn slot_of(author: Author, round: Round) -> Slot
    ensures { result ≡ spec_slot author round }
{
    Slot {
        round: round.number(),
        author: author.0,
    }
}
