//! The tables of a validator.

mod answer;
mod batches;
mod certificates;
mod coins;
mod facts;
mod headers;
mod votes;

ghost use Rattle.std.specs.Prelude.{◌≡◌, ◌<◌, length, IfOk};
ghost use Rattle.spec_model.specs.Nodes.{Node};
ghost use Rattle.spec_model.specs.States.{State};
ghost use Rattle.admission.specs.Kept.{IsKept, IsKeptOf};
ghost use Rattle.spec_machine.specs.Machine.{fresh};
ghost use Rattle.votebook.specs.Votes.{ForgetsTo};
ghost use Rattle.admission.specs.Headers.{IsForgotten};
ghost use Rattle.admission.specs.Standing.{AreAt};
ghost use Rattle.admission.specs.Decisions.{voted_by};

use crate::assemblies::{Assemblies, starts_fresh};
use crate::facts::starts_empty;
use crate::kept::Kept;
use batchstore::BatchStore;
use committee::Committee;
pub use facts::{one_state, others_are_ready};
use sequencer::Sequencer;
use sigface::TableSeed;
use std::alloc::{AllocError, Global};
use votebook::VoteBook;
use wire::{Author, Digest, Round};

/// A validator's tables: the batches, the votes for other members' headers, the own headers with the votes on them, and the certificates
/// with the coins and the order.
pub struct Tables<'a> {
    pub(crate) own: Author,
    pub(crate) batches: BatchStore<'a>,
    pub(crate) votes: VoteBook,
    pub(crate) headers: Assemblies<'a>,
    pub(crate) sequencer: Sequencer<'a>,
}

impl<'a> Drop for Tables<'a> {
    fn drop(self) {
        let Tables {
            own: _,
            batches: _,
            votes: _,
            headers: _,
            sequencer: _,
        } = self;
    }
}

impl<'a> Tables<'a> {
    /// The tables of a member that has taken no event: they hold the genesis certificates. The table of batches hashes with this seed. On
    /// `AllocError` an allocation failed.
    pub fn new(
        alloc: Global,
        committee: &'a Committee,
        own: Author,
        seed: TableSeed,
    ) -> Result<Tables<'a>, AllocError>
        requires { own.0 < length committee.now.keys }
        ensures at { IfOk result (λ made. (node : Node) → node.charter ≡ committee.now → node.own ≡ own → AreAt node (fresh node) made) }
        ensures seed { IfOk result (λ made. made.batches.seed ≡ seed) }
    {
        starts_empty();
        starts_fresh();
        Ok(Tables {
            own,
            batches: BatchStore::new(alloc, committee, own, seed),
            votes: VoteBook::new(alloc),
            headers: Assemblies::new(alloc, committee, own),
            sequencer: Sequencer::new(alloc, committee)?,
        })
    }

    /// The tables of a member in the sound state that has these parts. The table of batches hashes with this seed. On `AllocError` an
    /// allocation failed.
    pub fn restore(
        alloc: Global,
        committee: &'a Committee,
        own: Author,
        seed: TableSeed,
        kept: Kept,
    ) -> Result<Tables<'a>, AllocError>
        requires { IsKept committee.now own kept }
        ensures at { IfOk result (λ made. (node : Node) (state : State) → node.charter ≡ committee.now → node.own ≡ own → IsKeptOf node state kept → AreAt node state made) }
        ensures seed { IfOk result (λ made. made.batches.seed ≡ seed) }
    {
        let Kept {
            batches,
            votes,
            headers,
            floor,
            last,
            certificates,
            coins,
            order,
        } = kept;
        Ok(Tables {
            own,
            batches: BatchStore::restore(alloc, committee, own, seed, batches)?,
            votes: VoteBook::restore(alloc, votes)?,
            headers: Assemblies::restore(alloc, committee, own, headers)?,
            sequencer: Sequencer::restore(
                alloc,
                committee,
                floor,
                last,
                certificates,
                coins,
                order,
            )?,
        })
    }

    /// The votes for other members' headers.
    pub fn votes(&self) -> &VoteBook
        ensures { result.now ≡ self.now.votes }
    {
        &self.votes
    }

    /// The store of batches.
    pub fn batches(&self) -> &BatchStore<'a>
        ensures { result.now ≡ self.now.batches }
    {
        &self.batches
    }

    /// The own headers, with the votes on them.
    pub fn headers(&self) -> &Assemblies<'a>
        ensures { result.now ≡ self.now.headers }
    {
        &self.headers
    }

    /// The certificates, the coins and the order.
    pub fn sequencer(&self) -> &Sequencer<'a>
        ensures { result.now ≡ self.now.sequencer }
    {
        &self.sequencer
    }

    /// The digest of the header that the validator voted for in this author's slot of this round. Its own header counts as voted for.
    pub fn voted(&self, author: Author, round: Round) -> Option<Digest>
        ensures { result ≡ voted_by self.now author round }
    {
        if author == self.own {
            return self.headers.digest(round).copied();
        }
        self.votes.voted(author, round)
    }

    /// The floor: the lowest round whose certificates are kept.
    pub fn floor(&self) -> Round
        ensures { result ≡ self.now.sequencer.graph.floor }
    {
        self.sequencer.dag().floor()
    }

    // Drops the votes and the own headers of rounds up to the floor, if the floor has moved since it was `before`. The call allocates no
    // memory.
    pub(crate) fn trim(&mut self, before: Round)
        // If no vote and no own header was kept of the rounds up to `before`, then none is kept of the rounds up to the present floor.
        ensures votes { ForgetsTo before self.old.votes self.old.votes → ForgetsTo self.old.sequencer.graph.floor self.old.votes self.new.votes }
        ensures headers { IsForgotten self.old.headers self.old.headers before → IsForgotten self.old.headers self.new.headers self.old.sequencer.graph.floor }
        ensures own { self.new.own ≡ self.old.own }
        ensures batches { self.new.batches ≡ self.old.batches }
        ensures sequencer { self.new.sequencer ≡ self.old.sequencer }
    {
        let floor = self.floor();
        if floor == before {
            return;
        }
        self.votes.forget_to(floor);
        self.headers.forget_to(floor);
    }
}
