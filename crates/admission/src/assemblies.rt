//! The table of a validator's own headers, with the votes on them.

mod facts;

ghost use Rattle.std.specs.Prelude.{◌≡◌, ◌<◌, length, map, slice_get, Some, None, IsTrue, IfOk, OnOk, OnErr, option_copied};
ghost use Rattle.certify.specs.Answer.{completion_of};
ghost use Rattle.certify.specs.Assembled.{is_on, started, restored};
ghost use Rattle.admission.specs.Headers.{empty, assembly_at, header_in, digest_in, has_voted_in, is_complete_in, IsHeaders, answer_in, counted_in, IsWith, IsForgotten};
ghost use Rattle.admission.specs.Kept.{IsVotedBy, AreVotedBy, IsSameTable, table_of};

use crate::kept::VotedHeader;
use certify::{Added, Assembly};
use committee::Committee;
pub use facts::votes_agree;
pub(crate) use facts::{header_comes, others_come, starts_fresh, vote_comes};
use std::alloc::{AllocError, Global};
use std::collections::BTreeMap;
use std::marker::Model;
use wire::{Author, Digest, Header, Round, Vote, VoteEntry};

/// A validator's own headers, by round, each with the counted votes on it. Contracts see the committee, the validator's number, and for
/// each round that has an own header its assembly: the header with its votes.
pub struct Assemblies<'a> {
    committee: &'a Committee,
    own: Author,
    rounds: BTreeMap<u64, Assembly<'a>>,
}

impl<'a> Drop for Assemblies<'a> {
    fn drop(self) {
        let Assemblies {
            committee: _,
            own: _,
            rounds: _,
        } = self;
    }
}

impl<'a> Model for Assemblies<'a> {
    ghost use Rattle.admission.specs.Headers.{AssembliesView, IsHeaders};

    ghost Value = { AssembliesView };

    ghost view = { λ a. record { charter = a.committee.now; own = a.own.0; rounds = a.rounds.entries } };

    ghost invariant = { λ a. IsHeaders (record { charter = a.committee.now; own = a.own.0; rounds = a.rounds.entries }) };
}

impl<'a> Assemblies<'a> {
    /// A table with no header, for this member of the committee.
    pub fn new(alloc: Global, committee: &'a Committee, own: Author) -> Assemblies<'a>
        requires { own.0 < length committee.now.keys }
        ensures { result ≡ empty committee.now own.0 }
    {
        committee.limits_hold();
        Assemblies {
            committee,
            own,
            rounds: BTreeMap::new(alloc),
        }
    }

    /// A table with these own headers of this member of the committee, which are sorted by round. On `AllocError` an allocation failed.
    pub fn restore(
        alloc: Global,
        committee: &'a Committee,
        own: Author,
        headers: Vec<VotedHeader>,
    ) -> Result<Assemblies<'a>, AllocError>
        requires member { own.0 < length committee.now.keys }
        requires headers { AreVotedBy committee.now own.0 headers.items }
        ensures { IfOk result (λ made. IsSameTable made (table_of committee.now own.0 headers.items)) }
    {
        let mut made = Assemblies::new(alloc, committee, own);
        for VotedHeader {
            header,
            vote,
            votes,
        } in headers {
            made.bring(alloc, header, vote, votes)?;
        }
        Ok(made)
    }

    // Adds an own header with the validator's own vote and these votes of other members on it. On `AllocError` an allocation failed, and
    // nothing has changed.
    fn bring(
        &mut self,
        alloc: Global,
        header: Header,
        vote: Vote,
        votes: Vec<VoteEntry>,
    ) -> Result<(), AllocError>
        requires { IsVotedBy self.old.charter self.old.own header vote votes.items }
        ensures ok { OnOk result (IsWith self.old self.new header.body.round (Some (restored self.old.charter header vote votes.items))) }
        ensures err { OnErr result (self.new ≡ self.old) }
    {
        let body = &header.body;
        let round = body.round.number();
        let committee = self.committee;
        let assembly = Assembly::restore(alloc, committee, header, vote, votes)?;
        assembly.limits_hold();
        self.rounds.insert(round, assembly)?;
        Ok(())
    }

    /// The own header at this place in the order of rounds, counted from 0, with the votes on it. None where there are fewer. The call
    /// takes time in proportion to the place.
    pub fn nth(&self, place: usize) -> Option<&Assembly<'a>>
        ensures { option_copied result ≡ slice_get (map (λ entry. entry.1) self.now.rounds) place }
    {
        match self.rounds.iter().nth(place) {
            Some((_, assembly)) => Some(assembly),
            None => None,
        }
    }

    /// The own header of a round.
    pub fn header(&self, round: Round) -> Option<&Header>
        ensures { option_copied result ≡ header_in self.now round }
    {
        match self.rounds.get(&round.number()) {
            Some(assembly) => Some(assembly.header()),
            None => None,
        }
    }

    /// The digest of the own header of a round.
    pub fn digest(&self, round: Round) -> Option<&Digest>
        ensures { option_copied result ≡ digest_in self.now round }
    {
        match self.rounds.get(&round.number()) {
            Some(assembly) => Some(assembly.digest()),
            None => None,
        }
    }

    /// Whether a member's vote on the own header of a round is counted.
    pub fn has_voted(&self, round: Round, voter: Author) -> bool
        ensures { result ≡ has_voted_in self.now round voter.0 }
    {
        match self.rounds.get(&round.number()) {
            Some(assembly) => assembly.voted(voter),
            None => false,
        }
    }

    /// Whether the votes on the own header of a round weigh a quorum, so that its certificate is complete. False where the round has no own
    /// header.
    pub(crate) fn is_complete(&self, round: Round) -> bool
        ensures { result ≡ is_complete_in self.now round }
    {
        match self.rounds.get(&round.number()) {
            Some(assembly) => assembly.is_complete(),
            None => false,
        }
    }

    /// Adds an own header with the validator's own vote on it, to a round that has none. On `AllocError` an allocation failed, and nothing
    /// has changed.
    pub fn hold(&mut self, alloc: Global, header: Header, vote: Vote) -> Result<(), AllocError>
        requires own { header.body.author.0 ≡ self.old.own }
        requires ours { IsTrue (is_on header.body vote) }
        requires voter { vote.voter.0 ≡ self.old.own }
        requires free { assembly_at self.old header.body.round ≡ None }
        ensures ok { OnOk result (IsWith self.old self.new header.body.round (Some (started self.old.charter header vote))) }
        ensures err { OnErr result (self.new ≡ self.old) }
    {
        let body = &header.body;
        let round = body.round.number();
        let committee = self.committee;
        let assembly = Assembly::start(alloc, committee, header, vote)?;
        assembly.limits_hold();
        self.rounds.insert(round, assembly)?;
        Ok(())
    }

    /// The answer to a vote, before anything is changed: whether it would be counted, and the certificate that it would complete. On
    /// `AllocError` an allocation for the certificate failed.
    pub fn answer(&self, vote: &Vote) -> Result<Added, AllocError>
        ensures { IfOk result (λ added. added ≡ answer_in self.now vote.now) }
    {
        match self.rounds.get(&vote.round.number()) {
            Some(assembly) => assembly.answer(vote),
            None => Ok(Added::NotOurs),
        }
    }

    /// Counts a vote to which the answer was that it is counted. The flag says whether it completes the certificate. The call allocates no
    /// memory.
    pub fn count(&mut self, vote: Vote, complete: bool)
        // The flag is what the answer to the vote said.
        requires { completion_of (answer_in self.old vote) ≡ Some complete }
        ensures { IsWith self.old self.new vote.round (counted_in (answer_in self.old vote) self.old vote) }
    {
        if let Some(assembly) = self.rounds.get_mut(&vote.round.number()) {
            assembly.count(vote, complete);
            assembly.limits_hold();
        }
    }

    /// Drops the headers of all rounds up to this one. The call allocates no memory.
    pub fn forget_to(&mut self, round: Round)
        ensures { IsForgotten self.old self.new round }
    {
        let last = round.number();
        while let Some((first, _)) = self.rounds.first_key_value() {
            if *first > last {
                return;
            }
            self.rounds.pop_first();
        }
    }

    /// What holds of each table: it is sorted by round, and each of its rounds has an own header of that round with votes of members. The
    /// call does nothing.
    pub fn limits_hold(&self)
        ensures { IsHeaders self.now }
    {
        let _ = &self.own;
    }
}
