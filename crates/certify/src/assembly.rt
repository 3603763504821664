//! The votes on one header, until they make a certificate.

ghost use Rattle.std.specs.Prelude.{◌≡◌, ℕ, ◌<◌, ◌≤◌, ◌||◌, ◌==◌, All, length, slice_get, Some, IsTrue, IfOk, OnErr};
ghost use Rattle.certify.specs.Assembled.{IsAssembled, is_on, has_voted, started, restored, votes_in, with_entries, with_entry};
ghost use Rattle.certify.specs.Answer.{is_ours, answer, after, completion_of};
ghost use Rattle.committee.specs.Sets.{has};
ghost use Rattle.committee.specs.declared.members.TheConstants.{MAX_MEMBERS};
ghost use Rattle.wire.specs.Digests.{header_digest_of};

use crate::added::Added;
use crate::certificate::{certificate_with, no_votes, nth_vote};
use committee::{Committee, MemberSet};
use std::alloc::{AllocError, Global};
use std::marker::Model;
use wire::{Author, Digest, Header, HeaderBody, Signature, Vote, VoteEntry};

/// The votes on one of the validator's own headers, its own vote among them, until they weigh a quorum of the committee and make a
/// certificate. Contracts see the committee, the header, for each member the signature of its vote if that counts, and whether the
/// certificate is complete.
pub struct Assembly<'a> {
    alloc: Global,
    committee: &'a Committee,
    header: Header,
    digest: Digest,
    places: Vec<Option<Signature>>,
    voters: MemberSet,
    complete: bool,
}

impl<'a> Drop for Assembly<'a> {
    fn drop(self) {
        let Assembly {
            alloc: _,
            committee: _,
            header: _,
            digest: _,
            places: _,
            voters: _,
            complete: _,
        } = self;
    }
}

impl<'a> Model for Assembly<'a> {
    ghost use Rattle.certify.specs.Assembled.{AssemblyView, IsKept};

    ghost Value = { AssemblyView };

    ghost view = { λ a. record { charter = a.committee.now; header = a.header; places = a.places.items; complete = a.complete } };

    ghost invariant = { λ a. IsKept (record { charter = a.committee.now; header = a.header; places = a.places.items; complete = a.complete }) a.digest a.voters };
}

fn is_on(body: &HeaderBody, digest: &Digest, vote: &Vote) -> bool
    requires { digest.now.0 ≡ header_digest_of body.now }
    ensures { result ≡ is_on body.now vote.now }
{
    vote.header == *digest && vote.round == body.round && vote.author == body.author
}

// Puts a vote into its voter's place.
fn put_vote(places: &mut Vec<Option<Signature>>, voters: &mut MemberSet, entry: &VoteEntry)
    requires place { entry.now.voter.0 < length places.old.items }
    requires member { entry.now.voter.0 < MAX_MEMBERS }
    ensures places { places.new.items ≡ with_entry places.old.items entry.now }
    ensures voters { (member : ℕ) → has voters.new member ≡ (has voters.old member || (member == entry.now.voter.0)) }
{
    places[entry.voter.0 as usize] = Some(entry.signature);
    voters.insert(entry.voter);
}

// Puts votes into their voters' places.
fn put_votes(places: &mut Vec<Option<Signature>>, voters: &mut MemberSet, votes: &[VoteEntry])
    requires size { length places.old.items ≤ MAX_MEMBERS }
    requires places { All (λ entry. entry.voter.0 < length places.old.items) votes.now }
    requires voters { (member : ℕ) → has voters.old member ≡ has_voted places.old.items member }
    ensures places { places.new.items ≡ with_entries places.old.items votes.now }
    ensures voters { (member : ℕ) → has voters.new member ≡ has_voted places.new.items member }
{
    for entry in votes {
        put_vote(places, voters, entry);
    }
}

impl<'a> Assembly<'a> {
    /// An assembly of the header in which only the validator's own vote counts. On `AllocError` an allocation failed.
    pub fn start(
        alloc: Global,
        committee: &'a Committee,
        header: Header,
        own: Vote,
    ) -> Result<Assembly<'a>, AllocError>
        requires ours { IsTrue (is_on header.body own) }
        requires member { own.voter.0 < length committee.now.keys }
        ensures { IfOk result (λ assembly. assembly ≡ started committee.now header own) }
    {
        committee.limits_hold();
        let mut places = no_votes(alloc, committee.size() as usize)?;
        places[own.voter.0 as usize] = Some(own.signature);
        let mut voters = MemberSet::none();
        voters.insert(own.voter);
        Ok(Assembly {
            alloc,
            committee,
            header,
            digest: own.header,
            places,
            voters,
            complete: false,
        })
    }

    /// An assembly of the header in which the validator's own vote and these votes of members count. It is complete if they weigh a quorum.
    /// On `AllocError` an allocation failed.
    pub fn restore(
        alloc: Global,
        committee: &'a Committee,
        header: Header,
        own: Vote,
        votes: Vec<VoteEntry>,
    ) -> Result<Assembly<'a>, AllocError>
        requires ours { IsTrue (is_on header.body own) }
        requires member { own.voter.0 < length committee.now.keys }
        requires members { All (λ entry. entry.voter.0 < length committee.now.keys) votes.items }
        ensures { IfOk result (λ assembly. assembly ≡ restored committee.now header own votes.items) }
    {
        committee.limits_hold();
        let mut places = no_votes(alloc, committee.size() as usize)?;
        places[own.voter.0 as usize] = Some(own.signature);
        let mut voters = MemberSet::none();
        voters.insert(own.voter);
        put_votes(&mut places, &mut voters, votes.as_slice());
        let complete = committee.quorum() <= committee.weight(&voters);
        Ok(Assembly {
            alloc,
            committee,
            header,
            digest: own.header,
            places,
            voters,
            complete,
        })
    }

    /// Counts a vote if its voter is a member, it is on the header, and the certificate isn't complete yet. If an allocation fails, nothing
    /// changes.
    pub fn add(&mut self, vote: Vote) -> Result<Added, AllocError>
        ensures answer { IfOk result (λ added. added ≡ answer self.old vote) }
        ensures after { IfOk result (λ added. self.new ≡ after added self.old vote) }
        ensures err { OnErr result (self.new ≡ self.old) }
    {
        let added = self.answer(&vote)?;
        if let Some(complete) = added.completion() {
            self.count(vote, complete);
        }
        Ok(added)
    }

    /// What `add` would answer to a vote. On `AllocError` an allocation for the certificate failed.
    pub fn answer(&self, vote: &Vote) -> Result<Added, AllocError>
        ensures { IfOk result (λ added. added ≡ answer self.now vote.now) }
    {
        if !self.is_ours(vote) {
            return Ok(Added::NotOurs);
        }
        if self.complete || self.voters.contains(vote.voter) {
            return Ok(Added::Again);
        }
        let mut voters = self.voters;
        voters.insert(vote.voter);
        if self.committee.weight(&voters) < self.committee.quorum() {
            return Ok(Added::Counted);
        }
        let certificate = certificate_with(self.alloc, &self.header.body, &self.places, vote)?;
        Ok(Added::Complete(certificate))
    }

    // Whether the voter of a vote is a member, and the vote is on the header.
    fn is_ours(&self, vote: &Vote) -> bool
        ensures { result ≡ is_ours self.now vote.now }
    {
        vote.voter.0 < self.committee.size() && is_on(&self.header.body, &self.digest, vote)
    }

    /// Counts a vote for which `answer` said so. The call allocates no memory.
    pub fn count(&mut self, vote: Vote, complete: bool)
        // `complete` says whether the vote completes the certificate.
        requires { completion_of (answer self.old vote) ≡ Some complete }
        ensures { self.new ≡ after (answer self.old vote) self.old vote }
    {
        self.places[vote.voter.0 as usize] = Some(vote.signature);
        self.voters.insert(vote.voter);
        self.complete = complete;
    }

    /// The header that the votes are on.
    pub fn header(&self) -> &Header
        ensures { result.now ≡ self.now.header }
    {
        &self.header
    }

    /// The digest of the header that the votes are on.
    pub fn digest(&self) -> &Digest
        ensures { result.now.0 ≡ header_digest_of self.now.header.body }
    {
        &self.digest
    }

    /// Whether the vote of this member counts.
    pub fn voted(&self, voter: Author) -> bool
        ensures { result ≡ has_voted self.now.places voter.0 }
    {
        self.voters.contains(voter)
    }

    /// Of the votes that count, sorted by voter, the one at this place, from 0 on. None if there are fewer.
    pub fn nth(&self, place: usize) -> Option<VoteEntry>
        ensures { result ≡ slice_get (votes_in self.now.places) place }
    {
        self.limits_hold();
        nth_vote(self.places.as_slice(), place)
    }

    /// Whether the votes that count weigh a quorum, so that they have made a certificate.
    pub fn is_complete(&self) -> bool
        ensures { result ≡ self.now.complete }
    {
        self.complete
    }

    /// A law of each assembly: its committee is sound, there is a place for each member, and it is complete if and only if the votes that
    /// count weigh a quorum. The call does nothing.
    pub fn limits_hold(&self)
        ensures { IsAssembled self.now }
    {
        let _ = &self.header;
    }
}
