//! How the tables answer votes on the validator's own headers.

ghost use Rattle.std.specs.Prelude.{◌≡◌, true, false, IfOk, OnOk, OnErr};
ghost use Rattle.wire.specs.declared.message.Message.TheVariants as message;
ghost use Rattle.dag.specs.Graph.{slots_in};
ghost use Rattle.admission.specs.Headers.{answer_in};
ghost use Rattle.certify.specs.declared.added.Added.TheVariants as added;
ghost use Rattle.admission.specs.Answers.{is_new_step};
ghost use Rattle.admission.specs.Decisions.{certified_decision, open_decision, is_on_own, vote_decision, known_outputs};
ghost use Rattle.admission.specs.Standing.{IsNew, MeetSome, MeetNew, Answers, Refuses, GoOn, PutsOut, always};

use crate::assemblies::{vote_comes, votes_agree};
use crate::step::Step;
use crate::tables::Tables;
use crate::tables::answer::{Answer, is_new, known_step, new_step};
use crate::tables::certificates::hold_certificate;
use crate::tables::facts::others_stay;
use crate::tables::headers::alone;
use certify::Added;
use header::{Outputs, Refusal};
use std::alloc::{AllocError, Global};
use wire::{Certificate, Output, Vote, certificate_digest, header_digest};

// The decision about a vote, where the own slot of its round holds this certificate: Known if it is of the header that the vote is for.
fn certified_decision(held: &Certificate, vote: &Vote) -> Result<Answer, Refusal>
    ensures { result ≡ certified_decision held.now vote.now }
{
    if header_digest(&held.header) == vote.header {
        return Ok(Answer::Known);
    }
    Err(Refusal::CertConflict)
}

impl<'a> Tables<'a> {
    // Whether a vote is on the own header of its round.
    fn is_on_own(&self, vote: &Vote) -> bool
        ensures { result ≡ is_on_own self.now vote.now }
    {
        match self.headers.digest(vote.round) {
            Some(digest) => *digest == vote.header,
            None => false,
        }
    }

    // The decision about a vote on the own header of its round, where the own slot of that round holds no certificate.
    fn open_decision(&self, vote: &Vote) -> Result<Answer, Refusal>
        ensures { result ≡ open_decision self.now vote.now }
    {
        if self.headers.has_voted(vote.round, vote.voter) {
            return Ok(Answer::Known);
        }
        Ok(Answer::New)
    }

    // The decision about a vote: New, Known, or the refusal.
    fn vote_decision(&self, vote: &Vote) -> Result<Answer, Refusal>
        ensures { result ≡ vote_decision self.now vote.now }
    {
        if !self.is_own(vote.author) {
            return Err(Refusal::NotOurs);
        }
        if self.sequencer.dag().is_low(vote.round) {
            return Err(Refusal::TooOld);
        }
        if !self.is_on_own(vote) {
            return Err(Refusal::NotOurs);
        }
        // A complete header's certificate stands in its slot, so that the vote is known, and no digest has to be computed.
        if self.headers.is_complete(vote.round) {
            return Ok(Answer::Known);
        }
        match self.sequencer.dag().get(vote.round, self.own) {
            Some(held) => certified_decision(held, vote),
            None => self.open_decision(vote),
        }
    }

    // The outputs for a known vote: the own certificate of its round, if it is held.
    fn known_vote(&self, alloc: Global, vote: &Vote) -> Result<Vec<Output>, AllocError>
        ensures { IfOk result (λ outputs. outputs.items ≡ known_outputs (slots_in self.now.sequencer.graph vote.now.round self.now.own.0)) }
    {
        match self.sequencer.dag().get(vote.round, self.own) {
            Some(held) => alone(alloc, Output::Certificate(held.try_clone()?)),
            None => Ok(Vec::new(alloc)),
        }
    }

    // Counts a new vote after which the votes on the header weigh less than a quorum. It gives no output.
    fn count_vote(&mut self, vote: Vote)
        requires meets { MeetNew self.old (message.Vote vote) }
        requires added { added.Counted ≡ answer_in self.old.headers vote }
        ensures at { GoOn always self.old self.new (message.Vote vote) }
        ensures seed { self.new.batches.seed ≡ self.old.batches.seed }
    {
        others_stay();
        vote_comes();
        self.headers.limits_hold();
        self.headers.count(vote, false);
    }

    // Takes a new vote that completes this certificate. The outputs are the certificate and what the order grows by.
    fn complete(
        &mut self,
        alloc: Global,
        vote: Vote,
        certificate: Certificate,
    ) -> Result<Vec<Output>, AllocError>
        requires meets { MeetNew self.old (message.Vote vote) }
        requires added { added.Complete certificate ≡ answer_in self.old.headers vote }
        ensures outputs { IfOk result (PutsOut self.old (message.Vote vote)) }
        ensures at { OnOk result (GoOn always self.old self.new (message.Vote vote)) }
        ensures err { OnErr result (self.new ≡ self.old) }
        ensures seed { self.new.batches.seed ≡ self.old.batches.seed }
    {
        others_stay();
        votes_agree();
        vote_comes();
        self.headers.limits_hold();
        sequencer::certificates_are_new();
        let before = self.floor();
        let digest = certificate_digest(&vote.header, vote.round, vote.author);
        let mut outputs = Outputs::new(alloc);
        outputs.push(Output::Certificate(certificate.try_clone()?))?;
        hold_certificate(
            &mut self.sequencer,
            alloc,
            certificate,
            digest,
            &mut outputs,
        )?;
        self.headers.count(vote, true);
        self.trim(before);
        Ok(outputs.into_vec())
    }

    // Takes a new vote, and gives the outputs.
    fn new_vote(&mut self, alloc: Global, vote: Vote) -> Result<Vec<Output>, AllocError>
        requires meets { MeetNew self.old (message.Vote vote) }
        ensures outputs { IfOk result (PutsOut self.old (message.Vote vote)) }
        ensures at { OnOk result (GoOn always self.old self.new (message.Vote vote)) }
        ensures err { OnErr result (self.new ≡ self.old) }
        ensures seed { self.new.batches.seed ≡ self.old.batches.seed }
    {
        others_stay();
        votes_agree();
        vote_comes();
        self.headers.limits_hold();
        match self.headers.answer(&vote)? {
            Added::Complete(certificate) => self.complete(alloc, vote, certificate),
            Added::Counted => {
                self.count_vote(vote);
                Ok(Vec::new(alloc))
            }
            Added::Again | Added::NotOurs => unreachable!(),
        }
    }

    /// Takes a vote on an own header.
    ///
    /// # Errors
    /// The refusal of admission, or `Memory` where an allocation failed. Neither changes anything.
    pub fn take_vote(&mut self, alloc: Global, vote: Vote) -> Result<Step, Refusal>
        requires meets { MeetSome self.old (message.Vote vote) }
        ensures answer { Answers always self.old (message.Vote vote) result }
        ensures refused { Refuses always self.old (message.Vote vote) result }
        ensures at { is_new_step result ≡ true → GoOn always self.old self.new (message.Vote vote) }
        ensures same { is_new_step result ≡ false → self.new ≡ self.old }
        ensures seed { self.new.batches.seed ≡ self.old.batches.seed }
    {
        votes_agree();
        self.headers.limits_hold();
        match self.vote_decision(&vote) {
            Ok(Answer::New) => new_step(self.new_vote(alloc, vote)),
            Ok(Answer::Known) => known_step(self.known_vote(alloc, &vote)),
            Err(refusal) => Err(refusal),
        }
    }

    /// Whether a vote would be new. The call allocates no memory.
    pub fn is_vote_new(&self, vote: &Vote) -> bool
        ensures { IsNew always self.now (message.Vote vote.now) result }
    {
        votes_agree();
        self.headers.limits_hold();
        is_new(&self.vote_decision(vote))
    }
}
