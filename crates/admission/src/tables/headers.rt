//! How the tables answer headers, the validator's own and those of other members.

ghost use Rattle.std.specs.Prelude.{◌≡◌, ◌∷◌, [], true, false, None, IfOk, OnOk, OnErr};
ghost use Rattle.wire.specs.declared.message.Message.TheVariants as message;
ghost use Rattle.spec_model.specs.Slots.{header_digest};
ghost use Rattle.admission.specs.Answers.{is_new_step};
ghost use Rattle.admission.specs.Decisions.{is_own_of, voted_by, voted_decision, free_decision, header_decision, vote_by, new_header_outputs, known_header_outputs};
ghost use Rattle.admission.specs.Standing.{IsReady, IsNew, MeetSome, Answers, Refuses, GoOn, always, with_signatures};

use crate::assemblies::header_comes;
use crate::batches::{may_name_all, name_all};
use crate::facts::vote_is_kept;
use crate::step::Step;
use crate::tables::Tables;
use crate::tables::answer::{Answer, is_new, known_step, lacks_parents, new_step};
use crate::tables::facts::others_stay;
use crate::votes::keep_vote;
use header::Refusal;
use sigface::Sign;
use std::alloc::{AllocError, Global};
use wire::{Author, Digest, Header, Output, Vote, certificate_digest};

// The member's vote for a header with this digest. Its signature is of the digest of the header's certificate.
fn vote_for<S: Sign>(signer: &S, own: Author, header: &Header, digest: &Digest) -> Vote
    requires digested { digest.now ≡ header_digest header.now.body }
    ensures { result ≡ vote_by own (S.scheme.signature_of signer.now) header.now.body }
{
    let body = &header.body;
    let certificate = certificate_digest(digest, body.round, body.author);
    Vote {
        header: *digest,
        round: body.round,
        author: body.author,
        voter: own,
        signature: signer.sign(&certificate),
    }
}

// A list with this output alone. On `AllocError` an allocation failed.
pub(crate) fn alone(alloc: Global, output: Output) -> Result<Vec<Output>, AllocError>
    ensures { IfOk result (λ outputs. outputs.items ≡ output ∷ []) }
{
    let mut outputs = Vec::new(alloc);
    outputs.push(output)?;
    Ok(outputs)
}

impl<'a> Tables<'a> {
    // Whether this author is the validator itself.
    pub(crate) fn is_own(&self, author: Author) -> bool
        ensures { result ≡ is_own_of self.now author }
    {
        author == self.own
    }

    // The decision about a header with this digest, where the validator has voted in the header's slot, for the digest `voted`.
    fn voted_decision(
        &self,
        voted: &Digest,
        header: &Header,
        digest: &Digest,
    ) -> Result<Answer, Refusal>
        requires digested { digest.now ≡ header_digest header.now.body }
        ensures { result ≡ voted_decision self.now voted.now header.now }
    {
        if *voted == *digest {
            return Ok(Answer::Known);
        }
        if self.is_own(header.body.author) {
            return Err(Refusal::AlreadyProposed);
        }
        Err(Refusal::Equivocation)
    }

    // The decision about a header, where the validator has not voted in the header's slot.
    fn free_decision(&self, header: &Header) -> Result<Answer, Refusal>
        requires own { self.now.own.0 ≡ self.now.batches.own }
        ensures { result ≡ free_decision self.now header.now }
    {
        if !self.sequencer.dag().has_parents(&header.body) {
            return Err(Refusal::MissingParents);
        }
        if !may_name_all(&self.batches, self.own, header) {
            return Err(Refusal::MissingBatch);
        }
        Ok(Answer::New)
    }

    // The decision about a header with this digest: New, Known, or the refusal.
    pub(crate) fn header_decision(
        &self,
        header: &Header,
        digest: &Digest,
    ) -> Result<Answer, Refusal>
        requires own { self.now.own.0 ≡ self.now.batches.own }
        requires digested { digest.now ≡ header_digest header.now.body }
        ensures { result ≡ header_decision self.now header.now }
    {
        if self.sequencer.dag().is_low(header.body.round) {
            return Err(Refusal::TooOld);
        }
        match self.voted(header.body.author, header.body.round) {
            Some(voted) => self.voted_decision(&voted, header, digest),
            None => self.free_decision(header),
        }
    }

    // The outputs for a known header with this digest: the own header that is held, or the vote for another member's.
    fn known_header<S: Sign>(
        &self,
        alloc: Global,
        signer: &S,
        header: &Header,
        digest: &Digest,
    ) -> Result<Vec<Output>, AllocError>
        requires digested { digest.now ≡ header_digest header.now.body }
        ensures { IfOk result (λ outputs. outputs.items ≡ known_header_outputs self.now (S.scheme.signature_of signer.now) header.now) }
    {
        if !self.is_own(header.body.author) {
            let vote = vote_for(signer, self.own, header, digest);
            return alone(alloc, Output::Vote(vote));
        }
        match self.headers.header(header.body.round) {
            Some(held) => alone(alloc, Output::Header(held.try_clone()?)),
            None => Ok(Vec::new(alloc)),
        }
    }

    // Takes a new header of another member: keeps the vote for it, and gives the vote as the output.
    fn new_peers_header<S: Sign>(
        &mut self,
        alloc: Global,
        signer: &S,
        header: &Header,
        digest: &Digest,
    ) -> Result<Vec<Output>, AllocError>
        requires peers { is_own_of self.old header.now.body.author ≡ false }
        requires free { voted_by self.old header.now.body.author header.now.body.round ≡ None }
        requires digested { digest.now ≡ header_digest header.now.body }
        ensures outputs { IfOk result (λ outputs. outputs.items ≡ new_header_outputs self.old (S.scheme.signature_of signer.now) header.now) }
        ensures at { OnOk result (GoOn (with_signatures (S.scheme.signature_of signer.now)) self.old self.new (message.Header header.now)) }
        ensures err { OnErr result (self.new ≡ self.old) }
        ensures seed { self.new.batches.seed ≡ self.old.batches.seed }
    {
        others_stay();
        vote_is_kept();
        let vote = vote_for(signer, self.own, header, digest);
        let outputs = alone(alloc, Output::Vote(vote))?;
        keep_vote(&mut self.votes, header, *digest)?;
        Ok(outputs)
    }

    // Takes a new own header: counts the own vote on it, marks the batches that it names, and gives the header as the output.
    fn new_own_header<S: Sign>(
        &mut self,
        alloc: Global,
        signer: &S,
        header: Header,
        digest: &Digest,
    ) -> Result<Vec<Output>, AllocError>
        requires own { is_own_of self.old header.body.author ≡ true }
        requires ours { self.old.own.0 ≡ self.old.headers.own }
        requires free { voted_by self.old header.body.author header.body.round ≡ None }
        requires digested { digest.now ≡ header_digest header.body }
        ensures outputs { IfOk result (λ outputs. outputs.items ≡ new_header_outputs self.old (S.scheme.signature_of signer.now) header) }
        ensures at { OnOk result (GoOn (with_signatures (S.scheme.signature_of signer.now)) self.old self.new (message.Header header)) }
        ensures err { OnErr result (self.new ≡ self.old) }
        ensures seed { self.new.batches.seed ≡ self.old.batches.seed }
    {
        others_stay();
        header_comes();
        let vote = vote_for(signer, self.own, &header, digest);
        // What can run out of memory comes first, so that an error changes nothing.
        let mut outputs = Vec::with_capacity(alloc, 1)?;
        let held = header.try_clone()?;
        self.headers.hold(alloc, held, vote)?;
        name_all(&mut self.batches, &header);
        outputs.push_reserved(Output::Header(header));
        Ok(outputs)
    }

    // Takes a new header, the validator's own or another member's, and gives the outputs.
    fn new_header<S: Sign>(
        &mut self,
        alloc: Global,
        signer: &S,
        header: Header,
        digest: &Digest,
    ) -> Result<Vec<Output>, AllocError>
        requires ours { self.old.own.0 ≡ self.old.headers.own }
        requires free { voted_by self.old header.body.author header.body.round ≡ None }
        requires digested { digest.now ≡ header_digest header.body }
        ensures outputs { IfOk result (λ outputs. outputs.items ≡ new_header_outputs self.old (S.scheme.signature_of signer.now) header) }
        ensures at { OnOk result (GoOn (with_signatures (S.scheme.signature_of signer.now)) self.old self.new (message.Header header)) }
        ensures err { OnErr result (self.new ≡ self.old) }
        ensures seed { self.new.batches.seed ≡ self.old.batches.seed }
    {
        if self.is_own(header.body.author) {
            return self.new_own_header(alloc, signer, header, digest);
        }
        self.new_peers_header(alloc, signer, &header, digest)
    }

    /// Takes a header with this digest. A new header of another member gets the validator's vote, signed by this signer.
    ///
    /// # Errors
    /// The refusal of admission, or `Memory` where an allocation failed. Neither changes anything.
    pub fn take_header<S: Sign>(
        &mut self,
        alloc: Global,
        signer: &S,
        header: Header,
        digest: &Digest,
    ) -> Result<Step, Refusal>
        requires meets { MeetSome self.old (message.Header header) }
        requires digested { digest.now ≡ header_digest header.body }
        ensures answer { Answers (with_signatures (S.scheme.signature_of signer.now)) self.old (message.Header header) result }
        ensures refused { Refuses (with_signatures (S.scheme.signature_of signer.now)) self.old (message.Header header) result }
        ensures at { is_new_step result ≡ true → GoOn (with_signatures (S.scheme.signature_of signer.now)) self.old self.new (message.Header header) }
        ensures same { is_new_step result ≡ false → self.new ≡ self.old }
        ensures seed { self.new.batches.seed ≡ self.old.batches.seed }
    {
        match self.header_decision(&header, digest) {
            Ok(Answer::New) => new_step(self.new_header(alloc, signer, header, digest)),
            Ok(Answer::Known) => known_step(self.known_header(alloc, signer, &header, digest)),
            Err(refusal) => Err(refusal),
        }
    }

    /// Whether a header with this digest is ready: its answer isn't that a parent is missing.
    pub fn is_header_ready(&self, header: &Header, digest: &Digest) -> bool
        requires meets { MeetSome self.now (message.Header header.now) }
        requires digested { digest.now ≡ header_digest header.now.body }
        ensures { IsReady self.now (message.Header header.now) result }
    {
        !lacks_parents(&self.header_decision(header, digest))
    }

    /// Whether a header with this digest would be new. The call allocates no memory.
    pub fn is_header_new(&self, header: &Header, digest: &Digest) -> bool
        requires meets { MeetSome self.now (message.Header header.now) }
        requires digested { digest.now ≡ header_digest header.now.body }
        ensures { IsNew always self.now (message.Header header.now) result }
    {
        is_new(&self.header_decision(header, digest))
    }
}
