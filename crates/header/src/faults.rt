//! The tests of each kind of message, in their order. Of those that fail, the first is reported.

ghost use Rattle.std.specs.Prelude.{◌≡◌, ◌≤◌, length, sum_by, IfOk};
ghost use Rattle.std.specs.List.{list_all};
ghost use Rattle.std.specs.Result.{result_err};
ghost use Rattle.wire.specs.Events.{Event};
ghost use Rattle.header.specs.Checks.{first_failing, is_member, named_weight, is_worker, is_signed, body_tests, batch_tests, ack_tests, header_tests, vote_tests, votes_tests, certificate_tests, message_tests, fault_of};
ghost use Rattle.committee.specs.declared.stakes.TheConstants.{MAX_STAKE};
ghost use Rattle.wire.specs.declared.limits.TheConstants.{MAX_PARENTS, MAX_VOTES};
ghost use Rattle.header.specs.Digested.{digest_of_batch, digest_of_header, digest_of_certificate, digested_of};

use crate::digested::Digested;
use crate::error::CheckError;
use committee::Committee;
use sigface::Verify;
use wire::{
    Author, Batch, BatchAck, BatchReference, Certificate, Digest, Header, HeaderBody, Message,
    ParentReference, ParentReferences, Signature, Vote, VoteEntries, VoteEntry, batch_digest,
    certificate_digest, header_digest,
};

/// Whether a member of the committee has this number.
pub(crate) fn is_member(committee: &Committee, author: Author) -> bool
    ensures { result ≡ is_member committee.now author }
{
    author.0 < committee.size()
}

// What an author weighs in the tests of parents and votes: a member its stake, anybody else 1, since membership is tested later.
fn named_weight(committee: &Committee, author: Author) -> u64
    ensures value { result ≡ named_weight committee.now author }
    ensures most { result ≤ MAX_STAKE }
{
    committee.stake(author).unwrap_or(1)
}

fn weight_of_parents(committee: &Committee, parents: &ParentReferences) -> u64
    ensures { result ≡ sum_by (λ parent. named_weight committee.now parent.author) parents.now }
{
    let mut weight = 0;
    for parent in parents.as_slice() {
        weight += named_weight(committee, parent.author);
    }
    weight
}

fn weight_of_votes(committee: &Committee, votes: &VoteEntries) -> u64
    ensures { result ≡ sum_by (λ vote. named_weight committee.now vote.voter) votes.now }
{
    let mut weight = 0;
    for vote in votes.as_slice() {
        weight += named_weight(committee, vote.voter);
    }
    weight
}

fn is_worker(committee: &Committee, worker: u16) -> bool
    ensures { result ≡ is_worker committee.now worker }
{
    worker < committee.workers()
}

fn is_signed<V: Verify>(
    committee: &Committee,
    verifier: &V,
    signer: Author,
    digest: &Digest,
    signature: &Signature,
) -> bool
    ensures { result ≡ is_signed committee.now (V.accepts verifier.now) signer digest.now signature.now }
{
    match committee.key(signer) {
        Some(key) => verifier.verify(key, digest, signature),
        None => false,
    }
}

fn parents_are_members(committee: &Committee, parents: &[ParentReference]) -> bool
    ensures { result ≡ list_all (λ parent. is_member committee.now parent.author) parents.now }
{
    parents
        .iter()
        .all(|parent| is_member(committee, parent.author))
}

fn workers_are_known(committee: &Committee, batches: &[BatchReference]) -> bool
    ensures { result ≡ list_all (λ batch. is_worker committee.now batch.worker) batches.now }
{
    batches
        .iter()
        .all(|batch| is_worker(committee, batch.worker))
}

fn voters_are_members(committee: &Committee, votes: &[VoteEntry]) -> bool
    ensures { result ≡ list_all (λ vote. is_member committee.now vote.voter) votes.now }
{
    votes.iter().all(|vote| is_member(committee, vote.voter))
}

fn votes_are_signed<V: Verify>(
    committee: &Committee,
    verifier: &V,
    digest: &Digest,
    votes: &[VoteEntry],
) -> bool
    ensures { result ≡ list_all (λ vote. is_signed committee.now (V.accepts verifier.now) vote.voter digest.now vote.signature) votes.now }
{
    votes.iter().all(|vote| is_signed(committee, verifier, vote.voter, digest, &vote.signature))
}

fn test_body(committee: &Committee, body: &HeaderBody) -> Result<(), CheckError>
    ensures { result_err result ≡ first_failing (body_tests committee.now body.now) }
{
    let (parents, batches) = (body.parents.as_slice(), body.batches.as_slice());
    if weight_of_parents(committee, &body.parents) < committee.quorum() {
        return Err(CheckError::TooFewParents);
    }
    if parents.len() > committee.size() as usize {
        return Err(CheckError::TooManyParents);
    }
    if !parents_are_members(committee, parents) {
        return Err(CheckError::UnknownAuthor);
    }
    if !workers_are_known(committee, batches) {
        return Err(CheckError::UnknownWorker);
    }
    Ok(())
}

fn test_batch(committee: &Committee, sender: Author, batch: &Batch) -> Result<Digest, CheckError>
    ensures refused { result_err result ≡ first_failing (batch_tests committee.now sender batch.now) }
    ensures digest { IfOk result (λ digest. digest ≡ digest_of_batch batch.now) }
{
    if !is_member(committee, batch.author()) {
        return Err(CheckError::UnknownAuthor);
    }
    if batch.author() != sender {
        return Err(CheckError::BadSender);
    }
    if !is_worker(committee, batch.worker()) {
        return Err(CheckError::UnknownWorker);
    }
    Ok(batch_digest(batch))
}

fn test_ack(sender: Author, ack: &BatchAck) -> Result<(), CheckError>
    ensures { result_err result ≡ first_failing (ack_tests sender ack.now) }
{
    if ack.author != sender {
        return Err(CheckError::BadSender);
    }
    Ok(())
}

fn test_header<V: Verify>(
    committee: &Committee,
    verifier: &V,
    sender: Author,
    header: &Header,
) -> Result<Digest, CheckError>
    ensures refused { result_err result ≡ first_failing (header_tests committee.now (V.accepts verifier.now) sender header.now) }
    ensures digest { IfOk result (λ digest. digest ≡ digest_of_header header.now.body) }
{
    let author = header.body.author;
    if !is_member(committee, author) {
        return Err(CheckError::UnknownAuthor);
    }
    if author != sender {
        return Err(CheckError::BadSender);
    }
    test_body(committee, &header.body)?;
    let digest = header_digest(&header.body);
    if !is_signed(committee, verifier, author, &digest, &header.signature) {
        return Err(CheckError::BadSignature);
    }
    Ok(digest)
}

fn test_vote<V: Verify>(
    committee: &Committee,
    verifier: &V,
    sender: Author,
    vote: &Vote,
) -> Result<(), CheckError>
    ensures { result_err result ≡ first_failing (vote_tests committee.now (V.accepts verifier.now) sender vote.now) }
{
    if !is_member(committee, vote.author) || !is_member(committee, vote.voter) {
        return Err(CheckError::UnknownAuthor);
    }
    if vote.voter != sender {
        return Err(CheckError::BadSender);
    }
    let digest = certificate_digest(&vote.header, vote.round, vote.author);
    if !is_signed(committee, verifier, vote.voter, &digest, &vote.signature) {
        return Err(CheckError::BadSignature);
    }
    Ok(())
}

fn test_votes<V: Verify>(
    committee: &Committee,
    verifier: &V,
    digest: &Digest,
    votes: &VoteEntries,
) -> Result<(), CheckError>
    ensures { result_err result ≡ first_failing (votes_tests committee.now (V.accepts verifier.now) digest.now votes.now) }
{
    if weight_of_votes(committee, votes) < committee.quorum() {
        return Err(CheckError::TooFewVotes);
    }
    let votes = votes.as_slice();
    if !voters_are_members(committee, votes) {
        return Err(CheckError::UnknownAuthor);
    }
    if !votes_are_signed(committee, verifier, digest, votes) {
        return Err(CheckError::BadSignature);
    }
    Ok(())
}

fn test_certificate<V: Verify>(
    committee: &Committee,
    verifier: &V,
    certificate: &Certificate,
) -> Result<Digested, CheckError>
    ensures refused { result_err result ≡ first_failing (certificate_tests committee.now (V.accepts verifier.now) certificate.now) }
    ensures digests { IfOk result (λ digested. digested ≡ Digested.Certificate (digest_of_header certificate.now.header) (digest_of_certificate certificate.now.header)) }
{
    let body = &certificate.header;
    if !is_member(committee, body.author) {
        return Err(CheckError::UnknownAuthor);
    }
    test_body(committee, body)?;
    let header = header_digest(body);
    let certificate_digest = certificate_digest(&header, body.round, body.author);
    test_votes(committee, verifier, &certificate_digest, &certificate.votes)?;
    Ok(Digested::Certificate {
        header,
        certificate: certificate_digest,
    })
}

/// Tests a certificate whose digest is given, so that it isn't computed again. Of the tests that fail, the first is reported.
pub(crate) fn test_digested<V: Verify>(
    committee: &Committee,
    verifier: &V,
    certificate: &Certificate,
    digest: &Digest,
) -> Result<(), CheckError>
    requires { digest.now ≡ digest_of_certificate certificate.now.header }
    ensures { result_err result ≡ first_failing (certificate_tests committee.now (V.accepts verifier.now) certificate.now) }
{
    if !is_member(committee, certificate.header.author) {
        return Err(CheckError::UnknownAuthor);
    }
    test_body(committee, &certificate.header)?;
    test_votes(committee, verifier, digest, &certificate.votes)
}

/// Tests a message from this sender. Of the tests that fail, the first is reported. If all pass, returns the message's digests.
pub(crate) fn test_message<V: Verify>(
    committee: &Committee,
    verifier: &V,
    sender: Author,
    message: &Message,
) -> Result<Digested, CheckError>
    ensures refused { result_err result ≡ fault_of committee.now (V.accepts verifier.now) (record { sender = sender; message = message.now }) }
    ensures digests { IfOk result (λ digested. digested ≡ digested_of message.now) }
{
    if !is_member(committee, sender) {
        return Err(CheckError::UnknownAuthor);
    }
    Ok(match message {
        Message::Batch(batch) => Digested::Batch(test_batch(committee, sender, batch)?),
        Message::BatchAck(ack) => {
            test_ack(sender, ack)?;
            Digested::Nothing
        }
        Message::Header(header) => {
            Digested::Header(test_header(committee, verifier, sender, header)?)
        }
        Message::Vote(vote) => {
            test_vote(committee, verifier, sender, vote)?;
            Digested::Nothing
        }
        Message::Certificate(certificate) => test_certificate(committee, verifier, certificate)?,
        Message::Coin(_) => Digested::Nothing,
    })
}
