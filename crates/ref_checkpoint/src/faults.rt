//! The tests of a checkpoint's records, for each kind of record, and the test of the whole.

ghost use Rattle.std.specs.Prelude.{◌≡◌, ◌==◌, ◌&&◌, false, ℕ, [], length, not, nat_lt, is_some, IfOk};
ghost use Rattle.std.specs.List.{list_any, list_all};
ghost use Rattle.std.specs.Option.{option_map_or};
ghost use Rattle.committee.specs.Charter.{weight};
ghost use Rattle.committee.specs.Sets.{has};
ghost use Rattle.spec_checkpoint.specs.Faults as faults;
ghost use Rattle.spec_checkpoint.specs.Meaning as meaning;
ghost use Rattle.spec_model.specs.Holdings as holdings;
ghost use Rattle.spec_model.specs.Nodes.{node_view, quorum};
ghost use Rattle.spec_model.specs.Ordering as ordering;
ghost use Rattle.spec_model.specs.Slots.{same_digest};
ghost use Rattle.wire.specs.Encoding.{encoding};
ghost use Rattle.wire.specs.declared.message.Message.TheVariants as message;

use crate::held::{certificates_held, listed_floor, listed_top};
use crate::kept::{Checkpoint, KeptBatch, KeptHeader, KeptVote};
use crate::parts::has_vote_of;
use committee::MemberSet;
use header::{Node, recheck};
use ref_order::holdings::{all_held, is_low};
use ref_order::slots::slot;
use sigface::Sign;
use std::alloc::{AllocError, Global};
use wire::{
    Author, Batch, Certificate, Digest, HeaderBody, Message, VoteEntries, VoteEntry, batch_digest,
    encode,
};

/// Whether a message from this sender passes the checks, without those of signatures.
fn passes<S: Sign>(node: &Node<S>, sender: Author, message: Message) -> bool
    ensures { result ≡ faults.passes (node_view S.scheme node.now) sender message }
{
    match recheck(&node.committee, sender, message) {
        Ok(_) => true,
        Err(_) => false,
    }
}

/// The digest of a batch.
fn digest_of(batch: &Batch) -> Digest
    ensures { result ≡ holdings.batch_digest batch.now }
{
    batch_digest(batch)
}

/// Whether one of these batches has this digest.
fn has_digest(before: &[KeptBatch], digest: &Digest) -> bool
    ensures { result ≡ list_any (λ other. same_digest (holdings.batch_digest other.batch) digest.now) before.now }
{
    before
        .iter()
        .any(|other| digest_of(&other.batch) == *digest)
}

/// Whether each of these numbers is that of a member.
fn are_members(size: u16, members: &[u16]) -> bool
    ensures { result ≡ list_all (λ member. nat_lt member size) members.now }
{
    members.iter().all(|member| *member < size)
}

/// Whether a batch is sound: it passes the checks as one from its author, no earlier batch has its digest, and there is room for it; those
/// who acknowledged it are members; and if it has acknowledgements or is named, it is an own batch.
pub fn is_batch_sound<S: Sign>(
    node: &Node<S>,
    before: &[KeptBatch],
    kept: &KeptBatch,
) -> Result<bool, AllocError>
    ensures { IfOk result (λ sound. sound ≡ faults.is_batch_sound (node_view S.scheme node.now) before.now kept.now) }
{
    let author = kept.batch.author();
    let message = Message::Batch(kept.batch.share()?);
    Ok(
        passes(node, author, message)
            && !has_digest(before, &digest_of(&kept.batch))
            && before.len() < node.committee.batches() as usize
            && are_members(node.size(), &kept.members)
            && (node.is_own(author) || (kept.members.is_empty() && !kept.named)),
    )
}

/// Whether a vote is sound: it is for another member's header, in a round that isn't low.
pub fn is_vote_sound<S: Sign>(node: &Node<S>, checkpoint: &Checkpoint, vote: &KeptVote) -> bool
    ensures { result ≡ faults.is_vote_sound (node_view S.scheme node.now) checkpoint.now vote.now }
{
    let floor = listed_floor(node, checkpoint);
    !is_low(floor, vote.round.number()) && vote.author < node.size() && vote.author != node.own.0
}

/// Whether a member has a vote on this own header. The node itself always has one.
fn has_kept<S: Sign>(node: &Node<S>, kept: &KeptHeader, voter: u16) -> bool
    ensures { result ≡ faults.has_kept (node_view S.scheme node.now) kept.now voter }
{
    voter == node.own.0 || has_vote_of(kept.votes.as_slice(), voter)
}

/// The members who have a vote on an own header.
#[tactic(auto, using(ref_order::proofs::Sets::in_more, ref_order::proofs::Sets::out_more))]
fn voters<S: Sign>(node: &Node<S>, kept: &KeptHeader) -> MemberSet
    ensures { (member : ℕ) → has result member ≡ (nat_lt member (length node.now.committee.keys) && faults.has_kept (node_view S.scheme node.now) kept.now member) }
{
    let size = node.size();
    let mut found = MemberSet::none();
    for voter in 0..size {
        if has_kept(node, kept, voter) {
            found.insert(Author(voter));
        }
    }
    found
}

/// The weight of the members who have a vote on an own header.
fn weight_of_voters<S: Sign>(node: &Node<S>, kept: &KeptHeader) -> u64
    ensures { result ≡ weight node.now.committee (faults.has_kept (node_view S.scheme node.now) kept.now) }
{
    node.committee.weight(&voters(node, kept))
}

/// Whether `voter` has a vote on an own header, and isn't the member `left_out`.
fn has_kept_of_others<S: Sign>(node: &Node<S>, kept: &KeptHeader, left_out: u16, voter: u16) -> bool
    ensures { result ≡ (faults.has_kept (node_view S.scheme node.now) kept.now voter && not (voter == left_out)) }
{
    has_kept(node, kept, voter) && voter != left_out
}

/// The members who have a vote on an own header, without the member `left_out`.
#[tactic(auto, using(ref_order::proofs::Sets::in_more, ref_order::proofs::Sets::out_more))]
fn other_voters<S: Sign>(node: &Node<S>, kept: &KeptHeader, left_out: u16) -> MemberSet
    ensures { (member : ℕ) → has result member ≡ (nat_lt member (length node.now.committee.keys) && (faults.has_kept (node_view S.scheme node.now) kept.now member && not (member == left_out))) }
{
    let size = node.size();
    let mut found = MemberSet::none();
    for voter in 0..size {
        if has_kept_of_others(node, kept, left_out, voter) {
            found.insert(Author(voter));
        }
    }
    found
}

/// The weight of the members who have a vote on an own header, without the member `left_out`.
fn weight_of_others<S: Sign>(node: &Node<S>, kept: &KeptHeader, left_out: u16) -> u64
    ensures { result ≡ weight node.now.committee (λ voter. faults.has_kept (node_view S.scheme node.now) kept.now voter && not (voter == left_out)) }
{
    node.committee.weight(&other_voters(node, kept, left_out))
}

/// Whether the votes on an own header would weigh less than a quorum without this one.
fn is_needed<S: Sign>(node: &Node<S>, kept: &KeptHeader, entry: &VoteEntry) -> bool
    ensures { let seen = node_view S.scheme node.now in result ≡ nat_lt (weight seen.charter (λ voter. faults.has_kept seen kept.now voter && not (voter == entry.now.voter.0))) (quorum seen) }
{
    weight_of_others(node, kept, entry.voter.0) < node.quorum()
}

/// Whether for one of these votes, those on an own header would weigh less than a quorum without it.
fn is_one_needed<S: Sign>(node: &Node<S>, kept: &KeptHeader, votes: &[VoteEntry]) -> bool
    ensures { let seen = node_view S.scheme node.now in result ≡ list_any (λ entry. nat_lt (weight seen.charter (λ voter. faults.has_kept seen kept.now voter && not (voter == entry.voter.0))) (quorum seen)) votes.now }
{
    votes.iter().any(|entry| is_needed(node, kept, entry))
}

/// The bytes of a certificate of this header, without votes.
fn certificate_bytes(alloc: Global, header: &HeaderBody) -> Result<Vec<u8>, AllocError>
    ensures { IfOk result (λ bytes. bytes.items ≡ encoding (message.Certificate (record { header = header.now; votes = [] }))) }
{
    let header = header.try_clone()?;
    let votes = VoteEntries::new(alloc);
    encode(alloc, &Message::Certificate(Certificate { header, votes }))
}

/// Whether two header bodies are equal, by comparing the bytes of certificates that have them.
#[tactic(auto, using(crate::proofs::SameBodies::same_with_votes))]
fn same_body(alloc: Global, one: &HeaderBody, other: &HeaderBody) -> Result<bool, AllocError>
    ensures { IfOk result (λ same. same ≡ faults.same_body one.now other.now) }
{
    Ok(certificate_bytes(alloc, one)? == certificate_bytes(alloc, other)?)
}

/// Whether the checkpoint has the certificate of this own header.
fn has_certificate<S: Sign>(
    alloc: Global,
    node: &Node<S>,
    checkpoint: &Checkpoint,
    header: &HeaderBody,
) -> Result<bool, AllocError>
    ensures { let seen = node_view S.scheme node.now in IfOk result (λ has. has ≡ option_map_or (λ certificate. faults.same_body certificate.header header.now) ((meaning.state_in seen checkpoint.now).slots header.now.round seen.own.0) false) }
{
    let held = certificates_held(alloc, node, checkpoint)?;
    match slot(&held, header.round.number(), node.own.0) {
        None => Ok(false),
        Some(certificate) => same_body(alloc, &certificate.header, header),
    }
}

/// Either the votes on an own header weigh less than a quorum, or the checkpoint has its certificate, and without some other member's vote
/// they would weigh less.
fn is_completed_well<S: Sign>(
    alloc: Global,
    node: &Node<S>,
    checkpoint: &Checkpoint,
    kept: &KeptHeader,
) -> Result<bool, AllocError>
    ensures { IfOk result (λ well. well ≡ faults.is_completed_well (node_view S.scheme node.now) checkpoint.now kept.now) }
{
    if weight_of_voters(node, kept) < node.quorum() {
        return Ok(true);
    }
    if !has_certificate(alloc, node, checkpoint, &kept.header.body)? {
        return Ok(false);
    }
    Ok(is_one_needed(node, kept, kept.votes.as_slice()))
}

/// Whether the voters of all these votes are members.
fn are_voters(size: u16, votes: &[VoteEntry]) -> bool
    ensures { result ≡ list_all (λ entry. nat_lt entry.voter.0 size) votes.now }
{
    votes.iter().all(|entry| entry.voter.0 < size)
}

/// Whether the parents of a header are held.
fn are_parents_held<S: Sign>(
    alloc: Global,
    node: &Node<S>,
    checkpoint: &Checkpoint,
    header: &HeaderBody,
) -> Result<bool, AllocError>
    ensures { let seen = node_view S.scheme node.now in IfOk result (λ held. held ≡ holdings.all_held (meaning.state_in seen checkpoint.now).slots (meaning.listed_floor seen checkpoint.now) header.now) }
{
    let held = certificates_held(alloc, node, checkpoint)?;
    Ok(all_held(&held, listed_floor(node, checkpoint), header))
}

/// Whether an own header is sound: its round isn't low, it passes the checks as one from the node, its parents are held, and the voters on
/// it are members.
pub fn is_header_sound<S: Sign>(
    alloc: Global,
    node: &Node<S>,
    checkpoint: &Checkpoint,
    kept: &KeptHeader,
) -> Result<bool, AllocError>
    ensures { IfOk result (λ sound. sound ≡ faults.is_header_sound (node_view S.scheme node.now) checkpoint.now kept.now) }
{
    let body = &kept.header.body;
    if is_low(listed_floor(node, checkpoint), body.round.number()) {
        return Ok(false);
    }
    if !passes(node, node.own, Message::Header(kept.header.try_clone()?)) {
        return Ok(false);
    }
    if !are_parents_held(alloc, node, checkpoint, body)? {
        return Ok(false);
    }
    if !are_voters(node.size(), kept.votes.as_slice()) {
        return Ok(false);
    }
    is_completed_well(alloc, node, checkpoint, kept)
}

/// Whether a certificate is sound: its round isn't below the floor, it passes the checks, and its parents are held.
pub fn is_certificate_sound<S: Sign>(
    alloc: Global,
    node: &Node<S>,
    checkpoint: &Checkpoint,
    certificate: &Certificate,
) -> Result<bool, AllocError>
    ensures { IfOk result (λ sound. sound ≡ faults.is_certificate_sound (node_view S.scheme node.now) checkpoint.now certificate.now) }
{
    if certificate.header.round.number() < listed_floor(node, checkpoint) {
        return Ok(false);
    }
    if !passes(
        node,
        node.own,
        Message::Certificate(certificate.try_clone()?),
    ) {
        return Ok(false);
    }
    are_parents_held(alloc, node, checkpoint, &certificate.header)
}

/// Whether any leader is committed by a checkpoint's certificates and coins.
fn is_committed<S: Sign>(node: &Node<S>, checkpoint: &Checkpoint) -> bool
    ensures { result ≡ is_some (ordering.top (holdings.ledger_of (node_view S.scheme node.now) (meaning.listed checkpoint.now) checkpoint.now.coins)) }
{
    listed_top(node, checkpoint).is_some()
}

/// The test of the whole checkpoint: the order is empty if and only if no leader is committed.
pub fn is_whole_sound<S: Sign>(node: &Node<S>, checkpoint: &Checkpoint) -> bool
    ensures { result ≡ faults.is_whole_sound (node_view S.scheme node.now) checkpoint.now }
{
    let committed = is_committed(node, checkpoint);
    if checkpoint.order.is_empty() {
        !committed
    } else {
        committed
    }
}
