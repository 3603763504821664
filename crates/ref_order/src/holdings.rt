//! What a node has after a history: batches, votes, certificates, and rounds.

ghost use Rattle.std.specs.Prelude.{◌≡◌, ℕ, ◌&&◌, nat_lt, is_some, IfSome, find, length, option_copied};
ghost use Rattle.std.specs.List.{list_any};
ghost use Rattle.spec_model.specs.Histories.{votes};
ghost use Rattle.spec_model.specs.Holdings as holdings;
ghost use Rattle.committee.specs.Charter.{weight};
ghost use Rattle.committee.specs.Sets.{has};
ghost use Rattle.spec_model.specs.Nodes.{node_view};
ghost use Rattle.spec_model.specs.Slots.{same_digest, slots_of};

use crate::slots::{digest_of, is_of_slot, slot};
use committee::{Committee, MemberSet};
use header::{Event, Node};
use sigface::Sign;
use wire::{
    Author, Batch, BatchReference, Certificate, Digest, Header, HeaderBody, Message,
    ParentReference, Vote, batch_digest, header_digest,
};

/// The batch with this digest, if the history has it.
pub fn batch_at<'a>(history: &'a [Event], digest: &Digest) -> Option<&'a Batch>
    ensures { option_copied result ≡ holdings.batch_at history.now digest.now }
{
    for event in history {
        if let Message::Batch(batch) = &event.message {
            if batch_digest(batch) == *digest {
                return Some(batch);
            }
        }
    }
    None
}

/// Whether a member has acknowledged the batch with this digest.
pub fn has_acked(history: &[Event], digest: &Digest, member: u16) -> bool
    ensures { result ≡ holdings.has_acked history.now digest.now member }
{
    for event in history {
        if let Message::BatchAck(ack) = &event.message {
            if ack.batch == *digest && ack.author.0 == member {
                return true;
            }
        }
    }
    false
}

/// Whether one of the batches that a header names has this digest.
fn names(batches: &[BatchReference], digest: &Digest) -> bool
    ensures { result ≡ list_any (λ named. same_digest named.digest digest.now) batches.now }
{
    batches.iter().any(|named| named.digest == *digest)
}

/// Whether an own header has named the batch with this digest.
pub fn was_named<S: Sign>(node: &Node<S>, history: &[Event], digest: &Digest) -> bool
    ensures { result ≡ holdings.was_named (node_view S.scheme node.now) history.now digest.now }
{
    for event in history {
        if let Message::Header(header) = &event.message {
            if node.is_own(header.body.author) && names(header.body.batches.as_slice(), digest) {
                return true;
            }
        }
    }
    false
}

/// The header of this round and author that the node voted for.
pub fn voted_header(history: &[Event], round: u64, author: u16) -> Option<&Header>
    ensures { option_copied result ≡ holdings.voted_header history.now round author }
{
    for event in history {
        if let Message::Header(header) = &event.message {
            if is_of_slot(round, author, &header.body) {
                return Some(header);
            }
        }
    }
    None
}

/// The digest of the header of this round and author that the node voted for.
pub fn voted_digest(history: &[Event], round: u64, author: u16) -> Option<Digest>
    ensures { result ≡ holdings.voted_digest history.now round author }
{
    match voted_header(history, round, author) {
        None => None,
        Some(header) => Some(header_digest(&header.body)),
    }
}

/// Whether a vote is for this header and by this member.
pub fn is_vote_on(header: &HeaderBody, voter: u16, vote: &Vote) -> bool
    ensures { result ≡ holdings.is_vote_on header.now voter vote.now }
{
    is_of_slot(vote.round.number(), vote.author.0, header)
        && vote.voter.0 == voter
        && vote.header == header_digest(header)
}

/// The node's own vote for a header, with its signature.
pub fn own_vote<S: Sign>(node: &Node<S>, header: &HeaderBody) -> Vote
    ensures { result ≡ holdings.own_vote (node_view S.scheme node.now) header.now }
{
    Vote {
        header: header_digest(header),
        round: header.round,
        author: header.author,
        voter: node.own,
        signature: node.signer.sign(&digest_of(header)),
    }
}

/// The first vote of another member on an own header that came in.
fn vote_by(history: &[Event], header: &HeaderBody, voter: u16) -> Option<Vote>
    ensures value { result ≡ find (holdings.is_vote_on header.now voter) (votes history.now) }
    ensures voter { IfSome result (λ vote. vote.voter.0 ≡ voter) }
{
    for event in history {
        if let Message::Vote(vote) = &event.message {
            if is_vote_on(header, voter, vote) {
                return Some(*vote);
            }
        }
    }
    None
}

/// The vote of a member on an own header that counts: the first that came in, or the node's own.
pub fn counted_vote<S: Sign>(
    node: &Node<S>,
    history: &[Event],
    header: &HeaderBody,
    voter: u16,
) -> Option<Vote>
    ensures value { result ≡ holdings.counted_vote (node_view S.scheme node.now) history.now header.now voter }
    ensures voter { IfSome result (λ vote. vote.voter.0 ≡ voter) }
{
    if voter == node.own.0 {
        return Some(own_vote(node, header));
    }
    vote_by(history, header, voter)
}

/// The vote of a member that counts on the own header of this round.
pub fn counted_at<S: Sign>(
    node: &Node<S>,
    history: &[Event],
    round: u64,
    voter: u16,
) -> Option<Vote>
    ensures value { result ≡ holdings.counted_at (node_view S.scheme node.now) history.now round voter }
    ensures voter { IfSome result (λ vote. vote.voter.0 ≡ voter) }
{
    match voted_header(history, round, node.own.0) {
        None => None,
        Some(header) => counted_vote(node, history, &header.body, voter),
    }
}

/// Whether a round is low: it is 0, or at or below a floor above 0.
pub fn is_low(floor: u64, round: u64) -> bool
    ensures { result ≡ holdings.is_low floor round }
{
    round == 0 || (floor > 0 && round <= floor)
}

/// The members of whom there is a certificate of this round.
#[tactic(auto, using(crate::proofs::Sets::in_more, crate::proofs::Sets::out_more))]
fn authors_of(committee: &Committee, certificates: &[Certificate], round: u64) -> MemberSet
    ensures { (member : ℕ) → has result member ≡ (nat_lt member (length committee.now.keys) && is_some (slots_of certificates.now round member)) }
{
    let size = committee.size();
    let mut held = MemberSet::none();
    for author in 0..size {
        if slot(certificates, round, author).is_some() {
            held.insert(Author(author));
        }
    }
    held
}

/// The weight of the members of whom there is a certificate of this round.
fn weight_of_authors(committee: &Committee, certificates: &[Certificate], round: u64) -> u64
    ensures { result ≡ weight committee.now (λ author. is_some (slots_of certificates.now round author)) }
{
    committee.weight(&authors_of(committee, certificates, round))
}

/// Whether the authors of the certificates of this round weigh a quorum.
pub fn is_full<S: Sign>(node: &Node<S>, certificates: &[Certificate], round: u64) -> bool
    ensures { result ≡ holdings.is_full (node_view S.scheme node.now) (slots_of certificates.now) round }
{
    node.quorum() <= weight_of_authors(&node.committee, certificates, round)
}

/// Whether a parent of a header of this round is held: its certificate is there, or its round is at or below a floor above 0.
pub fn is_held(
    certificates: &[Certificate],
    floor: u64,
    round: u64,
    parent: &ParentReference,
) -> bool
    ensures { result ≡ holdings.is_held (slots_of certificates.now) floor round parent.now }
{
    let below = round.saturating_sub(1);
    match slot(certificates, below, parent.author.0) {
        Some(certificate) if digest_of(&certificate.header) == parent.certificate => true,
        _ => floor > 0 && below <= floor,
    }
}

/// Whether all parents of a header are held.
pub fn all_held(certificates: &[Certificate], floor: u64, header: &HeaderBody) -> bool
    ensures { result ≡ holdings.all_held (slots_of certificates.now) floor header.now }
{
    header.parents.as_slice().iter().all(|parent| is_held(
        certificates,
        floor,
        header.round.number(),
        parent,
    ))
}
