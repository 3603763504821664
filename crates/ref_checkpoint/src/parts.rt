//! Reads what comes after the kind in each kind of record.

ghost use Rattle.std.specs.Prelude.{◌≡◌, ◌&&◌, ◌==◌, not, nat_lt, IfOk};
ghost use Rattle.std.specs.List.{list_any};
ghost use Rattle.std.specs.Int.{w16};
ghost use Rattle.spec_checkpoint.specs.Data.{place_before};
ghost use Rattle.spec_checkpoint.specs.Reading.{mark_at, member_at, counted_at, kept_batch_at, kept_vote_at, kept_header_at, kept_certificate_at, vote_may_follow, header_may_follow, certificate_may_follow, are_of_others};
ghost use Rattle.spec_model.specs.Nodes.{node_view};
ghost use Rattle.ref_checkpoint.specs.HeadersRead.{header_with_votes_at};
ghost use Rattle.wire.specs.Reading.{Gives};
ghost use Rattle.wire.specs.Rising.{follows};

use crate::kept::{KeptBatch, KeptHeader, KeptVote};
use header::Node;
use sigface::Sign;
use std::alloc::Global;
use wire::{Certificate, HeaderBody, VoteEntry, WireError};
use wire_read::{Reader, batch_of, certificate_of, header_of, votes_of};

/// Reads whether an own header names a batch: a byte 1 or 0.
#[tactic(auto, unfolding(spec_checkpoint::specs::Reading::mark_at))]
fn mark_of(reader: &mut Reader) -> Result<bool, WireError>
    ensures { Gives (λ x. (x, reader.new)) result (mark_at reader.old) }
{
    match reader.slice(1)? {
        [1] => Ok(true),
        [0] => Ok(false),
        _ => Err(WireError::NotCanonical),
    }
}

/// Whether a member's number is greater than the last one of an ascending list, so that it may follow the list.
fn member_may_follow(before: &[u16], member: u16) -> bool
    ensures { result ≡ follows (λ one. nat_lt one member) before.now }
{
    match before.last() {
        None => true,
        Some(last) => *last < member,
    }
}

/// Reads another member's number, which has to be greater than those before it.
#[tactic(auto, unfolding(spec_checkpoint::specs::Reading::member_at))]
fn member_of<S: Sign>(node: &Node<S>, before: &[u16], reader: &mut Reader) -> Result<u16, WireError>
    ensures { Gives (λ x. (x, reader.new)) result (member_at (node_view S.scheme node.now) before.now reader.old) }
{
    let member = reader.u16()?;
    if !member_may_follow(before, member) || member == node.own.0 {
        return Err(WireError::NotCanonical);
    }
    Ok(member)
}

/// Reads the numbers of other members, with their count before them.
fn members_of<S: Sign>(
    alloc: Global,
    node: &Node<S>,
    reader: &mut Reader,
) -> Result<Vec<u16>, WireError>
    ensures { Gives (λ x. (x.items, reader.new)) result (counted_at w16 65535 (member_at (node_view S.scheme node.now)) reader.old) }
{
    let count = reader.count_u16(65535)?;
    let mut members = Vec::new(alloc);
    for _ in 0..count {
        let member = member_of(node, &members, reader)?;
        members.push(member)?;
    }
    Ok(members)
}

/// Reads a batch: whether an own header names it, who acknowledged it, and the batch itself.
#[tactic(auto, unfolding(spec_checkpoint::specs::Reading::kept_batch_at))]
pub fn kept_batch_of<S: Sign>(
    alloc: Global,
    node: &Node<S>,
    reader: &mut Reader,
) -> Result<KeptBatch, WireError>
    ensures { Gives (λ x. (x, reader.new)) result (kept_batch_at (node_view S.scheme node.now) reader.old) }
{
    let named = mark_of(reader)?;
    let members = members_of(alloc, node, reader)?;
    let batch = batch_of(alloc, reader)?;
    Ok(KeptBatch {
        named,
        members,
        batch,
    })
}

/// Whether one place in a list that is sorted by round and then by author comes before the other place.
fn place_before(round: u64, author: u16, other_round: u64, other_author: u16) -> bool
    ensures { result ≡ place_before round author other_round other_author }
{
    round < other_round || (round == other_round && author < other_author)
}

/// Whether a vote for a header of this round and author may come after these votes.
fn vote_may_follow(before: &[KeptVote], round: u64, author: u16) -> bool
    ensures { result ≡ vote_may_follow before.now round author }
{
    match before.last() {
        None => true,
        Some(last) => place_before(last.round.number(), last.author, round, author),
    }
}

/// Reads a vote: author, round and header digest.
#[tactic(auto, unfolding(spec_checkpoint::specs::Reading::kept_vote_at))]
pub fn kept_vote_of(before: &[KeptVote], reader: &mut Reader) -> Result<KeptVote, WireError>
    ensures { Gives (λ x. (x, reader.new)) result (kept_vote_at before.now reader.old) }
{
    let author = reader.u16()?;
    let round = reader.round()?;
    let header = reader.digest()?;
    if !vote_may_follow(before, round.number(), author) {
        return Err(WireError::NotCanonical);
    }
    Ok(KeptVote {
        author,
        round,
        header,
    })
}

/// Whether an own header of this round may come after these headers.
fn header_may_follow(before: &[KeptHeader], round: u64) -> bool
    ensures { result ≡ header_may_follow before.now round }
{
    match before.last() {
        None => true,
        Some(last) => last.header.body.round.number() < round,
    }
}

/// Whether one of these votes is of this member.
pub fn has_vote_of(votes: &[VoteEntry], voter: u16) -> bool
    ensures { result ≡ list_any (λ entry. entry.voter.0 == voter) votes.now }
{
    votes.iter().any(|entry| entry.voter.0 == voter)
}

/// Whether none of these votes is the node's own.
fn are_of_others<S: Sign>(node: &Node<S>, votes: &[VoteEntry]) -> bool
    ensures { result ≡ are_of_others (node_view S.scheme node.now) votes.now }
{
    !has_vote_of(votes, node.own.0)
}

/// Reads a header with its signature, and then votes, whoever they are of.
#[tactic(auto, unfolding(crate::specs::HeadersRead::header_with_votes_at))]
fn header_with_votes_of(alloc: Global, reader: &mut Reader) -> Result<KeptHeader, WireError>
    ensures { Gives (λ x. (x, reader.new)) result (header_with_votes_at reader.old) }
{
    let header = header_of(alloc, reader)?;
    let votes = votes_of(alloc, reader)?;
    Ok(KeptHeader { header, votes })
}

/// Whether an own header may be kept after the own headers `before`, and all votes that are kept with it are of other members.
fn is_header_kept<S: Sign>(node: &Node<S>, before: &[KeptHeader], kept: &KeptHeader) -> bool
    ensures { result ≡ (header_may_follow before.now kept.now.header.body.round && are_of_others (node_view S.scheme node.now) kept.now.votes) }
{
    header_may_follow(before, kept.header.body.round.number())
        && are_of_others(node, kept.votes.as_slice())
}

/// Reads an own header with its signature, and the other members' votes on it.
#[tactic(auto, using(crate::proofs::HeadersTested::kept_header_tested))]
pub fn kept_header_of<S: Sign>(
    alloc: Global,
    node: &Node<S>,
    before: &[KeptHeader],
    reader: &mut Reader,
) -> Result<KeptHeader, WireError>
    ensures { Gives (λ x. (x, reader.new)) result (kept_header_at (node_view S.scheme node.now) before.now reader.old) }
{
    let kept = header_with_votes_of(alloc, reader)?;
    if !is_header_kept(node, before, &kept) {
        return Err(WireError::NotCanonical);
    }
    Ok(kept)
}

/// Whether a certificate of this header may come after these certificates.
fn certificate_may_follow(before: &[Certificate], header: &HeaderBody) -> bool
    ensures { result ≡ certificate_may_follow before.now header.now }
{
    match before.last() {
        None => true,
        Some(last) => place_before(
            last.header.round.number(),
            last.header.author.0,
            header.round.number(),
            header.author.0,
        ),
    }
}

/// Whether a certificate of this header is of a round above 0, and may come after these certificates.
fn is_certificate_kept(before: &[Certificate], header: &HeaderBody) -> bool
    ensures { result ≡ (certificate_may_follow before.now header.now && nat_lt 0 header.now.round) }
{
    certificate_may_follow(before, header) && 0 < header.round.number()
}

/// Reads a certificate of a round above 0.
#[tactic(auto, unfolding(spec_checkpoint::specs::Reading::kept_certificate_at))]
pub fn kept_certificate_of(
    alloc: Global,
    before: &[Certificate],
    reader: &mut Reader,
) -> Result<Certificate, WireError>
    ensures { Gives (λ x. (x, reader.new)) result (kept_certificate_at before.now reader.old) }
{
    let certificate = certificate_of(alloc, reader)?;
    if !is_certificate_kept(before, &certificate.header) {
        return Err(WireError::NotCanonical);
    }
    Ok(certificate)
}
