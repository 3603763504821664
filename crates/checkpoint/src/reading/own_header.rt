//! Reading the record of an own header in a checkpoint, with the other members' votes on it.

ghost use Rattle.std.specs.Prelude.{◌≡◌, ◌&&◌, ◌==◌};
ghost use Rattle.std.specs.List.{list_any};
ghost use Rattle.spec_checkpoint.specs.Reading.{kept_header_at, header_may_follow, are_of_others};
ghost use Rattle.spec_model.specs.Nodes.{node_view};
ghost use Rattle.wire.specs.Reading.{Gives};
ghost use Rattle.checkpoint.specs.Reading.{header_with_votes_at};

use header::Node;
use sigface::Sign;
use std::alloc::Global;
use std::marker::Model;
use wire::{Header, VoteEntries, VoteEntry, WireError};
use wire_read::{Reader, header_of, votes_of};

/// What the record of an own header decodes to.
#[derive(Drop)]
pub struct ReadHeader {
    /// The header.
    pub header: Header,
    /// The other members' votes on the header, sorted by voter. Whether the voters are members isn't tested yet.
    pub votes: VoteEntries,
}

impl Model for ReadHeader {
    ghost use Rattle.spec_checkpoint.specs.Data.{KeptHeader};

    ghost Value = { KeptHeader };

    ghost view = { λ read. record { header = read.header; votes = read.votes } };
}

/// Reads an own header with its signature, and the other members' votes on it.
#[tactic(auto, using(crate::proofs::HeadersTested::kept_header_tested))]
pub fn read_header_of<S: Sign>(
    alloc: Global,
    node: &Node<S>,
    before: &[ReadHeader],
    reader: &mut Reader,
) -> Result<ReadHeader, WireError>
    ensures { Gives (λ x. (x, reader.new)) result (kept_header_at (node_view S.scheme node.now) before.now reader.old) }
{
    let read = header_with_votes_of(alloc, reader)?;
    if !may_come_next(node, before, &read) {
        return Err(WireError::NotCanonical);
    }
    Ok(read)
}

/// Reads a header with its signature, and the votes on it, whoever gave them.
#[tactic(auto, unfolding(crate::specs::Reading::header_with_votes_at))]
fn header_with_votes_of(alloc: Global, reader: &mut Reader) -> Result<ReadHeader, WireError>
    ensures { Gives (λ x. (x, reader.new)) result (header_with_votes_at reader.old) }
{
    let header = header_of(alloc, reader)?;
    let votes = votes_of(alloc, reader)?;
    Ok(ReadHeader { header, votes })
}

/// Whether the round of an own header is above those of the headers before it, and none of the votes on it is the node's own.
fn may_come_next<S: Sign>(node: &Node<S>, before: &[ReadHeader], read: &ReadHeader) -> bool
    ensures { result ≡ (header_may_follow before.now read.now.header.body.round && are_of_others (node_view S.scheme node.now) read.now.votes) }
{
    header_may_follow(before, read.header.body.round.number())
        && are_of_others(node, read.votes.as_slice())
}

/// Whether this round is above those of the own headers before it.
fn header_may_follow(before: &[ReadHeader], round: u64) -> bool
    ensures { result ≡ header_may_follow before.now round }
{
    match before.last() {
        None => true,
        Some(last) => last.header.body.round.number() < round,
    }
}

/// Whether none of the votes is the node's own.
fn are_of_others<S: Sign>(node: &Node<S>, votes: &[VoteEntry]) -> bool
    ensures { result ≡ are_of_others (node_view S.scheme node.now) votes.now }
{
    !has_vote_of(votes, node.own.0)
}

/// Whether one of these votes is by this member.
pub fn has_vote_of(votes: &[VoteEntry], voter: u16) -> bool
    ensures { result ≡ list_any (λ entry. entry.voter.0 == voter) votes.now }
{
    votes.iter().any(|entry| entry.voter.0 == voter)
}
