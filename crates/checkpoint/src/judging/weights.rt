//! The weight of the members whose votes on an own header a checkpoint has, and what is missing without one of them.

ghost use Rattle.std.specs.Prelude.{◌≡◌, ◌==◌, ◌&&◌, ℕ, length, not, nat_lt};
ghost use Rattle.std.specs.List.{list_any};
ghost use Rattle.committee.specs.Charter.{weight};
ghost use Rattle.committee.specs.Sets.{has};
ghost use Rattle.spec_checkpoint.specs.Faults as faults;
ghost use Rattle.spec_model.specs.Nodes.{node_view, quorum};

use crate::reading::{ReadHeader, has_vote_of};
use committee::MemberSet;
use header::Node;
use sigface::Sign;
use wire::{Author, VoteEntry};

/// The weight of the members who have a vote on an own header, the node itself included.
pub fn weight_of_voters<S: Sign>(node: &Node<S>, read: &ReadHeader) -> u64
    ensures { result ≡ weight node.now.committee (faults.has_kept (node_view S.scheme node.now) read.now) }
{
    node.committee.weight(&voters(node, read))
}

/// The members who have a vote on an own header, the node itself included.
#[tactic(auto, using(crate::proofs::Sets::in_more, crate::proofs::Sets::out_more))]
fn voters<S: Sign>(node: &Node<S>, read: &ReadHeader) -> MemberSet
    ensures { (member : ℕ) → has result member ≡ (nat_lt member (length node.now.committee.keys) && faults.has_kept (node_view S.scheme node.now) read.now member) }
{
    let size = node.size();
    let mut found = MemberSet::none();
    for voter in 0..size {
        if has_kept(node, read, voter) {
            found.insert(Author(voter));
        }
    }
    found
}

/// Whether a member has a vote on an own header; the node itself always has.
fn has_kept<S: Sign>(node: &Node<S>, read: &ReadHeader, voter: u16) -> bool
    ensures { result ≡ faults.has_kept (node_view S.scheme node.now) read.now voter }
{
    voter == node.own.0 || has_vote_of(read.votes.as_slice(), voter)
}

/// Whether one of these votes is needed: without it the votes on an own header weigh less than a quorum.
pub fn is_one_needed<S: Sign>(node: &Node<S>, read: &ReadHeader, votes: &[VoteEntry]) -> bool
    ensures { let seen = node_view S.scheme node.now in result ≡ list_any (λ entry. nat_lt (weight seen.charter (λ voter. faults.has_kept seen read.now voter && not (voter == entry.voter.0))) (quorum seen)) votes.now }
{
    votes.iter().any(|entry| is_needed(node, read, entry))
}

/// Whether this vote is needed: without it the votes on an own header weigh less than a quorum.
fn is_needed<S: Sign>(node: &Node<S>, read: &ReadHeader, entry: &VoteEntry) -> bool
    ensures { let seen = node_view S.scheme node.now in result ≡ nat_lt (weight seen.charter (λ voter. faults.has_kept seen read.now voter && not (voter == entry.now.voter.0))) (quorum seen) }
{
    weight_of_others(node, read, entry.voter.0) < node.quorum()
}

/// The weight of the members who have a vote on an own header, except the member `left_out`.
fn weight_of_others<S: Sign>(node: &Node<S>, read: &ReadHeader, left_out: u16) -> u64
    ensures { result ≡ weight node.now.committee (λ voter. faults.has_kept (node_view S.scheme node.now) read.now voter && not (voter == left_out)) }
{
    node.committee.weight(&other_voters(node, read, left_out))
}

/// The members who have a vote on an own header, except the member `left_out`.
#[tactic(auto, using(crate::proofs::Sets::in_more, crate::proofs::Sets::out_more))]
fn other_voters<S: Sign>(node: &Node<S>, read: &ReadHeader, left_out: u16) -> MemberSet
    ensures { (member : ℕ) → has result member ≡ (nat_lt member (length node.now.committee.keys) && (faults.has_kept (node_view S.scheme node.now) read.now member && not (member == left_out))) }
{
    let size = node.size();
    let mut found = MemberSet::none();
    for voter in 0..size {
        if has_kept_of_others(node, read, left_out, voter) {
            found.insert(Author(voter));
        }
    }
    found
}

/// Whether a member has a vote on an own header and isn't the member `left_out`.
fn has_kept_of_others<S: Sign>(node: &Node<S>, read: &ReadHeader, left_out: u16, voter: u16) -> bool
    ensures { result ≡ (faults.has_kept (node_view S.scheme node.now) read.now voter && not (voter == left_out)) }
{
    has_kept(node, read, voter) && voter != left_out
}
