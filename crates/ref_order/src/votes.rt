//! The votes on an own header that count, and the certificate that they make.

ghost use Rattle.std.specs.Prelude.{◌≡◌, ◌≤◌, ℕ, ◌&&◌, nat_lt, length, IfOk, IfSome, Option, filter_map, is_some, option_map};
ghost use Rattle.spec_model.specs.Holdings as holdings;
ghost use Rattle.committee.specs.Charter.{numbers, weight};
ghost use Rattle.committee.specs.Sets.{has};
ghost use Rattle.spec_model.specs.Nodes.{node_view};
ghost use Rattle.spec_model.specs.Words.{Vote};
ghost use Rattle.wire.specs.declared.limits.TheConstants.{MAX_VOTES};

use committee::MemberSet;
use header::Node;
use sigface::Sign;
use std::alloc::{AllocError, Global};
use wire::{Author, Certificate, Header, Vote, VoteEntries, VoteEntry};

/// A source of the votes on an own header that count.
pub trait Counted {
    /// The vote of each member that counts, if there is one.
    ghost vote_of: { Self → ℕ → Option Vote };

    /// The vote of this member that counts, if there is one.
    fn vote(&self, voter: u16) -> Option<Vote>
        ensures value { result ≡ vote_of self.now voter }
        ensures voter { IfSome result (λ vote. vote.voter.0 ≡ voter) };
}

/// The vote of this member that counts, as it stands in a certificate.
fn entry<C: Counted>(counted: &C, voter: u16) -> Option<VoteEntry>
    ensures value { result ≡ option_map holdings.entry_of (C.vote_of counted.now voter) }
    ensures voter { IfSome result (λ entry. entry.voter.0 ≡ voter) }
{
    match counted.vote(voter) {
        None => None,
        Some(vote) => Some(VoteEntry {
            voter: vote.voter,
            signature: vote.signature,
        }),
    }
}

/// The votes of the first `size` members that count, sorted by voter.
#[tactic(auto, using(crate::proofs::Ranges::one_more, crate::proofs::Ranges::none_more, crate::proofs::Voters::follows_more, crate::proofs::Voters::follows_next))]
fn votes_of<C: Counted>(alloc: Global, counted: &C, size: u16) -> Result<VoteEntries, AllocError>
    requires { size ≤ MAX_VOTES }
    ensures { IfOk result (λ found. found ≡ filter_map (λ voter. option_map holdings.entry_of (C.vote_of counted.now voter)) (numbers size)) }
{
    let mut found = VoteEntries::new(alloc);
    for voter in 0..size {
        if let Some(entry) = entry(counted, voter) {
            found.push(entry)?;
        }
    }
    Ok(found)
}

/// The votes of all members that count, sorted by voter.
pub fn votes_by<S: Sign, C: Counted>(
    alloc: Global,
    node: &Node<S>,
    counted: &C,
) -> Result<VoteEntries, AllocError>
    ensures { IfOk result (λ found. found ≡ holdings.votes_by (node_view S.scheme node.now) (C.vote_of counted.now)) }
{
    votes_of(alloc, counted, node.size())
}

/// The members who have a vote that counts.
#[tactic(auto, using(crate::proofs::Sets::in_more, crate::proofs::Sets::out_more))]
fn voters<S: Sign, C: Counted>(node: &Node<S>, counted: &C) -> MemberSet
    ensures { (member : ℕ) → has result member ≡ (nat_lt member (length node.now.committee.keys) && is_some (C.vote_of counted.now member)) }
{
    let size = node.size();
    let mut voted = MemberSet::none();
    for voter in 0..size {
        if counted.vote(voter).is_some() {
            voted.insert(Author(voter));
        }
    }
    voted
}

/// The weight of the members who have a vote that counts.
fn weight_of_voters<S: Sign, C: Counted>(node: &Node<S>, counted: &C) -> u64
    ensures { result ≡ weight node.now.committee (λ voter. is_some (C.vote_of counted.now voter)) }
{
    node.committee.weight(&voters(node, counted))
}

/// The certificate of an own header with the votes that count; None if they weigh less than a quorum.
pub fn certificate_by<S: Sign, C: Counted>(
    alloc: Global,
    node: &Node<S>,
    counted: &C,
    header: &Header,
) -> Result<Option<Certificate>, AllocError>
    ensures { IfOk result (λ found. found ≡ holdings.certificate_by (node_view S.scheme node.now) (C.vote_of counted.now) header.now) }
{
    if !node.is_own(header.body.author) {
        return Ok(None);
    }
    if weight_of_voters(node, counted) < node.quorum() {
        return Ok(None);
    }
    let votes = votes_by(alloc, node, counted)?;
    let header = header.body.try_clone()?;
    Ok(Some(Certificate { header, votes }))
}
