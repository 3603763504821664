//! Makes the certificate of the votes that count and one vote more.

ghost use Rattle.std.specs.Prelude.{◌≡◌, ◌<◌, ◌≤◌, length, replicate, IfOk, None, slice_get, slice_index_or};
ghost use Rattle.certify.specs.Answer.{certificate_of};
ghost use Rattle.certify.specs.Assembled.{with_vote, votes_in};
ghost use Rattle.committee.specs.declared.members.TheConstants.{MAX_MEMBERS};

use std::alloc::{AllocError, Global};
use wire::{Author, Certificate, HeaderBody, Signature, Vote, VoteEntries, VoteEntry};

/// A list of signatures by members, `size` places long, in which no member has voted yet.
pub(crate) fn no_votes(alloc: Global, size: usize) -> Result<Vec<Option<Signature>>, AllocError>
    ensures { IfOk result (λ places. places.items ≡ replicate size None) }
{
    vec![in alloc; None; size]
}

fn signature_with(places: &[Option<Signature>], vote: &Vote, member: usize) -> Option<Signature>
    requires voter { vote.now.voter.0 < length places.now }
    requires member { member < length places.now }
    ensures { result ≡ slice_index_or (with_vote places.now vote.now) member None }
{
    if member == vote.voter.0 as usize {
        Some(vote.signature)
    } else {
        places[member]
    }
}

/// One of the votes at these places, where each member that has voted has its signature at the member's number: of these votes, sorted by
/// voter and counted from 0, the one with the number `place`. None if there are not so many.
pub(crate) fn nth_vote(places: &[Option<Signature>], place: usize) -> Option<VoteEntry>
    requires { length places.now ≤ MAX_MEMBERS }
    ensures { result ≡ slice_get (votes_in places.now) place }
{
    let mut before = place;
    for member in 0..places.len() {
        if let Some(signature) = places[member] {
            if before == 0 {
                return Some(VoteEntry {
                    voter: Author(member as u16),
                    signature,
                });
            }
            before -= 1;
        }
    }
    None
}

fn votes_with(
    alloc: Global,
    places: &[Option<Signature>],
    vote: &Vote,
) -> Result<VoteEntries, AllocError>
    requires size { length places.now ≤ MAX_MEMBERS }
    requires voter { vote.now.voter.0 < length places.now }
    ensures { IfOk result (λ votes. votes ≡ votes_in (with_vote places.now vote.now)) }
{
    let mut votes = VoteEntries::new(alloc);
    for member in 0..places.len() {
        if let Some(signature) = signature_with(places, vote, member) {
            votes.push(VoteEntry {
                voter: Author(member as u16),
                signature,
            })?;
        }
    }
    Ok(votes)
}

/// The certificate of a header with the votes at these places and one vote more.
pub(crate) fn certificate_with(
    alloc: Global,
    body: &HeaderBody,
    places: &[Option<Signature>],
    vote: &Vote,
) -> Result<Certificate, AllocError>
    requires size { length places.now ≤ MAX_MEMBERS }
    requires voter { vote.now.voter.0 < length places.now }
    ensures { IfOk result (λ certificate. certificate ≡ certificate_of body.now (with_vote places.now vote.now)) }
{
    let header = body.try_clone()?;
    let votes = votes_with(alloc, places, vote)?;
    Ok(Certificate { header, votes })
}
