//! Reading an own header with the votes on it out of a validator's tables, vote by vote.

ghost use Rattle.std.specs.Prelude.{◌≡◌, IfOk, IsTrue, Some, None, slice_index_or};
ghost use Rattle.certify.specs.Assembled.{is_on};
ghost use Rattle.checkpoint.specs.Parts.{AreOf, IsCountedBy, other_votes};

use admission::VotedHeader;
use certify::Assembly;
use committee::MAX_MEMBERS;
use std::alloc::{AllocError, Global};
use wire::{Author, Signature, Vote, VoteEntry, header_digest};

/// An own header with the votes on it: the validator's own vote, and those of other members.
pub fn voted_header(
    alloc: Global,
    own: Author,
    assembly: &Assembly,
) -> Result<VotedHeader, AllocError>
    ensures { IfOk result (λ voted. AreOf own.0 assembly.now voted.header voted.vote voted.votes.items) }
{
    let header = assembly.header().try_clone()?;
    let vote = own_vote(own, assembly)?;
    Ok(VotedHeader {
        header,
        vote,
        votes: others(alloc, own, assembly)?,
    })
}

/// The validator's own vote on a header.
fn own_vote(own: Author, assembly: &Assembly) -> Result<Vote, AllocError>
    ensures { IfOk result (IsCountedBy own.0 assembly.now) }
{
    let signature = signature_of(own, assembly)?;
    let body = &assembly.header().body;
    Ok(Vote {
        header: header_digest(body),
        round: body.round,
        author: body.author,
        voter: own,
        signature,
    })
}

/// The signature of this member's counted vote on a header.
fn signature_of(voter: Author, assembly: &Assembly) -> Result<Signature, AllocError>
    ensures { IfOk result (λ signature. slice_index_or assembly.now.places voter.0 None ≡ Some signature) }
{
    for place in 0..usize::MAX {
        let Some(entry) = assembly.nth(place) else {
            break;
        };
        if entry.voter == voter {
            return Ok(entry.signature);
        }
    }
    // This is never reached: the validator's own vote is always counted.
    Err(AllocError)
}

/// The other members' votes on a header.
fn others(alloc: Global, own: Author, assembly: &Assembly) -> Result<Vec<VoteEntry>, AllocError>
    ensures { IfOk result (λ votes. votes.items ≡ other_votes own.0 assembly.now.places) }
{
    assembly.limits_hold();
    let mut votes = Vec::new(alloc);
    for place in 0..MAX_MEMBERS as usize {
        let Some(entry) = assembly.nth(place) else {
            return Ok(votes);
        };
        if entry.voter != own {
            votes.push(entry)?;
        }
    }
    Ok(votes)
}
