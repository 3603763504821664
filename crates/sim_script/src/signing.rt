//! Signs votes and certificates of a script's members, with the keys of the tests.

ghost use Rattle.std.specs.Prelude.{◌≤◌, length, vec_len};

use crate::error::FormError;
use crate::labels::Proposed;
use crate::words::member;
use sigface::{HashSign, Sign};
use std::alloc::{AllocError, Global};
use wire::{Author, Certificate, Key, MAX_VOTES, Vote, VoteEntries, VoteEntry, WireError};

/// The signer of a member: its key is one byte, the member's number plus 1, 32 times. Any other number in a script has a signer too.
pub fn signer(author: Author) -> HashSign {
    let [_, low] = author.0.to_be_bytes();
    HashSign::new(Key([low.wrapping_add(1); 32]))
}

/// The vote of this member on a header, with its signature.
pub fn vote(proposed: &Proposed, voter: Author) -> Vote {
    Vote {
        header: proposed.digest,
        round: proposed.header.body.round,
        author: proposed.header.body.author,
        voter,
        signature: signer(voter).sign(&proposed.certificate),
    }
}

/// The certificate of a header, with the votes of the members that a script lists.
pub fn certificate(
    alloc: Global,
    proposed: &Proposed,
    voters: &str,
) -> Result<Certificate, FormError> {
    let voters = voters_of(alloc, voters)?;
    let votes = votes_of(alloc, proposed, &voters)?;
    Ok(Certificate {
        header: proposed.header.body.try_clone()?,
        votes,
    })
}

// Reads the members that a script lists, separated by commas.
fn voters_of(alloc: Global, text: &str) -> Result<Vec<Author>, FormError> {
    let mut voters = Vec::new(alloc);
    if text == "-" {
        return Ok(voters);
    }
    for word in text.split(',') {
        let Some(voter) = member(word) else {
            return Err(FormError::BadCommand);
        };
        voters.push(voter)?;
    }
    Ok(voters)
}

// The votes of these members, who are few enough for a certificate and in ascending order.
fn votes_of(
    alloc: Global,
    proposed: &Proposed,
    voters: &[Author],
) -> Result<VoteEntries, WireError> {
    if voters.len() > MAX_VOTES {
        return Err(WireError::TooMany);
    }
    let mut votes = VoteEntries::new(alloc);
    for voter in voters {
        if !votes.may_follow(*voter) {
            return Err(WireError::NotCanonical);
        }
        votes.push(VoteEntry {
            voter: *voter,
            signature: signer(*voter).sign(&proposed.certificate),
        })?;
    }
    Ok(votes)
}
