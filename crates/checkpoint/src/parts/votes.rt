//! Reading the votes for other members' headers out of a validator's tables, vote by vote.

ghost use Rattle.std.specs.Prelude.{◌≡◌, IfOk};
ghost use Rattle.std.specs.FinMap as map;

use std::alloc::{AllocError, Global};
use votebook::{Slot, VoteBook};
use wire::Digest;

/// The slots of other members' headers for which the validator voted, each with the header's digest.
pub fn votes_of(alloc: Global, votes: &VoteBook) -> Result<Vec<(Slot, Digest)>, AllocError>
    ensures { IfOk result (λ found. found.items ≡ map.entries votes.now) }
{
    let mut found = Vec::new(alloc);
    for place in 0..usize::MAX {
        let Some(vote) = votes.nth(place) else {
            return Ok(found);
        };
        found.push(vote)?;
    }
    // This is never reached: no memory holds so many votes.
    unreachable!()
}
