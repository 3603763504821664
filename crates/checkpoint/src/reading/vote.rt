//! Reading the record of a vote for another member's header in a checkpoint.

ghost use Rattle.std.specs.Prelude.{◌≡◌, map};
ghost use Rattle.spec_checkpoint.specs.Reading.{kept_vote_at, vote_may_follow};
ghost use Rattle.wire.specs.Reading.{Gives};
ghost use Rattle.checkpoint.specs.Kept.{vote_of};

use crate::reading::place::place_before;
use votebook::Slot;
use wire::{Digest, WireError};
use wire_read::Reader;

/// Reads a vote: the author and round of the header, and its digest. The slot has to come after those of the votes before it.
#[tactic(auto, unfolding(spec_checkpoint::specs::Reading::kept_vote_at))]
pub fn read_vote_of(
    before: &[(Slot, Digest)],
    reader: &mut Reader,
) -> Result<(Slot, Digest), WireError>
    ensures { Gives (λ x. (vote_of x, reader.new)) result (kept_vote_at (map vote_of before.now) reader.old) }
{
    let author = reader.u16()?;
    let round = reader.round()?.number();
    let header = reader.digest()?;
    if !vote_may_follow(before, round, author) {
        return Err(WireError::NotCanonical);
    }
    Ok((Slot { round, author }, header))
}

/// Whether this slot comes, by round and then author, after those of the votes that were read before it.
fn vote_may_follow(before: &[(Slot, Digest)], round: u64, author: u16) -> bool
    ensures { result ≡ vote_may_follow (map vote_of before.now) round author }
{
    match before.last() {
        None => true,
        Some((last, _)) => place_before(last.round, last.author, round, author),
    }
}
