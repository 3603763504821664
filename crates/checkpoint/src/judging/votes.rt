//! Whether a checkpoint's votes for other members' headers are sound.

ghost use Rattle.std.specs.Prelude.{◌≡◌, ◌+◌, ◌<◌, ◌^◌, length, map, OnOk, IfErr};
ghost use Rattle.spec_model.specs.Holdings as holdings;
ghost use Rattle.spec_model.specs.Nodes.{node_view};
ghost use Rattle.checkpoint.specs.Judging.{NoneFails, ReportsFirst, is_vote_sound_at};
ghost use Rattle.checkpoint.specs.Kept.{vote_of};

use crate::error::LoadError;
use header::Node;
use sigface::Sign;
use votebook::Slot;
use wire::Digest;

/// Tests the votes for other members' headers. The first one is in the record at place `first`.
///
/// # Errors
/// `Unsound` with the first record whose vote isn't sound.
pub fn test_votes<S: Sign>(
    node: &Node<S>,
    floor: u64,
    first: u64,
    votes: &[(Slot, Digest)],
) -> Result<(), LoadError>
    requires { first + length votes.now < 2 ^ 64 }
    ensures ok { OnOk result (NoneFails first (map (is_vote_sound_at (node_view S.scheme node.now) floor) (map vote_of votes.now))) }
    ensures err { IfErr result (ReportsFirst first (map (is_vote_sound_at (node_view S.scheme node.now) floor) (map vote_of votes.now))) }
{
    let mut place = first;
    for vote in votes {
        if !is_vote_sound(node, floor, vote) {
            return Err(LoadError::Unsound(place));
        }
        place += 1;
    }
    Ok(())
}

/// Whether a vote is for another member's header, in a round that isn't low.
fn is_vote_sound<S: Sign>(node: &Node<S>, floor: u64, vote: &(Slot, Digest)) -> bool
    ensures { result ≡ is_vote_sound_at (node_view S.scheme node.now) floor (vote_of vote.now) }
{
    let slot = &vote.0;
    !is_low(floor, slot.round) && slot.author < node.size() && slot.author != node.own.0
}

/// Whether a round is low: it is 0, or at or below a floor above 0.
pub fn is_low(floor: u64, round: u64) -> bool
    ensures { result ≡ holdings.is_low floor round }
{
    round == 0 || (0 < floor && round <= floor)
}
