//! Whether an entry of a table fits a look-up.

ghost use Rattle.std.specs.Prelude.{◌≡◌, IfSome};
ghost use Rattle.spec_model.specs.Holdings.{batch_digest};
ghost use Rattle.spec_model.specs.Slots.{same_digest};
ghost use Rattle.ref_machine.specs.Tables.{acks_it, votes_for, of_round, counts_for, counted_in};

use crate::tables::SlotVote;
use wire::{Batch, BatchAck, Digest, Header, Vote};

/// Whether a batch is the one with this digest.
pub fn is_batch(batch: &Batch, digest: &Digest) -> bool
    ensures { result ≡ same_digest (batch_digest batch.now) digest.now }
{
    wire::batch_digest(batch) == *digest
}

/// Whether an acknowledgement is of the batch with this digest, by this member.
pub fn is_ack(ack: &BatchAck, digest: &Digest, member: u16) -> bool
    ensures { result ≡ acks_it digest.now member ack.now }
{
    ack.batch == *digest && ack.author.0 == member
}

/// Whether a vote of the node is for a header of this round and author.
pub fn is_of_slot(vote: &SlotVote, round: u64, author: u16) -> bool
    ensures { result ≡ votes_for round author vote.now }
{
    vote.round.number() == round && vote.author.0 == author
}

/// Whether a header is of this round.
pub fn is_of_round(header: &Header, round: u64) -> bool
    ensures { result ≡ of_round round header.now }
{
    header.body.round.number() == round
}

/// Whether a vote is by this member, and on the own header of this round.
pub fn is_counted(vote: &Vote, round: u64, voter: u16) -> bool
    ensures { result ≡ counts_for round voter vote.now }
{
    vote.round.number() == round && vote.voter.0 == voter
}

/// The vote of a member on the own header of this round that counts.
pub fn first_vote(votes: &[Vote], round: u64, voter: u16) -> Option<Vote>
    ensures value { result ≡ counted_in votes.now round voter }
    ensures voter { IfSome result (λ vote. vote.voter.0 ≡ voter) }
{
    for vote in votes {
        if is_counted(vote, round, voter) {
            return Some(*vote);
        }
    }
    None
}
