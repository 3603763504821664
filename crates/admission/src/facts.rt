//! Laws on how the tables of batches and of votes agree with a node's state. Each function does nothing: its contract is the law.

ghost use Rattle.admission.specs.Laws.{BatchesRead, NameableAgrees, BatchesStay, VotesStay, VoteIsKept, StartsEmpty};

use spec_machine::floors_agree;

/// Each look-up in a store of batches gives what the state has, if the store has the state's batches.
pub fn batches_read()
    ensures { BatchesRead }
{}

/// A store that has the batches of a state lists exactly those that the state allows a header to name.
pub fn nameable_agrees()
    ensures { NameableAgrees }
{}

/// An event that is neither a batch, an acknowledgement nor an own header changes no batch: the store agrees with the state after it.
pub fn batches_stay()
    ensures { BatchesStay }
{}

/// If a new event is no other member's header, the book of votes without the low rounds agrees with the state after the event.
pub fn votes_stay()
    ensures { VotesStay }
{
    floors_agree();
}

/// If a new event is another member's header, the book with the vote for it, without the low rounds, agrees with the state after the event.
pub fn vote_is_kept()
    ensures { VoteIsKept }
{
    floors_agree();
}

/// An empty store of batches and an empty book of votes agree with the fresh state, in which no event was taken.
pub fn starts_empty()
    ensures { StartsEmpty }
{}
