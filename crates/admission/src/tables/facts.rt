//! Laws on the tables. Each function does nothing: its contract is the law.

ghost use Rattle.admission.specs.After.{OthersStay};
ghost use Rattle.admission.specs.Standing.{OthersAreReady, OneState};

use crate::assemblies::others_come;
use crate::facts::{batches_stay, votes_stay};

/// A message that is neither a header nor a certificate names no parents, and so is always ready.
pub fn others_are_ready()
    ensures { OthersAreReady }
{}

/// Tables hold at most one sound state of a node.
pub fn one_state()
    ensures { OneState }
{}

// An event that adds neither a certificate nor a coin leaves the tables in agreement with the state after it, except for the table of the
// event's own kind.
pub(crate) fn others_stay()
    ensures { OthersStay }
{
    spec_machine::low_is_to_the_floor();
    batches_stay();
    votes_stay();
    others_come();
    sequencer::sequence_stays();
}
