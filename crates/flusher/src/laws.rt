//! A law of all outputs that callers collect. It is the contract of a call that does nothing.

ghost use Rattle.flusher.specs.Collected.{CollectedIsWithin, CollectedVotesAgree, CollectedOrdersAgree};

use sigface::Sign;
use spec_world::what_goes_out_agrees;

/// Outputs that callers have collected never contradict each other, whatever a stop leaves. After a round that covers the callers' seats,
/// whatever a stop leaves is read as the state kept of a history that starts with one leading to the node's base and then has all that the
/// seats know as settled. Each of these outputs may go out within that history. So by `what_goes_out_agrees` of `spec_world` no two votes
/// differ for the same author and round, and the pieces that were collected or read stand in one order, each at its place.
pub fn collected_agrees<S: Sign>()
    ensures within { CollectedIsWithin S }
    ensures votes { CollectedVotesAgree S }
    ensures orders { CollectedOrdersAgree S }
{
    what_goes_out_agrees();
}
