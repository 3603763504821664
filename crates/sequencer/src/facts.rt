//! Laws of a sequencer. Each is the contract of an empty function.

ghost use Rattle.sequencer.specs.ByHistory.{ChainsByHistory, OrdersByHistory};
ghost use Rattle.sequencer.specs.Listing.{ListedIsEnough};
ghost use Rattle.sequencer.specs.Laws.{SequenceStays, CertificatesAreNew, IsLedgerOf, DagIsEnough, AreKnown};

/// After an event that adds neither a certificate nor a coin, the unchanged sequencer agrees with the state after the event.
pub fn sequence_stays()
    ensures { SequenceStays }
{}

/// The certificate that a new event adds is new to the DAG, its author is a member, and it names at least one parent.
pub fn certificates_are_new()
    ensures { CertificatesAreNew }
{}

/// A DAG with the values of coins is a ledger of the node: all that the order depends on.
pub fn is_ledger_of()
    ensures { IsLedgerOf }
{}

/// If a DAG has the certificates of a legal history from a round on that is not above the floor of a prefix of it, then leaders, support,
/// the last committed wave, the floor, and what the leaders order are the same by the DAG as by the history.
pub fn dag_is_enough()
    ensures { DagIsEnough }
{}

/// If also the base of the DAG is the round of the last leader that the prefix commits, then with the whole history's coins the DAG has the
/// history's leaders, last committed wave, and chain of newer leaders.
pub fn chains_by_history()
    ensures { ChainsByHistory }
{}

/// What each newer leader orders in such a DAG, after the leader before it, is what it orders at the history.
pub fn orders_by_history()
    ensures { OrdersByHistory }
{
    flatten::each_follows();
}

/// A list of certificates has the same last committed wave as a table that has just these in the rounds above 0.
pub fn listed_is_enough()
    ensures { ListedIsEnough }
{}

// The laws of the state machine about the state after an event, as this crate needs them.
pub(crate) fn states_go_on()
    ensures { AreKnown }
{
    spec_machine::sound_stays();
    spec_machine::state_stands();
    spec_machine::held_is_enough_now();
    spec_machine::held_is_enough_after();
}
