//! Laws of legal histories, proved from the definitions. Each is the contract of an empty function.
#![tactic(auto)]

ghost use Rattle.spec_laws.specs.Laws.{OneVote, OneCertificate, CoinsInTurn, OneMore, SlotsGrow, OutputsGiven, OrderGrows, OrderLengthens, HeldIsEnough, GivenGrows, ProposalsAreNew, ProposalsAreLegal, ProposalsPass, OwnVotesPass};

/// A legal history has at most one header of each round and author, so the node votes at most once for them.
pub fn one_vote()
    ensures { OneVote }
{}

/// A legal history has at most one certificate of each round and author.
pub fn one_certificate()
    ensures { OneCertificate }
{}

/// The coins of a legal history came in wave by wave: the first one is that of wave 1, the next that of wave 2, and so on.
pub fn coins_in_turn()
    ensures { CoinsInTurn }
{}

/// With one more event a history has, of each kind of message, what it had and then what the event is.
pub fn one_more()
    ensures { OneMore }
{}

/// One more event of a legal history leaves the certificate of each round and author as it is, and adds none but the certificate that the
/// event adds.
pub fn slots_grow()
    ensures { SlotsGrow }
{}

/// The outputs of a new event may be given out after the event, and those of a known event at the history as it is.
pub fn outputs_given()
    ensures { OutputsGiven }
{}

/// The order of each prefix of a legal history is a prefix of the order of the history.
pub fn order_grows()
    ensures { OrderGrows }
{}

/// A longer legal history commits the leaders of the earlier one and then newer ones; its order is the earlier order, and then what the
/// newer leaders order. To find these, the certificates of rounds from the earlier floor on are enough.
pub fn order_lengthens()
    ensures { OrderLengthens }
{}

/// The certificates of a longer legal history from some round on, at or below the earlier floor, give the same results as all of them: the
/// leaders there, which waves are committed, the floor, the newer leaders, and what each of these orders.
pub fn held_is_enough()
    ensures { HeldIsEnough }
{}

/// What may be given out after a legal history may be given out after each legal history that extends it.
pub fn given_grows()
    ensures { GivenGrows }
{}

/// The header that a node proposes after a legal history passes the checks, without those of signatures, and is new there.
pub fn proposals_are_new()
    ensures { ProposalsAreNew }
{}

/// A legal history stays legal with the header that the node proposes after it: that keeps all limits, passes the checks and is new.
pub fn proposals_are_legal()
    ensures { ProposalsAreLegal }
{}

/// If the node's signer and the verifier belong together, the header that a node proposes after a legal history passes the checks with its
/// signature too.
pub fn proposals_pass()
    ensures { ProposalsPass }
{}

/// If the node's signer and the verifier belong together, the node's vote for a header that it took passes the checks with its signature.
pub fn own_votes_pass()
    ensures { OwnVotesPass }
{}
