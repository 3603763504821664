//! The state of a node as a state machine: what it answers to an event, and the state after a new event; with the laws that tie it to the
//! definitions over histories. Each law is the contract of an empty function.
#![tactic(auto)]

ghost use Rattle.spec_machine.specs.After.{StatesAreHistories, OrderGrowsAfter, AfterJoins, PutOutMayBeGiven};
ghost use Rattle.spec_machine.specs.Laws.{StartsFresh, StateFollows, StateAnswers, StateIsReady, StateProposes, AnswersAlike, KeptDecides, KeptFollows, KeptProposes, OrderIsPutOut, StateStands, FreshIsSound, SoundStays, KeptIsSound, SoundProposes, FloorsAgree, LowIsToTheFloor, HeldGoesOn, HeldIsEnoughNow, HeldIsEnoughAfter};

/// The state kept of the empty history is the fresh state.
pub fn starts_fresh()
    ensures { StartsFresh }
{}

/// The state kept of a legal history with one more event is the state that the machine reaches by that event.
pub fn state_follows()
    ensures { StateFollows }
{}

/// The machine at the state kept of a legal history answers each event as the history does.
pub fn state_answers()
    ensures { StateAnswers }
{}

/// The machine at the state kept of a legal history says which events lack parents, as the history does.
pub fn state_is_ready()
    ensures { StateIsReady }
{}

/// The state kept of a legal history has the history's floor and round, and the node proposes the same header at both.
pub fn state_proposes()
    ensures { StateProposes }
{}

/// Two legal histories with the same batches, acknowledgements, votes, own headers with the votes on them,
/// certificates and coins answer each event alike.
pub fn answers_alike()
    ensures { AnswersAlike }
{}

/// The state kept of a legal history decides the answer to each event: two histories that keep the same state answer alike.
pub fn kept_decides()
    ensures { KeptDecides }
{}

/// The state kept of a legal history decides the state kept after each new event, and so all later answers.
pub fn kept_follows()
    ensures { KeptFollows }
{}

/// The state kept of a legal history decides in which round the node is, and which header it proposes.
pub fn kept_proposes()
    ensures { KeptProposes }
{}

/// A new event puts out all that the order gains by it, in pieces that follow one another without a gap.
pub fn order_is_put_out()
    ensures { OrderIsPutOut }
{}

/// An event that is new at a sound state takes nothing back: the earlier order is a prefix of the later one; a vote stays unless its round
/// is low; a certificate stays unless it is below the floor, which never falls.
pub fn state_stands()
    ensures { StateStands }
{}

/// The fresh state is sound: a node can go on from it.
pub fn fresh_is_sound()
    ensures { FreshIsSound }
{}

/// The state after an event that is new at a sound state is sound.
pub fn sound_stays()
    ensures { SoundStays }
{}

/// The state kept of a legal history is sound.
pub fn kept_is_sound()
    ensures { KeptIsSound }
{}

/// The header that a node proposes at a sound state can be taken, and is new there.
pub fn sound_proposes()
    ensures { SoundProposes }
{}

/// If an event is new at a sound state, the state after it has the same floor before and after what is below that floor was dropped.
pub fn floors_agree()
    ensures { FloorsAgree }
{}

/// A round is low if and only if it is at or below the floor.
pub fn low_is_to_the_floor()
    ensures { LowIsToTheFloor }
{}

/// If two tables of certificates agree from a round on, they still do after one certificate was added to both, and after the rounds below a
/// higher round were dropped.
pub fn held_goes_on()
    ensures { HeldGoesOn }
{}

/// The certificates of a sound state from some round on, at or below its floor, are enough. They give the same results as all of them: the
/// leaders there, which waves are committed, the floor, the newer leaders, and what each of these orders.
pub fn held_is_enough_now()
    ensures { HeldIsEnoughNow }
{}

/// The certificates of a sound state from some round on, at or below its floor, and the one that a new event adds are enough: they give the
/// same results as all of them. What they order extends the state's order, and after the event they hold the new state's certificates from
/// its floor on.
pub fn held_is_enough_after()
    ensures { HeldIsEnoughAfter }
{}

/// Events after the state kept of a legal history lead to the state kept of the history with them. They are legal after that state if and
/// only if that history is legal.
pub fn states_are_histories()
    ensures { StatesAreHistories }
{}

/// The state after events that are legal after a sound state is sound, and the order before them is a prefix of the order after them.
pub fn order_grows_after()
    ensures { OrderGrowsAfter }
{}

/// Two lists of events together lead where first the one and then the other leads.
pub fn after_joins()
    ensures { AfterJoins }
{}

/// An output that was put out after events that follow a sound state may be given out after each legal history that keeps the state and
/// then has these events.
pub fn put_out_may_be_given()
    ensures { PutOutMayBeGiven }
{}
