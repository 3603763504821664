//! Laws on how a table of own headers agrees with a node's state. Each function does nothing: its contract is the law.

ghost use Rattle.admission.specs.HeaderLaws.{StartsFresh, VotesAgree, HeaderComes, VoteComes, OthersCome};

use spec_machine::floors_agree;

/// A table without headers agrees with the fresh state, in which no event was taken.
pub fn starts_fresh()
    ensures { StartsFresh }
{}

/// If a table agrees with a sound state, it has for each own header the digest that the node voted for, and the same counted votes as the
/// state.
pub fn votes_agree()
    ensures { VotesAgree }
{}

/// When a new own header comes, its round has none yet. With this header and the node's vote on it added, and the rounds up to the floor
/// dropped, the table agrees with the state after the event.
pub fn header_comes()
    ensures { HeaderComes }
{
    floors_agree();
}

/// When a new vote comes, it is counted. If it completes a certificate in the node's state, it completes the same one in the table. With
/// the vote counted and the rounds up to the floor dropped, the table agrees with the state after the event.
pub fn vote_comes()
    ensures { VoteComes }
{
    floors_agree();
}

/// When any other new event comes, the table without the rounds up to the floor agrees with the state after the event.
pub fn others_come()
    ensures { OthersCome }
{
    floors_agree();
}
