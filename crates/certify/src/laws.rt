//! Laws of the votes in every assembly. Each is the contract of an empty function.

ghost use Rattle.certify.specs.Votes.{VotesRise, VotersHavePlaces, VotesWeigh};

/// The votes that count are sorted by voter, and no voter occurs twice.
pub fn votes_rise()
    ensures { VotesRise }
{}

/// The voter of each vote that counts has a place.
pub fn voters_have_places()
    ensures { VotersHavePlaces }
{}

/// The stakes of the voters add up to the weight of the members whose votes count.
pub fn votes_weigh()
    ensures { VotesWeigh }
{}
