//! Laws of messages that passed their tests. A law is a function whose contract is a theorem and that does nothing.

ghost use Rattle.header.specs.Quorums.{PassedHaveQuorums, OnesAreCounted};
ghost use Rattle.header.specs.Signatures.{PassedAreSigned};

/// In a header or certificate that passed its tests, the parents' authors weigh a quorum; in a certificate the voters do too.
pub fn passed_have_quorums()
    ensures { PassedHaveQuorums }
{}

/// Each signature in a message that passed its tests is good: a header's for its author, a vote's for its voter, and in a certificate that
/// of each vote for its voter.
pub fn passed_are_signed()
    ensures { PassedAreSigned }
{}

/// If each member has the stake 1, parents and votes weigh in the tests as much as there are of them.
pub fn ones_are_counted()
    ensures { OnesAreCounted }
{}
