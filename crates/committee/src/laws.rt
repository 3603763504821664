//! Laws of weights: what two quorums share, what quorums and support weigh, and that honest members are among them. A law is a function
//! whose contract is a theorem and that does nothing.

ghost use Rattle.std.specs.Prelude.{◌≡◌};
ghost use Rattle.committee.specs.Shared.{QuorumsOverlap, QuorumMeetsSupport, SomeIfWeighs, SupportIsHonest, ToleratedLeaveQuorum, HonestAreQuorum, QuorumsShareHonest, SupportHasHonest, EqualStakes};
ghost use Rattle.committee.specs.declared.limits.TheConstants.{MIN_DEPTH, MAX_DEPTH, DEFAULT_DEPTH, MIN_WORKERS, MAX_WORKERS, DEFAULT_WORKERS, MIN_HELD_BATCHES, MAX_HELD_BATCHES, DEFAULT_HELD_BATCHES};
ghost use Rattle.committee.specs.declared.members.TheConstants.{MIN_MEMBERS, MAX_MEMBERS};
ghost use Rattle.committee.specs.declared.stakes.TheConstants.{MIN_STAKE, MAX_STAKE, DEFAULT_STAKE, MAX_TOTAL};

/// Any two quorums of a committee share members who weigh more than is tolerated, so at least one honest member.
pub fn quorums_overlap()
    ensures { QuorumsOverlap }
{}

/// Any quorum of a committee shares a member with any members who weigh enough for support.
pub fn quorum_meets_support()
    ensures { QuorumMeetsSupport }
{}

/// If the members for whom a test holds weigh more than 0, there is such a member.
pub fn some_if_weighs()
    ensures { SomeIfWeighs }
{}

/// Members who weigh enough for support weigh more than is tolerated.
pub fn support_is_honest()
    ensures { SupportIsHonest }
{}

/// If members who weigh what is tolerated are taken away, the others still weigh a quorum.
pub fn tolerated_leave_quorum()
    ensures { ToleratedLeaveQuorum }
{}

/// If the faulty members weigh no more than is tolerated, all others together are a quorum.
pub fn honest_are_quorum()
    ensures { HonestAreQuorum }
{}

/// If the faulty members weigh no more than is tolerated, any two quorums share a member who isn't faulty.
pub fn quorums_share_honest()
    ensures { QuorumsShareHonest }
{}

/// If the faulty members weigh no more than is tolerated, any members who weigh enough for support include one who isn't faulty.
pub fn support_has_honest()
    ensures { SupportHasHonest }
{}

/// If each member has the stake 1, a set of members weighs as much as it has members: of 3f + 1 members, 2f + 1 are a quorum, f + 1 are
/// support, and f are tolerated.
pub fn equal_stakes()
    ensures { EqualStakes }
{}

/// The limits of a committee as numbers. The call does nothing: it is a theorem.
pub fn limits_in_numbers()
    ensures least_members { MIN_MEMBERS ≡ 4 }
    ensures most_members { MAX_MEMBERS ≡ 31 }
    ensures least_stake { MIN_STAKE ≡ 1 }
    ensures greatest_stake { MAX_STAKE ≡ 1000000 }
    ensures stake { DEFAULT_STAKE ≡ 1 }
    ensures greatest_total { MAX_TOTAL ≡ 31000000 }
    ensures least_depth { MIN_DEPTH ≡ 2 }
    ensures greatest_depth { MAX_DEPTH ≡ 1000 }
    ensures depth { DEFAULT_DEPTH ≡ 50 }
    ensures least_workers { MIN_WORKERS ≡ 1 }
    ensures most_workers { MAX_WORKERS ≡ 16 }
    ensures workers { DEFAULT_WORKERS ≡ 1 }
    ensures least_batches { MIN_HELD_BATCHES ≡ 1 }
    ensures most_batches { MAX_HELD_BATCHES ≡ 1048576 }
    ensures batches { DEFAULT_HELD_BATCHES ≡ 1048576 }
{}
