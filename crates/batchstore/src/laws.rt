//! Laws on the sets of members who acknowledged a batch. Each function does nothing: its contract is the law.

ghost use Rattle.std.specs.Prelude.{◌≡◌, ℕ, ◌||◌, ◌==◌, false};
ghost use Rattle.committee.specs.Sets.{has};
ghost use Rattle.committee.specs.declared.sets.MemberSet.{MemberSet};
ghost use Rattle.batchstore.specs.Answer.{no_members, with_member};

/// The set without members has no member.
pub fn nobody_acknowledged()
    ensures { (member : ℕ) → has no_members member ≡ false }
{}

/// The set to which a member is added has that member and those that it had before, and no other.
pub fn acknowledgements_add_up()
    ensures { (members : MemberSet) (member other : ℕ) → has (with_member members member) other ≡ (has members other || (other == member)) }
{}
