//! Sets of members.

ghost use Rattle.std.specs.Prelude.{◌≡◌, ℕ, ◌<◌, ◌&&◌, ◌||◌, ◌==◌, not, false};
ghost use Rattle.std.specs.Int.{bit_at};
ghost use Rattle.committee.specs.Sets.{has};
ghost use Rattle.committee.specs.declared.members.TheConstants.{MAX_MEMBERS};

use wire::Author;

/// A set of members: one bit for each.
#[derive(Clone, Copy, Debug, PartialEq, Eq)]
pub struct MemberSet {
    bits: u32,
}

// Whether the bit at this place is 1. From place 32 on there is no bit.
fn is_set(bits: u32, place: u16) -> bool
    ensures { result ≡ (bit_at bits place == 1) }
{
    place < u32::BITS as u16 && (bits >> place) & 1 == 1
}

impl MemberSet {
    /// The empty set.
    pub fn none() -> MemberSet
        ensures { (member : ℕ) → has result member ≡ false }
    {
        MemberSet { bits: 0 }
    }

    /// Puts a member into the set.
    pub fn insert(&mut self, member: Author)
        requires member { member.0 < MAX_MEMBERS }
        ensures { (other : ℕ) → has self.new other ≡ (has self.old other || (other == member.0)) }
    {
        self.bits |= 1 << member.0;
    }

    /// Adds the members of another set.
    pub fn unite(&mut self, more: &MemberSet)
        ensures { (member : ℕ) → has self.new member ≡ (has self.old member || has more.now member) }
    {
        self.bits |= more.bits;
    }

    /// Keeps only the members that another set has too.
    pub fn retain(&mut self, others: &MemberSet)
        ensures { (member : ℕ) → has self.new member ≡ (has self.old member && has others.now member) }
    {
        self.bits &= others.bits;
    }

    /// Removes the members of another set.
    pub fn remove_all(&mut self, others: &MemberSet)
        ensures { (member : ℕ) → has self.new member ≡ (has self.old member && not (has others.now member)) }
    {
        // The members that are in both sets.
        let common = self.bits & others.bits;
        self.bits ^= common;
    }

    /// Whether a member is in the set. No set has a member with a number of 32 or more.
    pub fn contains(&self, member: Author) -> bool
        ensures { result ≡ has self.now member.0 }
    {
        is_set(self.bits, member.0)
    }
}
