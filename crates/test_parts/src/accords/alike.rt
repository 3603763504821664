//! Whether two committees or headers are the same, and whether one of two lists is a prefix of the other.

ghost use Rattle.std.specs.Prelude.{◌≡◌, ◌↔◌, IsTrue, slice_get};
ghost use Rattle.spec_accord.specs.Accord.{Agree};
ghost use Rattle.wire.specs.Lists.{Begins};
ghost use Rattle.spec_model.specs.Admitting as admitting;
ghost use Rattle.test_parts.specs.Accords as accords;

use committee::Committee;
use wire::{Author, Digest, HeaderBody};

/// Whether the member of a number has the same key in two committees.
fn same_key(one: &Committee, other: &Committee, member: Author) -> bool
    ensures { IsTrue result ↔ (slice_get one.now.keys member.0 ≡ slice_get other.now.keys member.0) }
{
    match (one.key(member), other.key(member)) {
        (None, None) => true,
        (Some(first), Some(second)) => first.0 == second.0,
        _ => false,
    }
}

/// Whether the member of a number has the same stake in two committees.
fn same_stake(one: &Committee, other: &Committee, member: Author) -> bool
    ensures { IsTrue result ↔ (slice_get one.now.stakes member.0 ≡ slice_get other.now.stakes member.0) }
{
    match (one.stake(member), other.stake(member)) {
        (None, None) => true,
        (Some(first), Some(second)) => first == second,
        _ => false,
    }
}

/// Whether the member of a number has the same key and the same stake in two committees.
fn same_member(one: &Committee, other: &Committee, member: Author) -> bool
    ensures { IsTrue result ↔ accords.IsSameMember one.now other.now member.0 }
{
    same_key(one, other, member) && same_stake(one, other, member)
}

/// Whether the members of two committees are the same, with the same stakes.
fn same_members(one: &Committee, other: &Committee) -> bool
    ensures { IsTrue result ↔ ((one.now.keys ≡ other.now.keys) × (one.now.stakes ≡ other.now.stakes)) }
{
    one.limits_hold();
    other.limits_hold();
    if one.size() != other.size() {
        return false;
    }
    for member in 0..one.size() {
        if !same_member(one, other, Author(member)) {
            return false;
        }
    }
    true
}

/// Whether two committees are the same.
pub fn same_committee(one: &Committee, other: &Committee) -> bool
    ensures { IsTrue result ↔ (one.now ≡ other.now) }
{
    one.depth() == other.depth()
        && one.workers() == other.workers()
        && one.batches() == other.batches()
        && same_members(one, other)
}

/// Whether two headers are the same.
pub fn same_header(one: &HeaderBody, other: &HeaderBody) -> bool
    ensures { result ≡ admitting.same_header one.now other.now }
{
    (one.author == other.author && one.round == other.round)
        && (one.batches.as_slice() == other.batches.as_slice()
            && one.parents.as_slice() == other.parents.as_slice())
}

/// Whether one list of coins is a prefix of another.
fn coins_begin(one: &[u64], other: &[u64]) -> bool
    ensures { IsTrue result ↔ Begins one.now other.now }
{
    other.starts_with(one)
}

/// Whether one of two lists of coins is a prefix of the other.
pub fn coins_agree(one: &[u64], other: &[u64]) -> bool
    ensures { IsTrue result ↔ Agree one.now other.now }
{
    coins_begin(one, other) || coins_begin(other, one)
}

/// Whether one list of digests is a prefix of another.
fn digests_begin(one: &[Digest], other: &[Digest]) -> bool
    ensures { IsTrue result ↔ Begins one.now other.now }
{
    other.starts_with(one)
}

/// Whether one of two lists of digests is a prefix of the other.
pub fn digests_agree(one: &[Digest], other: &[Digest]) -> bool
    ensures { IsTrue result ↔ Agree one.now other.now }
{
    digests_begin(one, other) || digests_begin(other, one)
}
