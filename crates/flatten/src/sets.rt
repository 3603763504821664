//! Sets of authors, one for each round from some round downwards.

ghost use Rattle.std.specs.Prelude.{◌≡◌, ℕ, ◌+◌, ◌-◌, ◌<◌, ◌≤◌, ◌^◌, ◌&&◌, ◌||◌, nat_le, length, vec_len, OnOk};
ghost use Rattle.committee.specs.Sets.{has};
ghost use Rattle.flatten.specs.Sets.{is_in, is_free};

use committee::MemberSet;
use dag::Dag;
use std::alloc::AllocError;
use wire::Round;

/// The round with this number.
pub(crate) fn round_of(number: u64) -> Round
    requires { number ≤ Round.MAX }
    ensures { result ≡ number }
{
    match Round::new(number) {
        Ok(round) => round,
        Err(_) => unreachable!(),
    }
}

/// The set at this place; the empty set if there is none.
pub(crate) fn set_at(sets: &[MemberSet], place: usize) -> MemberSet
    ensures { (author : ℕ) → has result author ≡ is_in sets.now place author }
{
    match sets.get(place) {
        Some(set) => *set,
        None => MemberSet::none(),
    }
}

/// The authors whose certificates of a round are free: neither marked nor taken. The first of the sets of what is taken is that of the
/// round `top`.
pub(crate) fn free_at(dag: &Dag, top: u64, taken: &[MemberSet], round: u64) -> MemberSet
    requires { round ≤ Round.MAX }
    ensures { (author : ℕ) → has result author ≡ is_free dag.now top taken.now round author }
{
    let mut free = dag.unmarked_at(round_of(round));
    free.remove_all(&set_at(taken, top.saturating_sub(round) as usize));
    free
}

// Adds empty sets until there are `count` sets.
fn extend(sets: &mut Vec<MemberSet>, count: usize) -> Result<(), AllocError>
    ensures same { OnOk result ((place author : ℕ) → is_in sets.new.items place author ≡ is_in sets.old.items place author) }
    ensures long { OnOk result (count ≤ vec_len sets.new) }
{
    for _ in sets.len()..count {
        sets.push(MemberSet::none())?;
    }
    Ok(())
}

// Adds the members of these sets to those sets that stand from a place on.
fn unite(sets: &mut [MemberSet], first: usize, more: &[MemberSet])
    requires { first + length more.now ≤ length sets.old }
    ensures { (place author : ℕ) → is_in sets.new place author ≡ (is_in sets.old place author || (nat_le first place && is_in more.now (place - first) author)) }
{
    for i in 0..more.len() {
        sets[first + i].unite(&more[i]);
    }
}

/// Adds the members of these sets to those sets that stand from a place on. Sets that are missing are made first.
pub(crate) fn put(
    sets: &mut Vec<MemberSet>,
    first: usize,
    more: &[MemberSet],
) -> Result<(), AllocError>
    requires { first + length more.now < 2 ^ 63 }
    ensures { OnOk result ((place author : ℕ) → is_in sets.new.items place author ≡ (is_in sets.old.items place author || (nat_le first place && is_in more.now (place - first) author))) }
{
    extend(sets, first + more.len())?;
    unite(sets, first, more);
    Ok(())
}
