//! Finds the certificates that a leader orders.

ghost use Rattle.std.specs.Prelude.{◌≡◌, ℕ, ◌+◌, ◌-◌, ◌*◌, ◌<◌, ◌≤◌, ◌^◌, ◌&&◌, true, length, sum_by, is_some, IfOk, OnOk};
ghost use Rattle.std.specs.List.{range_with_len};
ghost use Rattle.committee.specs.Sets.{has};
ghost use Rattle.committee.specs.declared.limits.TheConstants.{MAX_DEPTH};
ghost use Rattle.dag.specs.Graph.{slots_in, is_parent_of, references_of};
ghost use Rattle.dag.specs.declared.reads.TheConstants.{MAX_ROUND_REFERENCES};
ghost use Rattle.flatten.specs.Sets.{is_in, is_free, orders_in, AreClosed};

use crate::sets::{free_at, round_of};
use committee::MemberSet;
use dag::{Dag, Reads};
use std::alloc::{AllocError, Global};
use wire::{Author, Round};

// The authors, in the round below, of the parents of these certificates that are neither marked nor taken already.
fn next_set(
    dag: &Dag,
    below: u64,
    above: &MemberSet,
    top: u64,
    taken: &[MemberSet],
    reads: &mut Reads,
) -> MemberSet
    requires limit { below + 1 ≤ Round.MAX }
    requires room { reads.old + MAX_ROUND_REFERENCES < 2 ^ 64 }
    ensures set { (other : ℕ) → has result other ≡ (is_parent_of dag.now (below + 1) below (has above.now) other && is_free dag.now top taken.now below other) }
    ensures reads { reads.new ≡ reads.old + references_of dag.now (below + 1) (has above.now) }
    ensures few { reads.new ≤ reads.old + MAX_ROUND_REFERENCES }
{
    let mut set = dag.parents_of(round_of(below + 1), above, reads);
    set.retain(&free_at(dag, top, taken, below));
    set
}

/// The certificates that a leader orders, in at most so many rounds from its own downwards: those that it reaches and that are free
/// (neither marked nor taken). The walk ends in the first round that has none. The parents of all ordered certificates are read, except in
/// the last of the rounds.
pub(crate) fn ordered(
    alloc: Global,
    dag: &Dag,
    leader: (Round, Author),
    count: u64,
    top: u64,
    taken: &[MemberSet],
    reads: &mut Reads,
) -> Result<Vec<MemberSet>, AllocError>
    requires some { 0 < count }
    requires within { count ≤ leader.0 + 1 }
    requires few { count ≤ MAX_DEPTH + 1 }
    requires none { reads.old ≡ 0 }
    ensures length { IfOk result (λ sets. length sets.items ≤ count) }
    ensures sets { IfOk result (λ sets. AreClosed dag.now (leader.0 + 1 - count) leader.0 (is_free dag.now top taken.now)
        → (place other : ℕ) → place < count → is_in sets.items place other ≡ orders_in dag.now leader.0 leader.1.0 (is_free dag.now top taken.now) (leader.0 - place) other) }
    ensures reads { OnOk result (AreClosed dag.now (leader.0 + 1 - count) leader.0 (is_free dag.now top taken.now)
        → reads.new ≡ sum_by (λ r. references_of dag.now r (orders_in dag.now leader.0 leader.1.0 (is_free dag.now top taken.now) r)) (range_with_len (leader.0 + 2 - count) (count - 1))) }
    ensures most { OnOk result (reads.new ≤ MAX_ROUND_REFERENCES * (count - 1)) }
{
    dag.limits_hold();
    let (round, author) = leader;
    let first = round.number();
    let mut set = dag.reached(round, author, round);
    set.retain(&free_at(dag, top, taken, first));
    let mut sets = Vec::new(alloc);
    sets.push(set)?;
    for place in 1..count {
        if set == MemberSet::none() {
            return Ok(sets);
        }
        set = next_set(dag, first - place, &set, top, taken, reads);
        sets.push(set)?;
    }
    Ok(sets)
}
