//! Walks down the DAG from a leader, along parents.

ghost use Rattle.std.specs.Prelude.{◌≡◌, ℕ, ◌+◌, ◌-◌, ◌<◌, ◌≤◌, ◌&&◌, true, not, length, sum_by, is_some, IfOk, OnOk};
ghost use Rattle.std.specs.List.{range_with_len};
ghost use Rattle.dag.specs.Graph.{slots_in, reaches_in, references_of};
ghost use Rattle.flatten.specs.Sets.{is_in, is_free, orders_in, AreClosed};

use crate::orders::ordered;
use crate::sets::put;
use committee::{MAX_DEPTH, MemberSet};
use dag::{Dag, MAX_ROUND_REFERENCES, Reads};
use std::alloc::{AllocError, Global};
use wire::{Author, Round};

/// The greatest number of references to parents that are read for one leader: those of the rounds above the lowest of which it orders
/// certificates. There are at most `MAX_DEPTH` of these rounds.
pub(crate) const MAX_WALK_REFERENCES: u64 = MAX_DEPTH * MAX_ROUND_REFERENCES;

/// Finds the free certificates that a leader reaches, as sets of authors from its round down to a lowest round. They are added to the sets
/// of what is taken, of which the first is that of a round no lower than the leader's. Also returns how many references to parents were
/// read: those of the certificates that were reached above the lowest round.
pub(crate) fn walk(
    alloc: Global,
    dag: &Dag,
    leader: (Round, Author),
    bottom: u64,
    top: Round,
    taken: &mut Vec<MemberSet>,
) -> Result<(Vec<MemberSet>, u64), AllocError>
    requires low { bottom ≤ leader.0 }
    requires high { leader.0 ≤ top }
    requires near { leader.0 ≤ bottom + MAX_DEPTH }
    ensures length { IfOk result (λ walked. length walked.0.items ≤ leader.0 + 1 - bottom) }
    ensures sets { IfOk result (λ walked. AreClosed dag.now bottom leader.0 (is_free dag.now top taken.old.items)
        → (place other : ℕ) → place < leader.0 + 1 - bottom → is_in walked.0.items place other ≡ orders_in dag.now leader.0 leader.1.0 (is_free dag.now top taken.old.items) (leader.0 - place) other) }
    ensures reads { IfOk result (λ walked. AreClosed dag.now bottom leader.0 (is_free dag.now top taken.old.items)
        → walked.1 ≡ sum_by (λ r. references_of dag.now r (orders_in dag.now leader.0 leader.1.0 (is_free dag.now top taken.old.items) r)) (range_with_len (bottom + 1) (leader.0 - bottom))) }
    ensures most { IfOk result (λ walked. walked.1 ≤ MAX_WALK_REFERENCES) }
    ensures taken { OnOk result (AreClosed dag.now bottom leader.0 (is_free dag.now top taken.old.items)
        → (round other : ℕ) → bottom ≤ round → round ≤ top → is_free dag.now top taken.new.items round other ≡ (is_free dag.now top taken.old.items round other && not (reaches_in dag.now leader.0 leader.1.0 round other))) }
{
    dag.limits_hold();
    let high = top.number();
    let round = leader.0.number();
    let mut reads = Reads::new();
    let walked = ordered(
        alloc,
        dag,
        leader,
        round + 1 - bottom,
        high,
        taken,
        &mut reads,
    )?;
    put(taken, (high - round) as usize, &walked)?;
    Ok((walked, reads.number()))
}
