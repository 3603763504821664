//! Computes what a leader orders, and adds that to what earlier leaders order.

ghost use Rattle.std.specs.Prelude.{◌≡◌, ℕ, ◌+◌, ◌-◌, ◌<◌, ◌≤◌, ◌++◌, ◌&&◌, List, [], sum_by, not, is_some, true, Some, None, Option, IfSome, IfOk, OnOk};
ghost use Rattle.std.specs.List.{range_with_len};
ghost use Rattle.flatten.specs.Sets.{lowest_in, is_free, orders_in, is_past_in, AreUnordered, IsTakenFrom, Leads, HasAllOf};
ghost use Rattle.spec_model.specs.Ordering.{segment};
ghost use Rattle.spec_model.specs.Words.{Author, Certificate};
ghost use Rattle.committee.specs.declared.limits.TheConstants.{MAX_DEPTH};
ghost use Rattle.dag.specs.Graph.{slots_in, references_of};
ghost use Rattle.tusk.specs.Chain.{ledger_in};
ghost use Rattle.flatten.specs.Segments.{leader_held, references_in, read_references_in, unmarked_references_in, digests_of, IsMarkedPast, IsMarkedBefore};
ghost use Rattle.flatten.specs.declared.walks.TheConstants.{MAX_WALK_REFERENCES};

use crate::digests::put_digests;
use crate::walks::walk;
use committee::MemberSet;
use dag::Dag;
use std::alloc::{AllocError, Global};
use wire::{Author, Digest, Round};

/// The lowest round of which a leader orders certificates: `depth` below its own round, or the floor if that is higher.
pub(crate) fn lowest(dag: &Dag, round: Round) -> u64
    ensures { result ≡ lowest_in dag.now round }
{
    let depth = dag.committee().depth();
    dag.floor()
        .number()
        .max(round.number().saturating_sub(depth))
}

/// Adds the digests of the certificates that a leader orders, and adds their authors to the sets of those that are taken; the first of
/// these sets is that of the round `top`. Returns how many references to parents were read. A leader that isn't in the DAG, or is above
/// `top`, orders nothing.
pub(crate) fn order(
    alloc: Global,
    dag: &Dag,
    leader: (Round, Author),
    top: Round,
    taken: &mut Vec<MemberSet>,
    digests: &mut Vec<Digest>,
) -> Result<u64, AllocError>
    ensures digests { OnOk result ((previous : Option Certificate) (c : Certificate) → Leads dag.now previous leader top (is_free dag.now top taken.old.items) c
        → digests.new.items ≡ digests.old.items ++ digests_of (segment (ledger_in dag.now []) previous c)) }
    ensures reads { IfOk result (λ reads. (previous : Option Certificate) (c : Certificate) → Leads dag.now previous leader top (is_free dag.now top taken.old.items) c
        → reads ≡ read_references_in dag.now previous c) }
    ensures unordered { OnOk result ((previous : Option Certificate) (c : Certificate) → Leads dag.now previous leader top (is_free dag.now top taken.old.items) c → HasAllOf dag.now previous c
        → AreUnordered dag.now (Some c) (lowest_in dag.now leader.0) top (is_free dag.now top taken.new.items)) }
    ensures none { OnOk result (slots_in dag.now leader.0 leader.1.0 ≡ None → digests.new.items ≡ digests.old.items) }
    ensures none_read { IfOk result (λ reads. slots_in dag.now leader.0 leader.1.0 ≡ None → reads ≡ 0) }
    ensures most { IfOk result (λ reads. reads ≤ MAX_WALK_REFERENCES) }
{
    dag.limits_hold();
    let (round, author) = leader;
    if top.number() < round.number() || dag.get(round, author).is_none() {
        return Ok(0);
    }
    let bottom = lowest(dag, round);
    let (ordered, reads) = walk(alloc, dag, leader, bottom, top, taken)?;
    put_digests(dag, round, &ordered, digests)?;
    Ok(reads)
}

// Adds to the sets of what is taken the certificates that the leader before reaches, down to a lowest round. Returns how many references to
// parents were read. A leader above the round of the first set adds nothing.
fn take_past(
    alloc: Global,
    dag: &Dag,
    previous: Option<(Round, Author)>,
    low: u64,
    top: Round,
    taken: &mut Vec<MemberSet>,
) -> Result<u64, AllocError>
    requires { top ≤ low + MAX_DEPTH }
    ensures sets { OnOk result (IsTakenFrom dag.now previous low top (is_free dag.now top taken.old.items)
        → (round author : ℕ) → low ≤ round → round ≤ top → is_free dag.now top taken.new.items round author ≡ (is_free dag.now top taken.old.items round author && not (is_past_in dag.now previous round author))) }
    ensures reads { IfOk result (λ reads. (before : ℕ × Author) → IsTakenFrom dag.now previous low top (is_free dag.now top taken.old.items) → previous ≡ Some before → is_some (slots_in dag.now before.0 before.1.0) ≡ true
        → reads ≡ sum_by (λ r. references_of dag.now r (orders_in dag.now before.0 before.1.0 (is_free dag.now top taken.old.items) r)) (range_with_len (low + 1) (before.0 - low))) }
    ensures same { OnOk result (IfSome previous (λ before. top < before.0) → taken.new.items ≡ taken.old.items) }
    ensures none { IfOk result (λ reads. IfSome previous (λ before. top < before.0) → reads ≡ 0) }
    ensures unheld { IfOk result (λ reads. leader_held dag.now previous ≡ None → reads ≡ 0) }
    ensures most { IfOk result (λ reads. reads ≤ MAX_WALK_REFERENCES) }
{
    dag.limits_hold();
    let Some(before) = previous else {
        return Ok(0);
    };
    let (round, author) = before;
    if round.number() < low || top.number() < round.number() || dag.get(round, author).is_none() {
        return Ok(0);
    }
    let (_, reads) = walk(alloc, dag, before, low, top, taken)?;
    Ok(reads)
}

/// What a leader orders after the leader before it, or as the first one: the digests of the certificates that it reaches and the leader
/// before doesn't, at most the depth below it, by round and then by author. Also returns how many references to parents were read for it. A
/// leader that isn't in the DAG orders nothing.
///
/// The leader before reaches all that is marked. If it reaches more, as in a chain of leaders after the last committed one, that is looked
/// up too; `each_follows` says that this condition on the marks holds for each leader of such a chain. A walk ends at the first round in
/// which it reaches only marked certificates. To know the parents of a certificate all its references are read; this is done for each
/// ordered certificate, except in the lowest round of which a leader orders any.
///
/// # Errors
/// `AllocError` if an allocation failed.
pub fn segment_counted(
    alloc: Global,
    dag: &Dag,
    leader: (Round, Author),
    previous: Option<(Round, Author)>,
) -> Result<(Vec<Digest>, u64), AllocError>
    ensures digests { IfOk result (λ ordered. (c : Certificate) (coins : List ℕ) → slots_in dag.now leader.0 leader.1.0 ≡ Some c
        → IsMarkedPast dag.now (leader.0 - dag.now.charter.depth) (leader_held dag.now previous) → ordered.0.items ≡ digests_of (segment (ledger_in dag.now coins) (leader_held dag.now previous) c)) }
    ensures reads { IfOk result (λ ordered. (c : Certificate) → slots_in dag.now leader.0 leader.1.0 ≡ Some c
        → IsMarkedPast dag.now (leader.0 - dag.now.charter.depth) (leader_held dag.now previous) → ordered.1 ≤ references_in dag.now (leader_held dag.now previous) c) }
    ensures exact { IfOk result (λ ordered. (c : Certificate) → slots_in dag.now leader.0 leader.1.0 ≡ Some c
        → IsMarkedPast dag.now (leader.0 - dag.now.charter.depth) (leader_held dag.now previous) → ordered.1 ≡ read_references_in dag.now (leader_held dag.now previous) c) }
    ensures chained { IfOk result (λ ordered. (c : Certificate) (coins : List ℕ) → slots_in dag.now leader.0 leader.1.0 ≡ Some c → HasAllOf dag.now (leader_held dag.now previous) c
        → IsMarkedBefore dag.now (leader.0 - dag.now.charter.depth) (leader_held dag.now previous) → ordered.0.items ≡ digests_of (segment (ledger_in dag.now coins) (leader_held dag.now previous) c)) }
    ensures chained_reads { IfOk result (λ ordered. (c : Certificate) → slots_in dag.now leader.0 leader.1.0 ≡ Some c → HasAllOf dag.now (leader_held dag.now previous) c
        → IsMarkedBefore dag.now (leader.0 - dag.now.charter.depth) (leader_held dag.now previous)
        → ordered.1 ≤ references_in dag.now (leader_held dag.now previous) c + unmarked_references_in dag.now (lowest_in dag.now leader.0) (leader_held dag.now previous)) }
    ensures chained_exact { IfOk result (λ ordered. (c : Certificate) → slots_in dag.now leader.0 leader.1.0 ≡ Some c → HasAllOf dag.now (leader_held dag.now previous) c
        → IsMarkedBefore dag.now (leader.0 - dag.now.charter.depth) (leader_held dag.now previous)
        → ordered.1 ≡ read_references_in dag.now (leader_held dag.now previous) c + unmarked_references_in dag.now (lowest_in dag.now leader.0) (leader_held dag.now previous)) }
    ensures none { IfOk result (λ ordered. slots_in dag.now leader.0 leader.1.0 ≡ None → ordered.0.items ≡ []) }
    ensures none_read { IfOk result (λ ordered. slots_in dag.now leader.0 leader.1.0 ≡ None → ordered.1 ≡ 0) }
{
    dag.limits_hold();
    let (round, author) = leader;
    let mut digests = Vec::new(alloc);
    if dag.get(round, author).is_none() {
        return Ok((digests, 0));
    }
    let low = lowest(dag, round);
    let mut taken = Vec::new(alloc);
    let past = take_past(alloc, dag, previous, low, round, &mut taken)?;
    let reads = order(alloc, dag, leader, round, &mut taken, &mut digests)?;
    Ok((digests, past + reads))
}

/// What a leader orders, without the number that `segment_counted` also returns.
///
/// # Errors
/// `AllocError` if an allocation failed.
pub fn segment(
    alloc: Global,
    dag: &Dag,
    leader: (Round, Author),
    previous: Option<(Round, Author)>,
) -> Result<Vec<Digest>, AllocError>
    ensures digests { IfOk result (λ digests. (c : Certificate) (coins : List ℕ) → slots_in dag.now leader.0 leader.1.0 ≡ Some c
        → IsMarkedPast dag.now (leader.0 - dag.now.charter.depth) (leader_held dag.now previous) → digests.items ≡ digests_of (segment (ledger_in dag.now coins) (leader_held dag.now previous) c)) }
    ensures chained { IfOk result (λ digests. (c : Certificate) (coins : List ℕ) → slots_in dag.now leader.0 leader.1.0 ≡ Some c → HasAllOf dag.now (leader_held dag.now previous) c
        → IsMarkedBefore dag.now (leader.0 - dag.now.charter.depth) (leader_held dag.now previous) → digests.items ≡ digests_of (segment (ledger_in dag.now coins) (leader_held dag.now previous) c)) }
    ensures none { IfOk result (λ digests. slots_in dag.now leader.0 leader.1.0 ≡ None → digests.items ≡ []) }
{
    let (digests, _) = segment_counted(alloc, dag, leader, previous)?;
    Ok(digests)
}
