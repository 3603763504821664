//! Collects the digests of the certificates that a leader orders.

ghost use Rattle.std.specs.Prelude.{◌≡◌, ℕ, ◌+◌, ◌-◌, ◌≤◌, ◌++◌, length, max, flat_map, OnOk};
ghost use Rattle.std.specs.List.{range_with_len};
ghost use Rattle.committee.specs.Sets.{has};
ghost use Rattle.flatten.specs.Sets.{is_in, digests_at};

use crate::sets::{round_of, set_at};
use committee::MemberSet;
use dag::Dag;
use std::alloc::AllocError;
use wire::{Author, Digest, Round};

// Adds the digests of the certificates of a round that these authors have.
fn put_round(
    dag: &Dag,
    round: Round,
    authors: &MemberSet,
    digests: &mut Vec<Digest>,
) -> Result<(), AllocError>
    ensures { OnOk result (digests.new.items ≡ digests.old.items ++ digests_at dag.now round (has authors.now)) }
{
    for author in 0..dag.committee().size() {
        if authors.contains(Author(author)) {
            if let Some(digest) = dag.digest(round, Author(author)) {
                digests.push(*digest)?;
            }
        }
    }
    Ok(())
}

/// Adds the digests of the certificates that a leader orders, by round and then by author. The first of the sets has the authors of the
/// leader's round, the next those of the round below, and so on. Genesis certificates aren't ordered.
pub(crate) fn put_digests(
    dag: &Dag,
    round: Round,
    ordered: &[MemberSet],
    digests: &mut Vec<Digest>,
) -> Result<(), AllocError>
    requires { length ordered.now ≤ round + 1 }
    ensures { OnOk result (let first = max (round + 1 - length ordered.now) 1 in digests.new.items ≡ digests.old.items ++ flat_map (λ r. digests_at dag.now r (is_in ordered.now (round - r))) (range_with_len first (round + 1 - first))) }
{
    let top = round.number();
    let first = (top + 1 - ordered.len() as u64).max(1);
    for number in first..top + 1 {
        let set = set_at(ordered, (top - number) as usize);
        put_round(dag, round_of(number), &set, digests)?;
    }
    Ok(())
}
