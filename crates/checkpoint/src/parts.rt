//! The parts of a validator's tables from which a checkpoint is written.

mod assembled;
mod batches;
mod certificates;
mod headers;
mod leading;
mod votes;

ghost use Rattle.std.specs.Prelude.{◌≡◌, All, IfOk};
ghost use Rattle.spec_machine.specs.Sound.{IsSound};
ghost use Rattle.spec_model.specs.Nodes.{Node, IsNode};
ghost use Rattle.spec_model.specs.States.{State};
ghost use Rattle.admission.specs.Kept.{IsKeptOf};
ghost use Rattle.admission.specs.Standing.{AreAt};
ghost use Rattle.checkpoint.specs.Kept.{AreOfOthers};

use admission::{Kept, Tables};
use batches::batches_of;
use certificates::certificates_of;
use headers::headers_of;
use leading::last_leader;
use sequencer::Coins;
use std::alloc::{AllocError, Global};
use votes::votes_of;

/// The parts of these tables; where the tables hold a sound state, the parts are that state's. On `AllocError` an allocation failed.
pub fn parts_of(alloc: Global, tables: &Tables) -> Result<Kept, AllocError>
    ensures kept { IfOk result (λ kept. (node : Node) (state : State) → IsNode node → IsSound node state → AreAt node state tables.now
        → IsKeptOf node state kept) }
    ensures others { IfOk result (λ kept. All (AreOfOthers tables.now.headers.own) kept.headers.items) }
{
    let sequencer = tables.sequencer();
    let dag = sequencer.dag();
    dag.limits_hold();
    let certificates = certificates_of(alloc, dag)?;
    let coins = coins_of(alloc, sequencer.coins())?;
    let last = last_leader(dag, &coins, certificates.as_slice());
    Ok(Kept {
        batches: batches_of(alloc, tables.batches())?,
        votes: votes_of(alloc, tables.votes())?,
        headers: headers_of(alloc, tables.headers())?,
        floor: dag.floor(),
        last,
        certificates,
        coins,
        order: sequencer.order().to_vec(alloc)?,
    })
}

/// A copy of the values of the coins. On `AllocError` an allocation failed.
fn coins_of(alloc: Global, coins: &Coins) -> Result<Coins, AllocError>
    ensures { IfOk result (λ found. found ≡ coins.now) }
{
    let mut values = Vec::with_capacity(alloc, coins.count())?;
    for place in 0..coins.count() {
        match coins.nth(place) {
            Some(value) => values.push(value)?,
            None => unreachable!(),
        }
    }
    Ok(Coins::restore(values))
}
