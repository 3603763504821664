//! Which header a validator proposes.

ghost use Rattle.std.specs.Prelude.{◌≡◌, ◌-◌, IfOk};
ghost use Rattle.spec_model.specs.Nodes.{Node};
ghost use Rattle.spec_model.specs.States.{State};
ghost use Rattle.spec_machine.specs.Machine.{proposed};
ghost use Rattle.validator.specs.Proposing.{AreAt, free_round as free_in, header_in_round};

use crate::making::signed;
use crate::parents::parents_of;
use admission::{Assemblies, nameable_agrees};
use batchstore::BatchStore;
use dag::Dag;
use sequencer::Sequencer;
use sigface::Sign;
use std::alloc::{AllocError, Global};
use wire::{Author, Header, Round};

// The round with this number, if an own header may still be made for it: there is such a round, and it has no own header.
fn free_round(headers: &Assemblies, number: u64) -> Option<Round>
    ensures { result ≡ free_in headers.now number }
{
    let Ok(round) = Round::new(number) else {
        return None;
    };
    if headers.header(round).is_some() {
        return None;
    }
    Some(round)
}

// The round below this one; for round 0, which has none below it, round 0 itself.
fn below(round: Round) -> Round
    ensures { result ≡ round - 1 }
{
    match Round::new(round.number().saturating_sub(1)) {
        Ok(below) => below,
        Err(_) => unreachable!(),
    }
}

// The header that would be proposed for this round: its parents are all certificates of the round below, and its batches the first nameable
// ones by digest.
fn header_for<S: Sign>(
    alloc: Global,
    signer: &S,
    own: Author,
    batches: &BatchStore,
    dag: &Dag,
    round: Round,
) -> Result<Header, AllocError>
    ensures { IfOk result (λ header. header ≡ header_in_round (S.scheme.signature_of signer.now) own batches.now dag.now round) }
{
    let batches = batches.least_nameable(alloc)?;
    let parents = parents_of(alloc, dag, below(round))?;
    // No two parents are by the same member, so that there are no more of them than a header may have.
    dag.limits_hold();
    signed(alloc, signer, own, round, &batches, &parents)
}

/// The header that a validator proposes: its parents are all certificates of the round below its own, its batches the first nameable ones
/// by digest, up to a header's limit. None where the round has an own header, or is past the greatest round. On `AllocError` an allocation
/// failed.
pub(crate) fn propose<S: Sign>(
    alloc: Global,
    signer: &S,
    own: Author,
    batches: &BatchStore,
    headers: &Assemblies,
    sequencer: &Sequencer,
) -> Result<Option<Header>, AllocError>
    ensures { IfOk result (λ found. (node : Node) (state : State) → AreAt node state own (S.scheme.signature_of signer.now) batches.now headers.now sequencer.now → found ≡ proposed node state) }
{
    let Some(round) = free_round(headers, sequencer.round()) else {
        return Ok(None);
    };
    // The store lists exactly the batches that the state allows to be named.
    batches.limits_hold();
    nameable_agrees();
    let header = header_for(alloc, signer, own, batches, sequencer.dag(), round)?;
    Ok(Some(header))
}
