//! Fills the DAG of a sequencer that is restored from parts.

ghost use Rattle.std.specs.Prelude.{◌≡◌, ℕ, ◌+◌, ◌<◌, ◌≤◌, false, length, IfOk, OnOk};
ghost use Rattle.dag.specs.Graph.{slots_in, marked_in, end_in};
ghost use Rattle.spec_model.specs.Holdings.{genesis};
ghost use Rattle.sequencer.specs.Restored.{CanEnter, HaveEntered, IsEmpty};
ghost use Rattle.wire.specs.declared.round.TheConstants.Round.{MAX};

use committee::Committee;
use dag::Dag;
use std::alloc::{AllocError, Global};
use wire::{Certificate, Digest, Round};

// A DAG with this floor that is empty; at floor 0 it has the genesis certificates.
pub(crate) fn empty_dag<'a>(
    alloc: Global,
    committee: &'a Committee,
    floor: Round,
) -> Result<Dag<'a>, AllocError>
    requires { floor < MAX }
    ensures { IfOk result (λ dag. IsEmpty committee.now floor dag) }
{
    if floor.number() == 0 {
        return Dag::new(alloc, committee);
    }
    Ok(Dag::above(alloc, committee, floor))
}

// Adds these certificates to a DAG, one after the other. On `AllocError` an allocation failed, and some of them may have been added.
pub(crate) fn fill(
    dag: &mut Dag,
    certificates: Vec<(Certificate, Digest)>,
) -> Result<(), AllocError>
    requires { CanEnter dag.old certificates.items }
    ensures { OnOk result (HaveEntered dag.old dag.new certificates.items) }
{
    for (certificate, digest) in certificates {
        dag.restore(certificate, digest)?;
    }
    Ok(())
}
