//! Finds the first fault of the records that a checkpoint is loaded from.

ghost use Rattle.std.specs.Prelude.{◌≡◌, IfOk, option_map};
ghost use Rattle.spec_checkpoint.specs.Loading as loading;
ghost use Rattle.spec_checkpoint.specs.Reading.{checkpoint_read};
ghost use Rattle.spec_model.specs.Nodes.{node_view};
ghost use Rattle.ref_checkpoint.specs.Faults.{fault_view};
ghost use Rattle.ref_checkpoint.specs.Lists.{contents};

use crate::configuration::is_configuration;
use crate::fault::LoadFault;
use crate::faults::is_whole_sound;
use crate::judging::first_unsound;
use crate::kept::Checkpoint;
use crate::reading::checkpoint_read;
use header::Node;
use sigface::Sign;
use std::alloc::{AllocError, Global};

/// The first fault of a checkpoint whose records come after the configuration: the first record that is unsound, or else the whole.
fn unsound<S: Sign>(
    alloc: Global,
    node: &Node<S>,
    checkpoint: &Checkpoint,
) -> Result<Option<LoadFault>, AllocError>
    ensures { IfOk result (λ found. option_map fault_view found ≡ loading.unsound (node_view S.scheme node.now) checkpoint.now) }
{
    if let Some(place) = first_unsound(alloc, node, checkpoint)? {
        return Ok(Some(LoadFault::AtRecord(place)));
    }
    if is_whole_sound(node, checkpoint) {
        return Ok(None);
    }
    Ok(Some(LoadFault::OfWhole))
}

/// The first fault of a state's records: the first one that breaks the format, or else the fault of the checkpoint that they are read as.
fn state_fault<S: Sign>(
    alloc: Global,
    node: &Node<S>,
    records: &[Vec<u8>],
) -> Result<Option<LoadFault>, AllocError>
    ensures { let seen = node_view S.scheme node.now in IfOk result (λ found. option_map fault_view found ≡ loading.fault_of_read seen (checkpoint_read seen (contents records.now))) }
{
    match checkpoint_read(alloc, node, records)? {
        Ok(checkpoint) => unsound(alloc, node, &checkpoint),
        Err(place) => Ok(Some(LoadFault::AtRecord(place + 1))),
    }
}

/// The first fault of these records: the first one has to be the node's configuration, and the others those of a sound state. A record that
/// breaks the format is reported before one that is unsound.
///
/// # Errors
/// An allocation failed.
#[tactic(auto, unfolding(spec_checkpoint::specs::Loading::load_fault))]
pub fn load_fault<S: Sign>(
    alloc: Global,
    node: &Node<S>,
    records: &[Vec<u8>],
) -> Result<Option<LoadFault>, AllocError>
    ensures { IfOk result (λ found. option_map fault_view found ≡ loading.load_fault (node_view S.scheme node.now) (contents records.now)) }
{
    let Some((first, rest)) = records.split_first() else {
        return Ok(Some(LoadFault::AtRecord(0)));
    };
    if !is_configuration(alloc, node, first)? {
        return Ok(Some(LoadFault::AtRecord(0)));
    }
    state_fault(alloc, node, rest)
}
