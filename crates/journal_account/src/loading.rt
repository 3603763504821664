//! Loads the state of a checkpoint, by the definitions that an opening of a node obeys too.

ghost use Rattle.std.specs.Prelude.{◌≡◌, ◌≢◌, ◌∷◌, IfOk, IfErr};
ghost use Rattle.journal.specs.Format.{FailsAs};
ghost use Rattle.opening.specs.PairReplayed.{error_at};
ghost use Rattle.opening.specs.Decoded.{gate_of, gates_of, read_state, StandsAt};
ghost use Rattle.spec_checkpoint.specs.Loading.{at_record};
ghost use Rattle.validator.specs.Setting.{node_of};

use crate::flaw::{Flaw, Why};
use journal::Record;
use sigface::Sign;
use std::alloc::Global;
use validator::{Config, LoadError, Loading, Validator};

/// A validator in the state of a checkpoint. The first record is the node's configuration; the others are those after the head.
///
/// # Errors
/// `Damaged` with the gate of the first record that is at fault, or with the first gate if only all records together are at fault; `Memory`
/// if an allocation failed.
pub(crate) fn load<'a, S: Sign>(
    alloc: Global,
    config: &'a Config<S>,
    first: &Record,
    state: &[Record],
) -> Result<Validator<'a, S>, Flaw>
    ensures setting { IfOk result (λ validator. validator.setting ≡ config.now) }
    ensures stands { let node = node_of S.scheme config.now in IfOk result (λ validator. StandsAt node (read_state node first.now state.now) validator.tables) }
    ensures err { let node = node_of S.scheme config.now in IfErr result (λ flaw. FailsAs flaw.error (read_state node first.now state.now)) }
{
    let mut loading = Loading::begin(alloc, config);
    if let Err(error) = loading.put(first.bytes.as_slice()) {
        return Err(fault_of(first, state, error));
    }
    for one in state {
        if let Err(error) = loading.put(one.bytes.as_slice()) {
            return Err(fault_of(first, state, error));
        }
    }
    match loading.finish() {
        Ok(validator) => Ok(validator),
        Err(error) => Err(fault_of(first, state, error)),
    }
}

// The flaw of a journal whose checkpoint can't be loaded.
fn fault_of(first: &Record, state: &[Record], error: LoadError) -> Flaw
    ensures { result.error ≡ error_at (gates_of (first.now ∷ state.now)) error }
{
    match error {
        LoadError::Memory => Flaw::memory(),
        LoadError::Unsound(place) => Flaw::at(gate_at(first, state, place), Why::State),
        LoadError::UnsoundWhole => Flaw::at(first.gate, Why::WholeState),
    }
}

// The gate of the record at this place, where the first record has the place 0; if there is no such record, the first record's gate.
fn gate_at(first: &Record, state: &[Record], place: u64) -> u64
    ensures { result ≡ gate_of (gates_of (first.now ∷ state.now)) (at_record place) }
{
    if place == 0 {
        return first.gate;
    }
    match state.get((place - 1) as usize) {
        Some(one) => one.gate,
        None => first.gate,
    }
}
