//! How far a reader of a journal on two disks has got: its stages, and what each record leads to.

ghost use Rattle.std.specs.Prelude.{◌≡◌, ℕ, ◌++◌, ◌∷◌, [], List, All, IfOk, IfErr};
ghost use Rattle.journal.specs.Format.{FailsAs};
ghost use Rattle.journal.specs.declared.record.Record.{Record};
ghost use Rattle.spec_checkpoint.specs.Loading.{at_record};
ghost use Rattle.spec_world.specs.World.{bytes_of};
ghost use Rattle.validator.specs.Setting.{node_of};
ghost use Rattle.opening.specs.Decoded.{IsText, is_event as is_event_of, gate_of, gates_of, first_of, read_state, StandsAt};
ghost use Rattle.opening.specs.PairReplayed.{IsConfigured, IsLoadingTo, IsStandingBefore, HasReached, IsPut, error_at};

use crate::events::{EVENT, is_text, take_event};
use crate::reopening::is_own;
use checkpoint::configuration_record;
use journal::{JournalError, Version, shaped_version};
use sigface::Sign;
use std::alloc::{AllocError, Global};
use validator::{Config, LoadError, Loading, Validator};

/// How far a reader of a journal on two disks has got.
#[derive(Drop)]
pub(crate) enum Reached<'a, S: Sign> {
    /// The reader has been given no record.
    Empty,
    /// The configuration was taken and nothing else; it is in this version, and in the group with this gate.
    Configured(Version, u64),
    /// The configuration, a head, and maybe records of a checkpoint's state were taken. The gates are those of the configuration and of
    /// these state records.
    Checkpoint(Loading<'a, S>, Vec<u64>),
    /// A checkpoint's state, if there is one, and maybe events were taken: the validator in the state after them.
    Standing(Validator<'a, S>),
    /// The first fault. Records after it are ignored.
    Failed(JournalError),
}

/// The stage after the first record, which has to be the configuration.
pub(crate) fn after_first<'a, S: Sign>(
    alloc: Global,
    config: &'a Config<S>,
    bytes: &[u8],
    place: u64,
) -> Result<Reached<'a, S>, AllocError>
    ensures { IfOk result (HasReached S.scheme config.now ((record { bytes = bytes.now; gate = place }) ∷ [])) }
{
    let Some(version) = shaped_version(bytes) else {
        return Ok(Reached::Failed(JournalError::Damaged(place)));
    };
    if is_own(alloc, config, version, bytes)? {
        Ok(Reached::Configured(version, place))
    } else {
        Ok(Reached::Failed(JournalError::ConfigMismatch))
    }
}

/// The stage after the second record. If it is in the same group as the configuration it is a head, and otherwise an event.
pub(crate) fn after_second<'a, S: Sign>(
    alloc: Global,
    config: &'a Config<S>,
    version: Version,
    gate: u64,
    bytes: &[u8],
    place: u64,
) -> Result<Reached<'a, S>, AllocError>
    ensures { IfOk result (λ reached. (records : List Record) → All IsText records → IsConfigured S.scheme config.now records version gate
        → HasReached S.scheme config.now (records ++ (record { bytes = bytes.now; gate = place }) ∷ []) reached) }
{
    spec_checkpoint::fails_at_first();
    if place == gate {
        let own = configuration_record(alloc, version, config.committee(), config.own())?;
        let loading = Loading::begin(alloc, config);
        put(loading, Vec::new(alloc), own.as_slice(), gate)
    } else {
        let validator = Validator::new(alloc, config)?;
        after_event(alloc, validator, bytes, place)
    }
}

/// The stage after a record that follows a checkpoint's state records: it is one more of these, or the first event.
pub(crate) fn after_state<'a, S: Sign>(
    alloc: Global,
    loading: Loading<'a, S>,
    gates: Vec<u64>,
    bytes: &[u8],
    place: u64,
) -> Result<Reached<'a, S>, AllocError>
    ensures { IfOk result (λ reached. (records : List Record) → All IsText records → IsLoadingTo S.scheme loading.entry.setting records loading.entry gates.items
        → HasReached S.scheme loading.entry.setting (records ++ (record { bytes = bytes.now; gate = place }) ∷ []) reached) }
{
    spec_checkpoint::fails_at_first();
    is_text(bytes, place);
    if !is_event(bytes) {
        return put(loading, gates, bytes, place);
    }
    match loaded(loading, gates) {
        Ok(validator) => after_event(alloc, validator, bytes, place),
        Err(JournalError::Memory) => Err(AllocError),
        Err(fault) => Ok(Reached::Failed(fault)),
    }
}

/// The stage after a record that has to be a new event.
pub(crate) fn after_event<'a, S: Sign>(
    alloc: Global,
    mut validator: Validator<'a, S>,
    bytes: &[u8],
    place: u64,
) -> Result<Reached<'a, S>, AllocError>
    ensures { IfOk result (λ reached. (records : List Record) → IsStandingBefore S.scheme validator.entry.setting records (record { bytes = bytes.now; gate = place }) validator.entry
        → HasReached S.scheme validator.entry.setting (records ++ (record { bytes = bytes.now; gate = place }) ∷ []) reached) }
{
    match take_event(alloc, &mut validator, bytes, place) {
        Ok(()) => Ok(Reached::Standing(validator)),
        Err(JournalError::Memory) => Err(AllocError),
        Err(fault) => Ok(Reached::Failed(fault)),
    }
}

/// A validator in the state that a checkpoint's records decode to. The gates are those of these records, the configuration's first.
///
/// # Errors
/// `Damaged` with the gate of the first record that is at fault, or with the first gate if only all records together are at fault; `Memory`
/// if an allocation failed.
pub(crate) fn loaded<'a, S: Sign>(
    loading: Loading<'a, S>,
    gates: Vec<u64>,
) -> Result<Validator<'a, S>, JournalError>
    ensures setting { IfOk result (λ validator. validator.setting ≡ loading.entry.setting) }
    ensures stands { let node = node_of S.scheme loading.entry.setting in IfOk result (λ validator. (first : Record) (state : List Record) → loading.entry.records ≡ bytes_of (first ∷ state)
        → StandsAt node (read_state node first state) validator.tables) }
    ensures err { let node = node_of S.scheme loading.entry.setting in IfErr result (λ error. (first : Record) (state : List Record) → loading.entry.records ≡ bytes_of (first ∷ state)
        → gates.items ≡ gates_of (first ∷ state) → FailsAs error (read_state node first state)) }
{
    match loading.finish() {
        Ok(validator) => Ok(validator),
        Err(error) => Err(fault_at(&gates, error)),
    }
}

// Adds the configuration, or a record of a checkpoint's state, to the records that are loaded; its group has this gate.
fn put<'a, S: Sign>(
    mut loading: Loading<'a, S>,
    mut gates: Vec<u64>,
    bytes: &[u8],
    gate: u64,
) -> Result<Reached<'a, S>, AllocError>
    ensures { IfOk result (IsPut S.scheme loading.entry gates.items bytes.now gate) }
{
    gates.push(gate)?;
    match loading.put(bytes) {
        Ok(()) => Ok(Reached::Checkpoint(loading, gates)),
        Err(LoadError::Memory) => Err(AllocError),
        Err(error) => Ok(Reached::Failed(fault_at(&gates, error))),
    }
}

// The journal's error if records with these gates can't be loaded as a checkpoint.
fn fault_at(gates: &[u64], error: LoadError) -> JournalError
    ensures { result ≡ error_at gates.now error }
{
    match error {
        LoadError::Memory => JournalError::Memory,
        LoadError::Unsound(place) => JournalError::Damaged(gate_at(gates, place)),
        LoadError::UnsoundWhole => JournalError::Damaged(first_gate(gates)),
    }
}

// The gate of the record at this place; if there is no such record, the first gate.
fn gate_at(gates: &[u64], place: u64) -> u64
    ensures { result ≡ gate_of gates.now (at_record place) }
{
    gates
        .get(place as usize)
        .copied()
        .unwrap_or(first_gate(gates))
}

// The first of these gates; 0 if there is none.
fn first_gate(gates: &[u64]) -> u64
    ensures { result ≡ first_of gates.now }
{
    gates.first().copied().unwrap_or(0)
}

// Whether the first byte of a record says that it holds an event.
fn is_event(bytes: &[u8]) -> bool
    ensures { (place : ℕ) → result ≡ is_event_of (record { bytes = bytes.now; gate = place }) }
{
    match bytes.first() {
        Some(kind) => *kind == EVENT,
        None => false,
    }
}
