//! Takes the records of a journal on two disks while they are read: those of a checkpoint, if it has one, and those of events.

ghost use Rattle.std.specs.Prelude.{◌≡◌, ◌≢◌, ◌∷◌, [], ◌++◌, List, Some, None, Err, All, is_none, IfOk, IfErr, OnOk};
ghost use Rattle.journal.specs.declared.record.Record.{Record};
ghost use Rattle.validator.specs.Setting.{node_of};
ghost use Rattle.opening.specs.Decoded.{IsText, StandsAt, Reports, read_pair};
ghost use Rattle.opening.specs.PairReplayed.{HasReached, version_in};
ghost use Rattle.opening.specs.PairReplays.{HasTakenPair, TakesMorePair};

use crate::events::is_text;
use crate::reached::{Reached, after_event, after_first, after_second, after_state, loaded};
use journal::{JournalError, RecordRef, Version, shaped_version};
use sigface::Sign;
use std::alloc::{AllocError, Global};
use std::mem;
use validator::{Config, Validator};

/// A reader of the records of a journal on two disks. The first record has to be the node's configuration.
#[derive(Drop)]
pub(crate) struct PairReplay<'a, S: Sign> {
    config: &'a Config<S>,
    // The version of the configuration in the first record. None before that was taken.
    version: Option<Version>,
    reached: Reached<'a, S>,
}

impl<'a, S: Sign> PairReplay<'a, S> {
    /// A reader that has taken no record yet. The call allocates no memory.
    pub(crate) fn new(config: &'a Config<S>) -> PairReplay<'a, S>
        ensures config { result.config.now ≡ config.now }
        ensures none { HasTakenPair S.scheme result [] }
    {
        PairReplay {
            config,
            version: None,
            reached: Reached::Empty,
        }
    }

    /// The version of the configuration in the first record. None if no record was taken.
    pub(crate) fn version(&self) -> Option<Version>
        ensures { result ≡ self.now.version }
    {
        self.version
    }

    /// Ends the reading: the validator in the state after all records, or what is wrong with them.
    pub(crate) fn finish(self, alloc: Global) -> Result<Validator<'a, S>, JournalError>
        ensures setting { (records : List Record) → HasTakenPair S.scheme self.entry records → IfOk result (λ validator. validator.setting ≡ self.entry.config.now) }
        ensures stands { let node = node_of S.scheme self.entry.config.now in (records : List Record) → HasTakenPair S.scheme self.entry records
            → IfOk result (λ validator. StandsAt node (read_pair node records) validator.tables) }
        ensures err { let node = node_of S.scheme self.entry.config.now in (records : List Record) → HasTakenPair S.scheme self.entry records
            → IfErr result (λ error. Reports error (read_pair node records)) }
        ensures never { (records : List Record) → HasTakenPair S.scheme self.entry records
            → IfErr result (λ error. (error ≢ JournalError.Device) × (error ≢ JournalError.Full)) }
    {
        let PairReplay {
            config,
            version: _,
            reached,
        } = self;
        match reached {
            Reached::Empty | Reached::Configured(..) => Ok(Validator::new(alloc, config)?),
            Reached::Checkpoint(loading, gates) => loaded(loading, gates),
            Reached::Standing(validator) => Ok(validator),
            Reached::Failed(fault) => Err(fault),
        }
    }

    // Takes these records, one after the other.
    pub(crate) fn take_all(
        &mut self,
        alloc: Global,
        records: &[RecordRef<'_>],
    ) -> Result<(), AllocError>
        ensures { OnOk result (TakesMorePair S.scheme self.old records.now self.new) }
    {
        for one in records {
            self.take_one(alloc, one.bytes, one.gate)?;
        }
        Ok(())
    }

    // Takes the next record.
    fn take_one(&mut self, alloc: Global, bytes: &[u8], place: u64) -> Result<(), AllocError>
        ensures config { self.new.config.now ≡ self.old.config.now }
        ensures taken { OnOk result ((before : List Record) → HasTakenPair S.scheme self.old before → HasTakenPair S.scheme self.new (before ++ (record { bytes = bytes.now; gate = place }) ∷ [])) }
    {
        is_text(bytes, place);
        let reached = mem::replace(&mut self.reached, Reached::Empty);
        if let Reached::Empty = &reached {
            self.version = shaped_version(bytes);
        }
        self.reached = next(alloc, self.config, reached, bytes, place)?;
        Ok(())
    }
}

// What was reached with one record more.
fn next<'a, S: Sign>(
    alloc: Global,
    config: &'a Config<S>,
    reached: Reached<'a, S>,
    bytes: &[u8],
    place: u64,
) -> Result<Reached<'a, S>, AllocError>
    ensures { IfOk result (λ later. (records : List Record) → All IsText records → HasReached S.scheme config.now records reached.entry
        → HasReached S.scheme config.now (records ++ (record { bytes = bytes.now; gate = place }) ∷ []) later) }
{
    match reached {
        Reached::Empty => after_first(alloc, config, bytes, place),
        Reached::Configured(version, gate) => after_second(
            alloc, config, version, gate, bytes, place,
        ),
        Reached::Checkpoint(loading, gates) => after_state(alloc, loading, gates, bytes, place),
        Reached::Standing(validator) => after_event(alloc, validator, bytes, place),
        Reached::Failed(fault) => Ok(Reached::Failed(fault)),
    }
}
