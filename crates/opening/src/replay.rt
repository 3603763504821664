//! Takes the events of a journal on one disk while its records are read.

ghost use Rattle.std.specs.Prelude.{◌≡◌, ◌≢◌, ◌∷◌, [], ◌++◌, drop, is_none, List, Some, None, Err, All, IfOk, IfErr, IfSome, OnOk};
ghost use Rattle.journal.specs.declared.record.Record.{Record};
ghost use Rattle.validator.specs.Setting.{node_of};
ghost use Rattle.opening.specs.Decoded.{IsText, StandsAt, read_journal, own_fault};
ghost use Rattle.opening.specs.Replays.{HasTaken, TakesMore};

use crate::events::{is_text, take_event};
use crate::reopening::is_own;
use journal::{JournalError, RecordRef, shaped_version};
use sigface::Sign;
use std::alloc::{AllocError, Global};
use validator::{Config, Validator};

/// A reader that gives the events of a journal to a validator. The first record has to be the node's configuration.
#[derive(Drop)]
pub(crate) struct Replay<'a, S: Sign> {
    config: &'a Config<S>,
    // The place of the first record's group. None before the first record.
    first: Option<u64>,
    // Whether no other record was in the group of the first one.
    alone: bool,
    // The validator in the state after the events so far, or the first fault.
    reached: Result<Validator<'a, S>, JournalError>,
}

impl<'a, S: Sign> Replay<'a, S> {
    /// A reader with a fresh validator, which has taken no record yet.
    pub(crate) fn new(alloc: Global, config: &'a Config<S>) -> Result<Replay<'a, S>, AllocError>
        ensures config { IfOk result (λ replay. replay.config.now ≡ config.now) }
        ensures none { IfOk result (λ replay. HasTaken S.scheme replay []) }
    {
        let validator = Validator::new(alloc, config)?;
        Ok(Replay {
            config,
            first: None,
            alone: true,
            reached: Ok(validator),
        })
    }

    /// Whether the reader has been given no record.
    pub(crate) fn is_empty(&self) -> bool
        ensures { result ≡ is_none self.now.first }
    {
        self.first.is_none()
    }

    /// Ends the reading: the validator in the state after the events, or what is wrong with the records.
    pub(crate) fn finish(self) -> Result<Validator<'a, S>, JournalError>
        ensures setting { (records : List Record) → HasTaken S.scheme self.entry records → IfOk result (λ validator. validator.setting ≡ self.entry.config.now) }
        ensures stands { let node = node_of S.scheme self.entry.config.now in (records : List Record) → HasTaken S.scheme self.entry records
            → IfOk result (λ validator. StandsAt node (read_journal node records) validator.tables) }
        ensures err { let node = node_of S.scheme self.entry.config.now in (records : List Record) → HasTaken S.scheme self.entry records
            → IfErr result (λ error. read_journal node records ≡ Err error) }
        ensures never { (records : List Record) → HasTaken S.scheme self.entry records
            → IfErr result (λ error. (error ≢ JournalError.Memory) × (error ≢ JournalError.Device) × (error ≢ JournalError.Full)) }
        ensures texts { (records : List Record) → HasTaken S.scheme self.entry records → OnOk result (All IsText (drop 1 records)) }
    {
        let Replay {
            config: _,
            first,
            alone,
            reached,
        } = self;
        match first {
            Some(gate) if !alone => Err(JournalError::Damaged(gate)),
            _ => reached,
        }
    }

    // Takes these records, one after the other.
    pub(crate) fn take_all(
        &mut self,
        alloc: Global,
        records: &[RecordRef<'_>],
    ) -> Result<(), AllocError>
        ensures { OnOk result (TakesMore S.scheme self.old records.now self.new) }
    {
        for one in records {
            self.take_one(alloc, one.bytes, one.gate)?;
        }
        Ok(())
    }

    // Takes the next record.
    fn take_one(&mut self, alloc: Global, bytes: &[u8], place: u64) -> Result<(), AllocError>
        ensures config { self.new.config.now ≡ self.old.config.now }
        ensures taken { OnOk result ((before : List Record) → HasTaken S.scheme self.old before → HasTaken S.scheme self.new (before ++ (record { bytes = bytes.now; gate = place }) ∷ [])) }
    {
        if self.is_empty() {
            self.take_first(alloc, bytes, place)
        } else {
            self.take_next(alloc, bytes, place)
        }
    }

    // Takes the first record.
    fn take_first(&mut self, alloc: Global, bytes: &[u8], place: u64) -> Result<(), AllocError>
        requires { self.old.first ≡ None }
        ensures config { self.new.config.now ≡ self.old.config.now }
        ensures taken { OnOk result ((before : List Record) → HasTaken S.scheme self.old before → HasTaken S.scheme self.new (before ++ (record { bytes = bytes.now; gate = place }) ∷ [])) }
    {
        self.first = Some(place);
        if let Some(fault) = own_fault(alloc, self.config, bytes, place)? {
            self.reached = Err(fault);
        }
        Ok(())
    }

    // Takes a record after the first one. After the first fault, records are ignored.
    fn take_next(&mut self, alloc: Global, bytes: &[u8], place: u64) -> Result<(), AllocError>
        requires { self.old.first ≢ None }
        ensures config { self.new.config.now ≡ self.old.config.now }
        ensures taken { OnOk result ((before : List Record) → HasTaken S.scheme self.old before → HasTaken S.scheme self.new (before ++ (record { bytes = bytes.now; gate = place }) ∷ [])) }
    {
        is_text(bytes, place);
        self.alone &= place > 0;
        match &mut self.reached {
            Ok(validator) => match take_event(alloc, validator, bytes, place) {
                Ok(()) => Ok(()),
                Err(JournalError::Memory) => Err(AllocError),
                Err(fault) => {
                    self.reached = Err(fault);
                    Ok(())
                }
            },
            Err(_) => Ok(()),
        }
    }
}

// What is wrong with the first record: it is no configuration, or isn't the node's own.
fn own_fault<S: Sign>(
    alloc: Global,
    config: &Config<S>,
    bytes: &[u8],
    place: u64,
) -> Result<Option<JournalError>, AllocError>
    ensures fault { IfOk result (λ fault. fault ≡ own_fault (node_of S.scheme config.now) (record { bytes = bytes.now; gate = place })) }
    ensures never { IfOk result (λ fault. IfSome fault (λ error. (error ≢ JournalError.Memory) × (error ≢ JournalError.Device) × (error ≢ JournalError.Full))) }
{
    let Some(version) = shaped_version(bytes) else {
        return Ok(Some(JournalError::Damaged(place)));
    };
    if is_own(alloc, config, version, bytes)? {
        Ok(None)
    } else {
        Ok(Some(JournalError::ConfigMismatch))
    }
}
