//! Opens a node on one disk.

ghost use Rattle.std.specs.Prelude.{◌≡◌, ◌≢◌, ◌⊎◌, ◌<◌, [], ◌∷◌, ℕ, List, true, None, Ok, Err, ◌&&◌, IfOk, IfErr, OnOk};
ghost use Rattle.std.specs.Str.{bytes_eq};
ghost use Rattle.diskmodel.specs.Disk.{AtEachMoment, ReportsFault};
ghost use Rattle.journal.specs.Format.{stands};
ghost use Rattle.journal.specs.Journal.{disk_of, spare_of, disk_after, ReportsFaultBack, IsAlive, IsClosedUp, StandsAsOneOf};
ghost use Rattle.journal.specs.Reader.{TakesAll};
ghost use Rattle.journal.specs.declared.record.Record.{Record};
ghost use Rattle.spec_records.specs.Records.{configuration_of, CanReport};
ghost use Rattle.validator.specs.Setting.{node_of};
ghost use Rattle.opening.specs.Laws.{StandsForAt, HoldsAt, KeepsStates, AreLeftDecoded, IsOpening};
ghost use Rattle.opening.specs.Replays.{HasTaken};
ghost use Rattle.opening.specs.Decoded.{HasTexts, first_version as decoded_version, is_alone as decoded_alone, is_own as decoded_own, decoded, Reports, StandsAt, KeepsOrBegins};

use crate::configuration::can_report;
use crate::first_group::{configuration, configuration_group};
use crate::replay::Replay;
use crate::standing::worlds_are_decoded;
use diskmodel::Disk;
use journal::{Failed, Journal, JournalError, Reader, Record, Store, Version, shaped_version};
use sigface::Sign;
use std::alloc::{AllocError, Global};
use validator::{Config, Validator};

/// Opens a node on one disk: its journal, and a validator in the state after the journal's events. An empty journal gets the configuration,
/// in version 2. A journal in version 1 stays in that version.
///
/// # Errors
/// The first of these is reported, and the disk is handed back: `Device` or `Memory`, if the disk or an allocation fails; `Damaged`, with
/// the place of an open gate that no whole group follows; `Damaged`, with the place of the first group, unless that has one record which is
/// a configuration; `ConfigMismatch`, if that is not the node's own, or has no stakes although a stake isn't 1; `Damaged`, with the place
/// of the group of the first record that is no event, fails the checks, or isn't new.
pub fn reopen<'a, S: Sign, D: Disk>(
    alloc: Global,
    config: &'a Config<S>,
    disk: D,
) -> Result<(Validator<'a, S>, Journal<D>), Failed<JournalError, D>>
    // The validator holds the state that the bytes decoded to, and the bytes on the disk still decode to it.
    ensures setting { IfOk result (λ opened. opened.0.setting ≡ config.now) }
    ensures stands { let node = node_of S.scheme config.now in IfOk result (λ opened. StandsAt node (decoded node (D.device.content disk)) opened.0.tables) }
    ensures same { let node = node_of S.scheme config.now in IfOk result (λ opened. decoded node (D.device.content (disk_of opened.1)) ≡ decoded node (D.device.content disk)) }
    ensures alive { IfOk result (λ opened. IsAlive D.device opened.1) }
    ensures configured { IfOk result (λ opened. stands (D.device.content (disk_of opened.1)) ≢ Ok []) }
    ensures alone { IfOk result (λ opened. spare_of opened.1 ≡ None) }

    // The state of the opened validator is kept of a legal history, and the bytes on the disk stood for the state before the call.
    ensures stands_for { IfOk result (λ opened. StandsForAt (node_of S.scheme config.now) (D.device.content disk) opened.0.tables) }
    // For each state that the bytes stood for before the call, the disk now has a proper journal of the node with that state.
    ensures kept { IfOk result (λ opened. KeepsStates (node_of S.scheme config.now) (D.device.content disk) (D.device.content (disk_of opened.1))) }
    // The opened validator's state is one of the states that the bytes on the disk stand for after the call.
    ensures holds { IfOk result (λ opened. HoldsAt (node_of S.scheme config.now) (D.device.content (disk_of opened.1)) opened.0.tables) }

    // What the errors say, and what a stop at any moment of the opening may leave.
    ensures opening { IsOpening (node_of S.scheme config.now) D.device (λ opened. disk_of opened.1) disk result }
    // After an error the bytes are as before, up to their closed gate, unless the disk failed.
    ensures unchanged { IfErr result (λ failed. failed.error ≢ JournalError.Device → (D.device.content failed.disk ≡ D.device.content disk) ⊎ IsClosedUp (D.device.content disk) (D.device.content failed.disk)) }
{
    spec_machine::starts_fresh();
    config.limits_hold();
    outcomes_are_decoded(config);
    let Ok(mut replay) = Replay::new(alloc, config) else {
        let error = JournalError::Memory;
        return Err(Failed { error, disk });
    };
    let mut journal = open_one(alloc, disk, &mut replay)?;
    match validator_on(alloc, config, &mut journal, replay) {
        Ok(validator) => Ok((validator, journal)),
        Err(error) => Err(Failed {
            error,
            disk: journal.into_disk(),
        }),
    }
}

// A law: whatever a stop leaves in the runs of this node decodes to a state. The call looks at the keys and changes nothing.
fn outcomes_are_decoded<S: Sign>(config: &Config<S>)
    ensures { AreLeftDecoded (node_of S.scheme config.now) }
{
    worlds_are_decoded();
    config.limits_hold();
    config.keys_hold();
}

// Opens the journal on a disk, and gives its records to a reader.
fn open_one<D: Disk, R: Reader>(
    alloc: Global,
    disk: D,
    reader: &mut R,
) -> Result<Journal<D>, Failed<JournalError, D>>
    ensures alive { IfOk result (λ journal. IsAlive D.device journal) }
    ensures alone { IfOk result (λ journal. spare_of journal ≡ None) }
    ensures records { OnOk result (TakesAll (λ records. R.takes reader.old records reader.new) (stands (D.device.content disk))) }
    ensures same { IfOk result (λ journal. stands (D.device.content (disk_of journal)) ≡ stands (D.device.content disk)) }
    ensures content { IfOk result (λ journal. IsClosedUp (D.device.content disk) (D.device.content (disk_of journal))) }
    ensures unchanged { IfErr result (λ failed. failed.error ≢ JournalError.Device → D.device.content failed.disk ≡ D.device.content disk) }
    ensures any_moment { AtEachMoment D.device disk (disk_after disk_of result) (StandsAsOneOf (D.device.outcome disk)) }
    ensures damaged { IfErr result (λ failed. (gate : ℕ) → failed.error ≡ JournalError.Damaged gate → stands (D.device.content disk) ≡ Err gate) }
    ensures never_full { IfErr result (λ failed. failed.error ≢ JournalError.Full) }
    ensures never_config { IfErr result (λ failed. failed.error ≢ JournalError.ConfigMismatch) }
    ensures cause { ReportsFaultBack D.device disk_of JournalError.Device disk result }
{
    match Journal::open_store(alloc, Store::One(disk), reader) {
        Ok(journal) => Ok(journal),
        Err(failed) => {
            let Failed { error, disk } = failed;
            match disk {
                Store::One(disk) => Err(Failed { error, disk }),
                Store::Two(..) => unreachable!(),
            }
        }
    }
}

// The validator in the state after a journal's events. If the journal has no records, the configuration is written to it.
fn validator_on<'a, S: Sign, D: Disk>(
    alloc: Global,
    config: &'a Config<S>,
    journal: &mut Journal<D>,
    replay: Replay<'a, S>,
) -> Result<Validator<'a, S>, JournalError>
    requires alive { IsAlive D.device journal.old }
    requires alone { spare_of journal.old ≡ None }
    requires config { replay.config.now ≡ config.now }
    requires records { (records : List Record) × (stands (D.device.content (disk_of journal.old)) ≡ Ok records) × HasTaken S.scheme replay records }

    ensures setting { IfOk result (λ validator. validator.setting ≡ config.now) }
    ensures stands { let node = node_of S.scheme config.now in IfOk result (λ validator. StandsAt node (decoded node (D.device.content (disk_of journal.old))) validator.tables) }
    ensures same { let node = node_of S.scheme config.now in OnOk result (decoded node (D.device.content (disk_of journal.new)) ≡ decoded node (D.device.content (disk_of journal.old))) }
    ensures alive { OnOk result (IsAlive D.device journal.new) }
    ensures configured { OnOk result (stands (D.device.content (disk_of journal.new)) ≢ Ok []) }
    ensures spare { spare_of journal.new ≡ spare_of journal.old }
    ensures err { IfErr result (λ error. error ≢ JournalError.Device → Reports error (decoded (node_of S.scheme config.now) (D.device.content (disk_of journal.old)))) }
    ensures cause { ReportsFault JournalError.Device (D.device.faults (disk_of journal.old)) (D.device.faults (disk_of journal.new)) result }
    ensures never_full { IfErr result (λ error. error ≢ JournalError.Full) }
    ensures unchanged { IfErr result (λ error. error ≢ JournalError.Device → D.device.content (disk_of journal.new) ≡ D.device.content (disk_of journal.old)) }
    ensures any_moment { let node = node_of S.scheme config.now in AtEachMoment D.device (disk_of journal.old) (disk_of journal.new) (λ left. decoded node left ≡ decoded node (D.device.content (disk_of journal.old))) }
    ensures keeps { AtEachMoment D.device (disk_of journal.old) (disk_of journal.new) (KeepsOrBegins Version.Second (node_of S.scheme config.now) (D.device.content (disk_of journal.old))) }
    ensures texts { OnOk result (HasTexts (D.device.content (disk_of journal.old))) }
    ensures texts_left { OnOk result (HasTexts (D.device.content (disk_of journal.new))) }
{
    let is_empty = replay.is_empty();
    let validator = replay.finish()?;
    if is_empty {
        write_configuration(alloc, Version::Second, config, journal)?;
    }
    Ok(validator)
}

/// The version of the configuration that the first record has the form of. None if it has no such form, or isn't alone in its group.
pub fn first_version(first: &Record, events: &[Record]) -> Option<Version>
    ensures { result ≡ decoded_version first.now events.now }
{
    if is_alone(events) {
        shaped_version(first.bytes.as_slice())
    } else {
        None
    }
}

// Whether none of the records after the first one is in the first group.
fn is_alone(events: &[Record]) -> bool
    ensures { result ≡ decoded_alone events.now }
{
    events.iter().all(|event| event.gate > 0)
}

/// Whether these bytes are the node's own configuration, in a version that can express its committee. On `AllocError` an allocation failed.
pub fn is_own<S: Sign>(
    alloc: Global,
    config: &Config<S>,
    version: Version,
    bytes: &[u8],
) -> Result<bool, AllocError>
    ensures { IfOk result (λ own. own ≡ decoded_own (node_of S.scheme config.now) bytes.now version) }
{
    let own = configuration(alloc, version, config.committee(), config.own())?;
    Ok(can_report(version, config.committee()) && bytes == own.as_slice())
}

/// Writes the first group of an empty journal: the configuration in this version, which has to be able to express the committee.
pub fn write_configuration<S: Sign, D: Disk>(
    alloc: Global,
    version: Version,
    config: &Config<S>,
    journal: &mut Journal<D>,
) -> Result<(), JournalError>
    requires alive { IsAlive D.device journal.old }
    requires empty { stands (D.device.content (disk_of journal.old)) ≡ Ok [] }
    requires can_report { CanReport version config.now.charter }

    ensures alive { OnOk result (IsAlive D.device journal.new) }
    ensures configured { OnOk result (stands (D.device.content (disk_of journal.new)) ≢ Ok []) }
    ensures spare { spare_of journal.new ≡ spare_of journal.old }
    ensures texts { OnOk result (HasTexts (D.device.content (disk_of journal.new))) }
    ensures same { let node = node_of S.scheme config.now in OnOk result (decoded node (D.device.content (disk_of journal.new)) ≡ decoded node (D.device.content (disk_of journal.old))) }
    ensures errors { IfErr result (λ error. (error ≡ JournalError.Device) ⊎ (error ≡ JournalError.Memory)) }
    ensures cause { ReportsFault JournalError.Device (D.device.faults (disk_of journal.old)) (D.device.faults (disk_of journal.new)) result }
    ensures unchanged { IfErr result (λ error. error ≡ JournalError.Memory → journal.new ≡ journal.old) }
    ensures any_moment { let node = node_of S.scheme config.now in AtEachMoment D.device (disk_of journal.old) (disk_of journal.new) (λ left. decoded node left ≡ decoded node (D.device.content (disk_of journal.old))) }
    ensures keeps { AtEachMoment D.device (disk_of journal.old) (disk_of journal.new) (KeepsOrBegins version (node_of S.scheme config.now) (D.device.content (disk_of journal.old))) }
{
    let group = configuration_group(alloc, version, config.committee(), config.own())?;
    let _ = journal.append(group)?.records();
    Ok(())
}
