//! Opens a node on one disk or on two.

ghost use Rattle.std.specs.Prelude.{◌≡◌, ◌≢◌, [], List, Some, Ok, IfOk, IfErr, IsSome};
ghost use Rattle.journal.specs.Areas.{pair, stands_in};
ghost use Rattle.journal.specs.Journal.{spare_of, IsAlive};
ghost use Rattle.journal.specs.Pairs.{areas_in, areas_of, store_of};
ghost use Rattle.journal.specs.declared.record.Record.{Record};
ghost use Rattle.validator.specs.Setting.{node_of};
ghost use Rattle.opening.specs.Finished.{IsFinished};
ghost use Rattle.opening.specs.Laws.{StandsForIn, HoldsIn, AreLeftDecodedIn, IsReadIn, IsOpeningOn, IsOpenedIn, with_store};
ghost use Rattle.opening.specs.PairReplayed.{version_in};
ghost use Rattle.opening.specs.PairReplays.{HasTakenPair};
ghost use Rattle.opening.specs.Renewing.{KeepsStatesIn, IsNewest, HasBegun, IsReadOn};
ghost use Rattle.opening.specs.Decoded.{decoded_in, StandsAt};

use crate::pair_replay::PairReplay;
use crate::renewing::renew;
use crate::reopening::reopen;
use crate::standing::worlds_are_decoded_in;
use diskmodel::Disk;
use journal::{Failed, Journal, JournalError, Store, Version};
use sigface::Sign;
use std::alloc::Global;
use validator::{Config, Validator};

/// Opens a node on one disk, as `reopen` does, or on two, as `reopen_pair` does.
///
/// # Errors
/// Those of `reopen` and `reopen_pair`. The disks are handed back.
pub fn reopen_store<'a, S: Sign, D: Disk>(
    alloc: Global,
    config: &'a Config<S>,
    store: Store<D>,
) -> Result<(Validator<'a, S>, Journal<D>), Failed<JournalError, Store<D>>>
    // The validator holds the state that the areas decoded to, and the areas on the disks still decode to it.
    ensures setting { IfOk result (λ opened. opened.0.setting ≡ config.now) }
    ensures stands { let node = node_of S.scheme config.now in IfOk result (λ opened. StandsAt node (decoded_in node (areas_in D.device store)) opened.0.tables) }
    ensures same { let node = node_of S.scheme config.now in IfOk result (λ opened. decoded_in node (areas_of D.device opened.1) ≡ decoded_in node (areas_in D.device store)) }
    ensures alive { IfOk result (λ opened. IsAlive D.device opened.1) }
    ensures configured { IfOk result (λ opened. stands_in (areas_of D.device opened.1) ≢ Ok []) }
    ensures begun { IfOk result (λ opened. HasBegun D.device opened.1) }
    // After success a journal on two disks is in version 2; if it was in version 1 it was rewritten, with the next generation.
    ensures disks { IfOk result (λ opened. IsReadIn (node_of S.scheme config.now) D.device store opened.1) }
    ensures newest { IfOk result (λ opened. IsSome (spare_of opened.1) → IsNewest (areas_of D.device opened.1)) }

    // The areas stand for the state that the validator holds.
    ensures stands_for { IfOk result (λ opened. StandsForIn (node_of S.scheme config.now) (areas_in D.device store) opened.0.tables) }
    // For each state that the areas stood for before the call, the disks now have a proper journal of the node with that state.
    ensures kept { IfOk result (λ opened. KeepsStatesIn (node_of S.scheme config.now) (areas_in D.device store) (areas_of D.device opened.1)) }
    // The opened validator's state is one of the states that the areas stand for after the call.
    ensures holds { IfOk result (λ opened. HoldsIn (node_of S.scheme config.now) (areas_of D.device opened.1) opened.0.tables) }

    // What the errors say, and what a stop at any moment of the opening may leave.
    ensures opening { IsOpeningOn (node_of S.scheme config.now) D.device (λ opened. store_of opened.1) store result }
{
    match store {
        Store::One(disk) => open_alone(alloc, config, disk),
        Store::Two(first, second) => open_both(alloc, config, first, second),
    }
}

/// Opens a node on two disks, given in the order of their areas: its journal, and a validator in the state after the records of the area
/// that is read. An empty journal gets the configuration, in version 2. A journal in version 1 is rewritten as a checkpoint.
///
/// # Errors
/// Both disks are handed back. The first of these is reported:
/// - `Device` or `Memory`: a disk or an allocation failed.
/// - `Damaged`, with the first place at which the groups of records are damaged.
/// - `ConfigMismatch`: the first record is another configuration than the node's own.
/// - `Damaged`, for the records of the checkpoint's state: with the gate of the first one that is at fault; or, where each of them is sound
///   by itself and all of them together are not, with the first gate of the area.
/// - `Damaged`, for the records after these: with the gate of the first one that is no event, fails the checks, or isn't new.
/// - `Full`: a journal in the first version has no room for its checkpoint.
pub fn reopen_pair<'a, S: Sign, D: Disk>(
    alloc: Global,
    config: &'a Config<S>,
    first: D,
    second: D,
) -> Result<(Validator<'a, S>, Journal<D>), Failed<JournalError, (D, D)>>
    // The validator holds the state that both areas decoded to, and the areas on the disks still decode to it.
    ensures setting { IfOk result (λ opened. opened.0.setting ≡ config.now) }
    ensures stands { let node = node_of S.scheme config.now in IfOk result (λ opened. StandsAt node (decoded_in node (pair (D.device.content first) (D.device.content second))) opened.0.tables) }
    ensures same { let node = node_of S.scheme config.now in IfOk result (λ opened. decoded_in node (areas_of D.device opened.1) ≡ decoded_in node (pair (D.device.content first) (D.device.content second))) }
    ensures alive { IfOk result (λ opened. IsAlive D.device opened.1) }
    ensures configured { IfOk result (λ opened. stands_in (areas_of D.device opened.1) ≢ Ok []) }
    ensures begun { IfOk result (λ opened. HasBegun D.device opened.1) }
    // After success the journal is in version 2; if it was in version 1 it was rewritten, with the next generation.
    ensures two { IfOk result (λ opened. IsSome (spare_of opened.1)) }
    ensures read { IfOk result (λ opened. IsReadOn (node_of S.scheme config.now) (D.device.content first) (D.device.content second) opened.1) }
    ensures newest { IfOk result (λ opened. IsNewest (areas_of D.device opened.1)) }

    // The areas stand for the state that the validator holds.
    ensures stands_for { IfOk result (λ opened. StandsForIn (node_of S.scheme config.now) (pair (D.device.content first) (D.device.content second)) opened.0.tables) }
    // For each state that the areas stood for before the call, the disks now have a proper journal of the node with that state.
    ensures kept { IfOk result (λ opened. KeepsStatesIn (node_of S.scheme config.now) (pair (D.device.content first) (D.device.content second)) (areas_of D.device opened.1)) }
    // The opened validator's state is one of the states that the areas stand for after the call.
    ensures holds { IfOk result (λ opened. HoldsIn (node_of S.scheme config.now) (areas_of D.device opened.1) opened.0.tables) }

    // What the errors say, and what a stop at any moment of the opening may leave.
    ensures opening { IsOpeningOn (node_of S.scheme config.now) D.device (λ opened. store_of opened.1) (Store.Two first second) (with_store result) }
{
    match open_both(alloc, config, first, second) {
        Ok(opened) => Ok(opened),
        Err(Failed { error, disk }) => match disk {
            Store::Two(first, second) => Err(Failed {
                error,
                disk: (first, second),
            }),
            Store::One(_) => unreachable!(),
        },
    }
}

// Opens a node on one disk.
fn open_alone<'a, S: Sign, D: Disk>(
    alloc: Global,
    config: &'a Config<S>,
    disk: D,
) -> Result<(Validator<'a, S>, Journal<D>), Failed<JournalError, Store<D>>>
    ensures { IsOpenedIn S.scheme D.device config.now (Store.One disk) result }
{
    match reopen(alloc, config, disk) {
        Ok(opened) => Ok(opened),
        Err(Failed { error, disk }) => Err(Failed {
            error,
            disk: Store::One(disk),
        }),
    }
}

// Opens a node on two disks.
fn open_both<'a, S: Sign, D: Disk>(
    alloc: Global,
    config: &'a Config<S>,
    first: D,
    second: D,
) -> Result<(Validator<'a, S>, Journal<D>), Failed<JournalError, Store<D>>>
    ensures { IsOpenedIn S.scheme D.device config.now (Store.Two first second) result }
{
    spec_machine::starts_fresh();
    config.limits_hold();
    config.keys_hold();
    both_are_decoded(config);
    let mut replay = PairReplay::new(config);
    match Journal::open_store(alloc, Store::Two(first, second), &mut replay) {
        Ok(journal) => finish_on(alloc, config, replay, journal),
        Err(failed) => Err(failed),
    }
}

// A law: whatever a stop leaves in the runs of this node decodes to a state. The call looks at the keys and changes nothing.
fn both_are_decoded<S: Sign>(config: &Config<S>)
    ensures { AreLeftDecodedIn (node_of S.scheme config.now) }
{
    worlds_are_decoded_in();
    config.limits_hold();
    config.keys_hold();
}

// The validator in the state after the records that a reader took of a journal on two disks, and the journal, renewed to version 2.
fn finish_on<'a, S: Sign, D: Disk>(
    alloc: Global,
    config: &'a Config<S>,
    replay: PairReplay<'a, S>,
    journal: Journal<D>,
) -> Result<(Validator<'a, S>, Journal<D>), Failed<JournalError, Store<D>>>
    requires alive { IsAlive D.device journal }
    requires pair { IsSome (spare_of journal) }
    requires config { replay.config.now ≡ config.now }
    requires records { (records : List Record) × (stands_in (areas_of D.device journal) ≡ Ok records) × HasTakenPair S.scheme replay records }
    ensures { IsFinished S.scheme D.device config.now journal result }
{
    let version = replay.version();
    match replay.finish(alloc) {
        Ok(validator) => renew_for(alloc, config, version, validator, journal),
        Err(error) => Err(Failed {
            error,
            disk: journal.into_store(),
        }),
    }
}

// A validator, and its journal after a renewal has brought that to version 2.
fn renew_for<'a, S: Sign, D: Disk>(
    alloc: Global,
    config: &'a Config<S>,
    version: Option<Version>,
    validator: Validator<'a, S>,
    mut journal: Journal<D>,
) -> Result<(Validator<'a, S>, Journal<D>), Failed<JournalError, Store<D>>>
    requires alive { IsAlive D.device journal }
    requires pair { IsSome (spare_of journal) }
    requires setting { validator.setting ≡ config.now }
    requires stands { let node = node_of S.scheme config.now in StandsAt node (decoded_in node (areas_of D.device journal)) validator.tables }
    requires version { (records : List Record) × (stands_in (areas_of D.device journal) ≡ Ok records) × (version ≡ version_in records) }
    ensures { IsFinished S.scheme D.device config.now journal result }
{
    match renew(alloc, config, version, &validator, &mut journal) {
        Ok(()) => Ok((validator, journal)),
        Err(error) => Err(Failed {
            error,
            disk: journal.into_store(),
        }),
    }
}
