//! Brings an opened journal on two disks to version 2 of the format.

ghost use Rattle.std.specs.Prelude.{◌≡◌, ◌≢◌, [], List, Some, Ok, IfErr, OnOk, IsSome};
ghost use Rattle.journal.specs.Areas.{stands_in};
ghost use Rattle.journal.specs.Journal.{spare_of, IsAlive};
ghost use Rattle.journal.specs.Pairs.{areas_of, HaveKeptPlaces};
ghost use Rattle.journal.specs.declared.record.Record.{Record};
ghost use Rattle.validator.specs.Setting.{node_of};
ghost use Rattle.opening.specs.PairReplayed.{version_in};
ghost use Rattle.opening.specs.Renewing.{IsRenewed, IsPlaced, IsRewritten};
ghost use Rattle.opening.specs.Decoded.{decoded_in, StandsAt};

use crate::checkpoints::checkpoint;
use crate::reopening::write_configuration;
use diskmodel::Disk;
use journal::{Journal, JournalError, Version};
use sigface::Sign;
use std::alloc::Global;
use validator::{Config, Validator};

/// Brings an opened journal on two disks to version 2: an empty journal gets its configuration, and a journal in version 1 is rewritten as
/// a checkpoint of the validator.
pub(crate) fn renew<S: Sign, D: Disk>(
    alloc: Global,
    config: &Config<S>,
    version: Option<Version>,
    validator: &Validator<'_, S>,
    journal: &mut Journal<D>,
) -> Result<(), JournalError>
    requires alive { IsAlive D.device journal.old }
    requires pair { IsSome (spare_of journal.old) }
    requires setting { validator.now.setting ≡ config.now }
    requires stands { let node = node_of S.scheme config.now in StandsAt node (decoded_in node (areas_of D.device journal.old)) validator.now.tables }
    requires version { (records : List Record) × (stands_in (areas_of D.device journal.old) ≡ Ok records) × (version ≡ version_in records) }
    ensures renewed { IsRenewed (node_of S.scheme config.now) D.device journal.old result journal.new }
    // A journal is rewritten if and only if it is in version 1.
    ensures placed { OnOk result (IsPlaced (node_of S.scheme config.now) D.device version journal.old journal.new) }
    ensures first { IfErr result (λ error. error ≡ JournalError.Full → version ≡ Some Version.First) }
{
    match version {
        None => begin(alloc, config, journal),
        Some(Version::First) => migrate(config, validator, journal),
        Some(Version::Second) => Ok(()),
    }
}

// Writes the configuration as the first group of an empty journal on two disks.
fn begin<S: Sign, D: Disk>(
    alloc: Global,
    config: &Config<S>,
    journal: &mut Journal<D>,
) -> Result<(), JournalError>
    requires alive { IsAlive D.device journal.old }
    requires pair { IsSome (spare_of journal.old) }
    requires empty { stands_in (areas_of D.device journal.old) ≡ Ok [] }
    ensures never_full { IfErr result (λ error. error ≢ JournalError.Full) }
    ensures stays { HaveKeptPlaces journal.old journal.new }
    ensures renewed { IsRenewed (node_of S.scheme config.now) D.device journal.old result journal.new }
{
    spec_machine::starts_fresh();
    config.limits_hold();
    config.keys_hold();
    write_configuration(alloc, Version::Second, config, journal)
}

// Rewrites a journal on two disks as a checkpoint of the validator.
fn migrate<S: Sign, D: Disk>(
    config: &Config<S>,
    validator: &Validator<'_, S>,
    journal: &mut Journal<D>,
) -> Result<(), JournalError>
    requires alive { IsAlive D.device journal.old }
    requires pair { IsSome (spare_of journal.old) }
    requires setting { validator.now.setting ≡ config.now }
    requires configured { stands_in (areas_of D.device journal.old) ≢ Ok [] }
    requires stands { let node = node_of S.scheme config.now in StandsAt node (decoded_in node (areas_of D.device journal.old)) validator.now.tables }
    ensures renewed { IsRenewed (node_of S.scheme config.now) D.device journal.old result journal.new }
    ensures rewritten { OnOk result (IsRewritten (node_of S.scheme config.now) D.device journal.old journal.new) }
{
    let _ = checkpoint(validator, journal)?;
    Ok(())
}
