//! Starts a simulated node on its two disks.

ghost use Rattle.std.specs.Prelude.{◌≡◌, [], Ok, IfOk, IsSome};
ghost use Rattle.journal.specs.Areas.{stands_in};
ghost use Rattle.journal.specs.Journal.{spare_of, IsAlive};
ghost use Rattle.journal.specs.Pairs.{areas_of};
ghost use Rattle.opening.specs.Laws.{HoldsIn};
ghost use Rattle.spec_records.specs.Records.{CanReport};
ghost use Rattle.validator.specs.Setting.{node_of};
ghost use Rattle.sim_run.specs.Running.{AreOne};

use crate::ending::Ending;
use diskmodel::Disk;
use journal::{Journal, Version};
use node::{Flusher, Node, Seat};
use opening::{can_report, reopen_pair, write_configuration};
use sigface::Sign;
use std::alloc::Global;
use validator::{Config, Validator};

/// A started node: the node with the caller's seat, and its flusher.
pub type Started<'a, S, D> = (Node<'a, S>, Seat, Flusher<D>);

/// Starts the node of this configuration on what is on both disks.
pub fn start<'a, S: Sign, D: Disk + Drop>(
    alloc: Global,
    config: &'a Config<S>,
    first: D,
    second: D,
) -> Result<Started<'a, S, D>, Ending>
    ensures { IfOk result (λ started. AreOne S.scheme D.device config.now started.0 started.1 started.2) }
{
    match reopen_pair(alloc, config, first, second) {
        Ok((validator, journal)) => begin(alloc, validator, journal),
        Err(failed) => Err(Ending::from(failed.error)),
    }
}

/// Starts a node on two empty disks, with a journal whose first group is in version 1 of the format. (An opening would write version 2, and
/// would rewrite a journal in version 1.)
pub fn start_in_first_version<'a, S: Sign, D: Disk + Drop>(
    alloc: Global,
    config: &'a Config<S>,
    first: D,
    second: D,
) -> Result<Started<'a, S, D>, Ending>
    ensures { IfOk result (λ started. AreOne S.scheme D.device config.now started.0 started.1 started.2) }
{
    match Journal::open_pair(alloc, first, second) {
        Ok((journal, records)) => {
            if records.is_empty() && can_report(Version::First, config.committee()) {
                return begin_in_first_version(alloc, config, journal);
            }
            let (first, second) = journal.into_disks();
            start(alloc, config, first, second)
        }
        Err(failed) => Err(Ending::from(failed.error)),
    }
}

// Opens an empty journal on two disks, writes its first group in version 1, and makes the node.
fn begin_in_first_version<'a, S: Sign, D: Disk + Drop>(
    alloc: Global,
    config: &'a Config<S>,
    mut journal: Journal<D>,
) -> Result<Started<'a, S, D>, Ending>
    requires alive { IsAlive D.device journal }
    requires pair { IsSome (spare_of journal) }
    requires empty { stands_in (areas_of D.device journal) ≡ Ok [] }
    requires can_report { CanReport Version.First config.now.charter }
    ensures { IfOk result (λ started. AreOne S.scheme D.device config.now started.0 started.1 started.2) }
{
    config.limits_hold();
    config.keys_hold();
    let validator = Validator::new(alloc, config)?;
    write_configuration(alloc, Version::First, config, &mut journal)?;
    begin(alloc, validator, journal)
}

// The node made of a validator and a journal on two disks that are in the same state.
fn begin<'a, S: Sign, D: Disk + Drop>(
    alloc: Global,
    validator: Validator<'a, S>,
    journal: Journal<D>,
) -> Result<Started<'a, S, D>, Ending>
    requires alive { IsAlive D.device journal }
    requires pair { IsSome (spare_of journal) }
    requires holds { HoldsIn (node_of S.scheme validator.setting) (areas_of D.device journal) validator.tables }
    ensures { IfOk result (λ started. AreOne S.scheme D.device validator.entry.setting started.0 started.1 started.2) }
{
    validator.limits_hold();
    match Node::new(alloc, validator) {
        Ok((node, seat, flush_seat)) => Ok((node, seat, Flusher::new(journal, flush_seat))),
        Err(_) => Err(Ending::Memory),
    }
}
