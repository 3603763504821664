//! What a desk (a node of one owner) does at a move, before anything goes out.

ghost use Rattle.std.specs.Prelude.{◌≡◌, ◌<◌, List, ℕ, None, Ok, IfOk, OnErr, IfErr, IsErrOf};
ghost use Rattle.header.specs.Checks.{Accepts, fault_of, accepts_all};
ghost use Rattle.journal.specs.Areas.{alone};
ghost use Rattle.journal.specs.Format.{stands};
ghost use Rattle.journal.specs.Journal.{disk_of, spare_of};
ghost use Rattle.opening.specs.Laws.{IsNoRefusal};
ghost use Rattle.opening.specs.Decoded.{decoded};
ghost use Rattle.spec_model.specs.Nodes.{Node};
ghost use Rattle.spec_model.specs.States.{State};
ghost use Rattle.spec_world.specs.World.{World};
ghost use Rattle.validator.specs.Setting.{node_of};
ghost use Rattle.desk.specs.AtWorld.{IsAt};
ghost use Rattle.desk.specs.Desk.{IsOpened};
ghost use Rattle.cluster.specs.Answers.{TakesIn, MakesRound, IsDeviceFault, HasMoved, CountsMore, events_in};

use crate::error::ClusterError;
use crate::moves::Applied;
use desk::Desk;
use diskmodel::StopDisk;
use header::{Checked, check};
use journal::{Journal, JournalError};
use sigface::{Sign, Verify};
use std::alloc::Global;
use validator::{Config, Refusal};
use wire::{Author, Message};

/// Checks a message, and gives it to a desk if it passes. The only error is a failed allocation; then nothing has changed.
pub(crate) fn offer<S: Sign, D: StopDisk, V: Verify>(
    desk: &mut Desk<'_, S, D>,
    verifier: &V,
    sender: Author,
    message: Message,
) -> Result<Applied, ClusterError>
    ensures ok { let node = node_of S.scheme desk.old.book.validator.setting in IfOk result (λ applied. (world : World) → IsAt node D.device world desk.old
        → HasMoved node D.device (TakesIn node (V.accepts verifier.now) (record { sender = sender; message = message }) applied) world desk.old desk.new) }
    ensures err { OnErr result (desk.new ≡ desk.old) }
    ensures errors { IfErr result (λ error. error ≡ ClusterError.Memory) }
    ensures setting { desk.new.book.validator.setting ≡ desk.old.book.validator.setting }
    ensures spare { spare_of desk.new.journal ≡ spare_of desk.old.journal }
{
    match check(desk.committee(), verifier, sender, message) {
        Ok(event) => hand_in(desk, event),
        Err(error) => Ok(Applied::Unchecked(error)),
    }
}

// Gives an event that passed the checks to a desk.
fn hand_in<S: Sign, D: StopDisk>(
    desk: &mut Desk<'_, S, D>,
    event: Checked,
) -> Result<Applied, ClusterError>
    requires passed { fault_of desk.old.book.validator.setting.charter accepts_all event ≡ None }
    ensures ok { let node = node_of S.scheme desk.old.book.validator.setting in IfOk result (λ applied. (accepts : Accepts) (world : World) → fault_of desk.old.book.validator.setting.charter accepts event ≡ None
        → IsAt node D.device world desk.old
        → HasMoved node D.device (TakesIn node accepts event applied) world desk.old desk.new) }
    ensures err { OnErr result (desk.new ≡ desk.old) }
    ensures errors { IfErr result (λ error. error ≡ ClusterError.Memory) }
    ensures setting { desk.new.book.validator.setting ≡ desk.old.book.validator.setting }
    ensures spare { spare_of desk.new.journal ≡ spare_of desk.old.journal }
{
    match desk.accept(event) {
        Ok(receipt) => Ok(Applied::Took {
            ticket: receipt.ticket,
            new: receipt.new,
        }),
        Err(Refusal::Memory) => Err(ClusterError::Memory),
        Err(refusal) => Ok(Applied::Refused(refusal)),
    }
}

/// Lets a desk make one round: it writes its pending records and settles them.
pub(crate) fn round<S: Sign, D: StopDisk>(desk: &mut Desk<'_, S, D>) -> Applied
    ensures moved { let node = node_of S.scheme desk.old.book.validator.setting in (world : World) → IsAt node D.device world desk.old
        → HasMoved node D.device (MakesRound node D.device result) world desk.old desk.new }
    // A round is answered Device only if the disk counted a failed call.
    ensures device { IsDeviceFault result → D.device.faults (disk_of desk.old.journal) < D.device.faults (disk_of desk.new.journal) }
    ensures setting { desk.new.book.validator.setting ≡ desk.old.book.validator.setting }
    ensures spare { spare_of desk.new.journal ≡ spare_of desk.old.journal }
{
    match desk.flush() {
        Ok(count) => Applied::Settled(count),
        Err(error) => Applied::Fault(error),
    }
}

/// Stops the machine of a desk, counts the events in the journal that the stop left, and opens the node on it.
///
/// # Errors
/// Those of opening a node.
pub(crate) fn restart<'a, S: Sign, D: StopDisk + Drop>(
    alloc: Global,
    config: &'a Config<S>,
    desk: Desk<'a, S, D>,
) -> Result<(Desk<'a, S, D>, u64), JournalError>
    requires alone { spare_of desk.journal ≡ None }
    ensures setting { IfOk result (λ opened. opened.0.book.validator.setting ≡ config.now) }
    ensures opened { IfOk result (λ opened. (found : List ℕ) × D.device.outcome (disk_of desk.entry.journal) found
        × IsOpened (node_of S.scheme config.now) D.device (alone found) opened.0 × (opened.1 ≡ events_in found)) }
    // The error is Device only if the disk counted a failed call.
    ensures device { IsErrOf result JournalError.Device → CountsMore D.device (disk_of desk.entry.journal) }
    // What a stop leaves of a desk that stands at a world can be opened, unless an allocation or the disk fails.
    ensures refused { IfErr result (λ error. (world : World) → IsAt (node_of S.scheme config.now) D.device world desk.entry → IsNoRefusal error) }
{
    let mut disk = desk.into_disk();
    disk.stop();
    let (events, disk) = count_events(alloc, disk)?;
    match Desk::open(alloc, config, disk) {
        Ok(desk) => Ok((desk, events)),
        Err(failed) => Err(failed.error),
    }
}

// How many events the journal on a disk has: its records except the first, which is the configuration. Hands the disk back.
fn count_events<D: StopDisk + Drop>(alloc: Global, disk: D) -> Result<(u64, D), JournalError>
    ensures same { IfOk result (λ counted. stands (D.device.content counted.1) ≡ stands (D.device.content disk)) }
    ensures count { IfOk result (λ counted. counted.0 ≡ events_in (D.device.content disk)) }
    ensures refused { IfErr result (λ error. (node : Node) (state : State) → decoded node (D.device.content disk) ≡ Ok state → IsNoRefusal error) }
    ensures device { IsErrOf result JournalError.Device → CountsMore D.device disk }
    ensures no_fault { IfOk result (λ counted. D.device.faults counted.1 ≡ D.device.faults disk) }
{
    match Journal::open(alloc, disk) {
        Ok((journal, records)) => Ok((records.len().saturating_sub(1) as u64, journal.into_disk())),
        Err(failed) => Err(failed.error),
    }
}
