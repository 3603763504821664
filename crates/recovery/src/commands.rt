//! Carries out the commands of a script at a desk, a node of one owner.

ghost use Rattle.std.specs.Prelude.{◌≡◌, ◌≢◌, ◌⊎◌, ◌+◌, ◌<◌, ◌≤◌, true, false, IfOk, IfErr, OnOk, OnErr, IsErrOf, IsOk, None};
ghost use Rattle.diskmodel.specs.Disk.{ReportsFault};
ghost use Rattle.std.specs.Io.KnownBytes.{Appends};
ghost use Rattle.header.specs.Checks.{fault_of, accepts_all};
ghost use Rattle.journal.specs.Pairs.{areas_in, store_of};
ghost use Rattle.journal.specs.Stores.{faults_in, ReportsFaultsBack};
ghost use Rattle.book.specs.Book.{StandsAsBefore};
ghost use Rattle.book.specs.declared.book.TheConstants.{MAX_ACCEPTED};
ghost use Rattle.validator.specs.Setting.{node_of};
ghost use Rattle.desk.specs.Disks.{Leaves};
ghost use Rattle.spec_world.specs.Text.{take_in, flush as flush_it, checkpoint as settle_all, stop as stop_it, frames, due, without_due, after, carried_out, Desk as ScriptDesk};
ghost use Rattle.recovery.specs.Faults.{ended_by};
ghost use Rattle.recovery.specs.Script.{said, is_two, Passes, CarriesOut, KeepsDisks, IsOf, IsOpenedOf, IsNotOpened, Follows, BreaksOff};
ghost use Rattle.recovery.specs.Writing.{AppendsPart, WritesFirst, WritesNone, WritesPartOfFirst};
ghost use Rattle.wire_write.specs.Frames.{AppendsLess};

use crate::driving::{Command, DriveError};
use desk::{Desk, FlushError, Receipt};
use diskmodel::{Disk, StopDisk};
use header::Checked;
use journal::{Failed, JournalError, Store};
use sigface::Sign;
use std::alloc::Global;
use std::io::Write;
use validator::{Config, Refusal};
use wire_write::write_output;

/// Opens a node on one disk or on two. Its book has accepted nothing in this run.
pub(crate) fn open<'a, S: Sign, D: StopDisk>(
    alloc: Global,
    config: &'a Config<S>,
    store: Store<D>,
) -> Result<Desk<'a, S, D>, Failed<DriveError, Store<D>>>
    ensures setting { IfOk result (λ desk. desk.book.validator.setting ≡ config.now) }
    ensures ok { IfOk result (λ desk. IsOpenedOf (node_of S.scheme config.now) D.device (areas_in D.device store) desk.book desk.journal) }
    ensures none { IfOk result (λ desk. desk.book.accepted ≡ 0) }
    ensures disks { KeepsDisks (λ desk. store_of desk.journal) store result }
    ensures err { IfErr result (λ failed. IsNotOpened (node_of S.scheme config.now) failed.error (areas_in D.device store) (Leaves D.device store) (Leaves D.device failed.disk)) }
    ensures cause { ReportsFaultsBack (faults_in D.device) (λ desk. store_of desk.journal) DriveError.Device store result }
    ensures never_output { IfErr result (λ failed. failed.error ≢ DriveError.Output) }
{
    config.keys_hold();
    match Desk::open_store(alloc, config, store) {
        Ok(desk) => Ok(desk),
        Err(failed) => Err(ended(failed)),
    }
}

/// Carries out a command, and then writes the outputs that are due (as many records are settled as their tickets say).
pub(crate) fn carry_out<'a, S: Sign, D: StopDisk, W: Write>(
    desk: Desk<'a, S, D>,
    alloc: Global,
    config: &'a Config<S>,
    command: Command,
    writer: &mut W,
) -> Result<Desk<'a, S, D>, Failed<DriveError, Store<D>>>
    requires setting { desk.book.validator.setting ≡ config.now }
    requires stands { (script : ScriptDesk) × IsOf (node_of S.scheme config.now) D.device script desk.book desk.journal }
    requires can { CarriesOut (is_two (store_of desk.journal)) command }
    requires passed { Passes config.now.charter command }
    requires room { desk.book.accepted < MAX_ACCEPTED }

    ensures setting { IfOk result (λ next. next.book.validator.setting ≡ config.now) }
    ensures ok { let node = node_of S.scheme config.now in IfOk result (λ next. Follows node D.device (λ script. carried_out node script (said command)) desk.entry next) }
    ensures disks { KeepsDisks (λ next. store_of next.journal) (store_of desk.entry.journal) result }
    ensures writes { let node = node_of S.scheme config.now in OnOk result ((script : ScriptDesk) → IsOf node D.device script desk.entry.book desk.entry.journal
        → Appends (W.contents writer.old) (W.contents writer.new) (frames (due (after node script (said command))))) }
    ensures count { IfOk result (λ next. next.book.accepted ≤ desk.entry.book.accepted + 1) }
    ensures err { let node = node_of S.scheme config.now in IfErr result (λ failed. BreaksOff node D.device (said command) desk.entry failed.error failed.disk) }
    ensures writes_part { let node = node_of S.scheme config.now in IfErr result (λ failed. (script : ScriptDesk) → IsOf node D.device script desk.entry.book desk.entry.journal
        → AppendsPart failed.error (W.contents writer.old) (W.contents writer.new) (frames (due (after node script (said command))))) }
    ensures cause { ReportsFaultsBack (faults_in D.device) (λ next. store_of next.journal) DriveError.Device (store_of desk.entry.journal) result }
{
    let mut desk = apply(desk, alloc, config, command)?;
    match write_due(&mut desk, alloc, writer) {
        Ok(()) => Ok(desk),
        Err(error) => Err(fail(desk, error)),
    }
}

// Carries out a command, before any output is written.
fn apply<'a, S: Sign, D: StopDisk>(
    desk: Desk<'a, S, D>,
    alloc: Global,
    config: &'a Config<S>,
    command: Command,
) -> Result<Desk<'a, S, D>, Failed<DriveError, Store<D>>>
    requires setting { desk.book.validator.setting ≡ config.now }
    requires stands { (script : ScriptDesk) × IsOf (node_of S.scheme config.now) D.device script desk.book desk.journal }
    requires can { CarriesOut (is_two (store_of desk.journal)) command }
    requires passed { Passes config.now.charter command }
    requires room { desk.book.accepted < MAX_ACCEPTED }

    ensures setting { IfOk result (λ next. next.book.validator.setting ≡ config.now) }
    ensures ok { let node = node_of S.scheme config.now in IfOk result (λ next. Follows node D.device (λ script. after node script (said command)) desk.entry next) }
    ensures disks { KeepsDisks (λ next. store_of next.journal) (store_of desk.entry.journal) result }
    ensures count { IfOk result (λ next. next.book.accepted ≤ desk.entry.book.accepted + 1) }
    ensures err { let node = node_of S.scheme config.now in IfErr result (λ failed. BreaksOff node D.device (said command) desk.entry failed.error failed.disk) }
    ensures cause { ReportsFaultsBack (faults_in D.device) (λ next. store_of next.journal) DriveError.Device (store_of desk.entry.journal) result }
    ensures never_output { IfErr result (λ failed. failed.error ≢ DriveError.Output) }
{
    match command {
        Command::Event(event) => with_event(desk, event),
        Command::Flush => flushed(desk),
        Command::Checkpoint => rewritten(desk),
        Command::Stop => stopped(desk, alloc, config),
    }
}

// Carries out a command that hands in an event.
fn with_event<'a, S: Sign, D: StopDisk>(
    mut desk: Desk<'a, S, D>,
    event: Checked,
) -> Result<Desk<'a, S, D>, Failed<DriveError, Store<D>>>
    requires stands { (script : ScriptDesk) × IsOf (node_of S.scheme desk.book.validator.setting) D.device script desk.book desk.journal }
    requires passed { fault_of desk.book.validator.setting.charter accepts_all event ≡ None }
    requires room { desk.book.accepted < MAX_ACCEPTED }

    ensures setting { IfOk result (λ next. next.book.validator.setting ≡ desk.entry.book.validator.setting) }
    ensures ok { let node = node_of S.scheme desk.entry.book.validator.setting in IfOk result (λ next. Follows node D.device (λ script. after node script (take_in event)) desk.entry next) }
    ensures count { IfOk result (λ next. next.book.accepted ≤ desk.entry.book.accepted + 1) }
    ensures same { IfOk result (λ next. next.journal ≡ desk.entry.journal) }
    ensures same_err { IfErr result (λ failed. failed.disk ≡ store_of desk.entry.journal) }
    ensures err { let node = node_of S.scheme desk.entry.book.validator.setting in IfErr result (λ failed. BreaksOff node D.device (take_in event) desk.entry failed.error failed.disk) }
    ensures memory { IfErr result (λ failed. failed.error ≡ DriveError.Memory) }
{
    match accept(&mut desk, event) {
        Ok(()) => Ok(desk),
        Err(error) => Err(fail(desk, error)),
    }
}

// Carries out a flush: writes the next group and settles it.
fn flushed<'a, S: Sign, D: StopDisk>(
    mut desk: Desk<'a, S, D>,
) -> Result<Desk<'a, S, D>, Failed<DriveError, Store<D>>>
    requires stands { (script : ScriptDesk) × IsOf (node_of S.scheme desk.book.validator.setting) D.device script desk.book desk.journal }

    ensures setting { IfOk result (λ next. next.book.validator.setting ≡ desk.entry.book.validator.setting) }
    ensures ok { let node = node_of S.scheme desk.entry.book.validator.setting in IfOk result (λ next. Follows node D.device (λ script. after node script flush_it) desk.entry next) }
    ensures disks { KeepsDisks (λ next. store_of next.journal) (store_of desk.entry.journal) result }
    ensures count { IfOk result (λ next. next.book.accepted ≡ desk.entry.book.accepted) }
    ensures err { let node = node_of S.scheme desk.entry.book.validator.setting in IfErr result (λ failed. BreaksOff node D.device flush_it desk.entry failed.error failed.disk) }
    ensures cause { ReportsFaultsBack (faults_in D.device) (λ next. store_of next.journal) DriveError.Device (store_of desk.entry.journal) result }
    ensures never_output { IfErr result (λ failed. failed.error ≢ DriveError.Output) }
{
    match flush(&mut desk) {
        Ok(()) => Ok(desk),
        Err(error) => Err(fail(desk, error)),
    }
}

// Carries out a checkpoint: rewrites the spare disk, which settles all accepted events.
fn rewritten<'a, S: Sign, D: StopDisk>(
    mut desk: Desk<'a, S, D>,
) -> Result<Desk<'a, S, D>, Failed<DriveError, Store<D>>>
    requires stands { (script : ScriptDesk) × IsOf (node_of S.scheme desk.book.validator.setting) D.device script desk.book desk.journal }
    requires pair { is_two (store_of desk.journal) ≡ true }

    ensures setting { IfOk result (λ next. next.book.validator.setting ≡ desk.entry.book.validator.setting) }
    ensures ok { let node = node_of S.scheme desk.entry.book.validator.setting in IfOk result (λ next. Follows node D.device (λ script. after node script settle_all) desk.entry next) }
    ensures disks { KeepsDisks (λ next. store_of next.journal) (store_of desk.entry.journal) result }
    ensures count { IfOk result (λ next. next.book.accepted ≡ desk.entry.book.accepted) }
    ensures err { let node = node_of S.scheme desk.entry.book.validator.setting in IfErr result (λ failed. BreaksOff node D.device settle_all desk.entry failed.error failed.disk) }
    ensures cause { ReportsFaultsBack (faults_in D.device) (λ next. store_of next.journal) DriveError.Device (store_of desk.entry.journal) result }
    ensures never_output { IfErr result (λ failed. failed.error ≢ DriveError.Output) }
{
    match checkpoint(&mut desk) {
        Ok(()) => Ok(desk),
        Err(error) => Err(fail(desk, error)),
    }
}

// Carries out a stop: stops the machine and opens the node again.
fn stopped<'a, S: Sign, D: StopDisk>(
    desk: Desk<'a, S, D>,
    alloc: Global,
    config: &'a Config<S>,
) -> Result<Desk<'a, S, D>, Failed<DriveError, Store<D>>>
    ensures setting { IfOk result (λ next. next.book.validator.setting ≡ config.now) }
    ensures ok { let node = node_of S.scheme config.now in IfOk result (λ next. Follows node D.device (λ script. after node script stop_it) desk.entry next) }
    ensures disks { KeepsDisks (λ next. store_of next.journal) (store_of desk.entry.journal) result }
    ensures count { IfOk result (λ next. next.book.accepted ≡ 0) }
    ensures err { let node = node_of S.scheme config.now in IfErr result (λ failed. BreaksOff node D.device stop_it desk.entry failed.error failed.disk) }
    ensures cause { ReportsFaultsBack (faults_in D.device) (λ next. store_of next.journal) DriveError.Device (store_of desk.entry.journal) result }
    ensures never_output { IfErr result (λ failed. failed.error ≢ DriveError.Output) }
{
    match desk.stop_store(alloc, config) {
        Ok(next) => Ok(next),
        Err(failed) => Err(ended(failed)),
    }
}

// Submits an event. Only a failed allocation is an error: any other refusal changes nothing.
fn accept<S: Sign, D: StopDisk>(desk: &mut Desk<'_, S, D>, event: Checked) -> Result<(), DriveError>
    requires stands { (script : ScriptDesk) × IsOf (node_of S.scheme desk.old.book.validator.setting) D.device script desk.old.book desk.old.journal }
    requires passed { fault_of desk.old.book.validator.setting.charter accepts_all event ≡ None }
    requires room { desk.old.book.accepted < MAX_ACCEPTED }

    ensures setting { desk.new.book.validator.setting ≡ desk.old.book.validator.setting }
    ensures ok { let node = node_of S.scheme desk.old.book.validator.setting in OnOk result (Follows node D.device (λ script. after node script (take_in event)) desk.old desk.new) }
    ensures count { desk.new.book.accepted ≤ desk.old.book.accepted + 1 }
    ensures same { desk.new.journal ≡ desk.old.journal }
    ensures memory { IfErr result (λ error. error ≡ DriveError.Memory) }
{
    unless_memory(desk.accept(event))
}

// Writes the next group of the pending records to the disk, and settles it.
fn flush<S: Sign, D: StopDisk>(desk: &mut Desk<'_, S, D>) -> Result<(), DriveError>
    requires stands { (script : ScriptDesk) × IsOf (node_of S.scheme desk.old.book.validator.setting) D.device script desk.old.book desk.old.journal }

    ensures setting { desk.new.book.validator.setting ≡ desk.old.book.validator.setting }
    ensures ok { let node = node_of S.scheme desk.old.book.validator.setting in OnOk result (Follows node D.device (λ script. after node script flush_it) desk.old desk.new) }
    ensures disks { is_two (store_of desk.new.journal) ≡ is_two (store_of desk.old.journal) }
    ensures count { desk.new.book.accepted ≡ desk.old.book.accepted }
    ensures err { let node = node_of S.scheme desk.old.book.validator.setting in IfErr result (λ error. BreaksOff node D.device flush_it desk.old error (store_of desk.new.journal)) }
    ensures cause { ReportsFault DriveError.Device (faults_in D.device (store_of desk.old.journal)) (faults_in D.device (store_of desk.new.journal)) result }
    ensures never_output { IfErr result (λ error. error ≢ DriveError.Output) }
{
    unless_failed(desk.flush())
}

// Writes a checkpoint of all accepted events to the spare disk, and settles them.
fn checkpoint<S: Sign, D: StopDisk>(desk: &mut Desk<'_, S, D>) -> Result<(), DriveError>
    requires stands { (script : ScriptDesk) × IsOf (node_of S.scheme desk.old.book.validator.setting) D.device script desk.old.book desk.old.journal }
    requires pair { is_two (store_of desk.old.journal) ≡ true }

    ensures setting { desk.new.book.validator.setting ≡ desk.old.book.validator.setting }
    ensures ok { let node = node_of S.scheme desk.old.book.validator.setting in OnOk result (Follows node D.device (λ script. after node script settle_all) desk.old desk.new) }
    ensures disks { is_two (store_of desk.new.journal) ≡ is_two (store_of desk.old.journal) }
    ensures count { desk.new.book.accepted ≡ desk.old.book.accepted }
    ensures err { let node = node_of S.scheme desk.old.book.validator.setting in IfErr result (λ error. BreaksOff node D.device settle_all desk.old error (store_of desk.new.journal)) }
    ensures cause { ReportsFault DriveError.Device (faults_in D.device (store_of desk.old.journal)) (faults_in D.device (store_of desk.new.journal)) result }
    ensures never_output { IfErr result (λ error. error ≢ DriveError.Output) }
{
    unless_failed(desk.checkpoint())
}

// Writes the outputs that are due, and removes them from the queue.
fn write_due<S: Sign, D: StopDisk, W: Write>(
    desk: &mut Desk<'_, S, D>,
    alloc: Global,
    writer: &mut W,
) -> Result<(), DriveError>
    requires up { desk.old.book.down ≡ false }

    ensures setting { desk.new.book.validator.setting ≡ desk.old.book.validator.setting }
    ensures ok { let node = node_of S.scheme desk.old.book.validator.setting in OnOk result (Follows node D.device (λ script. without_due script) desk.old desk.new) }
    ensures writes { OnOk result ((script : ScriptDesk) → IsOf (node_of S.scheme desk.old.book.validator.setting) D.device script desk.old.book desk.old.journal
        → Appends (W.contents writer.old) (W.contents writer.new) (frames (due script))) }
    ensures count { desk.new.book.accepted ≡ desk.old.book.accepted }
    ensures same { desk.new.journal ≡ desk.old.journal }
    ensures errors { IfErr result (λ error. (error ≡ DriveError.Memory) ⊎ (error ≡ DriveError.Output)) }
    ensures writes_part { OnErr result ((script : ScriptDesk) → IsOf (node_of S.scheme desk.old.book.validator.setting) D.device script desk.old.book desk.old.journal
        → AppendsLess (W.contents writer.old) (W.contents writer.new) (frames (due script))) }
{
    'writing: while write_next(desk, alloc, writer)? {}
    Ok(())
}

// Writes the first output of the queue if it is due, and removes it. Returns whether there was such an output.
fn write_next<S: Sign, D: StopDisk, W: Write>(
    desk: &mut Desk<'_, S, D>,
    alloc: Global,
    writer: &mut W,
) -> Result<bool, DriveError>
    ensures setting { desk.new.book.validator.setting ≡ desk.old.book.validator.setting }
    ensures stands { let node = node_of S.scheme desk.old.book.validator.setting in StandsAsBefore node desk.old.book desk.new.book }
    ensures next { IfOk result (λ more. more ≡ true → WritesFirst desk.old.book desk.new.book (W.contents writer.old) (W.contents writer.new)) }
    ensures none { IfOk result (λ more. more ≡ false → WritesNone desk.old.book desk.new.book (W.contents writer.old) (W.contents writer.new)) }
    ensures count { desk.new.book.accepted ≡ desk.old.book.accepted }
    ensures same { desk.new.journal ≡ desk.old.journal }
    ensures errors { IfErr result (λ error. (error ≡ DriveError.Memory) ⊎ (error ≡ DriveError.Output)) }
    ensures part { OnErr result (WritesPartOfFirst desk.old.book (W.contents writer.old) (W.contents writer.new)) }
{
    let Some(output) = desk.release() else {
        return Ok(false);
    };
    write_output(alloc, &output, writer)?;
    Ok(true)
}

// The result of a script that ended with this error: the error, and the desk's disks.
fn fail<'a, S: Sign, D: StopDisk>(
    desk: Desk<'a, S, D>,
    error: DriveError,
) -> Failed<DriveError, Store<D>>
    ensures error { result.error ≡ error }
    ensures disk { result.disk ≡ store_of desk.entry.journal }
{
    Failed {
        error,
        disk: desk.into_store(),
    }
}

// Of all answers to an event, the one that ends a script is a failed allocation.
fn unless_memory(answer: Result<Receipt, Refusal>) -> Result<(), DriveError>
    ensures ok { OnOk result (IsErrOf answer Refusal.Memory → ⊥) }
    ensures err { OnErr result (IsErrOf answer Refusal.Memory) }
    ensures memory { IfErr result (λ error. error ≡ DriveError.Memory) }
{
    match answer {
        Ok(_) => Ok(()),
        Err(Refusal::Memory) => Err(DriveError::Memory),
        Err(_) => Ok(()),
    }
}

// The error that ends a script if a round or a checkpoint failed. The desk was up before.
fn unless_failed(answer: Result<u64, FlushError>) -> Result<(), DriveError>
    requires { IsErrOf answer FlushError.Down → ⊥ }
    ensures ok { OnOk result (IsOk answer) }
    ensures memory { IsErrOf result DriveError.Memory → IsErrOf answer FlushError.Memory }
    ensures device { IsErrOf result DriveError.Device → IsErrOf answer FlushError.Device }
    ensures full { IsErrOf result DriveError.Full → IsErrOf answer FlushError.Full }
    ensures errors { IfErr result (λ error. (error ≡ DriveError.Memory) ⊎ ((error ≡ DriveError.Device) ⊎ (error ≡ DriveError.Full))) }
{
    match answer {
        Ok(_) => Ok(()),
        Err(FlushError::Memory) => Err(DriveError::Memory),
        Err(FlushError::Device) => Err(DriveError::Device),
        Err(FlushError::Full) => Err(DriveError::Full),
        Err(FlushError::Down) => unreachable!(),
    }
}

// The result of a script whose node could not be opened: the error, and the disks.
fn ended<D: Disk>(failed: Failed<JournalError, Store<D>>) -> Failed<DriveError, Store<D>>
    ensures error { result.error ≡ ended_by failed.error }
    ensures disk { result.disk ≡ failed.disk }
{
    let Failed { error, disk } = failed;
    Failed {
        error: DriveError::from(error),
        disk,
    }
}
