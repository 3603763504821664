//! Drives a node of one owner by a list of commands.

ghost use Rattle.std.specs.Prelude.{◌≡◌, ◌≢◌, ◌⊎◌, ◌<◌, ◌≤◌, true, false, All, IfOk, IfErr, OnOk, OnErr, vec_len};
ghost use Rattle.journal.specs.Areas.{alone, pair};
ghost use Rattle.journal.specs.Journal.{ReportsFaultBack};
ghost use Rattle.journal.specs.Pairs.{areas_in};
ghost use Rattle.journal.specs.Stores.{faults_in, faults_of_both, ReportsFaultsBack};
ghost use Rattle.book.specs.declared.book.TheConstants.{MAX_ACCEPTED};
ghost use Rattle.desk.specs.Disks.{Leaves};
ghost use Rattle.validator.specs.Setting.{node_of};
ghost use Rattle.recovery.specs.Running.{IsWithinLimits, EachRunOn, GivesOut, GivesOutNoLess};
ghost use Rattle.recovery.specs.Script.{is_two, script_of, Passes, CarriesOut, KeepsDisks, HasRun, IsUnopened, IsCutShort};

use crate::commands::{carry_out, open};
use diskmodel::StopDisk;
use header::Checked;
use journal::{Failed, JournalError, Store};
use sigface::Sign;
use std::alloc::Global;
use std::io::Write;
use thiserror::Error;
use validator::Config;
use wire_write::WriteError;

/// A command of a script, which drives a node.
#[derive(Debug, Drop)]
pub enum Command {
    /// An event comes in, which passed the checks of the node's committee.
    Event(Checked),
    /// The longest prefix of the pending records that fits a group is written to the disk and settled.
    Flush,
    /// All accepted events are settled by a checkpoint. The node has to be on two disks.
    Checkpoint,
    /// The machine stops, and the node is opened again on what the stop left.
    Stop,
}

/// Why a script ended early. Printed as its number and its name.
#[derive(Clone, Copy, Debug, PartialEq, Eq, Error)]
pub enum DriveError {
    /// An allocation failed.
    #[error("1 Memory")]
    Memory,
    /// A call on a disk failed.
    #[error("2 Device")]
    Device,
    /// The journal is damaged at this place, in bytes from the front.
    #[error("3 Damaged")]
    Damaged(u64),
    /// The journal was made with another configuration.
    #[error("4 ConfigMismatch")]
    ConfigMismatch,
    /// The journal or a checkpoint would be too long, or the last generation is reached.
    #[error("5 Full")]
    Full,
    /// The writer failed.
    #[error("6 Output")]
    Output,
}

impl From<JournalError> for DriveError {
    ghost use Rattle.std.specs.Prelude.{◌≡◌};
    ghost use Rattle.recovery.specs.Faults.{ended_by};

    ghost from_gives = { λ error fault. fault ≡ ended_by error };

    fn from(error: JournalError) -> DriveError {
        match error {
            JournalError::Memory => DriveError::Memory,
            JournalError::Device => DriveError::Device,
            JournalError::Damaged(place) => DriveError::Damaged(place),
            JournalError::ConfigMismatch => DriveError::ConfigMismatch,
            JournalError::Full => DriveError::Full,
        }
    }
}

impl From<WriteError> for DriveError {
    ghost use Rattle.std.specs.Prelude.{◌≡◌};
    ghost use Rattle.recovery.specs.Faults.{unwritten};

    ghost from_gives = { λ error fault. fault ≡ unwritten error };

    fn from(error: WriteError) -> DriveError {
        match error {
            WriteError::Memory => DriveError::Memory,
            WriteError::Output => DriveError::Output,
        }
    }
}

/// Opens a node on one disk and carries out the commands, one after the other; none of them may be a checkpoint. After each command every
/// output whose records are settled is written as a frame: its length in four bytes, and its bytes. For a refused event nothing is written.
///
/// # Errors
/// `Damaged` and `ConfigMismatch` as `reopen` reports them, before anything is written. `Full` if the journal has no room for the group of
/// a flush; `Output` if the writer fails; `Device` or `Memory` if the disk or an allocation fails. The disk is handed back, and can be
/// opened again.
pub fn drive<'a, S: Sign, D: StopDisk, W: Write>(
    alloc: Global,
    config: &'a Config<S>,
    disk: D,
    commands: Vec<Command>,
    writer: &mut W,
) -> Result<D, Failed<DriveError, D>>
    requires passed { All (Passes config.now.charter) commands.items }
    requires few { vec_len commands ≤ MAX_ACCEPTED }
    requires on_one { All (CarriesOut false) commands.items }

    // What was written is the text of the script, from the state on that the disk decoded to.
    ensures ok { IfOk result (λ left. HasRun (node_of S.scheme config.now) (script_of commands.items) (alone (D.device.content disk)) (alone (D.device.content left)) (Leaves D.device (Store.One left)) (W.contents writer.old) (W.contents writer.new)) }

    // After an error nothing was carried out, or some of the commands and perhaps a part of the next one.
    ensures err { let node = node_of S.scheme config.now in IfErr result (λ failed. IsUnopened node failed.error (alone (D.device.content disk)) (Leaves D.device (Store.One disk)) (Leaves D.device (Store.One failed.disk)) (W.contents writer.old) (W.contents writer.new)
        ⊎ IsCutShort node (script_of commands.items) failed.error (alone (D.device.content disk)) (alone (D.device.content failed.disk)) (Leaves D.device (Store.One failed.disk)) (W.contents writer.old) (W.contents writer.new)) }

    // What was written is what runs of the node give out. Take any run that has just begun with a history, where the disk decoded to the
    // state kept of that history: the run can go on as the commands say, and the outputs that then go out are what was written, as frames.
    // After an error, what was written is a prefix of them.
    ensures given_out { let node = node_of S.scheme config.now in OnOk result (EachRunOn node (alone (D.device.content disk)) (GivesOut node (script_of commands.items) (W.contents writer.old) (W.contents writer.new))) }
    ensures given_out_err { let node = node_of S.scheme config.now in OnErr result (EachRunOn node (alone (D.device.content disk)) (GivesOutNoLess node (script_of commands.items) (W.contents writer.old) (W.contents writer.new))) }

    // The error is Device if and only if the disk has counted a failed call.
    ensures cause { ReportsFaultBack D.device (λ left. left) DriveError.Device disk result }
{
    match drive_store(alloc, config, Store::One(disk), commands, writer) {
        Ok(Store::One(disk)) => Ok(disk),
        Ok(Store::Two(..)) => unreachable!(),
        Err(Failed { error, disk }) => match disk {
            Store::One(disk) => Err(Failed { error, disk }),
            Store::Two(..) => unreachable!(),
        },
    }
}

/// Does what `drive` does for a node on two disks, given in the order of their areas. The commands may be checkpoints.
///
/// # Errors
/// Those of `drive`; `Full` also if a checkpoint has no room, which may be that of a journal in version 1 at its opening. Both disks are
/// handed back.
pub fn drive_pair<'a, S: Sign, D: StopDisk, W: Write>(
    alloc: Global,
    config: &'a Config<S>,
    first: D,
    second: D,
    commands: Vec<Command>,
    writer: &mut W,
) -> Result<(D, D), Failed<DriveError, (D, D)>>
    requires passed { All (Passes config.now.charter) commands.items }
    requires few { vec_len commands ≤ MAX_ACCEPTED }

    ensures ok { IfOk result (λ left. HasRun (node_of S.scheme config.now) (script_of commands.items) (pair (D.device.content first) (D.device.content second)) (pair (D.device.content left.0) (D.device.content left.1)) (Leaves D.device (Store.Two left.0 left.1)) (W.contents writer.old) (W.contents writer.new)) }
    ensures err { let node = node_of S.scheme config.now in IfErr result (λ failed. IsUnopened node failed.error (pair (D.device.content first) (D.device.content second)) (Leaves D.device (Store.Two first second)) (Leaves D.device (Store.Two failed.disk.0 failed.disk.1)) (W.contents writer.old) (W.contents writer.new)
        ⊎ IsCutShort node (script_of commands.items) failed.error (pair (D.device.content first) (D.device.content second)) (pair (D.device.content failed.disk.0) (D.device.content failed.disk.1)) (Leaves D.device (Store.Two failed.disk.0 failed.disk.1)) (W.contents writer.old) (W.contents writer.new)) }
    ensures given_out { let node = node_of S.scheme config.now in OnOk result (EachRunOn node (pair (D.device.content first) (D.device.content second)) (GivesOut node (script_of commands.items) (W.contents writer.old) (W.contents writer.new))) }
    ensures given_out_err { let node = node_of S.scheme config.now in OnErr result (EachRunOn node (pair (D.device.content first) (D.device.content second)) (GivesOutNoLess node (script_of commands.items) (W.contents writer.old) (W.contents writer.new))) }

    // The error is Device if and only if a disk has counted a failed call.
    ensures cause { ReportsFaultsBack (faults_of_both D.device) (λ left. left) DriveError.Device (first, second) result }
{
    any_on_two(&commands);
    match drive_store(alloc, config, Store::Two(first, second), commands, writer) {
        Ok(Store::Two(first, second)) => Ok((first, second)),
        Ok(Store::One(_)) => unreachable!(),
        Err(Failed { error, disk }) => match disk {
            Store::Two(first, second) => Err(Failed {
                error,
                disk: (first, second),
            }),
            Store::One(_) => unreachable!(),
        },
    }
}

// A law: a node on two disks can carry out each command. The call does nothing.
fn any_on_two(commands: &Vec<Command>)
    ensures { All (CarriesOut true) commands.now.items }
{}

// Opens a node on one disk or on two, and carries out the commands.
fn drive_store<'a, S: Sign, D: StopDisk, W: Write>(
    alloc: Global,
    config: &'a Config<S>,
    store: Store<D>,
    commands: Vec<Command>,
    writer: &mut W,
) -> Result<Store<D>, Failed<DriveError, Store<D>>>
    requires passed { All (Passes config.now.charter) commands.items }
    requires few { vec_len commands ≤ MAX_ACCEPTED }
    requires can { All (CarriesOut (is_two store)) commands.items }

    ensures disks { KeepsDisks (λ left. left) store result }
    ensures ok { IfOk result (λ left. HasRun (node_of S.scheme config.now) (script_of commands.items) (areas_in D.device store) (areas_in D.device left) (Leaves D.device left) (W.contents writer.old) (W.contents writer.new)) }
    ensures err { let node = node_of S.scheme config.now in IfErr result (λ failed. IsUnopened node failed.error (areas_in D.device store) (Leaves D.device store) (Leaves D.device failed.disk) (W.contents writer.old) (W.contents writer.new)
        ⊎ IsCutShort node (script_of commands.items) failed.error (areas_in D.device store) (areas_in D.device failed.disk) (Leaves D.device failed.disk) (W.contents writer.old) (W.contents writer.new)) }
    ensures given_out { let node = node_of S.scheme config.now in OnOk result (EachRunOn node (areas_in D.device store) (GivesOut node (script_of commands.items) (W.contents writer.old) (W.contents writer.new))) }
    ensures given_out_err { let node = node_of S.scheme config.now in OnErr result (EachRunOn node (areas_in D.device store) (GivesOutNoLess node (script_of commands.items) (W.contents writer.old) (W.contents writer.new))) }
    ensures cause { ReportsFaultsBack (faults_in D.device) (λ left. left) DriveError.Device store result }
{
    let mut desk = open(alloc, config, store)?;
    for command in commands {
        limits_hold(&command);
        desk = carry_out(desk, alloc, config, command, writer)?;
    }
    Ok(desk.into_store())
}

// A law: if a command hands in an event, its message is within all limits. The call does nothing.
fn limits_hold(command: &Command)
    ensures { IsWithinLimits command.now }
{
    match command {
        Command::Event(event) => event.message().limits_hold(),
        Command::Flush => {}
        Command::Checkpoint => {}
        Command::Stop => {}
    }
}
