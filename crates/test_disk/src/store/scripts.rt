//! The scripts of a test case (commands for a node), and what the node writes when it carries them out.

ghost use Rattle.std.specs.Prelude.{Bool, false, All, IfOk, IfSome};
ghost use Rattle.recovery.specs.Script.{Passes, CarriesOut};

use crate::memory::{disk_with, failing_disk};
use crate::store::headers::message_in;
use crate::store::takers::Taker;
use crate::store::words::{Reported, Word, put, put_bytes, put_count, put_other, put_shown};
use book::MAX_ACCEPTED;
use diskmodel::{CallKind, MemDisk};
use header::check;
use journal::Failed;
use recovery::{Command, DriveError, drive, drive_pair, reopen_pair};
use sha2::{Digest, Sha256};
use sigface::{HashSign, HashVerify};
use std::alloc::{AllocError, Global};
use std::io::Write;
use test_cases::write_hex;
use validator::Config;
use wire::Author;

/// A text of more bytes than this is shown by its SHA-256.
const SHOWN: usize = 128;

/// A number that is greater than that of the calls of any kind in any script here.
const CALLS: u64 = 100;

/// A command of a script.
#[derive(Drop)]
pub enum Line {
    /// A message comes in from a sender.
    Event { sender: Author, message: Vec<u8> },
    Flush,
    Checkpoint,
    Stop,
}

/// The flushes, checkpoints and stops that these words stand for.
pub fn lines_of(alloc: Global, words: &[Word]) -> Result<Vec<Line>, AllocError> {
    let mut lines = Vec::new(alloc);
    for word in words {
        match word {
            Word::Flush => lines.push(Line::Flush)?,
            Word::Checkpoint => lines.push(Line::Checkpoint)?,
            Word::Stop => lines.push(Line::Stop)?,
            _ => {}
        }
    }
    Ok(lines)
}

/// The disk after all commands; or, with the reason of an early end, the disk after the commands up to the end.
pub type Driven = Result<MemDisk, Failed<DriveError, MemDisk>>;

/// Both disks after all commands; or, with the reason of an early end, both disks after the commands up to the end.
pub type DrivenOnTwo = Result<(MemDisk, MemDisk), Failed<DriveError, (MemDisk, MemDisk)>>;

/// The commands that a node carries out in turn, on a disk with a file.
#[derive(Clone, Copy)]
pub struct Script<'a> {
    pub alloc: Global,
    pub config: &'a Config<HashSign>,
    pub file: &'a [u8],
    pub lines: &'a [Line],
    /// The commands that are carried out after each of the lines.
    pub after: &'a [Line],
}

impl Script<'_> {
    /// Carries out the script, and adds what the node writes, and how long the file is then.
    pub fn write_to(&self, answer: &mut String) -> Reported {
        let _ = self.report_on(self.disk()?, answer)?;
        put(answer, "\n");
        Ok(())
    }

    /// Carries out the script with the first device call of this kind set to fail, then with the second one, and so on until none fails.
    /// Adds each time what the node writes.
    pub fn report_failing(&self, kind: CallKind, answer: &mut String) -> Reported {
        for count in 1..CALLS {
            put_count(answer, "", count, ": ");
            let disk = failing_disk(self.alloc, self.file, kind, count)?;
            let is_carried_out = self.report_on(disk, answer)?;
            put(answer, "\n");
            if is_carried_out {
                break;
            }
        }
        Ok(())
    }

    /// Carries out the script on two disks with a device call of this kind set to fail on one of them: the first call, the second one and
    /// so on. Adds whether the script ended by the failure each time, and whether a node could be opened on what was left.
    pub fn report_failing_on_two(&self, kind: CallKind, answer: &mut String) -> Reported {
        for is_second in [false, true] {
            for count in 1..CALLS {
                let (one, other) = (self.failing(kind, count)?, self.disk()?);
                let (first, second) = if is_second {
                    (other, one)
                } else {
                    (one, other)
                };
                let mut written = Vec::new(self.alloc);
                match self.run_on_two(first, second, &mut written)? {
                    Some(Err(failed)) => self.report_again(failed, answer),
                    _ => break,
                }
            }
        }
        put(answer, "each call failed in turn\n");
        Ok(())
    }

    /// Adds what is wrong with the end of a script whose disk failed: nothing if it reports that, and a node can be opened on what is left.
    fn report_again(&self, failed: Failed<DriveError, (MemDisk, MemDisk)>, answer: &mut String) {
        let Failed { error, disk } = failed;
        if error != DriveError::Device {
            report_error(error, answer);
        }
        let (first, second) = disk;
        if reopen_pair(self.alloc, self.config, first, second).is_err() {
            put(answer, "not opened again, ");
        }
    }

    /// An empty disk, of which the `count`-th call of this kind is set to fail.
    fn failing(&self, kind: CallKind, count: u64) -> Result<MemDisk, AllocError> {
        failing_disk(self.alloc, self.file, kind, count)
    }

    /// Carries out the script with a writer that fails after some number of bytes, for each number up to the length of the text. Adds a
    /// line wherever the answer changes.
    pub fn report_rooms(&self, text: &[u8], answer: &mut String) -> Reported {
        let mut before = String::new(self.alloc);
        for room in 0..=text.len() {
            let reported = self.reported_room(room, text)?;
            put_other(answer, room as u64, reported, &mut before);
        }
        Ok(())
    }

    /// As `report_rooms`, on two disks.
    pub fn report_rooms_on_two(&self, text: &[u8], answer: &mut String) -> Reported {
        let mut before = String::new(self.alloc);
        for room in 0..=text.len() {
            let reported = self.reported_room_on_two(room, text)?;
            put_other(answer, room as u64, reported, &mut before);
        }
        Ok(())
    }

    /// The answer of a node on two disks whose writer takes this many bytes of the text.
    fn reported_room_on_two(&self, room: usize, text: &[u8]) -> Result<String, AllocError> {
        let mut taker = Taker::new(self.alloc, room);
        let mut reported = String::new(self.alloc);
        match self.run_on_two(self.disk()?, disk_with(self.alloc, &[])?, &mut taker)? {
            None => put(&mut reported, "bad case"),
            Some(Ok(_disks)) => put(&mut reported, "carried out"),
            Some(Err(failed)) => report_error(failed.error, &mut reported),
        }
        put(&mut reported, filled(text.get(..room), &taker.bytes));
        Ok(reported)
    }

    /// The answer of a node whose writer takes this many bytes of the text.
    fn reported_room(&self, room: usize, text: &[u8]) -> Result<String, AllocError> {
        let mut taker = Taker::new(self.alloc, room);
        let mut reported = String::new(self.alloc);
        match self.run(self.disk()?, &mut taker)? {
            None => put(&mut reported, "bad case"),
            Some(Ok(_disk)) => put(&mut reported, "carried out"),
            Some(Err(failed)) => report_error(failed.error, &mut reported),
        }
        put(&mut reported, filled(text.get(..room), &taker.bytes));
        Ok(reported)
    }

    /// Carries out the script on this disk, and adds what the node writes; returns whether all commands were carried out.
    fn report_on(&self, disk: MemDisk, answer: &mut String) -> Result<bool, AllocError> {
        let mut written = Vec::new(self.alloc);
        match self.run(disk, &mut written)? {
            None => {
                put(answer, "bad case");
                Ok(true)
            }
            Some(Ok(disk)) => {
                put(answer, "carried out");
                report_text(&written, answer);
                put_count(answer, ", file of ", disk.bytes().len() as u64, " bytes");
                Ok(true)
            }
            Some(Err(failed)) => {
                report_error(failed.error, answer);
                report_text(&written, answer);
                Ok(false)
            }
        }
    }

    /// Carries out the script on this disk, and adds how it ends; returns the disk.
    pub fn left_by(&self, disk: MemDisk, answer: &mut String) -> Result<MemDisk, AllocError> {
        let mut written = Vec::new(self.alloc);
        match self.run(disk, &mut written)? {
            None => {
                put(answer, "bad case");
                self.disk()
            }
            Some(Ok(disk)) => {
                put(answer, "carried out");
                Ok(disk)
            }
            Some(Err(failed)) => {
                report_error(failed.error, answer);
                Ok(failed.disk)
            }
        }
    }

    /// A disk in memory with the file.
    pub fn disk(&self) -> Result<MemDisk, AllocError> {
        disk_with(self.alloc, self.file)
    }

    /// Each line of the script, followed by the commands that come after each line.
    pub fn spaced_lines(&self) -> Result<Vec<&Line>, AllocError> {
        let mut spaced = Vec::new(self.alloc);
        for line in self.lines {
            spaced.push(line)?;
            for other in self.after {
                spaced.push(other)?;
            }
        }
        Ok(spaced)
    }

    /// Carries out all commands on a disk; None if a message isn't valid.
    pub fn run<W: Write>(
        &self,
        disk: MemDisk,
        writer: &mut W,
    ) -> Result<Option<Driven>, AllocError> {
        let lines = self.spaced_lines()?;
        match commands_of(self.alloc, self.config, &lines, false)? {
            Some(commands) => Ok(self.carry_out(disk, commands, writer)),
            None => Ok(None),
        }
    }

    /// Carries out these commands on a disk; None if there are too many.
    fn carry_out<W: Write>(
        &self,
        disk: MemDisk,
        commands: Vec<Command>,
        writer: &mut W,
    ) -> Option<Driven>
        requires passed { All (Passes self.now.config.now.charter) commands.items }
        requires on_one { All (CarriesOut false) commands.items }
    {
        if commands.len() as u64 > MAX_ACCEPTED {
            return None;
        }
        Some(drive(self.alloc, self.config, disk, commands, writer))
    }

    /// Carries out all commands on two disks; None if a message isn't valid.
    pub fn run_on_two<W: Write>(
        &self,
        first: MemDisk,
        second: MemDisk,
        writer: &mut W,
    ) -> Result<Option<DrivenOnTwo>, AllocError> {
        let lines = self.spaced_lines()?;
        match commands_of(self.alloc, self.config, &lines, true)? {
            Some(commands) => Ok(self.carry_out_on_two(first, second, commands, writer)),
            None => Ok(None),
        }
    }

    /// Carries out these commands on two disks; None if there are too many.
    fn carry_out_on_two<W: Write>(
        &self,
        first: MemDisk,
        second: MemDisk,
        commands: Vec<Command>,
        writer: &mut W,
    ) -> Option<DrivenOnTwo>
        requires { All (Passes self.now.config.now.charter) commands.items }
    {
        if commands.len() as u64 > MAX_ACCEPTED {
            return None;
        }
        let (alloc, config) = (self.alloc, self.config);
        Some(drive_pair(alloc, config, first, second, commands, writer))
    }
}

/// The commands of these lines for a node on two disks or on one; None if a message isn't valid.
fn commands_of(
    alloc: Global,
    config: &Config<HashSign>,
    lines: &[&Line],
    two: bool,
) -> Result<Option<Vec<Command>>, AllocError>
    ensures passed { IfOk result (λ found. IfSome found (λ commands. All (Passes config.now.charter) commands.items)) }
    ensures on_disks { IfOk result (λ found. IfSome found (λ commands. All (CarriesOut two) commands.items)) }
{
    let mut commands = Vec::new(alloc);
    for line in lines {
        match command_of(alloc, config, line, two)? {
            Some(command) => commands.push(command)?,
            None => return Ok(None),
        }
    }
    Ok(Some(commands))
}

/// The command of a line; None for a checkpoint on one disk, since a checkpoint needs two disks.
fn command_of(
    alloc: Global,
    config: &Config<HashSign>,
    line: &Line,
    two: bool,
) -> Result<Option<Command>, AllocError>
    ensures passed { IfOk result (λ found. IfSome found (Passes config.now.charter)) }
    ensures on_disks { IfOk result (λ found. IfSome found (CarriesOut two)) }
{
    match line {
        Line::Event { sender, message } => event_of(alloc, config, *sender, message),
        Line::Flush => Ok(Some(Command::Flush)),
        Line::Checkpoint if two => Ok(Some(Command::Checkpoint)),
        Line::Checkpoint => Ok(None),
        Line::Stop => Ok(Some(Command::Stop)),
    }
}

/// The event with this message, if the bytes are a message and it passes the checks.
fn event_of(
    alloc: Global,
    config: &Config<HashSign>,
    sender: Author,
    bytes: &[u8],
) -> Result<Option<Command>, AllocError>
    ensures passed { IfOk result (λ found. IfSome found (Passes config.now.charter)) }
    ensures on_disks { (two : Bool) → IfOk result (λ found. IfSome found (CarriesOut two)) }
{
    let Some(message) = message_in(alloc, bytes)? else {
        return Ok(None);
    };
    match check(config.committee(), &HashVerify, sender, message) {
        Ok(event) => Ok(Some(Command::Event(event))),
        Err(_) => Ok(None),
    }
}

/// The word that says whether the bytes that a writer took are the first bytes of the text, as many as it has room for.
fn filled(text: Option<&[u8]>, taken: &[u8]) -> &'static str {
    match text {
        Some(text) if text == taken => ", filled",
        _ => ", other bytes",
    }
}

fn report_error(error: DriveError, answer: &mut String) {
    put_shown(answer, "", &error, "");
    if let DriveError::Damaged(place) = error {
        put_count(answer, " at ", place, "");
    }
}

/// Adds the length of a text, and the text itself, or its SHA-256 if it is long.
pub fn report_text(text: &[u8], answer: &mut String) {
    put_count(answer, ", ", text.len() as u64, " bytes");
    if text.len() > SHOWN {
        put(answer, " sha256 ");
        let _ = write_hex(answer, &Sha256::digest(text));
    } else if !text.is_empty() {
        put_bytes(answer, text);
    }
}
