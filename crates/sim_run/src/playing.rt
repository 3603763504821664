//! Plays a script, line by line.

use crate::answer::Answer;
use crate::ending::Ending;
use crate::gathered::Gathered;
use crate::machine::Machine;
use crate::obeying::step;
use crate::running::{Disks, Running};
use crate::script_lines::Script;
use crate::settings::Settings;
use sim_script::{Command, Labels};
use std::alloc::Global;
use std::io::{self, Read, Write};
use std::sync::Wait;
use wire::{Output, Vote};

/// Runs a script and writes a line for each command. If several lines of the script can be read at once, their answers may be written
/// together, but always before the run waits for more input. Returns the exit status. 0: the script was run to its end. 2: a line was bad,
/// which is reported to the errors. 3: an allocation failed outside the handling of an event, or more calls were set to fail than is
/// possible at once. 4: the journal couldn't be opened, or had no room for a group that was to be stopped (a line says so). 5: a read or
/// write failed. 6: the script has more lines than can be counted. 7: a group was written as a whole although the machine was to stop in
/// it.
pub fn run<R: Wait, I: Read + Drop, W: Write, E: Write>(
    rt: &R,
    alloc: Global,
    reader: I,
    writer: &mut W,
    errors: &mut E,
) -> u8 {
    let mut script = match Script::new(alloc, reader) {
        Ok(script) => script,
        Err(error) => return status_of(&Ending::from(error)),
    };
    let mut gathered = Gathered::new(alloc);
    let ending = match play(rt, alloc, &mut script, writer, &mut gathered) {
        Ok(_) => None,
        Err(ending) => Some(reported(&mut gathered, ending)),
    };
    if gathered.write_to(writer).is_err() {
        return 5;
    }
    match ending {
        None => 0,
        Some(ending) => {
            if let Ending::BadCommand = &ending {
                report_bad_line(alloc, errors, script.number());
            }
            status_of(&ending)
        }
    }
}

/// Both disks of the journal as a script leaves them; None if the script wasn't run to its end.
pub fn disks_after<R: Wait>(rt: &R, alloc: Global, script: &[u8]) -> Option<Disks> {
    Some(left_by(rt, alloc, script)?.disks)
}

/// The vote that may leave next after a script. None if the next output is no vote, if there is none, or if the script wasn't run to its
/// end.
pub fn vote_after<R: Wait>(rt: &R, alloc: Global, script: &[u8]) -> Option<Vote> {
    match left_by(rt, alloc, script)?.output? {
        Output::Vote(vote) => Some(vote),
        _ => None,
    }
}

fn left_by<R: Wait>(rt: &R, alloc: Global, script: &[u8]) -> Option<Left> {
    let mut script = Script::new(alloc, script).ok()?;
    let mut gathered = Gathered::new(alloc);
    play(rt, alloc, &mut script, &mut io::sink(), &mut gathered).ok()
}

// The exit status of a run that ended before its script.
fn status_of(ending: &Ending) -> u8 {
    match ending {
        Ending::BadCommand => 2,
        Ending::Memory => 3,
        Ending::Fault(_) => 4,
        Ending::InputOutput => 5,
        Ending::TooLong => 6,
        Ending::Unstopped => 7,
    }
}

// Adds the line that reports why the run ended, if there is one for it.
fn reported(gathered: &mut Gathered, ending: Ending) -> Ending {
    match ending {
        Ending::Fault(error) => match gathered.add_fault(&error) {
            Ok(()) => Ending::Fault(error),
            Err(ending) => ending,
        },
        other => other,
    }
}

fn report_bad_line<E: Write>(alloc: Global, errors: &mut E, number: u64) {
    if let Ok(line) = format!(in alloc; "line {number}: bad command\n") {
        let _ = errors.write_all(line.as_bytes());
    }
}

/// What a script leaves: both disks of the journal, and the next output that may leave the node.
#[derive(Drop)]
struct Left {
    disks: Disks,
    output: Option<Output>,
}

// Plays the lines of a script. The node is opened at the first line that isn't a setting.
fn play<R: Wait, I: Read + Drop, W: Write>(
    rt: &R,
    alloc: Global,
    script: &mut Script<I>,
    writer: &mut W,
    gathered: &mut Gathered,
) -> Result<Left, Ending> {
    let machine = Machine::new(alloc)?;
    let disks = (machine.empty_disk(alloc)?, machine.empty_disk(alloc)?);
    let Some(settings) = read_settings(alloc, script, writer, gathered)? else {
        return Ok(Left {
            disks,
            output: None,
        });
    };
    let Some(config) = settings.config(alloc)? else {
        return Err(Ending::BadCommand);
    };
    let running = Running::begin(alloc, &config, settings.version(), &machine, disks)?;
    obey_all(rt, alloc, running, script, writer, gathered)
}

// Reads the settings at the beginning of a script, up to the first line that isn't one.
fn read_settings<I: Read + Drop, W: Write>(
    alloc: Global,
    script: &mut Script<I>,
    writer: &mut W,
    gathered: &mut Gathered,
) -> Result<Option<Settings>, Ending> {
    let mut settings = Settings::new();
    for _ in 0..u64::MAX {
        if !script.next(writer, gathered)? {
            return Ok(None);
        }
        match script.command() {
            Some(Command::Set(setting)) => match settings.with(alloc, setting)? {
                Some(next) => settings = next,
                None => return Err(Ending::BadCommand),
            },
            _ => return Ok(Some(settings)),
        }
    }
    Err(Ending::TooLong)
}

// Carries out the line that was read last, and all lines after it.
fn obey_all<R: Wait, I: Read + Drop, W: Write>(
    rt: &R,
    alloc: Global,
    mut running: Running<'_>,
    script: &mut Script<I>,
    writer: &mut W,
    gathered: &mut Gathered,
) -> Result<Left, Ending> {
    let mut labels = Labels::new(alloc);
    for _ in 0..u64::MAX {
        let (next, goes_on) = obey(rt, alloc, running, script, writer, gathered, &mut labels)?;
        running = next;
        if !goes_on {
            return Ok(left_of(rt, running));
        }
    }
    Err(Ending::TooLong)
}

// Carries out the line that was read last. Returns whether another line follows.
fn obey<'a, R: Wait, I: Read + Drop, W: Write>(
    rt: &R,
    alloc: Global,
    running: Running<'a>,
    script: &mut Script<I>,
    writer: &mut W,
    gathered: &mut Gathered,
    labels: &mut Labels,
) -> Result<(Running<'a>, bool), Ending> {
    let Some(command) = script.command() else {
        return Err(Ending::BadCommand);
    };
    let (next, answer) = step(rt, alloc, running, labels, command)?;
    let goes_on = report(script, writer, gathered, labels, &answer)?;
    Ok((next, goes_on))
}

// Writes the answer to a line, and reads the next line. Returns whether there is one.
fn report<I: Read + Drop, W: Write>(
    script: &mut Script<I>,
    writer: &mut W,
    gathered: &mut Gathered,
    labels: &Labels,
    answer: &Answer,
) -> Result<bool, Ending> {
    gathered.add(labels, answer)?;
    script.next(writer, gathered)
}

// What the script leaves once the node has run.
fn left_of<R: Wait>(rt: &R, mut running: Running<'_>) -> Left {
    let output = running.collect(rt);
    let disks = running.into_disks();
    Left { disks, output }
}
