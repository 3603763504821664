//! What the reference implementation writes for a script, compared with what a node writes.

use crate::memory::disk_with;
use crate::store::headers::message_in;
use crate::store::openings;
use crate::store::scripts::{Line, Script, report_text};
use crate::store::words::{Reported, bad, put, reported_bad};
use diskmodel::MemDisk;
use header::{Event, Node};
use journal::{Journal, Record};
use ref_script::{Command, text};
use sigface::HashSign;
use std::alloc::{AllocError, Global};
use wire::Author;

/// The first byte of a record that holds an event.
const EVENT: u8 = 1;

/// Adds what the reference implementation writes for a script, and whether a node writes the same.
pub fn write_to(script: &Script, node: &Node<HashSign>, answer: &mut String) -> Reported {
    let mut written = Vec::new(script.alloc);
    match script.run(script.disk()?, &mut written)? {
        Some(Ok(_)) => report_text_of(script, node, &written, answer),
        _ => reported_bad(answer),
    }
}

/// Adds what the reference implementation writes for a script on two disks, whether a node writes the same, and what an opening reads from
/// both disks after that.
pub fn report_pair(script: &Script, node: &Node<HashSign>, answer: &mut String) -> Reported {
    let alloc = script.alloc;
    let mut written = Vec::new(alloc);
    match script.run_on_two(script.disk()?, disk_with(alloc, &[])?, &mut written)? {
        Some(Ok((first, second))) => {
            report_text_of(script, node, &written, answer)?;
            openings::report_pair(alloc, script.config, first, second, answer);
            Ok(())
        }
        _ => reported_bad(answer),
    }
}

fn report_text_of(
    script: &Script,
    node: &Node<HashSign>,
    written: &[u8],
    answer: &mut String,
) -> Reported {
    match text_of(script, node)? {
        Some(text) => report_beside(&text, written, answer),
        None => bad(answer),
    }
    Ok(())
}

fn report_beside(text: &[u8], written: &[u8], answer: &mut String) {
    let is_same = text == written;
    put(
        answer,
        if is_same {
            "the same text"
        } else {
            "another text"
        },
    );
    report_text(text, answer);
    put(answer, "\n");
}

/// What the reference implementation writes for a script that follows the events in the script's file, if all of that can be read.
fn text_of(script: &Script, node: &Node<HashSign>) -> Result<Option<Vec<u8>>, AllocError> {
    let alloc = script.alloc;
    let Some(history) = history_of(alloc, script.disk()?)? else {
        return Ok(None);
    };
    let lines = script.spaced_lines()?;
    let Some(commands) = commands_of(alloc, &lines)? else {
        return Ok(None);
    };
    Ok(Some(text(alloc, node, history, commands)?))
}

/// The events in the journal on a disk, which begins with a configuration.
fn history_of(alloc: Global, disk: MemDisk) -> Result<Option<Vec<Event>>, AllocError> {
    match Journal::open(alloc, disk) {
        Ok((_, records)) => events_of(alloc, &records),
        Err(_) => Ok(None),
    }
}

/// The events in these records, without the first one, which is the configuration.
fn events_of(alloc: Global, records: &[Record]) -> Result<Option<Vec<Event>>, AllocError> {
    let mut history = Vec::new(alloc);
    for record in records.iter().skip(1) {
        match event_in(alloc, record.bytes.as_slice())? {
            Some(event) => history.push(event)?,
            None => return Ok(None),
        }
    }
    Ok(Some(history))
}

/// The event in a record, if the record holds one.
fn event_in(alloc: Global, record: &[u8]) -> Result<Option<Event>, AllocError> {
    match record {
        [EVENT, high, low, message @ ..] => {
            let sender = Author(u16::from_be_bytes([*high, *low]));
            event_of(alloc, sender, message)
        }
        _ => Ok(None),
    }
}

/// The reference implementation's commands for these lines.
fn commands_of(alloc: Global, lines: &[&Line]) -> Result<Option<Vec<Command>>, AllocError> {
    let mut commands = Vec::new(alloc);
    for line in lines {
        match command_of(alloc, line)? {
            Some(command) => commands.push(command)?,
            None => return Ok(None),
        }
    }
    Ok(Some(commands))
}

fn command_of(alloc: Global, line: &Line) -> Result<Option<Command>, AllocError> {
    match line {
        Line::Event { sender, message } => match event_of(alloc, *sender, message)? {
            Some(event) => Ok(Some(Command::Event(event))),
            None => Ok(None),
        },
        Line::Flush => Ok(Some(Command::Flush)),
        Line::Checkpoint => Ok(Some(Command::Checkpoint)),
        Line::Stop => Ok(Some(Command::Stop)),
    }
}

/// A message with its sender, if the bytes are a message.
fn event_of(alloc: Global, sender: Author, bytes: &[u8]) -> Result<Option<Event>, AllocError> {
    match message_in(alloc, bytes)? {
        Some(message) => Ok(Some(Event { sender, message })),
        None => Ok(None),
    }
}
