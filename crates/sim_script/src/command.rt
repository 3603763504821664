//! The lines of a script as commands.

use crate::words::{hex_byte, label, member, number, worker};
use std::str;
use wire::Author;

/// The one version of the journal's format that a script may set: version 1. Without the setting it is version 2.
const FIRST_VERSION: u64 = 1;

/// A setting. In a script, settings stand before all other commands.
#[derive(Clone, Copy)]
pub enum Setting {
    /// The committee's depth, in rounds.
    Depth(u64),
    /// How many batches the node holds at most.
    Batches(u64),
    /// The stakes of the four members, in the order of their numbers.
    Stakes([u64; 4]),
    /// The first journal is written in version 1 of the format.
    FirstVersion,
}

/// A batch that a script defines.
#[derive(Clone, Copy)]
pub struct Pack<'a> {
    /// The label of the batch.
    pub label: &'a str,
    /// The author of the batch.
    pub author: Author,
    /// The worker that gathered the batch.
    pub worker: u16,
    /// The batch's transactions in hexadecimal, separated by one space, as the script has them.
    pub transactions: &'a str,
}

/// A header that a script defines.
#[derive(Clone, Copy)]
pub struct Form<'a> {
    /// The label of the header.
    pub label: &'a str,
    /// The author of the header.
    pub author: Author,
    /// The round of the header, which may be above the limit.
    pub round: u64,
    /// The labels of the header's parents, separated by commas, as the script has them.
    pub parents: &'a str,
    /// The labels of the header's batches, separated by commas, as the script has them.
    pub batches: &'a str,
}

/// A kind of device call.
#[derive(Clone, Copy)]
pub enum Call {
    /// A read of the disk.
    Read,
    /// A write to the disk.
    Write,
    /// A cut of the disk to a length.
    Cut,
    /// A sync of the disk.
    Sync,
}

/// What a stop of the machine leaves of the disks.
#[derive(Clone, Copy)]
pub enum Stopping {
    /// The stop leaves the bytes of the last sync: what was written later is lost.
    Lose,
    /// The stop leaves all that a read would give: nothing is lost.
    Keep,
    /// The stop comes while a group is written, before the group is synced.
    Body,
    /// The stop comes while the gate before a group is opened; it leaves this byte in the gate.
    Gate(u8),
    /// The stop comes while the first gate of a checkpoint is opened; it leaves this byte in the gate.
    Checkpoint(u8),
}

/// A command of a script.
#[derive(Clone, Copy)]
pub enum Command<'a> {
    /// Sets a part of the configuration.
    Set(Setting),
    /// Defines a batch, and gives it a label.
    Pack(Pack<'a>),
    /// Defines a header, and gives it a label.
    Form(Form<'a>),
    /// Submits the batch with this label to the node, with its author as the sender.
    Batch(&'a str),
    /// Submits the header with this label to the node, with its author as the sender.
    Header(&'a str),
    /// Submits a member's acknowledgement of the batch with this label.
    Ack { batch: &'a str, sender: Author },
    /// Submits a member's vote on the header with this label.
    Vote { header: &'a str, voter: Author },
    /// Submits the certificate of the header with this label. `voters` lists the members whose votes it has, separated by commas.
    Cert { header: &'a str, voters: &'a str },
    /// Submits the coin of a wave. The wave's number may be out of range.
    Coin { wave: u64, value: u64 },
    /// Makes one round of the flusher: pending records are written as a group, and settled.
    Flush,
    /// Rewrites the journal to a checkpoint of all accepted events.
    Checkpoint,
    /// Takes the next output that may leave.
    Collect,
    /// Shows the order that the settled records lead to.
    Order,
    /// Shows the node's round after all accepted records.
    Round,
    /// Shows the digest that the node voted for in a round and author.
    Peek { author: Author, round: u64 },
    /// Shows how many records were accepted.
    Accepted,
    /// Shows how many of the accepted records are settled.
    Synced,
    /// Lets a device call of this kind fail: the one that comes as the `count`-th of its kind from now on.
    Fail { call: Call, count: u64 },
    /// Stops the machine, and opens the node again on what the stop left.
    Stop(Stopping),
}

/// Reads a line without its newline as a command. None if it doesn't have the form of one. The elements of lists, and the transactions of a
/// batch, are read only when the command is carried out.
pub fn parse(line: &[u8]) -> Option<Command<'_>> {
    let text = str::from_utf8(line).ok()?;
    if let Some(words) = text.strip_prefix("pack ") {
        return pack_of(words);
    }
    let mut words = text.split(' ');
    let word = words.next()?;
    let arguments = (
        words.next(),
        words.next(),
        words.next(),
        words.next(),
        words.next(),
        words.next(),
    );
    match arguments {
        (None, ..) => plain(word),
        (Some(first), None, ..) => with_one(word, first),
        (Some(first), Some(second), None, ..) => with_two(word, first, second),
        (Some(label), Some(author), Some(round), Some(parents), Some(batches), None) => {
            form_of(word, label, author, round, parents, batches)
        }
        _ => None,
    }
}

fn plain(word: &str) -> Option<Command<'static>> {
    match word {
        "flush" => Some(Command::Flush),
        "checkpoint" => Some(Command::Checkpoint),
        "collect" => Some(Command::Collect),
        "order" => Some(Command::Order),
        "round" => Some(Command::Round),
        "accepted" => Some(Command::Accepted),
        "synced" => Some(Command::Synced),
        _ => None,
    }
}

fn with_one<'a>(word: &str, argument: &'a str) -> Option<Command<'a>> {
    match word {
        "batch" => Some(Command::Batch(label(argument)?)),
        "header" => Some(Command::Header(label(argument)?)),
        "stop" => Some(Command::Stop(stopping_of(argument)?)),
        _ => None,
    }
}

fn stopping_of(word: &str) -> Option<Stopping> {
    match word {
        "lose" => Some(Stopping::Lose),
        "keep" => Some(Stopping::Keep),
        "body" => Some(Stopping::Body),
        _ => None,
    }
}

fn with_two<'a>(word: &str, first: &'a str, second: &'a str) -> Option<Command<'a>> {
    match word {
        "set" => Some(Command::Set(setting_of(first, second)?)),
        "peek" => Some(Command::Peek {
            author: member(first)?,
            round: number(second)?,
        }),
        "fail" => Some(Command::Fail {
            call: call_of(first)?,
            count: number(second)?,
        }),
        "stop" => Some(Command::Stop(torn_stopping_of(first, second)?)),
        _ => event_of(word, first, second),
    }
}

// Reads a stop that comes while a gate is opened, and leaves this byte there.
fn torn_stopping_of(word: &str, byte: &str) -> Option<Stopping> {
    match word {
        "gate" => Some(Stopping::Gate(hex_byte(byte)?)),
        "checkpoint" => Some(Stopping::Checkpoint(hex_byte(byte)?)),
        _ => None,
    }
}

// Reads a command of a name and two words that submits a message.
fn event_of<'a>(word: &str, first: &'a str, second: &'a str) -> Option<Command<'a>> {
    match word {
        "ack" => Some(Command::Ack {
            batch: label(first)?,
            sender: member(second)?,
        }),
        "vote" => Some(Command::Vote {
            header: label(first)?,
            voter: member(second)?,
        }),
        "cert" => Some(Command::Cert {
            header: label(first)?,
            voters: second,
        }),
        "coin" => Some(Command::Coin {
            wave: number(first)?,
            value: number(second)?,
        }),
        _ => None,
    }
}

fn setting_of(name: &str, value: &str) -> Option<Setting> {
    match name {
        "depth" => Some(Setting::Depth(number(value)?)),
        "batches" => Some(Setting::Batches(number(value)?)),
        "stakes" => Some(Setting::Stakes(stakes_of(value)?)),
        "version" if number(value)? == FIRST_VERSION => Some(Setting::FirstVersion),
        _ => None,
    }
}

// Reads the stakes of four members, separated by commas.
fn stakes_of(value: &str) -> Option<[u64; 4]> {
    let (first, rest) = value.split_once(',')?;
    let (second, rest) = rest.split_once(',')?;
    let (third, fourth) = rest.split_once(',')?;
    Some([
        number(first)?,
        number(second)?,
        number(third)?,
        number(fourth)?,
    ])
}

fn call_of(word: &str) -> Option<Call> {
    match word {
        "read" => Some(Call::Read),
        "write" => Some(Call::Write),
        "cut" => Some(Call::Cut),
        "sync" => Some(Call::Sync),
        _ => None,
    }
}

fn form_of<'a>(
    word: &str,
    name: &'a str,
    author: &str,
    round: &str,
    parents: &'a str,
    batches: &'a str,
) -> Option<Command<'a>> {
    if word != "form" {
        return None;
    }
    Some(Command::Form(Form {
        label: label(name)?,
        author: member(author)?,
        round: number(round)?,
        parents,
        batches,
    }))
}

// Reads the words that come after `pack`.
fn pack_of(words: &str) -> Option<Command<'_>> {
    let (name, words) = words.split_once(' ')?;
    let (author, words) = words.split_once(' ')?;
    let (holder, transactions) = words.split_once(' ')?;
    Some(Command::Pack(Pack {
        label: label(name)?,
        author: member(author)?,
        worker: worker(holder)?,
        transactions,
    }))
}
