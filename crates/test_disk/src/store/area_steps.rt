//! The steps that a test makes on a journal on two areas, each written as a word.

use diskmodel::CallKind;
use std::alloc::{AllocError, Global};

/// What a stop of the machine leaves of an area.
#[derive(Clone, Copy)]
pub enum Left {
    /// What a read returned before the stop.
    Read,
    /// What the last sync left.
    Synced,
    /// An area of this length. A stop may leave any byte at some places; of these, the places that are a multiple of `every` hold `byte`.
    /// The others hold what a read returns there, or else what the last sync left.
    Torn { byte: u8, every: u64, len: u64 },
}

/// A step of a test. For a step that makes device calls the number says which of them is set to fail, counted from 1; 0 sets none.
#[derive(Clone, Copy)]
pub enum Step {
    /// The event with this number comes in.
    Accept(usize),
    /// This many more of the accepted events are taken, as a group.
    Take(usize),
    /// The first group that is taken and not yet written is appended.
    Append(u64),
    /// The first group is settled: its records are durable.
    Settle,
    /// All accepted events are taken, for a checkpoint.
    TakeAll,
    /// The spare area is rewritten to the checkpoint.
    Rewrite(u64),
    /// Everything that the checkpoint took is settled.
    SettleAll,
    /// The machine stops, and leaves the first of these on the first area, and the second one on the second.
    Stop(Left, Left),
    /// Both areas are opened, with the `count`-th device call of this kind set to fail.
    Open(CallKind, u64),
    Bad,
}

/// The steps that a text lists, as words.
pub fn steps_of(alloc: Global, text: &str) -> Result<Vec<Step>, AllocError> {
    let mut steps = Vec::new(alloc);
    for word in text.split_whitespace() {
        steps.push(step_of(word))?;
    }
    Ok(steps)
}

fn step_of(word: &str) -> Step {
    match word {
        "s" => Step::Settle,
        "all" => Step::TakeAll,
        "done" => Step::SettleAll,
        "w" => Step::Append(0),
        "r" => Step::Rewrite(0),
        "o" => Step::Open(CallKind::Sync, 0),
        _ => counted(word),
    }
}

/// A step that is written as a letter and then a number, or what a stop leaves; or as the number of an event alone.
fn counted(word: &str) -> Step {
    if let Some(count) = word.strip_prefix('t') {
        return Step::Take(number_of(count) as usize);
    }
    if let Some(call) = word.strip_prefix('w') {
        return Step::Append(number_of(call));
    }
    if let Some(call) = word.strip_prefix('r') {
        return Step::Rewrite(number_of(call));
    }
    if let Some(call) = word.strip_prefix('o') {
        return failing(call);
    }
    if let Some(areas) = word.strip_prefix('x') {
        return stop(areas);
    }
    match word.parse() {
        Ok(number) => Step::Accept(number),
        Err(_) => Step::Bad,
    }
}

fn number_of(word: &str) -> u64 {
    word.parse().unwrap_or(0)
}

/// An opening in which a call fails, given as the letter of the call's kind and a number.
fn failing(call: &str) -> Step {
    if let Some(count) = call.strip_prefix('w') {
        return Step::Open(CallKind::Write, number_of(count));
    }
    if let Some(count) = call.strip_prefix('c') {
        return Step::Open(CallKind::Cut, number_of(count));
    }
    match call.strip_prefix('s') {
        Some(count) => Step::Open(CallKind::Sync, number_of(count)),
        None => Step::Bad,
    }
}

/// The step of a stop, by what it leaves of each area.
fn stop(areas: &str) -> Step {
    match areas.split_once(':') {
        Some((first, second)) => Step::Stop(left_of(first), left_of(second)),
        None => Step::Bad,
    }
}

fn left_of(word: &str) -> Left {
    match word {
        "k" => Left::Read,
        "l" => Left::Synced,
        _ => torn(word),
    }
}

/// What is left by a torn stop, which is given as the byte, every how many places it stands, and the length.
fn torn(word: &str) -> Left {
    let (byte, rest) = word.split_once('.').unwrap_or((word, ""));
    let (every, len) = rest.split_once('.').unwrap_or((rest, ""));
    Left::Torn {
        byte: byte.parse().unwrap_or(0),
        every: number_of(every).max(1),
        len: number_of(len),
    }
}
