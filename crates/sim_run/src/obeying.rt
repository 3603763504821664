//! Carries out the commands of a script.

use crate::answer::Answer;
use crate::ending::Ending;
use crate::running::Running;
use diskmodel::CallKind;
use header::check;
use node::Refusal;
use sigface::HashVerify;
use sim_script::{Call, Command, FormError, Labels, define_batch, define_header, message_of};
use std::alloc::Global;
use std::sync::Wait;
use wire::{Author, Digest, Message, Round, WireError};

/// Carries out a command. At a stop the node is opened again.
pub fn step<'a, R: Wait>(
    rt: &R,
    alloc: Global,
    mut running: Running<'a>,
    labels: &mut Labels,
    command: Command<'_>,
) -> Result<(Running<'a>, Answer), Ending> {
    if let Command::Stop(stopping) = command {
        let (opened, events) = running.stop(rt, alloc, stopping)?;
        return Ok((opened, Answer::Reopened(events)));
    }
    let answer = obey(rt, alloc, &mut running, labels, command)?;
    Ok((running, answer))
}

// Carries out a command that isn't a stop. A line that is no such command is a bad one.
fn obey<R: Wait>(
    rt: &R,
    alloc: Global,
    running: &mut Running<'_>,
    labels: &mut Labels,
    command: Command<'_>,
) -> Result<Answer, Ending> {
    match command {
        Command::Pack(pack) => answer_to(define_batch(alloc, labels, &pack)),
        Command::Form(form) => answer_to(define_header(alloc, labels, &form)),
        Command::Flush => Ok(flush(rt, running)),
        Command::Checkpoint => Ok(checkpoint(rt, running)),
        Command::Order => order(rt, running),
        Command::Fail { call, count } => {
            running.fail(kind_of(call), count)?;
            Ok(Answer::Nothing)
        }
        other => match look(rt, running, &other) {
            Some(answer) => Ok(answer),
            None => submit(rt, alloc, running, labels, other),
        },
    }
}

// The answer to a command that only asks or collects something; None for any other command.
fn look<R: Wait>(rt: &R, running: &mut Running<'_>, command: &Command<'_>) -> Option<Answer> {
    match command {
        Command::Collect => Some(collect(rt, running)),
        Command::Round => Some(Answer::Round(running.round(rt))),
        Command::Peek { author, round } => {
            Some(Answer::Voted(peek(rt, running, *author, *round)))
        }
        Command::Accepted => Some(Answer::Count(running.accepted())),
        Command::Synced => Some(Answer::Count(running.synced())),
        _ => None,
    }
}

fn flush<R: Wait>(rt: &R, running: &mut Running<'_>) -> Answer {
    match running.flush(rt) {
        Ok(count) => Answer::Settled(count),
        Err(error) => Answer::Fault(error),
    }
}

fn checkpoint<R: Wait>(rt: &R, running: &mut Running<'_>) -> Answer {
    match running.checkpoint(rt) {
        Ok(generation) => Answer::Generation(generation),
        Err(error) => Answer::Fault(error),
    }
}

fn collect<R: Wait>(rt: &R, running: &mut Running<'_>) -> Answer {
    match running.collect(rt) {
        Some(output) => Answer::Out(output),
        None => Answer::OutNone,
    }
}

fn order<R: Wait>(rt: &R, running: &mut Running<'_>) -> Result<Answer, Ending> {
    match running.order(rt) {
        Ok(digests) => Ok(Answer::Order(digests)),
        Err(Refusal::Memory) => Err(Ending::Memory),
        Err(refusal) => Ok(Answer::Refused(refusal)),
    }
}

// A round above the limit can't be one in which the node has voted.
fn peek<R: Wait>(rt: &R, running: &mut Running<'_>, author: Author, round: u64) -> Option<Digest> {
    match Round::new(round) {
        Ok(round) => running.voted(rt, author, round),
        Err(_) => None,
    }
}

fn kind_of(call: Call) -> CallKind {
    match call {
        Call::Read => CallKind::Read,
        Call::Write => CallKind::Write,
        Call::Cut => CallKind::Cut,
        Call::Sync => CallKind::Sync,
    }
}

// The answer to a command that defines a label.
fn answer_to(defined: Result<(), FormError>) -> Result<Answer, Ending> {
    match defined {
        Ok(()) => Ok(Answer::Nothing),
        Err(FormError::Unread(error)) => Ok(Answer::Unread(error)),
        Err(FormError::BadCommand) => Err(Ending::BadCommand),
        Err(FormError::Memory) => Err(Ending::Memory),
    }
}

// Submits the message of a command to the node. A failed allocation is answered as a refusal of the event.
fn submit<R: Wait>(
    rt: &R,
    alloc: Global,
    running: &mut Running<'_>,
    labels: &Labels,
    command: Command<'_>,
) -> Result<Answer, Ending> {
    match message_of(alloc, labels, command) {
        Ok((sender, message)) => Ok(take(rt, running, sender, message)),
        Err(FormError::Unread(error)) => Ok(Answer::Unread(error)),
        Err(FormError::Memory) => Ok(Answer::Unread(WireError::Memory)),
        Err(FormError::BadCommand) => Err(Ending::BadCommand),
    }
}

fn take<R: Wait>(rt: &R, running: &mut Running<'_>, sender: Author, message: Message) -> Answer {
    match check(running.committee(), &HashVerify, sender, message) {
        Ok(event) => running.submit(rt, event),
        Err(error) => Answer::Unchecked(error),
    }
}
