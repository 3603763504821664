//! A test in which a flusher is held up before a sync, while another thread submits.

ghost use Rattle.std.specs.Prelude.{◌≡◌, IsSome};
ghost use Rattle.std.specs.Thread.{IsSend, IsSync};
ghost use Rattle.flusher.specs.Rounds.{journal_of};
ghost use Rattle.journal.specs.Journal.{spare_of};

use crate::committees::{FOUR, own_config};
use crate::live::ending::Ending;
use crate::live::makers::{header_of, submit_header};
use crate::live::words::{put, put_number};
use crate::memory::disk_with;
use diskmodel::{Disk, Gate, GatedDisk, MemDisk};
use journal::Store;
use node::{Caller, FlushError, Rounds, start};
use sigface::HashSign;
use std::alloc::{AllocError, Global};
use std::collections::VecDeque;
use std::sync::Wait;
use std::sync::atomic::{AtomicU64, Ordering};
use std::thread::{self, Threads};
use validator::Config;
use wire::{Author, Output, Round};

// How often a thread looks for what it waits for before it goes on without that.
const TURNS: u64 = 10_000_000;

// What the flushing thread and the submitting thread share.
#[derive(Drop)]
struct Doors {
    // How many syncs the flushing thread has begun.
    reached: AtomicU64,
    // How many of the syncs may go on, counted from the first.
    open: AtomicU64,
}

impl Doors {
    // Doors that let every sync go on at once.
    fn new() -> Doors {
        Doors {
            reached: AtomicU64::new(0),
            open: AtomicU64::new(u64::MAX),
        }
    }

    // Holds all syncs after those that were begun so far, and returns how many were begun.
    fn close(&self) -> u64 {
        let reached = self.reached.load(Ordering::SeqCst);
        self.let_go(reached);
        reached
    }

    // Lets the first `count` of all syncs go on.
    fn let_go(&self, count: u64) {
        self.open.store(count, Ordering::SeqCst);
    }
}

// Waits until the shared number is at least `least`. Returns whether it is, since the waiting ends at some time.
fn wait(number: &AtomicU64, least: u64) -> bool {
    for _ in 0..TURNS {
        if number.load(Ordering::SeqCst) >= least {
            return true;
        }
        thread::yield_now();
    }
    false
}

// A gate of a disk in memory that holds each sync until the doors let the sync go on.
#[derive(Drop)]
struct Held<'d> {
    doors: &'d Doors,
}

impl Gate for Held<'_> {
    fn pass(&mut self) {
        let reached = self
            .doors
            .reached
            .fetch_add(1, Ordering::SeqCst)
            .saturating_add(1);
        wait(&self.doors.open, reached);
    }
}

// What is held up: a flush, or a checkpoint.
#[derive(Clone, Copy)]
enum Kind {
    Round,
    Checkpoint,
}

/// Submits a header, and two more headers while a flush of the first one, or a checkpoint, is held before its sync. Then lets the
/// flusher go on to its next sync, and then to the end. The next flush has the other two headers.
pub fn hold<R>(rt: &R, alloc: Global, name: &str, answer: &mut String) -> Result<(), Ending>
where
    R: Threads + Wait + Sync,
{
    let kind = match name {
        "round" => Kind::Round,
        "checkpoint" => Kind::Checkpoint,
        _ => return Err(Ending::Unexpected),
    };
    let config = own_config(alloc, &FOUR)?;
    let doors = Doors::new();
    let (first, second) = (held_disk(alloc, &doors)?, held_disk(alloc, &doors)?);
    hold_over(rt, alloc, &config, &doors, (first, second), kind, answer)
}

fn held_disk(alloc: Global, doors: &Doors) -> Result<GatedDisk<MemDisk, Held<'_>>, AllocError> {
    Ok(GatedDisk::new(disk_with(alloc, &[])?, Held { doors }))
}

fn hold_over<R, D>(
    rt: &R,
    alloc: Global,
    config: &Config<HashSign>,
    doors: &Doors,
    disks: (D, D),
    kind: Kind,
    answer: &mut String,
) -> Result<(), Ending>
where
    R: Threads + Wait + Sync,
    D: Disk + Drop + Send,
{
    let (first, second) = disks;
    let (node, seat, flusher) = start(alloc, config, Store::Two(first, second))?;
    let mut rounds = Rounds::new(&node, seat, flusher);
    let mut caller = rounds.caller(config)?;
    let ticket = submit_header(rt, alloc, &mut caller, Author(1))?;
    put_number(answer, "ticket", ticket);
    let (flushed, rounds) = flush_beside(rt, alloc, doors, rounds, caller.split()?, kind, answer)?;
    match kind {
        Kind::Round => put_number(answer, "settled", flushed?),
        Kind::Checkpoint => put_number(answer, "generation", flushed?),
    }
    report_outputs(rt, alloc, &mut caller, kind, answer)?;
    flush_rest(rt, alloc, rounds, &mut caller, kind, answer)
}

// Flushes once, with no sync held.
fn flush_rest<R: Wait, D: Disk + Drop>(
    rt: &R,
    alloc: Global,
    mut rounds: Rounds<'_, '_, HashSign, D>,
    caller: &mut Caller<'_, '_, HashSign>,
    kind: Kind,
    answer: &mut String,
) -> Result<(), Ending> {
    put_number(answer, "settled", rounds.round(rt)?);
    report_outputs(rt, alloc, caller, kind, answer)
}

// The result of a call of the flusher, and the flusher itself.
type Flushed<'n, 'a, D> = (Result<u64, FlushError>, Rounds<'n, 'a, HashSign, D>);

// Flushes in one thread, and submits in another one at the same time.
fn flush_beside<'n, 'a, R, D>(
    rt: &R,
    alloc: Global,
    doors: &Doors,
    rounds: Rounds<'n, 'a, HashSign, D>,
    caller: Caller<'_, '_, HashSign>,
    kind: Kind,
    answer: &mut String,
) -> Result<Flushed<'n, 'a, D>, Ending>
where
    R: Threads + Wait + Sync,
    D: Disk + Drop + Send,
    requires pair { IsSome (spare_of (journal_of rounds.flusher)) }
{
    let before = doors.close();
    let (flushed, reported) = thread::join(
        rt,
        move || flush(rt, rounds, kind),
        move || submit_more(rt, alloc, doors, before, caller),
    );
    put(answer, reported?.as_str());
    Ok(flushed)
}

fn flush<'n, 'a, D: Disk + Drop, R: Wait>(
    rt: &R,
    mut rounds: Rounds<'n, 'a, HashSign, D>,
    kind: Kind,
) -> Flushed<'n, 'a, D>
    requires pair { IsSome (spare_of (journal_of rounds.flusher)) }
{
    let flushed = match kind {
        Kind::Round => rounds.round(rt),
        Kind::Checkpoint => rounds.checkpoint(rt),
    };
    (flushed, rounds)
}

// When the sync after the first `before` syncs is held, submits two more headers and shows what the node answers meanwhile. While the next
// sync is held, shows how many events are synced. After that all syncs may go on.
fn submit_more<R: Wait>(
    rt: &R,
    alloc: Global,
    doors: &Doors,
    before: u64,
    mut caller: Caller<'_, '_, HashSign>,
) -> Result<String, Ending> {
    let mut reported = String::new(alloc);
    let (first, second) = (before.saturating_add(1), before.saturating_add(2));
    let mut is_held = wait(&doors.reached, first);
    let ended = report_more(rt, alloc, &mut caller, &mut reported);
    doors.let_go(first);
    is_held = wait(&doors.reached, second) && is_held;
    put_number(&mut reported, "synced", caller.synced());
    doors.let_go(u64::MAX);
    if !is_held {
        return Err(Ending::Unexpected);
    }
    ended?;
    Ok(reported)
}

fn report_more<R: Wait>(
    rt: &R,
    alloc: Global,
    caller: &mut Caller<'_, '_, HashSign>,
    reported: &mut String,
) -> Result<(), Ending> {
    put_number(
        reported,
        "ticket",
        submit_header(rt, alloc, caller, Author(2))?,
    );
    put_number(
        reported,
        "ticket",
        submit_header(rt, alloc, caller, Author(3))?,
    );
    put_number(reported, "accepted", caller.accepted());
    put_number(reported, "synced", caller.synced());
    report_voted(rt, alloc, caller, reported)
}

fn report_voted<R: Wait>(
    rt: &R,
    alloc: Global,
    caller: &mut Caller<'_, '_, HashSign>,
    reported: &mut String,
) -> Result<(), Ending> {
    let voted = caller.peek_voted(rt, Author(2), Round::new(1)?);
    let expected = header_of(alloc, caller.config(), Author(2))?;
    match voted.as_ref() == expected.header_digest() {
        true => put(reported, "the vote is for the header of 2\n"),
        false => put(reported, "the vote is for another header\n"),
    }
    Ok(())
}

// Adds how many events are synced, and the next two outputs that may leave: after a round they are collected one by one, after a checkpoint
// together.
fn report_outputs<R: Wait>(
    rt: &R,
    alloc: Global,
    caller: &mut Caller<'_, '_, HashSign>,
    kind: Kind,
    reported: &mut String,
) -> Result<(), Ending> {
    put_number(reported, "synced", caller.synced());
    let mut outputs = VecDeque::with_capacity(alloc, 2)?;
    for _ in 0..2 {
        match kind {
            Kind::Round => report_collected(&caller.collect(rt), reported),
            Kind::Checkpoint => {
                caller.collect_into(rt, &mut outputs);
                report_collected(&outputs.pop_front(), reported);
            }
        }
    }
    Ok(())
}

fn report_collected(output: &Option<Output>, reported: &mut String) {
    match output {
        Some(Output::Vote(vote)) => put_number(reported, "the vote for", vote.author.0 as u64),
        Some(_) => put(reported, "another output\n"),
        None => put(reported, "no output\n"),
    }
}
