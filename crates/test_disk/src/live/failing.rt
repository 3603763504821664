//! Tests of flushes in which a call of the disk fails.

ghost use Rattle.std.specs.Prelude.{◌≡◌};

use crate::committees::{FOUR, own_config};
use crate::live::ending::Ending;
use crate::live::journals::found_on;
use crate::live::makers::{header_of, submit_header};
use crate::live::words::{call_of, put, put_count, put_number, put_shown};
use crate::memory::{disk_with, stopped};
use diskmodel::{CallKind, MemDisk, Switch};
use journal::Store;
use node::{Caller, Rounds, start};
use sigface::HashSign;
use std::alloc::Global;
use std::sync::Wait;
use validator::Config;
use wire::{Author, Round};

// The greatest number of flushes that are tried for one kind of call.
const MOST: u64 = 10;

// What happens to a node whose disk fails.
#[derive(Clone, Copy)]
enum Plan {
    // A sync fails in a flush, and then the node, which is down, is asked several things.
    Down,
    // In the flush of one record the call of this kind with this number, counted from 1, fails.
    Call(CallKind, u64),
}

/// Shows what a node answers after a failed flush took it down.
pub fn go_down<R: Wait>(rt: &R, alloc: Global, answer: &mut String) -> Result<(), Ending> {
    carry_out(rt, alloc, Plan::Down, answer)?;
    Ok(())
}

/// Makes flushes of one record in which the first call of a kind fails, then the second, and so on, until none fails; `name` is the
/// kind's name in the plural. Shows the answer to each flush, and how many records are left by a stop after it that keeps everything
/// that was written, and by a stop that loses what isn't synced.
pub fn fail_each<R: Wait>(
    rt: &R,
    alloc: Global,
    name: &str,
    answer: &mut String,
) -> Result<(), Ending> {
    let Some(kind) = call_of(name.trim_end_matches('s')) else {
        return Err(Ending::Unexpected);
    };
    for count in 1..MOST {
        let (is_settled, disk) = carry_out(rt, alloc, Plan::Call(kind, count), answer)?;
        report_left(alloc, disk, answer)?;
        if is_settled {
            return Ok(());
        }
    }
    Err(Ending::Unexpected)
}

fn report_left(alloc: Global, disk: MemDisk, answer: &mut String) -> Result<(), Ending> {
    let kept = events_on(alloc, disk_with(alloc, disk.bytes())?)?;
    let lost = events_on(alloc, stopped(alloc, disk)?)?;
    put_count(answer, "kept ", kept, "");
    put_count(answer, ", or ", lost, "\n");
    Ok(())
}

// How many events the journal on a disk holds.
fn events_on(alloc: Global, disk: MemDisk) -> Result<u64, Ending> {
    let Some(found) = found_on(alloc, Store::One(disk)) else {
        return Err(Ending::Unexpected);
    };
    let (count, _) = found.events();
    Ok(count)
}

// Flushes once, shows whether the record was settled, and returns the disk.
fn carry_out<R: Wait>(
    rt: &R,
    alloc: Global,
    plan: Plan,
    answer: &mut String,
) -> Result<(bool, MemDisk), Ending> {
    let config = own_config(alloc, &FOUR)?;
    let switch = Switch::new(alloc)?;
    let disk = MemDisk::with_switch(alloc, Vec::new(alloc), &switch)?;
    carry_out_on(rt, alloc, &config, &switch, disk, plan, answer)
}

fn carry_out_on<R: Wait>(
    rt: &R,
    alloc: Global,
    config: &Config<HashSign>,
    switch: &Switch,
    disk: MemDisk,
    plan: Plan,
    answer: &mut String,
) -> Result<(bool, MemDisk), Ending> {
    let (node, seat, flusher) = start(alloc, config, Store::One(disk))?;
    let mut rounds = Rounds::new(&node, seat, flusher);
    let is_settled = play_with(rt, alloc, config, switch, &mut rounds, plan, answer)?;
    match rounds.into_store() {
        Store::One(disk) => Ok((is_settled, disk)),
        Store::Two(..) => Err(Ending::Unexpected),
    }
}

// A caller submits the record to this node, and the node flushes once; shows whether the record was settled.
fn play_with<'a, R: Wait>(
    rt: &R,
    alloc: Global,
    config: &'a Config<HashSign>,
    switch: &Switch,
    rounds: &mut Rounds<'_, 'a, HashSign, MemDisk>,
    plan: Plan,
    answer: &mut String,
) -> Result<bool, Ending>
    requires { rounds.old.node.setting ≡ config.now }
{
    let mut caller = rounds.caller(config)?;
    rounds.cover(rt, &mut caller);
    play(rt, alloc, switch, rounds, &mut caller, plan, answer)?;
    Ok(caller.synced() == 1)
}

fn play<R: Wait>(
    rt: &R,
    alloc: Global,
    switch: &Switch,
    rounds: &mut Rounds<'_, '_, HashSign, MemDisk>,
    caller: &mut Caller<'_, '_, HashSign>,
    plan: Plan,
    answer: &mut String,
) -> Result<(), Ending> {
    match plan {
        Plan::Down => {
            switch.fail(CallKind::Sync, 1)?;
            report_down(rt, alloc, rounds, caller, answer)
        }
        Plan::Call(kind, count) => {
            submit_header(rt, alloc, caller, Author(1))?;
            let reported = switch.fail(kind, count)?;
            report_round(rt, rounds, answer);
            switch.take_back(reported);
            Ok(())
        }
    }
}

fn report_down<R: Wait>(
    rt: &R,
    alloc: Global,
    rounds: &mut Rounds<'_, '_, HashSign, MemDisk>,
    caller: &mut Caller<'_, '_, HashSign>,
    answer: &mut String,
) -> Result<(), Ending> {
    report_submit(rt, alloc, caller, answer)?;
    report_round(rt, rounds, answer);
    report_round(rt, rounds, answer);
    report_submit(rt, alloc, caller, answer)?;
    report_reads(rt, caller, Round::new(1)?, answer);
    report_counts(rt, caller, answer);
    report_proposal(rt, caller, answer)
}

fn report_submit<R: Wait>(
    rt: &R,
    alloc: Global,
    caller: &mut Caller<'_, '_, HashSign>,
    answer: &mut String,
) -> Result<(), Ending> {
    let event = header_of(alloc, caller.config(), Author(1))?;
    match caller.submit(rt, event) {
        Ok(receipt) => put_number(answer, "ticket", receipt.ticket),
        Err(refusal) => put_shown(answer, "refused ", &refusal, "\n"),
    }
    Ok(())
}

fn report_round<R: Wait>(
    rt: &R,
    rounds: &mut Rounds<'_, '_, HashSign, MemDisk>,
    answer: &mut String,
) {
    match rounds.round(rt) {
        Ok(count) => put_number(answer, "settled", count),
        Err(error) => put_shown(answer, "fault ", &error, "\n"),
    }
}

fn report_reads<R: Wait>(
    rt: &R,
    caller: &mut Caller<'_, '_, HashSign>,
    first: Round,
    answer: &mut String,
) {
    if caller.collect(rt).is_none() {
        put(answer, "no output\n");
    }
    if let Err(refusal) = caller.order(rt, 0) {
        put_shown(answer, "order refused ", &refusal, "\n");
    }
    if caller.peek_voted(rt, Author(1), first).is_some() {
        put(answer, "voted\n");
    }
}

fn report_counts<R: Wait>(rt: &R, caller: &mut Caller<'_, '_, HashSign>, answer: &mut String) {
    put_count(answer, "accepted ", caller.accepted(), "");
    put_count(answer, ", synced ", caller.synced(), "");
    put_count(answer, ", round ", caller.round_now(rt), "\n");
}

fn report_proposal<R: Wait>(
    rt: &R,
    caller: &mut Caller<'_, '_, HashSign>,
    answer: &mut String,
) -> Result<(), Ending> {
    if let Some(header) = &caller.propose(rt)? {
        put_number(answer, "proposes for round", header.body.round.number());
    }
    Ok(())
}
