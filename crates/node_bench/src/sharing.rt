//! Measured work of threads that share a node.

ghost use Rattle.std.specs.Prelude.{◌≡◌};
ghost use Rattle.std.specs.Thread.{IsSend, IsSync};

use crate::ending::Ending;
use crate::fold::{Fold, Sum};
use crate::messages::{PEER, SMALL_BYTES};
use crate::sharer::Sharer;
use crate::stepping::take_all;
use crate::storing::{empty_disk, room_for_outputs};
use crate::task::{Step, Task};
use crossbeam_channel::{Receiver, Sender, unbounded};
use diskmodel::Disk;
use journal::Store;
use node::{Caller, Rounds, start};
use sigface::{HashSign, Sign};
use std::alloc::AllocError;
use std::collections::VecDeque;
use std::sync::Wait;
use std::thread::{self, Threads};
use validator::Config;
use wire::{Author, Output};

/// The members whose batches are submitted, each by a thread of its own.
const MEMBERS: [Author; 3] = [Author(1), Author(2), Author(3)];

/// Three threads submit `count` batches each to one node. A fourth thread flushes each time that `size` more were accepted, and releases
/// the outputs. The preparation alone gives as many batches to a validator.
pub fn share_node<R: Threads + Wait + Sync>(
    rt: &R,
    task: Task,
    config: &Config<HashSign>,
    fold: &mut Fold,
) -> Result<(), Ending> {
    if !task.is_work {
        return step_as_many(task, config, MEMBERS.len() as u64, fold);
    }
    let store = Store::One(empty_disk(task.alloc)?);
    let (node, seat, flusher) = start(task.alloc, config, store)?;
    let mut rounds = Rounds::new(&node, seat, flusher);
    let sharers = sharers_of(task, config, &mut rounds)?;
    let (caller, outputs) = (rounds.caller(config)?, room_for_outputs(task.alloc)?);
    let flushing = Flushing {
        rounds,
        caller,
        outputs,
    };
    submit_all(rt, task, sharers, flushing, fold)
}

// What the flushing thread has: the flusher of the node, an access to the node by which it collects outputs, and room for these.
#[derive(Drop)]
struct Flushing<'n, 'a, S: Sign, D: Disk> {
    rounds: Rounds<'n, 'a, S, D>,
    caller: Caller<'n, 'a, S>,
    outputs: VecDeque<Output>,
}

fn sharers_of<'n, 'a, S: Sign, D: Disk>(
    task: Task,
    config: &'a Config<S>,
    rounds: &mut Rounds<'n, 'a, S, D>,
) -> Result<Vec<Sharer<'n, 'a, S>>, AllocError>
    requires { rounds.old.node.setting ≡ config.now }
    ensures { rounds.new ≡ rounds.old }
{
    let mut first = rounds.caller(config)?;
    let mut sharers = Vec::new(task.alloc);
    for member in &MEMBERS {
        let node = first.split()?;
        let member = *member;
        sharers.push(Sharer { node, member })?;
    }
    Ok(sharers)
}

fn submit_all<R, S, D>(
    rt: &R,
    task: Task,
    sharers: Vec<Sharer<'_, '_, S>>,
    flushing: Flushing<'_, '_, S, D>,
    fold: &mut Fold,
) -> Result<(), Ending>
where
    R: Threads + Wait + Sync,
    S: Sign + Send + Sync + Drop,
    D: Disk + Drop + Send,
{
    let (bell, rings) = unbounded(task.alloc)?;
    let (folds, released) = thread::join(
        rt,
        move || thread::map_vec(
            rt,
            sharers,
            &|sharer| submit_batches(rt, task, sharer, &bell),
        ),
        move || flush_all(rt, flushing, rings),
    );
    join_all(folds?, fold)?;
    released?.add_to(fold);
    Ok(())
}

// Adds the checksums of the threads to one checksum, in the order of the members.
fn join_all(folds: Vec<Result<Fold, Ending>>, all: &mut Fold) -> Result<(), Ending> {
    for fold in folds {
        all.join(fold?);
    }
    Ok(())
}

// Submits this thread's batches. Rings the bell each time that all threads together have had `size` more batches accepted.
fn submit_batches<S: Sign, R: Wait>(
    rt: &R,
    task: Task,
    mut sharer: Sharer<'_, '_, S>,
    bell: &Sender<()>,
) -> Result<Fold, Ending> {
    let mut fold = Fold::new();
    for number in 0..task.count {
        let ticket = sharer.submit(rt, task.alloc, number, &mut fold)?;
        if ticket % task.size.max(1) == 0 && bell.send(rt, ()).is_err() {
            return Err(Ending::Refused);
        }
    }
    Ok(fold)
}

// Flushes at each ring of the bell. After the last batch it flushes what is still pending.
fn flush_all<S: Sign, D: Disk + Drop, R: Wait>(
    rt: &R,
    mut flushing: Flushing<'_, '_, S, D>,
    rings: Receiver<()>,
) -> Result<Sum, Ending> {
    let mut released = Sum::new();
    for () in rings.iter(rt) {
        flush(rt, &mut flushing, &mut released)?;
    }
    for _ in rt.forever() {
        if flush(rt, &mut flushing, &mut released)? == 0 {
            break;
        }
    }
    Ok(released)
}

// Makes one round (take, append, settle), and then releases all outputs that may leave. Returns how many events were settled.
fn flush<S: Sign, D: Disk, R: Wait>(
    rt: &R,
    flushing: &mut Flushing<'_, '_, S, D>,
    released: &mut Sum,
) -> Result<u64, Ending> {
    let count = flushing.rounds.round(rt)?;
    for _ in rt.forever() {
        flushing.caller.collect_into(rt, &mut flushing.outputs);
        if flushing.outputs.is_empty() {
            break;
        }
        for output in flushing.outputs.iter() {
            released.add(output);
        }
        flushing.outputs.clear();
    }
    Ok(count)
}

/// One thread submits `count` batches to a node, flushes each time that `size` more were accepted, and releases the outputs. The
/// preparation alone gives as many batches to a validator.
pub fn submit_alone<R: Wait>(
    rt: &R,
    task: Task,
    config: &Config<HashSign>,
    fold: &mut Fold,
) -> Result<(), Ending> {
    if !task.is_work {
        return step_as_many(task, config, 1, fold);
    }
    let store = Store::One(empty_disk(task.alloc)?);
    let (node, seat, flusher) = start(task.alloc, config, store)?;
    let mut rounds = Rounds::new(&node, seat, flusher);
    let (member, node) = (PEER, rounds.caller(config)?);
    let (caller, outputs) = (rounds.caller(config)?, room_for_outputs(task.alloc)?);
    let sharer = Sharer { node, member };
    let flushing = Flushing {
        rounds,
        caller,
        outputs,
    };
    submit_and_flush(rt, task, sharer, flushing, fold)
}

fn submit_and_flush<S: Sign, D: Disk + Drop, R: Wait>(
    rt: &R,
    task: Task,
    mut sharer: Sharer<'_, '_, S>,
    mut flushing: Flushing<'_, '_, S, D>,
    fold: &mut Fold,
) -> Result<(), Ending> {
    let mut released = Sum::new();
    for number in 0..task.count {
        let ticket = sharer.submit(rt, task.alloc, number, fold)?;
        if ticket % task.size.max(1) == 0 {
            flush(rt, &mut flushing, &mut released)?;
        }
    }
    for _ in rt.forever() {
        if flush(rt, &mut flushing, &mut released)? == 0 {
            break;
        }
    }
    released.add_to(fold);
    Ok(())
}

// Gives a validator as many batches of one member as all threads together would submit to a node.
fn step_as_many(
    task: Task,
    config: &Config<HashSign>,
    members: u64,
    fold: &mut Fold,
) -> Result<(), Ending> {
    let (is_work, size) = (true, SMALL_BYTES);
    let count = task.count.saturating_mul(members);
    let batches = Task {
        is_work,
        count,
        size,
        ..task
    };
    take_all(batches, config, Step::Batch, fold)
}
