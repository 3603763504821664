//! Running a member's node on its disks.

ghost use Rattle.std.specs.Prelude.{◌≡◌};
ghost use Rattle.validator.specs.Setting.{node_of};
ghost use Rattle.node_run.specs.Runs.{RunsOver, GivesOnly, every_on};

use crate::bell::Bells;
use crate::flushing::length_of;
use crate::ran::Ran;
use crate::rule::Rule;
use crate::threads::{Desks, run_threads};
use diskmodel::Disk;
use journal::{Failed, Store};
use node::{Rounds, start};
use node_io::Ending;
use sigface::Sign;
use std::alloc::Global;
use std::io::{Read, Write};
use std::sync::Wait;
use std::thread::Threads;
use validator::Config;

/// Opens a member's node on one disk or on two, and runs it. A journal on two disks is rewritten to a checkpoint after each round by which
/// the area that is read has grown by `every` bytes since the opening or the last checkpoint. Gives how the run ended; the disks, unless
/// they were lost with a thread that couldn't be made; and the writer, unless it was lost in the same way or by a failed allocation.
pub(crate) fn run_member<R, S, D, I, W, E>(
    rt: &R,
    alloc: Global,
    config: &Config<S>,
    store: Store<D>,
    every: u64,
    reader: I,
    writer: W,
    errors: &mut E,
) -> Ran<D, W>
where
    R: Threads + Wait + Sync,
    S: Sign + Send + Sync + Drop,
    D: Disk + Drop + Send,
    I: Read + Drop,
    W: Write + Drop + Send,
    E: Write,
    ensures runs { RunsOver (node_of S.scheme config.now) D.device store every result.ending result.store }
    ensures gives { GivesOnly (node_of S.scheme config.now) D.device W.contents store writer result }
{
    let every = every_on(&store, every);
    let (node, seat, flusher) = match start(alloc, config, store) {
        Ok(started) => started,
        Err(Failed { error, disk }) => return Ran {
            ending: Ending::from(error),
            store: Some(disk),
            writer: Some(writer),
        },
    };
    let bells = Bells::new();
    let mut rounds = Rounds::new(&node, seat, flusher);
    let rule = Rule {
        every,
        since: length_of(&rounds),
    };
    match Desks::new(alloc, config, &bells, &mut rounds, reader, writer, errors) {
        Ok(desks) => {
            let (faults, store, writer) = run_threads(rt, rounds, rule, desks);
            Ran {
                ending: faults.ending(),
                store,
                writer,
            }
        }
        Err(_) => Ran {
            ending: Ending::Memory,
            store: Some(rounds.into_store()),
            writer: None,
        },
    }
}

// By how many bytes a journal may grow until it is rewritten. None on one disk, where a journal is never rewritten.
fn every_on<D>(store: &Store<D>, every: u64) -> Option<u64>
    ensures { result ≡ every_on store.now every }
{
    match store {
        Store::One(_) => None,
        Store::Two(..) => Some(every),
    }
}
