//! A run of a node.

ghost use Rattle.std.specs.Prelude.{◌≡◌, ◌≢◌, ◌⊎◌, ◌^◌, Some, IfSome, length, slice_get, string_bytes};
ghost use Rattle.wire.specs.declared.keys.Key.{Key};
ghost use Rattle.validator.specs.Setting.{ConfigView, node_of};
ghost use Rattle.node_run.specs.Members.{IsConfigOf, RefusesConfig, RefusesOpening};
ghost use Rattle.node_run.specs.Runs.{RunsOver, GivesOnly, RunsAs};
ghost use Rattle.node_run.specs.declared.running.TheConstants.{CHECKPOINT_BYTES};

use crate::member::run_member;
use crate::ran::Ran;
use crate::starting::{config_of, open_all};
use disk_file::FileDisk;
use diskmodel::Disk;
use journal::Store;
use node_io::Ending;
use sigface::{HashSign, Sign};
use std::alloc::Global;
use std::fs::File;
use std::io::{Read, Write};
use std::rt::Files;
use std::sync::Wait;
use std::thread::Threads;

/// By how many bytes the area that is read may grow until a checkpoint is made. So an opening reads little more than this, beside the
/// state.
pub const CHECKPOINT_BYTES: u64 = 1 << 30;

/// `CHECKPOINT_BYTES` is 2^30. The call does nothing: its contract is this law.
pub fn checkpoint_bytes_in_numbers()
    ensures { CHECKPOINT_BYTES ≡ 2 ^ 30 }
{}

/// Runs a node. The arguments are a committee file, the own number and the first of the journal's two files. Frames are read until they
/// end; each refusal is written to the errors as a line, and outputs go to the writer. The journal is rewritten to a checkpoint after each
/// round by which the area that is read has grown by `CHECKPOINT_BYTES` since the opening or the last checkpoint. Gives how the run ended;
/// the disks, if they were opened and weren't lost with a thread that couldn't be made; and the writer, unless it was lost in the same way
/// or by a failed allocation. Where the ending's status isn't 0, the last line of the errors says why.
pub fn run<R, I, W, E>(
    rt: &R,
    alloc: Global,
    args: &[String],
    every: u64,
    reader: I,
    writer: W,
    errors: &mut E,
) -> Ran<FileDisk, W>
where
    R: Files<File = File> + AllocGlobal + Threads + Wait + Sync,
    I: Read + Drop,
    W: Write + Drop + Send,
    E: Write,
    ensures arguments { length args.now ≢ 3 → (result.ending ≡ Ending.Usage) × (result.writer ≡ Some writer) }
    // Either the ending says why nothing was opened, and nothing was written; or the member with the given number ran on its disks.
    ensures ending { IfSome (slice_get args.now 1) (λ own. (RefusesOpening (string_bytes own) result.ending × (result.writer ≡ Some writer))
        ⊎ RunsAs ⟦<HashSign as Sign>⟧.scheme ⟦<FileDisk as Disk>⟧.device W.contents (string_bytes own) every writer result) }
{
    let ran = run_named(rt, alloc, args, every, reader, writer, errors);
    ran.ending.write_to(errors);
    ran
}

// Runs the node that the arguments describe.
fn run_named<R, I, W, E>(
    rt: &R,
    alloc: Global,
    args: &[String],
    every: u64,
    reader: I,
    writer: W,
    errors: &mut E,
) -> Ran<FileDisk, W>
where
    R: Files<File = File> + AllocGlobal + Threads + Wait + Sync,
    I: Read + Drop,
    W: Write + Drop + Send,
    E: Write,
    ensures arguments { length args.now ≢ 3 → (result.ending ≡ Ending.Usage) × (result.writer ≡ Some writer) }
    ensures named { IfSome (slice_get args.now 1) (λ own. (RefusesOpening (string_bytes own) result.ending × (result.writer ≡ Some writer))
        ⊎ RunsAs ⟦<HashSign as Sign>⟧.scheme ⟦<FileDisk as Disk>⟧.device W.contents (string_bytes own) every writer result) }
{
    let (config, store) = match open_all(rt, alloc, args) {
        Ok(opened) => opened,
        Err(ending) => return not_run(ending, None, writer),
    };
    run_member(rt, alloc, &config, store, every, reader, writer, errors)
}

// The result of a run in which no node could be opened.
fn not_run<D, W>(ending: Ending, store: Option<Store<D>>, writer: W) -> Ran<D, W>
    ensures ending { result.ending ≡ ending }
    ensures store { result.store ≡ store }
    ensures writer { result.writer ≡ Some writer }
{
    Ran {
        ending,
        store,
        writer: Some(writer),
    }
}

/// Runs a node on one disk or two that are given, with the text of the committee file and the own number. A journal on two disks is
/// rewritten to a checkpoint after each round by which the area that is read has grown by `every` bytes since the opening or the last
/// checkpoint. Gives how the run ended; the disks, unless they were lost with a thread that couldn't be made; and the writer, unless it was
/// lost in the same way or by a failed allocation.
pub fn run_over<R, D, I, W, E>(
    rt: &R,
    alloc: Global,
    named: (&[u8], &str),
    store: Store<D>,
    every: u64,
    reader: I,
    writer: W,
    errors: &mut E,
) -> Ran<D, W>
where
    R: Threads + Wait + Sync,
    D: Disk + Drop + Send,
    I: Read + Drop,
    W: Write + Drop + Send,
    E: Write,
    // Either the text and the number give a configuration, the node runs with it, and what it wrote rests on records on the disks; or the
    // ending says why there is no configuration, and the disks and the writer are as they were.
    ensures { ((config : ConfigView Key) × IsConfigOf named.entry.0.now named.entry.1.now config × RunsOver (node_of ⟦<HashSign as Sign>⟧.scheme config) D.device store every result.ending result.store
        × GivesOnly (node_of ⟦<HashSign as Sign>⟧.scheme config) D.device W.contents store writer result)
        ⊎ (RefusesConfig named.entry.0.now named.entry.1.now result.ending × (result.store ≡ Some store) × (result.writer ≡ Some writer)) }
{
    let (text, own) = named;
    let ran = match config_of(alloc, text, own) {
        Ok(config) => run_member(rt, alloc, &config, store, every, reader, writer, errors),
        Err(ending) => not_run(ending, Some(store), writer),
    };
    ran.ending.write_to(errors);
    ran
}
