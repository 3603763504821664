//! The simulated node: a shared node with its flusher, in one thread, on two disks in memory.

ghost use Rattle.std.specs.Prelude.{◌≡◌, None, IfOk};
ghost use Rattle.header.specs.Checks.{fault_of, accepts_all};
ghost use Rattle.sim_run.specs.Running.{AreOne};

use crate::answer::Answer;
use crate::ending::Ending;
use crate::machine::Machine;
use crate::starting::{Started, start, start_in_first_version};
use crate::stopping::StoppingDisk;
use crate::stops::{losing, tearing};
use committee::Committee;
use diskmodel::{CallKind, Disk, MemDisk, StopDisk};
use header::Checked;
use journal::{Journal, JournalError, Record, Version};
use node::{FlushError, Flusher, Node, Refusal, Seat};
use opening::EVENT;
use sigface::{HashSign, Sign};
use sim_script::Stopping;
use std::alloc::Global;
use std::marker::Model;
use std::sync::Wait;
use validator::Config;
use wire::{Author, Digest, Output, Round};

/// The byte that stands at all places of a group if a stop comes while the group is written.
const TORN_BYTE: u8 = 0xee;

/// The two syncs of a round, by number: after the group was written, and after its gate was opened.
const BODY_SYNC: u64 = 1;

const GATE_SYNC: u64 = 2;

/// Which sync of a checkpoint makes its first gate durable: the fourth, after those of the closed gate, of the cut and of the groups.
const CHECKPOINT_SYNC: u64 = 4;

/// Both disks of a machine, in the order of their areas.
pub type Disks = (MemDisk, MemDisk);

/// The simulated node, on both disks of a machine.
#[derive(Drop)]
pub struct Running<'a> {
    config: &'a Config<HashSign>,
    machine: &'a Machine,
    node: Node<'a, HashSign>,
    seat: Seat,
    flusher: Flusher<StoppingDisk<'a>>,
    // Whether the node is down since a round or a checkpoint failed.
    is_down: bool,
}

impl<'a> Model for Running<'a> {
    ghost use Rattle.wire.specs.declared.keys.Key.{Key};
    ghost use Rattle.validator.specs.Setting.{ConfigView, node_of};
    ghost use Rattle.sim_run.specs.Running.{AreOne};

    ghost Value = { ConfigView Key };

    ghost view = { λ r. r.config.now };

    ghost invariant = { λ r. AreOne ⟦<HashSign as Sign>⟧.scheme ⟦<StoppingDisk<'static> as Disk>⟧.device r.config.now r.node r.seat r.flusher };
}

impl<'a> Running<'a> {
    /// Opens the node of this configuration on what is on both disks of a machine.
    pub fn open(
        alloc: Global,
        config: &'a Config<HashSign>,
        machine: &'a Machine,
        disks: Disks,
    ) -> Result<Running<'a>, Ending>
        ensures { IfOk result (λ running. running ≡ config.now) }
    {
        let (first, second) = disks_of(machine, disks);
        let started = start(alloc, config, first, second)?;
        Ok(Running::new(config, machine, started))
    }

    /// Starts the node of this configuration on both disks of a machine, which are empty. Its journal begins in this version of the format.
    pub fn begin(
        alloc: Global,
        config: &'a Config<HashSign>,
        version: Version,
        machine: &'a Machine,
        disks: Disks,
    ) -> Result<Running<'a>, Ending>
        ensures { IfOk result (λ running. running ≡ config.now) }
    {
        match version {
            Version::First => {
                let (first, second) = disks_of(machine, disks);
                let started = start_in_first_version(alloc, config, first, second)?;
                Ok(Running::new(config, machine, started))
            }
            Version::Second => Running::open(alloc, config, machine, disks),
        }
    }

    // The simulated node, made of the parts that were started for this configuration.
    fn new(
        config: &'a Config<HashSign>,
        machine: &'a Machine,
        started: Started<'a, HashSign, StoppingDisk<'a>>,
    ) -> Running<'a>
        requires { AreOne ⟦<HashSign as Sign>⟧.scheme ⟦<StoppingDisk<'static> as Disk>⟧.device config.now started.0 started.1 started.2 }
        ensures { result ≡ config.now }
    {
        let (node, seat, flusher) = started;
        Running {
            config,
            machine,
            node,
            seat,
            flusher,
            is_down: false,
        }
    }

    /// The committee of the node.
    pub fn committee(&self) -> &Committee
        ensures { result.now ≡ self.now.charter }
    {
        self.config.committee()
    }

    /// Submits an event that passed the checks of the node's committee.
    pub fn submit<R: Wait>(&mut self, rt: &R, event: Checked) -> Answer
        requires { fault_of self.old.charter accepts_all event ≡ None }
    {
        match self.node.submit(rt, &mut self.seat, event) {
            Ok(receipt) if receipt.new => Answer::New(receipt.ticket),
            Ok(receipt) => Answer::Known(receipt.ticket),
            Err(refusal) => Answer::Refused(refusal),
        }
    }

    /// Takes the next output that may leave, if there is one.
    pub fn collect<R: Wait>(&mut self, rt: &R) -> Option<Output> {
        self.node.collect(rt, &mut self.seat)
    }

    /// The order that the settled records lead to.
    pub fn order<R: Wait>(&mut self, rt: &R) -> Result<Vec<Digest>, Refusal> {
        self.node.order(rt, &mut self.seat, 0)
    }

    /// The node's round after all accepted records.
    pub fn round<R: Wait>(&mut self, rt: &R) -> u64 {
        self.node.round_now(rt, &mut self.seat)
    }

    /// The digest of the header that the node voted for in this round and author; None if it has not voted there.
    pub fn voted<R: Wait>(&mut self, rt: &R, author: Author, round: Round) -> Option<Digest> {
        self.node.peek_voted(rt, &mut self.seat, author, round)
    }

    /// How many records the node has accepted.
    pub fn accepted(&mut self) -> u64 {
        self.node.accepted(&mut self.seat)
    }

    /// How many of the accepted records are settled.
    pub fn synced(&mut self) -> u64 {
        self.node.synced(&mut self.seat)
    }

    /// Lets a call of this kind fail: the one that comes as the `count`-th of its kind from now on.
    pub fn fail(&self, call: CallKind, count: u64) -> Result<(), Ending> {
        self.machine.fail(call, count)
    }

    /// Makes one round of the flusher: takes a group, appends it, and settles it. Returns how many records were settled.
    pub fn flush<R: Wait>(&mut self, rt: &R) -> Result<u64, FlushError> {
        let flushed = self.flusher.round(rt, &self.node, &mut self.seat);
        self.note(&flushed);
        flushed
    }

    /// Rewrites the journal to a checkpoint of all accepted events, and returns the checkpoint's generation.
    #[tactic(auto, using(crate::proofs::Keeping::pair_kept))]
    pub fn checkpoint<R: Wait>(&mut self, rt: &R) -> Result<u64, FlushError> {
        let rewritten = self.flusher.checkpoint(rt, &self.node, &mut self.seat);
        self.note(&rewritten);
        rewritten
    }

    // Notes whether this outcome of a round or a checkpoint means that the node is down.
    fn note(&mut self, outcome: &Result<u64, FlushError>)
        ensures { self.new ≡ self.old }
    {
        if let Err(FlushError::Device | FlushError::Full) = outcome {
            self.is_down = true;
        }
    }

    /// Ends the node, and returns both disks of its journal.
    pub fn into_disks(self) -> Disks {
        let (first, second) = self.flusher.into_journal().into_disks();
        (first.into_memory(), second.into_memory())
    }

    /// Stops the machine and opens the node again. Returns how many records of events were found.
    pub fn stop<R: Wait>(
        self,
        rt: &R,
        alloc: Global,
        stopping: Stopping,
    ) -> Result<(Running<'a>, u64), Ending>
        ensures { IfOk result (λ opened. opened.0 ≡ self.entry) }
    {
        let (config, machine) = (self.config, self.machine);
        let (mut first, mut second) = self.stopping_disks(rt, alloc, stopping)?;
        first.stop();
        second.stop();
        let (events, disks) = count_events(alloc, (first, second))?;
        let running = Running::open(alloc, config, machine, disks)?;
        Ok((running, events))
    }

    // Both disks of the node, set so that the next stop leaves what this kind of stop says.
    fn stopping_disks<R: Wait>(
        self,
        rt: &R,
        alloc: Global,
        stopping: Stopping,
    ) -> Result<Disks, Ending> {
        match stopping {
            Stopping::Keep => Ok(self.into_disks()),
            Stopping::Lose => {
                let (first, second) = self.into_disks();
                Ok((losing(alloc, first)?, losing(alloc, second)?))
            }
            Stopping::Body => self.interrupted_round(rt, alloc, BODY_SYNC, TORN_BYTE),
            Stopping::Gate(byte) => self.interrupted_round(rt, alloc, GATE_SYNC, byte),
            Stopping::Checkpoint(byte) => self.interrupted_checkpoint(rt, alloc, byte),
        }
    }

    // Both disks in the middle of a round: right before this sync of it, or at an earlier call that failed. If there is nothing to write,
    // they are as before.
    fn interrupted_round<R: Wait>(
        mut self,
        rt: &R,
        alloc: Global,
        sync: u64,
        byte: u8,
    ) -> Result<Disks, Ending> {
        if self.is_down || self.accepted() == self.synced() {
            return Ok(self.into_disks());
        }
        self.machine.stop_before(sync);
        let flushed = self.flush(rt);
        self.torn(alloc, flushed, byte)
    }

    // Both disks in the middle of a checkpoint: right before the sync of its first gate, or at an earlier call that failed. If the node is
    // down, they are as before.
    fn interrupted_checkpoint<R: Wait>(
        mut self,
        rt: &R,
        alloc: Global,
        byte: u8,
    ) -> Result<Disks, Ending> {
        if self.is_down {
            return Ok(self.into_disks());
        }
        self.machine.stop_before(CHECKPOINT_SYNC);
        let rewritten = self.checkpoint(rt);
        self.torn(alloc, rewritten, byte)
    }

    // Both disks after the machine's stop has ended a round or a checkpoint. The next stop leaves this byte at each place that was written
    // since the last sync.
    fn torn(
        self,
        alloc: Global,
        ended: Result<u64, FlushError>,
        byte: u8,
    ) -> Result<Disks, Ending> {
        self.machine.stop_before(0);
        match ended {
            Err(FlushError::Device) => {
                let (first, second) = self.into_disks();
                Ok((tearing(alloc, first, byte)?, tearing(alloc, second, byte)?))
            }
            Err(FlushError::Full) => Err(Ending::Fault(JournalError::Full)),
            Err(FlushError::Memory) => Err(Ending::Memory),
            Ok(_) | Err(FlushError::Down) => Err(Ending::Unstopped),
        }
    }
}

// Both disks, as disks of a machine that may stop before a sync.
fn disks_of(machine: &Machine, disks: Disks) -> (StoppingDisk<'_>, StoppingDisk<'_>) {
    let (first, second) = disks;
    (
        StoppingDisk::new(first, machine),
        StoppingDisk::new(second, machine),
    )
}

// How many records of events the area has that is read. Also returns the disks.
fn count_events(alloc: Global, disks: Disks) -> Result<(u64, Disks), Ending> {
    let (first, second) = disks;
    match Journal::open_pair(alloc, first, second) {
        Ok((journal, records)) => {
            let events = records.iter().filter(is_event).count() as u64;
            Ok((events, journal.into_disks()))
        }
        Err(failed) => Err(Ending::from(failed.error)),
    }
}

// Whether a record holds an event, by its first byte.
fn is_event(record: &&Record) -> bool {
    record.bytes.as_slice().first() == Some(&EVENT)
}
