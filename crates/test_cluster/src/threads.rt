//! The tests of nodes that run in threads of their own. A thread passes its gate before each turn; here the gates wait for one another.

ghost use Rattle.std.specs.Prelude.{◌≡◌, ◌+◌, [], length, vec_len, All, IfOk, OnOk};

use crate::reporting::{put_shown, report_error};
use cluster::{Applied, Cluster, ClusterError, Move};
use diskmodel::{Disk, Gate, MemDisk};
use sigface::{HashSign, HashVerify};
use sim_members::Settings;
use std::alloc::Global;
use std::sync::Wait;
use std::sync::atomic::{AtomicBool, AtomicU64, Ordering};
use std::thread::{self, Threads};
use test_cases::put;
use wire::{Author, Message};

// How often a gate polls the flag that it waits for. After that it opens although the flag isn't raised.
const LOOKS: u64 = 10_000_000;

/// A cluster of nodes whose disks are in memory.
type Nodes<'a> = Cluster<'a, HashSign, MemDisk, HashVerify>;

// A gate that a thread passes before each turn. It raises a flag in one of its passes, and in the first pass it waits until another flag
// is raised. It counts its passes.
#[derive(Drop)]
struct FlagGate<'f> {
    passes: u64,
    count: &'f AtomicU64,
    // The pass, counted from 1, in which this gate raises its flag. It does so before it waits for the other flag.
    raises_in: u64,
    raises: &'f AtomicBool,
    awaits: &'f AtomicBool,
    // Raised if some gate waited in vain, and opened although its flag was not raised.
    missed: &'f AtomicBool,
}

impl Gate for FlagGate<'_> {
    fn pass(&mut self) {
        self.passes = self.passes.saturating_add(1);
        self.count.store(self.passes, Ordering::SeqCst);
        if self.passes == self.raises_in {
            self.raises.store(true, Ordering::SeqCst);
        }
        if self.passes == 1 && !is_seen(self.awaits) {
            self.missed.store(true, Ordering::SeqCst);
        }
    }
}

fn is_seen(flag: &AtomicBool) -> bool {
    for _ in 0..LOOKS {
        if flag.load(Ordering::SeqCst) {
            return true;
        }
        thread::yield_now();
    }
    false
}

fn gate<'f>(
    count: &'f AtomicU64,
    raises_in: u64,
    raises: &'f AtomicBool,
    awaits: &'f AtomicBool,
    missed: &'f AtomicBool,
) -> FlagGate<'f> {
    FlagGate {
        passes: 0,
        count,
        raises_in,
        raises,
        awaits,
        missed,
    }
}

/// Runs two nodes in threads whose gates wait for each other: this ends well only if each node has a thread of its own.
pub fn meet<R>(rt: &R, alloc: Global, settings: &Settings, answer: &mut String)
where
    R: Threads + Wait + Sync,
{
    match have_met(rt, alloc, settings) {
        Ok(true) => put(answer, "both met\n"),
        Ok(false) => put(
            answer,
            "one waited in vain, or made another number of turns\n",
        ),
        Err(error) => report_error(answer, error),
    }
}

// Runs two nodes in threads for one turn. Each has a gate that raises a flag and waits for the flag of the other gate. Returns whether
// each gate was passed once, and none waited in vain.
fn have_met<R>(rt: &R, alloc: Global, settings: &Settings) -> Result<bool, ClusterError>
where
    R: Threads + Wait + Sync,
{
    let (one, other, missed) = (flag(false), flag(false), flag(false));
    let (passes, others) = (AtomicU64::new(0), AtomicU64::new(0));
    let mut gates = Vec::new(alloc);
    add(&mut gates, gate(&passes, 1, &one, &other, &missed))?;
    add(&mut gates, gate(&others, 1, &other, &one, &missed))?;
    nodes(alloc, settings, 2)?.run_threads(rt, gates, 1)?;
    Ok(
        is_up(&one)
            && is_up(&other)
            && !is_up(&missed)
            && count_of(&passes) == 1
            && count_of(&others) == 1,
    )
}

fn is_up(flag: &AtomicBool) -> bool {
    flag.load(Ordering::SeqCst)
}

fn count_of(count: &AtomicU64) -> u64 {
    count.load(Ordering::SeqCst)
}

/// `circulate TURNS` gives each of four nodes its own header without flushing it, and lets all run in threads for this many turns. Nodes 1
/// to 3 begin at node 0's second turn. Shows how many outputs each node has at the end, and how many of them each other node has taken.
pub fn circulate<R>(rt: &R, alloc: Global, settings: &Settings, words: &str, answer: &mut String)
where
    R: Threads + Wait + Sync,
{
    let turns = words.parse().unwrap_or(0);
    if let Err(error) = report_after(rt, alloc, settings, turns, answer) {
        report_error(answer, error);
    }
}

fn report_after<R>(
    rt: &R,
    alloc: Global,
    settings: &Settings,
    turns: u64,
    answer: &mut String,
) -> Result<(), ClusterError>
where
    R: Threads + Wait + Sync,
{
    let mut nodes = nodes(alloc, settings, 4)?;
    give_own(&mut nodes, Author(0))?;
    give_own(&mut nodes, Author(1))?;
    give_own(&mut nodes, Author(2))?;
    give_own(&mut nodes, Author(3))?;
    let mut nodes = run_after(rt, alloc, nodes, turns)?;
    for node in 0..4 {
        report_known(&mut nodes, Author(node), answer)?;
    }
    Ok(())
}

// Gives a node the header that it would propose, as its own.
fn give_own(nodes: &mut Nodes<'_>, node: Author) -> Result<(), ClusterError>
    ensures { length nodes.new.members ≡ length nodes.old.members }
{
    let Some(header) = nodes.propose(node)? else {
        return Err(ClusterError::NoSuchOutput);
    };
    nodes.apply(Move::Give {
        to: node,
        sender: node,
        message: Message::Header(header),
    })?;
    Ok(())
}

// Adds two numbers: how many outputs a node has put out, and how many deliveries of these to the three other nodes are answered "known",
// since that node has taken the output already.
fn report_known(
    nodes: &mut Nodes<'_>,
    node: Author,
    answer: &mut String,
) -> Result<(), ClusterError> {
    let outputs = nodes.outputs(node).unwrap_or(0);
    let mut known = 0_u64;
    for output in 0..outputs {
        known = known.saturating_add(known_to_others(nodes, node, output)?);
    }
    put_shown(answer, "outputs ", &outputs, "\n");
    put_shown(answer, "known ", &known, "\n");
    Ok(())
}

fn known_to_others(nodes: &mut Nodes<'_>, node: Author, output: u64) -> Result<u64, ClusterError> {
    let mut known = 0_u64;
    for to in 0..4 {
        if to != node.0 && is_known(nodes, node, output, Author(to))? {
            known = known.saturating_add(1);
        }
    }
    Ok(known)
}

fn is_known(
    nodes: &mut Nodes<'_>,
    node: Author,
    output: u64,
    to: Author,
) -> Result<bool, ClusterError> {
    let applied = nodes.apply(Move::Deliver { node, output, to })?;
    Ok(matches!(
        applied,
        Applied::Took {
            ticket: _,
            new: false
        }
    ))
}

// Runs four nodes in threads, nodes 1 to 3 from node 0's second turn on. A thread passes its gate before each of its turns.
fn run_after<'a, R>(
    rt: &R,
    alloc: Global,
    nodes: Nodes<'a>,
    turns: u64,
) -> Result<Nodes<'a>, ClusterError>
where
    R: Threads + Wait + Sync,
    requires { length nodes.members ≡ 4 }
{
    let (second, open, missed) = (flag(false), flag(true), flag(false));
    let (first, next) = (AtomicU64::new(0), AtomicU64::new(0));
    let (third, last) = (AtomicU64::new(0), AtomicU64::new(0));
    let mut gates = Vec::new(alloc);
    add(&mut gates, gate(&first, 2, &second, &open, &missed))?;
    add(&mut gates, gate(&next, 0, &second, &second, &missed))?;
    add(&mut gates, gate(&third, 0, &second, &second, &missed))?;
    add(&mut gates, gate(&last, 0, &second, &second, &missed))?;
    let nodes = nodes.run_threads(rt, gates, turns)?;
    let all = count_of(&first) == turns
        && count_of(&next) == turns
        && count_of(&third) == turns
        && count_of(&last) == turns;
    match all && !is_up(&missed) {
        true => Ok(nodes),
        false => Err(ClusterError::NoSuchNode),
    }
}

fn flag(up: bool) -> AtomicBool {
    AtomicBool::new(up)
}

fn add<'f>(gates: &mut Vec<FlagGate<'f>>, gate: FlagGate<'f>) -> Result<(), ClusterError>
    ensures { OnOk result (vec_len gates.new ≡ vec_len gates.old + 1) }
{
    match gates.push(gate) {
        Ok(()) => Ok(()),
        Err(_) => Err(ClusterError::Memory),
    }
}

// A cluster of the first `count` members' nodes, each on an empty disk in memory.
fn nodes<'a>(alloc: Global, settings: &'a Settings, count: usize) -> Result<Nodes<'a>, ClusterError>
    ensures { IfOk result (λ nodes. length nodes.members ≡ count) }
{
    let Some(configs) = settings.first(count) else {
        return Err(ClusterError::NoSuchNode);
    };
    let disks = disks(alloc, count)?;
    Cluster::new(alloc, configs, disks, HashVerify)
}

fn disks(alloc: Global, count: usize) -> Result<Vec<MemDisk>, ClusterError>
    ensures many { IfOk result (λ disks. vec_len disks ≡ count) }
    ensures empty { IfOk result (λ disks. All (λ disk. ⟦<MemDisk as Disk>⟧.device.content disk ≡ []) disks.items) }
{
    let mut disks = Vec::new(alloc);
    'made: for _ in 0..count {
        disks.reserve(1)?;
        let bytes = Vec::new(alloc);
        let disk = MemDisk::new(alloc, bytes)?;
        disks.push_reserved(disk);
    }
    Ok(disks)
}
