//! A test of one node to which three threads submit batches, while a fourth thread flushes.

ghost use Rattle.std.specs.Prelude.{◌≡◌, IsSome, IsTrue};
ghost use Rattle.flusher.specs.Rounds.{journal_of};
ghost use Rattle.journal.specs.Journal.{spare_of};
ghost use Rattle.node_shared.specs.Home.{IsOf};
ghost use Rattle.test_disk.specs.Stores.{has_two};

use crate::committees::{FOUR, own_config};
use crate::live::ending::Ending;
use crate::live::makers::batch_of;
use crate::live::words::{put, put_count, put_number};
use crate::memory::{disk_with, stopped};
use diskmodel::MemDisk;
use journal::Store;
use node::{Caller, Node, Receipt, Rounds, Seat, start};
use sigface::HashSign;
use std::alloc::{AllocError, Global};
use std::sync::Wait;
use std::thread::{self, Threads};
use validator::Config;
use wire::Author;

// How many members there are. The batches of all but the node's own member are submitted, each member's by a thread of its own.
const MEMBERS: u16 = 4;

// How many batches each thread submits.
const EACH: u64 = 1_000;

// How many batches there are in all.
const ALL: u64 = 3_000;

// How often the flushing thread flushes before it gives up, if not all batches are settled by then.
const TURNS: u64 = 10_000_000;

// On two disks a checkpoint is made each time that this many flushes were made. At least this many are made in all.
const EVERY: u64 = 20;

// The member whose batches a thread submits, and the thread's seat.
#[derive(Drop)]
struct Member<'n, 'a> {
    caller: Caller<'n, 'a, HashSign>,
    author: Author,
}

/// Submits all batches to a node in three threads, while another one flushes, and makes checkpoints if the words ask for them. Then the
/// node is stopped and loses what isn't synced; it is opened again, and all batches are submitted once more.
pub fn crowd<R>(rt: &R, alloc: Global, words: &str, answer: &mut String) -> Result<(), Ending>
where
    R: Threads + Wait + Sync,
{
    let config = own_config(alloc, &FOUR)?;
    let store = empty_store(alloc, words == "checkpoints")?;
    let left = match submit_all(rt, alloc, &config, store, answer)? {
        Store::One(disk) => Store::One(stopped(alloc, disk)?),
        Store::Two(first, second) => Store::Two(stopped(alloc, first)?, stopped(alloc, second)?),
    };
    let known = submit_again(rt, alloc, &config, left)?;
    put_count(answer, "", known, " known\n");
    Ok(())
}

// An empty disk, or two of them if the journal is to be on two disks.
fn empty_store(alloc: Global, are_two: bool) -> Result<Store<MemDisk>, AllocError> {
    let first = disk_with(alloc, &[])?;
    match are_two {
        true => Ok(Store::Two(first, disk_with(alloc, &[])?)),
        false => Ok(Store::One(first)),
    }
}

// Whether there are two disks, so that a journal can be rewritten.
fn has_two<D>(store: &Store<D>) -> bool
    ensures { result ≡ has_two store.now }
{
    match store {
        Store::One(_) => false,
        Store::Two(..) => true,
    }
}

fn submit_all<R>(
    rt: &R,
    alloc: Global,
    config: &Config<HashSign>,
    store: Store<MemDisk>,
    answer: &mut String,
) -> Result<Store<MemDisk>, Ending>
where
    R: Threads + Wait + Sync,
{
    let rewrites = has_two(&store);
    let (node, mut seat, flusher) = start(alloc, config, store)?;
    let mut first = node.split(&mut seat)?;
    let mut second = node.split(&mut first)?;
    let rounds = Rounds::new(&node, seat, flusher);
    let left = submit_beside(rt, alloc, config, rounds, rewrites, answer)?;
    let count = look(&node, &mut first, &mut second);
    put_number(answer, "two seats meet at", count);
    Ok(left)
}

// Looks at the node's counts with each of two seats, and lets the second seat learn what the first one has seen. Returns how many events
// the second seat has seen then. This function is given no handle for waiting, so its types prove that none of its calls waits.
fn look(node: &Node<'_, HashSign>, first: &mut Seat, second: &mut Seat) -> u64
    requires first { IsOf node.now first.old }
    requires second { IsOf node.now second.old }
{
    node.accepted(first);
    node.synced(first);
    node.meet(first, second)
}

// Submits each member's batches in a thread of its own, while another thread flushes.
fn submit_beside<'a, R>(
    rt: &R,
    alloc: Global,
    config: &'a Config<HashSign>,
    mut rounds: Rounds<'_, 'a, HashSign, MemDisk>,
    rewrites: bool,
    answer: &mut String,
) -> Result<Store<MemDisk>, Ending>
where
    R: Threads + Wait + Sync,
    requires setting { rounds.node.setting ≡ config.now }
    requires pair { IsTrue rewrites → IsSome (spare_of (journal_of rounds.flusher)) }
{
    let (caller, watcher) = (rounds.caller(config)?, rounds.caller(config)?);
    let (reported, flushed) = thread::join(
        rt,
        move || submit_each(rt, alloc, caller),
        move || flush_all(rt, rounds, watcher, rewrites),
    );
    put(answer, reported?.as_str());
    flushed
}

// Submits the batches of all members, each member's in a thread of its own, and returns the lines that show the tickets of the batches (the
// numbers of the records that must be durable before an answer leaves).
fn submit_each<R>(
    rt: &R,
    alloc: Global,
    mut caller: Caller<'_, '_, HashSign>,
) -> Result<String, Ending>
where
    R: Threads + Wait + Sync,
{
    let members = members_of(alloc, &mut caller)?;
    let found = thread::map_vec(rt, members, &|member| submit_batches(rt, alloc, member))?;
    let mut reported = String::new(alloc);
    report_tickets(alloc, found, &mut reported)?;
    Ok(reported)
}

fn members_of<'n, 'a>(
    alloc: Global,
    caller: &mut Caller<'n, 'a, HashSign>,
) -> Result<Vec<Member<'n, 'a>>, AllocError> {
    let mut members = Vec::new(alloc);
    for number in 1..MEMBERS {
        let (caller, author) = (caller.split()?, Author(number));
        members.push(Member { caller, author })?;
    }
    Ok(members)
}

// Submits a member's batches, and returns their tickets in the same order.
fn submit_batches<R: Wait>(
    rt: &R,
    alloc: Global,
    member: Member<'_, '_>,
) -> Result<Vec<u64>, Ending> {
    let Member { mut caller, author } = member;
    let mut tickets = Vec::new(alloc);
    for number in 0..EACH {
        let ticket = submit_batch(rt, alloc, &mut caller, author, number)?;
        tickets.push(ticket)?;
    }
    Ok(tickets)
}

// Submits a batch that the node doesn't have yet, and returns its ticket.
fn submit_batch<R: Wait>(
    rt: &R,
    alloc: Global,
    caller: &mut Caller<'_, '_, HashSign>,
    author: Author,
    number: u64,
) -> Result<u64, Ending> {
    let receipt = submit(rt, alloc, caller, author, number)?;
    match receipt.new {
        true => Ok(receipt.ticket),
        false => Err(Ending::Unexpected),
    }
}

fn submit<R: Wait>(
    rt: &R,
    alloc: Global,
    caller: &mut Caller<'_, '_, HashSign>,
    author: Author,
    number: u64,
) -> Result<Receipt, Ending> {
    let event = batch_of(alloc, caller.config(), author, number)?;
    Ok(caller.submit(rt, event)?)
}

// Flushes until all batches are settled, and returns the disks on which the node was opened.
fn flush_all<R: Wait>(
    rt: &R,
    mut rounds: Rounds<'_, '_, HashSign, MemDisk>,
    mut watcher: Caller<'_, '_, HashSign>,
    rewrites: bool,
) -> Result<Store<MemDisk>, Ending>
    requires pair { IsTrue rewrites → IsSome (spare_of (journal_of rounds.flusher)) }
{
    let mut is_over = false;
    for turn in 1..TURNS {
        flush(rt, &mut rounds, rewrites && turn % EVERY == 0)?;
        is_over = turn >= EVERY && watcher.synced() >= ALL;
        if is_over {
            break;
        }
    }
    match is_over {
        true => Ok(rounds.into_store()),
        false => Err(Ending::Unexpected),
    }
}

// Flushes once, and then makes a checkpoint if one is to be made.
fn flush<R: Wait>(
    rt: &R,
    rounds: &mut Rounds<'_, '_, HashSign, MemDisk>,
    rewrites: bool,
) -> Result<(), Ending>
    requires pair { IsTrue rewrites → IsSome (spare_of (journal_of rounds.old.flusher)) }
    ensures pair { IsSome (spare_of (journal_of rounds.old.flusher)) → IsSome (spare_of (journal_of rounds.new.flusher)) }
{
    if rounds.round(rt)? == 0 {
        thread::yield_now();
    }
    if rewrites {
        rounds.checkpoint(rt)?;
    }
    Ok(())
}

fn report_tickets(
    alloc: Global,
    found: Vec<Result<Vec<u64>, Ending>>,
    answer: &mut String,
) -> Result<(), Ending> {
    let mut all = Vec::new(alloc);
    for tickets in found {
        add_tickets(&tickets?, &mut all, answer)?;
    }
    all.sort_unstable();
    if are_all(&all) {
        put(answer, "all tickets are those from 1 to 3000\n");
    }
    Ok(())
}

fn add_tickets(tickets: &[u64], all: &mut Vec<u64>, answer: &mut String) -> Result<(), AllocError> {
    if are_rising(tickets) {
        put(answer, "a seat's tickets rise\n");
    }
    all.extend_from_slice(tickets)
}

fn are_rising(tickets: &[u64]) -> bool {
    let mut last = 0;
    for ticket in tickets {
        if *ticket <= last {
            return false;
        }
        last = *ticket;
    }
    true
}

// Whether these tickets are the numbers from 1 to the number of all batches, each once.
fn are_all(tickets: &[u64]) -> bool {
    let mut last = 0_u64;
    for ticket in tickets {
        if *ticket != last.saturating_add(1) {
            return false;
        }
        last = *ticket;
    }
    last == ALL
}

// How many of the batches a node that is opened on these disks already has.
fn submit_again<R: Wait>(
    rt: &R,
    alloc: Global,
    config: &Config<HashSign>,
    store: Store<MemDisk>,
) -> Result<u64, Ending> {
    let (node, seat, _) = start(alloc, config, store)?;
    let mut caller = Caller::new(&node, config, seat);
    let mut known = 0_u64;
    for number in 1..MEMBERS {
        let count = known_of(rt, alloc, &mut caller, Author(number))?;
        known = known.saturating_add(count);
    }
    Ok(known)
}

fn known_of<R: Wait>(
    rt: &R,
    alloc: Global,
    caller: &mut Caller<'_, '_, HashSign>,
    author: Author,
) -> Result<u64, Ending> {
    let mut known = 0_u64;
    for number in 0..EACH {
        if !submit(rt, alloc, caller, author, number)?.new {
            known = known.saturating_add(1);
        }
    }
    Ok(known)
}
