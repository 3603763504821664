//! Measured work with journals: appending groups, a book with a journal, and opening a journal.

ghost use Rattle.std.specs.Prelude.{◌≡◌, None, IfOk, OnOk};
ghost use Rattle.journal.specs.Journal.{spare_of, IsAlive};

use crate::ending::Ending;
use crate::events::Events;
use crate::fold::Fold;
use crate::stepping::{events_of, take_all};
use crate::task::{Step, Task};
use book::OwnBook;
use diskmodel::{Disk, MemDisk};
use journal::{CLOSED, Group, Journal};
use opening::reopen;
use sigface::{HashSign, Sign};
use std::alloc::{AllocError, Global};
use std::collections::VecDeque;
use validator::Config;
use wire::Output;

/// The length of each appended record, in bytes: that of a certificate's record in a committee of four.
const RECORD_BYTES: usize = 354;

/// How many outputs are released at once at most: as many as narwhal-node takes out of its node in one hold of the lock.
const MAX_RELEASED: usize = 256;

/// An empty disk.
pub fn empty_disk(alloc: Global) -> Result<MemDisk, AllocError> {
    MemDisk::new(alloc, Vec::new(alloc))
}

/// Appends `count` groups of records, each to a journal of its own. The disk in memory copies everything that it has at each sync, so on
/// one long journal the copying would be most of the work.
pub fn append_groups(task: Task, fold: &mut Fold) -> Result<(), Ending> {
    for _ in 0..task.count {
        append_group(task, fold)?;
    }
    Ok(())
}

fn append_group(task: Task, fold: &mut Fold) -> Result<(), Ending> {
    let records = records_of(task)?;
    let mut journal = empty_journal(task.alloc)?;
    if task.is_work {
        fold.add(append(task.alloc, &mut journal, records)?);
        fold.add_bytes(journal.into_disk().bytes());
    }
    Ok(())
}

// Appends a group of these records to a new journal. Returns how many records it has.
fn append(
    alloc: Global,
    journal: &mut Journal<MemDisk>,
    records: Vec<Vec<u8>>,
) -> Result<u64, Ending>
    requires alive { IsAlive ⟦<MemDisk as Disk>⟧.device journal.old }
    requires alone { spare_of journal.old ≡ None }
    ensures alive { OnOk result (IsAlive ⟦<MemDisk as Disk>⟧.device journal.new) }
    ensures alone { spare_of journal.new ≡ None }
{
    match Group::new(alloc, records)? {
        Some(group) => Ok(journal.append(group)?.records()),
        None => Err(Ending::Refused),
    }
}

// An empty journal on a new disk in memory.
fn empty_journal(alloc: Global) -> Result<Journal<MemDisk>, Ending>
    ensures alive { IfOk result (λ journal. IsAlive ⟦<MemDisk as Disk>⟧.device journal) }
    ensures alone { IfOk result (λ journal. spare_of journal ≡ None) }
{
    let (journal, _) = Journal::open(alloc, empty_disk(alloc)?)?;
    Ok(journal)
}

fn records_of(task: Task) -> Result<Vec<Vec<u8>>, AllocError> {
    let mut records = Vec::new(task.alloc);
    for _ in 0..task.size {
        records.push([0; RECORD_BYTES].to_vec(task.alloc)?)?;
    }
    Ok(records)
}

/// Gives events to a book, and flushes its records each time that `size` more were accepted. The preparation alone gives the same events
/// to a validator.
pub fn keep_book(task: Task, config: &Config<HashSign>, fold: &mut Fold) -> Result<(), Ending> {
    if !task.is_work {
        let is_work = true;
        return take_all(Task { is_work, ..task }, config, Step::Event, fold);
    }
    keep_all(task, config, Step::Event, &mut Vec::new(task.alloc), fold)
}

// Gives events to a new book, and flushes it each time that `size` more were accepted. The bytes of the groups are collected in `kept`, if
// that has a closed gate at its end to which the first group can be appended.
fn keep_all(
    task: Task,
    config: &Config<HashSign>,
    step: Step,
    kept: &mut Vec<u8>,
    fold: &mut Fold,
) -> Result<(), Ending> {
    let (mut book, journal) = new_book(task.alloc, config)?;
    keep(kept, journal)?;
    accept_all(task, step, &mut book, kept, fold)
}

// A new book, and a journal whose only record is the node's configuration.
fn new_book<'a, S: Sign>(
    alloc: Global,
    config: &'a Config<S>,
) -> Result<(OwnBook<'a, S>, Journal<MemDisk>), Ending>
    ensures { IfOk result (λ made. spare_of made.1 ≡ None) }
{
    match reopen(alloc, config, empty_disk(alloc)?) {
        Ok((validator, journal)) => Ok((OwnBook::new(alloc, validator), journal)),
        Err(failed) => Err(Ending::from(failed)),
    }
}

fn accept_all(
    task: Task,
    step: Step,
    book: &mut OwnBook<'_, HashSign>,
    kept: &mut Vec<u8>,
    fold: &mut Fold,
) -> Result<(), Ending> {
    let mut events = events_of(task, book.committee(), step)?;
    let mut released = room_for_outputs(task.alloc)?;
    for piece in 0..task.count {
        if piece % task.size.max(1) == 0 {
            flush(task.alloc, book, &mut released, kept, fold)?;
        }
        accept_next(book, &mut events, fold)?;
    }
    flush(task.alloc, book, &mut released, kept, fold)
}

/// An empty deque with room for the outputs that are released at once.
pub fn room_for_outputs(alloc: Global) -> Result<VecDeque<Output>, AllocError> {
    VecDeque::with_capacity(alloc, MAX_RELEASED)
}

// Gives the book the next event, and returns its ticket.
fn accept_next(
    book: &mut OwnBook<'_, HashSign>,
    events: &mut Events,
    fold: &mut Fold,
) -> Result<(), Ending> {
    let event = events.tested(book.committee())?;
    let receipt = book.accept(event)?;
    fold.add(receipt.ticket);
    Ok(())
}

// Writes all pending records, each group to a journal of its own, settles them, and releases the outputs that may leave.
fn flush(
    alloc: Global,
    book: &mut OwnBook<'_, HashSign>,
    released: &mut VecDeque<Output>,
    kept: &mut Vec<u8>,
    fold: &mut Fold,
) -> Result<(), Ending> {
    for _ in 0..u64::MAX {
        let mut journal = empty_journal(alloc)?;
        fold.add(book.flush(&mut journal)?);
        release_all(book, released, fold);
        keep(kept, journal)?;
        if !book.has_pending() {
            break;
        }
    }
    Ok(())
}

fn release_all(book: &mut OwnBook<'_, HashSign>, released: &mut VecDeque<Output>, fold: &mut Fold) {
    for _ in 0..u64::MAX {
        book.release_into(released);
        if released.is_empty() {
            break;
        }
        for output in released.iter() {
            fold.add_output(output);
        }
        released.clear();
    }
}

// Replaces the closed gate at the end of these bytes by the groups of a journal. Empty bytes stay empty.
fn keep(kept: &mut Vec<u8>, journal: Journal<MemDisk>) -> Result<(), AllocError>
    requires { spare_of journal ≡ None }
{
    if kept.pop().is_some() {
        kept.extend_from_slice(journal.into_disk().bytes())?;
    }
    Ok(())
}

/// Opens a journal that holds `count` certificates and coins, in groups that are as long as possible. The preparation alone makes the
/// journal and its disk.
pub fn reopen_journal(
    task: Task,
    config: &Config<HashSign>,
    fold: &mut Fold,
) -> Result<(), Ending> {
    let disk = MemDisk::new(task.alloc, journal_of(task, config)?)?;
    fold.add_bytes(disk.bytes());
    if task.is_work {
        return open(task.alloc, config, disk, fold);
    }
    Ok(())
}

// The bytes of the journal for `reopen_journal`. It is flushed only after all events were accepted, so that each group has as many records
// as possible.
fn journal_of(task: Task, config: &Config<HashSign>) -> Result<Vec<u8>, Ending> {
    let mut kept = Vec::new(task.alloc);
    kept.push(CLOSED)?;
    let size = u64::MAX;
    let whole = Task { size, ..task };
    keep_all(whole, config, Step::Round, &mut kept, &mut Fold::new())?;
    Ok(kept)
}

// Opens the journal. Adds the node's round, and the length and the last digest of its order, to the checksum. That digest depends on all
// digests before it.
fn open(
    alloc: Global,
    config: &Config<HashSign>,
    disk: MemDisk,
    fold: &mut Fold,
) -> Result<(), Ending> {
    let (validator, _) = reopen(alloc, config, disk)?;
    fold.add(validator.round());
    fold.add(validator.order().len() as u64);
    if let Some(last) = validator.order().last() {
        fold.add_bytes(&last.0);
    }
    Ok(())
}
