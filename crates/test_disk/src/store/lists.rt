//! Random lists of steps, carried out by the running code and by a model of plain lists side by side, and compared.

ghost use Rattle.std.specs.Prelude.{◌≡◌, ◌<◌, None, IfOk, IsNone};
ghost use Rattle.journal.specs.Journal.{spare_of, IsAlive};
ghost use Rattle.test_disk.specs.Way.{KeepsInFlight};

use crate::committees::OWN;
use crate::memory::{disk_with, stop_with, taken};
use crate::store::books::own_book;
use crate::store::draws::Draws;
use crate::store::events::{KINDS, SENDERS, body_of, kind_of, sender_of};
use crate::store::listed::Plain;
use crate::store::running::{accept, are_of, open_book};
use crate::store::stops::fails;
use crate::store::tally::{Leaves, Moment, Tally, count};
use crate::store::words::{Reported, put_count};
use book::OwnBook;
use diskmodel::{CallKind, Disk, MemDisk};
use journal::Journal;
use sigface::{HashSign, Sign};
use std::alloc::{AllocError, Global};
use std::collections::VecDeque;
use validator::Config;
use wire::{Output, header_digest};

/// The running code, and the model with which its answers are compared.
#[derive(Drop)]
pub struct Lists<'a> {
    alloc: Global,
    config: &'a Config<HashSign>,
    draws: Draws,
    disk: MemDisk,
    book: OwnBook<'a, HashSign>,
    plain: Plain,
    tally: Tally,
    /// How many answers of the running code differed from the model's.
    wrong: u64,
}

impl<'a> Lists<'a> {
    /// The running code and the model, both on an empty disk; the steps are drawn from this start value.
    pub fn new(
        alloc: Global,
        config: &'a Config<HashSign>,
        start: u64,
    ) -> Result<Lists<'a>, AllocError> {
        Ok(Lists {
            alloc,
            config,
            draws: Draws::from(start),
            disk: disk_with(alloc, &[])?,
            book: own_book(alloc, config)?,
            plain: Plain::new(alloc),
            tally: Tally::new(),
            wrong: 0,
        })
    }

    /// Draws and makes this many steps, beginning with an empty disk.
    pub fn play(&mut self, steps: u64) -> Reported {
        self.disk = disk_with(self.alloc, &[])?;
        self.plain = Plain::new(self.alloc);
        self.stop(Moment::Idle, 0)?;
        for _ in 0..steps {
            let reported = match self.draws.below(16) {
                0..=7 => self.accept(),
                8..=10 => self.release(),
                11 => self.release_some(),
                12..=14 => self.flush(),
                _ => self.stop(Moment::Idle, 0),
            };
            reported?;
        }
        Ok(())
    }

    /// Adds the counts of steps, and how many answers were wrong.
    pub fn write_to(&self, answer: &mut String) -> Reported {
        self.tally.write_to(answer);
        put_count(answer, "wrong ", self.wrong, "\n");
        Ok(())
    }

    fn differs(&mut self)
        ensures book { self.new.book ≡ self.old.book }
    {
        self.wrong = self.wrong.saturating_add(1);
    }

    fn expect(&mut self, holds: bool)
        ensures book { self.new.book ≡ self.old.book }
    {
        if !holds {
            self.differs();
        }
    }

    /// Gives an event to the running code and to the model.
    fn accept(&mut self) -> Reported
        ensures { KeepsInFlight ⟦<HashSign as Sign>⟧.scheme self.old.book self.new.book }
    {
        let number = self.draws.below(SENDERS * KINDS);
        let expected = self.plain.accept(number)?;
        let answer = accept(&mut self.book, self.alloc, number)?;
        self.expect(answer == Some(expected));
        self.tally.add_answer(expected);
        Ok(())
    }

    /// Lets the next output leave the node, if one may leave, and compares it with the model's.
    fn release(&mut self) -> Reported
        ensures { KeepsInFlight ⟦<HashSign as Sign>⟧.scheme self.old.book self.new.book }
    {
        let expected = self.plain.release()?;
        let same = is_expected(self.alloc, self.book.release(), expected)?;
        self.expect(same);
        self.tally.add_release(expected.is_some());
        Ok(())
    }

    /// As many outputs as there is room for go out at once, if so many may: the model lets them go one by one.
    fn release_some(&mut self) -> Reported {
        let room = self.draws.below(4);
        let mut outputs = VecDeque::with_capacity(self.alloc, room as usize)?;
        self.book.release_into(&mut outputs);
        for _ in 0..room {
            let expected = self.plain.release()?;
            let same = is_expected(self.alloc, outputs.pop_front(), expected)?;
            self.expect(same);
            self.tally.add_release(expected.is_some());
        }
        self.expect(outputs.is_empty());
        Ok(())
    }

    /// Makes steps while a group is in flight: events come in, and outputs leave.
    fn beside(&mut self) -> Reported
        ensures { KeepsInFlight ⟦<HashSign as Sign>⟧.scheme self.old.book self.new.book }
    {
        self.accept()?;
        self.release()
    }

    /// Takes a group and appends it; the append may fail at any of its device calls. Then settles the group, unless the machine stops. A
    /// second group may follow on the same journal.
    fn flush(&mut self) -> Reported {
        let (has_pending, pending) = (self.book.has_pending(), self.plain.pending());
        self.expect(has_pending == (pending > 0));
        if has_pending {
            self.flush_pending()
        } else {
            Ok(())
        }
    }

    fn flush_pending(&mut self) -> Reported {
        let gate = self.disk.bytes().len().saturating_sub(1);
        let failing = moment_of(self.draws.below(12));
        arm(&mut self.disk, failing)?;
        match Journal::open(self.alloc, self.taken_disk()?) {
            Ok((journal, _)) => self.write_groups(journal, failing, gate),
            Err(failed) => {
                self.disk = failed.disk;
                self.differs();
                Ok(())
            }
        }
    }

    /// Takes a group and appends it, and then perhaps a second group. If the machine is to stop in that, stops it.
    fn write_groups(
        &mut self,
        mut journal: Journal<MemDisk>,
        failing: Option<Moment>,
        gate: usize,
    ) -> Reported
        requires alive { IsAlive ⟦<MemDisk as Disk>⟧.device journal }
        requires alone { spare_of journal ≡ None }
    {
        let mut written = self.write(&mut journal, failing);
        if matches!(written, Ok(None)) && self.book.has_pending() {
            written = self.write(&mut journal, None);
        }
        self.disk = journal.into_disk();
        match written? {
            Some(moment) => self.stop(moment, gate),
            None => Ok(()),
        }
    }

    /// Takes a group and appends it. Returns at which moment the machine is to stop, if it is to stop.
    fn write(
        &mut self,
        journal: &mut Journal<MemDisk>,
        failing: Option<Moment>,
    ) -> Result<Option<Moment>, AllocError>
        requires alive { IsAlive ⟦<MemDisk as Disk>⟧.device journal.old }
        requires alone { spare_of journal.old ≡ None }
        ensures alive { IfOk result (λ moment. IsNone moment → IsAlive ⟦<MemDisk as Disk>⟧.device journal.new) }
        ensures alone { spare_of journal.new ≡ None }
    {
        if !self.book.is_settled() {
            self.differs();
            return Ok(Some(Moment::Idle));
        }
        let Some(group) = self.book.take()? else {
            self.differs();
            return Ok(Some(Moment::Idle));
        };
        let pending = self.plain.pending();
        self.expect(group.records_count() == pending as u64);
        self.plain.take();
        count(&mut self.tally.taken);
        let before = self.beside();
        match journal.append(group) {
            Ok(synced) => {
                let after = self.beside();
                self.expect(failing.is_none());
                if self.draws.below(8) == 0 {
                    let _ = synced.records();
                    before?;
                    after?;
                    return Ok(Some(Moment::Durable));
                }
                self.book.settle(synced);
                self.plain.settle();
                count(&mut self.tally.settled);
                before?;
                after?;
                Ok(None)
            }
            Err(_) => {
                self.book.fail();
                self.plain.fail();
                count(&mut self.tally.failed);
                before?;
                self.beside()?;
                self.expect(failing.is_some());
                Ok(Some(failing.unwrap_or(Moment::Taken)))
            }
        }
    }

    fn taken_disk(&mut self) -> Result<MemDisk, AllocError>
        ensures book { self.new.book ≡ self.old.book }
    {
        taken(self.alloc, &mut self.disk)
    }

    /// The machine stops and the node is opened again. `gate` is the place of the gate of the group in flight.
    fn stop(&mut self, moment: Moment, gate: usize) -> Reported {
        self.tally.add_stop(moment);
        let mut leaves_taken = self.leave(moment, gate)?;
        if self.draws.below(4) == 0 && self.fail_to_open()? {
            leaves_taken = self.leave(moment, gate)?;
        }
        self.plain.stop(leaves_taken);
        self.open()
    }

    /// Lets a stop leave any bytes on the disk that it can leave; returns whether the group that was taken is among these.
    fn leave(&mut self, moment: Moment, gate: usize) -> Result<bool, AllocError> {
        let leaves = leaves_of(self.draws.below(3));
        let found = self.outcome(leaves)?;
        let open = is_open(&found, gate);
        self.tally.add_outcome(moment, leaves, open);
        self.stop_disk(&found)?;
        Ok(match moment {
            Moment::Opened => open,
            Moment::Durable => true,
            _ => false,
        })
    }

    /// Bytes of this kind that a stop may leave on the disk.
    fn outcome(&mut self, leaves: Leaves) -> Result<Vec<u8>, AllocError> {
        match leaves {
            Leaves::Read => self.disk.bytes().to_vec(self.alloc),
            Leaves::Lost => self.disk.durable().to_vec(self.alloc),
            Leaves::Torn => torn(self.alloc, &self.disk, &mut self.draws),
        }
    }

    /// Stops the machine so that these bytes are left on the disk.
    fn stop_disk(&mut self, found: &[u8]) -> Reported {
        stop_with(self.alloc, &mut self.disk, found)?;
        let left = self.disk.bytes() == found;
        self.expect(left);
        Ok(())
    }

    /// Opens the node with one of the opening's device calls set to fail; returns whether that call was made. If so the disk is as the
    /// failed opening left it, and a stop may follow.
    fn fail_to_open(&mut self) -> Result<bool, AllocError> {
        let call = self.draws.below(5);
        let (kind, count) = opening_call(call);
        self.disk.fail(kind, count)?;
        match open_book(self.alloc, self.config, self.taken_disk()?) {
            Ok((_, journal)) => {
                self.disk = journal.into_disk();
                spend(&mut self.disk, kind);
                Ok(false)
            }
            Err(failed) => {
                self.disk = failed.disk;
                self.tally.add_fault(call as usize);
                Ok(true)
            }
        }
    }

    /// Opens the node; its journal has to have the records of the model's history.
    fn open(&mut self) -> Reported {
        match open_book(self.alloc, self.config, self.taken_disk()?) {
            Ok((book, journal)) => {
                self.book = book;
                self.disk = journal.into_disk();
                self.compare()
            }
            Err(failed) => {
                self.disk = failed.disk;
                self.differs();
                Ok(())
            }
        }
    }

    /// Compares the journal of the node that was opened with the model.
    fn compare(&mut self) -> Reported {
        let (right, keeps) = (self.has_plain_records()?, self.plain.keeps_what_it_gave());
        self.expect(right && keeps);
        count(&mut self.tally.opened);
        Ok(())
    }

    /// Whether the journal has the records of the model's history.
    fn has_plain_records(&mut self) -> Result<bool, AllocError> {
        match Journal::open(self.alloc, self.taken_disk()?) {
            Ok((journal, records)) => {
                self.disk = journal.into_disk();
                are_of(self.alloc, &records, &self.plain.history)
            }
            Err(failed) => {
                self.disk = failed.disk;
                Ok(false)
            }
        }
    }
}

/// Whether the output is that of the event with this number. If no event is given: whether there is no output.
fn is_expected(
    alloc: Global,
    output: Option<Output>,
    expected: Option<u64>,
) -> Result<bool, AllocError> {
    match (output, expected) {
        (Some(output), Some(number)) => is_vote_for(alloc, &output, number),
        (None, None) => Ok(true),
        _ => Ok(false),
    }
}

/// Whether the output is the node's vote for the header with this number.
fn is_vote_for(alloc: Global, output: &Output, number: u64) -> Result<bool, AllocError> {
    let Output::Vote(vote) = output else {
        return Ok(false);
    };
    let body = body_of(alloc, sender_of(number), kind_of(number))?;
    Ok(
        vote.header == header_digest(&body)
            && vote.round == body.round
            && vote.author == body.author
            && vote.voter == OWN,
    )
}

/// Makes calls of this kind, which change nothing, until one fails: then no call is set to fail any more.
fn spend(disk: &mut MemDisk, kind: CallKind) {
    for _ in 0..3 {
        if fails(disk, kind) {
            return;
        }
    }
}

fn leaves_of(number: u64) -> Leaves {
    match number {
        0 => Leaves::Read,
        1 => Leaves::Lost,
        _ => Leaves::Torn,
    }
}

fn is_open(bytes: &[u8], gate: usize) -> bool {
    matches!(bytes.get(gate), Some(byte) if *byte != 0)
}

/// One of the five device calls of an opening, as its kind and its number among the calls of that kind.
fn opening_call(number: u64) -> (CallKind, u64) {
    match number {
        0 => (CallKind::Sync, 1),
        1 => (CallKind::Read, 1),
        2 => (CallKind::Write, 1),
        3 => (CallKind::Cut, 1),
        _ => (CallKind::Sync, 2),
    }
}

/// The moment at which an append is to fail, by a number that was drawn; None if it isn't to fail.
fn moment_of(number: u64) -> Option<Moment> {
    match number {
        0 => Some(Moment::Taken),
        1 => Some(Moment::Written),
        2 => Some(Moment::Synced),
        3 => Some(Moment::Opened),
        _ => None,
    }
}

/// Sets the device call of an append to fail that comes after this moment. The opening before the append makes one sync.
fn arm(disk: &mut MemDisk, failing: Option<Moment>) -> Reported {
    match failing {
        Some(Moment::Taken) => disk.fail(CallKind::Write, 1),
        Some(Moment::Written) => disk.fail(CallKind::Sync, 2),
        Some(Moment::Synced) => disk.fail(CallKind::Write, 2),
        Some(Moment::Opened) => disk.fail(CallKind::Sync, 3),
        _ => Ok(()),
    }
}

/// Any bytes that a stop may leave: their length is between that of the last sync and the current one. Each place that was written since
/// the last sync, or is past the smaller of both lengths, holds any byte, more often a closed gate than others.
fn torn(alloc: Global, disk: &MemDisk, draws: &mut Draws) -> Result<Vec<u8>, AllocError> {
    let (durable, read) = (disk.durable(), disk.bytes().len());
    let (smallest, greatest) = (durable.len().min(read), durable.len().max(read));
    let more = greatest.saturating_sub(smallest) as u64;
    let len = smallest.saturating_add(draws.below(more.saturating_add(1)) as usize);
    let mut found = Vec::new(alloc);
    for place in 0..len {
        match durable.get(place) {
            Some(byte) if place < smallest && !disk.is_written(place as u64) => found.push(*byte)?,
            _ if draws.below(2) == 0 => found.push(0)?,
            _ => found.push(draws.below(256) as u8)?,
        }
    }
    Ok(found)
}
