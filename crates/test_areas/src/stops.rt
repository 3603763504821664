//! Rewritings of a journal that a crash of the machine or a failed device call ends, and what the next openings find.

use crate::disks::{Areas, Disks, FILLS, Fill, longest, longest_outcome, outcome};
use crate::openings::{reopened, reported};
use crate::rewritings::{Checkpoint, Fault, rewritten};
use crate::words::{Reported, put, put_count};
use diskmodel::CallKind;
use std::alloc::{AllocError, Global};

/// The eight device calls of a rewriting in their order. Each is named by its kind and its number among the calls of that kind.
const CALLS: [(CallKind, u64); 8] = [
    (CallKind::Write, 1),
    (CallKind::Sync, 1),
    (CallKind::Cut, 1),
    (CallKind::Sync, 2),
    (CallKind::Write, 2),
    (CallKind::Sync, 3),
    (CallKind::Write, 3),
    (CallKind::Sync, 4),
];

/// More calls of one kind than any opening makes: the loops over calls end here at the latest.
const MOST_CALLS: u64 = 32;

/// A rewriting of a journal to a checkpoint, and what an opening answers before it and after it.
#[derive(Drop)]
pub struct Trial<'a> {
    alloc: Global,
    areas: &'a Areas,
    checkpoint: Checkpoint<'a>,
    /// Whether the area that is written is the second one.
    is_second: bool,
    before: String,
    after: String,
}

/// How many openings found the records from before the rewriting, how many found those of the checkpoint, and how many something else.
#[derive(Clone, Copy)]
struct Found {
    old: u64,
    new: u64,
    other: u64,
}

impl Found {
    fn none() -> Found {
        Found {
            old: 0,
            new: 0,
            other: 0,
        }
    }
}

impl<'a> Trial<'a> {
    /// Opens the journal on these areas before and after a rewriting without a failure, to learn what later openings may find.
    pub fn new(
        alloc: Global,
        areas: &'a Areas,
        checkpoint: Checkpoint<'a>,
        is_second: bool,
    ) -> Result<Trial<'a>, AllocError> {
        let before = reported(alloc, areas)?;
        let disks = Disks::of(alloc, areas)?;
        let mut text = String::new(alloc);
        let disks = rewritten(alloc, disks, checkpoint, Fault::none(), &mut text)?;
        let after = reported(alloc, &Areas::on(alloc, &disks)?)?;
        Ok(Trial {
            alloc,
            areas,
            checkpoint,
            is_second,
            before,
            after,
        })
    }

    /// Crashes the machine after each number of device calls of the rewriting, and shows what openings of the journal then find.
    pub fn report_stops(&self, answer: &mut String) -> Reported {
        for done in 0..=CALLS.len() {
            self.report_moment(done, answer)?;
        }
        Ok(())
    }

    fn report_moment(&self, done: usize, answer: &mut String) -> Reported {
        put_count(answer, "after call ", done as u64, "");
        for (fill, name) in FILLS {
            put(answer, ", ");
            put(answer, name);
            put_found(answer, self.found(done, fill)?);
        }
        put(answer, "\n");
        Ok(())
    }

    // What openings find after crashes that leave each possible length of the written area, with lost places filled this way.
    fn found(&self, done: usize, fill: Fill) -> Result<Found, AllocError> {
        let mut found = Found::none();
        let disks = self.stopped(done)?;
        for length in 0..=longest(disks.of_area(self.is_second)) {
            self.count(&disks, done, fill, length, &mut found)?;
        }
        Ok(found)
    }

    // The disks after this many device calls of the rewriting; the next call fails.
    fn stopped(&self, done: usize) -> Result<Disks, AllocError> {
        let mut text = String::new(self.alloc);
        self.played(done, &mut text)
    }

    fn played(&self, done: usize, text: &mut String) -> Result<Disks, AllocError> {
        let fault = match CALLS.get(done) {
            Some((kind, count)) => Fault {
                kind: *kind,
                count: *count,
            },
            None => Fault::none(),
        };
        let disks = Disks::of(self.alloc, self.areas)?;
        rewritten(self.alloc, disks, self.checkpoint, fault, text)
    }

    // Counts what an opening finds after a crash that leaves bytes of this length. Counts nothing if a crash can't leave so many bytes.
    fn count(
        &self,
        disks: &Disks,
        done: usize,
        fill: Fill,
        length: usize,
        found: &mut Found,
    ) -> Reported {
        let disk = disks.of_area(self.is_second);
        let Some(bytes) = outcome(self.alloc, disk, fill, length)? else {
            return Ok(());
        };
        let mut again = self.stopped(done)?;
        let is_left = again.stop(self.is_second, bytes);
        let mut text = String::new(self.alloc);
        let _ = reopened(self.alloc, again, &mut text);
        self.note(is_left, text.as_str(), found);
        Ok(())
    }

    fn note(&self, is_left: bool, text: &str, found: &mut Found) {
        if is_left && text == self.before.as_str() {
            found.old = found.old.saturating_add(1);
        } else if is_left && text == self.after.as_str() {
            found.new = found.new.saturating_add(1);
        } else {
            found.other = found.other.saturating_add(1);
        }
    }

    /// Lets each device call of the rewriting fail in turn, and shows the rewriting's answer and what the next opening finds.
    pub fn report_failures(&self, answer: &mut String) -> Reported {
        for done in 0..CALLS.len() {
            self.report_failure(done, answer)?;
        }
        Ok(())
    }

    fn report_failure(&self, done: usize, answer: &mut String) -> Reported {
        put_count(answer, "call ", done.saturating_add(1) as u64, ": ");
        let disks = self.played(done, answer)?;
        let mut text = String::new(self.alloc);
        let _ = reopened(self.alloc, disks, &mut text);
        let mut found = Found::none();
        self.note(true, text.as_str(), &mut found);
        put(answer, ", then");
        put_found(answer, found);
        put(answer, "\n");
        Ok(())
    }

    /// Crashes the machine twice: after each number of device calls of the rewriting, and then at each call by which the next opening
    /// writes, cuts or syncs. Shows what the last opening finds.
    pub fn report_seconds(&self, answer: &mut String) -> Reported {
        for done in 0..=CALLS.len() {
            self.report_second(done, answer)?;
        }
        Ok(())
    }

    fn report_second(&self, done: usize, answer: &mut String) -> Reported {
        let mut found = Found::none();
        for (fill, _) in FILLS {
            self.stop_openings(done, fill, &mut found)?;
        }
        put_count(answer, "after call ", done as u64, ": ");
        put_kinds(answer, found);
        Ok(())
    }

    fn stop_openings(&self, done: usize, fill: Fill, found: &mut Found) -> Reported {
        for kind in [CallKind::Write, CallKind::Cut, CallKind::Sync] {
            self.stop_kind(done, fill, kind, found)?;
        }
        Ok(())
    }

    fn stop_kind(&self, done: usize, fill: Fill, kind: CallKind, found: &mut Found) -> Reported {
        for count in 1..MOST_CALLS {
            if !self.stop_opening(done, fill, Fault { kind, count }, found)? {
                break;
            }
        }
        Ok(())
    }

    // Crashes the machine a second time, at this call of the opening after the first crash. Returns whether that opening made the call.
    fn stop_opening(
        &self,
        done: usize,
        fill: Fill,
        fault: Fault,
        found: &mut Found,
    ) -> Result<bool, AllocError> {
        let mut text = String::new(self.alloc);
        let _ = self.opened(done, fill, fault, &mut text)?;
        if text.as_str() != "2 Device" {
            self.note(true, text.as_str(), found);
            return Ok(false);
        }
        for (next, _) in FILLS {
            self.stop_again(done, fill, fault, next, found)?;
        }
        Ok(true)
    }

    fn stop_again(
        &self,
        done: usize,
        fill: Fill,
        fault: Fault,
        next: Fill,
        found: &mut Found,
    ) -> Reported {
        let mut text = String::new(self.alloc);
        let mut disks = self.opened(done, fill, fault, &mut text)?;
        let Some(bytes) = longest_outcome(self.alloc, disks.of_area(self.is_second), next)? else {
            return Ok(());
        };
        let is_left = disks.stop(self.is_second, bytes);
        text.clear();
        let _ = reopened(self.alloc, disks, &mut text);
        self.note(is_left, text.as_str(), found);
        Ok(())
    }

    // The disks after a first crash, and then an opening in which this call fails.
    fn opened(
        &self,
        done: usize,
        fill: Fill,
        fault: Fault,
        text: &mut String,
    ) -> Result<Disks, AllocError> {
        let mut disks = self.stopped(done)?;
        let left = longest_outcome(self.alloc, disks.of_area(self.is_second), fill)?;
        if let Some(bytes) = left {
            let _ = disks.stop(self.is_second, bytes);
        }
        disks.fail(fault.kind, fault.count);
        Ok(reopened(self.alloc, disks, text))
    }
}

// Adds how many openings there were, and which records they found.
fn put_kinds(answer: &mut String, found: Found) {
    let count = found.old.saturating_add(found.new);
    put_count(answer, "openings ", count, "");
    put(answer, if found.old > 0 { ", old" } else { "" });
    put(answer, if found.new > 0 { ", new" } else { "" });
    put_some(answer, ", others ", found.other);
    put(answer, "\n");
}

fn put_found(answer: &mut String, found: Found) {
    put_some(answer, " old ", found.old);
    put_some(answer, " new ", found.new);
    put_some(answer, " other ", found.other);
}

fn put_some(answer: &mut String, name: &str, count: u64) {
    if count > 0 {
        put_count(answer, name, count, "");
    }
}
