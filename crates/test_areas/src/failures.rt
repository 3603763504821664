//! Openings of a journal on two areas during which a device call fails or the machine crashes, and what the next opening answers.

use crate::disks::{Areas, Disks, FILLS, Fill, longest, outcome};
use crate::openings::{reopened, reported};
use crate::words::{Reported, put, put_count};
use diskmodel::CallKind;
use std::alloc::{AllocError, Global};

/// Each kind of device call, with the name that answers use for it.
const KINDS: [(CallKind, &str); 4] = [
    (CallKind::Read, "read"),
    (CallKind::Write, "write"),
    (CallKind::Cut, "cut"),
    (CallKind::Sync, "sync"),
];

/// More calls of one kind than any opening makes: the loops over calls end here at the latest.
const MOST_CALLS: u64 = 32;

/// The areas on which a journal is opened, and the answer of an opening in which no call fails.
#[derive(Drop)]
pub struct Opening<'a> {
    alloc: Global,
    areas: &'a Areas,
    answer: String,
}

/// How many calls of one kind failed, and how often the next opening then answered as if none had failed, or answered something else.
#[derive(Clone, Copy)]
struct Count {
    calls: u64,
    same: u64,
    other: u64,
}

/// A device call of an opening: its kind, and its number among the calls of that kind, from 1.
type Call = (CallKind, u64);

impl<'a> Opening<'a> {
    /// Opens the journal on these areas once without a failure, to learn what later openings have to answer.
    pub fn new(alloc: Global, areas: &'a Areas) -> Result<Opening<'a>, AllocError> {
        let answer = reported(alloc, areas)?;
        Ok(Opening {
            alloc,
            areas,
            answer,
        })
    }

    /// Lets each device call of an opening fail in turn. Shows for each kind of call how many failed and what the next openings answered.
    /// The number of reads isn't shown, since how often the files are read is no part of the format.
    pub fn report(&self, answer: &mut String) -> Reported {
        for (kind, name) in KINDS {
            let count = self.counted(kind)?;
            put(answer, name);
            if matches!(kind, CallKind::Read) {
                put_reads(answer, count);
            } else {
                put_calls(answer, count);
            }
        }
        Ok(())
    }

    fn counted(&self, kind: CallKind) -> Result<Count, AllocError> {
        let mut count = Count {
            calls: 0,
            same: 0,
            other: 0,
        };
        for number in 1..MOST_CALLS {
            if !self.fails((kind, number), &mut count)? {
                break;
            }
        }
        Ok(count)
    }

    // Opens the journal with this call failing, and counts what openings after that answer. Returns whether the opening made the call.
    fn fails(&self, call: Call, count: &mut Count) -> Result<bool, AllocError> {
        let mut text = String::new(self.alloc);
        let disks = self.played(call, &mut text)?;
        if text.as_str() != "2 Device" {
            self.note(text.as_str() == self.answer.as_str(), count);
            return Ok(false);
        }
        count.calls = count.calls.saturating_add(1);
        for is_second in [false, true] {
            self.stop_each(&disks, call, is_second, count)?;
        }
        self.note(self.is_same(disks)?, count);
        Ok(true)
    }

    // The disks as an opening leaves them in which this call failed.
    fn played(&self, call: Call, text: &mut String) -> Result<Disks, AllocError> {
        let disks = Disks::of(self.alloc, self.areas)?;
        disks.fail(call.0, call.1);
        Ok(reopened(self.alloc, disks, text))
    }

    // Whether opening the journal on these disks gives the same answer as the opening in which no call fails.
    fn is_same(&self, disks: Disks) -> Result<bool, AllocError> {
        let mut text = String::new(self.alloc);
        let _ = reopened(self.alloc, disks, &mut text);
        Ok(text.as_str() == self.answer.as_str())
    }

    fn note(&self, is_same: bool, count: &mut Count) {
        if is_same {
            count.same = count.same.saturating_add(1);
        } else {
            count.other = count.other.saturating_add(1);
        }
    }

    // Crashes the machine at this call of an opening, once for each outcome that is tried of this area, and opens what is left.
    fn stop_each(&self, disks: &Disks, call: Call, is_second: bool, count: &mut Count) -> Reported {
        for (fill, _) in FILLS {
            self.stop_fill(disks, call, is_second, fill, count)?;
        }
        Ok(())
    }

    fn stop_fill(
        &self,
        disks: &Disks,
        call: Call,
        is_second: bool,
        fill: Fill,
        count: &mut Count,
    ) -> Reported {
        for length in 0..=longest(disks.of_area(is_second)) {
            if let Some(bytes) = outcome(self.alloc, disks.of_area(is_second), fill, length)? {
                self.stop(call, is_second, bytes, count)?;
            }
        }
        Ok(())
    }

    fn stop(&self, call: Call, is_second: bool, bytes: Vec<u8>, count: &mut Count) -> Reported {
        let mut text = String::new(self.alloc);
        let mut disks = self.played(call, &mut text)?;
        let is_left = disks.stop(is_second, bytes);
        let is_same = self.is_same(disks)?;
        self.note(is_left && is_same, count);
        Ok(())
    }
}

fn put_reads(answer: &mut String, count: Count) {
    if count.calls == 0 || count.other > 0 {
        put_count(answer, " fails ", count.calls, "");
        put_count(answer, ", then others ", count.other, "\n");
    } else {
        put(answer, " fails, then the same\n");
    }
}

fn put_calls(answer: &mut String, count: Count) {
    put_count(answer, " fails ", count.calls, "");
    put_count(answer, ", then the same ", count.same, "");
    if count.other > 0 {
        put_count(answer, ", others ", count.other, "");
    }
    put(answer, "\n");
}
