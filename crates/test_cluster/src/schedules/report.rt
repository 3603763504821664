//! The report on the moves of schedules.

use super::schedule::{Answered, Schedule};
use crate::reporting::report_move;
use cluster::{Applied, ClusterError};
use std::alloc::Global;
use std::collections::BTreeMap;
use test_cases::{Reported, put};
use validator::Refusal;
use wire::Author;

/// Counts of the moves of schedules by their answers, and a checksum over all answers.
#[derive(Drop)]
pub struct Report {
    alloc: Global,
    /// How many moves of a kind had an answer, for each kind and answer, written as text.
    counts: BTreeMap<String, u64>,
    line: String,
    sum: u64,
    stops: u64,
    equivocations: u64,
    lost: u64,
    growths: u64,
    longest: usize,
    grown: u64,
    /// In how many of the schedules in which some node ordered a certificate all premises of the laws on agreement hold.
    fair: u64,
    /// In how many schedules each of these things happened; `Marks` says what they are.
    unlike: u64,
    skipped: u64,
    dishonest: u64,
    risen: u64,
    wrong: u64,
    /// The start value of the first schedule in which two orders contradicted each other, or an order was taken back.
    first_wrong: Option<u64>,
}

impl Report {
    /// The report before the first move.
    pub fn new(alloc: Global) -> Report {
        Report {
            alloc,
            counts: BTreeMap::new(alloc),
            line: String::new(alloc),
            sum: 14_695_981_039_346_656_037,
            stops: 0,
            equivocations: 0,
            lost: 0,
            growths: 0,
            longest: 0,
            grown: 0,
            fair: 0,
            unlike: 0,
            skipped: 0,
            dishonest: 0,
            risen: 0,
            wrong: 0,
            first_wrong: None,
        }
    }

    /// Counts a move and adds its answer to the checksum.
    pub fn count(&mut self, answered: &Answered) -> Reported {
        self.add_line(answered);
        match answered.outcome {
            Ok(Applied::Reopened(_)) => increase(&mut self.stops),
            Ok(Applied::Refused(Refusal::Equivocation)) => increase(&mut self.equivocations),
            _ => {}
        }
        self.line.clear();
        put(&mut self.line, answered.kind);
        put(&mut self.line, ": ");
        put_short(&mut self.line, answered.outcome);
        self.count_line()
    }

    fn add_line(&mut self, answered: &Answered) {
        self.line.clear();
        put(&mut self.line, answered.kind);
        put(&mut self.line, ": ");
        report_move(&mut self.line, answered.outcome);
        self.sum = added(self.sum, self.line.as_bytes());
    }

    fn count_line(&mut self) -> Reported {
        if let Some(count) = self.counts.get_mut(self.line.as_str()) {
            increase(count);
            return Ok(());
        }
        let line = String::from_str(self.alloc, self.line.as_str())?;
        self.counts.insert(line, 1)?;
        Ok(())
    }

    /// Counts a move after which a node's order was longer.
    pub fn grow(&mut self) {
        increase(&mut self.growths);
    }

    /// Notes that something was wrong in the schedule with this start value: of two nodes' orders none is a prefix of the other, or a
    /// node's new order doesn't begin with its former one.
    pub fn go_wrong(&mut self, start: u64) {
        increase(&mut self.wrong);
        if self.first_wrong.is_none() {
            self.first_wrong = Some(start);
        }
    }

    /// Counts what happened in a schedule that has ended.
    pub fn end(&mut self, schedule: &Schedule<'_>) {
        self.lost = self.lost.saturating_add(schedule.lost);
        let mut any = false;
        for node in 0..schedule.honest.count() {
            let order = schedule.order(Author(node));
            self.longest = self.longest.max(order.len());
            any = any || !order.is_empty();
            for digest in order {
                self.sum = added(self.sum, &digest.0);
            }
        }
        count_if(&mut self.grown, any);
        count_if(&mut self.fair, any && schedule.premises.hold());
        count_if(&mut self.unlike, schedule.marks.unlike);
        count_if(&mut self.skipped, schedule.marks.skipped);
        count_if(&mut self.dishonest, schedule.marks.dishonest);
        count_if(&mut self.risen, schedule.marks.risen);
    }

    /// Shows the whole report.
    pub fn write_to(&self, start: u64, answer: &mut String) {
        let _ = writeln!(answer, "start {start}");
        for (line, count) in &self.counts {
            let _ = writeln!(answer, "{line} {count}");
        }
        report_count(answer, "stops", self.stops);
        report_count(answer, "equivocations", self.equivocations);
        report_count(answer, "deliveries lost", self.lost);
        report_count(answer, "growths of orders", self.growths);
        report_count(answer, "longest order", self.longest as u64);
        report_count(answer, "schedules with orders", self.grown);
        report_count(answer, "of these with all premises of agreement", self.fair);
        report_count(
            answer,
            "schedules with orders of unlike length",
            self.unlike,
        );
        report_count(answer, "schedules with waves skipped", self.skipped);
        report_count(answer, "schedules with dishonest leaders", self.dishonest);
        report_count(answer, "schedules with floors risen", self.risen);
        report_count(answer, "sum", self.sum);
        self.report_wrong(answer);
    }

    fn report_wrong(&self, answer: &mut String) {
        let wrong = self.wrong;
        let _ = match self.first_wrong {
            Some(start) => writeln!(answer, "wrong {wrong}, first in the schedule from {start}"),
            None => writeln!(answer, "wrong {wrong}"),
        };
    }
}

fn report_count(answer: &mut String, name: &str, count: u64) {
    let _ = writeln!(answer, "{name} {count}");
}

fn increase(count: &mut u64) {
    *count = count.saturating_add(1);
}

fn count_if(count: &mut u64, holds: bool) {
    if holds {
        increase(count);
    }
}

// Adds bytes to a checksum, FNV-1a of 64 bits.
fn added(sum: u64, bytes: &[u8]) -> u64 {
    bytes.iter().fold(sum, |sum, byte| {
        (sum ^ u64::from(*byte)).wrapping_mul(1_099_511_628_211)
    })
}

// Writes the answer to a move to the line, without the numbers in it.
fn put_short(line: &mut String, outcome: Result<Applied, ClusterError>) {
    match outcome {
        Ok(Applied::Took { new: true, .. }) => put(line, "took new"),
        Ok(Applied::Took { new: false, .. }) => put(line, "took known"),
        Ok(Applied::Settled(_)) => put(line, "settled"),
        Ok(Applied::Reopened(_)) => put(line, "reopened"),
        Ok(Applied::Refused(refusal)) => {
            let _ = write!(line, "refused {refusal}");
        }
        Ok(Applied::Unchecked(error)) => {
            let _ = write!(line, "unchecked {error}");
        }
        Ok(Applied::Fault(error)) => {
            let _ = write!(line, "fault {error}");
        }
        Err(error) => {
            let _ = write!(line, "error {error}");
        }
    }
}
