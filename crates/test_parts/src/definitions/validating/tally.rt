//! How often a validator gave each answer.

use crate::definitions::validating::sum::number_of;
use header::Refusal;
use std::alloc::AllocError;
use validator::Step;
use wire::Output;

/// The numbers of refusals are below this one.
const REFUSALS: usize = 15;

/// How often each answer came, how often an output was a piece of the order, and how often a header was proposed.
#[derive(Clone, Copy)]
pub struct Tally {
    new: u64,
    known: u64,
    refused: [u64; REFUSALS],
    pieces: u64,
    proposals: u64,
}

impl Tally {
    /// The counts before the first answer: all are 0.
    pub fn new() -> Tally {
        Tally {
            new: 0,
            known: 0,
            refused: [0; REFUSALS],
            pieces: 0,
            proposals: 0,
        }
    }

    /// Counts an answer.
    pub fn count(&mut self, step: &Result<Step, Refusal>) {
        match step {
            Ok(Step::New(outputs)) => {
                self.new = self.new.saturating_add(1);
                self.count_pieces(outputs);
            }
            Ok(Step::Known(_)) => self.known = self.known.saturating_add(1),
            Err(refusal) => self.count_refused(*refusal),
        }
    }

    fn count_pieces(&mut self, outputs: &[Output]) {
        for output in outputs {
            if matches!(output, Output::Order { .. }) {
                self.pieces = self.pieces.saturating_add(1);
            }
        }
    }

    fn count_refused(&mut self, refusal: Refusal) {
        if let Some(count) = self.refused.get_mut(number_of(refusal) as usize) {
            *count = count.saturating_add(1);
        }
    }

    /// Counts a proposed header, if there is one.
    pub fn count_proposal(&mut self, is_there: bool) {
        if is_there {
            self.proposals = self.proposals.saturating_add(1);
        }
    }

    /// Shows how often each answer came, without the refusals that never came.
    pub fn report(&self, answer: &mut String) -> Result<(), AllocError> {
        counts(&[("new", self.new), ("known", self.known)], answer)?;
        self.report_refused(answer)?;
        let (pieces, proposals) = (self.pieces, self.proposals);
        let made = [("pieces of the order", pieces), ("proposals", proposals)];
        counts(&made, answer)
    }

    fn report_refused(&self, answer: &mut String) -> Result<(), AllocError> {
        for number in 1..REFUSALS {
            let count = self.refused.get(number).copied().unwrap_or(0);
            if count > 0 {
                writeln!(answer, "refused {number}: {count}")?;
            }
        }
        Ok(())
    }
}

/// A line of words, each with a number after it, separated by commas.
pub fn counts(list: &[(&str, u64)], answer: &mut String) -> Result<(), AllocError> {
    let mut mark = "";
    for (word, number) in list {
        write!(answer, "{mark}{word} {number}")?;
        mark = ", ";
    }
    answer.push_str("\n")
}
