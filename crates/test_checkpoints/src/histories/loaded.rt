//! A validator that was loaded from the checkpoint's records of another one, and is then given the same events.

use crate::histories::answers::{answered, looked};
use crate::histories::counts::EVENTS;
use crate::loading::kept_records;
use sigface::HashSign;
use sim_script::{FormError, Labels};
use std::alloc::Global;
use test_cases::Reported;
use validator::Validator;

/// A validator that was loaded after some events. If its answer to an event differs from that of the validator from whose records it was
/// loaded, lines are added to the answer of the test, which then isn't the expected one.
#[derive(Drop)]
pub struct Loaded<'c> {
    alloc: Global,
    validator: Validator<'c, HashSign>,
    /// How many events the other validator had been given when this one was loaded.
    after: u64,
    /// How many more events this validator is to be given.
    left: u64,
}

impl<'c> Loaded<'c> {
    /// A validator that was loaded when the other one had been given this many events.
    pub fn new(alloc: Global, validator: Validator<'c, HashSign>, after: u64) -> Loaded<'c> {
        Loaded {
            alloc,
            validator,
            after,
            left: EVENTS,
        }
    }

    /// Whether the validator was given as many events as a loaded one is to be given.
    pub fn is_done(&self) -> bool {
        self.left == 0
    }

    /// Gives the validator the event of a line; its answer has to have these lines.
    pub fn take(
        &mut self,
        labels: &Labels,
        line: &str,
        before: u64,
        reported: &str,
        answer: &mut String,
    ) -> Result<(), FormError> {
        let own = answered(self.alloc, labels, &mut self.validator, line, before)?;
        self.left = self.left.saturating_sub(1);
        Ok(self.compare(own.lines.as_str(), reported, answer)?)
    }

    /// Shows something of the validator; it has to be shown as this line.
    pub fn look(
        &self,
        labels: &Labels,
        name: &str,
        reported: &str,
        answer: &mut String,
    ) -> Reported {
        let own = looked(self.alloc, labels, &self.validator, name)?;
        self.compare(own.as_str(), reported, answer)
    }

    fn compare(&self, own: &str, reported: &str, answer: &mut String) -> Reported {
        if own == reported {
            return Ok(());
        }
        writeln!(answer, "loaded after {}: {own}", self.after)
    }

    /// Compares the records of the validator's checkpoint with these records.
    pub fn compare_records(&self, records: &[Vec<u8>], answer: &mut String) -> Reported {
        if kept_records(&self.validator)?.as_slice() == records {
            return Ok(());
        }
        writeln!(answer, "loaded after {}: other records", self.after)
    }
}
