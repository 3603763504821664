//! A validator that is loaded from the records of its own checkpoint, while the lines of a test case are played.

use crate::definitions::looking::number;
use crate::definitions::validating::seen::seen_of;
use crate::definitions::validating::sum::Sum;
use crate::definitions::validating::tally::counts;
use checkpoint::LoadError;
use sigface::HashSign;
use sim_script::FormError;
use std::alloc::{AllocError, Global};
use validator::{Config, Validator};

/// How many records a checkpoint is expected to have, and the checksum that is expected over them.
#[derive(Clone, Copy)]
pub struct Expected {
    count: u64,
    sum: u64,
}

impl Expected {
    /// The expectation that these words give.
    pub fn of(count: &str, sum: &str) -> Expected {
        Expected {
            count: number(count),
            sum: number(sum),
        }
    }

    fn is_met(&self, records: &[Vec<u8>]) -> bool {
        let mut sum = Sum::new();
        for record in records {
            sum.add_record(record);
        }
        records.len() as u64 == self.count && sum.value() == self.sum
    }
}

/// At how many states a validator was loaded, how many of these states had a floor above 0, and how many had no committed leader.
#[derive(Clone, Copy)]
pub struct Loads {
    states: u64,
    above_floors: u64,
    leaderless: u64,
}

impl Loads {
    /// The counts before the first state: all are 0.
    pub fn new() -> Loads {
        Loads {
            states: 0,
            above_floors: 0,
            leaderless: 0,
        }
    }

    /// Counts the state of a validator that is loaded.
    pub fn count(&mut self, validator: &Validator<'_, HashSign>) {
        let seen = seen_of(validator);
        self.states = self.states.saturating_add(1);
        self.above_floors = self.above_floors.saturating_add(u64::from(seen.floor > 0));
        self.leaderless = self
            .leaderless
            .saturating_add(u64::from(seen.order.is_empty()));
    }

    /// Shows the counts.
    pub fn report(&self, answer: &mut String) -> Result<(), AllocError> {
        let found = [
            ("loaded", self.states),
            ("above a floor", self.above_floors),
            ("without a leader", self.leaderless),
        ];
        counts(&found, answer)
    }
}

/// Whether the records of a validator's checkpoint are as expected.
pub fn has_records(
    validator: &Validator<'_, HashSign>,
    expected: Expected,
) -> Result<bool, AllocError> {
    Ok(expected.is_met(&validator.kept_records()?))
}

/// The validator that is loaded from the records of this one, if loading succeeds.
pub fn loaded_again<'c>(
    alloc: Global,
    config: &'c Config<HashSign>,
    validator: &Validator<'_, HashSign>,
) -> Result<Option<Validator<'c, HashSign>>, FormError> {
    match Validator::load(alloc, config, validator.kept_records()?) {
        Ok(loaded) => Ok(Some(loaded)),
        Err(LoadError::Memory) => Err(FormError::Memory),
        Err(_) => Ok(None),
    }
}
