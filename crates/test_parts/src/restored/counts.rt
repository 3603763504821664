//! At how many states a node's tables were taken apart and restored, by the kind of the state.

use std::alloc::AllocError;

/// How many states there have to be at least: of all kinds together, of those with a floor above 0, and of those without a committed
/// leader.
const LEAST: u64 = 300;

const LEAST_ABOVE: u64 = 100;

const LEAST_WITHOUT_LEADER: u64 = 20;

/// At how many states tables were restored: of all kinds, of those with a floor above 0, and of those without a committed leader; and how
/// often an allocation failed while tables were restored.
#[derive(Clone, Copy)]
pub struct Counts {
    states: u64,
    above: u64,
    without_leader: u64,
    refused: u64,
}

impl Counts {
    /// The counts before the first state: all are 0.
    pub fn new() -> Counts {
        Counts {
            states: 0,
            above: 0,
            without_leader: 0,
            refused: 0,
        }
    }

    /// Counts a state with this floor, and with a committed leader or without one.
    pub fn count(&mut self, floor: u64, has_leader: bool) {
        self.states = self.states.saturating_add(1);
        if floor > 0 {
            self.above = self.above.saturating_add(1);
        }
        if !has_leader {
            self.without_leader = self.without_leader.saturating_add(1);
        }
    }

    /// Counts a failed allocation.
    pub fn refuse(&mut self) {
        self.refused = self.refused.saturating_add(1);
    }

    /// Whether there were enough states of each kind.
    pub fn are_enough(&self) -> bool {
        self.states >= LEAST
            && self.above >= LEAST_ABOVE
            && self.without_leader >= LEAST_WITHOUT_LEADER
    }

    /// Shows for each kind whether there were enough states and, if there were too few, how many. Then shows how often an allocation
    /// failed, if one did.
    pub fn report(&self, text: &mut String) -> Result<(), AllocError> {
        report_one("restored states", self.states, LEAST, text)?;
        report_one("with a floor above 0", self.above, LEAST_ABOVE, text)?;
        report_one(
            "without a leader",
            self.without_leader,
            LEAST_WITHOUT_LEADER,
            text,
        )?;
        self.report_refused(text)
    }

    fn report_refused(&self, text: &mut String) -> Result<(), AllocError> {
        match self.refused {
            0 => Ok(()),
            refused => writeln!(text, "without memory first: {refused}"),
        }
    }
}

fn report_one(what: &str, count: u64, least: u64, text: &mut String) -> Result<(), AllocError> {
    if count >= least {
        writeln!(text, "{what}: {least} or more")
    } else {
        writeln!(text, "{what}: {count}, fewer than {least}")
    }
}
