//! The committee of a history, whose member 0 is the validator that is given the events.

use crate::nodes::{Member, member_of};
use sim_script::BATCHES;
use std::alloc::{AllocError, Global};
use test_cases::{Reported, bad};

/// The depth and the stakes of the committee of a history.
#[derive(Drop)]
pub struct Setup {
    alloc: Global,
    depth: u64,
    stakes: String,
}

impl Setup {
    /// The setup before the first test case.
    pub fn new(alloc: Global) -> Setup {
        Setup {
            alloc,
            depth: 0,
            stakes: String::new(alloc),
        }
    }

    /// Begins a test case, with a committee of four members with equal stakes.
    pub fn begin(&mut self) -> Reported {
        self.stakes.clear();
        self.stakes.push_str("1,1,1,1")
    }

    /// Carries out `set depth` or `stakes`, which change the committee.
    pub fn obey(&mut self, command: &str, answer: &mut String) -> Reported {
        if let Some(stakes) = command.strip_prefix("stakes ") {
            self.stakes.clear();
            return self.stakes.push_str(stakes);
        }
        match command.strip_prefix("set depth ") {
            Some(depth) => Ok(self.depth = depth.parse().unwrap_or(0)),
            None => Ok(bad(answer)),
        }
    }

    /// The committee's member 0, which is given the events; None if there is no committee with this depth and these stakes.
    pub fn member(&self) -> Result<Option<Member>, AllocError> {
        let (depth, stakes) = (self.depth, self.stakes.as_str());
        let words = format!(in self.alloc; "0 {depth} {BATCHES} {stakes}")?;
        member_of(self.alloc, words.as_str())
    }
}
