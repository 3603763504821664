//! The tests of messages, of the committee, of the checks that messages have to pass, of counting votes, of making batches, and of how
//! certificates wait for their parents; and of the tables of a validator: votes, batches, the DAG, the leaders and what they order.

mod certificates;
mod committees;
mod frames;
mod graphs;
mod looks;
mod makers;
mod members;
mod messages;
mod numbers;
mod ordering;
mod playing;
mod stakes;
mod stores;
mod tables;
mod votes;
mod waiters;
mod words;

use ordering::{Ordering, is_ordering};
use std::alloc::Global;
use tables::Tables;
use words::Reported;
pub use words::{list, parted, whether};

/// The state that the commands of a test case work on.
#[derive(Drop)]
pub struct Parts {
    tables: Tables,
    ordering: Ordering,
}

impl Parts {
    /// The state before the first test case of a file.
    pub fn new(alloc: Global) -> Parts {
        Parts {
            tables: Tables::new(alloc),
            ordering: Ordering::new(alloc),
        }
    }

    /// Begins a new test case: forgets what the last one made.
    pub fn begin(&mut self) {
        self.tables.begin();
        self.ordering.begin();
    }

    /// Carries out a command, and adds the lines of its answer.
    pub fn obey(&mut self, command: &str, answer: &mut String) -> Reported {
        let (name, words) = parted(command, ' ');
        if is_ordering(name) {
            self.ordering.obey(name, words, answer)
        } else {
            self.tables.obey(command, answer)
        }
    }
}
