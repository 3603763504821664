//! A count of failed allocations for lists, which contracts read. Only `grow` adds to it.
ghost use Rattle.std.specs.Prelude.{◌≡◌, ℕ, ◌+◌, ◌<◌, ◌≤◌, OnOk, OnErr, vec_len, vec_capacity};

use crate::tally::Tally;
use std::alloc::AllocError;

/// How often an allocation for a list has failed; and of the last such failure, how many more elements the list had room for, and how many
/// it was asked for. Only contracts read this.
#[derive(Drop)]
pub struct Refusals {
    count: Tally,
    spare: usize,
    wanted: usize,
}

impl Refusals {
    ghost use Rattle.diskmodel.specs.Refusals.{IsRefused};

    /// A count of no failed allocation.
    pub fn none() -> Refusals
        ensures { result.count.count ≡ 0 }
    {
        Refusals {
            count: Tally::none(),
            spare: 0,
            wanted: 0,
        }
    }

    /// Makes room in a list for this many more elements. If the allocation fails, that is counted.
    pub fn grow<T>(&mut self, list: &mut Vec<T>, additional: usize) -> Result<(), AllocError>
        ensures items { list.new.items ≡ list.old.items }
        ensures capacity { vec_capacity list.old ≤ vec_capacity list.new }
        ensures ok { OnOk result (vec_len list.old + additional ≤ vec_capacity list.new) }
        ensures no_refusal { OnOk result (self.new ≡ self.old) }
        ensures full { OnErr result (vec_capacity list.old < vec_len list.old + additional) }
        ensures refused { OnErr result (IsRefused additional self.old self.new) }
    {
        let spare = list.capacity() - list.len();
        let outcome = list.reserve(additional);
        if outcome.is_err() {
            self.count = self.count.one_more();
            self.spare = spare;
            self.wanted = additional;
        }
        outcome
    }
}
