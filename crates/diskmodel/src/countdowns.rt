//! Which of the next calls of a disk in memory will fail, since a test has set them to.
ghost use Rattle.std.specs.Prelude.{◌≡◌, ◌↔◌, IsTrue, OnOk, OnErr};
ghost use Rattle.std.specs.List.{Contains};
ghost use Rattle.diskmodel.specs.Countdowns.{lowered};

use crate::call::CallKind;
use std::alloc::{AllocError, Global};

/// For each kind of call, which of the next calls will fail, as numbers: 1 is the next call of this kind.
#[derive(Drop)]
pub struct Countdowns {
    pub read: Vec<u64>,
    pub write: Vec<u64>,
    pub cut: Vec<u64>,
    pub sync: Vec<u64>,
}

/// Lowers each number by 1, and removes those that reach 0. Returns whether one did, so that the call has to fail.
fn count_down(counts: &mut Vec<u64>) -> bool
    ensures fails { IsTrue result ↔ Contains counts.old.items 1 }
    ensures lowered { counts.new.items ≡ lowered counts.old.items }
{
    let is_due = counts.contains(&1);
    for count in counts.iter_mut() {
        *count = count.saturating_sub(1);
    }
    counts.retain(|count| *count > 0);
    is_due
}

impl Countdowns {
    ghost use Rattle.diskmodel.specs.Countdowns.{no_counts, counts_of, counts_for, reporting, counting};

    /// No call is set to fail. The call allocates no memory.
    pub fn none(alloc: Global) -> Countdowns
        ensures { counts_of result ≡ no_counts }
    {
        Countdowns {
            read: Vec::new(alloc),
            write: Vec::new(alloc),
            cut: Vec::new(alloc),
            sync: Vec::new(alloc),
        }
    }

    /// Lets one more call of this kind fail: the one that comes as the `count`-th of its kind from now on.
    pub fn tell(&mut self, call: CallKind, count: u64) -> Result<(), AllocError>
        ensures told { OnOk result (counts_of self.new ≡ reporting (counts_of self.old) call count) }
        ensures err { OnErr result (counts_of self.new ≡ counts_of self.old) }
    {
        match call {
            CallKind::Read => self.read.push(count)?,
            CallKind::Write => self.write.push(count)?,
            CallKind::Cut => self.cut.push(count)?,
            CallKind::Sync => self.sync.push(count)?,
        }
        Ok(())
    }

    /// Counts a call of this kind, and returns whether it has to fail.
    pub fn count(&mut self, call: CallKind) -> bool
        ensures fails { IsTrue result ↔ Contains (counts_for (counts_of self.old) call) 1 }
        ensures counted { counts_of self.new ≡ counting (counts_of self.old) call }
    {
        match call {
            CallKind::Read => count_down(&mut self.read),
            CallKind::Write => count_down(&mut self.write),
            CallKind::Cut => count_down(&mut self.cut),
            CallKind::Sync => count_down(&mut self.sync),
        }
    }
}
