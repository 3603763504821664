//! Counting the references to parents that a walk down the DAG reads.

ghost use Rattle.std.specs.Prelude.{◌≡◌, ◌+◌, ◌-◌, ◌<◌, ◌^◌, min};

use committee::MAX_MEMBERS;
use std::marker::Model;
use wire::MAX_PARENTS;

/// The greatest number of references to parents that the certificates of one round have: each member has at most one certificate there.
pub const MAX_ROUND_REFERENCES: u64 = MAX_MEMBERS as u64 * MAX_PARENTS as u64;

/// How many references to parents were read. Contracts see this as a number.
#[derive(Debug, Drop, PartialEq, Eq)]
pub struct Reads {
    number: u64,
}

impl Model for Reads {
    ghost use Rattle.std.specs.Prelude.{ℕ};

    ghost Value = { ℕ };

    ghost view = { λ r. r.number };

    ghost inverse = { λ n. record { number = n } };
}

impl Reads {
    /// The count at the beginning of a walk: no reference was read.
    pub fn new() -> Reads
        ensures { result ≡ 0 }
    {
        Reads { number: 0 }
    }

    /// Counts this many more references as read.
    pub(crate) fn add(&mut self, count: u64)
        requires { self.old + count < 2 ^ 64 }
        ensures { self.new ≡ self.old + count }
    {
        self.number += count;
    }

    /// Counts one more reference as read. The count stays at its greatest number.
    pub(crate) fn add_one(&mut self)
        ensures { self.new ≡ min (self.old + 1) (2 ^ 64 - 1) }
    {
        self.number = self.number.saturating_add(1);
    }

    /// How many references to parents were read.
    pub fn number(&self) -> u64
        ensures { result ≡ self.now }
    {
        self.number
    }
}
