//! The versions of the journal's format.

/// A version of the journal's format. It decides what the record of a node's configuration holds.
#[derive(Clone, Copy, Debug, PartialEq, Eq)]
pub enum Version {
    /// The version without stakes: each member's stake is 1.
    First,
    /// The version with the stake of each member. New journals have it.
    Second,
}
