//! The committee: its members' keys and stakes and its limits, as read from a TOML file; and how much members weigh, which decides what
//! is a quorum.
#![tactic(auto)]

mod committee;
mod error;
mod keys;
mod laws;
mod limits;
mod members;
mod sets;
mod stakes;

pub use committee::Committee;
pub use error::CommitteeError;
pub use laws::{
    equal_stakes, honest_are_quorum, limits_in_numbers, quorum_meets_support, quorums_overlap,
    quorums_share_honest, some_if_weighs, support_has_honest, support_is_honest,
    tolerated_leave_quorum,
};
pub use limits::{
    DEFAULT_DEPTH, DEFAULT_HELD_BATCHES, DEFAULT_WORKERS, MAX_DEPTH, MAX_HELD_BATCHES, MAX_WORKERS,
    MIN_DEPTH, MIN_HELD_BATCHES, MIN_WORKERS,
};
pub use members::{MAX_MEMBERS, MIN_MEMBERS};
pub use sets::MemberSet;
pub use stakes::{DEFAULT_STAKE, MAX_STAKE, MAX_TOTAL, MIN_STAKE};
