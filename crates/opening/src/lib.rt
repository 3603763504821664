//! Opens a node on its disks: the journal, and a validator in the state after all that the journal holds.
#![tactic(auto)]

mod checkpoints;
mod configuration;
mod events;
mod first_group;
mod pair_replay;
mod reached;
mod reader;
mod renewing;
mod reopening;
mod replay;
mod standing;
mod stores;

pub use checkpoints::checkpoint;
pub use configuration::can_report;
pub use events::{EVENT, FRONT_BYTES, event_of, is_text};
pub use reopening::{first_version, is_own, reopen, write_configuration};
pub use standing::{
    decoded_in_stands_for, decoded_stands_for, what_stands_is_decoded, what_stands_is_decoded_in,
    worlds_are_decoded, worlds_are_decoded_in,
};
pub use stores::{reopen_pair, reopen_store};
