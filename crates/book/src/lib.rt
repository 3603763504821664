//! The book: what a node keeps under its lock. It has the validator, the records that were accepted and not yet taken, and the outputs that
//! wait, each with its ticket. Beside it, the book of a node that has one owner and needs no lock.
#![tactic(auto)]

mod book;
mod draft;
mod own;
mod pending;
mod queue;
mod reached;
mod record;
mod rewrite;
mod steps;

pub use book::{Book, MAX_ACCEPTED, Receipt, limits_in_numbers};
pub use own::{FlushError, OwnBook};
pub use record::EVENT_RECORD;
pub use steps::{
    accept_is_a_step, checkpoint_is_steps, fail_is_a_step, flush_is_steps, release_is_a_step,
    releases_are_steps, settle_is_a_step, take_all_is_a_step, take_is_a_step,
};
pub use validator::Refusal;
