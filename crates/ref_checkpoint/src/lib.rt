//! A reference implementation, plain and slow, of a checkpoint's records: how they are written, what records decode to, and which of them
//! are at fault. It is no part of a node: the code of the node is compared with it.
#![tactic(auto)]

mod configuration;
mod fault;
mod faults;
mod held;
mod judging;
mod kept;
mod loading;
mod parts;
mod pieces;
mod reading;
mod reported;
mod writing;

pub use fault::LoadFault;
pub use kept::{Checkpoint, KeptBatch, KeptHeader, KeptVote};
pub use loading::load_fault;
pub use reading::checkpoint_read;
pub use reported::load_answer;
pub use writing::state_records;
