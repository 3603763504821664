//! A running node. One thread reads frames and submits what they bring, a second one writes records to the disks, and a third one writes
//! the outputs that may leave.
#![tactic(auto)]

mod bell;
mod beside;
mod caller;
mod due;
mod files;
mod flushing;
mod intake;
mod member;
mod ran;
mod reading;
mod rule;
mod running;
mod sink;
mod starting;
mod threads;
mod writing;

pub use node_io::Ending;
pub use ran::Ran;
pub use running::{CHECKPOINT_BYTES, checkpoint_bytes_in_numbers, run, run_over};
