//! The flusher, which writes what a node has accepted to its disk while other threads use the node.
#![tactic(auto)]

mod checkpointing;
mod flusher;
mod laws;

pub use book::FlushError;
pub use flusher::Flusher;
pub use laws::collected_agrees;
