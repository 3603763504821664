//! The open batch of one worker: transactions are added to it until the next one would exceed a limit of batches, or the batch is closed.
#![tactic(auto)]

mod error;
mod maker;

pub use error::MakeError;
pub use maker::BatchMaker;
