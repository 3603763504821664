//! Writes outputs to a stream: `write_output` writes one as a frame.
#![tactic(auto)]

mod frames;

pub use frames::{WriteError, write_output};
