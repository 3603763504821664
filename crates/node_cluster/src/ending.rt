//! Why the example of a committee in one process ends early.

use cluster::ClusterError;
use std::alloc::{AllocError, AllocFailed};
use std::io;
use thiserror::Error;
use wire::WireError;

/// Why the play ended early.
#[derive(Clone, Copy, Debug, Error)]
pub enum Ending {
    /// An allocation failed.
    #[error("memory was refused")]
    Memory,
    /// A line couldn't be written to standard output.
    #[error("the output can't be written")]
    Output,
    /// A move of the cluster failed.
    #[error("a move failed")]
    Move,
    /// A call gave an answer that the play can't get.
    #[error("this should not come")]
    Unexpected,
}

impl From<AllocError> for Ending {
    fn from(_: AllocError) -> Ending {
        Ending::Memory
    }
}

impl<T: Drop> From<AllocFailed<T>> for Ending {
    fn from(_: AllocFailed<T>) -> Ending {
        Ending::Memory
    }
}

impl From<io::Error> for Ending {
    fn from(_: io::Error) -> Ending {
        Ending::Output
    }
}

impl From<ClusterError> for Ending {
    fn from(_: ClusterError) -> Ending {
        Ending::Move
    }
}

impl From<WireError> for Ending {
    fn from(_: WireError) -> Ending {
        Ending::Unexpected
    }
}
