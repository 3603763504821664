//! Why a move of a cluster fails.

ghost use Rattle.std.specs.Prelude.{◌≡◌};
ghost use Rattle.cluster.specs.declared.error.ClusterError.TheVariants.{Memory};

use journal::JournalError;
use std::alloc::AllocError;
use thiserror::Error;

/// Why a move of a cluster failed. Printed as its number and its name.
#[derive(Clone, Copy, Debug, PartialEq, Eq, Error)]
pub enum ClusterError {
    /// An allocation failed. No output that went out is lost.
    #[error("1 Memory")]
    Memory,
    /// No node has this number, or the node could not be opened after a stop.
    #[error("2 NoSuchNode")]
    NoSuchNode,
    /// The node has put out no output with this number, or that output is a piece of its order.
    #[error("3 NoSuchOutput")]
    NoSuchOutput,
    /// A node could not be opened. If that was after a stop, the node is gone from then on.
    #[error("4 Journal")]
    Journal(JournalError),
}

impl From<AllocError> for ClusterError {
    ghost from_gives = { λ _ error. error ≡ Memory };

    fn from(_: AllocError) -> ClusterError {
        ClusterError::Memory
    }
}
