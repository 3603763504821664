//! Why a journal could not be opened or appended to.

ghost use Rattle.std.specs.Prelude.{◌≡◌};
ghost use Rattle.journal.specs.declared.error.JournalError.TheVariants.{Memory, Device};

use diskmodel::DiskFault;
use std::alloc::{AllocError, AllocFailed};
use thiserror::Error;

/// Why a journal could not be opened, appended to or rewritten.
#[derive(Clone, Copy, Debug, PartialEq, Eq, Error)]
pub enum JournalError {
    /// An allocation failed.
    #[error("1 Memory")]
    Memory,
    /// A call on the disk failed.
    #[error("2 Device")]
    Device,
    /// There is an open gate, but no whole group after it. The place of the gate is given in bytes from the front.
    #[error("3 Damaged")]
    Damaged(u64),
    /// The journal was made with another configuration. The journal itself never reports this: it is for `opening`, which knows the
    /// setting.
    #[error("4 ConfigMismatch")]
    ConfigMismatch,
    /// The group or the checkpoint would make the journal longer than it may be.
    #[error("5 Full")]
    Full,
}

impl From<DiskFault> for JournalError {
    ghost from_gives = { λ _ e. e ≡ Device };

    fn from(_fault: DiskFault) -> JournalError {
        JournalError::Device
    }
}

impl From<AllocError> for JournalError {
    ghost from_gives = { λ _ e. e ≡ Memory };

    fn from(_error: AllocError) -> JournalError {
        JournalError::Memory
    }
}

impl<T: Drop> From<AllocFailed<T>> for JournalError {
    ghost from_gives = { λ _ e. e ≡ Memory };

    fn from(_error: AllocFailed<T>) -> JournalError {
        JournalError::Memory
    }
}

/// A call that took a disk by value and failed, with the disk that it hands back.
#[derive(Debug, Drop)]
pub struct Failed<E, D> {
    /// Why the call failed.
    pub error: E,
    /// The disk, handed back.
    pub disk: D,
}
