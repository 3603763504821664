//! Why the records of a checkpoint can't be loaded.

ghost use Rattle.std.specs.Prelude.{◌≡◌};
ghost use Rattle.checkpoint.specs.declared.error.LoadError.TheVariants.{Memory};

use std::alloc::{AllocError, AllocFailed};
use thiserror::Error;

/// Why the records of a checkpoint can't be loaded. Printed as its number and its name.
#[derive(Clone, Copy, Debug, PartialEq, Eq, Error)]
pub enum LoadError {
    /// An allocation failed.
    #[error("1 Memory")]
    Memory,
    /// The record at this place in the list, counted from 0, is the first record at fault.
    #[error("2 Unsound")]
    Unsound(u64),
    /// Each record is sound by itself, but there is an order and no committed leader, or a committed leader and no order.
    #[error("3 UnsoundWhole")]
    UnsoundWhole,
}

impl<T: Drop> From<AllocFailed<T>> for LoadError {
    ghost from_gives = { λ _ e. e ≡ Memory };

    fn from(_: AllocFailed<T>) -> LoadError {
        LoadError::Memory
    }
}

impl From<AllocError> for LoadError {
    ghost from_gives = { λ _ e. e ≡ Memory };

    fn from(_: AllocError) -> LoadError {
        LoadError::Memory
    }
}
