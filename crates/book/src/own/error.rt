//! Why a round of taking, appending and settling failed.

ghost use Rattle.std.specs.Prelude.{◌≡◌};
ghost use Rattle.book.specs.declared.own.error.FlushError.TheVariants.{Memory};

use std::alloc::AllocError;
use thiserror::Error;

/// Why a round of taking, appending and settling failed. Printed as its number and its name.
#[derive(Clone, Copy, Debug, PartialEq, Eq, Error)]
pub enum FlushError {
    /// An allocation failed; nothing was taken.
    #[error("1 Memory")]
    Memory,
    /// A device call failed; the book is down.
    #[error("2 Device")]
    Device,
    /// The journal is full; the book is down.
    #[error("3 Full")]
    Full,
    /// The book was down already, or a group was in flight; nothing was changed.
    #[error("4 Down")]
    Down,
}

impl From<AllocError> for FlushError {
    ghost from_gives = { λ _ error. error ≡ Memory };

    fn from(_: AllocError) -> FlushError {
        FlushError::Memory
    }
}
