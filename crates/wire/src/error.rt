//! Why bytes are no message, or parts can't be one.

ghost use Rattle.std.specs.Prelude.{◌≡◌};
ghost use Rattle.wire.specs.declared.error.WireError.TheVariants.{Memory};

use std::alloc::{AllocError, AllocFailed};
use thiserror::Error;

/// Why bytes are no message. Printed as its number and its name.
#[derive(Clone, Copy, Debug, PartialEq, Eq, Error)]
pub enum WireError {
    /// An allocation failed.
    #[error("1 Memory")]
    Memory,
    /// The bytes end within a field.
    #[error("2 Short")]
    Short,
    /// There are more bytes after the message's last field.
    #[error("3 Trailing")]
    Trailing,
    /// No message has this tag.
    #[error("4 BadTag")]
    BadTag,
    /// The entries of a list aren't strictly ascending.
    #[error("5 NotCanonical")]
    NotCanonical,
    /// The number of a list's entries, the length of a transaction, or the length of a batch's body is above its limit.
    #[error("6 TooMany")]
    TooMany,
    /// The number of a round or of a wave is out of its range.
    #[error("7 BadRound")]
    BadRound,
}

impl From<AllocError> for WireError {
    ghost from_gives = { λ _ e. e ≡ Memory };

    fn from(_: AllocError) -> WireError {
        WireError::Memory
    }
}

impl<T: Drop> From<AllocFailed<T>> for WireError {
    ghost from_gives = { λ _ e. e ≡ Memory };

    fn from(_: AllocFailed<T>) -> WireError {
        WireError::Memory
    }
}
