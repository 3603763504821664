//! Why a batch maker refuses a transaction.

ghost use Rattle.std.specs.Prelude.{◌≡◌};
ghost use Rattle.batchmaker.specs.declared.error.MakeError.TheVariants.{Memory};

use std::alloc::AllocError;
use thiserror::Error;

/// Why a batch maker refuses a transaction. Printed as its number and its name.
#[derive(Clone, Copy, Debug, PartialEq, Eq, Error)]
pub enum MakeError {
    /// An allocation failed.
    #[error("1 Memory")]
    Memory,
    /// The transaction has more than `MAX_TRANSACTION_BYTES` bytes.
    #[error("2 TooBig")]
    TooBig,
}

impl From<AllocError> for MakeError {
    ghost from_gives = { λ _ e. e ≡ Memory };

    fn from(_: AllocError) -> MakeError {
        MakeError::Memory
    }
}
