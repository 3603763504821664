//! Why a store refuses a batch or an acknowledgement.

ghost use Rattle.std.specs.Prelude.{◌≡◌};
ghost use Rattle.batchstore.specs.declared.refusal.StoreRefusal.TheVariants.{Memory};

use std::alloc::{AllocError, AllocFailed};
use thiserror::Error;

/// Why a store refuses a batch or an acknowledgement. Printed as its number and its name.
#[derive(Clone, Copy, Debug, PartialEq, Eq, Error)]
pub enum StoreRefusal {
    /// An allocation failed.
    #[error("1 Memory")]
    Memory,
    /// Another batch is held under the same digest.
    #[error("2 DigestClash")]
    DigestClash,
    /// The store holds as many batches as the committee allows.
    #[error("3 Full")]
    Full,
    /// No own batch with this digest is held, or whoever acknowledges it is no member.
    #[error("4 NotOurs")]
    NotOurs,
}

impl<T: Drop> From<AllocFailed<T>> for StoreRefusal {
    ghost from_gives = { λ _ e. e ≡ Memory };

    fn from(_: AllocFailed<T>) -> StoreRefusal {
        StoreRefusal::Memory
    }
}

impl From<AllocError> for StoreRefusal {
    ghost from_gives = { λ _ e. e ≡ Memory };

    fn from(_: AllocError) -> StoreRefusal {
        StoreRefusal::Memory
    }
}
