//! Why a text is no committee file.

ghost use Rattle.std.specs.Prelude.{◌≡◌};
ghost use Rattle.committee.specs.declared.error.CommitteeError.TheVariants.{Memory};

use std::alloc::AllocFailed;
use thiserror::Error;

/// Why a text is no committee file. Printed as its number and its name.
#[derive(Clone, Copy, Debug, PartialEq, Eq, Error)]
pub enum CommitteeError {
    /// An allocation failed.
    #[error("1 Memory")]
    Memory,
    /// The text is no TOML.
    #[error("2 NotToml")]
    NotToml,
    /// There is no list of members; or it has fewer than 4 or more than 31 elements; or there are no stakes, and the number isn't 3f + 1.
    #[error("3 BadSize")]
    BadSize,
    /// An element of the list of members is no key, which has 64 digits 0 to 9 and a to f.
    #[error("4 BadKey")]
    BadKey,
    /// Two members have the same key.
    #[error("5 RepeatedKey")]
    RepeatedKey,
    /// The depth, the number of workers or the number of batches is no whole number within its bounds.
    #[error("6 BadLimit")]
    BadLimit,
    /// The stakes aren't one whole number within the bounds for each member, or one member's stake alone is a quorum.
    #[error("7 BadStake")]
    BadStake,
}

impl<T: Drop> From<AllocFailed<T>> for CommitteeError {
    ghost from_gives = { λ _ e. e ≡ Memory };

    fn from(_: AllocFailed<T>) -> CommitteeError {
        CommitteeError::Memory
    }
}
