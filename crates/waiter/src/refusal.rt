//! Why a certificate can't wait.

ghost use Rattle.std.specs.Prelude.{◌≡◌};
ghost use Rattle.waiter.specs.declared.refusal.WaitRefusal.TheVariants.{Memory};

use std::alloc::AllocFailed;
use thiserror::Error;

/// Why a certificate can't wait. Printed as its number and its name.
#[derive(Clone, Copy, Debug, PartialEq, Eq, Error)]
pub enum WaitRefusal {
    /// An allocation failed.
    #[error("1 Memory")]
    Memory,
    /// The greatest number of certificates is waiting already.
    #[error("2 Full")]
    Full,
    /// The message that was to wait is no certificate.
    #[error("3 NotACertificate")]
    NotACertificate,
}

impl<T: Drop> From<AllocFailed<T>> for WaitRefusal {
    ghost from_gives = { λ _ e. e ≡ Memory };

    fn from(_: AllocFailed<T>) -> WaitRefusal {
        WaitRefusal::Memory
    }
}
