//! Why a DAG refuses a certificate.

ghost use Rattle.std.specs.Prelude.{◌≡◌};
ghost use Rattle.dag.specs.declared.refusal.DagRefusal.TheVariants.{Memory};

use std::alloc::AllocError;
use thiserror::Error;

/// Why a DAG refuses a certificate. Printed as its number and its name.
#[derive(Clone, Copy, Debug, PartialEq, Eq, Error)]
pub enum DagRefusal {
    /// An allocation failed.
    #[error("1 Memory")]
    Memory,
    /// The certificate's round is 0, or at or below a floor above 0.
    #[error("2 TooOld")]
    TooOld,
    /// The certificate's slot holds a certificate with another digest.
    #[error("3 CertConflict")]
    CertConflict,
    /// The certificate's slot holds a certificate with the same digest and another header.
    #[error("4 DigestClash")]
    DigestClash,
    /// A parent of the certificate isn't held.
    #[error("5 MissingParents")]
    MissingParents,
}

impl From<AllocError> for DagRefusal {
    ghost from_gives = { λ _ e. e ≡ Memory };

    fn from(_: AllocError) -> DagRefusal {
        DagRefusal::Memory
    }
}
