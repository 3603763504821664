//! Why a frame is refused, as it is reported.

ghost use Rattle.std.specs.Prelude.{◌≡◌};
ghost use Rattle.node_io.specs.Reportings.{of_make};
ghost use Rattle.node_io.specs.declared.rejection.Rejection.TheVariants.{Unread, Unchecked, Refused};
ghost use Rattle.wire.specs.declared.error.WireError.TheVariants.{Memory};

use batchmaker::MakeError;
use header::{CheckError, Refusal};
use std::alloc::AllocError;
use thiserror::Error;
use wire::WireError;

/// Why a node refuses what a frame brought. Printed as the kind of the refusal, its number and its name.
#[derive(Clone, Copy, Debug, PartialEq, Eq, Error)]
pub enum Rejection {
    /// The frame can't be decoded.
    #[error("unread {0}")]
    Unread(WireError),
    /// The message fails a check.
    #[error("unchecked {0}")]
    Unchecked(CheckError),
    /// The node refuses the event.
    #[error("refused {0}")]
    Refused(Refusal),
}

impl From<WireError> for Rejection {
    ghost from_gives = { λ error reported. reported ≡ Unread error };

    fn from(error: WireError) -> Rejection {
        Rejection::Unread(error)
    }
}

impl From<CheckError> for Rejection {
    ghost from_gives = { λ error reported. reported ≡ Unchecked error };

    fn from(error: CheckError) -> Rejection {
        Rejection::Unchecked(error)
    }
}

impl From<Refusal> for Rejection {
    ghost from_gives = { λ refusal reported. reported ≡ Refused refusal };

    fn from(refusal: Refusal) -> Rejection {
        Rejection::Refused(refusal)
    }
}

impl From<AllocError> for Rejection {
    ghost from_gives = { λ _ reported. reported ≡ Unread Memory };

    fn from(_: AllocError) -> Rejection {
        Rejection::Unread(WireError::Memory)
    }
}

impl From<MakeError> for Rejection {
    ghost from_gives = { λ error reported. reported ≡ of_make error };

    fn from(error: MakeError) -> Rejection {
        match error {
            MakeError::Memory => Rejection::Unread(WireError::Memory),
            MakeError::TooBig => Rejection::Unread(WireError::TooMany),
        }
    }
}
