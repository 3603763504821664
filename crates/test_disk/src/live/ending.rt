//! Why a test ends early.

use crate::live::words::Reported;
use diskmodel::TooManyTold;
use header::CheckError;
use journal::{Failed, JournalError};
use node::{FlushError, Refusal};
use sim_script::FormError;
use std::alloc::{AllocError, AllocFailed};
use wire::WireError;

/// Why a test wasn't carried out to its end.
#[derive(Clone, Copy)]
pub enum Ending {
    /// An allocation failed.
    Memory,
    /// A call gave an answer that can't occur here.
    Unexpected,
}

impl Ending {
    /// Adds a line to the answer of a command that ended early. On `AllocError` an allocation failed.
    pub fn write_to(ended: Result<(), Ending>, answer: &mut String) -> Reported {
        match ended {
            Ok(()) => Ok(()),
            Err(Ending::Memory) => Err(AllocError),
            Err(Ending::Unexpected) => answer.push_str("this should not come\n"),
        }
    }
}

impl From<AllocError> for Ending {
    fn from(_: AllocError) -> Ending {
        Ending::Memory
    }
}

impl<T: Drop> From<AllocFailed<T>> for Ending {
    fn from(_: AllocFailed<T>) -> Ending {
        Ending::Memory
    }
}

impl<D: Drop> From<Failed<JournalError, D>> for Ending {
    fn from(_: Failed<JournalError, D>) -> Ending {
        Ending::Unexpected
    }
}

impl From<WireError> for Ending {
    fn from(_: WireError) -> Ending {
        Ending::Unexpected
    }
}

impl From<CheckError> for Ending {
    fn from(_: CheckError) -> Ending {
        Ending::Unexpected
    }
}

impl From<FormError> for Ending {
    fn from(_: FormError) -> Ending {
        Ending::Unexpected
    }
}

impl From<Refusal> for Ending {
    fn from(_: Refusal) -> Ending {
        Ending::Unexpected
    }
}

impl From<FlushError> for Ending {
    fn from(_: FlushError) -> Ending {
        Ending::Unexpected
    }
}

impl From<TooManyTold> for Ending {
    fn from(_: TooManyTold) -> Ending {
        Ending::Unexpected
    }
}
