//! Why a run of the benchmark ends early.

use book::FlushError;
use committee::CommitteeError;
use header::CheckError;
use journal::{Failed, JournalError};
use std::alloc::{AllocError, AllocFailed};
use std::io;
use validator::{LoadError, Refusal};
use wire::WireError;

/// Why a run of the benchmark ended before its work was done.
#[derive(Clone, Copy)]
pub enum Ending {
    /// The arguments name no kind of work, or a number in them is out of its range.
    Usage,
    /// An allocation failed.
    Memory,
    /// A line couldn't be written to standard output.
    Output,
    /// A library refused a piece of the work. The benchmark makes correct input, so this should not happen.
    Refused,
}

impl Ending {
    /// The program's exit status.
    pub fn status(self) -> u8 {
        match self {
            Ending::Output => 1,
            Ending::Usage => 2,
            Ending::Memory => 3,
            Ending::Refused => 4,
        }
    }
}

impl From<AllocError> for Ending {
    fn from(_: AllocError) -> Ending {
        Ending::Memory
    }
}

impl<T: Drop> From<AllocFailed<T>> for Ending {
    fn from(_: AllocFailed<T>) -> Ending {
        Ending::Memory
    }
}

impl From<io::Error> for Ending {
    fn from(error: io::Error) -> Ending {
        match error.kind() {
            io::ErrorKind::OutOfMemory => Ending::Memory,
            // An argument isn't UTF-8.
            io::ErrorKind::InvalidData => Ending::Usage,
            _ => Ending::Output,
        }
    }
}

impl From<CommitteeError> for Ending {
    fn from(error: CommitteeError) -> Ending {
        match error {
            CommitteeError::Memory => Ending::Memory,
            // The number of members came from the arguments.
            CommitteeError::BadSize => Ending::Usage,
            _ => Ending::Refused,
        }
    }
}

impl From<WireError> for Ending {
    fn from(error: WireError) -> Ending {
        match error {
            WireError::Memory => Ending::Memory,
            _ => Ending::Refused,
        }
    }
}

impl From<CheckError> for Ending {
    fn from(_: CheckError) -> Ending {
        Ending::Refused
    }
}

impl From<Refusal> for Ending {
    fn from(refusal: Refusal) -> Ending {
        match refusal {
            Refusal::Memory => Ending::Memory,
            _ => Ending::Refused,
        }
    }
}

impl From<JournalError> for Ending {
    fn from(error: JournalError) -> Ending {
        match error {
            JournalError::Memory => Ending::Memory,
            _ => Ending::Refused,
        }
    }
}

impl<D: Drop> From<Failed<JournalError, D>> for Ending {
    fn from(failed: Failed<JournalError, D>) -> Ending {
        Ending::from(failed.error)
    }
}

impl From<LoadError> for Ending {
    fn from(error: LoadError) -> Ending {
        match error {
            LoadError::Memory => Ending::Memory,
            _ => Ending::Refused,
        }
    }
}

impl From<FlushError> for Ending {
    fn from(error: FlushError) -> Ending {
        match error {
            FlushError::Memory => Ending::Memory,
            _ => Ending::Refused,
        }
    }
}
