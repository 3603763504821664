//! Why a run of the simulator ends early.

use diskmodel::TooManyTold;
use journal::JournalError;
use std::alloc::{AllocError, AllocFailed};
use std::io;

/// Why a run of the simulator ended before its script did.
#[derive(Drop)]
pub enum Ending {
    /// A line of the script is no command.
    BadCommand,
    /// An allocation failed outside the handling of an event, or more calls were set to fail than is possible at once.
    Memory,
    /// The node's journal couldn't be opened.
    Fault(JournalError),
    /// A read of the script or a write of an answer failed.
    InputOutput,
    /// The script has more lines than the simulator can count.
    TooLong,
    /// The machine was to stop before a certain sync, but the group or checkpoint was written and synced without it.
    Unstopped,
}

impl From<AllocError> for Ending {
    fn from(_: AllocError) -> Ending {
        Ending::Memory
    }
}

impl<T: Drop> From<AllocFailed<T>> for Ending {
    fn from(_: AllocFailed<T>) -> Ending {
        Ending::Memory
    }
}

impl From<TooManyTold> for Ending {
    fn from(_: TooManyTold) -> Ending {
        Ending::Memory
    }
}

impl From<JournalError> for Ending {
    fn from(error: JournalError) -> Ending {
        match error {
            JournalError::Memory => Ending::Memory,
            other => Ending::Fault(other),
        }
    }
}

impl From<io::Error> for Ending {
    fn from(error: io::Error) -> Ending {
        match error.kind() {
            io::ErrorKind::OutOfMemory => Ending::Memory,
            _ => Ending::InputOutput,
        }
    }
}
