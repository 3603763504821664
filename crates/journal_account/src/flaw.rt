//! Why a journal can't be read as one.

ghost use Rattle.std.specs.Prelude.{◌≡◌};
ghost use Rattle.journal.specs.declared.error.JournalError.TheVariants as errors;

use committee::CommitteeError;
use header::CheckError;
use journal::JournalError;
use std::alloc::{AllocError, AllocFailed};
use std::fmt::{self, Display, Formatter};
use thiserror::Error;
use validator::Refusal;
use wire::WireError;

/// What is wrong with a journal, in words for its operator.
#[derive(Clone, Copy, Debug, Error)]
pub enum Why {
    /// An allocation failed.
    #[error("out of memory")]
    Memory,
    /// There is an open gate (the commit byte before a group), but no whole group after it.
    #[error("no whole group stands behind this open gate")]
    Group,
    /// The file doesn't begin as a journal does: its first group holds neither a configuration alone nor one with the head of a checkpoint.
    #[error("the first group isn't a configuration, alone or with a checkpoint's head")]
    FirstGroup,
    /// The first groups of both files have the same generation.
    #[error("both files have the same generation")]
    Same,
    /// A record of a checkpoint's state breaks the format, or holds what no node could have.
    #[error("a record of the checkpoint is at fault")]
    State,
    /// Each record of a checkpoint is well formed by itself, but no node can have a state with all of them.
    #[error("the records of the checkpoint don't go together")]
    WholeState,
    /// No committee can have the keys, stakes and limits of the configuration.
    #[error("the configuration is no committee's: {0}")]
    NoCommittee(CommitteeError),
    /// The configuration says that the node has a number which no member has.
    #[error("the configuration's own number is no member's")]
    NoMember,
    /// The configuration is another one than the expected one.
    #[error("it is another committee's journal")]
    Other,
    /// A record where events are expected is of another kind.
    #[error("a record is no event")]
    Kind,
    /// The message in an event's record can't be decoded.
    #[error("a message can't be read: {0}")]
    Unread(WireError),
    /// The message of an event fails a check of the committee.
    #[error("an event fails a check: {0}")]
    Unchecked(CheckError),
    /// An event occurs a second time in the journal.
    #[error("an event is there twice")]
    Known,
    /// The node would have refused an event after the events before it.
    #[error("an event would have been refused: {0}")]
    Refused(Refusal),
}

/// Why the bytes can't be read as a journal: the error that an opening would report, and what is wrong in words.
#[derive(Clone, Copy, Debug)]
pub struct Flaw {
    /// The error that an opening of a node would report: `Memory`, `Damaged` with a place in bytes, or `ConfigMismatch`.
    pub error: JournalError,
    /// What is wrong with the journal.
    pub why: Why,
}

impl Flaw {
    /// The flaw of a group that is damaged: the one whose gate is at this place.
    pub fn at(gate: u64, why: Why) -> Flaw
        ensures { result.error ≡ errors.Damaged gate }
    {
        Flaw {
            error: JournalError::Damaged(gate),
            why,
        }
    }

    /// The flaw of a failed allocation.
    pub fn memory() -> Flaw
        ensures { result.error ≡ errors.Memory }
    {
        Flaw {
            error: JournalError::Memory,
            why: Why::Memory,
        }
    }

    /// Whether the flaw is a failed allocation.
    pub fn is_memory(&self) -> bool {
        matches!(self.error, JournalError::Memory)
    }

    /// The flaw of a journal whose configuration isn't the expected one.
    pub fn other() -> Flaw
        ensures { result.error ≡ errors.ConfigMismatch }
    {
        Flaw {
            error: JournalError::ConfigMismatch,
            why: Why::Other,
        }
    }
}

impl Display for Flaw {
    fn fmt<W: fmt::Write>(&self, f: &mut Formatter<W>) -> fmt::Result {
        let why = self.why;
        match self.error {
            JournalError::Damaged(place) => write!(f, "damaged at {place}: {why}"),
            _ => write!(f, "{why}"),
        }
    }
}

impl From<AllocError> for Flaw {
    ghost from_gives = { λ _ flaw. flaw.error ≡ errors.Memory };

    fn from(_: AllocError) -> Flaw {
        Flaw::memory()
    }
}

impl<T: Drop> From<AllocFailed<T>> for Flaw {
    ghost from_gives = { λ _ flaw. flaw.error ≡ errors.Memory };

    fn from(_: AllocFailed<T>) -> Flaw {
        Flaw::memory()
    }
}
