//! How a run of `narwhal-journal` ends.

use journal_account::Flaw;
use std::alloc::{AllocError, AllocFailed};
use std::io::{self, ErrorKind, Write};

/// How a run of `narwhal-journal` ends.
#[derive(Clone, Copy, Debug)]
pub(crate) enum Ending {
    /// Everything that was asked was reported.
    Done,
    /// The journal is damaged or another member's, or the orders of two journals contradict each other. A line has been written about it.
    Wrong,
    /// The journal is damaged or another member's, which has still to be written.
    Flawed(Flaw),
    /// The arguments aren't those of a command, or the committee file can't be read. The text says what is wrong.
    Usage(&'static str),
    /// A journal's file can't be read.
    Unreadable,
    /// An allocation failed.
    Memory,
    /// The output can't be written.
    Output,
}

impl Ending {
    /// The exit status.
    pub fn status(self) -> u8 {
        match self {
            Ending::Done => 0,
            Ending::Wrong | Ending::Flawed(_) => 1,
            Ending::Usage(_) => 2,
            Ending::Unreadable => 5,
            Ending::Memory => 6,
            Ending::Output => 7,
        }
    }

    /// Writes the line about an ending that is no success. If that fails, there is nobody left to report it to.
    pub fn write_to<W: Write>(self, errors: &mut W) {
        let _ = match self {
            Ending::Done | Ending::Wrong => Ok(()),
            Ending::Flawed(flaw) => writeln!(errors, "narwhal-journal: {flaw}"),
            Ending::Usage(what) => writeln!(errors, "narwhal-journal: usage: {what}"),
            Ending::Unreadable => writeln!(errors, "narwhal-journal: the journal can't be read"),
            Ending::Memory => writeln!(errors, "narwhal-journal: out of memory"),
            Ending::Output => writeln!(errors, "narwhal-journal: the output can't be written"),
        };
        let _ = errors.flush();
    }

    /// The ending for a journal's file that can't be opened or read.
    pub fn of_file(error: &io::Error) -> Ending {
        if error.kind() == ErrorKind::OutOfMemory {
            Ending::Memory
        } else {
            Ending::Unreadable
        }
    }
}

impl From<Flaw> for Ending {
    fn from(flaw: Flaw) -> Ending {
        if flaw.is_memory() {
            Ending::Memory
        } else {
            Ending::Flawed(flaw)
        }
    }
}

impl From<AllocError> for Ending {
    fn from(_: AllocError) -> Ending {
        Ending::Memory
    }
}

impl<T: Drop> From<AllocFailed<T>> for Ending {
    fn from(_: AllocFailed<T>) -> Ending {
        Ending::Memory
    }
}

// Of all failures of a command, only that of writing the output is an error of this type.
impl From<io::Error> for Ending {
    fn from(_: io::Error) -> Ending {
        Ending::Output
    }
}
