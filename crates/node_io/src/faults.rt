//! What went wrong while a node ran.

ghost use Rattle.std.specs.Prelude.{◌≡◌, ◌||◌, None, Some, true, false};
ghost use Rattle.node_io.specs.Endings.{after_input, ending_of, first_of};

use crate::ending::Ending;
use crate::input::End;
use journal::JournalError;

/// What went wrong while a node ran, as one of its threads saw it, or as all of them together did.
#[derive(Clone, Copy, Debug, PartialEq, Eq)]
pub struct Faults {
    /// The fault of the journal, if records couldn't be written to it.
    pub journal: Option<JournalError>,
    /// An output couldn't be written.
    pub output: bool,
    /// An allocation failed outside the handling of an event, or a thread couldn't be made.
    pub memory: bool,
    /// The input couldn't be read, or wasn't a stream of frames.
    pub input: bool,
}

impl Faults {
    /// Nothing went wrong.
    pub fn none() -> Faults
        ensures { result ≡ record { journal = None; output = false; memory = false; input = false } }
    {
        Faults {
            journal: None,
            output: false,
            memory: false,
            input: false,
        }
    }

    /// Only this went wrong: an allocation failed.
    pub fn of_memory() -> Faults
        ensures { result ≡ record { journal = None; output = false; memory = true; input = false } }
    {
        Faults {
            memory: true,
            ..Faults::none()
        }
    }

    /// Only this went wrong: records couldn't be written to the journal.
    pub fn of_journal(error: JournalError) -> Faults
        ensures { result ≡ record { journal = Some error; output = false; memory = false; input = false } }
    {
        Faults {
            journal: Some(error),
            ..Faults::none()
        }
    }

    /// What went wrong with an input that ended like this, and whether an allocation had failed before, outside the handling of an event.
    pub fn of_input(end: End, lacked_memory: bool) -> Faults
        ensures { result ≡ after_input end lacked_memory }
    {
        Faults {
            memory: end == End::Memory || lacked_memory,
            input: end == End::Broken,
            ..Faults::none()
        }
    }

    /// What went wrong in either of two threads.
    pub fn and(self, other: Faults) -> Faults
        ensures journal { result.journal ≡ first_of self.journal other.journal }
        ensures output { result.output ≡ (self.output || other.output) }
        ensures memory { result.memory ≡ (self.memory || other.memory) }
        ensures input { result.input ≡ (self.input || other.input) }
    {
        Faults {
            journal: first_of(self.journal, other.journal),
            output: self.output || other.output,
            memory: self.memory || other.memory,
            input: self.input || other.input,
        }
    }

    /// How the run ends. If several things went wrong, the first in this order is reported: the journal's fault, the output's, a failed
    /// allocation, the input's. An allocation that failed for the journal counts as a failed allocation.
    pub fn ending(self) -> Ending
        ensures { result ≡ ending_of self }
    {
        let lacks_memory = self.memory || self.journal == Some(JournalError::Memory);
        match self.journal {
            None | Some(JournalError::Memory) => (),
            Some(error) => return Ending::Journal(error),
        }
        if self.output {
            Ending::Output
        } else if lacks_memory {
            Ending::Memory
        } else if self.input {
            Ending::Input
        } else {
            Ending::Done
        }
    }
}

// Of two faults of the journal the first one, if there is one. A failed allocation gives way to any other fault.
fn first_of(one: Option<JournalError>, other: Option<JournalError>) -> Option<JournalError>
    ensures { result ≡ first_of one other }
{
    match one {
        None | Some(JournalError::Memory) => other.or(one),
        _ => one,
    }
}
