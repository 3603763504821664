//! How a run of a node ends.

ghost use Rattle.std.specs.Prelude.{◌≡◌};
ghost use Rattle.node_io.specs.Endings.{status_of, config_number_of, journal_number_of, of_config, of_journal};

use committee::CommitteeError;
use journal::JournalError;
use std::io::Write;

/// How a run of a node ends.
#[derive(Clone, Copy, Debug, PartialEq, Eq)]
pub enum Ending {
    /// The input has ended, and all of it was handled.
    Done,
    /// There aren't three arguments; or the committee file can't be read; or the own number is that of no member.
    Usage,
    /// The text of the committee file describes no committee.
    Config(CommitteeError),
    /// The journal can't be opened or appended to.
    Journal(JournalError),
    /// The input can't be read, or isn't a stream of frames.
    Input,
    /// An allocation failed outside the handling of an event, or a thread couldn't be made.
    Memory,
    /// The output can't be written.
    Output,
}

impl Ending {
    /// The exit status of the program.
    pub fn status(self) -> u8
        ensures { result ≡ status_of self }
    {
        match self {
            Ending::Done => 0,
            Ending::Usage => 2,
            Ending::Config(_) => 3,
            Ending::Journal(_) => 4,
            Ending::Input => 5,
            Ending::Memory => 6,
            Ending::Output => 7,
        }
    }

    /// Writes the line about an ending that is no success. If that fails, there is nobody left to report it to.
    pub fn write_to<W: Write>(self, errors: &mut W) {
        let _ = match self {
            Ending::Done => Ok(()),
            Ending::Usage => writeln!(errors, "narwhal-node: usage"),
            Ending::Config(error) => {
                let number = config_number(error);
                writeln!(errors, "narwhal-node: config {number}")
            }
            Ending::Journal(error) => {
                let number = journal_number(error);
                writeln!(errors, "narwhal-node: journal {number}")
            }
            Ending::Input => writeln!(errors, "narwhal-node: input"),
            Ending::Memory => writeln!(errors, "narwhal-node: memory"),
            Ending::Output => writeln!(errors, "narwhal-node: output"),
        };
        let _ = errors.flush();
    }
}

impl From<CommitteeError> for Ending {
    ghost from_gives = { λ error ending. ending ≡ of_config error };

    fn from(error: CommitteeError) -> Ending {
        match error {
            CommitteeError::Memory => Ending::Memory,
            other => Ending::Config(other),
        }
    }
}

impl From<JournalError> for Ending {
    ghost from_gives = { λ error ending. ending ≡ of_journal error };

    fn from(error: JournalError) -> Ending {
        match error {
            JournalError::Memory => Ending::Memory,
            other => Ending::Journal(other),
        }
    }
}

fn config_number(error: CommitteeError) -> u8
    ensures { result ≡ config_number_of error }
{
    match error {
        CommitteeError::Memory => 1,
        CommitteeError::NotToml => 2,
        CommitteeError::BadSize => 3,
        CommitteeError::BadKey => 4,
        CommitteeError::RepeatedKey => 5,
        CommitteeError::BadLimit => 6,
        CommitteeError::BadStake => 7,
    }
}

fn journal_number(error: JournalError) -> u8
    ensures { result ≡ journal_number_of error }
{
    match error {
        JournalError::Memory => 1,
        JournalError::Device => 2,
        JournalError::Damaged(_) => 3,
        JournalError::ConfigMismatch => 4,
        JournalError::Full => 5,
    }
}
