//! Why a message is refused.

use thiserror::Error;

/// Why a message from some sender is refused. Printed as its number and its name.
#[derive(Clone, Copy, Debug, PartialEq, Eq, Error)]
pub enum CheckError {
    /// An allocation failed. No test allocates memory, so none reports this.
    #[error("1 Memory")]
    Memory,
    /// The sender, the author or a voter is not a member of the committee.
    #[error("2 UnknownAuthor")]
    UnknownAuthor,
    /// The sender is not the member that has to send this message, such as the author of a header.
    #[error("3 BadSender")]
    BadSender,
    /// A signature isn't good for the key of the member that it is of.
    #[error("4 BadSignature")]
    BadSignature,
    /// The parents' authors weigh less than a quorum. An author who is no member weighs 1 here.
    #[error("5 TooFewParents")]
    TooFewParents,
    /// There are more parents than the committee has members.
    #[error("6 TooManyParents")]
    TooManyParents,
    /// The voters weigh less than a quorum. A voter who is no member weighs 1 here.
    #[error("7 TooFewVotes")]
    TooFewVotes,
    /// The number of a batch's worker is that of no worker in this committee.
    #[error("8 UnknownWorker")]
    UnknownWorker,
}
