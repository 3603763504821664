//! The answer of an assembly to a vote.

ghost use Rattle.std.specs.Prelude.{◌≡◌};
ghost use Rattle.certify.specs.Answer.{completion_of};

use wire::Certificate;

/// The answer of an assembly (the votes on one header, until they make a certificate) to a vote.
#[derive(Debug, Drop)]
pub enum Added {
    /// The vote counts now; the votes that count weigh less than a quorum.
    Counted,
    /// The vote counts now; with it the votes weigh a quorum, and make this certificate.
    Complete(Certificate),
    /// The vote is on the header, but its voter's vote counts already, or the certificate is complete.
    Again,
    /// The vote is on another header, or its voter is not a member.
    NotOurs,
}

impl Added {
    /// If the vote counts: whether it completes the certificate. None if it doesn't count.
    pub fn completion(&self) -> Option<bool>
        ensures { result ≡ completion_of self.now }
    {
        match self {
            Added::Counted => Some(false),
            Added::Complete(_) => Some(true),
            Added::Again | Added::NotOurs => None,
        }
    }
}
