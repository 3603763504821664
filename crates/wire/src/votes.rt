//! The votes of a certificate.

ghost use Rattle.std.specs.Prelude.{◌≡◌};
ghost use Rattle.wire.specs.declared.limits.TheConstants.{MAX_VOTES};
ghost use Rattle.wire.specs.References.{IsVoteEntry, vote_before, vote_follows};

use crate::entries::{Entries, Entry};
use crate::keys::{Author, Signature};

/// A member's vote in a certificate: the member, and its signature of the certificate's digest.
#[derive(Clone, Copy, Debug, PartialEq, Eq)]
pub struct VoteEntry {
    /// The member that votes.
    pub voter: Author,
    /// The voter's signature of the certificate digest.
    pub signature: Signature,
}

impl VoteEntry {
    /// A law: what holds of every vote in a certificate, such as that its signature has 64 bytes. The call does nothing.
    pub fn limits_hold(&self)
        ensures { IsVoteEntry self.now }
    {
        self.voter.limits_hold();
        self.signature.limits_hold();
    }
}

impl Entry for VoteEntry {
    ghost limit = { MAX_VOTES };

    ghost fits = { IsVoteEntry };

    ghost before = { vote_before };

    fn entry_holds(&self) {
        self.limits_hold();
    }
}

/// The votes of a certificate: at most `MAX_VOTES`, strictly ascending by voter.
pub type VoteEntries = Entries<VoteEntry>;

impl Entries<VoteEntry> {
    /// Whether a vote of this voter may be added next: the voter of the last vote has a lower number.
    pub fn may_follow(&self, voter: Author) -> bool
        ensures { result ≡ vote_follows self.now voter }
    {
        match self.as_slice().last() {
            None => true,
            Some(last) => last.voter.0 < voter.0,
        }
    }
}
