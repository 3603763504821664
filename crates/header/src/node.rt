//! The setting of a node: who it is in which committee.

ghost use Rattle.std.specs.Prelude.{◌≡◌, ◌==◌, ◌<◌, ◌≤◌, length};
ghost use Rattle.committee.specs.Charter.{quorum_of};
ghost use Rattle.committee.specs.declared.members.TheConstants.{MAX_MEMBERS};

use committee::Committee;
use sigface::Sign;
use wire::Author;

/// The setting of a node: its number, its committee, and its signer.
#[derive(Drop)]
pub struct Node<S: Sign> {
    /// The node's number in the committee.
    pub own: Author,
    /// The node's committee.
    pub committee: Committee,
    /// The signer of the node's own messages.
    pub signer: S,
}

impl<S: Sign> Node<S> {
    /// How many members the node's committee has.
    pub fn size(&self) -> u16
        ensures value { result ≡ length self.now.committee.keys }
        ensures least { 0 < result }
        ensures greatest { result ≤ MAX_MEMBERS }
    {
        self.committee.size()
    }

    /// The least weight of a quorum of the node's committee.
    pub fn quorum(&self) -> u64
        ensures { result ≡ quorum_of self.now.committee }
    {
        self.committee.quorum()
    }

    /// Whether an author is the node's own member.
    pub fn is_own(&self, author: Author) -> bool
        ensures { result ≡ (author.0 == self.now.own.0) }
    {
        author == self.own
    }
}
