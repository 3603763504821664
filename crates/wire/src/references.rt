//! What a header refers to: batches, and certificates of the round before.

ghost use Rattle.std.specs.Prelude.{◌≡◌};
ghost use Rattle.wire.specs.declared.limits.TheConstants.{MAX_BATCHES, MAX_PARENTS};
ghost use Rattle.wire.specs.References.{IsBatchReference, IsParentReference, batch_before, batch_follows, parent_before, parent_follows};

use crate::entries::{Entries, Entry};
use crate::keys::{Author, Digest};
use crate::numbers::fits_two_bytes;

/// A batch that a header names: its digest, and the worker that holds it.
#[derive(Clone, Copy, Debug, PartialEq, Eq)]
pub struct BatchReference {
    /// The batch's digest.
    pub digest: Digest,
    /// The worker that holds the batch; its number is below the committee's number of workers.
    pub worker: u16,
}

impl BatchReference {
    /// A law: what holds of every reference to a batch, such as that its digest has 32 bytes. The call does nothing.
    pub fn limits_hold(&self)
        ensures { IsBatchReference self.now }
    {
        self.digest.limits_hold();
        fits_two_bytes(self.worker);
    }
}

/// A certificate of the round before that a header names: its author, and its digest.
#[derive(Clone, Copy, Debug, PartialEq, Eq)]
pub struct ParentReference {
    /// The certificate's author.
    pub author: Author,
    /// The certificate's digest.
    pub certificate: Digest,
}

impl ParentReference {
    /// A law: what holds of every reference to a parent, such as that its digest has 32 bytes. The call does nothing.
    pub fn limits_hold(&self)
        ensures { IsParentReference self.now }
    {
        self.author.limits_hold();
        self.certificate.limits_hold();
    }
}

impl Entry for BatchReference {
    ghost limit = { MAX_BATCHES };

    ghost fits = { IsBatchReference };

    ghost before = { batch_before };

    fn entry_holds(&self) {
        self.limits_hold();
    }
}

impl Entry for ParentReference {
    ghost limit = { MAX_PARENTS };

    ghost fits = { IsParentReference };

    ghost before = { parent_before };

    fn entry_holds(&self) {
        self.limits_hold();
    }
}

/// The batches that a header names: at most `MAX_BATCHES`, strictly ascending by digest.
pub type BatchReferences = Entries<BatchReference>;

/// The parents that a header names: at most `MAX_PARENTS`, strictly ascending by author.
pub type ParentReferences = Entries<ParentReference>;

impl Entries<BatchReference> {
    /// Whether a batch with this digest may be added next: the digest of the last batch is lower.
    pub fn may_follow(&self, digest: &Digest) -> bool
        ensures { result ≡ batch_follows self.now digest.now }
    {
        match self.as_slice().last() {
            None => true,
            Some(last) => last.digest.cmp(digest).is_lt(),
        }
    }
}

impl Entries<ParentReference> {
    /// Whether a parent of this author may be added next: the author of the last parent has a lower number.
    pub fn may_follow(&self, author: Author) -> bool
        ensures { result ≡ parent_follows self.now author }
    {
        match self.as_slice().last() {
            None => true,
            Some(last) => last.author.0 < author.0,
        }
    }
}
