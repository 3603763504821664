//! What a DAG keeps of one certificate.

use committee::MemberSet;
use wire::{Certificate, Digest};

/// A certificate with its digest, its parents' authors, and its mark: whether a committed leader reaches it.
#[derive(Drop)]
pub struct Entry {
    pub(crate) certificate: Certificate,
    pub(crate) digest: Digest,
    // The authors of the certificate's parents in the round below. In the floor's round this isn't used, since nothing below the floor is
    // held.
    pub(crate) parents: MemberSet,
    pub(crate) marked: bool,
}
