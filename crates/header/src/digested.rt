//! The digests that the tests of a message compute.

use wire::Digest;

/// The digests that are kept with a message, each computed once.
#[derive(Clone, Copy, Debug, PartialEq, Eq)]
pub(crate) enum Digested {
    /// An acknowledgement, a vote or a coin, of which no digest is kept.
    Nothing,
    /// The digest of a batch.
    Batch(Digest),
    /// The digest of a header.
    Header(Digest),
    /// A certificate, of which two digests are kept.
    Certificate {
        /// The digest of the certificate's header.
        header: Digest,
        /// The digest of the certificate itself.
        certificate: Digest,
    },
}
