//! What a DAG answers to a certificate.

/// The answer to a certificate that isn't refused.
#[derive(Clone, Copy, Debug, PartialEq, Eq)]
pub enum Added {
    /// The certificate is new: the DAG holds it from now on.
    New,
    /// The DAG held the certificate already.
    Known,
}
