//! Reading the certificates above the genesis out of a validator's tables, one by one.

ghost use Rattle.std.specs.Prelude.{◌≡◌, IfOk};
ghost use Rattle.checkpoint.specs.Parts.{above_genesis, digested, is_above};

use dag::Dag;
use std::alloc::{AllocError, Global};
use wire::{Certificate, Digest, certificate_digest, header_digest};

/// The certificates above the genesis with their digests.
pub fn certificates_of(alloc: Global, dag: &Dag) -> Result<Vec<(Certificate, Digest)>, AllocError>
    ensures { IfOk result (λ found. found.items ≡ above_genesis dag.now) }
{
    dag.limits_hold();
    let mut found = Vec::new(alloc);
    for place in 0..usize::MAX {
        let Some(certificate) = dag.nth(place) else {
            return Ok(found);
        };
        if is_above_genesis(certificate) {
            found.push(digested(certificate)?)?;
        }
    }
    // This is never reached: the DAG has fewer certificates than the loop has steps.
    Ok(found)
}

/// Whether a certificate is above the genesis.
fn is_above_genesis(certificate: &Certificate) -> bool
    ensures { result ≡ is_above certificate.now }
{
    certificate.header.round.number() > 0
}

/// A copy of a certificate, with its digest.
fn digested(certificate: &Certificate) -> Result<(Certificate, Digest), AllocError>
    ensures { IfOk result (λ found. found ≡ digested certificate.now) }
{
    let header = &certificate.header;
    let digest = certificate_digest(&header_digest(header), header.round, header.author);
    Ok((certificate.try_clone()?, digest))
}
