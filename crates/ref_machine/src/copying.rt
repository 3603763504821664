//! Copies the lists of the tables.

ghost use Rattle.std.specs.Prelude.{◌≡◌, IfOk};

use crate::tables::SlotVote;
use std::alloc::{AllocError, Global};
use wire::{Batch, BatchAck, Certificate, Digest, Header, Vote};

/// A copy of a list of batches. The batches' bytes are shared, not copied.
pub fn batches_again(alloc: Global, batches: &[Batch]) -> Result<Vec<Batch>, AllocError>
    ensures { IfOk result (λ found. found.items ≡ batches.now) }
{
    let mut found = Vec::new(alloc);
    for batch in batches {
        found.push(batch.share()?)?;
    }
    Ok(found)
}

/// A copy of a list of acknowledgements.
pub fn acks_again(alloc: Global, acks: &[BatchAck]) -> Result<Vec<BatchAck>, AllocError>
    ensures { IfOk result (λ found. found.items ≡ acks.now) }
{
    let mut found = Vec::new(alloc);
    found.extend_from_slice(acks)?;
    Ok(found)
}

/// A copy of a list of digests.
pub fn digests_again(alloc: Global, digests: &[Digest]) -> Result<Vec<Digest>, AllocError>
    ensures { IfOk result (λ found. found.items ≡ digests.now) }
{
    let mut found = Vec::new(alloc);
    found.extend_from_slice(digests)?;
    Ok(found)
}

/// A copy of a list of the node's votes.
pub fn slot_votes_again(alloc: Global, votes: &[SlotVote]) -> Result<Vec<SlotVote>, AllocError>
    ensures { IfOk result (λ found. found.items ≡ votes.now) }
{
    let mut found = Vec::new(alloc);
    found.extend_from_slice(votes)?;
    Ok(found)
}

/// A copy of a list of headers.
pub fn headers_again(alloc: Global, headers: &[Header]) -> Result<Vec<Header>, AllocError>
    ensures { IfOk result (λ found. found.items ≡ headers.now) }
{
    let mut found = Vec::new(alloc);
    for header in headers {
        found.push(header.try_clone()?)?;
    }
    Ok(found)
}

/// A copy of a list of votes.
pub fn votes_again(alloc: Global, votes: &[Vote]) -> Result<Vec<Vote>, AllocError>
    ensures { IfOk result (λ found. found.items ≡ votes.now) }
{
    let mut found = Vec::new(alloc);
    found.extend_from_slice(votes)?;
    Ok(found)
}

/// A copy of a list of certificates.
pub fn certificates_again(
    alloc: Global,
    certificates: &[Certificate],
) -> Result<Vec<Certificate>, AllocError>
    ensures { IfOk result (λ found. found.items ≡ certificates.now) }
{
    let mut found = Vec::new(alloc);
    for certificate in certificates {
        found.push(certificate.try_clone()?)?;
    }
    Ok(found)
}

/// A copy of a list of numbers.
pub fn numbers_again(alloc: Global, numbers: &[u64]) -> Result<Vec<u64>, AllocError>
    ensures { IfOk result (λ found. found.items ≡ numbers.now) }
{
    let mut found = Vec::new(alloc);
    found.extend_from_slice(numbers)?;
    Ok(found)
}
