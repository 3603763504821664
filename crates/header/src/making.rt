//! Makes signed headers of given parts.

ghost use Rattle.std.specs.Prelude.{◌≡◌, ◌⊎◌, Some, IfOk, IfErr};
ghost use Rattle.header.specs.Making.{batches_fault, parents_fault, first_fault, body_of, signed_by};
ghost use Rattle.wire.specs.declared.error.WireError.TheVariants.{Memory};

use sigface::Sign;
use std::alloc::Global;
use wire::{
    Author, BatchReference, BatchReferences, Header, HeaderBody, MAX_BATCHES, MAX_PARENTS,
    ParentReference, ParentReferences, Round, WireError, header_digest,
};

// The list of these batches, as a header has it.
fn batches_of(alloc: Global, batches: &[BatchReference]) -> Result<BatchReferences, WireError>
    ensures ok { IfOk result (λ named. named ≡ batches.now) }
    ensures err { IfErr result (λ error. (error ≡ Memory) ⊎ (batches_fault batches.now ≡ Some error)) }
{
    if batches.len() > MAX_BATCHES {
        return Err(WireError::TooMany);
    }
    let mut named = BatchReferences::new(alloc);
    for batch in batches {
        if !named.may_follow(&batch.digest) {
            return Err(WireError::NotCanonical);
        }
        named.push(*batch)?;
    }
    Ok(named)
}

// The list of these parents, as a header has it.
fn parents_of(alloc: Global, parents: &[ParentReference]) -> Result<ParentReferences, WireError>
    ensures ok { IfOk result (λ named. named ≡ parents.now) }
    ensures err { IfErr result (λ error. (error ≡ Memory) ⊎ (parents_fault parents.now ≡ Some error)) }
{
    if parents.len() > MAX_PARENTS {
        return Err(WireError::TooMany);
    }
    let mut named = ParentReferences::new(alloc);
    for parent in parents {
        if !named.may_follow(parent.author) {
            return Err(WireError::NotCanonical);
        }
        named.push(*parent)?;
    }
    Ok(named)
}

/// The signed header of an author and round with these batches and parents. It need not pass the tests of a committee: `check` says whether
/// it does.
///
/// # Errors
/// The first fault that decoding the header's bytes would find. For the batches: `TooMany` for more than `MAX_BATCHES`, `NotCanonical` if
/// they aren't strictly ascending by digest. Then for the parents: `TooMany` for more than `MAX_PARENTS`, `NotCanonical` if they aren't
/// strictly ascending by author. `Memory` if an allocation failed.
pub fn make<S: Sign>(
    alloc: Global,
    signer: &S,
    author: Author,
    round: Round,
    batches: &[BatchReference],
    parents: &[ParentReference],
) -> Result<Header, WireError>
    ensures ok { IfOk result (λ header. header ≡ signed_by (S.scheme.signature_of signer.now) (body_of author round batches.now parents.now)) }
    ensures err { IfErr result (λ error. (error ≡ Memory) ⊎ (first_fault (batches_fault batches.now) (parents_fault parents.now) ≡ Some error)) }
{
    let batches = batches_of(alloc, batches)?;
    let parents = parents_of(alloc, parents)?;
    let body = HeaderBody {
        author,
        round,
        batches,
        parents,
    };
    let signature = signer.sign(&header_digest(&body));
    Ok(Header { body, signature })
}
