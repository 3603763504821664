//! How a header is made of its parts and signed.

ghost use Rattle.std.specs.Prelude.{◌≡◌, None, IfOk};
ghost use Rattle.header.specs.Making.{batches_fault, parents_fault, body_of, signed_by};

use sigface::Sign;
use std::alloc::{AllocError, Global};
use wire::{Author, BatchReference, Header, ParentReference, Round, WireError};

/// The signed header with these parts, which are sorted and few enough. On `AllocError` an allocation failed.
pub(crate) fn signed<S: Sign>(
    alloc: Global,
    signer: &S,
    own: Author,
    round: Round,
    batches: &[BatchReference],
    parents: &[ParentReference],
) -> Result<Header, AllocError>
    requires batches { batches_fault batches.now ≡ None }
    requires parents { parents_fault parents.now ≡ None }
    ensures { IfOk result (λ header. header ≡ signed_by (S.scheme.signature_of signer.now) (body_of own round batches.now parents.now)) }
{
    match header::make(alloc, signer, own, round, batches, parents) {
        Ok(header) => Ok(header),
        Err(WireError::Memory) => Err(AllocError),
        Err(_) => unreachable!(),
    }
}
