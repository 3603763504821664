//! Reading the batches out of a validator's tables, one by one.

ghost use Rattle.std.specs.Prelude.{◌≡◌, All, IfOk};
ghost use Rattle.std.specs.Map.{values_of};
ghost use Rattle.batchstore.specs.Kept.{IsUnderItsDigest};

use batchstore::{BatchStore, Held};
use std::alloc::{AllocError, Global};
use wire::Digest;

/// The batches with their digests, which are not computed anew: bodies may be many gigabytes.
pub fn batches_of(alloc: Global, batches: &BatchStore) -> Result<Vec<(Digest, Held)>, AllocError>
    ensures digested { IfOk result (λ found. All IsUnderItsDigest found.items) }
    ensures held { IfOk result (λ found. values_of found.items ≡ batches.now.held) }
{
    let mut found = Vec::with_capacity(alloc, batches.len())?;
    for place in 0..batches.len() {
        match batches.entry(place) {
            Some((digest, held)) => found.push((*digest, again(held)?))?,
            None => unreachable!(),
        }
    }
    Ok(found)
}

/// A copy of a store's entry for a batch. The batch's body is shared, not copied.
fn again(held: &Held) -> Result<Held, AllocError>
    ensures { IfOk result (λ copy. copy ≡ held.now) }
{
    let batch = held.batch().share()?;
    Ok(Held::new(batch, held.acknowledged(), held.is_named()))
}
