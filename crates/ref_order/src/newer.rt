//! The committed leaders of the waves above a given one.

ghost use Rattle.std.specs.Prelude.{◌≡◌, [], ◌∷◌, IfOk};
ghost use Rattle.spec_model.specs.Ordering.{newer_to, newer_at, newer, last_wave};
ghost use Rattle.ref_order.specs.Ledgers.{ledger_view};

use crate::ledger::{Ledger, reaches_in};
use crate::ordering::{leader, top};
use std::alloc::{AllocError, Global};
use wire::Certificate;

/// A list with only this leader.
fn alone(alloc: Global, last: &Certificate) -> Result<Vec<Certificate>, AllocError>
    ensures { IfOk result (λ found. found.items ≡ last.now ∷ []) }
{
    let mut found = Vec::new(alloc);
    found.push(last.try_clone()?)?;
    Ok(found)
}

/// The leaders that are committed together with the leader `last`, oldest first, and then `last`: those of waves above `base`, up to the
/// given wave.
pub fn newer_to(
    alloc: Global,
    ledger: &Ledger,
    base: u64,
    wave: u64,
    last: &Certificate,
) -> Result<Vec<Certificate>, AllocError>
    ensures { IfOk result (λ found. found.items ≡ newer_to (ledger_view ledger.now) base wave last.now) }
{
    if wave == 0 {
        return alone(alloc, last);
    }
    if wave <= base {
        return alone(alloc, last);
    }
    if let Some(earlier) = leader(ledger, wave) {
        if reaches_in(alloc, ledger, last, earlier)? {
            let mut found = newer_to(alloc, ledger, base, wave - 1, earlier)?;
            found.push(last.try_clone()?)?;
            return Ok(found);
        }
    }
    newer_to(alloc, ledger, base, wave - 1, last)
}

/// The leaders of waves above `base` that are committed when the leader of `wave` is, oldest first.
pub fn newer_at(
    alloc: Global,
    ledger: &Ledger,
    base: u64,
    wave: u64,
) -> Result<Vec<Certificate>, AllocError>
    ensures { IfOk result (λ found. found.items ≡ newer_at (ledger_view ledger.now) base wave) }
{
    if wave <= base {
        return Ok(Vec::new(alloc));
    }
    match leader(ledger, wave) {
        None => Ok(Vec::new(alloc)),
        Some(last) => newer_to(alloc, ledger, base, wave - 1, last),
    }
}

/// All committed leaders of waves above `base`, oldest first.
pub fn newer(alloc: Global, ledger: &Ledger, base: u64) -> Result<Vec<Certificate>, AllocError>
    ensures { IfOk result (λ found. found.items ≡ newer (ledger_view ledger.now) base) }
{
    match top(ledger) {
        None => Ok(Vec::new(alloc)),
        Some(wave) => newer_at(alloc, ledger, base, wave),
    }
}

/// The greatest wave whose leader has support; 0 if there is none.
pub fn last_wave(ledger: &Ledger) -> u64
    ensures { result ≡ last_wave (ledger_view ledger.now) }
{
    match top(ledger) {
        None => 0,
        Some(wave) => wave,
    }
}
