//! The order of certificates that a journal leads to.

ghost use Rattle.std.specs.Prelude.{◌≡◌, Ok, IfOk, IfErr};
ghost use Rattle.journal.specs.Areas.{Areas, stands_in};
ghost use Rattle.spec_world.specs.World.{IsPair};
ghost use Rattle.validator.specs.Setting.{node_of};
ghost use Rattle.opening.specs.Decoded.{decoded_in, Reports};
ghost use Rattle.journal_account.specs.Accounts.{AreOrdered};

use crate::flaw::Flaw;
use crate::reading::after_records;
use journal::Record;
use sigface::Sign;
use std::alloc::Global;
use validator::Config;
use wire::Digest;

/// The order that a journal with these records leads to: the digests of the ordered certificates.
///
/// # Errors
/// Those of an opening of a node: `Damaged` with a place in bytes, `ConfigMismatch`, or `Memory` if an allocation failed.
pub fn order_of<S: Sign>(
    alloc: Global,
    config: &Config<S>,
    records: &[Record],
) -> Result<Vec<Digest>, Flaw>
    ensures ok { (areas : Areas) → IsPair areas → stands_in areas ≡ Ok records.now → IfOk result (λ digests. AreOrdered (node_of S.scheme config.now) areas digests.items) }
    ensures err { (areas : Areas) → IsPair areas → stands_in areas ≡ Ok records.now → IfErr result (λ flaw. Reports flaw.error (decoded_in (node_of S.scheme config.now) areas)) }
{
    let validator = after_records(alloc, config, records)?;
    let order = validator.order();
    let mut digests = Vec::with_capacity(alloc, order.len())?;
    digests.extend_from_slice(order)?;
    Ok(digests)
}
