//! The ledger: all that the order is computed from, which is the committee, the certificates and the coins.

ghost use Rattle.std.specs.Prelude.{◌≡◌, ◌<◌, IfOk};
ghost use Rattle.spec_model.specs.Ordering.{reaches_in, size_in};
ghost use Rattle.spec_model.specs.Slots as slots;
ghost use Rattle.ref_order.specs.Ledgers.{ledger_view};

use committee::Committee;
use std::alloc::{AllocError, Global};
use wire::Certificate;

/// All that the order is computed from: a committee, certificates and coins.
#[derive(Clone, Copy)]
pub struct Ledger<'a> {
    /// The committee.
    pub committee: &'a Committee,
    /// The certificates. If there are several of one round and author, the first one counts.
    pub certificates: &'a [Certificate],
    /// The values of the coins, that of wave 1 first.
    pub coins: &'a [u64],
}

/// How many members the committee has.
pub fn size_in(ledger: &Ledger) -> u16
    ensures value { result ≡ size_in (ledger_view ledger.now) }
    ensures least { 0 < result }
{
    ledger.committee.size()
}

/// The certificates of a round, sorted by author.
pub fn round_in(alloc: Global, ledger: &Ledger, round: u64) -> Result<Vec<Certificate>, AllocError>
    ensures { IfOk result (λ found. found.items ≡ slots.round_of (size_in (ledger_view ledger.now)) (ledger_view ledger.now).slots round) }
{
    crate::slots::round_of(alloc, size_in(ledger), ledger.certificates, round)
}

/// Whether a path of parents leads from one certificate to another.
pub fn reaches_in(
    alloc: Global,
    ledger: &Ledger,
    start: &Certificate,
    end: &Certificate,
) -> Result<bool, AllocError>
    ensures { IfOk result (λ found. found ≡ reaches_in (ledger_view ledger.now) start.now end.now) }
{
    crate::slots::reaches(alloc, size_in(ledger), ledger.certificates, start, end)
}
