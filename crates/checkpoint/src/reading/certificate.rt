//! Reading the record of a certificate in a checkpoint.

ghost use Rattle.std.specs.Prelude.{◌≡◌, ◌&&◌, nat_lt};
ghost use Rattle.spec_checkpoint.specs.Reading.{kept_certificate_at, certificate_may_follow};
ghost use Rattle.wire.specs.Reading.{Gives};

use crate::reading::place::place_before;
use std::alloc::Global;
use wire::{Certificate, HeaderBody, WireError};
use wire_read::{Reader, certificate_of};

/// Reads a certificate above the genesis. By round and then author it has to come after the certificates that were read before it.
#[tactic(auto, unfolding(spec_checkpoint::specs::Reading::kept_certificate_at))]
pub fn read_certificate_of(
    alloc: Global,
    before: &[Certificate],
    reader: &mut Reader,
) -> Result<Certificate, WireError>
    ensures { Gives (λ x. (x, reader.new)) result (kept_certificate_at before.now reader.old) }
{
    let certificate = certificate_of(alloc, reader)?;
    if !may_come_next(before, &certificate.header) {
        return Err(WireError::NotCanonical);
    }
    Ok(certificate)
}

/// Whether a certificate with this header is above the genesis, and by round and then author comes after those that were read before it.
fn may_come_next(before: &[Certificate], header: &HeaderBody) -> bool
    ensures { result ≡ (certificate_may_follow before.now header.now && nat_lt 0 header.now.round) }
{
    certificate_may_follow(before, header) && 0 < header.round.number()
}

/// Whether a certificate with this header comes, by round and then author, after those that were read before it.
fn certificate_may_follow(before: &[Certificate], header: &HeaderBody) -> bool
    ensures { result ≡ certificate_may_follow before.now header.now }
{
    match before.last() {
        None => true,
        Some(last) => place_before(
            last.header.round.number(),
            last.header.author.0,
            header.round.number(),
            header.author.0,
        ),
    }
}
