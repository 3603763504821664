//! Which versions of the format can express a committee, and the lengths of its keys.

ghost use Rattle.std.specs.Prelude.{◌≡◌, true, All};
ghost use Rattle.spec_records.specs.Records.{CanReport};
ghost use Rattle.opening.specs.Decoded.{has_ones as decoded_ones, can_report as decoded_by_version};
ghost use Rattle.wire.specs.Fields.{HasBytes, AreBytes};

use committee::Committee;
use journal::Version;
use wire::{Author, Key};

/// A law: each of these bytes is a number below 256. The call does nothing.
pub fn are_bytes(bytes: &[u8])
    ensures { AreBytes bytes.now }
{
    let _ = bytes;
}

/// Whether a configuration in this version can express a committee. Version 1 has no stakes, so it can only if each stake is 1.
pub fn can_report(version: Version, committee: &Committee) -> bool
    ensures value { result ≡ decoded_by_version version committee.now }
    ensures reports { result ≡ true → CanReport version committee.now }
{
    match version {
        Version::First => has_ones(committee),
        Version::Second => true,
    }
}

// Whether the stake of each member is 1.
fn has_ones(committee: &Committee) -> bool
    ensures { result ≡ decoded_ones committee.now }
{
    committee.limits_hold();
    committee.total() == committee.size() as u64
}

/// A law: each key of a committee has 32 bytes. The call looks at each key and changes nothing.
pub(crate) fn keys_hold(committee: &Committee)
    ensures { All (λ key. HasBytes 32 key.0) committee.now.keys }
{
    for member in 0..committee.size() {
        match committee.key(Author(member)) {
            Some(key) => is_key(key),
            None => unreachable!(),
        }
    }
}

// A law: a key has 32 bytes. The call does nothing.
fn is_key(key: &Key)
    ensures { HasBytes 32 key.now.0 }
{
    are_bytes(&key.0);
}
