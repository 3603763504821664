//! The form of the records in the first group of an area: a configuration, and the head of a checkpoint.

ghost use Rattle.std.specs.Prelude.{◌≡◌, ◌*◌, ◌≤◌, length};
ghost use Rattle.journal.specs.Configuration.{number_of, stakes_size, size_in, has_front, is_configuration as reported_configuration, shaped_version as reported_version};
ghost use Rattle.journal.specs.Areas.{head_in as spec_head_in};

use crate::version::Version;

/// The kind of record that holds a node's configuration, its first byte.
pub const CONFIGURATION: u8 = 0;

/// The kind of record that holds a checkpoint's generation (its head), its first byte.
pub const HEAD: u8 = 2;

/// How many bytes of a configuration come before the members' keys.
pub const SETTINGS_BYTES: usize = 14;

/// The length of a key, in bytes.
pub const KEY_BYTES: usize = 32;

/// The length of a stake, in bytes.
pub const STAKE_BYTES: usize = 4;

/// The length of a head, in bytes: its kind, and the generation.
pub const HEAD_BYTES: usize = 9;

/// The version of the format in which these bytes have the form of a configuration; None if there is none.
pub fn shaped_version(bytes: &[u8]) -> Option<Version>
    ensures { result ≡ reported_version bytes.now }
{
    if is_configuration(Version::First, bytes) {
        Some(Version::First)
    } else if is_configuration(Version::Second, bytes) {
        Some(Version::Second)
    } else {
        None
    }
}

// Whether bytes have the form of a configuration of this version: its kind, the version, and the length that the number of members
// requires.
#[tactic(auto, unfolding(crate::specs::Configuration::is_configuration))]
fn is_configuration(version: Version, bytes: &[u8]) -> bool
    ensures { result ≡ reported_configuration version bytes.now }
{
    if bytes.len() < SETTINGS_BYTES {
        return false;
    }
    let members = u16::from_be_bytes([bytes[12], bytes[13]]);
    has_front(version, bytes) && bytes.len() == size_in(version, members)
}

// Whether bytes start like a configuration of this version: with its kind and the version's number.
fn has_front(version: Version, bytes: &[u8]) -> bool
    requires { 2 ≤ length bytes.now }
    ensures { result ≡ has_front version bytes.now }
{
    bytes[0] == CONFIGURATION && bytes[1] == number_of(version)
}

/// The byte by which a configuration names its version.
pub fn number_of(version: Version) -> u8
    ensures { result ≡ number_of version }
{
    match version {
        Version::First => 1,
        Version::Second => 2,
    }
}

// How many bytes the configuration of this many members has in this version.
fn size_in(version: Version, members: u16) -> usize
    ensures { result ≡ size_in version members }
{
    SETTINGS_BYTES + members as usize * KEY_BYTES + stakes_size(version, members)
}

// How many bytes the stakes of this many members take in this version.
fn stakes_size(version: Version, members: u16) -> usize
    ensures value { result ≡ stakes_size version members }
    ensures most { result ≤ members * STAKE_BYTES }
{
    match version {
        Version::First => 0,
        Version::Second => members as usize * STAKE_BYTES,
    }
}

/// The generation (big-endian) in the record of a checkpoint's head. None if these bytes are no head: they have another length or another
/// first byte, or the generation is 0.
#[tactic(auto, unfolding(crate::specs::Areas::head_in))]
pub fn head_in(bytes: &[u8]) -> Option<u64>
    ensures { result ≡ spec_head_in bytes.now }
{
    if bytes.len() != HEAD_BYTES || bytes[0] != HEAD {
        return None;
    }
    let generation = u64::from_be_bytes([
        bytes[1], bytes[2], bytes[3], bytes[4], bytes[5], bytes[6], bytes[7], bytes[8],
    ]);
    if generation == 0 {
        None
    } else {
        Some(generation)
    }
}
