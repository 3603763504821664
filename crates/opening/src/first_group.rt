//! Writes the first group of a journal, which has the record of the node's configuration.

ghost use Rattle.std.specs.Prelude.{◌≡◌, ◌+◌, ◌*◌, ◌≤◌, ◌++◌, [], ◌∷◌, length, flat_map, Some, IfOk, OnOk};
ghost use Rattle.std.specs.Int.{w32, to_be_bytes};
ghost use Rattle.committee.specs.declared.members.TheConstants.{MAX_MEMBERS};
ghost use Rattle.journal.specs.Configuration.{stakes_size, size_in, shaped_version as decoded_version};
ghost use Rattle.journal.specs.Format.{FitsGroup};
ghost use Rattle.journal.specs.declared.configuration.TheConstants.{SETTINGS_BYTES, KEY_BYTES, STAKE_BYTES};
ghost use Rattle.spec_records.specs.Records.{stakes_of, configuration_of};

use committee::Committee;
use journal::{CONFIGURATION, Group, KEY_BYTES, STAKE_BYTES, Version, number_of};
use std::alloc::{AllocError, Global};
use wire::Author;
use wire::numbers::two_bytes;

/// The record of a member's configuration: kind, version, own number, depth, number of workers, greatest number of batches, number of
/// members, their keys, and in version 2 their stakes.
pub fn configuration(
    alloc: Global,
    version: Version,
    committee: &Committee,
    own: Author,
) -> Result<Vec<u8>, AllocError>
    ensures bytes { IfOk result (λ bytes. bytes.items ≡ configuration_of version committee.now own) }
    ensures len { IfOk result (λ bytes. length bytes.items ≡ size_in version (length committee.now.keys)) }
    ensures fits { IfOk result (λ bytes. FitsGroup (bytes.items ∷ [])) }
{
    let mut bytes = Vec::new(alloc);
    bytes.extend_from_slice(&[CONFIGURATION, number_of(version)])?;
    bytes.extend_from_slice(&two_bytes(own.0))?;
    bytes.extend_from_slice(&two_bytes(committee.depth() as u16))?;
    bytes.extend_from_slice(&two_bytes(committee.workers()))?;
    bytes.extend_from_slice(&committee.batches().to_be_bytes())?;
    bytes.extend_from_slice(&two_bytes(committee.size()))?;
    put_keys(&mut bytes, committee)?;
    put_stakes(&mut bytes, version, committee)?;
    Ok(bytes)
}

// Adds the members' keys to the bytes.
fn put_keys(bytes: &mut Vec<u8>, committee: &Committee) -> Result<(), AllocError>
    ensures keys { OnOk result (bytes.new.items ≡ bytes.old.items ++ flat_map (λ key. key.0) committee.now.keys) }
    ensures len { OnOk result (length bytes.new.items ≡ length bytes.old.items + length committee.now.keys * KEY_BYTES) }
{
    for member in 0..committee.size() {
        match committee.key(Author(member)) {
            Some(key) => bytes.extend_from_slice(&key.0)?,
            None => unreachable!(),
        }
    }
    Ok(())
}

// Adds the members' stakes to the bytes if the version has stakes.
fn put_stakes(
    bytes: &mut Vec<u8>,
    version: Version,
    committee: &Committee,
) -> Result<(), AllocError>
    ensures stakes { OnOk result (bytes.new.items ≡ bytes.old.items ++ stakes_of version committee.now.stakes) }
    ensures len { OnOk result (length bytes.new.items ≡ length bytes.old.items + stakes_size version (length committee.now.keys)) }
{
    match version {
        Version::First => Ok(()),
        Version::Second => put_each_stake(bytes, committee),
    }
}

// Adds the members' stakes to the bytes.
fn put_each_stake(bytes: &mut Vec<u8>, committee: &Committee) -> Result<(), AllocError>
    ensures stakes { OnOk result (bytes.new.items ≡ bytes.old.items ++ flat_map (to_be_bytes w32) committee.now.stakes) }
    ensures len { OnOk result (length bytes.new.items ≡ length bytes.old.items + length committee.now.keys * STAKE_BYTES) }
{
    committee.limits_hold();
    for member in 0..committee.size() {
        match committee.stake(Author(member)) {
            Some(stake) => bytes.extend_from_slice(&(stake as u32).to_be_bytes())?,
            None => unreachable!(),
        }
    }
    Ok(())
}

/// The group whose only record is the configuration.
pub fn configuration_group(
    alloc: Global,
    version: Version,
    committee: &Committee,
    own: Author,
) -> Result<Group, AllocError>
    ensures group { IfOk result (λ group. group ≡ configuration_of version committee.now own ∷ []) }
    ensures shape { OnOk result (decoded_version (configuration_of version committee.now own) ≡ Some version) }
    ensures short { OnOk result (length (configuration_of version committee.now own) ≤ SETTINGS_BYTES + MAX_MEMBERS * (KEY_BYTES + STAKE_BYTES)) }
{
    committee.limits_hold();
    let own = configuration(alloc, version, committee, own)?;
    let mut records = Vec::new(alloc);
    records.push(own)?;
    match Group::new(alloc, records)? {
        Some(group) => Ok(group),
        None => unreachable!(),
    }
}
