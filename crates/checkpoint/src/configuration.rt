//! The record of a member's configuration, with which every checkpoint begins.

ghost use Rattle.std.specs.Prelude.{◌≡◌, ◌==◌, ◌+◌, ◌*◌, ◌++◌, ◌∷◌, [], length, flat_map, is_some, IfOk, IfSome, OnOk, Some};
ghost use Rattle.std.specs.List.{list_all};
ghost use Rattle.std.specs.Int.{w32, to_be_bytes};
ghost use Rattle.journal.specs.Configuration.{stakes_size, size_in, shaped_version};
ghost use Rattle.journal.specs.Snapshot.{CanPack};
ghost use Rattle.journal.specs.declared.configuration.TheConstants.{KEY_BYTES, STAKE_BYTES};
ghost use Rattle.spec_checkpoint.specs.Loading.{is_configuration};
ghost use Rattle.spec_model.specs.Nodes.{Node};
ghost use Rattle.spec_records.specs.Records.{stakes_of, configuration_of};

use committee::Committee;
use journal::{CONFIGURATION, Version, number_of};
use std::alloc::{AllocError, Global};
use wire::Author;
use wire::numbers::two_bytes;

/// The version of the member's configuration that these bytes encode; None where they encode none. The second version can express every
/// committee, the first version only committees where each stake is 1. On `AllocError` an allocation failed.
pub fn version_of(
    alloc: Global,
    committee: &Committee,
    own: Author,
    bytes: &[u8],
) -> Result<Option<Version>, AllocError>
    ensures found { IfOk result (λ found. IfSome found (λ version. bytes.now ≡ configuration_of version committee.now own)) }
    ensures is { IfOk result (λ found. (node : Node) → node.charter ≡ committee.now → node.own ≡ own → is_configuration node bytes.now ≡ is_some found) }
{
    let second = configuration_record(alloc, Version::Second, committee, own)?;
    if bytes == second.as_slice() {
        return Ok(Some(Version::Second));
    }
    if !are_stakes_one(committee) {
        return Ok(None);
    }
    let first = configuration_record(alloc, Version::First, committee, own)?;
    if bytes == first.as_slice() {
        return Ok(Some(Version::First));
    }
    Ok(None)
}

/// Whether each member's stake is 1.
#[tactic(auto, using(crate::proofs::Stakes::one_off, crate::proofs::Stakes::ones_more))]
fn are_stakes_one(committee: &Committee) -> bool
    ensures { result ≡ list_all (λ stake. stake == 1) committee.now.stakes }
{
    committee.limits_hold();
    for member in 0..committee.size() {
        match committee.stake(Author(member)) {
            Some(stake) => {
                if stake != 1 {
                    return false;
                }
            }
            None => unreachable!(),
        }
    }
    true
}

/// The record of a member's configuration: kind, version, own number, depth, number of workers, greatest number of batches, number of
/// members, the members' keys, and in the second version their stakes. On `AllocError` an allocation failed.
pub fn configuration_record(
    alloc: Global,
    version: Version,
    committee: &Committee,
    own: Author,
) -> Result<Vec<u8>, AllocError>
    ensures bytes { IfOk result (λ bytes. bytes.items ≡ configuration_of version committee.now own) }
    ensures len { IfOk result (λ bytes. length bytes.items ≡ size_in version (length committee.now.keys)) }
    ensures shape { IfOk result (λ bytes. shaped_version bytes.items ≡ Some version) }
    // The record fits in one group together with a head, which is the record of a generation.
    ensures packs { IfOk result (λ bytes. CanPack (bytes.items ∷ [])) }
{
    committee.limits_hold();
    let mut bytes = Vec::new(alloc);
    bytes.extend_from_slice(&[CONFIGURATION, number_of(version)])?;
    bytes.extend_from_slice(&two_bytes(own.0))?;
    bytes.extend_from_slice(&two_bytes(committee.depth() as u16))?;
    bytes.extend_from_slice(&two_bytes(committee.workers()))?;
    bytes.extend_from_slice(&committee.batches().to_be_bytes())?;
    bytes.extend_from_slice(&two_bytes(committee.size()))?;
    put_keys(&mut bytes, committee)?;
    put_stakes(&mut bytes, version, committee)?;
    Ok(bytes)
}

/// Adds the members' keys to the bytes.
fn put_keys(bytes: &mut Vec<u8>, committee: &Committee) -> Result<(), AllocError>
    ensures keys { OnOk result (bytes.new.items ≡ bytes.old.items ++ flat_map (λ key. key.0) committee.now.keys) }
    ensures len { OnOk result (length bytes.new.items ≡ length bytes.old.items + length committee.now.keys * KEY_BYTES) }
{
    for member in 0..committee.size() {
        match committee.key(Author(member)) {
            Some(key) => bytes.extend_from_slice(&key.0)?,
            None => unreachable!(),
        }
    }
    Ok(())
}

/// Adds the members' stakes to the bytes, if this version of the record has them.
fn put_stakes(
    bytes: &mut Vec<u8>,
    version: Version,
    committee: &Committee,
) -> Result<(), AllocError>
    ensures stakes { OnOk result (bytes.new.items ≡ bytes.old.items ++ stakes_of version committee.now.stakes) }
    ensures len { OnOk result (length bytes.new.items ≡ length bytes.old.items + stakes_size version (length committee.now.keys)) }
{
    match version {
        Version::First => Ok(()),
        Version::Second => put_each_stake(bytes, committee),
    }
}

/// Adds the members' stakes to the bytes.
fn put_each_stake(bytes: &mut Vec<u8>, committee: &Committee) -> Result<(), AllocError>
    ensures stakes { OnOk result (bytes.new.items ≡ bytes.old.items ++ flat_map (to_be_bytes w32) committee.now.stakes) }
    ensures len { OnOk result (length bytes.new.items ≡ length bytes.old.items + length committee.now.keys * STAKE_BYTES) }
{
    committee.limits_hold();
    for member in 0..committee.size() {
        match committee.stake(Author(member)) {
            Some(stake) => bytes.extend_from_slice(&(stake as u32).to_be_bytes())?,
            None => unreachable!(),
        }
    }
    Ok(())
}
