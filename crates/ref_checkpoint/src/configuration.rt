//! Writes the record of a node's configuration, in each version of the format.

ghost use Rattle.std.specs.Prelude.{◌≡◌, ◌==◌, ◌++◌, flat_map, IfOk, OnOk};
ghost use Rattle.std.specs.Int.{w32, to_be_bytes};
ghost use Rattle.std.specs.List.{list_all};
ghost use Rattle.spec_checkpoint.specs.Loading as loading;
ghost use Rattle.spec_model.specs.Nodes.{node_view};
ghost use Rattle.spec_records.specs.Records.{configuration_of, stakes_of};

use committee::Committee;
use header::Node;
use journal::{Version, number_of};
use sigface::Sign;
use std::alloc::{AllocError, Global};
use wire::numbers::two_bytes;
use wire::{Author, Key};

/// The keys of a committee's members.
#[tactic(auto, using(crate::proofs::MembersMore::member_more))]
fn keys_of(alloc: Global, committee: &Committee) -> Result<Vec<Key>, AllocError>
    ensures { IfOk result (λ keys. keys.items ≡ committee.now.keys) }
{
    let mut keys = Vec::new(alloc);
    for member in 0..committee.size() {
        match committee.key(Author(member)) {
            Some(key) => keys.push(*key)?,
            None => unreachable!(),
        }
    }
    Ok(keys)
}

/// The stakes of a committee's members.
#[tactic(auto, using(crate::proofs::MembersMore::member_more))]
fn stakes_in(alloc: Global, committee: &Committee) -> Result<Vec<u64>, AllocError>
    ensures { IfOk result (λ stakes. stakes.items ≡ committee.now.stakes) }
{
    committee.limits_hold();
    let mut stakes = Vec::new(alloc);
    for member in 0..committee.size() {
        match committee.stake(Author(member)) {
            Some(stake) => stakes.push(stake)?,
            None => unreachable!(),
        }
    }
    Ok(stakes)
}

/// Adds keys to the bytes.
fn put_keys(bytes: &mut Vec<u8>, keys: &[Key]) -> Result<(), AllocError>
    ensures { OnOk result (bytes.new.items ≡ bytes.old.items ++ flat_map (λ key. key.0) keys.now) }
{
    for key in keys {
        bytes.extend_from_slice(&key.0)?;
    }
    Ok(())
}

/// Adds a stake to the bytes, in four bytes.
fn put_stake(bytes: &mut Vec<u8>, stake: u64) -> Result<(), AllocError>
    ensures { OnOk result (bytes.new.items ≡ bytes.old.items ++ to_be_bytes w32 stake) }
{
    bytes.extend_from_slice(&((stake % 4_294_967_296) as u32).to_be_bytes())?;
    Ok(())
}

/// Adds stakes to the bytes.
fn put_stakes(bytes: &mut Vec<u8>, stakes: &[u64]) -> Result<(), AllocError>
    ensures { OnOk result (bytes.new.items ≡ bytes.old.items ++ flat_map (to_be_bytes w32) stakes.now) }
{
    for stake in stakes {
        put_stake(bytes, *stake)?;
    }
    Ok(())
}

/// Adds the stakes of a committee's members to the bytes, if the version has stakes.
fn put_stakes_of(
    alloc: Global,
    bytes: &mut Vec<u8>,
    version: Version,
    committee: &Committee,
) -> Result<(), AllocError>
    ensures { OnOk result (bytes.new.items ≡ bytes.old.items ++ stakes_of version committee.now.stakes) }
{
    match version {
        Version::First => Ok(()),
        Version::Second => put_stakes(bytes, &stakes_in(alloc, committee)?),
    }
}

/// The record of a node's configuration in this version: kind, version, own number, depth, number of workers, greatest number of batches,
/// number of members, their keys, and in version 2 their stakes.
fn configuration(
    alloc: Global,
    version: Version,
    committee: &Committee,
    own: Author,
) -> Result<Vec<u8>, AllocError>
    ensures { IfOk result (λ bytes. bytes.items ≡ configuration_of version committee.now own) }
{
    let mut bytes = Vec::new(alloc);
    bytes.extend_from_slice(&[0, number_of(version)])?;
    bytes.extend_from_slice(&two_bytes(own.0))?;
    bytes.extend_from_slice(&two_bytes(committee.depth() as u16))?;
    bytes.extend_from_slice(&two_bytes(committee.workers()))?;
    bytes.extend_from_slice(&committee.batches().to_be_bytes())?;
    bytes.extend_from_slice(&two_bytes(committee.size()))?;
    put_keys(&mut bytes, &keys_of(alloc, committee)?)?;
    put_stakes_of(alloc, &mut bytes, version, committee)?;
    Ok(bytes)
}

/// Whether each of these stakes is 1.
fn are_ones(stakes: &[u64]) -> bool
    ensures { result ≡ list_all (λ stake. stake == 1) stakes.now }
{
    stakes.iter().all(|stake| *stake == 1)
}

/// Whether a record is the node's own configuration, in a version that can express it: version 2 always can, version 1 if each stake is 1.
pub fn is_configuration<S: Sign>(
    alloc: Global,
    node: &Node<S>,
    record: &[u8],
) -> Result<bool, AllocError>
    ensures { IfOk result (λ is. is ≡ loading.is_configuration (node_view S.scheme node.now) record.now) }
{
    let second = configuration(alloc, Version::Second, &node.committee, node.own)?;
    if record == second.as_slice() {
        return Ok(true);
    }
    let first = configuration(alloc, Version::First, &node.committee, node.own)?;
    Ok(are_ones(&stakes_in(alloc, &node.committee)?) && record == first.as_slice())
}
