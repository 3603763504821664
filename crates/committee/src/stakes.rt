//! Reads the members' stakes, and computes the weights that follow from them.

ghost use Rattle.std.specs.Prelude.{◌≡◌, ◌≢◌, ◌+◌, ◌-◌, ◌*◌, ◌/◌, ◌≤◌, map, sum, replicate, None, Some, IfOk, IfErr, nat_le};
ghost use Rattle.std.specs.List.{list_any};
ghost use Rattle.toml.specs.View.{view, table_view};
ghost use Rattle.committee.specs.File.{has_stakes, stake_in, stakes_among, stakes_in};
ghost use Rattle.committee.specs.declared.stakes.TheConstants.{DEFAULT_STAKE, MAX_TOTAL};

use crate::error::CommitteeError;
use crate::limits::number_within;
use crate::members::MAX_MEMBERS;
use std::alloc::Global;
use toml::{Table, Value};

/// The smallest stake that a member may have.
pub const MIN_STAKE: u64 = 1;

/// The greatest stake that a member may have.
pub const MAX_STAKE: u64 = 1_000_000;

/// The stake of each member if the file names no stakes.
pub const DEFAULT_STAKE: u64 = 1;

/// The greatest sum of all members' stakes.
pub const MAX_TOTAL: u64 = MAX_MEMBERS as u64 * MAX_STAKE;

/// Whether the file has a value `stakes`, of whatever type.
pub(crate) fn has_stakes(table: &Table) -> bool
    ensures { result ≡ has_stakes (table_view table.now) }
{
    table.get("stakes").is_some()
}

fn stake_in(element: &Value) -> Option<u64>
    ensures { result ≡ stake_in (view element.now) }
{
    match element.as_integer() {
        Some(number) => number_within(number, MIN_STAKE, MAX_STAKE),
        None => None,
    }
}

fn stakes_among(
    alloc: Global,
    members: usize,
    elements: &[Value],
) -> Result<Vec<u64>, CommitteeError>
    ensures stakes { IfOk result (λ stakes. stakes_among members (map view elements.now) ≡ Some stakes.items) }
    ensures cause { IfErr result (λ error. error ≢ CommitteeError.Memory → stakes_among members (map view elements.now) ≡ None) }
    ensures error { IfErr result (λ error. error ≢ CommitteeError.Memory → error ≡ CommitteeError.BadStake) }
{
    if elements.len() != members {
        return Err(CommitteeError::BadStake);
    }
    let mut stakes = Vec::new(alloc);
    for element in elements {
        match stake_in(element) {
            Some(stake) => stakes.push(stake)?,
            None => return Err(CommitteeError::BadStake),
        }
    }
    Ok(stakes)
}

fn equal_stakes(alloc: Global, members: usize) -> Result<Vec<u64>, CommitteeError>
    ensures stakes { IfOk result (λ stakes. stakes.items ≡ replicate members DEFAULT_STAKE) }
    ensures error { IfErr result (λ error. error ≡ CommitteeError.Memory) }
{
    match vec![in alloc; DEFAULT_STAKE; members] {
        Ok(stakes) => Ok(stakes),
        Err(_) => Err(CommitteeError::Memory),
    }
}

/// The stakes of this many members: those in the file, or 1 for each. `BadStake` if `stakes` isn't a list of one stake for each member.
pub(crate) fn stakes_in(
    alloc: Global,
    members: usize,
    table: &Table,
) -> Result<Vec<u64>, CommitteeError>
    ensures stakes { IfOk result (λ stakes. stakes_in members (table_view table.now) ≡ Some stakes.items) }
    ensures cause { IfErr result (λ error. error ≢ CommitteeError.Memory → stakes_in members (table_view table.now) ≡ None) }
    ensures error { IfErr result (λ error. error ≢ CommitteeError.Memory → error ≡ CommitteeError.BadStake) }
{
    match table.get("stakes") {
        Some(value) => match value.as_array() {
            Some(array) => stakes_among(alloc, members, array.as_slice()),
            None => Err(CommitteeError::BadStake),
        },
        None => equal_stakes(alloc, members),
    }
}

/// The sum of the stakes.
pub(crate) fn total_of(stakes: &[u64]) -> u64
    requires { sum stakes.now ≤ MAX_TOTAL }
    ensures { result ≡ sum stakes.now }
{
    let mut total = 0;
    for stake in stakes {
        total += *stake;
    }
    total
}

/// The least weight of a quorum, if all members together weigh `total`: more than two thirds of it.
pub(crate) fn quorum_of(total: u64) -> u64
    requires { total ≤ MAX_TOTAL }
    ensures { result ≡ 2 * total / 3 + 1 }
{
    2 * total / 3 + 1
}

/// The tolerated weight, if all members together weigh `total`: less than a third of it.
pub(crate) fn tolerated_of(total: u64) -> u64
    requires { 1 ≤ total }
    ensures { result ≡ (total - 1) / 3 }
{
    (total - 1) / 3
}

/// The least weight of support, if all members together weigh `total`: at least a third of it.
pub(crate) fn support_of(total: u64) -> u64
    requires { total ≤ MAX_TOTAL }
    ensures { result ≡ (total + 2) / 3 }
{
    (total + 2) / 3
}

/// Whether the stake of one member alone is a quorum.
pub(crate) fn one_is_quorum(stakes: &[u64], quorum: u64) -> bool
    ensures { result ≡ list_any (λ stake. nat_le quorum stake) stakes.now }
{
    stakes.iter().any(|stake| quorum <= *stake)
}
