//! Reads the configuration with which a journal begins.

ghost use Rattle.std.specs.Prelude.{◌≡◌, [], Ok, None, IfOk};

use crate::flaw::{Flaw, Why};
use committee::{Committee, CommitteeError};
use journal::{KEY_BYTES, Record, SETTINGS_BYTES, STAKE_BYTES, Version, shaped_version};
use sigface::HashSign;
use std::alloc::{AllocError, Global};
use validator::Config;
use wire::Author;

/// The configuration of the member whose journal has these records, with the own number that the first record says. Its committee is the
/// given one; without a given one, that of the first record. None if there is no record.
///
/// # Errors
/// `Damaged` with the place of the first group, if its first record is no configuration, or if no committee is given and the record names
/// none that is valid, or an own number of no member; `ConfigMismatch` if the own number is no member's of the given committee; `Memory` if
/// an allocation failed.
pub fn config_in(
    alloc: Global,
    committee: Option<Committee>,
    records: &[Record],
) -> Result<Option<Config<HashSign>>, Flaw>
    ensures none { IfOk result (λ config. config ≡ None → records.now ≡ []) }
    ensures empty { records.now ≡ [] → result ≡ Ok None }
{
    let Some(first) = records.first() else {
        return Ok(None);
    };
    let Some(version) = shaped_version(first.bytes.as_slice()) else {
        return Err(Flaw::at(first.gate, Why::FirstGroup));
    };
    match committee {
        Some(committee) => match member_of(committee, first) {
            Some(config) => Ok(Some(config)),
            None => Err(Flaw::other()),
        },
        None => match member_of(own_committee(alloc, version, first)?, first) {
            Some(config) => Ok(Some(config)),
            None => Err(Flaw::at(first.gate, Why::NoMember)),
        },
    }
}

// The committee that a configuration of this version, the first record, describes.
fn own_committee(alloc: Global, version: Version, first: &Record) -> Result<Committee, Flaw> {
    let text = committee_text(alloc, version, first.bytes.as_slice())?;
    match Committee::read(alloc, text.as_str()) {
        Ok(committee) => Ok(committee),
        Err(CommitteeError::Memory) => Err(Flaw::memory()),
        Err(error) => Err(Flaw::at(first.gate, Why::NoCommittee(error))),
    }
}

/// The own number that a configuration says; None if the record is too short.
pub fn own_number(bytes: &[u8]) -> Option<Author> {
    match bytes {
        [_, _, first, second, ..] => Some(Author(u16::from_be_bytes([*first, *second]))),
        _ => None,
    }
}

// The configuration of the member that the first record names; None if the committee has no such member. Its signer is the insecure one of
// the tests, made from the member's public key; nothing that is reported depends on its signatures.
fn member_of(committee: Committee, first: &Record) -> Option<Config<HashSign>> {
    let own = own_number(first.bytes.as_slice())?;
    let key = *committee.key(own)?;
    Config::new(committee, own, HashSign::new(key))
}

// The text of a committee file with the settings of a configuration of this version.
fn committee_text(alloc: Global, version: Version, bytes: &[u8]) -> Result<String, AllocError> {
    let (depth, workers) = (two_at(bytes, 4), two_at(bytes, 6));
    let (batches, members) = (four_at(bytes, 8), two_at(bytes, 12));
    let mut text = String::new(alloc);
    write!(
        &mut text,
        "depth = {depth}\nworkers = {workers}\nbatches = {batches}\nmembers = ["
    )?;
    for member in 0..members {
        put_key(&mut text, bytes, member)?;
    }
    text.push_str("]\nstakes = [")?;
    for member in 0..members {
        let stake = stake_at(version, bytes, members, member);
        write!(&mut text, "{stake}, ")?;
    }
    text.push_str("]\n")?;
    Ok(text)
}

// Adds the key of a member to the text, as a string of hex digits.
fn put_key(text: &mut String, bytes: &[u8], member: u16) -> Result<(), AllocError> {
    let at = SETTINGS_BYTES + member as usize * KEY_BYTES;
    text.push_str("\"")?;
    for byte in bytes.get(at..at + KEY_BYTES).unwrap_or(&[]) {
        write!(text, "{byte:02x}")?;
    }
    text.push_str("\", ")?;
    Ok(())
}

// The stake of a member in a configuration; version 1 has no stakes, so there it is 1.
fn stake_at(version: Version, bytes: &[u8], members: u16, member: u16) -> u32 {
    match version {
        Version::First => 1,
        Version::Second => {
            let keys = members as usize * KEY_BYTES;
            four_at(bytes, SETTINGS_BYTES + keys + member as usize * STAKE_BYTES)
        }
    }
}

// The number in the two bytes at this place; 0 if they are missing.
fn two_at(bytes: &[u8], at: usize) -> u16 {
    match bytes.get(at..) {
        Some([first, second, ..]) => u16::from_be_bytes([*first, *second]),
        _ => 0,
    }
}

// The number in the four bytes at this place; 0 if they are missing.
fn four_at(bytes: &[u8], at: usize) -> u32 {
    match bytes.get(at..) {
        Some([first, second, third, fourth, ..]) => {
            u32::from_be_bytes([*first, *second, *third, *fourth])
        }
        _ => 0,
    }
}
