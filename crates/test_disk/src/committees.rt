//! Nodes of committees whose members sign with the test pair: the key of each is its number plus 1, 32 times.

use crate::words::Reported;
use committee::{Committee, CommitteeError, DEFAULT_DEPTH};
use header::Node;
use sigface::HashSign;
use std::alloc::{AllocError, Global};
use test_cases::write_hex;
use validator::Config;
use wire::{Author, Key};

/// The member whose node is tested, unless a test case names another one.
pub const OWN: Author = Author(0);

/// The stakes of a committee of four, all equal.
pub const FOUR: [u64; 4] = [1; 4];

/// The stakes of a committee of seven.
pub const SEVEN: [u64; 7] = [1; 7];

/// The setting of a node (who it is, and its committee), for the running code and for the reference implementation.
#[derive(Drop)]
pub struct Setting {
    /// The configuration of the running code.
    pub config: Config<HashSign>,
    /// The configuration of the reference implementation.
    pub node: Node<HashSign>,
}

/// The setting of member `own` of a committee that has one member for each stake. None if the committee has no such member.
pub fn setting_of(
    alloc: Global,
    own: u8,
    depth: u64,
    stakes: &[u64],
) -> Result<Option<Setting>, AllocError> {
    let Some(config) = config_of(alloc, own, depth, stakes)? else {
        return Ok(None);
    };
    let Some(committee) = committee_of(alloc, depth, stakes)? else {
        return Ok(None);
    };
    let node = Node {
        own: Author(u16::from(own)),
        committee,
        signer: signer(own),
    };
    Ok(Some(Setting { config, node }))
}

/// The setting of member 0 of four. Its committee's file is valid, so only an allocation can fail.
pub fn own_setting(alloc: Global) -> Result<Setting, AllocError> {
    match setting_of(alloc, 0, DEFAULT_DEPTH, &FOUR)? {
        Some(setting) => Ok(setting),
        None => Err(AllocError),
    }
}

/// The configuration of member 0 in a committee with these stakes (`FOUR` or `SEVEN`).
pub fn own_config(alloc: Global, stakes: &[u64]) -> Result<Config<HashSign>, AllocError> {
    match config_of(alloc, 0, DEFAULT_DEPTH, stakes)? {
        Some(config) => Ok(config),
        None => Err(AllocError),
    }
}

fn config_of(
    alloc: Global,
    own: u8,
    depth: u64,
    stakes: &[u64],
) -> Result<Option<Config<HashSign>>, AllocError> {
    match committee_of(alloc, depth, stakes)? {
        Some(committee) => Ok(Config::new(committee, Author(u16::from(own)), signer(own))),
        None => Ok(None),
    }
}

fn signer(member: u8) -> HashSign {
    HashSign::new(Key([member.wrapping_add(1); 32]))
}

fn committee_of(
    alloc: Global,
    depth: u64,
    stakes: &[u64],
) -> Result<Option<Committee>, AllocError> {
    let mut file = String::new(alloc);
    put_keys(&mut file, stakes.len())?;
    put_stakes(&mut file, stakes)?;
    writeln!(file, "depth = {depth}")?;
    match Committee::read(alloc, file.as_str()) {
        Ok(committee) => Ok(Some(committee)),
        Err(CommitteeError::Memory) => Err(AllocError),
        Err(_) => Ok(None),
    }
}

/// Adds the line `members = [..]` to a committee file, with the public keys of this many members.
fn put_keys(file: &mut String, count: usize) -> Reported {
    file.push_str("members = [")?;
    let mut byte = 0u8;
    for _ in 0..count {
        byte = byte.wrapping_add(1);
        file.push_str("\"")?;
        write_hex(file, &[byte; 32])?;
        file.push_str("\", ")?;
    }
    file.push_str("]\n")
}

/// Adds the line `stakes = [..]` to a committee file.
fn put_stakes(file: &mut String, stakes: &[u64]) -> Reported {
    file.push_str("stakes = [")?;
    for stake in stakes {
        write!(file, "{stake}, ")?;
    }
    file.push_str("]\n")
}
