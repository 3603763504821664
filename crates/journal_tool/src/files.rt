//! Reads the bytes of a journal's two files.

use crate::ending::Ending;
use journal::{CLOSED, SECOND_AREA, Side};
use journal_account::side_read;
use node_io::read_regular_file;
use std::alloc::{AllocError, Global};
use std::fs::File;
use std::io::ErrorKind;
use std::rt::Files;

/// What is added to the path of a journal for the path of its second file.
const SECOND: &str = ".2";

/// The bytes of both files of a journal.
#[derive(Drop)]
pub(crate) struct Both {
    pub first: Vec<u8>,
    pub second: Vec<u8>,
}

/// The bytes of the journal at a path and of its second file. If that one isn't there it counts as empty: a node would create it.
///
/// # Errors
/// `Unreadable` if the first one is no regular file, or if one of them can't be read; `Memory` if an allocation failed.
pub(crate) fn both_at<R: Files<File = File> + AllocGlobal>(
    rt: &R,
    alloc: Global,
    path: &str,
) -> Result<Both, Ending> {
    let first = match read_regular_file(rt, path, u64::MAX) {
        Ok(bytes) => bytes,
        Err(error) => return Err(Ending::of_file(&error)),
    };
    let beside = path_beside(alloc, path)?;
    let second = match read_regular_file(rt, beside.as_str(), u64::MAX) {
        Ok(bytes) => bytes,
        Err(error) if error.kind() == ErrorKind::NotFound => Vec::new(alloc),
        Err(error) => return Err(Ending::of_file(&error)),
    };
    Ok(Both { first, second })
}

// The path of a journal's second file.
fn path_beside(alloc: Global, path: &str) -> Result<String, AllocError> {
    let mut beside = String::new(alloc);
    beside.push_str(path)?;
    beside.push_str(SECOND)?;
    Ok(beside)
}

/// The bytes of the file that `list` shows, and the number from which places in it are counted. If only one of the two files begins with an
/// open gate, it is that one; if both do, it is the one that an opening reads; and if neither does, it is the first.
///
/// # Errors
/// `Flawed` if both begin with an open gate and it can't be determined which is read; `Memory` if an allocation failed.
pub(crate) fn listed(alloc: Global, both: Both) -> Result<(Vec<u8>, u64), Ending> {
    let Both { first, second } = both;
    match side_listed(alloc, &first, &second)? {
        Side::First => Ok((first, 0)),
        Side::Second => Ok((second, SECOND_AREA)),
    }
}

fn side_listed(alloc: Global, first: &[u8], second: &[u8]) -> Result<Side, Ending> {
    if !is_open(second) {
        return Ok(Side::First);
    }
    if !is_open(first) {
        return Ok(Side::Second);
    }
    match side_read(alloc, first, second)? {
        Some(side) => Ok(side),
        None => Ok(Side::First),
    }
}

// Whether a file begins with an open gate (the commit byte before a group), and has more bytes after it.
fn is_open(bytes: &[u8]) -> bool {
    bytes.len() >= 2 && bytes[0] != CLOSED
}
