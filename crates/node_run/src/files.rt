//! The two files of a journal.

ghost use Rattle.std.specs.Prelude.{IfOk};
ghost use Rattle.node_run.specs.Runs.{AreTwo};

use disk_file::{FileDisk, OpenError};
use journal::{LENGTH_BYTES, MAX_GROUP_BYTES, Store, reports};
use node_io::read_regular_file;
use std::alloc::Global;
use std::fs::File;
use std::io::ErrorKind;
use std::rt::Files;

/// How many bytes at the beginning of the spare file are kept in memory. An opening reads no more of it than the longest group, with the
/// gate before it and the gate after it.
const FRONT_BYTES: u64 = (LENGTH_BYTES + MAX_GROUP_BYTES) as u64 + 2;

/// How many bytes are enough to hold the first group of any file that can be read. At most this is the configuration of 31 members, and a
/// head with the generation.
const FIRST_GROUP_BYTES: u64 = 4_096;

/// Opens the two files of a journal. The first file is at this path; the name of the second has `.2` added. A file that doesn't exist is
/// created, and both are locked.
///
/// The newer file is kept in memory as a whole, and of the other file only what an opening reads. Which file is newer is told by the files'
/// first bytes, which are read before the files are locked. Only the use of memory rests on this: if the other file had to be read after
/// all, the opening would fail.
///
/// # Errors
/// The errors of `FileDisk::open`.
pub(crate) fn open_files<R: Files<File = File> + AllocGlobal>(
    rt: &R,
    alloc: Global,
    path: &str,
) -> Result<Store<FileDisk>, OpenError>
    ensures { IfOk result AreTwo }
{
    let other = format!(in alloc; "{path}.2")?;
    let other = other.as_str();
    let generation = generation_at(rt, alloc, path)?;
    if generation_at(rt, alloc, other)? > generation {
        let first = FileDisk::open_front(rt, alloc, path, FRONT_BYTES)?;
        let second = FileDisk::open(rt, alloc, other)?;
        Ok(Store::Two(first, second))
    } else {
        let first = FileDisk::open(rt, alloc, path)?;
        let second = FileDisk::open_front(rt, alloc, other, FRONT_BYTES)?;
        Ok(Store::Two(first, second))
    }
}

// The generation of the file at this path, by its first bytes. None where these have no generation, or can't be read.
fn generation_at<R: Files<File = File> + AllocGlobal>(
    rt: &R,
    alloc: Global,
    path: &str,
) -> Result<Option<u64>, OpenError> {
    match read_regular_file(rt, path, FIRST_GROUP_BYTES) {
        Ok(front) => match reports(alloc, &front)? {
            Some(generation) => Ok(generation),
            None => Ok(None),
        },
        Err(error) if error.kind() == ErrorKind::OutOfMemory => Err(OpenError::Memory),
        Err(_) => Ok(None),
    }
}
