//! Reads whole files, but only regular ones.

use std::fs::{self, File};
use std::io::{self, ErrorKind, Read};
use std::rt::Files;

/// The bytes of the regular file at a path, or of the one that a symbolic link there leads to. Of a file above the greatest length only so
/// much is read. Nothing but a regular file is opened: opening a pipe waits for its writer, and opening a device may do anything.
///
/// # Errors
/// `InvalidInput` if there is no regular file; otherwise the error of looking at it, opening it or reading it.
pub fn read_regular_file<R: Files<File = File> + AllocGlobal>(
    rt: &R,
    path: &str,
    at_most: u64,
) -> io::Result<Vec<u8>> {
    if !fs::metadata(rt, path)?.is_file() {
        return Err(io::Error::from(ErrorKind::InvalidInput));
    }
    let mut bytes = Vec::new(rt.alloc());
    File::open(rt, path)?.take(at_most).read_to_end(&mut bytes)?;
    Ok(bytes)
}
