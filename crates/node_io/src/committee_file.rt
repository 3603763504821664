//! Reads the committee file.

ghost use Rattle.std.specs.Prelude.{◌≡◌, ◌⊎◌, ◌≤◌, IfOk, IfErr, vec_len};

use crate::ending::Ending;
use crate::regular_file::read_regular_file;
use std::fs::File;
use std::io::ErrorKind;
use std::rt::Files;

/// The greatest length that a committee file may have, in bytes. A file for 31 members has some 2,200.
pub const MAX_COMMITTEE_FILE_BYTES: usize = 16_777_216;

/// The bytes of the committee file at a path.
///
/// # Errors
/// `Usage` if there is no regular file that can be read, or if it is too long. `Memory` if an allocation failed.
pub fn read_committee_file<R: Files<File = File> + AllocGlobal>(
    rt: &R,
    path: &str,
) -> Result<Vec<u8>, Ending>
    ensures bound { IfOk result (λ bytes. vec_len bytes ≤ MAX_COMMITTEE_FILE_BYTES) }
    ensures refused { IfErr result (λ ending. (ending ≡ Ending.Usage) ⊎ (ending ≡ Ending.Memory)) }
{
    match read_regular_file(rt, path, MAX_COMMITTEE_FILE_BYTES as u64 + 1) {
        Ok(bytes) if bytes.len() <= MAX_COMMITTEE_FILE_BYTES => Ok(bytes),
        Err(error) if error.kind() == ErrorKind::OutOfMemory => Err(Ending::Memory),
        _ => Err(Ending::Usage),
    }
}
