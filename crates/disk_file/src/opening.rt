//! Opens and reads the file of a disk.

ghost use Rattle.std.specs.Prelude.{◌≡◌, ◌-◌, ◌<◌, ◌≤◌, ◌⊎◌, length, IfOk, OnOk};
ghost use Rattle.disk_file.specs.Stories.{GoesOnFor};

use crate::error::OpenError;
use crate::tape::Tape;
use std::alloc::Global;
use std::fs::{self, File, Metadata, OpenOptions, TryLockError};
use std::io::{self, ErrorKind};
use std::os::fd::AsRawFd;
use std::os::unix::fs::FileExt;
use std::path::Path;
use std::rt::Files;

/// The greatest file descriptor that a standard stream has.
const LAST_STREAM: i32 = 2;

/// The regular file at this path, locked. It is created if it isn't there.
pub(crate) fn open_alone<R: Files<File = File>>(rt: &R, path: &str) -> Result<File, OpenError> {
    let file = apart(open_or_make(rt, path)?)?;
    check_is_file(&file.metadata()?)?;
    match file.try_lock() {
        Ok(()) => Ok(file),
        Err(TryLockError::WouldBlock) => Err(OpenError::InUse),
        Err(TryLockError::Error(_)) => Err(OpenError::Device),
    }
}

fn open_or_make<R: Files<File = File>>(rt: &R, path: &str) -> Result<File, OpenError> {
    let mut options = OpenOptions::new();
    options.read(true).write(true);
    match options.create_new(true).open(rt, path) {
        Ok(file) => Ok(file),
        Err(error) if error.kind() == ErrorKind::AlreadyExists => {
            check_is_file(&fs::symlink_metadata(rt, path)?)?;
            Ok(options.create_new(false).open(rt, path)?)
        }
        Err(_) => Err(OpenError::Device),
    }
}

fn check_is_file(found: &Metadata) -> Result<(), OpenError> {
    if found.is_file() {
        Ok(())
    } else {
        Err(OpenError::NotAFile)
    }
}

// If a standard stream was closed, the file may have got that stream's descriptor, and output would go into the file. Then it gets another
// one.
fn apart(file: File) -> io::Result<File> {
    if file.as_raw_fd() > LAST_STREAM {
        Ok(file)
    } else {
        file.try_clone()
    }
}

/// Syncs the folder that a file is in.
pub(crate) fn sync_folder<R: Files<File = File>>(rt: &R, path: &str) -> io::Result<()> {
    let parent = Path::new(path).parent();
    let folder = match parent {
        Some(folder) if !folder.as_str().is_empty() => folder,
        _ => Path::new("."),
    };
    File::open(rt, folder)?.sync_all()
}

/// Reads all bytes of a file.
pub(crate) fn read_all(alloc: Global, file: &File) -> Result<Vec<u8>, OpenError> {
    let len = file.metadata()?.len() as usize;
    let mut bytes = vec![in alloc; 0; len]?;
    file.read_exact_at(&mut bytes, 0)?;
    Ok(bytes)
}

/// Reads the first bytes of a file, at most `keep` of them. Also returns the file's length.
pub(crate) fn read_front(alloc: Global, file: &File, keep: u64) -> Result<(Vec<u8>, u64), OpenError>
    ensures front { IfOk result (λ read. length read.0.items ≤ read.1) }
    ensures kept { IfOk result (λ read. length read.0.items ≤ keep) }
    ensures whole { IfOk result (λ read. (length read.0.items ≡ keep) ⊎ (length read.0.items ≡ read.1)) }
{
    let len = file.metadata()?.len();
    let mut bytes = vec![in alloc; 0; len.min(keep) as usize]?;
    file.read_exact_at(&mut bytes, 0)?;
    Ok((bytes, len))
}

/// Reads the rest of a file from this place to its length, one window at a time. The bytes are not kept: only the record, in contracts,
/// needs them.
pub(crate) fn read_on(
    file: &File,
    tape: &mut Tape,
    window: &mut [u8],
    from: u64,
    len: u64,
) -> io::Result<()>
    requires window { 0 < length window.old }
    requires within { from ≤ len }
    ensures { OnOk result (GoesOnFor (len - from) tape.old tape.new) }
{
    let mut at = from;
    while at < len {
        let count = (len - at).min(window.len() as u64) as usize;
        read_piece(file, tape, window, at, count)?;
        at += count as u64;
    }
    Ok(())
}

// Reads `count` bytes, from this place of the file on, into the front of the window.
fn read_piece(
    file: &File,
    tape: &mut Tape,
    window: &mut [u8],
    at: u64,
    count: usize,
) -> io::Result<()>
    requires { count ≤ length window.old }
    ensures { OnOk result (GoesOnFor count tape.old tape.new) }
{
    let piece = &mut window[..count];
    file.read_exact_at(piece, at)?;
    tape.found(piece);
    Ok(())
}
