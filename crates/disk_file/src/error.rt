//! Why a file can't be opened.

use std::alloc::AllocError;
use std::io;
use thiserror::Error;

/// Why a file can't be opened as a disk.
#[derive(Debug, Drop, Error)]
pub enum OpenError {
    /// An allocation failed.
    #[error("out of memory")]
    Memory,
    /// There is something at the path that isn't a regular file.
    #[error("no regular file")]
    NotAFile,
    /// Another process, or another disk of this process, has the file open as a disk.
    #[error("the file is in use")]
    InUse,
    /// Any other failure of the system.
    #[error("the file can't be opened")]
    Device,
}

impl From<AllocError> for OpenError {
    fn from(_error: AllocError) -> OpenError {
        OpenError::Memory
    }
}

impl From<io::Error> for OpenError {
    fn from(_error: io::Error) -> OpenError {
        OpenError::Device
    }
}
