//! Why the message of a command can't be made.

use std::alloc::{AllocError, AllocFailed};
use wire::WireError;

/// Why the message of a command can't be made.
#[derive(Clone, Copy)]
pub enum FormError {
    /// A word or a label isn't valid where it stands, or the label that is to be defined is defined already.
    BadCommand,
    /// The first fault that decoding the message's bytes would find. It is never `Memory`.
    Unread(WireError),
    /// An allocation failed.
    Memory,
}

impl From<WireError> for FormError {
    fn from(error: WireError) -> FormError {
        match error {
            WireError::Memory => FormError::Memory,
            other => FormError::Unread(other),
        }
    }
}

impl From<AllocError> for FormError {
    fn from(_: AllocError) -> FormError {
        FormError::Memory
    }
}

impl<T: Drop> From<AllocFailed<T>> for FormError {
    fn from(_: AllocFailed<T>) -> FormError {
        FormError::Memory
    }
}
