//! What contracts know of a disk's file.

use diskmodel::Call;
use std::collections::LinkedList;

/// The bytes with which a file began, the calls on it since then, and how many have failed. It exists in contracts alone.
pub struct TapeView {
    pub first: LinkedList<u8>,
    pub calls: LinkedList<Call>,
    pub faults: u64,
}
