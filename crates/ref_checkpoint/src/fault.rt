//! Which of a checkpoint's records are at fault.

/// Which of a checkpoint's records are at fault, by their places in the list, counted from 0.
#[derive(Clone, Copy, Debug, PartialEq, Eq)]
pub enum LoadFault {
    /// The record at this place is the first one at fault.
    AtRecord(u64),
    /// Each record is well formed by itself, but no node can have a state with all of them.
    OfWhole,
}
