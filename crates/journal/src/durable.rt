//! What a journal has made durable: a group, or a checkpoint.

use crate::group::Group;
use crate::snapshot::Snapshot;

/// Records that are on the disk and synced.
pub enum Durable {
    /// The records of a group that was appended.
    Group(Group),
    /// The records of a checkpoint to which the journal was rewritten.
    Snapshot(Snapshot),
}
