//! The commands of a script.

use header::Event;

/// A command of a script to a node.
#[derive(Drop)]
pub enum Command {
    /// An event reaches the node.
    Event(Event),
    /// The longest prefix of the pending records that fits a group is settled.
    Flush,
    /// All accepted events are settled by a checkpoint.
    Checkpoint,
    /// The machine stops, and the node is opened again.
    Stop,
}
