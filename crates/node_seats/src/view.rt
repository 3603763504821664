//! What a seat knows, as contracts see it.

use header::Checked;
use std::collections::LinkedList;

/// An accepted event with the number of the seat that brought it. It exists in contracts alone.
pub struct Marked {
    pub by: u64,
    pub event: Checked,
}

/// What a seat knows: which accepted events it has seen, which of these are settled, which events are its own, and whether the node is
/// down. It exists in contracts alone.
pub struct View {
    /// Whether the seat is still in use. It isn't once it was merged into another one.
    pub live: bool,
    /// Whether the seat knows its number.
    pub numbered: bool,
    pub number: u64,
    pub seen: LinkedList<Marked>,
    pub durable: LinkedList<Marked>,
    pub mine: LinkedList<Checked>,
    /// Whether the seat knows that the node is down.
    pub down: bool,
    /// Whether the seat has the right to take the node down. The first seat has it until it uses it; until then the node is up.
    pub may_fail: bool,
    /// The accepted events, and the settled ones, that another seat has shared with this one and that it hasn't looked at yet.
    pub heard: LinkedList<Marked>,
    pub heard_durable: LinkedList<Marked>,
}
