//! What a run gives back.

use journal::Store;
use node_io::Ending;

/// How a run ended, and what it gives back.
#[derive(Drop)]
pub struct Ran<D, W> {
    /// How the run ended.
    pub ending: Ending,
    /// The disks on which the node was opened, one or two. None where they were lost with a thread that couldn't be made.
    pub store: Option<Store<D>>,
    /// The writer. None where it was lost with a thread that couldn't be made, or an allocation failed before the threads were made.
    pub writer: Option<W>,
}
