//! The seat of the flusher, the thread that writes a node's records to the disk.

use node_seats::Seat;

/// A seat with which groups and checkpoints are taken and settled. Each node has exactly one flush seat.
pub struct FlushSeat {
    pub(crate) seat: Seat,
    // How many of the events that the seat has seen are settled, and how many are taken.
    pub(crate) settled: u64,
    pub(crate) taken: u64,
    // Whether a checkpoint of all taken events is in flight.
    pub(crate) rewriting: bool,
}

impl Drop for FlushSeat {
    fn drop(self) {
        let FlushSeat {
            seat: _,
            settled: _,
            taken: _,
            rewriting: _,
        } = self;
    }
}
