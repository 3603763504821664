//! The node that threads share. It consists of a book under a lock and of the words: three atomic integers that say how many events were
//! accepted, how many of them are settled, and whether the node is down. Each thread calls it with a seat, which is what the thread knows
//! of these events.
#![tactic(auto)]

mod flush_seat;
mod flushing;
mod home;
mod node;
mod reading;
mod submitting;

pub use book::{MAX_ACCEPTED, Receipt, Refusal};
pub use flush_seat::FlushSeat;
pub use node::Node;
pub use node_seats::Seat;
